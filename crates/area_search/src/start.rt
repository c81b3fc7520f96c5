//! Where a search begins.
ghost use Rattle.std.specs.Prelude.{◌≡◌, ℕ, ◌^◌, ◌<◌, ◌≤◌, IfOk, vec_len};
ghost use Rattle.lattice_grid.specs.Start.{MatchStart, NeverRealised};
ghost use Rattle.lattice_grid.specs.declared.start.Start.TheVariants as starts;
ghost use Rattle.journal_text.specs.Least.{area, IsRight, IsStart, IsNoLarger};
ghost use Rattle.area_search.specs.Answer.{AreUsed};

use cube_core::spec::Spec;
use dual_product::dual::dual_product;
use finder_set::finder::Finder;
use finder_set::improve::{Dropped, Improved, improve};
use lattice_grid::columns::columns;
use lattice_grid::grid::Grid;
use lattice_grid::laws::{full_rails, starts};
use lattice_grid::rails::Rails;
use lattice_grid::start::{Start, pairs_with};
use path_meaning::marks::Marks;
use std::alloc::Global;
use wire_io::fault::NoMemory;

/// The most cells of a lattice with which a search begins: no question is larger.
const MOST_CELLS: u32 = 32_768;

/// The dual product where all literals are allowed; else the lattice of pairs over the rails, or the first pair of
/// assignments that no allowed literal tells apart.
pub fn first_lattice(alloc: Global, spec: &Spec, rails: Rails) -> Result<Start, NoMemory>
    ensures start { IfOk result (IsStart rails spec.now) }
    ensures right { IfOk result (λ start. MatchStart start (IsRight rails spec.now) (λ _ _. NeverRealised spec.now rails)) }
{
    if rails.full(spec.inputs()) {
        Ok(Start::Grid(dual_product(alloc, spec)?))
    } else {
        pairs_with(alloc, spec, rails)
    }
}

/// The lattice, where it has at most as many cells as a question may have, and else the lattice of columns.
fn small_lattice(alloc: Global, spec: &Spec, rails: Rails, first: Grid) -> Result<Grid, NoMemory>
    requires start { IsStart rails spec.now (starts.Grid first) }
    requires right { IsRight rails spec.now first }
    ensures right { IfOk result (IsRight rails spec.now) }
    ensures no_larger { IfOk result (λ grid. area grid ≤ area first) }
    ensures small { IfOk result (λ grid. area grid ≤ 32768) }
{
    if first.shape().area() <= MOST_CELLS {
        return Ok(first);
    }
    starts();
    let _inputs = spec.inputs();
    columns(alloc, spec, rails)
}

/// The lattice with which the search begins, small enough for a question, and where all literals are allowed what the finders
/// make of it; and the finders that were dropped.
pub fn best_lattice(
    alloc: Global,
    spec: &Spec,
    rails: Rails,
    finders: &mut Vec<Box<dyn Finder>>,
    first: Grid,
) -> Result<(Grid, Vec<Dropped>), NoMemory>
    requires start { IsStart rails spec.now (starts.Grid first) }
    requires right { IsRight rails spec.now first }
    requires few { vec_len finders.old < 2 ^ 32 }
    ensures right { IfOk result (λ pair. IsRight rails spec.now pair.0) }
    ensures no_larger { IfOk result (λ pair. IsNoLarger rails spec.now pair.0) }
    ensures small { IfOk result (λ pair. area pair.0 ≤ 32768) }
    ensures used { IfOk result (λ pair. AreUsed begun left rails spec.now finders.old.items finders.new.items pair.1.items) }
    ensures fewer { vec_len finders.new ≤ vec_len finders.old }
{
    let best = small_lattice(alloc, spec, rails, first)?;
    if !rails.full(spec.inputs()) {
        return Ok((best, Vec::new(alloc)));
    }
    full_rails();
    let mut marks = Marks::new(alloc, best.shape().area())?;
    let Improved { grid, dropped } = improve(alloc, finders, spec, best, &mut marks)?;
    Ok((grid, dropped))
}

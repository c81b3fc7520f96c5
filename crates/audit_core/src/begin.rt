//! Where a search for a lattice begins.
ghost use Rattle.std.specs.Prelude.{◌≡◌, ◌↔◌, IfOk, IsTrue};
ghost use Rattle.lattice_grid.specs.declared.start.Start.TheVariants.{Lacking};
ghost use Rattle.journal_text.specs.Least.{IsStart, IsNoLarger};
ghost use Rattle.audit_core.specs.Audit.{HasPair, IsSmall};

use cube_core::assign::Assign;
use cube_core::spec::Spec;
use dual_product::dual::dual_product;
use lattice_grid::grid::Grid;
use lattice_grid::rails::Rails;
use lattice_grid::start::{Start, pairs_with};
use report_text::answer::Answer;
use std::alloc::Global;
use wire_io::fault::NoMemory;

/// The dual product where all literals are allowed; else the lattice of pairs over the rails, or the first pair of
/// assignments that no allowed literal tells apart.
fn beginning(alloc: Global, spec: &Spec, rails: Rails) -> Result<Start, NoMemory>
    ensures { IfOk result (IsStart rails spec.now) }
{
    if rails.full(spec.inputs()) {
        Ok(Start::Grid(dual_product(alloc, spec)?))
    } else {
        pairs_with(alloc, spec, rails)
    }
}

/// Whether two pairs of assignments are the same.
fn same_pair(on: Assign, off: Assign, other_on: Assign, other_off: Assign) -> bool
    ensures { IsTrue result ↔ ((on ≡ other_on) × (off ≡ other_off)) }
{
    on.number() == other_on.number() && off.number() == other_off.number()
}

/// Whether no search begins, since this is the first pair that no allowed literal tells apart.
fn lacks(
    alloc: Global,
    spec: &Spec,
    rails: Rails,
    on: Assign,
    off: Assign,
) -> Result<bool, NoMemory>
    ensures { IfOk result (λ found. IsTrue found ↔ IsStart rails spec.now (Lacking on off)) }
{
    match beginning(alloc, spec, rails)? {
        Start::Grid(_) => Ok(false),
        Start::Lacking { on: x, off: y } => Ok(same_pair(x, y, on, off)),
    }
}

/// Whether a lattice is no larger than the one where a search begins.
fn no_larger(alloc: Global, spec: &Spec, rails: Rails, grid: &Grid) -> Result<bool, NoMemory>
    ensures { IfOk result (λ small. IsTrue small ↔ IsNoLarger rails spec.now grid.now) }
{
    match beginning(alloc, spec, rails)? {
        Start::Grid(first) => Ok(grid.shape().area() <= first.shape().area()),
        Start::Lacking { .. } => Ok(true),
    }
}

/// Whether the pair of an answer, where it says that rails are lacking, is the first one.
pub(crate) fn has_pair(
    alloc: Global,
    spec: &Spec,
    rails: Rails,
    answer: &Answer,
) -> Result<bool, NoMemory>
    ensures { IfOk result (λ found. IsTrue found ↔ HasPair rails spec.now answer.now) }
{
    match answer {
        Answer::NoRails { on, off } => lacks(alloc, spec, rails, *on, *off),
        Answer::Found(_)
        | Answer::Minimum(_)
        | Answer::Undecided { .. }
        | Answer::Mapped { .. }
        | Answer::NoneMapped { .. }
        | Answer::MapUndecided { .. } => Ok(true),
    }
}

/// Whether the lattice of an answer, where it excludes smaller ones, is no larger than the one where a search begins.
pub(crate) fn is_small(
    alloc: Global,
    spec: &Spec,
    rails: Rails,
    answer: &Answer,
) -> Result<bool, NoMemory>
    ensures { IfOk result (λ small. IsTrue small ↔ IsSmall rails spec.now answer.now) }
{
    match answer {
        Answer::Minimum(grid) => no_larger(alloc, spec, rails, grid),
        Answer::Undecided { grid, .. } => no_larger(alloc, spec, rails, grid),
        Answer::Found(_)
        | Answer::Mapped { .. }
        | Answer::NoneMapped { .. }
        | Answer::MapUndecided { .. }
        | Answer::NoRails { .. } => Ok(true),
    }
}

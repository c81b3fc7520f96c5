//! The lattice of pairs over rails.
ghost use Rattle.std.specs.Prelude.{◌≡◌, ◌<◌, ◌≤◌, ℕ, length, All, IfOk, IsSome, find, unwrap_or};
ghost use Rattle.std.specs.Option.{is_none};
ghost use Rattle.cube_core.specs.Function.{IsFunction};
ghost use Rattle.lattice_grid.specs.Control.{NamesBelow};
ghost use Rattle.lattice_grid.specs.Rails.{IsOverRails};
ghost use Rattle.lattice_grid.specs.Realise.{Realises};
ghost use Rattle.lattice_grid.specs.Start.{telling_among, lacking_in, lattice_among, pair_or, pairs_over, MatchStart, IsFirstLacking, NeverRealised};
ghost use Rattle.lattice_grid.specs.declared.control.Control.TheVariants.{One};

use crate::control::Control;
use crate::grid::Grid;
use crate::pairs::single_cell;
use crate::rails::Rails;
use crate::rising::rising_assignments;
use crate::told::{Telling, cells_between};
use cube_core::assign::Assign;
use cube_core::spec::Spec;
use std::alloc::Global;
use wire_io::fault::NoMemory;

/// Where a search over rails begins.
#[derive(Drop)]
pub enum Start {
    /// The lattice of pairs.
    Grid(Grid),
    /// The first pair of an on and an off assignment that no allowed literal tells apart.
    Lacking { on: Assign, off: Assign },
}

/// The first of some literals that is 1 at `on` and 0 at `off`.
fn telling(literals: &[Control], on: Assign, off: Assign) -> Option<Control>
    requires { All (NamesBelow 10) literals.now }
    ensures { result ≡ telling_among literals.now on off }
{
    literals
        .iter()
        .copied()
        .find(|literal| literal.value(on) && !literal.value(off))
}

/// The first off assignment from which no literal tells an on assignment.
fn lacking_off(literals: &[Control], on: Assign, offs: &[Assign]) -> Option<Assign>
    requires { All (NamesBelow 10) literals.now }
    ensures { result ≡ find (λ off. is_none (telling_among literals.now on off)) offs.now }
{
    offs.iter()
        .copied()
        .find(|off| telling(literals, on, *off).is_none())
}

/// The first pair of an on and an off assignment that no literal tells apart.
fn lacking(literals: &[Control], ons: &[Assign], offs: &[Assign]) -> Option<(Assign, Assign)>
    requires { All (NamesBelow 10) literals.now }
    ensures { result ≡ lacking_in literals.now ons.now offs.now }
{
    for on in ons {
        if let Some(off) = lacking_off(literals, *on, offs) {
            return Some((*on, off));
        }
    }
    None
}

/// An on assignment is told from an off assignment by the first of some literals that can.
#[derive(Clone, Copy)]
struct Among<'a> {
    literals: &'a [Control],
}

impl Telling for Among<'_> {
    ghost literal = { λ among on off. unwrap_or (telling_among among.literals.now on off) One };

    ghost can_tell = { λ among on off. All (NamesBelow 10) among.literals.now × IsSome (telling_among among.literals.now on off) };

    fn tell(&self, on: Assign, off: Assign) -> Control {
        telling(self.literals, on, off).unwrap()
    }
}

/// The lattice of some on and some off assignments, or the first pair that no literal tells apart.
fn lattice_or_pair(
    alloc: Global,
    literals: &[Control],
    ons: &[Assign],
    offs: &[Assign],
) -> Result<Start, NoMemory>
    requires inputs { All (NamesBelow 10) literals.now }
    requires some_ons { 0 < length ons.now }
    requires some_offs { 0 < length offs.now }
    requires few_ons { length ons.now ≤ 1024 }
    requires few_offs { length offs.now ≤ 1024 }
    ensures { IfOk result (λ start. start ≡ pair_or (lacking_in literals.now ons.now offs.now) (lattice_among literals.now ons.now offs.now)) }
{
    if let Some((on, off)) = lacking(literals, ons, offs) {
        return Ok(Start::Lacking { on, off });
    }
    let grid = cells_between(alloc, &Among { literals }, ons, offs)?;
    Ok(Start::Grid(grid))
}

/// The start of a function and rails.
fn build(alloc: Global, spec: &Spec, rails: Rails) -> Result<Start, NoMemory>
    ensures start { IfOk result (λ start. start ≡ pairs_over spec.now rails) }
    ensures function { IsFunction spec.now }
{
    let literals = rails.literals(spec.inputs());
    let ons = rising_assignments(alloc, spec.inputs(), spec.on())?;
    let offs = rising_assignments(alloc, spec.inputs(), spec.off())?;
    if ons.is_empty() {
        Ok(Start::Grid(single_cell(alloc, Control::Zero)?))
    } else if offs.is_empty() {
        Ok(Start::Grid(single_cell(alloc, Control::One)?))
    } else {
        lattice_or_pair(alloc, &literals, &ons, &offs)
    }
}

/// The lattice of pairs over rails: one column for each on assignment and one row for each off assignment, both rising;
/// each cell is the literal of the least input that has an allowed literal that is 1 at the on and 0 at the off assignment.
/// It is `0` where there is no on assignment, else `1` where there is no off assignment. `Lacking` comes exactly where some
/// on assignment is not told from some off assignment: the least such on assignment, and for it the least such off
/// assignment. Then no lattice over the rails realises the function.
pub fn pairs_with(alloc: Global, spec: &Spec, rails: Rails) -> Result<Start, NoMemory>
    ensures start { IfOk result (λ start. start ≡ pairs_over spec.now rails) }
    ensures right { IfOk result (λ start. MatchStart start (IsOverRails spec.now.inputs rails) (IsFirstLacking spec.now rails)) }
    ensures realises { IfOk result (λ start. MatchStart start (λ grid. Realises grid spec.now) (λ _ _. NeverRealised spec.now rails)) }
{
    build(alloc, spec, rails)
}

//! The finder.
ghost use Rattle.std.specs.Prelude.{◌≡◌, ◌<◌, ◌≤◌, None, OnOk, OnErr, IfOk, IfSome};
ghost use Rattle.finder_set.specs.Finders.{area_of};
ghost use Rattle.finder_set.specs.Kit.{one_more};
ghost use Rattle.finder_tools.specs.Proposed.{IsRightBelow};

use crate::memo::Memo;
use crate::part::Part;
use crate::solve::{DEPTH, solve};
use crate::tester::Tester;
use cube_core::spec::Spec;
use finder_set::finder::Finder;
use finder_set::slot::Slot;
use finder_tools::proposal::tested;
use lattice_grid::grid::Grid;
use path_meaning::marks::Marks;
use std::alloc::Global;
use std::marker::Model;
use wire_io::fault::NoMemory;

/// How many cells are flooded for a function, each time for 64 assignments.
const WORK: u64 = 64_000_000;

/// A best lattice of so many cells is left as it is.
const SMALL: u32 = 2;

/// Parts the inputs of a function into chosen ones and the others. At each assignment of the chosen ones the function is one
/// of the others; assignments whose functions fit together are a class, each class gives a term of two parts of fewer
/// inputs, and the lattices of all terms are put together, without a line between them where that does no harm, and folded.
/// The parts are parted in the same way; lattices of at most five inputs are also changed a cell at a time until they do
/// with a line less, and lattices of other shapes with fewer cells are drawn at random and changed so. It proposes the smallest
/// lattice that it finds, where that is right and smaller than the best one.
#[derive(Drop)]
pub struct PartsFinder {
    alloc: Global,
    slot: Slot,
}

impl Model for PartsFinder {
    ghost use Rattle.finder_set.specs.Kit.{Turn};

    ghost Value = { Turn };

    ghost view = { λ parts. parts.slot };
}

impl PartsFinder {
    /// A finder that was not begun. It takes no memory.
    pub fn new(alloc: Global) -> Self
        ensures { result ≡ record { left = 0; begun = 0; ready = None } }
    {
        PartsFinder {
            alloc,
            slot: Slot::new(),
        }
    }
}

/// The smallest lattice that is found, if it is right and smaller than the best one.
fn proposed(alloc: Global, spec: &Spec, best: &Grid) -> Result<Option<Grid>, NoMemory>
    ensures { IfOk result (λ ready. IfSome ready (IsRightBelow spec.now best.now)) }
{
    let area = best.shape().area();
    if area <= SMALL {
        return Ok(None);
    }
    let mut tester = Tester::new(alloc, WORK);
    let mut memo = Memo::new(alloc);
    let front = solve(&mut tester, &mut memo, &Part::of_spec(spec), DEPTH)?;
    let mut marks = Marks::new(alloc, area)?;
    match front.smallest() {
        Some(grid) => Ok(tested(spec, best, grid, &mut marks)),
        None => Ok(None),
    }
}

impl Finder for PartsFinder {
    ghost left = { λ parts. parts.left };

    ghost begun = { λ parts. parts.begun };

    /// Makes its proposal for a function and the best lattice so far.
    fn begin(&mut self, spec: &Spec, best: &Grid) -> Result<(), NoMemory>
        ensures counted { self.new.begun ≡ one_more self.old.begun }
        ensures later { self.old.begun ≤ self.new.begun }
        ensures left { OnOk result (self.new.left ≡ 1) }
        ensures right { OnOk result (IfSome self.new.ready (IsRightBelow spec.now best.now)) }
        ensures nothing { OnErr result (self.new ≡ record { left = 0; begun = one_more self.old.begun; ready = None }) }
    {
        self.slot.count();
        let ready = proposed(self.alloc, spec, best)?;
        self.slot.fill(ready);
        Ok(())
    }

    fn left(&self) -> u32 {
        self.slot.left()
    }

    /// Gives out the proposal that is ready, and keeps none.
    fn propose(&mut self) -> Result<Option<Grid>, NoMemory>
        requires { 0 < self.old.left }
        ensures given { result ≡ Ok self.old.ready }
        ensures spent { self.new ≡ record { left = 0; begun = self.old.begun; ready = None } }
    {
        Ok(self.slot.take())
    }
}

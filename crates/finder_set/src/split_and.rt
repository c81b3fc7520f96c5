//! A finder that parts the off cover.
ghost use Rattle.std.specs.Prelude.{◌≡◌, ◌<◌, ◌≤◌, OnOk, OnErr, IfSome, None};
ghost use Rattle.finder_set.specs.Kit.{one_more};
ghost use Rattle.finder_set.specs.Splitting.{ProposesSplit, IsRight};
ghost use Rattle.finder_set.specs.declared.split.Side.TheVariants.{Off};

use crate::finder::Finder;
use crate::slot::Slot;
use crate::split::{Side, proposed};
use cube_core::spec::Spec;
use lattice_grid::grid::Grid;
use std::alloc::Global;
use std::marker::Model;
use wire_io::fault::NoMemory;

/// Parts the dual product's off cover of t cubes into the first (t + 1) / 2 of them, rounded down, and the rest. Each part
/// gives a function that is 0 at the part's assignments and 1 at all others; it proposes the dual products of the two one
/// under the other. It proposes nothing where no assignment is on or none is off, where there are fewer than two cubes,
/// or where a lattice has no room.
#[derive(Drop)]
pub struct SplitAnd {
    alloc: Global,
    slot: Slot,
}

impl Model for SplitAnd {
    ghost use Rattle.finder_set.specs.Kit.{Turn};

    ghost Value = { Turn };

    ghost view = { λ split. split.slot };
}

impl SplitAnd {
    /// A finder that was not begun. It takes no memory.
    pub fn new(alloc: Global) -> Self
        ensures { result ≡ record { left = 0; begun = 0; ready = None } }
    {
        SplitAnd {
            alloc,
            slot: Slot::new(),
        }
    }
}

impl Finder for SplitAnd {
    ghost left = { λ split. split.left };

    ghost begun = { λ split. split.begun };

    /// Makes its proposal for a function. The best lattice so far plays no part.
    fn begin(&mut self, spec: &Spec, _best: &Grid) -> Result<(), NoMemory>
        ensures counted { self.new.begun ≡ one_more self.old.begun }
        ensures later { self.old.begun ≤ self.new.begun }
        ensures left { OnOk result (self.new.left ≡ 1) }
        ensures ready { OnOk result (ProposesSplit Off spec.now self.new.ready) }
        ensures right { OnOk result (IfSome self.new.ready (IsRight spec.now)) }
        ensures nothing { OnErr result (self.new ≡ record { left = 0; begun = one_more self.old.begun; ready = None }) }
    {
        self.slot.count();
        let ready = proposed(self.alloc, Side::Off, spec)?;
        self.slot.fill(ready);
        Ok(())
    }

    fn left(&self) -> u32 {
        self.slot.left()
    }

    /// Gives out the proposal that is ready, and keeps none.
    fn propose(&mut self) -> Result<Option<Grid>, NoMemory>
        requires { 0 < self.old.left }
        ensures given { result ≡ Ok self.old.ready }
        ensures spent { self.new ≡ record { left = 0; begun = self.old.begun; ready = None } }
    {
        Ok(self.slot.take())
    }
}

//! A finder that drops rows and columns.
ghost use Rattle.std.specs.Prelude.{◌≡◌, ◌<◌, ◌≤◌, OnOk, OnErr, IfSome, None};
ghost use Rattle.finder_set.specs.Kit.{one_more};
ghost use Rattle.finder_set.specs.Shrinking.{ProposesSmaller, IsTrimmed, IsRightAndSmaller};

use crate::finder::Finder;
use crate::shrink::{Change, proposed};
use crate::slot::Slot;
use cube_core::spec::Spec;
use lattice_grid::grid::Grid;
use std::alloc::Global;
use std::marker::Model;
use wire_io::fault::NoMemory;

/// Goes through the rows from the first and then through the columns from the first, and drops each one without which
/// the lattice so far still realises the spec, as long as one is left; it proposes the lattice that is left if something
/// was dropped. It proposes nothing for a lattice of more than 1,024 cells.
#[derive(Drop)]
pub struct Trim {
    alloc: Global,
    slot: Slot,
}

impl Model for Trim {
    ghost use Rattle.finder_set.specs.Kit.{Turn};

    ghost Value = { Turn };

    ghost view = { λ trim. trim.slot };
}

impl Trim {
    /// A finder that was not begun. It takes no memory.
    pub fn new(alloc: Global) -> Self
        ensures { result ≡ record { left = 0; begun = 0; ready = None } }
    {
        Trim {
            alloc,
            slot: Slot::new(),
        }
    }
}

impl Finder for Trim {
    ghost left = { λ trim. trim.left };

    ghost begun = { λ trim. trim.begun };

    /// Makes its proposal for a function and the best lattice so far.
    fn begin(&mut self, spec: &Spec, best: &Grid) -> Result<(), NoMemory>
        ensures counted { self.new.begun ≡ one_more self.old.begun }
        ensures later { self.old.begun ≤ self.new.begun }
        ensures left { OnOk result (self.new.left ≡ 1) }
        ensures ready { OnOk result (ProposesSmaller (IsTrimmed spec.now) best.now self.new.ready) }
        ensures right { OnOk result (IfSome self.new.ready (IsRightAndSmaller spec.now best.now)) }
        ensures nothing { OnErr result (self.new ≡ record { left = 0; begun = one_more self.old.begun; ready = None }) }
    {
        self.slot.count();
        let ready = proposed(
            self.alloc,
            Change::RowDropped,
            Change::ColumnDropped,
            spec,
            best,
        )?;
        self.slot.fill(ready);
        Ok(())
    }

    fn left(&self) -> u32 {
        self.slot.left()
    }

    /// Gives out the proposal that is ready, and keeps none.
    fn propose(&mut self) -> Result<Option<Grid>, NoMemory>
        requires { 0 < self.old.left }
        ensures given { result ≡ Ok self.old.ready }
        ensures spent { self.new ≡ record { left = 0; begun = self.old.begun; ready = None } }
    {
        Ok(self.slot.take())
    }
}

//! A finder that makes two neighbouring columns or rows one.
ghost use Rattle.std.specs.Prelude.{◌≡◌, ◌<◌, ◌≤◌, OnOk, OnErr, IfSome, None};
ghost use Rattle.finder_set.specs.Kit.{one_more};
ghost use Rattle.finder_set.specs.Shrinking.{ProposesSmaller, IsFoldedThrough, IsRightAndSmaller};

use crate::finder::Finder;
use crate::shrink::{Change, proposed};
use crate::slot::Slot;
use cube_core::spec::Spec;
use lattice_grid::grid::Grid;
use std::alloc::Global;
use std::marker::Model;
use wire_io::fault::NoMemory;

/// Goes through the neighbouring columns from the left and makes two of them one, whose cell is the left one unless that is
/// `0`, and then the right one, wherever the lattice still realises the spec; the new column, or the right one where
/// nothing was replaced, is the left one of the next two. Then it goes through the neighbouring rows from the top in the
/// same way, where the upper cell is taken unless it is `1`, and then the lower one. It proposes the lattice that is left
/// if something was replaced. It proposes nothing for a lattice of more than 1,024 cells.
#[derive(Drop)]
pub struct Fold {
    alloc: Global,
    slot: Slot,
}

impl Model for Fold {
    ghost use Rattle.finder_set.specs.Kit.{Turn};

    ghost Value = { Turn };

    ghost view = { λ fold. fold.slot };
}

impl Fold {
    /// A finder that was not begun. It takes no memory.
    pub fn new(alloc: Global) -> Self
        ensures { result ≡ record { left = 0; begun = 0; ready = None } }
    {
        Fold {
            alloc,
            slot: Slot::new(),
        }
    }
}

impl Finder for Fold {
    ghost left = { λ fold. fold.left };

    ghost begun = { λ fold. fold.begun };

    /// Makes its proposal for a function and the best lattice so far.
    fn begin(&mut self, spec: &Spec, best: &Grid) -> Result<(), NoMemory>
        ensures counted { self.new.begun ≡ one_more self.old.begun }
        ensures later { self.old.begun ≤ self.new.begun }
        ensures left { OnOk result (self.new.left ≡ 1) }
        ensures ready { OnOk result (ProposesSmaller (IsFoldedThrough spec.now) best.now self.new.ready) }
        ensures right { OnOk result (IfSome self.new.ready (IsRightAndSmaller spec.now best.now)) }
        ensures nothing { OnErr result (self.new ≡ record { left = 0; begun = one_more self.old.begun; ready = None }) }
    {
        self.slot.count();
        let ready = proposed(
            self.alloc,
            Change::ColumnsFolded,
            Change::RowsFolded,
            spec,
            best,
        )?;
        self.slot.fill(ready);
        Ok(())
    }

    fn left(&self) -> u32 {
        self.slot.left()
    }

    /// Gives out the proposal that is ready, and keeps none.
    fn propose(&mut self) -> Result<Option<Grid>, NoMemory>
        requires { 0 < self.old.left }
        ensures given { result ≡ Ok self.old.ready }
        ensures spent { self.new ≡ record { left = 0; begun = self.old.begun; ready = None } }
    {
        Ok(self.slot.take())
    }
}

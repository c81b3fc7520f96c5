//! Room for the floods of a grid's cells.
ghost use Rattle.std.specs.Prelude.{◌≡◌, ℕ, ◌*◌, ◌≤◌, ◌↔◌, IsTrue, IsFalse, IfOk};
ghost use Rattle.lattice_grid.specs.Path.{JoinedBy, CutBy};

use crate::cells::Cells;
use crate::flood::is_joined;
use crate::stamps::Marked;
use std::alloc::Global;
use std::marker::Model;
use wire_io::fault::NoMemory;

/// Room to mark so many cells. It is taken once, and then serves any number of grids and assignments.
#[derive(Drop)]
pub struct Marks {
    marked: Marked,
}

impl Model for Marks {
    ghost use Rattle.std.specs.Prelude.{◌≡◌, ℕ, ◌<◌, ◌^◌, length};
    ghost use Rattle.path_meaning.specs.Stamps.{IsStamps};

    ghost Value = { ℕ };

    ghost view = { λ marks. length marks.marked.stamps };

    ghost invariant = { λ marks. length marks.marked.stamps < 2 ^ 32 };
}

impl Marks {
    /// Room for so many cells.
    pub fn new(alloc: Global, cells: u32) -> Result<Marks, NoMemory>
        ensures { IfOk result (λ marks. marks ≡ cells) }
    {
        Ok(Marks {
            marked: Marked::new(alloc, cells)?,
        })
    }

    /// For how many cells there is room.
    pub fn cells(&self) -> u32
        ensures { result ≡ self.now }
    {
        self.marked.cells() as u32
    }

    /// Whether a path of on-cells over four-neighbours leads from the top row to the bottom row. Where none does, a path of
    /// off-cells over eight-neighbours leads from the left column to the right column.
    pub fn leads_down<C: Cells>(&mut self, cells: &C) -> bool
        requires { (C.size cells.now).rows * (C.size cells.now).cols ≤ self.old }
        ensures joined { IsTrue result ↔ JoinedBy (C.size cells.now) (C.on cells.now) }
        ensures not_cut { IsTrue result ↔ (CutBy (C.size cells.now) (C.on cells.now) → ⊥) }
        ensures cut { IsFalse result ↔ CutBy (C.size cells.now) (C.on cells.now) }
        ensures not_joined { IsFalse result ↔ (JoinedBy (C.size cells.now) (C.on cells.now) → ⊥) }
        ensures kept { self.new ≡ self.old }
    {
        is_joined(&mut self.marked, cells)
    }
}

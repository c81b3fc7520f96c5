//! Larger lattices that repeat the last row or the last column.
ghost use Rattle.std.specs.Prelude.{◌≡◌, ℕ, ◌+◌, ◌*◌, ◌≤◌, IfOk};

use crate::control::Control;
use crate::drawn::{Picture, drawn};
use crate::grid::Grid;
use crate::shape::{Place, Shape};
use std::alloc::Global;
use wire_io::fault::NoMemory;

/// A lattice as a picture that goes on past its last row and its last column.
#[derive(Clone, Copy)]
struct Repeating<'a> {
    grid: &'a Grid,
}

impl Picture for Repeating<'_> {
    ghost use Rattle.lattice_grid.specs.Lattice.{control_at};
    ghost use Rattle.lattice_grid.specs.Repeated.{nearest};

    ghost control = { λ repeating p. control_at repeating.grid.now (nearest repeating.grid.now.size p) };

    ghost covers = { λ _ _. Unit {0} };

    fn control(&self, p: Place) -> Control {
        let shape = self.grid.shape();
        let row = p.row.min(shape.rows() - 1);
        let col = p.col.min(shape.cols() - 1);
        self.grid.at(Place { row, col })
    }
}

impl Grid {
    ghost use Rattle.lattice_grid.specs.Lattice.{IsOver};
    ghost use Rattle.lattice_grid.specs.Rails.{IsOverRails};
    ghost use Rattle.lattice_grid.specs.Rectangle.{Size};
    ghost use Rattle.lattice_grid.specs.Repeated.{IsRepeated};

    /// The last row once more.
    pub fn repeat_row(&self, alloc: Global) -> Result<Grid, NoMemory>
        requires { (self.now.size.rows + 1) * self.now.size.cols ≤ 1048576 }
        ensures cells { let size : Size = record { rows = self.now.size.rows + 1; cols = self.now.size.cols } in IfOk result (IsRepeated self.now size) }
        ensures over { IfOk result (λ grid. (n : ℕ) → IsOver n self.now → IsOver n grid) }
        ensures rails { IfOk result (λ grid. (n rails : ℕ) → IsOverRails n rails self.now → IsOverRails n rails grid) }
    {
        let shape = self.shape();
        self.repeated(alloc, Shape::new(shape.rows() + 1, shape.cols()).unwrap())
    }

    /// The last column once more.
    pub fn repeat_col(&self, alloc: Global) -> Result<Grid, NoMemory>
        requires { self.now.size.rows * (self.now.size.cols + 1) ≤ 1048576 }
        ensures cells { let size : Size = record { rows = self.now.size.rows; cols = self.now.size.cols + 1 } in IfOk result (IsRepeated self.now size) }
        ensures over { IfOk result (λ grid. (n : ℕ) → IsOver n self.now → IsOver n grid) }
        ensures rails { IfOk result (λ grid. (n rails : ℕ) → IsOverRails n rails self.now → IsOverRails n rails grid) }
    {
        let shape = self.shape();
        self.repeated(alloc, Shape::new(shape.rows(), shape.cols() + 1).unwrap())
    }

    /// At each place of a shape the control at the nearest place of this lattice.
    fn repeated(&self, alloc: Global, shape: Shape) -> Result<Grid, NoMemory>
        ensures cells { IfOk result (IsRepeated self.now shape) }
        ensures over { IfOk result (λ grid. (n : ℕ) → IsOver n self.now → IsOver n grid) }
        ensures rails { IfOk result (λ grid. (n rails : ℕ) → IsOverRails n rails self.now → IsOverRails n rails grid) }
    {
        drawn(alloc, &Repeating { grid: self }, shape)
    }
}

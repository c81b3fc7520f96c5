//! Lattices without one of their rows or columns.
ghost use Rattle.std.specs.Prelude.{◌≡◌, ℕ, ◌+◌, ◌^◌, ◌<◌, IfOk};
ghost use Rattle.lattice_grid.specs.Lattice.{IsOver};
ghost use Rattle.lattice_grid.specs.Rails.{IsOverRails};
ghost use Rattle.lattice_compose.specs.Pictures.{passing};
ghost use Rattle.lattice_compose.specs.Without.{IsWithoutRow, IsWithoutCol};

use crate::drawn::{Picture, drawn, shape_of};
use lattice_grid::control::Control;
use lattice_grid::grid::Grid;
use lattice_grid::shape::Place;
use std::alloc::Global;
use wire_io::fault::NoMemory;

/// A number that passes over one.
fn passing(over: u32, number: u32) -> u32
    requires { number + 1 < 2 ^ 32 }
    ensures { result ≡ passing over number }
{
    if number < over { number } else { number + 1 }
}

/// A lattice without one of its rows.
#[derive(Clone, Copy)]
struct WithoutRow<'a> {
    grid: &'a Grid,
    row: u32,
}

impl Picture for WithoutRow<'_> {
    ghost use Rattle.lattice_compose.specs.Pictures.{control_without_row};

    ghost control = { λ without p. control_without_row without.grid.now without.row p };

    ghost covers = { λ without p. (p.row + 1 < without.grid.now.size.rows) × (p.col < without.grid.now.size.cols) × (p.row + 1 < 2 ^ 32) };

    fn control(&self, p: Place) -> Control {
        let row = passing(self.row, p.row);
        self.grid.at(Place { row, col: p.col })
    }
}

/// A lattice without one of its columns.
#[derive(Clone, Copy)]
struct WithoutCol<'a> {
    grid: &'a Grid,
    col: u32,
}

impl Picture for WithoutCol<'_> {
    ghost use Rattle.lattice_compose.specs.Pictures.{control_without_col};

    ghost control = { λ without p. control_without_col without.grid.now without.col p };

    ghost covers = { λ without p. (p.row < without.grid.now.size.rows) × (p.col + 1 < without.grid.now.size.cols) × (p.col + 1 < 2 ^ 32) };

    fn control(&self, p: Place) -> Control {
        let col = passing(self.col, p.col);
        self.grid.at(Place { row: p.row, col })
    }
}

/// The lattice without one of its rows, which is to be inside and not the only one.
pub fn drop_row(alloc: Global, grid: &Grid, row: u32) -> Result<Grid, NoMemory>
    requires inside { row < grid.now.size.rows }
    requires not_only { 1 < grid.now.size.rows }
    ensures cells { IfOk result (IsWithoutRow grid.now row) }
    ensures over { IfOk result (λ less. (n : ℕ) → IsOver n grid.now → IsOver n less) }
    ensures rails { IfOk result (λ less. (n rails : ℕ) → IsOverRails n rails grid.now → IsOverRails n rails less) }
{
    let shape = grid.shape();
    let smaller = shape_of(shape.rows() - 1, shape.cols());
    drawn(alloc, &WithoutRow { grid, row }, smaller)
}

/// The lattice without one of its columns, which is to be inside and not the only one.
pub fn drop_col(alloc: Global, grid: &Grid, col: u32) -> Result<Grid, NoMemory>
    requires inside { col < grid.now.size.cols }
    requires not_only { 1 < grid.now.size.cols }
    ensures cells { IfOk result (IsWithoutCol grid.now col) }
    ensures over { IfOk result (λ less. (n : ℕ) → IsOver n grid.now → IsOver n less) }
    ensures rails { IfOk result (λ less. (n rails : ℕ) → IsOverRails n rails grid.now → IsOverRails n rails less) }
{
    let shape = grid.shape();
    let smaller = shape_of(shape.rows(), shape.cols() - 1);
    drawn(alloc, &WithoutCol { grid, col }, smaller)
}

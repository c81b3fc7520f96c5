//! Rectangles of switches.
ghost use Rattle.std.specs.Prelude.{◌≡◌, ℕ, ◌*◌, ◌<◌, ◌≤◌, ◌↔◌, length, All, IsTrue};
ghost use Rattle.std.specs.Option.{SomeIff};

use crate::control::Control;
use crate::rails::Rails;
use crate::shape::{Place, Shape};
use cube_core::assign::Assign;
use std::marker::Model;

/// A rectangle of switches, row by row.
#[derive(Drop)]
pub struct Grid {
    shape: Shape,
    cells: Vec<Control>,
}

impl Model for Grid {
    ghost use Rattle.lattice_grid.specs.Lattice.{Lattice, IsLattice};

    ghost Value = { Lattice };

    ghost view = { λ grid. record { size = grid.shape; cells = grid.cells.items } };

    ghost invariant = { λ grid. IsLattice (record { size = grid.shape; cells = grid.cells.items }) };
}

impl Grid {
    ghost use Rattle.lattice_grid.specs.Control.{NamesBelow};
    ghost use Rattle.lattice_grid.specs.Lattice.{Lattice, IsLattice, control_at, is_on_at, row_cells, IsOver};
    ghost use Rattle.lattice_grid.specs.Rails.{IsOverRails};

    /// None exactly where there are not as many cells as the shape has.
    pub fn new(shape: Shape, cells: Vec<Control>) -> Option<Grid>
        requires { All (NamesBelow 10) cells.items }
        ensures { SomeIff result (length cells.items ≡ shape.rows * shape.cols) (record { size = shape; cells = cells.items }) }
    {
        if cells.len() == shape.area() as usize {
            Some(Grid { shape, cells })
        } else {
            None
        }
    }

    /// How many rows and columns it has.
    pub fn shape(&self) -> Shape
        ensures { result ≡ self.now.size }
    {
        self.shape
    }

    /// The control at a place, which is to be inside.
    pub fn at(&self, p: Place) -> Control
        requires row { p.row < self.now.size.rows }
        requires col { p.col < self.now.size.cols }
        ensures same { result ≡ control_at self.now p }
        ensures input { NamesBelow 10 result }
    {
        self.cells[(p.row * self.shape.cols() + p.col) as usize]
    }

    /// The cells of a row, from the left; the row is to be inside.
    pub fn row(&self, row: u32) -> &[Control]
        requires { row < self.now.size.rows }
        ensures cells { result.now ≡ row_cells self.now row }
        ensures inputs { All (NamesBelow 10) result.now }
    {
        let cols = self.shape.cols() as usize;
        let start = row as usize * cols;
        &self.cells[start..start + cols]
    }

    /// Whether the cell at a place, which is to be inside, is on at an assignment.
    pub fn is_on(&self, p: Place, x: Assign) -> bool
        requires row { p.row < self.now.size.rows }
        requires col { p.col < self.now.size.cols }
        ensures { result ≡ is_on_at self.now x p }
    {
        self.at(p).value(x)
    }

    /// Whether each literal names an input below `inputs`.
    pub fn names_below(&self, inputs: u8) -> bool
        ensures { IsTrue result ↔ IsOver inputs self.now }
    {
        self.cells.iter().all(|cell| cell.names_below(inputs))
    }

    /// Whether each literal names an input below `inputs`, at most ten, and is allowed.
    pub fn allowed(&self, inputs: u8, rails: Rails) -> bool
        requires { inputs ≤ 10 }
        ensures { IsTrue result ↔ IsOverRails inputs rails self.now }
    {
        self.cells.iter().all(|cell| rails.may_stand(inputs, *cell))
    }
}

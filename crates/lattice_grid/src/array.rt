//! Arrays of switches some of which are stuck.
ghost use Rattle.std.specs.Prelude.{◌≡◌, ℕ, ◌*◌, ◌<◌, ◌≤◌, length};
ghost use Rattle.std.specs.Option.{SomeIff};

use crate::shape::{Place, Shape};
use std::marker::Model;

/// The most rows and the most columns of an array.
pub const MOST_SIDE: u32 = 16;

/// What is wrong with a switch.
#[derive(Clone, Copy, Debug, PartialEq, Eq)]
pub enum Defect {
    /// Nothing: it is on where its control is 1.
    Sound,
    /// It is never on.
    StuckOpen,
    /// It is always on.
    StuckClosed,
}

/// The defects of the switches of an array of at most 16 by 16, row by row.
#[derive(Drop)]
pub struct Array {
    shape: Shape,
    cells: Vec<Defect>,
}

impl Model for Array {
    ghost use Rattle.lattice_grid.specs.Defects.{Defects, IsArray};

    ghost Value = { Defects };

    ghost view = { λ array. record { size = array.shape; cells = array.cells.items } };

    ghost invariant = { λ array. IsArray (record { size = array.shape; cells = array.cells.items }) };
}

impl Array {
    ghost use Rattle.lattice_grid.specs.Defects.{Defects, IsArray, defect_at};

    /// None exactly where a side is longer than sixteen, or there are not as many defects as the shape has cells.
    pub fn new(shape: Shape, cells: Vec<Defect>) -> Option<Array>
        ensures { let a : Defects = record { size = shape; cells = cells.items } in SomeIff result (IsArray a) a }
    {
        if shape.rows() > MOST_SIDE || shape.cols() > MOST_SIDE {
            return None;
        }
        if cells.len() != shape.area() as usize {
            return None;
        }
        Some(Array { shape, cells })
    }

    /// How many rows and columns it has.
    pub fn shape(&self) -> Shape
        ensures same { result ≡ self.now.size }
        ensures kept { IsArray self.now }
    {
        self.shape
    }

    /// The defect at a place, which is to be inside.
    pub fn at(&self, p: Place) -> Defect
        requires row { p.row < self.now.size.rows }
        requires col { p.col < self.now.size.cols }
        ensures { result ≡ defect_at self.now p }
    {
        self.cells[(p.row * self.shape.cols() + p.col) as usize]
    }
}

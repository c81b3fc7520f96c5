//! Sizes of rectangles, and places in them.
ghost use Rattle.std.specs.Prelude.{◌≡◌, ℕ, ◌*◌, ◌/◌, ◌%◌, ◌<◌};
ghost use Rattle.std.specs.Option.{SomeIff};

use std::marker::Model;

/// The most cells of a rectangle.
pub const CELLS: u32 = 1_048_576;

/// The number of rows and columns of a rectangle: at least one of each, and at most `CELLS` cells.
#[derive(Clone, Copy, Debug, PartialEq, Eq)]
pub struct Shape {
    rows: u32,
    cols: u32,
}

impl Model for Shape {
    ghost use Rattle.lattice_grid.specs.Rectangle.{Size, IsSize};

    ghost Value = { Size };

    ghost view = { λ shape. record { rows = shape.rows; cols = shape.cols } };

    ghost invariant = { λ shape. IsSize (record { rows = shape.rows; cols = shape.cols }) };

    ghost inverse = { λ size. record { rows = size.rows; cols = size.cols } };
}

impl Shape {
    ghost use Rattle.lattice_grid.specs.declared.shape.Place.{Place};
    ghost use Rattle.lattice_grid.specs.Path.{IsWithin};
    ghost use Rattle.lattice_grid.specs.Rectangle.{Size, IsSize};

    /// None exactly where there is no row, no column, or more than `CELLS` cells.
    pub fn new(rows: u32, cols: u32) -> Option<Shape>
        ensures { SomeIff result (IsSize (record { rows = rows; cols = cols })) (record { rows = rows; cols = cols }) }
    {
        if rows >= 1 && cols >= 1 && rows <= CELLS / cols {
            Some(Shape { rows, cols })
        } else {
            None
        }
    }

    /// The number of rows, at least 1.
    pub fn rows(self) -> u32
        ensures same { result ≡ self.rows }
        ensures size { IsSize self }
    {
        self.rows
    }

    /// The number of columns, at least 1.
    pub fn cols(self) -> u32
        ensures same { result ≡ self.cols }
        ensures size { IsSize self }
    {
        self.cols
    }

    /// The place of a cell that is counted row by row from 0.
    pub fn place(self, cell: u32) -> Place
        requires { cell < self.rows * self.cols }
        ensures same { let place : Place = record { row = cell / self.cols; col = cell % self.cols } in result ≡ place }
        ensures within { IsWithin self result }
    {
        Place {
            row: cell / self.cols,
            col: cell % self.cols,
        }
    }

    /// The number of cells, rows times columns.
    pub fn area(self) -> u32
        ensures { result ≡ self.rows * self.cols }
    {
        self.rows * self.cols
    }
}

/// A cell of a rectangle by its row and its column, both counted from 0 at the top left.
#[derive(Clone, Copy, Debug, Default, PartialEq, Eq)]
pub struct Place {
    pub row: u32,
    pub col: u32,
}

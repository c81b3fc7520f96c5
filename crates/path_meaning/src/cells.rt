//! Rectangles of cells, each on or off.
ghost use Rattle.std.specs.Prelude.{◌≡◌, ◌<◌, Bool};
ghost use Rattle.std.specs.Option.{option_copied, ForSome};
ghost use Rattle.lattice_grid.specs.declared.shape.Place.{Place};
ghost use Rattle.path_meaning.specs.Defective.{is_on_in};
ghost use Rattle.lattice_grid.specs.Rectangle.{Size};

use cube_core::assign::Assign;
use lattice_grid::array::{Array, Defect};
use lattice_grid::grid::Grid;
use lattice_grid::shape::{Place, Shape};

/// A rectangle of cells of which each is on or off.
pub trait Cells {
    ghost size: { Self → Size };

    ghost on: { Self → Place → Bool };

    /// How many rows and columns there are.
    fn shape(&self) -> Shape
        ensures { result ≡ size self.now };

    /// Whether the cell at a place, which is to be inside, is on.
    fn is_on(&self, p: Place) -> bool
        requires row { p.row < (size self.now).rows }
        requires col { p.col < (size self.now).cols }
        ensures { result ≡ on self.now p };
}

/// A lattice at an assignment x, on an array of its shape or on none.
#[derive(Clone, Copy)]
pub(crate) struct At<'a> {
    pub(crate) grid: &'a Grid,
    pub(crate) array: Option<&'a Array>,
    pub(crate) x: Assign,
    ghost same: { ForSome (option_copied array) (λ a. a.size ≡ grid.now.size) },
}

impl Cells for At<'_> {
    ghost size = { λ at. at.grid.now.size };

    ghost on = { λ at. is_on_in at.grid.now (option_copied at.array) at.x };

    fn shape(&self) -> Shape {
        self.grid.shape()
    }

    fn is_on(&self, p: Place) -> bool {
        match self.array {
            None => self.grid.is_on(p, self.x),
            Some(array) => match array.at(p) {
                Defect::Sound => self.grid.is_on(p, self.x),
                Defect::StuckOpen => false,
                Defect::StuckClosed => true,
            },
        }
    }
}

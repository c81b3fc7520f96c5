//! Lattices by the control at each place.
ghost use Rattle.std.specs.Prelude.{◌≡◌, IfOk};
ghost use Rattle.lattice_grid.specs.declared.control.Control.{Control};
ghost use Rattle.lattice_grid.specs.declared.shape.Place.{Place};
ghost use Rattle.lattice_grid.specs.Control.{NamesBelow};
ghost use Rattle.lattice_grid.specs.Drawn.{IsDrawn};
ghost use Rattle.lattice_grid.specs.Path.{IsWithin};
ghost use Rattle.lattice_grid.specs.Rectangle.{Size, IsSize};

use lattice_grid::control::Control;
use lattice_grid::grid::Grid;
use lattice_grid::shape::{Place, Shape};
use std::alloc::Global;
use wire_io::fault::NoMemory;

/// A control for each place of a rectangle.
pub(crate) trait Picture {
    ghost control: { Self → Place → Control };

    ghost covers: { Self → Place → Type 0 };

    /// The control at a place that the picture covers.
    fn control(&self, p: Place) -> Control
        requires { covers self.now p }
        ensures same { result ≡ control self.now p }
        ensures input { NamesBelow 10 result };
}

/// The shape of so many rows and columns.
pub(crate) fn shape_of(rows: u32, cols: u32) -> Shape
    requires { IsSize (record { rows = rows; cols = cols }) }
    ensures rows { result.rows ≡ rows }
    ensures cols { result.cols ≡ cols }
{
    Shape::new(rows, cols).unwrap()
}

/// The lattice of a shape that has at each place the picture's control.
pub(crate) fn drawn<P: Picture>(alloc: Global, picture: &P, shape: Shape) -> Result<Grid, NoMemory>
    requires { (p : Place) → IsWithin shape p → P.covers picture.now p }
    ensures { IfOk result (IsDrawn (P.control picture.now) shape) }
{
    let mut cells = Vec::new(alloc);
    for index in 0..shape.area() {
        cells.push(picture.control(shape.place(index)))?;
    }
    Ok(Grid::new(shape, cells).unwrap())
}

//! Lattices by the control at each place.
ghost use Rattle.std.specs.Prelude.{◌≡◌, IfOk};
ghost use Rattle.lattice_grid.specs.Control.{NamesBelow};

use lattice_grid::control::Control;
use lattice_grid::grid::Grid;
use lattice_grid::shape::{Place, Shape};
use std::alloc::Global;
use wire_io::fault::NoMemory;

/// A control for each place.
pub(crate) trait Picture {
    /// The control at a place.
    fn control(&self, p: Place) -> Control
        ensures { NamesBelow 10 result };
}

/// The lattice of a shape that has at each place the picture's control.
pub(crate) fn drawn<P: Picture>(alloc: Global, picture: &P, shape: Shape) -> Result<Grid, NoMemory>
    ensures { IfOk result (λ grid. grid.size ≡ shape) }
{
    let mut cells = Vec::new(alloc);
    for index in 0..shape.area() {
        cells.push(picture.control(shape.place(index)))?;
    }
    Ok(Grid::new(shape, cells).unwrap())
}

/// The control at a place, and outside of the lattice `0`.
pub(crate) fn control_at(grid: &Grid, p: Place) -> Control
    ensures { NamesBelow 10 result }
{
    let shape = grid.shape();
    if p.row < shape.rows() && p.col < shape.cols() {
        grid.at(p)
    } else {
        Control::Zero
    }
}

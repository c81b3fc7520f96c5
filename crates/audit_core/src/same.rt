//! Whether two arrays are the same.
ghost use Rattle.std.specs.Prelude.{◌≡◌, ◌↔◌, IsTrue};

use lattice_grid::array::{Array, Defect};
use lattice_grid::shape::Shape;

/// Whether two shapes are the same.
pub(crate) fn same_shapes(a: Shape, b: Shape) -> bool
    ensures { IsTrue result ↔ (a ≡ b) }
{
    a.rows() == b.rows() && a.cols() == b.cols()
}

/// Whether two defects are the same.
fn same_defects(a: Defect, b: Defect) -> bool
    ensures { IsTrue result ↔ (a ≡ b) }
{
    a == b
}

/// Whether two arrays have the same shape and the same defects.
pub(crate) fn same_arrays(a: &Array, b: &Array) -> bool
    ensures { IsTrue result ↔ (a.now ≡ b.now) }
{
    let shape = a.shape();
    if !same_shapes(shape, b.shape()) {
        return false;
    }
    for cell in 0..shape.area() {
        let place = shape.place(cell);
        if !same_defects(a.at(place), b.at(place)) {
            return false;
        }
    }
    true
}

//! Which shapes fit inside which.
ghost use Rattle.std.specs.Prelude.{◌↔◌, IsTrue};
ghost use Rattle.lattice_grid.specs.Rectangle.{FitsInside};

use lattice_grid::shape::Shape;

/// Whether neither number of `a` is larger than that of `b`.
pub fn fits(a: Shape, b: Shape) -> bool
    ensures { IsTrue result ↔ FitsInside a b }
{
    a.rows() <= b.rows() && a.cols() <= b.cols()
}

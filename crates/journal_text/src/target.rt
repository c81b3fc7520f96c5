//! What a question asks for, and how it closes.
ghost use Rattle.std.specs.Prelude.{◌≡◌};

use lattice_grid::array::Array;
use lattice_grid::shape::Shape;

/// What a lattice is asked for on.
#[derive(Drop)]
pub enum Target {
    /// A rectangle of sound switches.
    Whole(Shape),
    /// An array some of whose switches are stuck.
    Marked(Array),
}

/// How a question closes.
#[derive(Clone, Copy, Debug, PartialEq, Eq, Drop)]
pub enum Close {
    /// The steps refute it: there is no such lattice.
    Refuted,
    /// So many steps were learned, and it was given up.
    Spent(u32),
    /// There is such a lattice.
    Satisfied,
}

//! The neighbours of a cell.
ghost use Rattle.std.specs.Prelude.{◌≡◌, ℕ, ◌+◌, ◌<◌, ◌≤◌, ◌++◌, IsTrue};
ghost use Rattle.std.specs.Option.{SomeIff};
ghost use Rattle.arrayvec.specs.ArrayVec.{array_vec_len};
ghost use Rattle.lattice_grid.specs.Path.{AreFourNeighbours, AreEightNeighbours};
ghost use Rattle.lattice_grid.specs.Neighbours.{near_cell, has_near, near_of, four_of, eight_of, HasNeighbours};

use crate::shape::{Place, Shape};
use arrayvec::ArrayVec;

/// The cell so many rows below and so many columns right of the one up left of a place; none exactly where it is outside.
pub fn near(shape: Shape, p: Place, down: u32, right: u32) -> Option<Place>
    requires row { p.row < shape.rows }
    requires col { p.col < shape.cols }
    requires down { down ≤ 2 }
    requires right { right ≤ 2 }
    ensures { SomeIff result (IsTrue (has_near shape p down right)) (near_cell p down right) }
{
    let (rows, cols) = (shape.rows(), shape.cols());
    let (row, col) = (p.row + down, p.col + right);
    if row > 0 && row <= rows && col > 0 && col <= cols {
        Some(Place {
            row: row - 1,
            col: col - 1,
        })
    } else {
        None
    }
}

/// Adds that cell, where it is inside.
fn push_near<const N: usize>(
    found: &mut ArrayVec<Place, N>,
    shape: Shape,
    p: Place,
    down: u32,
    right: u32,
)
    requires row { p.row < shape.rows }
    requires col { p.col < shape.cols }
    requires down { down ≤ 2 }
    requires right { right ≤ 2 }
    requires room { array_vec_len found.old < N }
    ensures items { found.new.items ≡ found.old.items ++ near_of shape p down right }
    ensures len { array_vec_len found.new ≤ array_vec_len found.old + 1 }
{
    if let Some(q) = near(shape, p, down, right) {
        found.push(q);
    }
}

/// The four-neighbours of a place in a shape: up, left, right, down, where inside.
pub fn four(shape: Shape, p: Place) -> ArrayVec<Place, 4>
    requires row { p.row < shape.rows }
    requires col { p.col < shape.cols }
    ensures list { result.items ≡ four_of shape p }
    ensures neighbours { HasNeighbours AreFourNeighbours shape p result.items }
{
    let mut found = ArrayVec::new();
    push_near(&mut found, shape, p, 0, 1);
    push_near(&mut found, shape, p, 1, 0);
    push_near(&mut found, shape, p, 1, 2);
    push_near(&mut found, shape, p, 2, 1);
    found
}

/// The eight-neighbours of a place in a shape: up left, up, up right, left, right, down left, down, down right, where inside.
pub fn eight(shape: Shape, p: Place) -> ArrayVec<Place, 8>
    requires row { p.row < shape.rows }
    requires col { p.col < shape.cols }
    ensures list { result.items ≡ eight_of shape p }
    ensures neighbours { HasNeighbours AreEightNeighbours shape p result.items }
{
    let mut around = ArrayVec::new();
    push_near(&mut around, shape, p, 0, 0);
    push_near(&mut around, shape, p, 0, 1);
    push_near(&mut around, shape, p, 0, 2);
    push_near(&mut around, shape, p, 1, 0);
    push_near(&mut around, shape, p, 1, 2);
    push_near(&mut around, shape, p, 2, 0);
    push_near(&mut around, shape, p, 2, 1);
    push_near(&mut around, shape, p, 2, 2);
    around
}

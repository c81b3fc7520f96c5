//! Two lattices side by side, and one under the other.
ghost use Rattle.std.specs.Prelude.{◌≡◌, ℕ, ◌+◌, ◌*◌, ◌≤◌, max, IfOk};
ghost use Rattle.lattice_grid.specs.Control.{NamesBelow};
ghost use Rattle.lattice_grid.specs.Lattice.{IsOver};
ghost use Rattle.lattice_grid.specs.Rails.{IsOverRails};
ghost use Rattle.lattice_compose.specs.Both.{IsBoth, JoinsBoth};
ghost use Rattle.lattice_compose.specs.Either.{IsEither, JoinsEither};
ghost use Rattle.lattice_compose.specs.Pictures.{control_or};

use crate::drawn::{Picture, drawn, shape_of};
use lattice_grid::control::Control;
use lattice_grid::grid::Grid;
use lattice_grid::shape::Place;
use std::alloc::Global;
use wire_io::fault::NoMemory;

/// The control at a place, and outside of the lattice another one.
fn control_or(grid: &Grid, outside: Control, p: Place) -> Control
    requires { NamesBelow 10 outside }
    ensures same { result ≡ control_or grid.now outside p }
    ensures input { NamesBelow 10 result }
{
    let shape = grid.shape();
    if p.row < shape.rows() && p.col < shape.cols() {
        grid.at(p)
    } else {
        outside
    }
}

/// Two lattices side by side, with a column of `0` between them.
#[derive(Clone, Copy)]
struct Beside<'a> {
    left: &'a Grid,
    right: &'a Grid,
}

impl Picture for Beside<'_> {
    ghost use Rattle.lattice_compose.specs.Pictures.{control_beside};

    ghost control = { λ beside p. control_beside beside.left.now beside.right.now p };

    ghost covers = { λ _ _. Unit {0} };

    fn control(&self, p: Place) -> Control {
        let cols = self.left.shape().cols();
        if p.col < cols {
            control_or(self.left, Control::One, p)
        } else if p.col > cols {
            let col = p.col - cols - 1;
            control_or(self.right, Control::One, Place { row: p.row, col })
        } else {
            Control::Zero
        }
    }
}

/// Two lattices one under the other, with a row of `1` between them.
#[derive(Clone, Copy)]
struct Stacked<'a> {
    upper: &'a Grid,
    lower: &'a Grid,
}

impl Picture for Stacked<'_> {
    ghost use Rattle.lattice_compose.specs.Pictures.{control_stacked};

    ghost control = { λ stacked p. control_stacked stacked.upper.now stacked.lower.now p };

    ghost covers = { λ _ _. Unit {0} };

    fn control(&self, p: Place) -> Control {
        let rows = self.upper.shape().rows();
        if p.row < rows {
            control_or(self.upper, Control::Zero, p)
        } else if p.row > rows {
            let row = p.row - rows - 1;
            control_or(self.lower, Control::Zero, Place { row, col: p.col })
        } else {
            Control::One
        }
    }
}

/// The two lattices side by side, with a column of `0` between them; the lower one is filled below with `1`. It joins its
/// plates exactly where one of the two does.
pub fn either(alloc: Global, left: &Grid, right: &Grid) -> Result<Grid, NoMemory>
    requires { max left.now.size.rows right.now.size.rows * (left.now.size.cols + 1 + right.now.size.cols) ≤ 1048576 }
    ensures cells { IfOk result (IsEither left.now right.now) }
    ensures joined { IfOk result (JoinsEither left.now right.now) }
    ensures over { IfOk result (λ grid. (n : ℕ) → IsOver n left.now → IsOver n right.now → IsOver n grid) }
    ensures rails { IfOk result (λ grid. (n rails : ℕ) → IsOverRails n rails left.now → IsOverRails n rails right.now → IsOverRails n rails grid) }
{
    let rows = left.shape().rows().max(right.shape().rows());
    let cols = left.shape().cols() + 1 + right.shape().cols();
    drawn(alloc, &Beside { left, right }, shape_of(rows, cols))
}

/// The two lattices one under the other, with a row of `1` between them; the narrower one is filled at the right with `0`.
/// It joins its plates exactly where both of them do.
pub fn both(alloc: Global, upper: &Grid, lower: &Grid) -> Result<Grid, NoMemory>
    requires { (upper.now.size.rows + 1 + lower.now.size.rows) * max upper.now.size.cols lower.now.size.cols ≤ 1048576 }
    ensures cells { IfOk result (IsBoth upper.now lower.now) }
    ensures joined { IfOk result (JoinsBoth upper.now lower.now) }
    ensures over { IfOk result (λ grid. (n : ℕ) → IsOver n upper.now → IsOver n lower.now → IsOver n grid) }
    ensures rails { IfOk result (λ grid. (n rails : ℕ) → IsOverRails n rails upper.now → IsOverRails n rails lower.now → IsOverRails n rails grid) }
{
    let rows = upper.shape().rows() + 1 + lower.shape().rows();
    let cols = upper.shape().cols().max(lower.shape().cols());
    drawn(alloc, &Stacked { upper, lower }, shape_of(rows, cols))
}

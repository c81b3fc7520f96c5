//! Cells with equal distances.
ghost use Rattle.std.specs.Prelude.{◌≡◌, ℕ, ◌+◌, ◌*◌, ◌^◌, ◌≤◌, ◌<◌, All};
ghost use Rattle.reach_encoding.specs.Encoding.{top, bottom, left, right};
ghost use Rattle.reach_encoding.specs.EncodeParts.{cells_along};

use lattice_grid::shape::Shape;

/// Cells with equal distances: the first, how far the next is, and how many there are.
#[derive(Clone, Copy)]
pub struct Line {
    pub first: u32,
    pub step: u32,
    pub count: u32,
    ghost few: { first + count * step < 2 ^ 31 },
}

impl Line {
    /// The cell at an index.
    pub fn at(self, index: u32) -> u32
        requires { index < self.count }
        ensures { result ≡ self.first + index * self.step }
    {
        self.first + index * self.step
    }

    /// The top row.
    pub fn top(shape: Shape) -> Line
        ensures cells { cells_along result.first result.step result.count ≡ top shape }
        ensures within { All (λ p. p < shape.rows * shape.cols) (cells_along result.first result.step result.count) }
    {
        Line {
            first: 0,
            step: 1,
            count: shape.cols(),
        }
    }

    /// The bottom row.
    pub fn bottom(shape: Shape) -> Line
        ensures cells { cells_along result.first result.step result.count ≡ bottom shape }
        ensures within { All (λ p. p < shape.rows * shape.cols) (cells_along result.first result.step result.count) }
    {
        Line {
            first: (shape.rows() - 1) * shape.cols(),
            step: 1,
            count: shape.cols(),
        }
    }

    /// The left column.
    pub fn left(shape: Shape) -> Line
        ensures cells { cells_along result.first result.step result.count ≡ left shape }
        ensures within { All (λ p. p < shape.rows * shape.cols) (cells_along result.first result.step result.count) }
    {
        Line {
            first: 0,
            step: shape.cols(),
            count: shape.rows(),
        }
    }

    /// The right column.
    pub fn right(shape: Shape) -> Line
        ensures cells { cells_along result.first result.step result.count ≡ right shape }
        ensures within { All (λ p. p < shape.rows * shape.cols) (cells_along result.first result.step result.count) }
    {
        Line {
            first: shape.cols() - 1,
            step: shape.cols(),
            count: shape.rows(),
        }
    }
}

//! Sizes of lattices as words.
ghost use Rattle.std.specs.Prelude.{◌≡◌, ◌≢◌, ◌∷◌, [], MatchOption};
ghost use Rattle.lattice_grid.specs.Rectangle.{Size, IsSize};
ghost use Rattle.report_text.specs.Cells.{size_text};
ghost use Rattle.report_text.specs.Pieces.{words};

use crate::text::{cut, last_word, number_of};
use lattice_grid::shape::Shape;

/// The size that a word is, as `2x3`: the numbers of rows and columns, joined by the letter x; None exactly where it is none.
pub fn read_shape(word: &[u8]) -> Option<Shape>
    ensures { MatchOption result ((size : Size) → IsSize size → word.now ≢ size_text size) (λ size. IsSize size × (word.now ≡ size_text size)) }
{
    let (rows, cols) = cut(word, b'x')?;
    Shape::new(number_of(rows)?, number_of(cols)?)
}

/// The size that is the last word of a line.
pub(crate) fn last_shape(line: &[u8]) -> Option<Shape>
    ensures { MatchOption result ((size : Size) → IsSize size → words line.now ≢ size_text size ∷ []) (λ size. IsSize size × (words line.now ≡ size_text size ∷ [])) }
{
    read_shape(last_word(line)?)
}

//! The lines of a text that tell something.
ghost use Rattle.std.specs.Prelude.{◌≡◌, ℕ, ◌+◌, ◌^◌, ◌<◌, ◌≤◌, [], ◌∷◌, length, MatchResult, IfOk, not, ◌&&◌};
ghost use Rattle.clause_core.specs.Text.{lines_of, words_of, rows_in, is_comment, has_words, is_telling};

use crate::text::{cut_line, next_word};

/// A line that is no comment and has a word, with its number, and what follows it.
#[derive(Clone, Copy)]
pub struct NextRow<'a> {
    pub number: u32,
    pub bytes: &'a [u8],
    pub rest: &'a [u8],
    pub next: u32,
}

/// Whether a line is no comment and has a word.
fn tells(line: &[u8]) -> bool
    ensures { result ≡ (not (is_comment line.now) && has_words (words_of line.now)) }
{
    if line.first() == Some(&b'c') {
        return false;
    }
    next_word(line).is_some()
}

/// The next line that tells something, of a text whose first line has this number; or the number of the last line.
pub fn next_row(text: &[u8], number: u32) -> Result<NextRow<'_>, u32>
    requires { number + length text.now < 2 ^ 32 }
    ensures rows { MatchResult result (λ row. rows_in number text.now ≡ record { number = row.number; bytes = row.bytes.now } ∷ rows_in row.next row.rest.now) (λ _. rows_in number text.now ≡ []) }
    ensures last { MatchResult result (λ row. row.next + length (lines_of row.rest.now) ≡ number + length (lines_of text.now)) (λ last. last + 1 ≡ number + length (lines_of text.now)) }
    ensures shorter { IfOk result (λ row. length row.rest.now < length text.now) }
    ensures counted { IfOk result (λ row. row.next + length row.rest.now ≤ number + length text.now) }
    ensures within { IfOk result (λ row. length row.bytes.now + length row.rest.now ≤ length text.now) }
{
    let mut rest = text;
    let mut next = number;
    while !rest.is_empty() {
        let cut = cut_line(rest);
        let here = next;
        if cut.ended {
            next += 1;
        }
        rest = cut.rest;
        if tells(cut.line) {
            return Ok(NextRow {
                number: here,
                bytes: cut.line,
                rest,
                next,
            });
        }
    }
    Err(next)
}

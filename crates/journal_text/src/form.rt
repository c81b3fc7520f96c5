//! The forms of the lines of a section.
ghost use Rattle.std.specs.Prelude.{◌≡◌, ◌≢◌, ℕ, ◌≤◌, ◌∷◌, List, [], All, IfOk, MatchOption};
ghost use Rattle.std.specs.Bool.{MatchBool};
ghost use Rattle.lattice_grid.specs.Defects.{Defects, IsArray};
ghost use Rattle.lrat_replay.specs.Ledger.{IsAbove0};
ghost use Rattle.lrat_replay.specs.StepRead.{IsLineOf};
ghost use Rattle.report_text.specs.Cells.{array_text};
ghost use Rattle.report_text.specs.Pieces.{words};
ghost use Rattle.journal_text.specs.Bounds.{IsTarget, IsClose, IsWritten};
ghost use Rattle.journal_text.specs.Reading.{IsStepLine};
ghost use Rattle.journal_text.specs.Lines.{target_words, question_words, close_words};
ghost use Rattle.journal_text.specs.declared.target.Close.{Close};
ghost use Rattle.journal_text.specs.declared.target.Target.{Target};

use crate::target::{Close, Target};
use lattice_grid::shape::Shape;
use lrat_replay::line::Step;
use lrat_replay::step_text::read_step;
use report_text::array::read_rows;
use report_text::shape::read_shape;
use report_text::text::{behind, last_number, last_word, number_at, word_at};
use std::alloc::Global;
use wire_io::fault::NoMemory;

/// The greatest number of an output.
const LAST_OUTPUT: u32 = 63;

/// The most cells that are asked for on no array.
const MOST_CELLS: u32 = 32_768;

/// The most steps after which a question is given up.
const MOST_STEPS: u32 = 200_000;

/// The array of this shape whose rows are the only word of a line.
fn marked_of(alloc: Global, shape: Shape, line: &[u8]) -> Result<Option<Target>, NoMemory>
    ensures { IfOk result (λ found. MatchOption found
        ((a : Defects) → IsArray a → a.size ≡ shape → words line.now ≢ array_text a ∷ [])
        (λ target. (a : Defects) × IsArray a × (a.size ≡ shape) × (words line.now ≡ array_text a ∷ []) × (target ≡ Target.Marked a))) }
{
    let Some(rows) = last_word(line) else {
        return Ok(None);
    };
    match read_rows(alloc, shape, rows)? {
        None => Ok(None),
        Some(array) => Ok(Some(Target::Marked(array))),
    }
}

/// The target that the words of a line are.
fn target_of(alloc: Global, line: &[u8]) -> Result<Option<Target>, NoMemory>
    ensures { IfOk result (λ found. MatchOption found
        ((target : Target) → IsTarget target → words line.now ≢ target_words target)
        (λ target. IsTarget target × (words line.now ≡ target_words target))) }
{
    let (size, rest) = word_at(line);
    let Some(shape) = read_shape(size) else {
        return Ok(None);
    };
    match rest {
        Some(rows) => marked_of(alloc, shape, rows),
        None => {
            if shape.area() <= MOST_CELLS {
                Ok(Some(Target::Whole(shape)))
            } else {
                Ok(None)
            }
        }
    }
}

/// The output and the target of which a line is the question.
pub(crate) fn question_of(alloc: Global, line: &[u8]) -> Result<Option<(u32, Target)>, NoMemory>
    ensures { IfOk result (λ found. MatchOption found
        ((output : ℕ) (target : Target) → output ≤ 63 → IsTarget target → words line.now ≢ question_words output target)
        (λ found. (found.0 ≤ 63) × IsTarget found.1 × (words line.now ≡ question_words found.0 found.1))) }
{
    let Some(line) = behind(line, b"question") else {
        return Ok(None);
    };
    let Some((output, line)) = number_at(line, LAST_OUTPUT) else {
        return Ok(None);
    };
    match target_of(alloc, line)? {
        None => Ok(None),
        Some(target) => Ok(Some((output, target))),
    }
}

/// How a section closes, of which a line is the last.
pub(crate) fn close_of(line: &[u8]) -> Option<Close>
    ensures { MatchOption result
        ((close : Close) → IsClose close → words line.now ≢ close_words close)
        (λ close. IsClose close × (words line.now ≡ close_words close)) }
{
    if line == b"refuted".as_slice() {
        return Some(Close::Refuted);
    }
    if line == b"satisfied".as_slice() {
        return Some(Close::Satisfied);
    }
    let budget = last_number(behind(line, b"spent")?, MOST_STEPS)?;
    Some(Close::Spent(budget))
}

/// Whether each hint is above 0.
fn are_above_0(hints: &[i32]) -> bool
    ensures { MatchBool result (All IsAbove0 hints.now) (All IsAbove0 hints.now → ⊥) }
{
    hints.iter().all(|hint| *hint > 0)
}

/// The step with hints above 0 of which a line is the text.
pub(crate) fn step_of(alloc: Global, line: &[u8]) -> Result<Option<Step>, NoMemory>
    ensures { IfOk result (λ found. MatchOption found
        (IsStepLine line.now → ⊥)
        (λ step. IsWritten step × IsLineOf line.now step)) }
{
    let Some(step) = read_step(alloc, line)? else {
        return Ok(None);
    };
    if are_above_0(step.hints.as_slice()) {
        Ok(Some(step))
    } else {
        Ok(None)
    }
}

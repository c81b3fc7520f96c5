//! Journals are read.
ghost use Rattle.std.specs.Prelude.{◌≡◌, ◌≢◌, ℕ, ◌+◌, ◌≤◌, ◌∷◌, ◌++◌, List, [], length, codes, decimal, MatchOption, MatchResult, IfOk, IfErr, IsErrOf, ◌⊎◌, Result, Ok, Err};
ghost use Rattle.std.specs.Bool.{MatchBool};
ghost use Rattle.report_text.specs.Pieces.{Without, Cuts, feeds};
ghost use Rattle.report_text.specs.declared.answer.Version.{Version};
ghost use Rattle.report_text.specs.declared.block.BlockFault.{BlockFault};
ghost use Rattle.journal_text.specs.Bounds.{IsJournal};
ghost use Rattle.journal_text.specs.Lines.{InnerSo, SaysFound, HaltsInside, HasSteps, IsRefusedInside, refusal_for, IsPartAt, IsAhead, IsRefusedBehind};
ghost use Rattle.journal_text.specs.Parts.{JournalParts, parts_of_journal};
ghost use Rattle.journal_text.specs.Reading.{Next, first_word, IsRefused, Gives, HasLineNumbers, seen};
ghost use Rattle.journal_text.specs.Text.{journal_text};
ghost use Rattle.journal_text.specs.declared.refusal.JournalRefusal.{JournalRefusal};

use crate::form::{close_of, question_of, step_of};
use crate::journal::{Journal, Part, PartKind, SectionText, StepLine};
use crate::lead::{Lead, lead_of};
use crate::reader::Reader;
use crate::refusal::JournalRefusal;
use crate::target::{Close, Target};
use lrat_replay::line::Step;
use report_text::answer::Version;
use report_text::block::{BlockFault, read_block};
use report_text::text::{cut, word_at};
use std::alloc::Global;

/// A line of a section behind its first one.
#[derive(Drop)]
enum Inner {
    Step(Step),
    Close(Close),
}

/// The step or the closing that a line in a section is.
fn inner_of(alloc: Global, text: &[u8], line: u32) -> Result<Inner, JournalRefusal>
    ensures { MatchResult result
        (λ inner. InnerSo inner text.now)
        (λ refusal. refusal ≢ JournalRefusal.NoMemory → HaltsInside text.now line refusal) }
{
    match lead_of(text) {
        Lead::Number => match step_of(alloc, text)? {
            None => Err(JournalRefusal::Step { line }),
            Some(step) => Ok(Inner::Step(step)),
        },
        Lead::Closing => match close_of(text) {
            None => Err(JournalRefusal::Question { line }),
            Some(close) => Ok(Inner::Close(close)),
        },
        Lead::Question => Err(JournalRefusal::Order { line }),
        Lead::Output => Err(JournalRefusal::Order { line }),
        Lead::End => Err(JournalRefusal::Order { line }),
        Lead::Unknown => Err(JournalRefusal::Word { line }),
    }
}

/// The steps at the front of the bytes, which begin at the line `first`, how the section closes, on which line, and what
/// follows.
fn steps_at(
    alloc: Global,
    bytes: &[u8],
    first: u32,
) -> Result<(Vec<StepLine>, Close, u32, &[u8]), JournalRefusal>
    requires { first + length bytes.now ≤ 536870914 }
    ensures { MatchResult result
        (λ found. HasSteps bytes.now first found.0.items found.1 found.2 found.3.now)
        (λ refusal. refusal ≢ JournalRefusal.NoMemory → IsRefusedInside bytes.now first refusal) }
{
    let mut steps = Vec::new(alloc);
    let mut rest = bytes;
    let mut line = first;
    loop {
        let Some((text, after)) = cut(rest, b'\n') else {
            return Err(JournalRefusal::Truncated { line });
        };
        match inner_of(alloc, text, line)? {
            Inner::Close(close) => return Ok((steps, close, line, after)),
            Inner::Step(step) => {
                steps.push(StepLine { line, step })?;
                rest = after;
                line += 1;
            }
        }
    }
}

/// The section whose first line is this one, followed by these bytes; what follows it, and on which line.
fn section_at<'a>(
    alloc: Global,
    text: &[u8],
    rest: &'a [u8],
    line: u32,
) -> Result<(Part, &'a [u8], u32), JournalRefusal>
    requires lead { first_word text.now ≡ codes "question" }
    requires one_line { Without 10 text.now }
    requires few { line + length rest.now ≤ 536870913 }
    ensures { MatchResult result
        (λ found. (version : Version) → IsPartAt version line (text.now ++ 10 ∷ rest.now) found.0 found.1.now found.2)
        (λ refusal. (version : Version) → IsRefusedBehind version (text.now ++ 10 ∷ rest.now) line refusal) }
{
    let Some((output, target)) = question_of(alloc, text)? else {
        return Err(JournalRefusal::Question { line });
    };
    let (steps, close, close_line, after) = steps_at(alloc, rest, line + 1)?;
    let section = SectionText {
        output,
        target,
        steps,
        close,
        close_line,
    };
    let part = Part {
        line,
        what: PartKind::Question(section),
    };
    Ok((part, after, close_line + 1))
}

/// Whether the fourth word of a line is `found`.
fn says_found(line: &[u8]) -> bool
    ensures { MatchBool result (SaysFound line.now) (SaysFound line.now → ⊥) }
{
    let (_, rest) = word_at(line);
    let Some(line) = rest else {
        return false;
    };
    let (_, rest) = word_at(line);
    let Some(line) = rest else {
        return false;
    };
    let (_, rest) = word_at(line);
    let Some(line) = rest else {
        return false;
    };
    let (word, _) = word_at(line);
    word == b"found".as_slice()
}

/// The refusal of a journal in which an answer is faulty.
fn refused(fault: BlockFault) -> JournalRefusal
    ensures { result ≡ refusal_for fault }
{
    match fault {
        BlockFault::Block { line } => JournalRefusal::Block { line },
        BlockFault::Grid { line } => JournalRefusal::Block { line },
        BlockFault::Proofs { line } => JournalRefusal::Proofs { line },
        BlockFault::Truncated { line } => JournalRefusal::Truncated { line },
        BlockFault::NoMemory => JournalRefusal::NoMemory,
    }
}

/// The answer at the front of the bytes, whose first line is this one; what follows it, and on which line.
fn answer_at<'a>(
    alloc: Global,
    text: &[u8],
    bytes: &'a [u8],
    line: u32,
    version: Version,
) -> Result<(Part, &'a [u8], u32), JournalRefusal>
    requires lead { first_word text.now ≡ codes "output" }
    requires first { (rest : List ℕ) × Cuts 10 bytes.now text.now rest }
    requires few { line + length bytes.now ≤ 536870913 }
    ensures { MatchResult result
        (λ found. IsPartAt version line bytes.now found.0 found.1.now found.2)
        (λ refusal. IsRefusedBehind version bytes.now line refusal) }
{
    if says_found(text) {
        return Err(JournalRefusal::Block { line });
    }
    match read_block(alloc, bytes, 0, line, version) {
        Err(fault) => Err(refused(fault)),
        Ok((block, after)) => {
            let next = line + block.lines(version);
            let part = Part {
                line,
                what: PartKind::Answer(block),
            };
            Ok((part, &bytes[after..], next))
        }
    }
}

/// What stands at the front of bytes outside of sections.
#[derive(Drop)]
pub(crate) enum Ahead<'a> {
    /// The last line, and what follows it.
    End(&'a [u8]),
    /// A part, what follows it, and on which line.
    Part {
        part: Part,
        rest: &'a [u8],
        next: u32,
    },
}

/// What stands at the front of the bytes, which begin at the line `line`.
pub(crate) fn part_at(
    alloc: Global,
    bytes: &[u8],
    line: u32,
    version: Version,
) -> Result<Ahead<'_>, JournalRefusal>
    requires { line + length bytes.now ≤ 536870913 }
    ensures { MatchResult result
        (λ ahead. IsAhead version line bytes.now ahead)
        (λ refusal. IsRefusedBehind version bytes.now line refusal) }
{
    let Some((text, rest)) = cut(bytes, b'\n') else {
        return Err(JournalRefusal::Truncated { line });
    };
    match lead_of(text) {
        Lead::Question => {
            let (part, rest, next) = section_at(alloc, text, rest, line)?;
            Ok(Ahead::Part { part, rest, next })
        }
        Lead::Output => {
            let (part, rest, next) = answer_at(alloc, text, bytes, line, version)?;
            Ok(Ahead::Part { part, rest, next })
        }
        Lead::End => {
            if text == b"end".as_slice() {
                Ok(Ahead::End(rest))
            } else {
                Err(JournalRefusal::Question { line })
            }
        }
        Lead::Number => Err(JournalRefusal::Order { line }),
        Lead::Closing => Err(JournalRefusal::Order { line }),
        Lead::Unknown => Err(JournalRefusal::Word { line }),
    }
}

/// The journal that the text spells, or the first fault.
fn spelled(alloc: Global, bytes: &[u8]) -> Result<Journal, JournalRefusal>
    requires { length bytes.now ≤ 536870912 }
    ensures { MatchResult result
        (λ journal. IsJournal (parts_of_journal journal) × (bytes.now ≡ journal_text (parts_of_journal journal)) × HasLineNumbers journal)
        (λ refusal. refusal ≢ JournalRefusal.NoMemory → IsRefused bytes.now refusal) }
{
    let mut reader = Reader::new(bytes)?;
    let mut parts = Vec::new(alloc);
    while let Some(part) = reader.next(alloc)? {
        parts.push(part)?;
    }
    Ok(Journal {
        version: reader.version,
        rails: reader.rails,
        parts,
    })
}

/// The journal that the text spells, with the numbers of its lines, or why it spells none: the first faulty line.
pub fn read_journal(alloc: Global, bytes: &[u8]) -> Result<Journal, JournalRefusal>
    requires { length bytes.now ≤ 536870912 }
    ensures found { IfOk result (λ journal. Gives bytes.now (Ok (parts_of_journal journal))) }
    ensures lines { IfOk result (λ journal. HasLineNumbers journal) }
    ensures refused { IfErr result (λ refusal. refusal ≢ JournalRefusal.NoMemory → IsRefused bytes.now refusal) }
    ensures only { (given : Result JournalParts JournalRefusal) → Gives bytes.now given → IsErrOf result JournalRefusal.NoMemory ⊎ (seen result ≡ given) }
    ensures again { (journal : JournalParts) → IsJournal journal → bytes.now ≡ journal_text journal → IsErrOf result JournalRefusal.NoMemory ⊎ (seen result ≡ Ok journal) }
    ensures cut_short { (journal : JournalParts) (more : List ℕ) → IsJournal journal → more ≢ [] → journal_text journal ≡ bytes.now ++ more →
        IsErrOf result JournalRefusal.NoMemory ⊎ (seen result ≡ Err (JournalRefusal.Truncated (1 + feeds bytes.now))) }
{
    spelled(alloc, bytes)
}

/// A text gives one answer: it spells one journal, or it has one refusal.
pub fn one_answer()
    ensures { (text : List ℕ) (one other : Result JournalParts JournalRefusal) → Gives text one → Gives text other → one ≡ other }
{}

/// Each text gives an answer: it spells a journal, or it is refused.
pub fn some_answer()
    ensures { (text : List ℕ) → (given : Result JournalParts JournalRefusal) × Gives text given }
{}

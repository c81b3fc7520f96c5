//! LRAT text, read.
ghost use Rattle.std.specs.Prelude.{◌≡◌, ◌⊎◌, ℕ, ◌+◌, ◌<◌, ◌≤◌, ◌^◌, [], ◌&&◌, ◌||◌, not, length, MatchOption, IfSome, IfOk, IfErr, Ok, Err, Some, None};
ghost use Rattle.std.specs.List.{list_all};
ghost use Rattle.clause_core.specs.Text.{words_of, rows_in};
ghost use Rattle.clause_core.specs.CnfRead.{literal_from};
ghost use Rattle.lrat_replay.specs.LratRead as says;
ghost use Rattle.lrat_replay.specs.LineRead.{kind_in, kind_if, line_in, lines_from};

use crate::line::{Clause, Hints, Ids, Line, LineKind, Step};
use crate::refusal::LratRefusal;
use clause_core::lit::Lit;
use clause_core::number::{Number, signed_value};
use clause_core::rows::next_row;
use clause_core::text::next_word;
use std::alloc::Global;
use wire_io::fault::NoMemory;

/// A signed number of a magnitude below 2 to the power of 31.
fn small(word: &[u8]) -> Option<Number>
    ensures value { result ≡ says.small_number word.now }
    ensures within { IfSome result (λ n. n.magnitude < 2147483648) }
{
    let number = signed_value(word)?;
    if number.magnitude < 2_147_483_648 {
        Some(number)
    } else {
        None
    }
}

/// A number as one of 32 bits.
fn value(number: Number) -> i32
    requires { number.magnitude < 2147483648 }
    ensures { result ≡ says.value_of number }
{
    let magnitude = number.magnitude as i32;
    if number.negative {
        -magnitude
    } else {
        magnitude
    }
}

/// Reads the numbers before the first 0 into a list, and gives what follows it.
fn read_numbers<'a>(numbers: &mut Vec<i32>, text: &'a [u8]) -> Result<Option<&'a [u8]>, NoMemory>
    ensures { IfOk result (λ found. MatchOption found (says.until says.value_of (words_of text.now) ≡ None) (λ rest. says.until says.value_of (words_of text.now) ≡ Some (numbers.new.items, words_of rest.now))) }
{
    numbers.clear();
    let mut rest = text;
    while let Some(word) = next_word(rest) {
        rest = word.rest;
        let Some(number) = small(word.bytes) else {
            return Ok(None);
        };
        if number.magnitude == 0 {
            return Ok(Some(rest));
        }
        numbers.push(value(number))?;
    }
    Ok(None)
}

/// Reads the literals before the first 0 into a list, and gives what follows it.
fn read_literals<'a>(lits: &mut Vec<Lit>, text: &'a [u8]) -> Result<Option<&'a [u8]>, NoMemory>
    ensures { IfOk result (λ found. MatchOption found (says.until literal_from (words_of text.now) ≡ None) (λ rest. says.until literal_from (words_of text.now) ≡ Some (lits.new.items, words_of rest.now))) }
{
    lits.clear();
    let mut rest = text;
    while let Some(word) = next_word(rest) {
        rest = word.rest;
        let Some(number) = small(word.bytes) else {
            return Ok(None);
        };
        if number.magnitude == 0 {
            return Ok(Some(rest));
        }
        lits.push(Lit::new(number.magnitude as u32, number.negative))?;
    }
    Ok(None)
}

/// The literals and the numbers of the line that was read last: hints of an addition, identifiers of a deletion.
#[derive(Drop)]
pub struct LineBuffer {
    lits: Vec<Lit>,
    numbers: Vec<i32>,
}

impl LineBuffer {
    /// No literals and no numbers.
    pub fn new(alloc: Global) -> LineBuffer {
        LineBuffer {
            lits: Vec::new(alloc),
            numbers: Vec::new(alloc),
        }
    }

    /// The literals.
    pub fn lits(&self) -> &[Lit]
        ensures { result.now ≡ self.now.lits.items }
    {
        &self.lits
    }

    /// The numbers.
    pub fn numbers(&self) -> &[i32]
        ensures { result.now ≡ self.now.numbers.items }
    {
        &self.numbers
    }
}

/// What a line does whose literals and numbers are in a buffer.
#[derive(Clone, Copy, Debug, PartialEq, Eq)]
pub enum Entry {
    /// Adds the literals as a clause of this identifier, with the numbers as hints.
    Add { id: u32 },
    /// Deletes the clauses of the numbers.
    Delete,
}

/// The deletion that the text behind the mark is.
fn read_deletion(buffer: &mut LineBuffer, text: &[u8]) -> Result<Option<Entry>, NoMemory>
    ensures { IfOk result (λ entry. kind_if buffer.new entry ≡ says.deletion_from (says.cut_in (words_of text.now))) }
{
    let Some(rest) = read_numbers(&mut buffer.numbers, text)? else {
        return Ok(None);
    };
    if next_word(rest).is_some() {
        return Ok(None);
    }
    Ok(Some(Entry::Delete))
}

/// The addition that the text behind the identifier is.
fn read_addition(buffer: &mut LineBuffer, id: u32, text: &[u8]) -> Result<Option<Entry>, NoMemory>
    ensures { IfOk result (λ entry. kind_if buffer.new entry ≡ says.addition_from id (says.cut_in (words_of text.now))) }
{
    let Some(behind) = read_literals(&mut buffer.lits, text)? else {
        return Ok(None);
    };
    let Some(rest) = read_numbers(&mut buffer.numbers, behind)? else {
        return Ok(None);
    };
    if next_word(rest).is_some() {
        return Ok(None);
    }
    Ok(Some(Entry::Add { id }))
}

/// The identifier at the front of a line.
fn front(word: &[u8]) -> Option<u32>
    ensures { result ≡ says.front_of (says.small_number word.now) }
{
    let number = small(word)?;
    if number.negative || number.magnitude == 0 {
        return None;
    }
    Some(number.magnitude as u32)
}

/// The addition or the deletion that a line is.
fn read_entry(buffer: &mut LineBuffer, line: &[u8]) -> Result<Option<Entry>, NoMemory>
    ensures { IfOk result (λ entry. kind_if buffer.new entry ≡ says.kind_of (words_of line.now)) }
{
    let Some(first) = next_word(line) else {
        return Ok(None);
    };
    let Some(id) = front(first.bytes) else {
        return Ok(None);
    };
    let Some(second) = next_word(first.rest) else {
        return Ok(None);
    };
    if second.bytes == b"d".as_slice() {
        read_deletion(buffer, second.rest)
    } else {
        read_addition(buffer, id, first.rest)
    }
}

/// What a buffer and an entry are, as a value that owns its lists.
fn owned(buffer: LineBuffer, entry: Entry) -> LineKind
    ensures { result ≡ kind_in buffer entry }
{
    match entry {
        Entry::Add { id } => LineKind::Add(Step {
            id,
            clause: Clause::new(buffer.lits),
            hints: Hints::new(buffer.numbers),
        }),
        Entry::Delete => LineKind::Delete(Ids::new(buffer.numbers)),
    }
}

/// The addition or the deletion that a line is, with lists of its own.
pub(crate) fn read_kind(alloc: Global, line: &[u8]) -> Result<Option<LineKind>, NoMemory>
    ensures { IfOk result (λ kind. kind ≡ says.kind_of (words_of line.now)) }
{
    let mut buffer = LineBuffer::new(alloc);
    match read_entry(&mut buffer, line) {
        Err(NoMemory) => Err(NoMemory),
        Ok(None) => Ok(None),
        Ok(Some(entry)) => Ok(Some(owned(buffer, entry))),
    }
}

/// Whether each word of a line is one that a line may have.
fn has_lrat_words(line: &[u8]) -> bool
    ensures { result ≡ list_all says.is_lrat_word (words_of line.now) }
{
    let mut rest = line;
    while let Some(word) = next_word(rest) {
        rest = word.rest;
        if word.bytes != b"d".as_slice() && small(word.bytes).is_none() {
            return false;
        }
    }
    true
}

/// A line, or why it is refused.
fn read_line(alloc: Global, number: u32, line: &[u8]) -> Result<Line, LratRefusal>
    ensures ok { IfOk result (λ read. says.line_from number (words_of line.now) (says.kind_of (words_of line.now)) ≡ Ok read) }
    ensures err { IfErr result (λ refusal. (refusal ≡ LratRefusal.NoMemory) ⊎ (says.line_from number (words_of line.now) (says.kind_of (words_of line.now)) ≡ Err refusal)) }
{
    match read_kind(alloc, line) {
        Ok(Some(what)) => Ok(Line { number, what }),
        Ok(None) => Err(refusal_of(number, line)),
        Err(NoMemory) => Err(LratRefusal::NoMemory),
    }
}

/// Why a line that is neither an addition nor a deletion is refused.
fn refusal_of(number: u32, line: &[u8]) -> LratRefusal
    ensures { says.line_from number (words_of line.now) None ≡ Err result }
{
    if has_lrat_words(line) {
        LratRefusal::Form { line: number }
    } else {
        LratRefusal::Word { line: number }
    }
}

/// A line read into a buffer, or why it is refused.
fn fill(buffer: &mut LineBuffer, number: u32, line: &[u8]) -> Result<Entry, LratRefusal>
    ensures ok { IfOk result (λ entry. says.line_from number (words_of line.now) (says.kind_of (words_of line.now)) ≡ Ok (line_in number buffer.new entry)) }
    ensures err { IfErr result (λ refusal. (refusal ≡ LratRefusal.NoMemory) ⊎ (says.line_from number (words_of line.now) (says.kind_of (words_of line.now)) ≡ Err refusal)) }
{
    match read_entry(buffer, line) {
        Ok(Some(entry)) => Ok(entry),
        Ok(None) => Err(refusal_of(number, line)),
        Err(NoMemory) => Err(LratRefusal::NoMemory),
    }
}

/// A line that was read into a buffer, with its number, what follows it, and the number of the line that follows.
#[derive(Clone, Copy)]
pub struct NextLine<'a> {
    pub number: u32,
    pub entry: Entry,
    pub rest: &'a [u8],
    pub next: u32,
}

/// The next line of a text whose first line has this number, read into the buffer, or why it is refused; none where
/// the text has no more.
pub fn next_line<'a>(
    buffer: &mut LineBuffer,
    text: &'a [u8],
    number: u32,
) -> Result<Option<NextLine<'a>>, LratRefusal>
    requires { number + length text.now < 2 ^ 32 }
    ensures end { IfOk result (λ found. MatchOption found (lines_from number text.now ≡ Ok []) (λ line. lines_from number text.now ≡ says.before (Ok (line_in line.number buffer.new line.entry)) (lines_from line.next line.rest.now))) }
    ensures err { IfErr result (λ refusal. (refusal ≡ LratRefusal.NoMemory) ⊎ (lines_from number text.now ≡ Err refusal)) }
    ensures shorter { IfOk result (λ found. IfSome found (λ line. length line.rest.now < length text.now)) }
    ensures counted { IfOk result (λ found. IfSome found (λ line. line.next + length line.rest.now ≤ number + length text.now)) }
{
    let Ok(row) = next_row(text, number) else {
        return Ok(None);
    };
    match fill(buffer, row.number, row.bytes) {
        Err(refusal) => Err(refusal),
        Ok(entry) => Ok(Some(NextLine {
            number: row.number,
            entry,
            rest: row.rest,
            next: row.next,
        })),
    }
}

/// The lines of an LRAT text, or its first refusal. It has at most 536,870,912 bytes.
pub fn read_lrat(alloc: Global, bytes: &[u8]) -> Result<Vec<Line>, LratRefusal>
    requires { length bytes.now ≤ 536870912 }
    ensures ok { IfOk result (λ lines. says.lrat_of bytes.now ≡ Ok lines.items) }
    ensures err { IfErr result (λ refusal. (refusal ≡ LratRefusal.NoMemory) ⊎ (says.lrat_of bytes.now ≡ Err refusal)) }
{
    let mut lines = Vec::new(alloc);
    let mut rest = bytes;
    let mut next = 1;
    while let Ok(row) = next_row(rest, next) {
        rest = row.rest;
        next = row.next;
        let line = read_line(alloc, row.number, row.bytes)?;
        if lines.push(line).is_err() {
            return Err(LratRefusal::NoMemory);
        }
    }
    Ok(lines)
}

//! PLA texts.
ghost use Rattle.std.specs.Prelude.{◌≡◌, ◌≢◌, ℕ, ◌+◌, ◌<◌, ◌≤◌, ◌↔◌, ◌⊎◌, length, [], map, IfOk, IfErr, IsErrOf, MatchResult};
ghost use Rattle.std.specs.Option.{option_map};
ghost use Rattle.pla_reader.specs.Parts.{Parts, parts_of, IsPla};
ghost use Rattle.pla_reader.specs.Reading.{Reads, Refused, IsLineRefused, said_in, names_or as names_given};
ghost use Rattle.pla_reader.specs.Views.{line_of};
ghost use Rattle.pla_reader.specs.State.{state_of, IsState, Keeps};
ghost use Rattle.pla_reader.specs.Taking.{TakesNumbered, HasTaken};
ghost use Rattle.pla_reader.specs.Names.{bytes_of};
ghost use Rattle.pla_reader.specs.declared.pla.PlaRefusal.TheVariants.{NoMemory};

use crate::fault::{LineFault, Stop};
use crate::given::Given;
use crate::kind::Kind;
use crate::line::{Line, line_at};
use crate::marked::functions;
use crate::name::Name;
use crate::names::default_names_of;
use crate::saying::say;
use cube_core::assign::Assign;
use cube_core::spec::Spec;
use indexmap::IndexSet;
use std::alloc::{AllocFailed, Global};
use wire_io::fault::NoMemory as OutOfMemory;

/// The most bytes of a text.
pub const MOST_BYTES: usize = 4_194_304;

/// What a text holds: the names of 1 to 10 inputs and of 1 to 64 outputs, the function of each output, and the place
/// after the line that ends the PLA, or the text's length.
#[derive(Drop)]
pub struct Pla {
    pub inputs: u8,
    pub outputs: u8,
    pub input_names: IndexSet<Name>,
    pub output_names: IndexSet<Name>,
    pub specs: Vec<Spec>,
    pub rest: usize,
}

/// Why a text is refused. The first line with a fault decides, and on it the first fault in this order.
#[derive(Clone, Copy, Debug, PartialEq, Eq)]
pub enum PlaRefusal {
    /// It has more than 4,194,304 bytes. This comes before all others.
    TooLong,
    /// Before a comment there is a byte that is no tab and not from the blank to `~`.
    BadByte { line: u32 },
    /// The first word begins with `.` and is no word of PLAs.
    UnknownWord { line: u32 },
    /// The first word belongs to PLAs of other kinds, or the type is none of the four.
    Unsupported { line: u32 },
    /// A line with this word stood before.
    Repeated { line: u32 },
    /// Not one word of 1 to 9 digits follows `.i` or `.o`.
    BadNumber { line: u32 },
    /// The line stands after a row.
    Late { line: u32 },
    /// The line needs a number that was not given.
    Missing { line: u32 },
    /// The inputs are not from 1 to 10.
    Inputs { line: u32 },
    /// The outputs are not from 1 to 64.
    Outputs { line: u32 },
    /// The row's digits are not as many as inputs and outputs together.
    RowLength { line: u32 },
    /// A digit of the row has no meaning at its place.
    BadDigit { line: u32 },
    /// The names are not as many as they are to be, or not all different.
    Names { line: u32 },
    /// It is row 65,537.
    TooManyRows { line: u32 },
    /// No line has a fault. This is the least output that has an assignment named both on and off, and the least such
    /// assignment.
    Conflict { output: u8, assign: Assign },
    /// There was no memory for what it holds.
    NoMemory,
}

impl From<OutOfMemory> for PlaRefusal {
    ghost from_gives = { λ _ refusal. refusal ≡ NoMemory };

    fn from(_: OutOfMemory) -> Self {
        PlaRefusal::NoMemory
    }
}

impl<T: Drop> From<AllocFailed<T>> for PlaRefusal {
    ghost from_gives = { λ _ refusal. refusal ≡ NoMemory };

    fn from(_: AllocFailed<T>) -> Self {
        PlaRefusal::NoMemory
    }
}

/// Takes one more line, which has this number, and says whether it ends the PLA.
fn take_line(
    given: &mut Given,
    alloc: Global,
    line: Line<'_>,
    number: u32,
) -> Result<bool, PlaRefusal>
    requires { IsState (state_of given.old) }
    ensures { TakesNumbered number (line_of line.entry) (state_of given.old) (state_of given.new) result }
{
    let saying = say(line);
    match given.take(alloc, saying) {
        Ok(()) => Ok(saying.is_last()),
        Err(Stop::Fault(fault)) => Err(fault.at(number)),
        Err(Stop::NoMemory) => Err(PlaRefusal::NoMemory),
    }
}

/// Where the lines of a text end: the number of the last one, and the place after it.
#[derive(Clone, Copy, Debug)]
pub struct End {
    line: u32,
    place: usize,
}

/// Takes the lines of a text up to its end.
fn take_lines(given: &mut Given, alloc: Global, bytes: &[u8]) -> Result<End, PlaRefusal>
    requires few { length bytes.now ≤ 4194304 }
    requires state { IsState (state_of given.old) }
    requires nothing { Keeps [] (state_of given.old) }
    ensures ok { IfOk result (λ end. HasTaken bytes.now (state_of given.new) end.line end.place) }
    ensures err { IfErr result (λ refusal. refusal ≢ NoMemory → IsLineRefused (said_in bytes.now) refusal) }
{
    let mut rest = bytes;
    let mut number: u32 = 1;
    'lines: loop {
        let (line, after) = line_at(rest);
        let last = take_line(given, alloc, line, number)?;
        if last || !line.ended {
            return Ok(End {
                line: number,
                place: bytes.len() - after.len(),
            });
        }
        rest = after;
        number += 1;
    }
}

/// The names that a line gave, or the default names with this letter.
fn names_or(
    alloc: Global,
    names: Option<IndexSet<Name>>,
    letter: u8,
    many: u8,
) -> Result<IndexSet<Name>, OutOfMemory>
    requires low { 33 ≤ letter }
    requires high { letter ≤ 126 }
    ensures { IfOk result (λ found. map bytes_of found.keys ≡ names_given letter many (option_map (λ given. map bytes_of given.keys) names)) }
{
    match names {
        Some(names) => Ok(names),
        None => default_names_of(alloc, letter, many),
    }
}

/// Reads a PLA text.
fn read_text(alloc: Global, bytes: &[u8]) -> Result<Pla, PlaRefusal>
    ensures found { IfOk result (λ pla. Reads bytes.now (parts_of pla)) }
    ensures whole { IfOk result (λ pla. IsPla (parts_of pla)) }
    ensures refused { IfErr result (λ refusal. refusal ≢ NoMemory → Refused bytes.now refusal) }
    ensures too_long { 4194304 < length bytes.now → IsErrOf result PlaRefusal.TooLong }
{
    if bytes.len() > MOST_BYTES {
        return Err(PlaRefusal::TooLong);
    }
    let mut given = Given::new(alloc);
    let end = take_lines(&mut given, alloc, bytes)?;
    let (Some(inputs), Some(outputs)) = (given.inputs, given.outputs) else {
        return Err(LineFault::Missing.at(end.line));
    };
    let specs = functions(alloc, &given.sets, given.kind.unwrap_or(Kind::Fd), inputs)?;
    Ok(Pla {
        inputs,
        outputs,
        input_names: names_or(alloc, given.input_names, b'x', inputs)?,
        output_names: names_or(alloc, given.output_names, b'f', outputs)?,
        specs,
        rest: end.place,
    })
}

/// Reads a PLA text up to the line `.e` or `.end`, or to its end.
pub fn read_pla(alloc: Global, bytes: &[u8]) -> Result<Pla, PlaRefusal>
    // A value is the one that the text is read as, and a refusal but want of memory the one that the text has.
    ensures found { IfOk result (λ pla. Reads bytes.now (parts_of pla)) }
    ensures refused { IfErr result (λ refusal. refusal ≢ NoMemory → Refused bytes.now refusal) }
    // A text that is read as a value, or has a refusal, gets no other answer but want of memory.
    ensures only_value { (parts : Parts) → Reads bytes.now parts →
        MatchResult result (λ pla. parts_of pla ≡ parts) (λ refusal. refusal ≡ NoMemory) }
    ensures only_refusal { (refusal : PlaRefusal) → Refused bytes.now refusal →
        MatchResult result (λ _. ⊥) (λ other. (other ≡ refusal) ⊎ (other ≡ NoMemory)) }
    ensures too_long { IsErrOf result PlaRefusal.TooLong ↔ (4194304 < length bytes.now) }
    ensures whole { IfOk result (λ pla. IsPla (parts_of pla)) }
{
    read_text(alloc, bytes)
}

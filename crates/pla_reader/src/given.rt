//! What the lines of a text give.
ghost use Rattle.std.specs.Prelude.{◌≡◌, ℕ, ◌+◌, ◌≤◌, ◌<◌, ◌==◌, Bool, List, length, is_some, map, nat_lt, ◌&&◌, true, [], Option, Some, None, unwrap_or};
ghost use Rattle.std.specs.List.{AllByRecursion};
ghost use Rattle.pla_reader.specs.Name.{IsName};
ghost use Rattle.pla_reader.specs.Names.{bytes_of};
ghost use Rattle.pla_reader.specs.Lines.{words_of};
ghost use Rattle.pla_reader.specs.Faults.{number_fault, kind_fault, names_fault, row_fault};
ghost use Rattle.pla_reader.specs.Judging.{GivesValue, Judges};

use crate::fault::{LineFault, Stop};
use crate::kind::Kind;
use crate::marked::{Marked, add_row, empty_sets};
use crate::name::Name;
use crate::names::names_at;
use crate::row::{are_row_digits, collect_digits};
use crate::saying::Saying;
use indexmap::IndexSet;
use std::alloc::Global;

/// The most rows of a text.
pub const MOST_ROWS: u32 = 65_536;

/// What the lines so far give.
#[derive(Drop)]
pub struct Given {
    pub inputs: Option<u8>,
    pub outputs: Option<u8>,
    pub kind: Option<Kind>,
    pub input_names: Option<IndexSet<Name>>,
    pub output_names: Option<IndexSet<Name>>,
    pub rows: u32,
    pub sets: Vec<Marked>,
    digits: Vec<u8>,
}

/// The number that a line gives, from 1 to the most.
fn limited(
    before: Option<u8>,
    rows: u32,
    number: Option<u32>,
    most: u8,
    beyond: LineFault,
) -> Result<u8, LineFault>
    ensures { GivesValue (λ n. (number ≡ Some n) × (1 ≤ n) × (n ≤ most)) result (number_fault (is_some before) (nat_lt 0 rows) number most beyond) }
{
    if before.is_some() {
        return Err(LineFault::Repeated);
    }
    let Some(number) = number else {
        return Err(LineFault::BadNumber);
    };
    if rows > 0 {
        return Err(LineFault::Late);
    }
    if number < 1 || number > most as u32 {
        return Err(beyond);
    }
    Ok(number as u8)
}

/// The type that a line gives.
fn typed(before: Option<Kind>, rows: u32, kind: Option<Kind>) -> Result<Kind, LineFault>
    ensures { GivesValue (λ k. kind ≡ Some k) result (kind_fault (is_some before) (nat_lt 0 rows) kind) }
{
    let Some(kind) = kind else {
        return Err(LineFault::Unsupported);
    };
    if before.is_some() {
        return Err(LineFault::Repeated);
    }
    if rows > 0 {
        return Err(LineFault::Late);
    }
    Ok(kind)
}

/// The names that a line gives.
fn named(
    alloc: Global,
    stood: bool,
    rows: u32,
    many: Option<u8>,
    text: &[u8],
) -> Result<IndexSet<Name>, Stop>
    requires { AllByRecursion IsName (words_of text.now) }
    ensures { Judges (λ names. (map bytes_of names.keys ≡ words_of text.now) × (many ≡ Some (length names.keys))) result (names_fault stood (nat_lt 0 rows) (is_some many) (unwrap_or many 0) (words_of text.now)) }
{
    if stood {
        return Err(Stop::Fault(LineFault::Repeated));
    }
    if rows > 0 {
        return Err(Stop::Fault(LineFault::Late));
    }
    let Some(many) = many else {
        return Err(Stop::Fault(LineFault::Missing));
    };
    match names_at(alloc, text)? {
        Some(names) => {
            if names.len() == many as usize {
                Ok(names)
            } else {
                Err(Stop::Fault(LineFault::Names))
            }
        }
        None => Err(Stop::Fault(LineFault::Names)),
    }
}

/// The numbers of inputs and outputs, at a row with these digits.
fn judged_row(
    inputs: Option<u8>,
    outputs: Option<u8>,
    rows: u32,
    digits: &[u8],
) -> Result<u8, LineFault>
    ensures { GivesValue (λ n. (inputs ≡ Some n) × (is_some outputs ≡ true) × (length digits.now ≡ n + unwrap_or outputs 0) × (rows < 65536)) result (row_fault (is_some inputs && is_some outputs) (unwrap_or inputs 0) (unwrap_or outputs 0) rows digits.now) }
{
    let (Some(inputs), Some(outputs)) = (inputs, outputs) else {
        return Err(LineFault::Missing);
    };
    if digits.len() != inputs as usize + outputs as usize {
        return Err(LineFault::RowLength);
    }
    if !are_row_digits(inputs, digits) {
        return Err(LineFault::BadDigit);
    }
    if rows >= MOST_ROWS {
        return Err(LineFault::TooManyRows);
    }
    Ok(inputs)
}

impl Given {
    ghost use Rattle.pla_reader.specs.Says.Said.{GivesInputs, GivesOutputs, GivesKind, NamesInputs, NamesOutputs, GivesRow, Ends};
    ghost use Rattle.pla_reader.specs.Views.{said_of, NamesIn};
    ghost use Rattle.pla_reader.specs.Lines.{digits_of};
    ghost use Rattle.pla_reader.specs.State.{state_of, IsState, Keeps, Takes};

    /// What no line gives.
    pub fn new(alloc: Global) -> Given
        ensures state { IsState (state_of result) }
        ensures nothing { Keeps [] (state_of result) }
    {
        Given {
            inputs: None,
            outputs: None,
            kind: None,
            input_names: None,
            output_names: None,
            rows: 0,
            sets: Vec::new(alloc),
            digits: Vec::new(alloc),
        }
    }

    fn take_inputs(&mut self, number: Option<u32>) -> Result<(), Stop>
        requires { IsState (state_of self.old) }
        ensures { Takes (GivesInputs number) (state_of self.old) (state_of self.new) result }
    {
        match limited(self.inputs, self.rows, number, 10, LineFault::Inputs) {
            Err(fault) => Err(Stop::Fault(fault)),
            Ok(inputs) => {
                self.inputs = Some(inputs);
                Ok(())
            }
        }
    }

    fn take_outputs(&mut self, alloc: Global, number: Option<u32>) -> Result<(), Stop>
        requires { IsState (state_of self.old) }
        ensures { Takes (GivesOutputs number) (state_of self.old) (state_of self.new) result }
    {
        match limited(self.outputs, self.rows, number, 64, LineFault::Outputs) {
            Err(fault) => Err(Stop::Fault(fault)),
            Ok(outputs) => match empty_sets(alloc, outputs) {
                Err(_) => Err(Stop::NoMemory),
                Ok(sets) => {
                    self.sets = sets;
                    self.outputs = Some(outputs);
                    Ok(())
                }
            },
        }
    }

    fn take_kind(&mut self, kind: Option<Kind>) -> Result<(), Stop>
        requires { IsState (state_of self.old) }
        ensures { Takes (GivesKind kind) (state_of self.old) (state_of self.new) result }
    {
        match typed(self.kind, self.rows, kind) {
            Err(fault) => Err(Stop::Fault(fault)),
            Ok(kind) => {
                self.kind = Some(kind);
                Ok(())
            }
        }
    }

    fn take_input_names(&mut self, alloc: Global, text: &[u8]) -> Result<(), Stop>
        requires state { IsState (state_of self.old) }
        requires names { AllByRecursion IsName (words_of text.now) }
        ensures { Takes (NamesInputs (words_of text.now)) (state_of self.old) (state_of self.new) result }
    {
        let stood = self.input_names.is_some();
        match named(alloc, stood, self.rows, self.inputs, text) {
            Err(stop) => Err(stop),
            Ok(names) => {
                self.input_names = Some(names);
                Ok(())
            }
        }
    }

    fn take_output_names(&mut self, alloc: Global, text: &[u8]) -> Result<(), Stop>
        requires state { IsState (state_of self.old) }
        requires names { AllByRecursion IsName (words_of text.now) }
        ensures { Takes (NamesOutputs (words_of text.now)) (state_of self.old) (state_of self.new) result }
    {
        let stood = self.output_names.is_some();
        match named(alloc, stood, self.rows, self.outputs, text) {
            Err(stop) => Err(stop),
            Ok(names) => {
                self.output_names = Some(names);
                Ok(())
            }
        }
    }

    fn take_row(&mut self, text: &[u8]) -> Result<(), Stop>
        requires { IsState (state_of self.old) }
        ensures { Takes (GivesRow (digits_of text.now)) (state_of self.old) (state_of self.new) result }
    {
        let kind = self.kind.unwrap_or(Kind::Fd);
        if collect_digits(&mut self.digits, text).is_err() {
            return Err(Stop::NoMemory);
        }
        match judged_row(self.inputs, self.outputs, self.rows, &self.digits) {
            Err(fault) => Err(Stop::Fault(fault)),
            Ok(inputs) => {
                add_row(&mut self.sets, kind, inputs, &self.digits);
                self.rows += 1;
                Ok(())
            }
        }
    }

    fn take_end(&mut self) -> Result<(), Stop>
        requires { IsState (state_of self.old) }
        ensures { Takes Ends (state_of self.old) (state_of self.new) result }
    {
        if self.inputs.is_some() && self.outputs.is_some() {
            Ok(())
        } else {
            Err(Stop::Fault(LineFault::Missing))
        }
    }

    /// Takes what one more line says, or answers its first fault.
    pub fn take(&mut self, alloc: Global, saying: Saying<'_>) -> Result<(), Stop>
        requires state { IsState (state_of self.old) }
        requires names { NamesIn (said_of saying) }
        ensures { Takes (said_of saying.entry) (state_of self.old) (state_of self.new) result }
    {
        match saying {
            Saying::Spoiled => Err(Stop::Fault(LineFault::BadByte)),
            Saying::Silent => Ok(()),
            Saying::Unknown => Err(Stop::Fault(LineFault::UnknownWord)),
            Saying::Foreign => Err(Stop::Fault(LineFault::Unsupported)),
            Saying::GivesInputs(number) => self.take_inputs(number),
            Saying::GivesOutputs(number) => self.take_outputs(alloc, number),
            Saying::GivesKind(kind) => self.take_kind(kind),
            Saying::NamesInputs(text) => self.take_input_names(alloc, text),
            Saying::NamesOutputs(text) => self.take_output_names(alloc, text),
            Saying::GivesRow(text) => self.take_row(text),
            Saying::Ends => self.take_end(),
        }
    }
}

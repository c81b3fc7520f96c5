//! The command `check`.
ghost use Rattle.std.specs.Prelude.{◌≡◌, ◌⊎◌, ℕ, ◌+◌, ◌^◌, ◌==◌, ◌<◌, ◌≤◌, true, false, List, Ok, Err, None, OnOk, IfOk, IfErr, IfSome, count_by, length};
ghost use Rattle.lrat_replay.specs.Book.{Book, line_fault, after_line, after_lines, Accepts, some_empty, start};
ghost use Rattle.lrat_replay.specs.LineRead.{kind_in, lines_from};
ghost use Rattle.lrat_replay.specs.LratRead.{lrat_of};
ghost use Rattle.lrat_replay.specs.Replay.{IsFault};
ghost use Rattle.lrat_replay.specs.declared.line.Line.{Line};
ghost use Rattle.lrat_replay.specs.declared.refusal.LratRefusal.{LratRefusal};
ghost use Rattle.wire_io.specs.Told.{IsSpent, LosesUpTo};
ghost use Rattle.clause_core.specs.Formula.{Formula};
ghost use Rattle.four_lattice.specs.Check.{kinds_of, IsAccepted, adds_empty, IsFirstFault, end_line};
ghost use Rattle.four_lattice.specs.Devices.{change, EndsTest};
ghost use Rattle.four_lattice.specs.Judge.{CnfGives, CheckComes, IsGranted};
ghost use Rattle.four_lattice.specs.Run.{FinishesQuiet};
ghost use Rattle.four_lattice.specs.Uses.{pla_and_side, most_cnf_bytes, most_side_bytes};
ghost use Rattle.four_lattice.specs.Checked.{EndsReplay, ended_at, ReplaysText, RefutesBy, RefutesSide, EndsText, EndsCheck};

use crate::ending::{Ending, Refusal, Unconfirmed};
use crate::inputs::{ending_of_lrat, input_cnf, input_side};
use clause_core::formula::Formula;
use lrat_replay::fault::StepFault;
use lrat_replay::read::{Entry, LineBuffer, NextLine, next_line};
use lrat_replay::refusal::LratRefusal;
use lrat_replay::replay::Replay;
use std::alloc::Global;
use wire_io::fault::Failed;
use wire_io::sink::{Sink, write_all};
use wire_io::source::Source;

/// How a replay of lines ends.
#[derive(Clone, Copy, Debug, PartialEq, Eq)]
pub(crate) enum Replayed {
    /// All lines are accepted.
    Accepted,
    /// The line of this number is the first that is refused.
    Refused { fault: StepFault, line: u32 },
}

/// Replays the line that a buffer has.
fn replay_entry(replay: &mut Replay, buffer: &LineBuffer, entry: Entry) -> Result<(), StepFault>
    ensures accepted { OnOk result (line_fault replay.old (kind_in buffer.now entry) ≡ None) }
    ensures after { OnOk result (replay.new ≡ after_line replay.old (kind_in buffer.now entry)) }
    ensures refused { IfErr result (IsFault (line_fault replay.old (kind_in buffer.now entry))) }
{
    match entry {
        Entry::Add { id } => replay.step(id, buffer.lits(), buffer.numbers()),
        Entry::Delete => replay.delete(buffer.numbers()),
    }
}

/// How a replay ends at a fault on a line of this number.
fn refused_at(fault: StepFault, line: u32) -> Result<Replayed, LratRefusal>
    ensures { result ≡ ended_at fault line }
{
    match fault {
        StepFault::NoMemory => Err(LratRefusal::NoMemory),
        StepFault::Order
        | StepFault::Unknown
        | StepFault::Satisfied
        | StepFault::Loose
        | StepFault::NoConflict
        | StepFault::Rat
        | StepFault::Tautology
        | StepFault::Variable => Ok(Replayed::Refused { fault, line }),
    }
}

/// Reads the lines of a text whose first line has this number, for their form alone.
fn read_on(buffer: &mut LineBuffer, text: &[u8], number: u32) -> Result<(), LratRefusal>
    requires { number + length text.now < 2 ^ 32 }
    ensures ok { OnOk result ((lines : List Line) × (lines_from number text.now ≡ Ok lines)) }
    ensures err { IfErr result (λ refusal. (refusal ≡ LratRefusal.NoMemory) ⊎ (lines_from number text.now ≡ Err refusal)) }
{
    let mut rest = text;
    let mut next = number;
    while let Some(line) = next_line(buffer, rest, next)? {
        rest = line.rest;
        next = line.next;
    }
    Ok(())
}

/// How a replay ends at a line that is refused, where the lines behind it have the form of lines.
fn stop_at(
    buffer: &mut LineBuffer,
    line: &NextLine<'_>,
    fault: StepFault,
) -> Result<Replayed, LratRefusal>
    requires { line.now.next + length line.now.rest.now < 2 ^ 32 }
    ensures ok { OnOk result ((lines : List Line) × (lines_from line.now.next line.now.rest.now ≡ Ok lines)) }
    ensures so { OnOk result (ended_at fault line.now.number ≡ result) }
    ensures err { IfErr result (λ refusal. (refusal ≡ LratRefusal.NoMemory) ⊎ (lines_from line.now.next line.now.rest.now ≡ Err refusal)) }
{
    read_on(buffer, line.rest, line.next)?;
    refused_at(fault, line.number)
}

/// Replays the lines of a text as they are read, up to the first that is refused; the lines behind it are read for
/// their form, since a text of no lines is refused for that.
fn replay_text(
    replay: &mut Replay,
    buffer: &mut LineBuffer,
    text: &[u8],
) -> Result<Replayed, LratRefusal>
    requires { length text.now ≤ most_side_bytes }
    ensures ok { IfOk result (λ how. ReplaysText how replay.old replay.new text.now) }
    ensures err { IfErr result (λ refusal. (refusal ≡ LratRefusal.NoMemory) ⊎ (lrat_of text.now ≡ Err refusal)) }
{
    let mut rest = text;
    let mut next = 1;
    while let Some(line) = next_line(buffer, rest, next)? {
        if let Err(fault) = replay_entry(replay, buffer, line.entry) {
            return stop_at(buffer, &line, fault);
        }
        rest = line.rest;
        next = line.next;
    }
    Ok(Replayed::Accepted)
}

/// The number of the line on which a text ends.
fn last_line(text: &[u8]) -> u32
    requires { length text.now ≤ 536870912 }
    ensures { result ≡ end_line text.now }
{
    text.iter().filter(|b| **b == b'\n').count() as u32 + 1
}

/// Replays a text of steps after a formula: Ok where they refute it, or else how the run ends.
fn refute(alloc: Global, formula: Formula, text: &[u8]) -> Result<(), Ending>
    requires { length text.now ≤ most_side_bytes }
    ensures refuted { OnOk result (RefutesBy formula text.now) }
    ensures ends { IfErr result (EndsText formula text.now) }
{
    let Ok(mut replay) = Replay::new(alloc, formula) else {
        return Err(Ending::NoMemory);
    };
    let mut buffer = LineBuffer::new(alloc);
    match replay_text(&mut replay, &mut buffer, text) {
        Err(refusal) => Err(ending_of_lrat(refusal)),
        Ok(Replayed::Refused { fault, line }) => Err(Ending::Refused(Refusal::Unconfirmed(
            Unconfirmed::Step { fault, line },
        ))),
        Ok(Replayed::Accepted) => {
            if replay.reached() {
                Ok(())
            } else {
                Err(Ending::Refused(Refusal::Unconfirmed(Unconfirmed::Unfinished {
                    line: last_line(text),
                })))
            }
        }
    }
}

/// Replays the steps of a side file after a formula: Ok where they refute it, or else how the run ends.
fn refute_side<S: Source>(alloc: Global, formula: Formula, side: &mut S) -> Result<(), Ending>
    ensures refuted { OnOk result (RefutesSide formula (S.left side.old)) }
    ensures spent { OnOk result (IsSpent (S.left side.new)) }
    ensures taken { OnOk result (LosesUpTo (S.left side.old) (S.left side.new) most_side_bytes) }
    ensures ends { IfErr result (λ ending. EndsCheck formula ending (change (S.left side.old) (S.faults side.old) (S.left side.new) (S.faults side.new))) }
    ensures later { S.faults side.old ≤ S.faults side.new }
{
    let bytes = match input_side(alloc, side) {
        Ok(bytes) => bytes,
        Err(ending) => return Err(ending),
    };
    refute(alloc, formula, &bytes)
}

/// How the command `check` ends.
pub(crate) fn end_of_check<S: Source, K: Sink>(
    alloc: Global,
    pla: &mut S,
    side: &mut S,
    out: &mut K,
) -> Ending
    ensures finishes { FinishesQuiet (CheckComes IfSome) pla_and_side most_cnf_bytes result
        (change (S.left pla.old) (S.faults pla.old) (S.left pla.new) (S.faults pla.new))
        (change (S.left side.old) (S.faults side.old) (S.left side.new) (S.faults side.new))
        (change (K.got out.old) (K.faults out.old) (K.got out.new) (K.faults out.new)) }
    ensures side_last { (side.new ≡ side.old) ⊎ ((formula : Formula) × CnfGives IfSome (record { pla = S.left pla.old; side = S.left side.old }) formula) }
    ensures out_last { (out.new ≡ out.old) ⊎ IsGranted (CheckComes IfSome (record { pla = S.left pla.old; side = S.left side.old })) }
{
    let formula = match input_cnf(alloc, pla) {
        Ok(formula) => formula,
        Err(ending) => return ending,
    };
    match refute_side(alloc, formula, side) {
        Err(ending) => ending,
        Ok(()) => match write_all(out, b"verified\n") {
            Ok(()) => Ending::Done,
            Err(Failed) => Ending::WriteFault,
        },
    }
}

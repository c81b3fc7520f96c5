//! The text of a step in memory, and a step read back from its line.
ghost use Rattle.std.specs.Prelude.{◌≡◌, ◌++◌, ◌∷◌, [], OnOk, IfOk, MatchOption, codes, Some};
ghost use Rattle.std.specs.Fmt.{signed_decimal};
ghost use Rattle.clause_core.specs.Cnf.{literals_text};
ghost use Rattle.lrat_replay.specs.LratText.{id_text, hints_text, step_text};
ghost use Rattle.clause_core.specs.Text.{words_of};
ghost use Rattle.lrat_replay.specs.LratRead.{kind_of};
ghost use Rattle.lrat_replay.specs.StepRead.{IsLineOf};
ghost use Rattle.lrat_replay.specs.declared.line.Step.{Step};

use crate::line::{LineKind, Step};
use crate::read::read_kind;
use clause_core::lit::Lit;
use itoa::Buffer;
use std::alloc::Global;
use wire_io::fault::NoMemory;

/// Adds an identifier to a text, with a blank behind it.
fn add_id(text: &mut Vec<u8>, id: u32) -> Result<(), NoMemory>
    ensures { OnOk result (text.new.items ≡ text.old.items ++ id_text id) }
{
    let mut digits = Buffer::new();
    text.extend_from_slice(digits.format(id).as_bytes())?;
    text.extend_from_slice(b" ")?;
    Ok(())
}

/// Adds a signed number to a text, with a blank behind it.
fn add_signed(text: &mut Vec<u8>, value: i32) -> Result<(), NoMemory>
    ensures { OnOk result (text.new.items ≡ text.old.items ++ (signed_decimal value ++ codes " ")) }
{
    let mut digits = Buffer::new();
    text.extend_from_slice(digits.format(value).as_bytes())?;
    text.extend_from_slice(b" ")?;
    Ok(())
}

/// Adds literals to a text, each with a blank behind it.
fn add_literals(text: &mut Vec<u8>, clause: &[Lit]) -> Result<(), NoMemory>
    ensures { OnOk result (text.new.items ≡ text.old.items ++ literals_text clause.now) }
{
    for lit in clause {
        add_signed(text, lit.signed())?;
    }
    Ok(())
}

/// Adds hints to a text, each with a blank behind it.
fn add_hints(text: &mut Vec<u8>, hints: &[i32]) -> Result<(), NoMemory>
    ensures { OnOk result (text.new.items ≡ text.old.items ++ hints_text hints.now) }
{
    for hint in hints {
        add_signed(text, *hint)?;
    }
    Ok(())
}

/// The line of a step, without its line feed.
fn line_text(alloc: Global, step: &Step, room: usize) -> Result<Vec<u8>, NoMemory>
    ensures { IfOk result (λ text. text.items ++ 10 ∷ [] ≡ step_text step.now.id step.now.clause step.now.hints) }
{
    let mut text = Vec::with_capacity(alloc, room)?;
    add_id(&mut text, step.id)?;
    add_literals(&mut text, step.clause.as_slice())?;
    text.extend_from_slice(b"0 ")?;
    add_hints(&mut text, step.hints.as_slice())?;
    text.extend_from_slice(b"0")?;
    Ok(text)
}

/// The addition that a line is.
fn read_addition_line(alloc: Global, line: &[u8]) -> Result<Option<Step>, NoMemory>
    ensures { IfOk result (λ found. MatchOption found ((step : Step) → kind_of (words_of line.now) ≡ Some (LineKind.Add step) → ⊥) (λ step. kind_of (words_of line.now) ≡ Some (LineKind.Add step))) }
{
    match read_kind(alloc, line)? {
        Some(LineKind::Add(step)) => Ok(Some(step)),
        Some(LineKind::Delete(_)) => Ok(None),
        None => Ok(None),
    }
}

/// The step of which a line, with a line feed behind it, is the written text, if there is one: there is no other.
pub fn read_step(alloc: Global, line: &[u8]) -> Result<Option<Step>, NoMemory>
    ensures only { IfOk result (λ found. (step : Step) → IsLineOf line.now step → found ≡ Some step) }
    ensures found { IfOk result (λ found. MatchOption found ((step : Step) → IsLineOf line.now step → ⊥) (IsLineOf line.now)) }
{
    let Some(step) = read_addition_line(alloc, line)? else {
        return Ok(None);
    };
    let text = line_text(alloc, &step, line.len())?;
    if text.as_slice() == line {
        Ok(Some(step))
    } else {
        Ok(None)
    }
}

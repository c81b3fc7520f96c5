//! The first lines of blocks.
ghost use Rattle.std.specs.Prelude.{◌≡◌, ◌≢◌, ℕ, ◌∷◌, ◌≤◌, List, [], IfOk, MatchOption, codes, decimal};
ghost use Rattle.report_text.specs.Expected.{IsHeading, parts_of_heading};
ghost use Rattle.report_text.specs.Pieces.{words};
ghost use Rattle.report_text.specs.Report.{HeadingParts, heading_words};

use crate::answer::Version;
use crate::form::{Form, form_of, has_form};
use crate::text::{behind, number_at, word_at};
use pla_reader::name::Name;
use std::alloc::Global;
use wire_io::fault::NoMemory;

/// The greatest number of an output.
const LAST_OUTPUT: u32 = 63;

/// What the first line of a block says.
#[derive(Drop)]
pub struct Heading {
    pub output: u32,
    pub name: Name,
    pub form: Form,
}

/// The number of an output, its name, not yet tested, and what follows.
fn output_of(line: &[u8]) -> Option<(u32, &[u8], &[u8])>
    ensures { MatchOption result
        ((n : ℕ) (name w : List ℕ) (ws : List (List ℕ)) → n ≤ 63 → words line.now ≢ codes "output" ∷ decimal n ∷ name ∷ w ∷ ws)
        (λ found. (found.0 ≤ 63) × (words line.now ≡ codes "output" ∷ decimal found.0 ∷ found.1.now ∷ words found.2.now)) }
{
    let line = behind(line, b"output")?;
    let (output, line) = number_at(line, LAST_OUTPUT)?;
    let (name, rest) = word_at(line);
    Some((output, name, rest?))
}

/// What the first line of a block says.
pub fn heading_of(alloc: Global, line: &[u8], version: Version) -> Result<Option<Heading>, NoMemory>
    ensures { IfOk result (λ found. MatchOption found
        ((h : HeadingParts) → IsHeading version h → words line.now ≢ heading_words h)
        (λ heading. IsHeading version (parts_of_heading heading) × (words line.now ≡ heading_words (parts_of_heading heading)))) }
{
    let Some((output, bytes, rest)) = output_of(line) else {
        return Ok(None);
    };
    let Some(name) = Name::new(Vec::from_slice(alloc, bytes)?) else {
        return Ok(None);
    };
    let Some(form) = form_of(alloc, rest)? else {
        return Ok(None);
    };
    if !has_form(version, &form) {
        return Ok(None);
    }
    Ok(Some(Heading { output, name, form }))
}

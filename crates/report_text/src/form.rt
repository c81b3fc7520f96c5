//! The forms of answers: what stands behind the name of an output.
ghost use Rattle.std.specs.Prelude.{◌≡◌, ◌≢◌, ℕ, ◌∷◌, ◌<◌, ◌≤◌, ◌↔◌, List, [], Some, IfOk, IsTrue, MatchOption, codes, decimal};
ghost use Rattle.lattice_grid.specs.Defects.{Defects, IsArray};
ghost use Rattle.lattice_grid.specs.Rectangle.{Size, IsSize};
ghost use Rattle.report_text.specs.Bounds.{IsBound};
ghost use Rattle.report_text.specs.Cells.{size_text, array_text};
ghost use Rattle.report_text.specs.Form.{form_words, lattice_size, Has};
ghost use Rattle.report_text.specs.Expected.{IsForm};
ghost use Rattle.report_text.specs.Pieces.{words};

use crate::answer::Version;
use crate::array::array_of;
use crate::shape::{last_shape, read_shape};
use crate::text::{behind, last_number, last_word, number_at, word_at};
use cube_core::assign::Assign;
use lattice_grid::array::Array;
use lattice_grid::shape::Shape;
use std::alloc::Global;
use wire_io::fault::NoMemory;

/// The most steps after which a question is given up.
const MOST_STEPS: u32 = 200_000;

/// The greatest number of an assignment.
const LAST_ASSIGN: u32 = 1023;

/// All of an answer but the cells of its lattice.
#[derive(Drop)]
pub enum Form {
    Found(Shape),
    Minimum(Shape),
    Undecided {
        shape: Shape,
        least: u32,
        at: Shape,
        after: u32,
    },
    Mapped(Array),
    NoneMapped(Array),
    MapUndecided {
        array: Array,
        after: u32,
    },
    NoRails {
        on: Assign,
        off: Assign,
    },
}

/// The shape of the lattice that follows, where one does.
pub fn lattice_shape(form: &Form) -> Option<Shape>
    ensures { result ≡ lattice_size form.now }
{
    match form {
        Form::Found(shape) | Form::Minimum(shape) | Form::Undecided { shape, .. } => Some(*shape),
        Form::Mapped(array) => Some(array.shape()),
        Form::NoneMapped(_) | Form::MapUndecided { .. } | Form::NoRails { .. } => None,
    }
}

/// Whether the version has the form.
pub fn has_form(version: Version, form: &Form) -> bool
    ensures { IsTrue result ↔ Has version form.now }
{
    match version {
        Version::Two => true,
        Version::One => match form {
            Form::NoRails { .. } => false,
            Form::Found(_)
            | Form::Minimum(_)
            | Form::Undecided { .. }
            | Form::Mapped(_)
            | Form::NoneMapped(_)
            | Form::MapUndecided { .. } => true,
        },
    }
}

/// The size behind this word.
fn sized(line: &[u8], word: &[u8]) -> Option<Shape>
    ensures { MatchOption result
        ((size : Size) → IsSize size → words line.now ≢ word.now ∷ size_text size ∷ [])
        (λ size. IsSize size × (words line.now ≡ word.now ∷ size_text size ∷ [])) }
{
    last_shape(behind(line, word)?)
}

/// What is known of smaller lattices: their least area, the shape that was given up, and after how many steps.
fn bound_of(line: &[u8]) -> Option<(u32, Shape, u32)>
    ensures { MatchOption result
        ((least : ℕ) (at : Size) (after : ℕ) → IsBound least at after →
        words line.now ≢ codes "least" ∷ decimal least ∷ codes "at" ∷ size_text at ∷ codes "after" ∷ decimal after ∷ [])
        (λ found. IsBound found.0 found.1 found.2 ×
        (words line.now ≡ codes "least" ∷ decimal found.0 ∷ codes "at" ∷ size_text found.1 ∷ codes "after" ∷ decimal found.2 ∷ [])) }
{
    let line = behind(line, b"least")?;
    let (least, line) = number_at(line, u32::MAX)?;
    let line = behind(line, b"at")?;
    let (word, rest) = word_at(line);
    let at = read_shape(word)?;
    let line = behind(rest?, b"after")?;
    let after = last_number(line, MOST_STEPS)?;
    if least == at.area() {
        Some((least, at, after))
    } else {
        None
    }
}

/// The shape of a lattice, and what is known of smaller ones.
fn undecided(line: &[u8]) -> Option<(Shape, u32, Shape, u32)>
    ensures { MatchOption result
        ((size : Size) (least : ℕ) (at : Size) (after : ℕ) → IsForm (Form.Undecided size least at after) → words line.now ≢ form_words (Form.Undecided size least at after))
        (λ found. IsForm (Form.Undecided found.0 found.1 found.2 found.3) × (words line.now ≡ form_words (Form.Undecided found.0 found.1 found.2 found.3))) }
{
    let line = behind(line, b"undecided")?;
    let (word, rest) = word_at(line);
    let shape = read_shape(word)?;
    let (least, at, after) = bound_of(rest?)?;
    Some((shape, least, at, after))
}

/// The assignment of a number below 1,024.
fn assign_of(number: u32) -> Option<Assign>
    requires { number ≤ 1023 }
    ensures { result ≡ Some number }
{
    Assign::new(number as u16)
}

/// Two assignments that no allowed literal tells apart.
fn lacking(line: &[u8]) -> Option<(Assign, Assign)>
    ensures { MatchOption result
        ((on off : ℕ) → IsForm (Form.NoRails on off) → words line.now ≢ form_words (Form.NoRails on off))
        (λ found. IsForm (Form.NoRails found.0 found.1) × (words line.now ≡ form_words (Form.NoRails found.0 found.1))) }
{
    let line = behind(line, b"norails")?;
    let (on, line) = number_at(line, LAST_ASSIGN)?;
    let off = last_number(line, LAST_ASSIGN)?;
    Some((assign_of(on)?, assign_of(off)?))
}

/// The last two words of a line behind this one.
fn two_words<'a>(line: &'a [u8], word: &[u8]) -> Option<(&'a [u8], &'a [u8])>
    ensures { MatchOption result
        ((a b : List ℕ) → words line.now ≢ word.now ∷ a ∷ b ∷ [])
        (λ found. words line.now ≡ word.now ∷ found.0.now ∷ found.1.now ∷ []) }
{
    let line = behind(line, word)?;
    let (first, rest) = word_at(line);
    Some((first, last_word(rest?)?))
}

/// The array behind this word.
fn array_behind(alloc: Global, line: &[u8], word: &[u8]) -> Result<Option<Array>, NoMemory>
    ensures { IfOk result (λ found. MatchOption found
        ((a : Defects) → IsArray a → words line.now ≢ word.now ∷ size_text a.size ∷ array_text a ∷ [])
        (λ a. IsArray a × (words line.now ≡ word.now ∷ size_text a.size ∷ array_text a ∷ []))) }
{
    match two_words(line, word) {
        None => Ok(None),
        Some((size, rows)) => array_of(alloc, size, rows),
    }
}

/// The words of an array, and the number of steps after which its question was given up.
fn stopped_words(line: &[u8]) -> Option<(&[u8], &[u8], u32)>
    ensures { MatchOption result
        ((a b : List ℕ) (after : ℕ) → after ≤ 200000 → words line.now ≢ codes "stopped" ∷ a ∷ b ∷ codes "after" ∷ decimal after ∷ [])
        (λ found. (found.2 ≤ 200000) × (words line.now ≡ codes "stopped" ∷ found.0.now ∷ found.1.now ∷ codes "after" ∷ decimal found.2 ∷ [])) }
{
    let line = behind(line, b"stopped")?;
    let (first, rest) = word_at(line);
    let (second, rest) = word_at(rest?);
    let after = last_number(behind(rest?, b"after")?, MOST_STEPS)?;
    Some((first, second, after))
}

/// The array whose question was given up, and after how many steps.
fn stopped(alloc: Global, line: &[u8]) -> Result<Option<Form>, NoMemory>
    ensures { IfOk result (λ found. MatchOption found
        ((a : Defects) (after : ℕ) → IsForm (Form.MapUndecided a after) → words line.now ≢ form_words (Form.MapUndecided a after))
        (λ form. IsForm form × (words line.now ≡ form_words form))) }
{
    let Some((size, rows, after)) = stopped_words(line) else {
        return Ok(None);
    };
    match array_of(alloc, size, rows)? {
        None => Ok(None),
        Some(array) => Ok(Some(Form::MapUndecided { array, after })),
    }
}

/// The form that the words of a line are.
pub fn form_of(alloc: Global, line: &[u8]) -> Result<Option<Form>, NoMemory>
    ensures { IfOk result (λ found. MatchOption found
        ((form : Form) → IsForm form → words line.now ≢ form_words form)
        (λ form. IsForm form × (words line.now ≡ form_words form))) }
{
    if let Some(shape) = sized(line, b"found") {
        return Ok(Some(Form::Found(shape)));
    }
    if let Some(shape) = sized(line, b"minimum") {
        return Ok(Some(Form::Minimum(shape)));
    }
    if let Some((shape, least, at, after)) = undecided(line) {
        return Ok(Some(Form::Undecided {
            shape,
            least,
            at,
            after,
        }));
    }
    if let Some(array) = array_behind(alloc, line, b"mapped")? {
        return Ok(Some(Form::Mapped(array)));
    }
    if let Some(array) = array_behind(alloc, line, b"none")? {
        return Ok(Some(Form::NoneMapped(array)));
    }
    if let Some(form) = stopped(alloc, line)? {
        return Ok(Some(form));
    }
    match lacking(line) {
        None => Ok(None),
        Some((on, off)) => Ok(Some(Form::NoRails { on, off })),
    }
}

//! Lines of a text that list values.
ghost use Rattle.std.specs.Prelude.{◌≡◌, ◌≢◌, ℕ, ◌∷◌, ◌++◌, List, map, codes, IfOk, All, MatchOption};
ghost use Rattle.std.specs.Bool.{MatchBool};
ghost use Rattle.lattice_grid.specs.Control.{NamesBelow};
ghost use Rattle.lattice_grid.specs.declared.control.Control.{Control};
ghost use Rattle.pla_reader.specs.Names.{bytes_of};
ghost use Rattle.report_text.specs.Bounds.{AreNames, IsProof};
ghost use Rattle.report_text.specs.Cells.{control_text, proof_text};
ghost use Rattle.report_text.specs.Expected.{IsRow};
ghost use Rattle.report_text.specs.Pieces.{words};
ghost use Rattle.report_text.specs.declared.answer.Proof.{Proof};

use crate::answer::Proof;
use crate::shape::read_shape;
use crate::text::{behind, cut, number_of, word_at};
use lattice_grid::control::Control;
use pla_reader::name::Name;
use std::alloc::Global;
use wire_io::fault::NoMemory;

/// The most inputs.
const MOST_INPUTS: u32 = 10;

/// The most steps of a proof.
const MOST_STEPS: u32 = 2_147_483_647;

/// The control that a word is.
fn control_of(word: &[u8]) -> Option<Control>
    ensures { MatchOption result ((c : Control) → NamesBelow 10 c → word.now ≢ control_text c) (λ c. NamesBelow 10 c × (word.now ≡ control_text c)) }
{
    match word {
        [b'0'] => Some(Control::Zero),
        [b'1'] => Some(Control::One),
        [b'x', digit @ b'0'..=b'9'] => Some(Control::Plain(*digit - b'0')),
        [b'x', digit @ b'0'..=b'9', b'\''] => Some(Control::Bar(*digit - b'0')),
        _ => None,
    }
}

/// Adds the cells of a line, so many, and tells whether it has just these.
pub fn add_row(cells: &mut Vec<Control>, line: &[u8], cols: u32) -> Result<bool, NoMemory>
    ensures { IfOk result (λ whole. MatchBool whole
        ((row : List Control) × IsRow cols row × (words line.now ≡ map control_text row) × (cells.new.items ≡ cells.old.items ++ row))
        ((row : List Control) → IsRow cols row → words line.now ≢ map control_text row)) }
{
    let mut rest = Some(line);
    for _col in 0..cols {
        let Some(bytes) = rest else {
            return Ok(false);
        };
        let (word, after) = word_at(bytes);
        let Some(control) = control_of(word) else {
            return Ok(false);
        };
        cells.push(control)?;
        rest = after;
    }
    Ok(rest.is_none())
}

/// The proof that a word is: a size and the number of steps, joined by a colon.
fn proof_of(word: &[u8]) -> Option<Proof>
    ensures { MatchOption result ((p : Proof) → IsProof p → word.now ≢ proof_text p) (λ p. IsProof p × (word.now ≡ proof_text p)) }
{
    let (size, number) = cut(word, b':')?;
    let shape = read_shape(size)?;
    let steps = number_of(number)?;
    if steps >= 1 && steps <= MOST_STEPS {
        Some(Proof { shape, steps })
    } else {
        None
    }
}

/// The proofs that a line lists behind its first word.
pub fn proofs_of(alloc: Global, line: &[u8]) -> Result<Option<Vec<Proof>>, NoMemory>
    ensures { IfOk result (λ found. MatchOption found
        ((ps : List Proof) → All IsProof ps → words line.now ≢ codes "refuted" ∷ map proof_text ps)
        (λ ps. All IsProof ps.items × (words line.now ≡ codes "refuted" ∷ map proof_text ps.items))) }
{
    let (first, mut rest) = word_at(line);
    if first != b"refuted".as_slice() {
        return Ok(None);
    }
    let mut proofs = Vec::new(alloc);
    while let Some(bytes) = rest {
        let (word, after) = word_at(bytes);
        let Some(proof) = proof_of(word) else {
            return Ok(None);
        };
        proofs.push(proof)?;
        rest = after;
    }
    Ok(Some(proofs))
}

/// The names that a line lists behind its first word.
pub fn names_of(alloc: Global, line: &[u8]) -> Result<Option<Vec<Name>>, NoMemory>
    ensures { IfOk result (λ found. MatchOption found
        ((names : List (List ℕ)) → AreNames names → words line.now ≢ codes "inputs" ∷ names)
        (λ names. AreNames (map bytes_of names.items) × (words line.now ≡ codes "inputs" ∷ map bytes_of names.items))) }
{
    let Some(behind_word) = behind(line, b"inputs") else {
        return Ok(None);
    };
    let mut bytes = behind_word;
    let mut names = Vec::new(alloc);
    for _named in 0..MOST_INPUTS {
        let (word, rest) = word_at(bytes);
        let Some(name) = Name::new(Vec::from_slice(alloc, word)?) else {
            return Ok(None);
        };
        names.push(name)?;
        match rest {
            None => return Ok(Some(names)),
            Some(more) => bytes = more,
        }
    }
    Ok(None)
}

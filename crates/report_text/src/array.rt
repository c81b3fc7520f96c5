//! Arrays as words.
ghost use Rattle.std.specs.Prelude.{◌≡◌, ◌≢◌, ◌++◌, List, map, length, IfOk, MatchOption};
ghost use Rattle.std.specs.Bool.{MatchBool};
ghost use Rattle.lattice_grid.specs.Defects.{Defects, IsArray};
ghost use Rattle.lattice_grid.specs.declared.array.Defect.{Defect};
ghost use Rattle.report_text.specs.Cells.{defect_byte, array_text, size_text};

use crate::shape::read_shape;
use crate::text::piece_at;
use lattice_grid::array::{Array, Defect};
use lattice_grid::shape::Shape;
use std::alloc::Global;
use wire_io::fault::NoMemory;

/// The defect that a byte stands for.
fn defect_of(byte: u8) -> Option<Defect>
    ensures { MatchOption result ((d : Defect) → byte ≢ defect_byte d) (λ d. byte ≡ defect_byte d) }
{
    match byte {
        b'.' => Some(Defect::Sound),
        b'o' => Some(Defect::StuckOpen),
        b'c' => Some(Defect::StuckClosed),
        _ => None,
    }
}

/// Adds the defects of a row, so many, and tells whether it has just these.
fn add_defects(cells: &mut Vec<Defect>, row: &[u8], cols: u32) -> Result<bool, NoMemory>
    ensures { IfOk result (λ whole. MatchBool whole
        ((ds : List Defect) × (length ds ≡ cols) × (row.now ≡ map defect_byte ds) × (cells.new.items ≡ cells.old.items ++ ds))
        ((ds : List Defect) → length ds ≡ cols → row.now ≢ map defect_byte ds)) }
{
    if row.len() != cols as usize {
        return Ok(false);
    }
    for byte in row {
        let Some(defect) = defect_of(*byte) else {
            return Ok(false);
        };
        cells.push(defect)?;
    }
    Ok(true)
}

/// The array of this shape that a word is: its rows from the top, joined by `/`, a byte for each switch, `.` where it is
/// sound, `o` where it is never on, `c` where it always is. `Ok(None)` exactly where the word is none.
pub fn read_rows(alloc: Global, shape: Shape, word: &[u8]) -> Result<Option<Array>, NoMemory>
    ensures { IfOk result (λ found. MatchOption found
        ((a : Defects) → IsArray a → a.size ≡ shape → word.now ≢ array_text a)
        (λ a. IsArray a × (a.size ≡ shape) × (word.now ≡ array_text a))) }
{
    let mut cells = Vec::new(alloc);
    let mut rest = Some(word);
    for _row in 0..shape.rows() {
        let Some(bytes) = rest else {
            return Ok(None);
        };
        let (row, after) = piece_at(bytes, b'/');
        if !add_defects(&mut cells, row, shape.cols())? {
            return Ok(None);
        }
        rest = after;
    }
    if rest.is_some() {
        return Ok(None);
    }
    Ok(Array::new(shape, cells))
}

/// The array of which two words are the shape and the rows.
pub(crate) fn array_of(alloc: Global, size: &[u8], rows: &[u8]) -> Result<Option<Array>, NoMemory>
    ensures { IfOk result (λ found. MatchOption found
        ((a : Defects) → IsArray a → size.now ≡ size_text a.size → rows.now ≢ array_text a)
        (λ a. IsArray a × (size.now ≡ size_text a.size) × (rows.now ≡ array_text a))) }
{
    match read_shape(size) {
        None => Ok(None),
        Some(shape) => read_rows(alloc, shape, rows),
    }
}

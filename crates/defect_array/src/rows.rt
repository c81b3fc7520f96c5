//! The rows of an array's text, one after another.
ghost use Rattle.std.specs.Prelude.{List, ◌≡◌, ◌≢◌, ℕ, ◌+◌, ◌<◌, ◌≤◌, [], ◌∷◌, ◌++◌, All, Some, IfErr, OnOk, MatchResult, length, map};
ghost use Rattle.std.specs.List.{list_all};
ghost use Rattle.defect_array.specs.Reading.{is_switch, row_at, row_fault, fault_at, AreRowsOf};
ghost use Rattle.defect_array.specs.Rows.{Row, row_of, counted};
ghost use Rattle.defect_array.specs.Taking.{defect_of, HasTaken, IsSome};
ghost use Rattle.defect_array.specs.declared.read.ArrayRefusal.TheVariants.{Empty, NoMemory};

use crate::line::collect;
use crate::read::ArrayRefusal;
use lattice_grid::array::{Array, Defect, MOST_SIDE};
use lattice_grid::shape::Shape;
use std::alloc::Global;
use wire_io::fault::NoMemory as OutOfMemory;

/// Whether each byte stands for a switch.
fn are_switches(row: &[u8]) -> bool
    ensures { result ≡ list_all is_switch row.now }
{
    row.iter().all(|b| *b == b'.' || *b == b'o' || *b == b'c')
}

/// The defect that a byte stands for, where it stands for a switch.
fn switch_of(byte: u8) -> Defect
    ensures { result ≡ defect_of byte }
{
    match byte {
        b'.' => Defect::Sound,
        b'o' => Defect::StuckOpen,
        _ => Defect::StuckClosed,
    }
}

/// Adds the switches of a row.
fn push_switches(cells: &mut Vec<Defect>, row: &[u8]) -> Result<(), OutOfMemory>
    ensures { OnOk result (cells.new.items ≡ cells.old.items ++ map defect_of row.now) }
{
    for byte in row {
        cells.push(switch_of(*byte))?;
    }
    Ok(())
}

/// The first fault of a row that stands on this line, behind so many rows, the first of which has so many switches.
fn fault_of(width: usize, before: u32, row: &[u8], line: u32) -> Option<ArrayRefusal>
    ensures { result ≡ row_fault width before (record { line = line; bytes = row.now }) }
{
    if row.len() != width {
        return Some(ArrayRefusal::Ragged { line });
    }
    if !are_switches(row) {
        return Some(ArrayRefusal::Byte { line });
    }
    if row.len() > MOST_SIDE as usize || before >= MOST_SIDE {
        return Some(ArrayRefusal::TooLarge { line });
    }
    None
}

/// Rows without fault: how long the first one is, how many they are, and their switches.
#[derive(Drop)]
pub struct Rows {
    width: usize,
    many: u32,
    cells: Vec<Defect>,
}

impl Rows {
    /// No rows.
    pub fn new(alloc: Global) -> Rows
        ensures taken { HasTaken [] result.width result.many result.cells.items }
        ensures narrow { result.width ≤ 16 }
    {
        Rows {
            width: 0,
            many: 0,
            cells: Vec::new(alloc),
        }
    }

    /// How long the next row is to be: as long as the first one.
    fn width_for(&self, row: &[u8]) -> usize
        ensures { (rows : List Row) (next : Row) → HasTaken rows self.now.width self.now.many self.now.cells.items → next.bytes ≡ row.now → result ≡ length (row_at (rows ++ next ∷ []) 0).bytes }
    {
        if self.many == 0 {
            row.len()
        } else {
            self.width
        }
    }

    /// Takes one more row.
    fn take(&mut self, row: &[u8], line: u32) -> Result<(), ArrayRefusal>
        ensures ok { OnOk result ((rows : List Row) → HasTaken rows self.old.width self.old.many self.old.cells.items
            → HasTaken (rows ++ record { line = line; bytes = row.now } ∷ []) self.new.width self.new.many self.new.cells.items) }
        ensures err { IfErr result (λ refusal. refusal ≢ NoMemory → (rows : List Row) → HasTaken rows self.old.width self.old.many self.old.cells.items
            → fault_at (rows ++ record { line = line; bytes = row.now } ∷ []) (length rows) ≡ Some refusal) }
        ensures narrow { OnOk result (self.new.width ≤ 16) }
    {
        let width = self.width_for(row);
        if let Some(refusal) = fault_of(width, self.many, row, line) {
            return Err(refusal);
        }
        push_switches(&mut self.cells, row)?;
        self.width = width;
        self.many += 1;
        Ok(())
    }

    /// Takes the row of a line, unless nothing counts on it. The bytes that count are put into `row`.
    pub fn take_line(
        &mut self,
        row: &mut Vec<u8>,
        line: &[u8],
        number: u32,
    ) -> Result<(), ArrayRefusal>
        ensures ok { OnOk result ((rows : List Row) → HasTaken rows self.old.width self.old.many self.old.cells.items
            → HasTaken (rows ++ row_of number (counted line.now)) self.new.width self.new.many self.new.cells.items) }
        ensures err { IfErr result (λ refusal. refusal ≢ NoMemory → (rows : List Row) → HasTaken rows self.old.width self.old.many self.old.cells.items
            → (next : Row) × (row_of number (counted line.now) ≡ next ∷ []) × (fault_at (rows ++ next ∷ []) (length rows) ≡ Some refusal)) }
        ensures narrow { OnOk result (self.old.width ≤ 16 → self.new.width ≤ 16) }
    {
        collect(row, line)?;
        if row.is_empty() {
            return Ok(());
        }
        self.take(row, number)
    }

    /// The array of the rows, where there is one.
    pub fn into_array(self) -> Result<Array, ArrayRefusal>
        requires { self.width ≤ 16 }
        ensures { (rows : List Row) → All IsSome rows → HasTaken rows self.width self.many self.cells.items
            → MatchResult result (AreRowsOf rows) (λ refusal. (rows ≡ []) × (refusal ≡ Empty)) }
    {
        let Some(shape) = Shape::new(self.many, self.width as u32) else {
            return Err(ArrayRefusal::Empty);
        };
        match Array::new(shape, self.cells) {
            Some(array) => Ok(array),
            None => Err(ArrayRefusal::Empty),
        }
    }
}

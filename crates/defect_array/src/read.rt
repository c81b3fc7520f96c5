//! Array texts are read.
ghost use Rattle.std.specs.Prelude.{◌≡◌, ◌≢◌, ℕ, ◌≤◌, [], length, OnOk, IfOk, IfErr};
ghost use Rattle.defect_array.specs.Reading.{IsFirstFault, Reads, Refused};
ghost use Rattle.defect_array.specs.Rows.{rows_in};
ghost use Rattle.defect_array.specs.Taking.{HasTaken};
ghost use Rattle.defect_array.specs.declared.read.ArrayRefusal.TheVariants.{NoMemory};

use crate::rows::Rows;
use lattice_grid::array::Array;
use report_text::text::piece_at;
use std::alloc::Global;
use wire_io::fault::NoMemory as OutOfMemory;

/// Why an array's text is refused. The first row with a fault decides, and on it the first fault in this order. Lines are
/// numbered from 1.
#[derive(Clone, Copy, Debug, PartialEq, Eq)]
pub enum ArrayRefusal {
    /// There is no row.
    Empty,
    /// The row is not as long as the first one.
    Ragged { line: u32 },
    /// A byte of the row stands for no switch.
    Byte { line: u32 },
    /// The row has more than sixteen switches, or it is row 17.
    TooLarge { line: u32 },
    /// There was no memory for the array.
    NoMemory,
}

impl From<OutOfMemory> for ArrayRefusal {
    ghost from_gives = { λ _ refusal. refusal ≡ NoMemory };

    fn from(_: OutOfMemory) -> Self {
        ArrayRefusal::NoMemory
    }
}

/// Takes the rows of a text.
fn take_lines(rows: &mut Rows, alloc: Global, text: &[u8]) -> Result<(), ArrayRefusal>
    requires few { length text.now ≤ 536870912 }
    requires none { HasTaken [] rows.old.width rows.old.many rows.old.cells.items }
    requires narrow { rows.old.width ≤ 16 }
    ensures ok { OnOk result (HasTaken (rows_in text.now) rows.new.width rows.new.many rows.new.cells.items) }
    ensures narrow { OnOk result (rows.new.width ≤ 16) }
    ensures err { IfErr result (λ refusal. refusal ≢ NoMemory → IsFirstFault (rows_in text.now) refusal) }
{
    let mut row = Vec::new(alloc);
    let mut rest = Some(text);
    let mut number: u32 = 1;
    while let Some(lines) = rest {
        let (line, after) = piece_at(lines, b'\n');
        rows.take_line(&mut row, line, number)?;
        rest = after;
        number += 1;
    }
    Ok(())
}

/// The array that a text of at most 536,870,912 bytes is: a row on each line, a byte for each switch, `.` where it is sound, `o`
/// where it is never on, `c` where it always is. Blanks, tabs and carriage returns count for nothing, nor does what follows `#`; lines
/// on which nothing counts are skipped.
pub fn read_array(alloc: Global, text: &[u8]) -> Result<Array, ArrayRefusal>
    requires { length text.now ≤ 536870912 }
    ensures read { IfOk result (Reads text.now) }
    ensures refused { IfErr result (λ refusal. refusal ≢ NoMemory → Refused text.now refusal) }
{
    let mut rows = Rows::new(alloc);
    take_lines(&mut rows, alloc, text)?;
    rows.into_array()
}

//! The lines of a text.
ghost use Rattle.std.specs.Prelude.{◌≡◌, ◌≤◌, ◌==◌, length, filter, OnOk};
ghost use Rattle.std.specs.List.{position, position_or_len, before_first};
ghost use Rattle.defect_array.specs.Rows.{is_counted, counted};

use wire_io::fault::NoMemory;

/// The place of the first such byte.
fn place_of(bytes: &[u8], wanted: u8) -> Option<usize>
    ensures { result ≡ position (λ b. b == wanted) bytes.now }
{
    bytes.iter().position(|b| *b == wanted)
}

/// The place of the first such byte, or the length.
fn place_or_end(bytes: &[u8], wanted: u8) -> usize
    ensures same { result ≡ position_or_len (λ b. b == wanted) bytes.now }
    ensures within { result ≤ length bytes.now }
{
    place_of(bytes, wanted).unwrap_or(bytes.len())
}

/// Whether a byte counts, and is not a blank, a tab or a carriage return.
fn counts(byte: u8) -> bool
    ensures { result ≡ is_counted byte }
{
    byte != b' ' && byte != b'\t' && byte != b'\r'
}

/// A line without its comment.
fn visible(line: &[u8]) -> &[u8]
    ensures { result.now ≡ before_first (λ b. b == 35) line.now }
{
    &line[..place_or_end(line, b'#')]
}

/// Puts the bytes that count in place of those that are there.
fn collect_counted(row: &mut Vec<u8>, text: &[u8]) -> Result<(), NoMemory>
    ensures { OnOk result (row.new.items ≡ filter is_counted text.now) }
{
    row.clear();
    for byte in text {
        if counts(*byte) {
            row.push(*byte)?;
        }
    }
    Ok(())
}

/// Puts the bytes of a line that count in place of those that are there.
#[tactic(auto, unfolding(crate::specs::Rows::counted))]
pub fn collect(row: &mut Vec<u8>, line: &[u8]) -> Result<(), NoMemory>
    ensures { OnOk result (row.new.items ≡ counted line.now) }
{
    collect_counted(row, visible(line))
}

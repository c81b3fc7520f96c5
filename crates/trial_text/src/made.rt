//! A PLA text from a number.
ghost use Rattle.std.specs.Prelude.{◌≡◌, ◌++◌, ◌<◌, ℕ, codes, OnOk, IfOk};
ghost use Rattle.trial_text.specs.Made.{digits_of, left_after, made, row_of, rows_of, text_of, width_of};

use crate::plane::Plane;
use rand_core::Rng;
use rand_pcg::Lcg64Xsh32;
use std::alloc::Global;
use wire_io::fault::NoMemory;

/// Appends the digits of one plane of a row.
fn push_digits<R: Rng>(text: &mut Vec<u8>, rng: &mut R, plane: Plane) -> Result<(), NoMemory>
    ensures text { OnOk result (text.new.items ≡ text.old.items ++ digits_of plane (R.stream rng.old)) }
    ensures left { OnOk result (R.stream rng.new ≡ left_after (width_of plane) (R.stream rng.old)) }
{
    for _ in 0..plane.width() {
        text.push(plane.digit(rng.next_u32()))?;
    }
    Ok(())
}

/// Appends a row.
fn push_row<R: Rng>(text: &mut Vec<u8>, rng: &mut R) -> Result<(), NoMemory>
    ensures text { OnOk result (text.new.items ≡ text.old.items ++ row_of (R.stream rng.old)) }
    ensures left { OnOk result (R.stream rng.new ≡ left_after 22 (R.stream rng.old)) }
{
    push_digits(text, rng, Plane::Inputs)?;
    text.push(b' ')?;
    push_digits(text, rng, Plane::Outputs)?;
    text.push(b'\n')?;
    Ok(())
}

/// The text of 24 rows that a generator's words give.
fn text_from<R: Rng>(alloc: Global, rng: &mut R) -> Result<Vec<u8>, NoMemory>
    ensures { IfOk result (λ text. text.items ≡ text_of (R.stream rng.old)) }
{
    let mut text = Vec::from_slice(alloc, b".i 6\n.o 16\n")?;
    for _ in 0..24_u32 {
        push_row(&mut text, rng)?;
    }
    text.extend_from_slice(b".e\n")?;
    Ok(text)
}

/// The PLA text that a number makes: six inputs, 16 outputs and 24 rows, drawn by the generator that the number starts.
pub fn made(alloc: Global, number: u32) -> Result<Vec<u8>, NoMemory>
    ensures { IfOk result (λ text. text.items ≡ made number) }
{
    let mut rng = Lcg64Xsh32::new(u64::from(number), 1);
    text_from(alloc, &mut rng)
}

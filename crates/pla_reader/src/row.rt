//! The rows of a text.
ghost use Rattle.std.specs.Prelude.{◌≡◌, ℕ, ◌+◌, ◌≤◌, ◌<◌, ◌&&◌, length, take, drop, OnOk, Option, Bool};
ghost use Rattle.std.specs.List.{list_all};
ghost use Rattle.cube_core.specs.Cube.{in_cube, HasLiterals};
ghost use Rattle.pla_reader.specs.Meaning.{allows, literal_of};
ghost use Rattle.pla_reader.specs.Lines.{is_place, digits_of};
ghost use Rattle.pla_reader.specs.Faults.{is_input_digit, is_output_digit, are_digits};

use cube_core::cube::Cube;
use std::alloc::AllocFailed;

/// The cube with the literal that a digit stands for, if it does.
fn with_digit(cube: &Cube, input: u8, digit: u8) -> Cube
    requires { input < 10 }
    ensures { (wanted : ℕ → Option Bool) → wanted input ≡ literal_of digit → HasLiterals wanted input cube.now →
        HasLiterals wanted (input + 1) result }
{
    match digit {
        b'0' => cube.with(input, false),
        b'1' => cube.with(input, true),
        _ => *cube,
    }
}

/// The cube of a row's digits, one for each input.
pub fn cube_of(digits: &[u8]) -> Cube
    requires { length digits.now ≤ 10 }
    ensures { (x : ℕ) → in_cube result x ≡ allows digits.now x }
{
    let mut cube = Cube::full();
    for (input, digit) in digits.iter().enumerate() {
        cube = with_digit(&cube, input as u8, *digit);
    }
    cube
}

/// Whether a byte of a row is a digit's, and not a blank, a tab or `|`.
fn holds_digit(b: u8) -> bool
    ensures { result ≡ is_place b }
{
    b != b' ' && b != b'\t' && b != b'|'
}

/// Puts the digits of a row in place of those that are there.
pub fn collect_digits(digits: &mut Vec<u8>, text: &[u8]) -> Result<(), AllocFailed<u8>>
    ensures { OnOk result (digits.new.items ≡ digits_of text.now) }
{
    digits.clear();
    for b in text {
        if holds_digit(*b) {
            digits.push(*b)?;
        }
    }
    Ok(())
}

/// Whether each byte is a digit for an input.
fn are_input_digits(digits: &[u8]) -> bool
    ensures { result ≡ list_all is_input_digit digits.now }
{
    digits
        .iter()
        .all(|b| *b == b'0' || *b == b'1' || *b == b'-' || *b == b'2')
}

/// Whether each byte is a digit for an output.
fn are_output_digits(digits: &[u8]) -> bool
    ensures { result ≡ list_all is_output_digit digits.now }
{
    digits.iter().all(|b| {
        *b == b'0' || *b == b'1' || *b == b'4' || *b == b'-' || *b == b'2' || *b == b'~'
    })
}

/// Whether the first bytes, so many, are digits for inputs, and the others for outputs.
pub fn are_row_digits(inputs: u8, digits: &[u8]) -> bool
    requires { inputs ≤ length digits.now }
    ensures { result ≡ are_digits inputs digits.now }
{
    let (ours, marks) = digits.split_at(inputs as usize);
    are_input_digits(ours) && are_output_digits(marks)
}

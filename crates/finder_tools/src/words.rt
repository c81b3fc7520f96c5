//! Literals at 64 assignments at once.
use lattice_grid::control::Control;

/// In which of 64 assignments input i below six is 1.
const ONES: [u64; 6] = [
    0xAAAA_AAAA_AAAA_AAAA,
    0xCCCC_CCCC_CCCC_CCCC,
    0xF0F0_F0F0_F0F0_F0F0,
    0xFF00_FF00_FF00_FF00,
    0xFFFF_0000_FFFF_0000,
    0xFFFF_FFFF_0000_0000,
];

/// At which of the 64 assignments of the word at a place an input is 1.
fn ones(input: u8, place: usize) -> u64 {
    if input < 6 {
        ONES[input as usize]
    } else if (place >> (input - 6).min(3)) & 1 == 1 {
        u64::MAX
    } else {
        0
    }
}

/// At which of the 64 assignments of the word at a place a control is on.
pub fn on_word(control: Control, place: usize) -> u64 {
    match control {
        Control::Zero => 0,
        Control::One => u64::MAX,
        Control::Plain(input) => ones(input, place),
        Control::Bar(input) => !ones(input, place),
    }
}

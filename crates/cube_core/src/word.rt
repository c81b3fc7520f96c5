//! Words of 64 bits that stand for 64 assignments: bit j of word k is assignment 64 k + j.
ghost use Rattle.std.specs.Prelude.{◌≡◌, ℕ, ◌+◌, ◌*◌, ◌<◌, ◌≤◌, ◌^◌, nat_lt, slice_index, ◌&&◌};
ghost use Rattle.cube_core.specs.Assignment.{bit};
ghost use Rattle.cube_core.specs.Cube.{agrees, in_cube};
ghost use Rattle.cube_core.specs.Word.{HasLowPlaces};

use crate::cube::Cube;

/// How many words have all assignments.
pub const WORDS: usize = 16;

/// One word of all assignments of so many inputs.
pub fn below(inputs: u8, place: usize) -> u64
    requires few { inputs ≤ 10 }
    requires within { place < 16 }
    ensures { (j : ℕ) → j < 64 → bit result j ≡ nat_lt (64 * place + j) (2 ^ inputs) }
{
    let end = 1usize << inputs;
    let start = 64 * place;
    if end <= start {
        0
    } else if end - start >= 64 {
        u64::MAX
    } else {
        (1 << (end - start)) - 1
    }
}

/// The words that a function gives for their places.
pub fn words_by<F: Fn(usize) -> u64>(word: F) -> [u64; 16]
    requires { (k : ℕ) → k < 16 → F.pre word k }
    ensures { (k : ℕ) → k < 16 → F.post word k (slice_index result k) }
{
    let mut words = [0; WORDS];
    for place in 0..WORDS {
        words[place] = word(place);
    }
    words
}

/// In which of 64 places input i below six is 1.
const ONES: [u64; 6] = [
    0xAAAA_AAAA_AAAA_AAAA,
    0xCCCC_CCCC_CCCC_CCCC,
    0xF0F0_F0F0_F0F0_F0F0,
    0xFF00_FF00_FF00_FF00,
    0xFFFF_0000_FFFF_0000,
    0xFFFF_FFFF_0000_0000,
];

/// The places in a word where an input that is 1 at some places has the value that a literal wants.
fn agreeing(literal: Option<bool>, ones: u64) -> u64
    ensures { (j : ℕ) → j < 64 → bit result j ≡ agrees literal (bit ones j) }
{
    match literal {
        Some(true) => ones,
        Some(false) => !ones,
        None => u64::MAX,
    }
}

/// The places in a word where the first six inputs have the values that a cube wants.
pub fn low_places(cube: &Cube) -> u64
    ensures { HasLowPlaces cube.now result }
{
    let mut places = u64::MAX;
    for input in 0..6 {
        places &= agreeing(cube.literal(input), ONES[input as usize]);
    }
    places
}

/// One word of the assignments of so many inputs that are in a cube, whose low places are known.
pub fn of_cube(inputs: u8, cube: &Cube, low: u64, place: usize) -> u64
    requires few { inputs ≤ 10 }
    requires within { place < 16 }
    requires low { HasLowPlaces cube.now low }
    ensures { (j : ℕ) → j < 64 → bit result j ≡ (nat_lt (64 * place + j) (2 ^ inputs) && in_cube cube.now (64 * place + j)) }
{
    if cube.reaches(place) {
        low & below(inputs, place)
    } else {
        0
    }
}

//! What a lattice is to be at each assignment.
use cube_core::assign::{ASSIGNMENTS, Assign};
use cube_core::spec::Spec;
use cube_core::table::Table;

/// How many words of 64 assignments there are for ten inputs.
pub(crate) const WORDS: usize = 16;

/// One bit for each assignment of at most ten inputs.
pub(crate) type Bits = [u64; 16];

/// A function by words of 64 assignments: where it is 1, and where it is 0.
#[derive(Clone, Copy)]
pub(crate) struct Aim {
    pub(crate) inputs: u8,
    on: Bits,
    off: Bits,
}

/// The bits of a table.
fn bits_of(table: &Table) -> Bits {
    let mut bits = [0u64; 16];
    for number in 0..ASSIGNMENTS {
        if let Some(x) = Assign::new(number) {
            if table.has(x) {
                let place = usize::from(number) % 1024;
                bits[place / 64] |= 1 << (place % 64);
            }
        }
    }
    bits
}

/// The word at a place, and 0 past the last one.
pub(crate) fn word(bits: &Bits, place: usize) -> u64 {
    if place < WORDS { bits[place] } else { 0 }
}

impl Aim {
    /// That of a spec.
    pub(crate) fn of_spec(spec: &Spec) -> Aim {
        Aim {
            inputs: spec.inputs(),
            on: bits_of(spec.on()),
            off: bits_of(spec.off()),
        }
    }

    /// How many words of 64 assignments the function's inputs have.
    pub(crate) fn words(&self) -> usize {
        1 << self.inputs.saturating_sub(6).min(4)
    }

    /// At which assignments of the word at a place a lattice is wrong that joins its plates at these.
    pub(crate) fn wrong(&self, place: usize, joined: u64) -> u64 {
        (word(&self.on, place) & !joined) | (word(&self.off, place) & joined)
    }

    /// Whether the function is 1 at an assignment, of which ten bits count.
    pub(crate) fn is_on(&self, x: u32) -> bool {
        (word(&self.on, (x / 64) as usize % WORDS) >> (x % 64)) & 1 == 1
    }
}

//! Sets of assignments as words of bits.
use cube_core::assign::{ASSIGNMENTS, Assign};
use cube_core::table::Table;

/// How many words a set has.
const WORDS: usize = 16;

/// A set of assignments of at most ten inputs, one bit for each.
#[derive(Clone, Copy)]
pub(crate) struct Bits {
    words: [u64; 16],
}

impl Bits {
    /// The set of no assignment.
    pub(crate) fn empty() -> Bits {
        Bits { words: [0; WORDS] }
    }

    /// The set of the assignments below 64 whose bit in a word is 1.
    pub(crate) fn of_word(word: u64) -> Bits {
        let mut bits = Bits::empty();
        bits.words[0] = word;
        bits
    }

    /// The set as it stands in a table.
    pub(crate) fn of_table(table: &Table) -> Bits {
        let mut bits = Bits::empty();
        for number in 0..ASSIGNMENTS {
            if let Some(x) = Assign::new(number) {
                if table.has(x) {
                    bits.add(number);
                }
            }
        }
        bits
    }

    /// The table of the set.
    pub(crate) fn table(&self) -> Table {
        let mut table = Table::empty();
        for number in 0..ASSIGNMENTS {
            if let Some(x) = Assign::new(number) {
                if self.has(number) {
                    table.add(x);
                }
            }
        }
        table
    }

    /// Whether the assignment, of which ten bits count, is in the set.
    fn has(&self, number: u16) -> bool {
        let place = usize::from(number) % 1024;
        (self.words[place / 64] >> (place % 64)) & 1 == 1
    }

    /// Adds an assignment, of which ten bits count.
    pub(crate) fn add(&mut self, number: u16) {
        let place = usize::from(number) % 1024;
        self.words[place / 64] |= 1 << (place % 64);
    }

    /// Adds the assignments of another set.
    pub(crate) fn add_all(&mut self, other: &Bits) {
        for place in 0..WORDS {
            self.words[place] |= other.words[place];
        }
    }

    /// Whether no assignment is in both sets.
    pub(crate) fn is_apart_from(&self, other: &Bits) -> bool {
        (0..WORDS).all(|place| self.words[place] & other.words[place] == 0)
    }

    /// Whether each assignment of this set is in the other.
    pub(crate) fn is_within(&self, other: &Bits) -> bool {
        (0..WORDS).all(|place| self.words[place] & !other.words[place] == 0)
    }

    /// Whether the set has no assignment.
    pub(crate) fn is_empty(&self) -> bool {
        self.words.iter().all(|word| *word == 0)
    }

    /// The word at a place, and 0 past the last one.
    pub(crate) fn word(&self, place: usize) -> u64 {
        if place < WORDS { self.words[place] } else { 0 }
    }

    /// Exchanges the word at a place, if there is one.
    pub(crate) fn set_word(&mut self, place: usize, word: u64) {
        if place < WORDS {
            self.words[place] = word;
        }
    }

    /// The first 256 assignments, as words.
    pub(crate) fn front(&self) -> [u64; 4] {
        [self.words[0], self.words[1], self.words[2], self.words[3]]
    }

    /// What the inputs of the mask `free` are, in their order, at the assignments of the set at which the others are as in
    /// `fixed`.
    pub(crate) fn cofactor(&self, free: u16, fixed: u16) -> Bits {
        let mut part = Bits::empty();
        let mut bits = 0u16;
        for number in 0..count_of(free) {
            if self.has(fixed | bits) {
                part.add(number);
            }
            bits = bits.wrapping_sub(free) & free;
        }
        part
    }
}

/// How many assignments the inputs of a mask have.
pub(crate) fn count_of(mask: u16) -> u16 {
    1 << mask.count_ones().min(10)
}

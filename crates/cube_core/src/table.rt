//! Sets of assignments.
ghost use Rattle.std.specs.Prelude.{◌≡◌, ℕ, ◌<◌, ◌≤◌, ◌^◌, ◌↔◌, ◌&&◌, ◌||◌, not, true, false, IsTrue, IsNone, IfSome};
ghost use Rattle.std.specs.Ordering.{nat_cmp};
ghost use Rattle.std.specs.FinSet as set;
ghost use Rattle.std.specs.Coded.{coded_ℕ};
ghost use Rattle.cube_core.specs.Members.{members_of, complement_of, all_of, Assignments, AllBelow, AreDisjoint, IsWithin, IsLeast};
ghost use Rattle.cube_core.specs.Cube.{members_of_cube};

use crate::assign::Assign;
use crate::cube::Cube;
use crate::word::{self, below, low_places, words_by};
use std::marker::Model;

/// A set of assignments, one bit for each.
#[derive(Drop)]
pub struct Table {
    words: [u64; 16],
}

impl Model for Table {
    ghost Value = { Assignments };

    ghost coded = { set.code coded_ℕ };

    ghost view = { λ table. members_of table.words };
}

impl Table {
    /// The set of no assignment.
    pub fn empty() -> Table
        ensures { result ≡ set.empty }
    {
        Table { words: [0; 16] }
    }

    /// All assignments of so many inputs.
    pub fn full(inputs: u8) -> Table
        requires { inputs ≤ 10 }
        ensures { result ≡ all_of inputs }
    {
        Table {
            words: words_by(|place| below(inputs, place)),
        }
    }

    /// Whether the assignment is in the set.
    pub fn has(&self, x: Assign) -> bool
        ensures { result ≡ set.contains self.now x }
    {
        let place = usize::from(x.number());
        (self.words[place / 64] >> (place % 64)) & 1 == 1
    }

    /// Adds an assignment.
    pub fn add(&mut self, x: Assign)
        ensures { self.new ≡ set.insert self.old x }
    {
        let place = usize::from(x.number());
        self.words[place / 64] |= 1 << (place % 64);
    }

    /// The assignments of so many inputs that are in a cube.
    pub fn of_cube(inputs: u8, cube: &Cube) -> Table
        requires { inputs ≤ 10 }
        ensures { result ≡ members_of_cube inputs cube.now }
    {
        let low = low_places(cube);
        Table {
            words: words_by(|place| word::of_cube(inputs, cube, low, place)),
        }
    }

    /// Adds the assignments of so many inputs that are in a cube.
    pub fn add_cube(&mut self, inputs: u8, cube: &Cube)
        requires { inputs ≤ 10 }
        ensures { self.new ≡ set.union self.old (members_of_cube inputs cube.now) }
    {
        *self = self.or(&Table::of_cube(inputs, cube));
    }

    /// The same set once more.
    pub fn copy(&self) -> Table
        ensures { result ≡ self.now }
    {
        Table { words: self.words }
    }

    /// The assignments that are in one of the sets or in both.
    pub fn or(&self, other: &Table) -> Table
        ensures { result ≡ set.union self.now other.now }
    {
        let (ours, theirs) = (&self.words, &other.words);
        Table {
            words: words_by(|place| ours[place] | theirs[place]),
        }
    }

    /// The assignments that are in both sets.
    pub fn and(&self, other: &Table) -> Table
        ensures { result ≡ set.intersection self.now other.now }
    {
        let (ours, theirs) = (&self.words, &other.words);
        Table {
            words: words_by(|place| ours[place] & theirs[place]),
        }
    }

    /// The assignments of this set that are not in the other.
    pub fn minus(&self, other: &Table) -> Table
        ensures { result ≡ set.difference self.now other.now }
    {
        let (ours, theirs) = (&self.words, &other.words);
        Table {
            words: words_by(|place| ours[place] & !theirs[place]),
        }
    }

    /// The assignments of so many inputs that are not in this set.
    pub fn complement(&self, inputs: u8) -> Table
        requires { inputs ≤ 10 }
        ensures { result ≡ complement_of inputs self.now }
    {
        Table::full(inputs).minus(self)
    }

    /// The least assignment of the set: None exactly where the set is empty.
    pub fn first(&self) -> Option<Assign>
        ensures none { IsNone result ↔ (self.now ≡ set.empty) }
        ensures some { IfSome result (IsLeast self.now) }
    {
        for (place, word) in self.words.iter().enumerate() {
            if *word != 0 {
                return Assign::new(64 * place as u16 + word.trailing_zeros() as u16);
            }
        }
        None
    }

    /// How many assignments the set has.
    pub fn count(&self) -> u32
        ensures { result ≡ set.len self.now }
    {
        let mut total = 0;
        for word in &self.words {
            total += word.count_ones();
        }
        total
    }

    /// Whether the set has no assignment.
    pub fn is_empty(&self) -> bool
        ensures { IsTrue result ↔ (self.now ≡ set.empty) }
    {
        self.first().is_none()
    }

    /// Whether each assignment of this set is in the other.
    pub fn is_within(&self, other: &Table) -> bool
        ensures { IsTrue result ↔ IsWithin self.now other.now }
    {
        self.minus(other).is_empty()
    }

    /// Whether each assignment is one of so many inputs.
    pub fn is_below(&self, inputs: u8) -> bool
        requires { inputs ≤ 10 }
        ensures { IsTrue result ↔ AllBelow (2 ^ inputs) self.now }
    {
        self.is_within(&Table::full(inputs))
    }

    /// Whether no assignment is in both.
    pub fn is_apart_from(&self, other: &Table) -> bool
        ensures { IsTrue result ↔ AreDisjoint self.now other.now }
    {
        self.and(other).is_empty()
    }
}

//! Products of literals.
ghost use Rattle.std.specs.Prelude.{◌≡◌, ℕ, ◌+◌, ◌*◌, ◌≤◌, ◌<◌, ◌%◌, ◌^◌, ◌&&◌, ◌↔◌, true, nat_lt, Some, None, IsTrue, IsNone, IfSome, if◌then◌else◌, ◌==◌};

use crate::assign::{ASSIGNMENTS, Assign};
use crate::table::Table;
use std::marker::Model;

/// A product of literals of the ten inputs.
#[derive(Clone, Copy, Debug, PartialEq, Eq)]
pub struct Cube {
    care: u16,
    value: u16,
}

impl Model for Cube {
    ghost use Rattle.cube_core.specs.Cube.{Product, IsProduct};

    ghost Value = { Product };

    ghost view = { λ cube. record { care = cube.care; value = cube.value } };

    ghost invariant = { λ cube. IsProduct (record { care = cube.care; value = cube.value }) };

    ghost inverse = { λ product. record { care = product.care; value = product.value } };
}

impl Cube {
    ghost use Rattle.std.specs.Option.{SomeIff};
    ghost use Rattle.cube_core.specs.Assignment.{bit};
    ghost use Rattle.cube_core.specs.Cube.{Product, IsProduct, literal_of, in_cube, agrees, each_below, ContainsCube, IsInside, Meet, ClashAt, IsLeastClash};

    /// The cube with these bits: None exactly where it has a value of an input that it does not care for, or one of
    /// more than ten inputs.
    pub fn new(care: u16, value: u16) -> Option<Cube>
        ensures { let c : Product = record { care = care; value = value } in SomeIff result (IsProduct c) c }
    {
        if care < ASSIGNMENTS && value & care == value {
            Some(Cube { care, value })
        } else {
            None
        }
    }

    /// The cube that cares for nothing.
    pub fn full() -> Cube
        ensures product { IsProduct result }
        ensures literals { (i : ℕ) → literal_of result i ≡ None }
        ensures members { (x : ℕ) → in_cube result x ≡ true }
    {
        Cube { care: 0, value: 0 }
    }

    /// The cube of one assignment of so many inputs, which cares for all of them.
    pub fn point(inputs: u8, x: Assign) -> Cube
        requires { inputs ≤ 10 }
        ensures product { IsProduct result }
        ensures literals { (i : ℕ) → literal_of result i ≡ (if nat_lt i inputs then Some (bit x i) else None) }
        ensures members { (y : ℕ) → in_cube result y ≡ (y % 2 ^ inputs == x % 2 ^ inputs) }
    {
        let care = (1u16 << inputs) - 1;
        Cube {
            care,
            value: x.number() & care,
        }
    }

    /// Whether the assignment is in the cube.
    pub fn has(&self, x: Assign) -> bool
        ensures { result ≡ in_cube self.now x }
    {
        x.number() & self.care == self.value
    }

    /// Whether each assignment of the other cube is in this one.
    pub fn contains(&self, other: &Cube) -> bool
        ensures { IsTrue result ↔ ContainsCube self.now other.now }
    {
        self.care & other.care == self.care && other.value & self.care == self.value
    }

    /// Whether each assignment of so many inputs that is in the cube is in a set.
    pub fn inside(&self, inputs: u8, table: &Table) -> bool
        requires { inputs ≤ 10 }
        ensures { IsTrue result ↔ IsInside inputs self.now table.now }
    {
        Table::of_cube(inputs, self).is_within(table)
    }

    /// Whether some assignment is in both cubes.
    pub fn meets(&self, other: &Cube) -> bool
        ensures { IsTrue result ↔ Meet self.now other.now }
    {
        self.clash(other).is_none()
    }

    /// The least input for which both cubes care and want opposite values: None exactly where there is none, which is
    /// where they meet.
    pub fn clash(&self, other: &Cube) -> Option<u8>
        ensures none { IsNone result ↔ ((i : ℕ) → ClashAt self.now other.now i → ⊥) }
        ensures meets { IsNone result ↔ Meet self.now other.now }
        ensures some { IfSome result (IsLeastClash self.now other.now) }
    {
        let opposite = (self.value ^ other.value) & self.care & other.care;
        if opposite == 0 {
            None
        } else {
            Some(opposite.trailing_zeros() as u8)
        }
    }

    /// The inputs that the cube cares for, as the bits of a number.
    pub fn care(&self) -> u16
        ensures same { result ≡ self.now.care }
        ensures kept { IsProduct self.now }
    {
        self.care
    }

    /// The values that the cube wants, as the bits of a number that is 0 where it does not care.
    pub fn value(&self) -> u16
        ensures { result ≡ self.now.value }
    {
        self.value
    }

    /// What the cube wants of an input: None exactly where it does not care for it.
    pub fn literal(&self, input: u8) -> Option<bool>
        requires { input < 10 }
        ensures { result ≡ literal_of self.now input }
    {
        if (self.care >> input) & 1 == 1 {
            Some((self.value >> input) & 1 == 1)
        } else {
            None
        }
    }

    /// The cube with this literal of an input in place of the one that it had.
    pub fn with(&self, input: u8, value: bool) -> Cube
        requires { input < 10 }
        ensures product { IsProduct result }
        ensures literals { (i : ℕ) → literal_of result i ≡ (if i == input then Some value else literal_of self.now i) }
    {
        let one = 1u16 << input;
        let value = if value {
            self.value | one
        } else {
            self.value & !one
        };
        Cube {
            care: self.care | one,
            value,
        }
    }

    /// The cube without the literal of an input.
    pub fn without(&self, input: u8) -> Cube
        requires { input < 10 }
        ensures product { IsProduct result }
        ensures literals { (i : ℕ) → literal_of result i ≡ (if i == input then None else literal_of self.now i) }
    {
        let others = !(1u16 << input);
        Cube {
            care: self.care & others,
            value: self.value & others,
        }
    }

    /// Whether the cube has assignments in the word at a place: those whose first six inputs are as it wants.
    pub(crate) fn reaches(&self, place: usize) -> bool
        ensures { (j : ℕ) → j < 64 → in_cube self.now (64 * place + j)
            ≡ (result && each_below (λ i. agrees (literal_of self.now i) (bit j i)) 6) }
    {
        place & (self.care >> 6) as usize == (self.value >> 6) as usize
    }
}

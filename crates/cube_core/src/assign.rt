//! Assignments of values to inputs.
ghost use Rattle.std.specs.Prelude.{◌≡◌, ℕ, ◌<◌};
ghost use Rattle.std.specs.Option.{SomeIff};
ghost use Rattle.cube_core.specs.Assignment.{bit};

use std::marker::Model;

/// How many assignments ten inputs have.
pub const ASSIGNMENTS: u16 = 1024;

/// A number below 1,024, of which input i has bit i.
#[derive(Clone, Copy, Debug, PartialEq, Eq, PartialOrd, Ord)]
pub struct Assign {
    number: u16,
}

impl Model for Assign {
    ghost Value = { ℕ };

    ghost view = { λ assign. assign.number };

    ghost invariant = { λ assign. assign.number < 1024 };

    ghost inverse = { λ number. record { number = number } };
}

impl Assign {
    /// The assignment of a number: None exactly where the number is 1,024 or more.
    pub fn new(number: u16) -> Option<Assign>
        ensures { SomeIff result (number < 1024) number }
    {
        if number < ASSIGNMENTS {
            Some(Assign { number })
        } else {
            None
        }
    }

    /// The number of the assignment, which is below 1,024.
    pub fn number(self) -> u16
        ensures same { result ≡ self }
        ensures below { result < 1024 }
    {
        self.number
    }

    /// The value of an input below ten: bit `input` of the number.
    pub fn bit(self, input: u8) -> bool
        requires { input < 10 }
        ensures { result ≡ bit self input }
    {
        (self.number >> input) & 1 == 1
    }
}

//! Literals.
ghost use Rattle.std.specs.Prelude.{◌≡◌, ℕ, ◌+◌, ◌*◌, ◌/◌, ◌%◌, ◌<◌, ◌≤◌, ◌==◌, ◌^◌, cond, Bool, IsTrue, ◌↔◌};
ghost use Rattle.clause_core.specs.Literal.{Literal, flip, number, same, signed};

use std::marker::Model;

/// A variable or its complement, as one number: twice the variable, and one more for the complement.
/// Variables are counted from 1.
#[derive(Clone, Copy, Debug, PartialEq, Eq)]
pub struct Lit {
    code: u32,
}

impl Model for Lit {
    ghost use Rattle.std.specs.Prelude.{ℕ, ◌+◌, ◌*◌, ◌/◌, ◌%◌, ◌==◌, ◌≤◌};
    ghost use Rattle.clause_core.specs.Literal.{Literal, number, literal_of, number-literal_of};

    ghost Value = { Literal };

    ghost view = { λ lit. literal_of lit.code };

    ghost invariant = { λ lit. 2 ≤ lit.code };

    ghost inverse = { λ literal. record { code = number literal } };

    ghost inverse_ok = { λ lit h i. record { code = number-literal_of lit.code i } };
}

impl Lit {
    /// The variable, or its complement. The variable is from 1 to 2,147,483,647.
    pub fn new(var: u32, negated: bool) -> Lit
        requires counted { 1 ≤ var }
        requires within { var < 2 ^ 31 }
        ensures { result ≡ record { var = var; negated = negated } }
    {
        Lit {
            code: 2 * var + u32::from(negated),
        }
    }

    /// Its variable.
    pub fn var(self) -> u32
        ensures value { result ≡ self.var }
        ensures counted { 1 ≤ result }
        ensures within { result < 2 ^ 31 }
    {
        self.code / 2
    }

    /// Whether it is the complement of its variable.
    pub fn negated(self) -> bool
        ensures { result ≡ self.negated }
    {
        self.code % 2 == 1
    }

    /// The literal of the other sign.
    pub fn flip(self) -> Lit
        ensures { result ≡ flip self }
    {
        Lit {
            code: self.code ^ 1,
        }
    }

    /// Whether it is the same literal.
    pub fn is(self, other: Lit) -> bool
        ensures value { result ≡ same self other }
        ensures equal { IsTrue result ↔ (self ≡ other) }
    {
        self.code == other.code
    }

    /// Its number: even for a variable, odd for a complement.
    pub fn code(self) -> u32
        ensures { result ≡ number self }
    {
        self.code
    }

    /// Its signed number, as texts write it: the variable, or less than 0 for a complement.
    pub fn signed(self) -> i32
        ensures { result ≡ signed self }
    {
        let var = self.var() as i32;
        if self.negated() { -var } else { var }
    }
}

//! Truth values of variables.
ghost use Rattle.std.specs.Prelude.{◌≡◌, ℕ, ◌-◌, ◌^◌, ◌<◌, ◌≤◌, ◌↔◌, IsTrue, Bool, true, length, take};
ghost use Rattle.clause_core.specs.Literal.{is_true, clause_is_true};
ghost use Rattle.clause_core.specs.Formula.{value_in, IsOver, IsSatisfiedBy};

use crate::formula::Formula;
use crate::lit::Lit;
use std::marker::Model;

/// A truth value for each variable.
#[derive(Drop)]
pub struct Valuation {
    values: Vec<bool>,
}

impl Model for Valuation {
    ghost use Rattle.std.specs.Prelude.{Bool, List, length, ◌^◌, ◌<◌};

    ghost Value = { List Bool };

    ghost view = { λ valuation. valuation.values.items };

    ghost invariant = { λ valuation. length valuation.values.items < 2 ^ 31 };
}

impl Valuation {
    /// Gives each variable the value at its place: variable 1 the first one. There are at most 2,147,483,647.
    pub fn new(values: Vec<bool>) -> Valuation
        requires { length values.items < 2 ^ 31 }
        ensures { result ≡ values.items }
    {
        Valuation { values }
    }

    /// How many variables have a value.
    pub fn vars(&self) -> u32
        ensures value { result ≡ length self.now }
        ensures within { result < 2 ^ 31 }
    {
        self.values.len() as u32
    }

    /// The value of a variable, from 1 to `vars`.
    pub fn of(&self, var: u32) -> bool
        requires counted { 1 ≤ var }
        requires within { var ≤ length self.now }
        ensures { result ≡ value_in self.now var }
    {
        self.values[var as usize - 1]
    }

    /// Whether a literal is true.
    #[tactic(auto, unfolding(crate::specs::Literal::is_true))]
    fn makes(&self, lit: Lit) -> bool
        requires counted { 1 ≤ lit.var }
        requires within { lit.var ≤ length self.now }
        ensures { result ≡ is_true (value_in self.now) lit }
    {
        let value = self.of(lit.var());
        if lit.negated() { !value } else { value }
    }

    /// Whether some literal of a clause is true.
    fn makes_some(&self, clause: &[Lit]) -> bool
        requires { IsOver (length self.now) clause.now }
        ensures { result ≡ clause_is_true (value_in self.now) clause.now }
    {
        for lit in clause {
            if self.makes(*lit) {
                return true;
            }
        }
        false
    }
}

impl Formula {
    /// Whether each clause has a true literal. The valuation has a value for each variable.
    pub fn satisfied_by(&self, valuation: &Valuation) -> bool
        requires { self.now.vars ≤ length valuation.now }
        ensures { IsTrue result ↔ IsSatisfiedBy valuation.now self.now }
    {
        for index in 0..self.count() {
            if !valuation.makes_some(self.clause(index)) {
                return false;
            }
        }
        true
    }
}

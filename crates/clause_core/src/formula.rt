//! Formulas.
ghost use Rattle.std.specs.Prelude.{◌≡◌, ◌^◌, ◌<◌, ◌≤◌, ◌++◌, ◌∷◌, [], List, length, All, OnOk, OnErr, slice_get, Some};
ghost use Rattle.clause_core.specs.Formula.{IsOver, IsFormula, most_clauses};

use crate::clauses::Clauses;
use crate::lit::Lit;
use std::alloc::Global;
use std::marker::Model;
use wire_io::fault::NoMemory;

/// A number of variables and a list of clauses over them.
#[derive(Drop)]
pub struct Formula {
    vars: u32,
    clauses: Clauses,
}

impl Model for Formula {
    ghost use Rattle.std.specs.Prelude.{◌≤◌, ◌<◌, ◌^◌, All, length};
    ghost use Rattle.clause_core.specs.Formula as specs;

    ghost Value = { specs.Formula };

    ghost view = { λ formula. record { vars = formula.vars; clauses = formula.clauses } };

    ghost invariant = { λ formula. specs.IsFormula (record { vars = formula.vars; clauses = formula.clauses }) };
}

impl Formula {
    /// The formula with no clause. It has at most 2,147,483,647 variables.
    pub fn new(alloc: Global, vars: u32) -> Formula
        requires { vars < 2 ^ 31 }
        ensures { result ≡ record { vars = vars; clauses = [] } }
    {
        Formula {
            vars,
            clauses: Clauses::new(alloc),
        }
    }

    /// Adds a clause over the formula's variables to fewer than 1,073,741,824 clauses.
    pub fn push(&mut self, clause: &[Lit]) -> Result<(), NoMemory>
        requires over { IsOver self.old.vars clause.now }
        requires room { length self.old.clauses < most_clauses }
        ensures ok { OnOk result (self.new ≡ record { vars = self.old.vars; clauses = self.old.clauses ++ clause.now ∷ [] }) }
        ensures err { OnErr result (self.new ≡ self.old) }
    {
        self.clauses.push(clause)
    }

    /// How many variables there are.
    pub fn vars(&self) -> u32
        ensures value { result ≡ self.now.vars }
        ensures within { result < 2 ^ 31 }
    {
        self.vars
    }

    /// How many clauses there are.
    pub fn count(&self) -> u32
        ensures value { result ≡ length self.now.clauses }
        ensures within { result ≤ most_clauses }
        ensures formula { IsFormula self.now }
    {
        self.clauses.len() as u32
    }

    /// The clause at an index, from 0 on.
    pub fn clause(&self, index: u32) -> &[Lit]
        requires { index < length self.now.clauses }
        ensures value { slice_get self.now.clauses index ≡ Some result.now }
        ensures over { IsOver self.now.vars result.now }
    {
        self.clauses.clause(index as usize)
    }
}

//! The trail.
ghost use Rattle.std.specs.Prelude.{◌≡◌, ◌+◌, ◌<◌, ◌≤◌, ◌∷◌, [], length, IfOk, OnOk, OnErr, Bool, true};
ghost use Rattle.clause_core.specs.Literal.{Literal};
ghost use Rattle.clause_core.specs.Formula.{IsOver};
ghost use Rattle.lrat_replay.specs.Status.{status};

use crate::value::Value;
use clause_core::lit::Lit;
use lrat_replay::marks::Marks;
use lrat_replay::status::{Status, status_of};
use std::alloc::Global;
use std::marker::Model;
use wire_io::fault::NoMemory;

/// Values in the order in which they came; for each variable the place of its last value.
#[derive(Drop)]
pub struct Trail {
    vars: u32,
    values: Vec<Value>,
    marks: Marks,
    places: Vec<u32>,
}

impl Model for Trail {
    ghost use Rattle.clause_solver.specs.Trail.{Track};

    ghost Value = { Track };

    ghost use Rattle.clause_solver.specs.Kept.{track_of, AreMarked};

    ghost view = { track_of };

    ghost invariant = { AreMarked };
}

impl Trail {
    ghost use Rattle.clause_solver.specs.declared.value.Value.{Value};
    ghost use Rattle.clause_solver.specs.Trail.{Track, known_by, IsFresh, AreFresh, IsVariableOf, AreOver, StandsAt, oldest};

    /// No values, over variables from 1 to `vars`.
    pub fn new(alloc: Global, vars: u32) -> Result<Trail, NoMemory>
        requires { vars < 2147483648 }
        ensures { IfOk result (λ trail. trail ≡ record { vars = vars; values = [] }) }
    {
        let width = 2 * vars as usize + 2;
        Ok(Trail {
            vars,
            values: Vec::new(alloc),
            marks: Marks::new(alloc, width)?,
            places: vec![in alloc; 0; vars as usize + 1]?,
        })
    }

    /// How many variables there are.
    pub fn vars(&self) -> u32
        ensures value { result ≡ self.now.vars }
        ensures within { result < 2147483648 }
        ensures fresh { AreFresh self.now.values }
    {
        self.vars
    }

    /// Whether a literal is true.
    pub fn has(&self, lit: Lit) -> bool
        requires { IsVariableOf self.now.vars lit }
        ensures { result ≡ known_by self.now.values lit }
    {
        self.marks.has(lit)
    }

    /// What a clause comes to under the values.
    pub fn status(&self, clause: &[Lit]) -> Status
        requires { IsOver self.now.vars clause.now }
        ensures { result ≡ status (known_by self.now.values) clause.now }
    {
        status_of(&self.marks, clause)
    }

    /// Adds a value.
    pub fn push(&mut self, lit: Lit, reason: Option<u32>) -> Result<(), NoMemory>
        requires variable { IsVariableOf self.old.vars lit }
        requires fresh { IsFresh (known_by self.old.values) lit }
        ensures ok { OnOk result (self.new ≡ record { vars = self.old.vars; values = record { lit = lit; reason = reason } ∷ self.old.values }) }
        ensures err { OnErr result (self.new ≡ self.old) }
    {
        let place = self.values.len() as u32;
        self.values.push(Value { lit, reason })?;
        self.marks.add(lit);
        self.places[lit.var() as usize] = place;
        Ok(())
    }

    /// How many values there are.
    pub fn len(&self) -> usize
        ensures count { result ≡ length self.now.values }
        ensures fresh { AreFresh self.now.values }
        ensures over { AreOver self.now.vars self.now.values }
    {
        self.values.len()
    }

    /// The value at a place, counted from the oldest.
    pub fn value(&self, place: usize) -> Value
        requires { place < length self.now.values }
        ensures is { oldest (place + 1) self.now.values ≡ result ∷ oldest place self.now.values }
        ensures fresh { IsFresh (known_by (oldest place self.now.values)) result.lit }
        ensures variable { IsVariableOf self.now.vars result.lit }
    {
        self.values[place]
    }

    /// The place of a value, where it is one.
    pub fn place(&self, lit: Lit) -> usize
        requires { IsVariableOf self.now.vars lit }
        ensures { known_by self.now.values lit ≡ true → StandsAt self.now.values lit result }
    {
        self.places[lit.var() as usize] as usize
    }

    /// Takes the newest value back.
    pub fn pop(&mut self)
        requires { 0 < length self.old.values }
        ensures { (v : Value) × (self.old ≡ record { vars = self.new.vars; values = v ∷ self.new.values }) }
    {
        if let Some(value) = self.values.pop() {
            self.marks.remove(value.lit);
        }
    }

    /// Goes back to so many values.
    pub fn back(&mut self, place: usize)
        requires { place ≤ length self.old.values }
        ensures { self.new ≡ record { vars = self.old.vars; values = oldest place self.old.values } }
    {
        while self.len() > place {
            self.pop();
        }
    }
}

//! Written lines: additions with their hints, and deletions.
ghost use Rattle.std.specs.Prelude.{◌≡◌, ℤ, List};

use clause_core::lit::Lit;
use std::marker::Model;

/// The literals of a step.
#[derive(Drop)]
pub struct Clause {
    lits: Vec<Lit>,
}

impl Model for Clause {
    ghost use Rattle.std.specs.Prelude.{List};
    ghost use Rattle.clause_core.specs.Literal.{Literal};

    ghost Value = { List Literal };

    ghost view = { λ clause. clause.lits.items };
}

impl Clause {
    /// The clause of these literals.
    pub fn new(lits: Vec<Lit>) -> Clause
        ensures { result ≡ lits.items }
    {
        Clause { lits }
    }

    /// Its literals.
    pub fn as_slice(&self) -> &[Lit]
        ensures { result.now ≡ self.now }
    {
        &self.lits
    }
}

/// The hints of a step.
#[derive(Drop)]
pub struct Hints {
    ids: Vec<i32>,
}

impl Model for Hints {
    ghost use Rattle.std.specs.Prelude.{List, ℤ};

    ghost Value = { List ℤ };

    ghost view = { λ hints. hints.ids.items };
}

impl Hints {
    /// These hints.
    pub fn new(ids: Vec<i32>) -> Hints
        ensures { result ≡ ids.items }
    {
        Hints { ids }
    }

    /// The hints, in order.
    pub fn as_slice(&self) -> &[i32]
        ensures { result.now ≡ self.now }
    {
        &self.ids
    }
}

/// The identifiers of a deletion.
#[derive(Drop)]
pub struct Ids {
    ids: Vec<i32>,
}

impl Model for Ids {
    ghost use Rattle.std.specs.Prelude.{List, ℤ};

    ghost Value = { List ℤ };

    ghost view = { λ ids. ids.ids.items };
}

impl Ids {
    /// These identifiers.
    pub fn new(ids: Vec<i32>) -> Ids
        ensures { result ≡ ids.items }
    {
        Ids { ids }
    }

    /// The identifiers, in order.
    pub fn as_slice(&self) -> &[i32]
        ensures { result.now ≡ self.now }
    {
        &self.ids
    }
}

/// An addition: a clause, the identifier that it gets, and hints that show why it follows.
#[derive(Drop)]
pub struct Step {
    pub id: u32,
    pub clause: Clause,
    pub hints: Hints,
}

/// What a line does.
#[derive(Drop)]
pub enum LineKind {
    Add(Step),
    Delete(Ids),
}

/// A line with its number, from 1 on.
#[derive(Drop)]
pub struct Line {
    pub number: u32,
    pub what: LineKind,
}

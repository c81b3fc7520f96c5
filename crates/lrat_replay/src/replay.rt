//! Replay of steps, and what it shows of a formula.
ghost use Rattle.std.specs.Prelude.{◌≡◌, ℕ, ◌+◌, ◌*◌, ◌^◌, ◌<◌, ◌≤◌, Bool, true, false, OnOk, OnErr, IfOk, IfErr, None, Some, is_ok, IsOk, IsErr, IsTrue, ◌↔◌};
ghost use Rattle.clause_core.specs.Literal.{clause_is_true};
ghost use Rattle.clause_core.specs.Formula.{IsOver, Satisfies, HasNoSolution};
ghost use Rattle.lrat_replay.specs.Marks.{room};
ghost use Rattle.lrat_replay.specs.Book.{Book, start, last_id, addition_fault, after_addition, deletion_fault, after_deletion, some_empty};
ghost use Rattle.lrat_replay.specs.Laws.{IsRefuted, IsReached, AddsEmpty};
ghost use Rattle.lrat_replay.specs.New.{IsNew};
ghost use Rattle.lrat_replay.specs.Replay.{IsFault};

use crate::deny::{deny, is_above};
use crate::fault::StepFault;
use crate::hints::follow;
use crate::marks::Marks;
use crate::store::Store;
use crate::subset::mark_all;
use clause_core::formula::Formula;
use clause_core::lit::Lit;
use std::alloc::Global;
use std::marker::Model;
use wire_io::fault::NoMemory;

/// The largest identifier.
const MOST: u32 = 2_147_483_647;

/// Tests an addition: its identifier, its literals, and then what its hints come to.
fn test(
    store: &Store,
    marks: &mut Marks,
    id: u32,
    clause: &[Lit],
    hints: &[i32],
) -> Result<(), StepFault>
    requires { 2 * store.now.formula.vars + 2 ≤ room marks.old }
    ensures accepted { OnOk result (addition_fault store.now id clause.now hints.now ≡ None) }
    ensures refused { IfErr result (λ fault. addition_fault store.now id clause.now hints.now ≡ Some fault) }
    ensures above { OnOk result (last_id store.now < id) }
    ensures over { OnOk result (IsOver store.now.formula.vars clause.now) }
    ensures few { OnOk result (store.now.formula.vars < 2 ^ 31) }
    ensures room { room marks.new ≡ room marks.old }
{
    if id <= store.last_id() || id > MOST {
        return Err(StepFault::Order);
    }
    let vars = store.formula().vars();
    if is_above(clause, vars) {
        return Err(StepFault::Variable);
    }
    if deny(marks, vars, clause) {
        return Err(StepFault::Tautology);
    }
    follow(store, marks, hints)
}

/// A formula with the steps that were accepted after it.
#[derive(Drop)]
pub struct Replay {
    store: Store,
    marks: Marks,
    reached: bool,
}

impl Model for Replay {
    ghost use Rattle.lrat_replay.specs.Book.{Book};
    ghost use Rattle.lrat_replay.specs.Marks.{room};
    ghost use Rattle.lrat_replay.specs.Store.{coded_book};
    ghost use Rattle.lrat_replay.specs.Replay.{IsReplay};

    ghost Value = { Book };

    ghost coded = { coded_book };

    ghost view = { λ replay. replay.store };

    ghost invariant = { λ replay. IsReplay replay.store (room replay.marks) replay.reached };
}

/// A formula of which replay reached the empty clause.
#[derive(Drop)]
pub struct Refutation {
    formula: Formula,
}

impl Model for Refutation {
    ghost use Rattle.clause_core.specs.Formula as specs;
    ghost use Rattle.lrat_replay.specs.Laws.{IsRefuted};

    ghost Value = { specs.Formula };

    ghost view = { λ refutation. refutation.formula };

    ghost invariant = { λ refutation. IsRefuted refutation.formula };
}

impl Refutation {
    /// The formula. No valuation satisfies it.
    pub fn formula(&self) -> &Formula
        ensures value { result.now ≡ self.now }
        ensures refuted { IsRefuted self.now }
        ensures no_solution { HasNoSolution self.now }
    {
        &self.formula
    }
}

impl Replay {
    /// The formula without steps.
    pub fn new(alloc: Global, formula: Formula) -> Result<Replay, NoMemory>
        ensures { IfOk result (λ replay. replay ≡ start formula) }
    {
        let width = 2 * formula.vars() as usize + 2;
        let marks = Marks::new(alloc, width)?;
        let store = Store::new(alloc, formula)?;
        Ok(Replay {
            store,
            marks,
            reached: false,
        })
    }

    /// The formula.
    pub fn formula(&self) -> &Formula
        ensures { result.now ≡ self.now.formula }
    {
        self.store.formula()
    }

    /// The largest identifier so far, that of a deleted clause too.
    pub fn last_id(&self) -> u32
        ensures { result ≡ last_id self.now }
    {
        self.store.last_id()
    }

    /// Whether an empty clause was accepted. The replay stands where accepted lines led it.
    pub fn reached(&self) -> bool
        ensures exactly { IsTrue result ↔ AddsEmpty self.now }
        ensures value { result ≡ some_empty self.now.steps }
        ensures history { IsReached self.now }
    {
        self.reached
    }

    /// Adds a clause that follows, by unit propagation along the hints. After a refusal the replay is as it was.
    pub fn step(&mut self, id: u32, clause: &[Lit], hints: &[i32]) -> Result<(), StepFault>
        ensures accepted { OnOk result (addition_fault self.old id clause.now hints.now ≡ None) }
        ensures after { OnOk result (self.new ≡ after_addition self.old id clause.now) }
        ensures over { OnOk result (IsOver self.old.formula.vars clause.now × (self.old.formula.vars < 2 ^ 31)) }
        ensures implied { OnOk result ((v : ℕ → Bool) → Satisfies v self.old.formula → clause_is_true v clause.now ≡ true) }
        ensures refused { IfErr result (IsFault (addition_fault self.old id clause.now hints.now)) }
        ensures kept { OnErr result (self.new ≡ self.old) }
    {
        test(&self.store, &mut self.marks, id, clause, hints)?;
        if self.store.push(id, clause).is_err() {
            return Err(StepFault::NoMemory);
        }
        if clause.is_empty() {
            self.reached = true;
        }
        Ok(())
    }

    /// Whether a clause over the formula's variables is new: it is not empty, and no clause of the formula or of a step
    /// so far, deleted ones too, is a subset of it. The replay stays as it was.
    pub fn is_new(&mut self, clause: &[Lit]) -> bool
        requires { IsOver self.old.formula.vars clause.now }
        ensures is_new { IsTrue result ↔ IsNew self.old clause.now }
        ensures kept { self.new ≡ self.old }
    {
        mark_all(&mut self.marks, clause);
        !clause.is_empty() && !self.store.has_within(&self.marks, clause)
    }

    /// Deletes clauses by their identifiers, one after the other. After a refusal the replay is as it was.
    pub fn delete(&mut self, ids: &[i32]) -> Result<(), StepFault>
        ensures accepted { OnOk result (deletion_fault self.old ids.now ≡ None) }
        ensures after { OnOk result (self.new ≡ after_deletion self.old ids.now) }
        ensures refused { IfErr result (λ fault. deletion_fault self.old ids.now ≡ Some fault) }
        ensures kept { OnErr result (self.new ≡ self.old) }
    {
        self.store.delete(ids)
    }

    /// The formula as a refuted one, where an empty clause was accepted; else the replay as it was.
    pub fn refutation(self) -> Result<Refutation, Replay>
        ensures ok_exactly { IsOk result ↔ AddsEmpty self }
        ensures err_exactly { IsErr result ↔ ¬ AddsEmpty self }
        ensures reached { is_ok result ≡ some_empty self.steps }
        ensures ok { IfOk result (λ refutation. refutation ≡ self.formula) }
        ensures err { IfErr result (λ replay. replay ≡ self) }
    {
        if !self.reached {
            return Err(self);
        }
        Ok(Refutation {
            formula: self.store.into_formula(),
        })
    }
}

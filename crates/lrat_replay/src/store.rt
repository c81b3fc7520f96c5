//! The formula and the steps, with what was deleted.
ghost use Rattle.std.specs.Prelude.{◌≡◌, ℕ, ◌+◌, ◌<◌, ◌≤◌, ◌^◌, [], length, OnOk, OnErr, IfOk, IfSome, MatchOption, None, Some, slice_get, slice_index, ◌-◌, replicate, true, false, ◌∷◌, IfErr, ℤ, IsTrue, ◌↔◌, ◌*◌};
ghost use Rattle.std.specs.FinSet as set;
ghost use Rattle.clause_core.specs.Literal.{has};
ghost use Rattle.clause_core.specs.Formula.{IsOver};
ghost use Rattle.lrat_replay.specs.Book.{Book, all_of, start, last_id, live, is_live, without, after_addition, deletion_fault, after_deletion};
ghost use Rattle.lrat_replay.specs.Store.{counted, clauses_of};
ghost use Rattle.lrat_replay.specs.Marks.{known_of, room};
ghost use Rattle.lrat_replay.specs.Subset.{SomeAreKnown};

use crate::fault::StepFault;
use crate::lists::Lists;
use crate::marks::Marks;
use crate::place::{clause_at, place_of};
use crate::subset::some_within;
use clause_core::clauses::Clauses;
use clause_core::formula::Formula;
use clause_core::lit::Lit;
use std::alloc::Global;
use std::marker::Model;
use wire_io::fault::NoMemory;

/// The numbers from 1 on, so many.
fn count_up(alloc: Global, count: u32) -> Result<Vec<u32>, NoMemory>
    ensures { IfOk result (λ ids. ids.items ≡ counted 1 count) }
{
    let mut ids = Vec::with_capacity(alloc, count as usize)?;
    for before in 0..count {
        ids.push(before + 1)?;
    }
    Ok(ids)
}

/// So many flags that are not set.
fn no_flags(alloc: Global, count: usize) -> Result<Vec<bool>, NoMemory>
    ensures { IfOk result (λ flags. flags.items ≡ replicate count false) }
{
    Ok(vec![in alloc; false; count]?)
}

/// The last number, or 0.
fn last_of(ids: &[u32]) -> u32
    ensures { result ≡ slice_index ids.now (length ids.now - 1) }
{
    match ids {
        [] => 0,
        [.., last] => *last,
    }
}

/// A formula with steps, each clause by its identifier.
#[derive(Drop)]
pub struct Store {
    formula: Formula,
    steps: Clauses,
    ids: Vec<u32>,
    deleted: Vec<bool>,
    lists: Lists,
}

impl Model for Store {
    ghost use Rattle.lrat_replay.specs.Book.{Book};
    ghost use Rattle.lrat_replay.specs.Store.{coded_book, book_of};
    ghost use Rattle.lrat_replay.specs.Lists.{IsListedStore};

    ghost Value = { Book };

    ghost coded = { coded_book };

    ghost view = { λ store. book_of store.formula store.steps store.ids.items store.deleted.items };

    ghost invariant = { λ store. IsListedStore store.formula store.steps store.ids.items store.deleted.items store.lists.first.items store.lists.next.items };
}

impl Store {
    /// The formula without steps.
    pub fn new(alloc: Global, formula: Formula) -> Result<Store, NoMemory>
        ensures { IfOk result (λ store. store ≡ start formula) }
    {
        let count = formula.count();
        let ids = count_up(alloc, count)?;
        let deleted = no_flags(alloc, count as usize)?;
        let lists = Lists::of(alloc, &formula)?;
        Ok(Store {
            formula,
            steps: Clauses::new(alloc),
            ids,
            deleted,
            lists,
        })
    }

    /// The formula.
    pub fn formula(&self) -> &Formula
        ensures { result.now ≡ self.now.formula }
    {
        &self.formula
    }

    /// Gives the formula back.
    pub fn into_formula(self) -> Formula
        ensures { result ≡ self.formula }
    {
        self.formula
    }

    /// The largest identifier so far.
    pub fn last_id(&self) -> u32
        ensures { result ≡ last_id self.now }
    {
        last_of(&self.ids)
    }

    /// The live clause of an identifier.
    pub fn find(&self, id: u32) -> Option<&[Lit]>
        ensures found { MatchOption result (live self.now id ≡ None) (λ clause. live self.now id ≡ Some clause.now) }
        ensures over { IfSome result (λ clause. IsOver self.now.formula.vars clause.now) }
    {
        let place = place_of(&self.ids, id)?;
        if self.deleted[place] {
            return None;
        }
        Some(clause_at(&self.formula, &self.steps, place))
    }

    /// Whether some clause, a deleted one too, has only literals of this one, which are the marked ones.
    pub fn has_within(&self, marks: &Marks, clause: &[Lit]) -> bool
        requires room { 2 * self.now.formula.vars + 2 ≤ room marks.now }
        requires marked { known_of marks.now ≡ has clause.now }
        requires over { IsOver self.now.formula.vars clause.now }
        ensures { IsTrue result ↔ SomeAreKnown (known_of marks.now) (clauses_of (all_of self.now)) }
    {
        some_within(marks, &self.lists, &self.formula, &self.steps, clause)
    }

    /// Adds a clause under an identifier above the largest one so far.
    pub fn push(&mut self, id: u32, clause: &[Lit]) -> Result<(), NoMemory>
        requires above { last_id self.old < id }
        requires over { IsOver self.old.formula.vars clause.now }
        ensures ok { OnOk result (self.new ≡ after_addition self.old id clause.now) }
        ensures err { OnErr result (self.new ≡ self.old) }
    {
        self.ids.reserve(1)?;
        self.deleted.reserve(1)?;
        self.lists.reserve()?;
        self.steps.push(clause)?;
        self.ids.push(id).unwrap();
        self.deleted.push(false).unwrap();
        self.lists.push(clause).unwrap();
        Ok(())
    }

    /// Deletes the clause of an identifier, and says whether it was live.
    fn mark(&mut self, id: u32) -> bool
        ensures lives { result ≡ is_live self.old id }
        ensures marked { result ≡ true → self.new ≡ without self.old id }
        ensures kept { result ≡ false → self.new ≡ self.old }
    {
        let Some(place) = place_of(&self.ids, id) else {
            return false;
        };
        if self.deleted[place] {
            return false;
        }
        self.deleted[place] = true;
        true
    }

    /// Takes the deletion of one clause back.
    fn unmark(&mut self, id: u32)
        ensures { (before : Book) → is_live before id ≡ true → without before id ≡ self.old → self.new ≡ before }
    {
        if let Some(place) = place_of(&self.ids, id) {
            self.deleted[place] = false;
        }
    }

    /// Deletes the clause of a written identifier.
    fn delete_one(&mut self, id: i32) -> Result<(), StepFault>
        ensures accepted { OnOk result (deletion_fault self.old (id ∷ []) ≡ None) }
        ensures after { OnOk result (self.new ≡ after_deletion self.old (id ∷ [])) }
        ensures refused { OnErr result (deletion_fault self.old (id ∷ []) ≡ Some StepFault.Unknown) }
        ensures fault { IfErr result (λ fault. fault ≡ StepFault.Unknown) }
        ensures kept { OnErr result (self.new ≡ self.old) }
    {
        if id >= 0 && self.mark(id as u32) {
            Ok(())
        } else {
            Err(StepFault::Unknown)
        }
    }

    /// Takes back the deletion of a written identifier.
    fn restore_one(&mut self, id: i32)
        ensures { (before : Book) → deletion_fault before (id ∷ []) ≡ None → after_deletion before (id ∷ []) ≡ self.old → self.new ≡ before }
    {
        if id >= 0 {
            self.unmark(id as u32);
        }
    }

    /// Takes a deletion back.
    fn restore(&mut self, ids: &[i32])
        ensures { (before : Book) → deletion_fault before ids.now ≡ None → after_deletion before ids.now ≡ self.old → self.new ≡ before }
    {
        let mut left = ids.len();
        while left > 0 {
            left -= 1;
            self.restore_one(ids[left]);
        }
    }

    /// Deletes clauses by their identifiers, one after the other, or none of them.
    pub fn delete(&mut self, ids: &[i32]) -> Result<(), StepFault>
        ensures ok { OnOk result (deletion_fault self.old ids.now ≡ None) }
        ensures after { OnOk result (self.new ≡ after_deletion self.old ids.now) }
        ensures refused { IfErr result (λ fault. deletion_fault self.old ids.now ≡ Some fault) }
        ensures kept { OnErr result (self.new ≡ self.old) }
    {
        for (done, id) in ids.iter().enumerate() {
            if let Err(fault) = self.delete_one(*id) {
                self.restore(&ids[..done]);
                return Err(fault);
            }
        }
        Ok(())
    }
}

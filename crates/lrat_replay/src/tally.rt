//! A ledger that counts its steps.
ghost use Rattle.std.specs.Prelude.{◌≡◌, ℕ, ◌+◌, ◌≤◌, ◌⊎◌, Bool, true, false, List, [], All, OnOk, OnErr, IfErr, None, length};
ghost use Rattle.std.specs.FinSet as set;
ghost use Rattle.wire_io.specs.Causes.{Rose};
ghost use Rattle.lrat_replay.specs.Book as books;
ghost use Rattle.lrat_replay.specs.Ledger.{IsAbove0, IsKeptOrAdded};

use crate::ledger::{LearnFault, Ledger};
use clause_core::formula::Formula;
use clause_core::lit::Lit;

/// A ledger with the number of its steps; all else is as the ledger within has it.
#[derive(Drop)]
pub struct Tally<L: Ledger> {
    inner: L,
    count: u64,
    ghost exact: { count ≡ length (L.book inner).steps },
    ghost few: { count ≤ books.last_id (L.book inner) },
}

impl<L: Ledger> Tally<L> {
    /// Counts the steps of a ledger that has none.
    pub fn new(inner: L) -> Tally<L>
        requires { (L.book inner).steps ≡ [] }
        ensures { result.inner ≡ inner }
    {
        Tally { inner, count: 0 }
    }

    /// The number of steps.
    pub fn count(&self) -> u64
        ensures { result ≡ length (L.book self.now.inner).steps }
    {
        self.count
    }

    /// The ledger within.
    pub fn into_inner(self) -> L
        ensures { result ≡ self.inner }
    {
        let Tally { inner, count: _ } = self;
        inner
    }
}

impl<L: Ledger> Ledger for Tally<L> {
    ghost book = { λ tally. L.book tally.inner };

    ghost broken = { λ tally. L.broken tally.inner };

    ghost origin = { λ tally. L.origin tally.inner };

    ghost faults = { λ tally. L.faults tally.inner };

    fn formula(&self) -> &Formula {
        self.inner.formula()
    }

    fn last_id(&self) -> u32 {
        self.inner.last_id()
    }

    fn learn(&mut self, id: u32, clause: &[Lit], hints: &[i32]) -> Result<(), LearnFault> {
        let result = self.inner.learn(id, clause, hints);
        if self.inner.last_id() == id {
            self.count += 1;
        }
        result
    }
}

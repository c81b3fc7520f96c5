//! Keepers of steps.
ghost use Rattle.std.specs.Prelude.{◌≡◌, ℕ, ◌+◌, ◌≤◌, ◌⊎◌, Bool, true, false, List, [], All, OnOk, OnErr, IfErr, None, length};
ghost use Rattle.std.specs.FinSet as set;
ghost use Rattle.wire_io.specs.Causes.{Rose};
ghost use Rattle.lrat_replay.specs.Book as books;
ghost use Rattle.lrat_replay.specs.Ledger.{IsAbove0, IsKeptOrAdded};

use crate::replay::Replay;
use clause_core::formula::Formula;
use clause_core::lit::Lit;
use wire_io::fault::NoMemory;

/// Why a ledger does not take a step.
#[derive(Clone, Copy, Debug, PartialEq, Eq)]
pub enum LearnFault {
    /// The ledger failed, and is broken. It has the old steps, or these and the new one.
    Failed,
    /// There was no memory. The ledger has the old steps.
    NoMemory,
}

impl From<NoMemory> for LearnFault {
    ghost use Rattle.lrat_replay.specs.declared.ledger.LearnFault.TheVariants.{NoMemory};

    ghost from_gives = { λ _ fault. fault ≡ NoMemory };

    fn from(_: NoMemory) -> Self {
        LearnFault::NoMemory
    }
}

/// A formula, and the steps that replay accepted after it. Nothing deletes a clause or changes the formula.
pub trait Ledger {
    /// The formula, the steps, and what was deleted.
    ghost book: { Self → books.Book };

    /// Whether it failed: it takes no more steps then.
    ghost broken: { Self → Bool };

    /// Bytes that say where its formula came from, or none.
    ghost origin: { Self → List ℕ };

    /// How often a call failed, up to the greatest `u64`.
    ghost faults: { Self → ℕ };

    /// The formula.
    fn formula(&self) -> &Formula
        ensures { result.now ≡ (book self.now).formula };

    /// The identifier of the last step, or the number of clauses of the formula.
    fn last_id(&self) -> u32
        ensures { result ≡ books.last_id (book self.now) };

    /// Takes a step that replay accepts with these hints, each above 0, after the steps so far. The ledger is not broken,
    /// and nothing was deleted in it.
    fn learn(&mut self, id: u32, clause: &[Lit], hints: &[i32]) -> Result<(), LearnFault>
        requires whole { broken self.old ≡ false }
        requires all { (book self.old).deleted ≡ set.empty }
        requires hints { All IsAbove0 hints.now }
        requires accepted { books.addition_fault (book self.old) id clause.now hints.now ≡ None }
        ensures ok { OnOk result (book self.new ≡ books.after_addition (book self.old) id clause.now) }
        ensures stays { OnOk result (broken self.new ≡ false) }
        ensures breaks { IfErr result (λ fault. fault ≡ LearnFault.Failed → broken self.new ≡ true) }
        ensures either { IsKeptOrAdded (book self.old) (book self.new) id clause.now }
        ensures kept { IfErr result (λ fault. fault ≡ LearnFault.NoMemory → book self.new ≡ book self.old) }
        ensures whole_still { IfErr result (λ fault. fault ≡ LearnFault.NoMemory → broken self.new ≡ false) }
        ensures origin { (origin self.new ≡ origin self.old) ⊎ (origin self.new ≡ []) }
        ensures later { faults self.old ≤ faults self.new }
        ensures cause { IfErr result (λ fault. fault ≡ LearnFault.Failed → Rose (faults self.old) (faults self.new)) };
}

impl Ledger for Replay {
    ghost book = { λ replay. replay };

    ghost broken = { λ replay. false };

    ghost origin = { λ replay. [] };

    ghost faults = { λ replay. 0 };

    fn formula(&self) -> &Formula {
        self.formula()
    }

    fn last_id(&self) -> u32 {
        self.last_id()
    }

    fn learn(&mut self, id: u32, clause: &[Lit], hints: &[i32]) -> Result<(), LearnFault> {
        match self.step(id, clause, hints) {
            Ok(()) => Ok(()),
            Err(_) => Err(LearnFault::NoMemory),
        }
    }
}

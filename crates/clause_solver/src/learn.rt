//! A step is given to the ledger, and its clause kept.
ghost use Rattle.std.specs.Prelude.{◌≡◌, ◌⊎◌, ℕ, ◌+◌, ◌<◌, ◌≤◌, ◌++◌, ◌∷◌, OnOk, IsErrOf, true, false, All, List, [], length, map, pos, Err};
ghost use Rattle.wire_io.specs.Causes.{Rose};
ghost use Rattle.clause_core.specs.Formula.{IsOver};
ghost use Rattle.lrat_replay.specs.Book.{run, denied, Accepted, some_flip, after_addition};
ghost use Rattle.lrat_replay.specs.Ledger.{IsKeptOrAdded};
ghost use Rattle.clause_solver.specs.Plain.{at_of};
ghost use Rattle.clause_solver.specs.Copy.{IsCopy};

use clause_core::clauses::Clauses;
use clause_core::lit::Lit;
use lrat_replay::ledger::{LearnFault, Ledger};
use wire_io::fault::NoMemory;

/// Writes identifiers as hints, in place of others.
fn sign(ids: &[u32], hints: &mut Vec<i32>) -> Result<(), NoMemory>
    requires { All (λ id. (0 < id) × (id < 2147483648)) ids.now }
    ensures { OnOk result (hints.new.items ≡ map pos ids.now) }
{
    hints.clear();
    for id in ids {
        hints.push(*id as i32)?;
    }
    Ok(())
}

/// Gives the ledger the next step, which replay accepts with these hints, and keeps its clause; the hints are written anew.
pub fn learn<L: Ledger>(
    ledger: &mut L,
    clauses: &mut Clauses,
    clause: &[Lit],
    ids: &[u32],
    hints: &mut Vec<i32>,
) -> Result<(), LearnFault>
    requires copy { IsCopy (L.book ledger.old) clauses.old }
    requires whole { L.broken ledger.old ≡ false }
    requires accepted { run (at_of clauses.old) (denied clause.now) (map pos ids.now) ≡ Accepted }
    requires numbers { All (λ id. (0 < id) × (id ≤ length clauses.old)) ids.now }
    requires over { IsOver (L.book ledger.old).formula.vars clause.now }
    requires no_tautology { some_flip clause.now clause.now ≡ false }
    requires few { length clauses.old < 2147483647 }
    ensures copy { OnOk result (IsCopy (L.book ledger.new) clauses.new) }
    ensures clauses { OnOk result (clauses.new ≡ clauses.old ++ clause.now ∷ []) }
    ensures learned { OnOk result (L.book ledger.new ≡ after_addition (L.book ledger.old) (length clauses.old + 1) clause.now) }
    ensures whole { OnOk result (L.broken ledger.new ≡ false) }
    ensures either { IsKeptOrAdded (L.book ledger.old) (L.book ledger.new) (length clauses.old + 1) clause.now }
    ensures cause { result ≡ Err LearnFault.Failed → Rose (L.faults ledger.old) (L.faults ledger.new) }
    ensures later { L.faults ledger.old ≤ L.faults ledger.new }
    ensures origin { (L.origin ledger.new ≡ L.origin ledger.old) ⊎ (L.origin ledger.new ≡ []) }
{
    sign(ids, hints)?;
    let id = clauses.len() as u32 + 1;
    ledger.learn(id, clause, hints)?;
    clauses.push(clause)?;
    Ok(())
}

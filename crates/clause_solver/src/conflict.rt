//! What a conflict comes to: a learned clause and a backjump, or the empty clause.
ghost use Rattle.std.specs.Prelude.{◌≡◌, ◌⊎◌, ℕ, ◌+◌, ◌<◌, ◌≤◌, OnOk, true, false, [], length, Err};
ghost use Rattle.wire_io.specs.Causes.{Rose};
ghost use Rattle.lrat_replay.specs.Marks.{room};
ghost use Rattle.lrat_replay.specs.Book.{after_addition};
ghost use Rattle.clause_solver.specs.Trail.{known_by, oldest, before_last, has_decision, IsDecidedAt};
ghost use Rattle.clause_solver.specs.Plain.{HaveReasons, IsConflictAt};
ghost use Rattle.clause_solver.specs.Search.{IsReady, LearnsNew, LearnsUpTo};
ghost use Rattle.clause_solver.specs.Watching.{IsWorking, IsLearning, HasAdvanced};

use crate::analyse::{Analysis, analyse};
use crate::decide::release;
use crate::learn::learn;
use crate::level::next_decision;
use crate::order::Order;
use crate::refute::refute;
use crate::watch::is_short;
use crate::work::Work;
use clause_core::lit::Lit;
use lrat_replay::ledger::{LearnFault, Ledger};
use std::alloc::Global;
use wire_io::fault::NoMemory;

/// Settles the last clause, which was learned, and makes its first literal true.
fn settle_learned(work: &mut Work, clause: &[Lit]) -> Result<(), NoMemory>
    requires learning { IsLearning work.old clause.now }
    requires few { length work.old.clauses ≤ 2147483647 }
    ensures working { OnOk result (IsWorking work.new) }
    ensures advanced { OnOk result (HasAdvanced work.old work.new) }
{
    let one = clause[0];
    work.trail.push(one, Some(work.clauses.len() as u32))?;
    if clause.len() == 1 {
        work.watches.pass_over()?;
        return Ok(());
    }
    let is_whole = is_short(clause);
    work.watches.watch(one, clause[1], is_whole)?;
    Ok(())
}

/// Learns the clause of a conflict at a level that begins at `start`, and goes back to where it forces a literal.
pub fn learn_conflict<L: Ledger>(
    ledger: &mut L,
    order: &mut Order,
    work: &mut Work,
    analysis: &mut Analysis,
    conflict: usize,
    start: usize,
) -> Result<(), LearnFault>
    requires ready { IsReady (L.book ledger.old) (L.broken ledger.old) work.old.clauses work.old.trail (room work.old.seen) }
    requires working { IsWorking work.old }
    requires conflict { IsConflictAt work.old.clauses (known_by work.old.trail.values) conflict }
    requires start { IsDecidedAt work.old.trail.values start }
    requires newest { before_last work.old.trail.values ≡ oldest start work.old.trail.values }
    requires decided { has_decision work.old.trail.values ≡ true }
    requires few { length work.old.clauses < 2147483647 }
    ensures ready { OnOk result (IsReady (L.book ledger.new) (L.broken ledger.new) work.new.clauses work.new.trail (room work.new.seen)) }
    ensures working { OnOk result (IsWorking work.new) }
    ensures learned { OnOk result (LearnsNew (L.book ledger.old) (L.book ledger.new) 1) }
    ensures vars { OnOk result (work.new.trail.vars ≡ work.old.trail.vars) }
    ensures grown { OnOk result (length work.new.clauses ≡ length work.old.clauses + 1) }
    ensures at_most { LearnsUpTo (L.book ledger.old) (L.book ledger.new) 1 }
    ensures cause { result ≡ Err LearnFault.Failed → Rose (L.faults ledger.old) (L.faults ledger.new) }
    ensures later { L.faults ledger.old ≤ L.faults ledger.new }
    ensures origin { (L.origin ledger.new ≡ L.origin ledger.old) ⊎ (L.origin ledger.new ≡ []) }
{
    analyse(order, &work.trail, &work.clauses, analysis, conflict, start)?;
    let keep = next_decision(&work.trail, analysis.after, start);
    release(order, &work.trail, keep)?;
    work.trail.back(keep);
    work.looked = keep;
    learn(
        ledger,
        &mut work.clauses,
        &analysis.clause,
        &analysis.hints,
        &mut analysis.signed,
    )?;
    settle_learned(work, &analysis.clause)?;
    Ok(())
}

/// Goes back to the values that no decision came before.
pub fn restart(order: &mut Order, work: &mut Work) -> Result<(), NoMemory>
    requires working { IsWorking work.old }
    ensures working { OnOk result (IsWorking work.new) }
    ensures clauses { OnOk result (work.new.clauses ≡ work.old.clauses) }
    ensures vars { OnOk result (work.new.trail.vars ≡ work.old.trail.vars) }
    ensures seen { OnOk result (work.new.seen ≡ work.old.seen) }
{
    let count = work.trail.len();
    let first = next_decision(&work.trail, 0, count);
    if first < count {
        release(order, &work.trail, first)?;
        work.trail.back(first);
        work.looked = first;
    }
    Ok(())
}

/// Learns the empty clause from a conflict at level zero.
pub fn refute_conflict<L: Ledger>(
    alloc: Global,
    ledger: &mut L,
    work: &mut Work,
    conflict: usize,
) -> Result<(), LearnFault>
    requires ready { IsReady (L.book ledger.old) (L.broken ledger.old) work.old.clauses work.old.trail (room work.old.seen) }
    requires reasons { HaveReasons work.old.clauses work.old.trail.values }
    requires conflict { IsConflictAt work.old.clauses (known_by work.old.trail.values) conflict }
    requires decided { has_decision work.old.trail.values ≡ false }
    requires few { length work.old.clauses < 2147483647 }
    ensures whole { OnOk result (L.broken ledger.new ≡ false) }
    ensures learned { OnOk result (L.book ledger.new ≡ after_addition (L.book ledger.old) (length work.old.clauses + 1) []) }
    ensures at_most { LearnsUpTo (L.book ledger.old) (L.book ledger.new) 0 }
    ensures cause { result ≡ Err LearnFault.Failed → Rose (L.faults ledger.old) (L.faults ledger.new) }
    ensures later { L.faults ledger.old ≤ L.faults ledger.new }
    ensures origin { (L.origin ledger.new ≡ L.origin ledger.old) ⊎ (L.origin ledger.new ≡ []) }
{
    let ids = refute(alloc, &work.trail, &work.clauses, &mut work.seen, conflict)?;
    let mut hints = Vec::new(alloc);
    learn(ledger, &mut work.clauses, &[], &ids, &mut hints)
}

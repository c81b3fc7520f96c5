//! Search: rounds of propagation, each ended by a decision or by a conflict.
ghost use Rattle.std.specs.Prelude.{◌≡◌, ◌⊎◌, ℕ, ◌+◌, ◌<◌, ◌≤◌, IfOk, [], length, Ok, Err};
ghost use Rattle.wire_io.specs.Causes.{Rose};
ghost use Rattle.lrat_replay.specs.Marks.{room};
ghost use Rattle.clause_solver.specs.Trail.{known_by, AreValued, IsDecided};
ghost use Rattle.clause_solver.specs.Plain.{IsConflictAt};
ghost use Rattle.clause_solver.specs.Search.{IsReady, Goes, RoundSo, SearchSo, LearnsUpTo};
ghost use Rattle.clause_solver.specs.Watching.{IsWorking};

use crate::analyse::Analysis;
use crate::conflict::{learn_conflict, refute_conflict, restart};
use crate::decide::{release, unassigned};
use crate::level::last_decision;
use crate::order::Order;
use crate::propagate::propagate;
use crate::trail::Trail;
use crate::watch::Watches;
use crate::work::Work;
use lrat_replay::ledger::{LearnFault, Ledger};
use std::alloc::Global;
use wire_io::fault::NoMemory;

/// What one round came to.
#[derive(Clone, Copy, Debug, PartialEq, Eq)]
pub enum Round {
    /// A clause was learned.
    Learned,
    /// A variable was decided.
    Decided,
    /// Each variable has a value.
    Satisfied,
    /// The empty clause was learned.
    Refuted,
    /// A clause could be learned, but for the budget.
    Spent,
}

/// What a search came to.
#[derive(Clone, Copy, Debug, PartialEq, Eq)]
pub enum Ending {
    /// Each variable has a value, and no clause is false.
    Satisfied,
    /// The empty clause was learned.
    Refuted,
    /// As many clauses were learned as the budget allows.
    Spent,
}

/// Decides a variable without value, if there is one.
fn decide(order: &mut Order, trail: &mut Trail) -> Result<Round, NoMemory>
    ensures decided { result ≡ Ok Round.Decided → IsDecided trail.old trail.new }
    ensures satisfied { result ≡ Ok Round.Satisfied → (trail.new ≡ trail.old) × AreValued trail.old.vars (known_by trail.old.values) }
    ensures other { IfOk result (λ round. (round ≡ Round.Decided) ⊎ (round ≡ Round.Satisfied)) }
{
    order.decide(trail.len());
    let Some(lit) = unassigned(order, trail) else {
        return Ok(Round::Satisfied);
    };
    trail.push(lit, None)?;
    Ok(Round::Decided)
}

/// Ends a round at a conflict.
fn end_at_conflict<L: Ledger>(
    alloc: Global,
    ledger: &mut L,
    order: &mut Order,
    work: &mut Work,
    analysis: &mut Analysis,
    conflict: usize,
    left: u32,
) -> Result<Round, LearnFault>
    requires working { IsWorking work.old }
    requires goes { Goes (record { book = L.book ledger.old; broken = L.broken ledger.old; clauses = work.old.clauses; track = work.old.trail; width = room work.old.seen }) }
    requires conflict { IsConflictAt work.old.clauses (known_by work.old.trail.values) conflict }
    requires few { length work.old.clauses < 2147483647 }
    ensures working { (result ≡ Ok Round.Learned) ⊎ (result ≡ Ok Round.Decided) → IsWorking work.new }
    ensures so { IfOk result (λ round. RoundSo round (record { book = L.book ledger.old; broken = L.broken ledger.old; clauses = work.old.clauses; track = work.old.trail; width = room work.old.seen }) (record { book = L.book ledger.new; broken = L.broken ledger.new; clauses = work.new.clauses; track = work.new.trail; width = room work.new.seen }) left) }
    ensures at_most { LearnsUpTo (L.book ledger.old) (L.book ledger.new) left }
    ensures cause { result ≡ Err LearnFault.Failed → Rose (L.faults ledger.old) (L.faults ledger.new) }
    ensures later { L.faults ledger.old ≤ L.faults ledger.new }
    ensures origin { (L.origin ledger.new ≡ L.origin ledger.old) ⊎ (L.origin ledger.new ≡ []) }
{
    let Some(start) = last_decision(&work.trail) else {
        refute_conflict(alloc, ledger, work, conflict)?;
        return Ok(Round::Refuted);
    };
    if left == 0 {
        return Ok(Round::Spent);
    }
    learn_conflict(ledger, order, work, analysis, conflict, start)?;
    if order.count() {
        restart(order, work)?;
    }
    Ok(Round::Learned)
}

/// One round: propagation, and what comes after it. So many clauses may still be learned.
fn next_round<L: Ledger>(
    alloc: Global,
    ledger: &mut L,
    order: &mut Order,
    work: &mut Work,
    analysis: &mut Analysis,
    left: u32,
) -> Result<Round, LearnFault>
    requires working { IsWorking work.old }
    requires goes { Goes (record { book = L.book ledger.old; broken = L.broken ledger.old; clauses = work.old.clauses; track = work.old.trail; width = room work.old.seen }) }
    requires few { length work.old.clauses < 2147483647 }
    ensures working { (result ≡ Ok Round.Learned) ⊎ (result ≡ Ok Round.Decided) → IsWorking work.new }
    ensures so { IfOk result (λ round. RoundSo round (record { book = L.book ledger.old; broken = L.broken ledger.old; clauses = work.old.clauses; track = work.old.trail; width = room work.old.seen }) (record { book = L.book ledger.new; broken = L.broken ledger.new; clauses = work.new.clauses; track = work.new.trail; width = room work.new.seen }) left) }
    ensures at_most { LearnsUpTo (L.book ledger.old) (L.book ledger.new) left }
    ensures cause { result ≡ Err LearnFault.Failed → Rose (L.faults ledger.old) (L.faults ledger.new) }
    ensures later { L.faults ledger.old ≤ L.faults ledger.new }
    ensures origin { (L.origin ledger.new ≡ L.origin ledger.old) ⊎ (L.origin ledger.new ≡ []) }
{
    match propagate(work)? {
        None => Ok(decide(order, &mut work.trail)?),
        Some(conflict) => end_at_conflict(alloc, ledger, order, work, analysis, conflict, left),
    }
}

/// Searches from the start, learning at most so many clauses that are not empty.
pub fn search<L: Ledger>(
    alloc: Global,
    ledger: &mut L,
    order: &mut Order,
    work: &mut Work,
    budget: u32,
) -> Result<Ending, LearnFault>
    requires ready { IsReady (L.book ledger.old) (L.broken ledger.old) work.old.clauses work.old.trail (room work.old.seen) }
    requires within { length work.old.clauses + budget < 2147483647 }
    ensures so { IfOk result (λ ending. SearchSo ending (record { book = L.book ledger.old; broken = L.broken ledger.old; clauses = work.old.clauses; track = work.old.trail; width = room work.old.seen }) (record { book = L.book ledger.new; broken = L.broken ledger.new; clauses = work.new.clauses; track = work.new.trail; width = room work.new.seen }) budget) }
    ensures at_most { LearnsUpTo (L.book ledger.old) (L.book ledger.new) budget }
    ensures cause { result ≡ Err LearnFault.Failed → Rose (L.faults ledger.old) (L.faults ledger.new) }
    ensures later { L.faults ledger.old ≤ L.faults ledger.new }
    ensures origin { (L.origin ledger.new ≡ L.origin ledger.old) ⊎ (L.origin ledger.new ≡ []) }
{
    let width = 2 * work.trail.vars() as usize + 2;
    release(order, &work.trail, 0)?;
    order.begin();
    work.trail.back(0);
    work.looked = 0;
    work.watches = Watches::for_clauses(alloc, width, &work.clauses)?;
    let mut analysis = Analysis::new(alloc);
    let mut learned = 0;
    loop {
        match next_round(alloc, ledger, order, work, &mut analysis, budget - learned)? {
            Round::Learned => learned += 1,
            Round::Decided => {}
            Round::Satisfied => return Ok(Ending::Satisfied),
            Round::Refuted => return Ok(Ending::Refuted),
            Round::Spent => return Ok(Ending::Spent),
        }
    }
}

ghost use Rattle.std.specs.Prelude.{IfSome};
ghost use Rattle.clause_solver.specs.Trail.{IsVariableOf};

use crate::plain::propagate;
use crate::solver::{Solver, clauses_of};
use crate::trail::Trail;
use crate::verdict::{SolveFault, Stage, Verdict};
use clause_core::formula::Formula;
use clause_core::lit::Lit;
use clause_core::read::read_cnf;
use clause_core::valuation::Valuation;
use lrat_replay::ledger::{LearnFault, Ledger};
use lrat_replay::replay::Replay;
use lrat_replay::tally::Tally;
use std::alloc::Global;
use std::fmt::Write;
use std::test::Fail;
use wire_io::fault::NoMemory;

const FOUR: &[u8] = b"p cnf 2 4\n1 2 0\n1 -2 0\n-1 2 0\n-1 -2 0\n";

/// A ledger that fails at its first step.
#[derive(Drop)]
struct Faulty {
    formula: Formula,
    failed: bool,
}

impl Ledger for Faulty {
    ghost use Rattle.std.specs.Prelude.{[], cond};
    ghost use Rattle.lrat_replay.specs.Book.{start};

    ghost book = { λ ledger. start ledger.formula };

    ghost broken = { λ ledger. ledger.failed };

    ghost origin = { λ ledger. [] };

    ghost faults = { λ ledger. cond ledger.failed 1 0 };

    fn formula(&self) -> &Formula {
        &self.formula
    }

    fn last_id(&self) -> u32 {
        self.formula.count()
    }

    fn learn(&mut self, _id: u32, _clause: &[Lit], _hints: &[i32]) -> Result<(), LearnFault> {
        self.failed = true;
        Err(LearnFault::Failed)
    }
}

/// A solver of a formula over a replay.
fn solver_of(alloc: Global, text: &[u8]) -> Result<Solver<Replay>, Fail> {
    let formula = read_cnf(alloc, text)?;
    let replay = Replay::new(alloc, formula).ok().ok_or("memory")?;
    Ok(Solver::new(alloc, replay).ok().ok_or("memory")?)
}

/// A call, where there are few steps.
fn solve<L: Ledger>(solver: &mut Solver<L>, budget: u32) -> Option<Result<Verdict, SolveFault>> {
    if solver.ledger().last_id() > 1_000_000 || budget > 1_000_000 {
        return None;
    }
    Some(solver.solve(budget))
}

/// The fault of a call.
fn fault_of(answer: Option<Result<Verdict, SolveFault>>) -> Option<SolveFault> {
    match answer {
        Some(Err(fault)) => Some(fault),
        Some(Ok(_)) => None,
        None => None,
    }
}

/// The valuation of a call.
fn valuation_of(answer: Option<Result<Verdict, SolveFault>>) -> Option<Valuation> {
    match answer {
        Some(Ok(Verdict::Satisfied(valuation))) => Some(valuation),
        Some(Ok(Verdict::Refuted)) => None,
        Some(Ok(Verdict::Spent)) => None,
        Some(Err(_)) => None,
        None => None,
    }
}

#[test]
fn four_clauses_are_refuted(rt: HostRuntime) -> Result<(), Fail> {
    let alloc = rt.alloc();
    let mut solver = solver_of(alloc, FOUR)?;
    assert!(rt; solve(&mut solver, 0).is_some_and(|answer| answer.is_ok()));
    assert_eq!(rt; solver.stage(), Stage::Open);
    assert_eq!(rt; solver.ledger().last_id(), 4);
    assert!(rt; solve(&mut solver, 5).is_some_and(|answer| answer.is_ok()));
    assert_eq!(rt; solver.stage(), Stage::Refuted);
    let last = solver.ledger().last_id();
    assert!(rt; 4 < last && last <= 9);
    assert!(rt; solve(&mut solver, 5).is_some_and(|answer| answer.is_ok()));
    assert_eq!(rt; solver.stage(), Stage::Refuted);
    assert_eq!(rt; solver.ledger().last_id(), last);
    let replay = solver.into_ledger();
    assert!(rt; replay.reached());
    let refutation = replay.refutation().ok().ok_or("not reached")?;
    assert_eq!(rt; refutation.formula().count(), 4);
    Ok(())
}

#[test]
fn four_clauses_are_refuted_and_counted(rt: HostRuntime) -> Result<(), Fail> {
    let alloc = rt.alloc();
    let formula = read_cnf(alloc, FOUR)?;
    let replay = Replay::new(alloc, formula).ok().ok_or("memory")?;
    let mut solver = Solver::new(alloc, Tally::new(replay)).ok().ok_or("memory")?;
    assert!(rt; solve(&mut solver, 5).is_some_and(|answer| answer.is_ok()));
    assert_eq!(rt; solver.stage(), Stage::Refuted);
    let tally = solver.into_ledger();
    let last = tally.last_id();
    assert_eq!(rt; tally.count() + 4, u64::from(last));
    assert!(rt; tally.into_inner().reached());
    Ok(())
}

#[test]
fn no_clauses_are_satisfied(rt: HostRuntime) -> Result<(), Fail> {
    let alloc = rt.alloc();
    let replay = Replay::new(alloc, Formula::new(alloc, 1))
        .ok()
        .ok_or("memory")?;
    let mut solver = Solver::new(alloc, replay).ok().ok_or("memory")?;
    let valuation = valuation_of(solve(&mut solver, 5)).ok_or("none")?;
    assert_eq!(rt; valuation.vars(), 1);
    assert_eq!(rt; solver.stage(), Stage::Satisfied);
    let again = valuation_of(solve(&mut solver, 0)).ok_or("none")?;
    assert_eq!(rt; again.vars(), 1);
    assert_eq!(rt; solver.ledger().last_id(), 0);
    Ok(())
}

#[test]
fn a_clause_is_learned_on_the_way_to_a_valuation(rt: HostRuntime) -> Result<(), Fail> {
    let alloc = rt.alloc();
    let text = b"p cnf 4 5\n-1 -2 3 0\n-1 -2 -3 0\n-1 2 4 0\n-1 2 -4 0\n1 4 0\n";
    let mut solver = solver_of(alloc, text)?;
    let valuation = valuation_of(solve(&mut solver, 100)).ok_or("none")?;
    assert_eq!(rt; valuation.vars(), 4);
    assert!(rt; 5 < solver.ledger().last_id());
    let formula = read_cnf(alloc, text)?;
    if formula.vars() <= valuation.vars() {
        assert!(rt; formula.satisfied_by(&valuation));
    }
    Ok(())
}

#[test]
fn a_ledger_that_fails_ends_the_solver(rt: HostRuntime) -> Result<(), Fail> {
    let alloc = rt.alloc();
    let formula = read_cnf(alloc, FOUR)?;
    let ledger = Faulty {
        formula,
        failed: false,
    };
    let mut solver = Solver::new(alloc, ledger).ok().ok_or("memory")?;
    assert!(rt; solve(&mut solver, 0).is_some_and(|answer| answer.is_ok()));
    assert_eq!(rt; solver.stage(), Stage::Open);
    assert_eq!(rt; fault_of(solve(&mut solver, 5)), Some(SolveFault::Ledger));
    assert_eq!(rt; solver.stage(), Stage::Failed);
    assert_eq!(rt; fault_of(solve(&mut solver, 5)), Some(SolveFault::Over));
    assert!(rt; solver.into_ledger().failed);
    Ok(())
}

/// A literal of one of the first so many variables.
fn literal(vars: u32, var: u32, negated: bool) -> Option<Lit>
    ensures { IfSome result (IsVariableOf vars) }
{
    if var < 1 || var > vars || var > 1_000_000 {
        return None;
    }
    Some(Lit::new(var, negated))
}

/// Adds the clause of a variable.
fn add_start(formula: &mut Formula, var: u32) -> Option<()> {
    let one = literal(formula.vars(), var, false)?;
    if formula.count() > 1_000_000 {
        return None;
    }
    formula.push(&[one]).ok()
}

/// Adds the clause by which one variable forces another.
fn add_link(formula: &mut Formula, from: u32, to: u32) -> Option<()> {
    let one = literal(formula.vars(), from, true)?;
    let two = literal(formula.vars(), to, false)?;
    if formula.count() > 1_000_000 {
        return None;
    }
    formula.push(&[one, two]).ok()
}

/// Adds a clause by which two variables force a third one, or its complement.
fn add_end(formula: &mut Formula, from: u32, and: u32, to: u32, negated: bool) -> Option<()> {
    let one = literal(formula.vars(), from, true)?;
    let two = literal(formula.vars(), and, true)?;
    let three = literal(formula.vars(), to, negated)?;
    if formula.count() > 1_000_000 {
        return None;
    }
    formula.push(&[one, two, three]).ok()
}

/// Two chains of so many links each, and two clauses that clash once both chains are whole. Read in order, or in the reverse
/// order, the clauses force one value of one chain each time.
fn chains(alloc: Global, links: u32) -> Option<Formula> {
    if links < 1 || links > 200_000 {
        return None;
    }
    let last = 2 * links + 1;
    let mut formula = Formula::new(alloc, last);
    add_start(&mut formula, 1)?;
    add_start(&mut formula, links + 1)?;
    for back in 1..links {
        add_link(&mut formula, links - back, links - back + 1)?;
    }
    for link in 1..links {
        add_link(&mut formula, links + link, links + link + 1)?;
    }
    add_end(&mut formula, links, 2 * links, last, false)?;
    add_end(&mut formula, links, 2 * links, last, true)?;
    Some(formula)
}

#[test]
fn two_chains_are_refuted_by_propagation(rt: HostRuntime) -> Result<(), Fail> {
    let alloc = rt.alloc();
    let formula = chains(alloc, 200_000).ok_or("memory")?;
    let replay = Replay::new(alloc, formula).ok().ok_or("memory")?;
    let mut solver = Solver::new(alloc, replay).ok().ok_or("memory")?;
    assert!(rt; solve(&mut solver, 0).is_some_and(|answer| answer.is_ok()));
    assert_eq!(rt; solver.stage(), Stage::Refuted);
    assert_eq!(rt; solver.ledger().last_id(), 400_003);
    assert!(rt; solver.into_ledger().reached());
    Ok(())
}

/// A formula over four variables, made from a number.
fn made(alloc: Global, number: u32) -> Result<String, Fail> {
    let mut text = String::new(alloc);
    let mut state = number;
    write!(text, "p cnf 4 14\n")?;
    for _row in 0..14 {
        let width = 2 + (state >> 20) % 2;
        for _lit in 0..width {
            state = state.wrapping_mul(1_664_525).wrapping_add(1_013_904_223);
            let sign = if state >> 31 == 0 { "" } else { "-" };
            write!(text, "{sign}{} ", 1 + (state >> 16) % 4)?;
        }
        write!(text, "0\n")?;
    }
    Ok(text)
}

/// Whether some of the sixteen valuations of four variables satisfies a formula.
fn has_solution(alloc: Global, formula: &Formula) -> Result<bool, Fail> {
    for number in 0..16u32 {
        let mut values = Vec::new(alloc);
        values.push(number % 2 == 1)?;
        values.push(number / 2 % 2 == 1)?;
        values.push(number / 4 % 2 == 1)?;
        values.push(number / 8 == 1)?;
        let valuation = Valuation::new(values);
        if formula.vars() <= valuation.vars() && formula.satisfied_by(&valuation) {
            return Ok(true);
        }
    }
    Ok(false)
}

/// Whether scanning all clauses ends in a conflict where nothing is decided.
fn is_refuted_by_scans(alloc: Global, formula: &Formula) -> Result<bool, NoMemory> {
    let _count = formula.count();
    let clauses = clauses_of(alloc, formula)?;
    let mut trail = Trail::new(alloc, formula.vars())?;
    Ok(propagate(&mut trail, &clauses)?.is_some())
}

#[test]
fn made_formulas_are_judged_alike(rt: HostRuntime) -> Result<(), Fail> {
    let alloc = rt.alloc();
    let mut refuted = 0u32;
    for number in 0..300 {
        let text = made(alloc, number)?;
        let formula = read_cnf(alloc, text.as_bytes())?;
        let mut solver = solver_of(alloc, text.as_bytes())?;
        assert!(rt; solve(&mut solver, 0).is_some_and(|answer| answer.is_ok()));
        let at_once = solver.stage() == Stage::Refuted;
        let scanned = is_refuted_by_scans(alloc, &formula).ok().ok_or("memory")?;
        assert_eq!(rt; at_once, scanned);
        assert!(rt; solve(&mut solver, 80).is_some_and(|answer| answer.is_ok()));
        let satisfied = solver.stage() == Stage::Satisfied;
        assert_eq!(rt; satisfied, has_solution(alloc, &formula)?);
        if !satisfied && !at_once {
            refuted = refuted.saturating_add(1);
        }
    }
    assert!(rt; refuted > 20);
    Ok(())
}

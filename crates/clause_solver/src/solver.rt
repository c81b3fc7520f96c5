//! The solver.
ghost use Rattle.std.specs.Prelude.{◌≡◌, ◌⊎◌, ◌↔◌, ℕ, ◌+◌, ◌*◌, ◌^◌, ◌<◌, ◌≤◌, Bool, false, List, [], IfOk, IfErr, OnOk, All, length, Ok, Err};
ghost use Rattle.std.specs.FinSet as set;
ghost use Rattle.wire_io.specs.Causes.{Rose};
ghost use Rattle.clause_core.specs.Formula.{IsSatisfiedBy, IsOver, HasNoSolution};
ghost use Rattle.lrat_replay.specs.Marks.{room};
ghost use Rattle.lrat_replay.specs.Book.{last_id};
ghost use Rattle.lrat_replay.specs.Learned.{EndsEmpty};
ghost use Rattle.lrat_replay.specs.New.{IsOpen};
ghost use Rattle.clause_solver.specs.Search.{LearnsNew, LearnsUpTo};
ghost use Rattle.clause_solver.specs.Solver.{stage_after, IsKept, IsSatisfiedAgain};

use crate::model::valuation;
use crate::order::Order;
use crate::search::{Ending, search};
use crate::trail::Trail;
use crate::verdict::{SolveFault, Stage, Verdict};
use crate::watch::Watches;
use crate::work::Work;
use clause_core::clauses::Clauses;
use clause_core::formula::Formula;
use lrat_replay::ledger::{LearnFault, Ledger};
use lrat_replay::marks::Marks;
use std::alloc::Global;
use std::marker::Model;
use wire_io::fault::{NoMemory, Stopped};

/// The clauses of a formula.
pub(crate) fn clauses_of(alloc: Global, formula: &Formula) -> Result<Clauses, NoMemory>
    ensures clauses { IfOk result (λ clauses. clauses ≡ formula.now.clauses) }
    ensures over { IfOk result (λ clauses. All (IsOver formula.now.vars) clauses) }
{
    let mut clauses = Clauses::new(alloc);
    for index in 0..formula.count() {
        clauses.push(formula.clause(index))?;
    }
    Ok(clauses)
}

/// What a search of a formula begins with.
fn work_of(alloc: Global, formula: &Formula) -> Result<Work, NoMemory>
    ensures clauses { IfOk result (λ work. work.clauses ≡ formula.now.clauses) }
    ensures over { IfOk result (λ work. All (IsOver work.trail.vars) work.clauses) }
    ensures vars { IfOk result (λ work. work.trail.vars ≡ formula.now.vars) }
    ensures room { IfOk result (λ work. 2 * work.trail.vars + 2 ≤ room work.seen) }
{
    let vars = formula.vars();
    Ok(Work {
        clauses: clauses_of(alloc, formula)?,
        trail: Trail::new(alloc, vars)?,
        seen: Marks::new(alloc, 2 * vars as usize + 2)?,
        watches: Watches::new(alloc, 0, &[])?,
        looked: 0,
    })
}

/// The answer of a search that ended so.
fn answer<L: Ledger>(
    alloc: Global,
    ledger: &mut L,
    order: &mut Order,
    work: &mut Work,
    budget: u32,
) -> Result<Verdict, SolveFault>
    requires kept { IsKept Stage.Open (record { book = L.book ledger.old; broken = L.broken ledger.old; clauses = work.old.clauses; track = work.old.trail; width = room work.old.seen }) }
    requires within { last_id (L.book ledger.old) + budget < 2147483647 }
    ensures kept { IsKept (stage_after result) (record { book = L.book ledger.new; broken = L.broken ledger.new; clauses = work.new.clauses; track = work.new.trail; width = room work.new.seen }) }
    ensures learned { LearnsUpTo (L.book ledger.old) (L.book ledger.new) budget }
    ensures origin { (L.origin ledger.new ≡ L.origin ledger.old) ⊎ (L.origin ledger.new ≡ []) }
    ensures faults { L.faults ledger.old ≤ L.faults ledger.new }
    ensures satisfied { (values : List Bool) → result ≡ Ok (Verdict.Satisfied values) → IsSatisfiedBy values (L.book ledger.new).formula }
    ensures spent { result ≡ Ok Verdict.Spent → LearnsNew (L.book ledger.old) (L.book ledger.new) budget }
    ensures open { result ≡ Ok Verdict.Spent → IsOpen (L.book ledger.new).formula (L.book ledger.new).steps }
    ensures sufficient { result ≡ Ok Verdict.Spent → budget < 3 ^ (L.book ledger.new).formula.vars }
    ensures ledger { result ≡ Err SolveFault.Ledger → Rose (L.faults ledger.old) (L.faults ledger.new) }
    ensures not_over { result ≡ Err SolveFault.Over → ⊥ }
{
    match search(alloc, ledger, order, work, budget) {
        Ok(Ending::Satisfied) => match valuation(alloc, &work.trail) {
            Ok(values) => Ok(Verdict::Satisfied(values)),
            Err(NoMemory) => Err(SolveFault::NoMemory),
        },
        Ok(Ending::Refuted) => Ok(Verdict::Refuted),
        Ok(Ending::Spent) => Ok(Verdict::Spent),
        Err(LearnFault::Failed) => Err(SolveFault::Ledger),
        Err(LearnFault::NoMemory) => Err(SolveFault::NoMemory),
    }
}

/// The answer of a solver that stands so.
fn resume<L: Ledger>(
    alloc: Global,
    ledger: &mut L,
    order: &mut Order,
    work: &mut Work,
    stage: Stage,
    budget: u32,
) -> Result<Verdict, SolveFault>
    requires kept { IsKept stage (record { book = L.book ledger.old; broken = L.broken ledger.old; clauses = work.old.clauses; track = work.old.trail; width = room work.old.seen }) }
    requires within { last_id (L.book ledger.old) + budget < 2147483647 }
    ensures kept { IsKept (stage_after result) (record { book = L.book ledger.new; broken = L.broken ledger.new; clauses = work.new.clauses; track = work.new.trail; width = room work.new.seen }) }

    // What was learned: at most so many steps that are not empty, each step accepted, and new where it is not empty.
    ensures learned { LearnsUpTo (L.book ledger.old) (L.book ledger.new) budget }
    ensures formula { (L.book ledger.new).formula ≡ (L.book ledger.old).formula }
    ensures deleted { (L.book ledger.new).deleted ≡ (L.book ledger.old).deleted }
    ensures origin { (L.origin ledger.new ≡ L.origin ledger.old) ⊎ (L.origin ledger.new ≡ []) }
    ensures faults { L.faults ledger.old ≤ L.faults ledger.new }
    ensures whole { OnOk result (L.broken ledger.new ≡ false) }

    // What each answer means.
    ensures satisfied { (values : List Bool) → result ≡ Ok (Verdict.Satisfied values) → IsSatisfiedBy values (L.book ledger.new).formula }
    ensures refuted { result ≡ Ok Verdict.Refuted → EndsEmpty (L.book ledger.new).steps }
    ensures no_solution { result ≡ Ok Verdict.Refuted → HasNoSolution (L.book ledger.new).formula }
    ensures spent { result ≡ Ok Verdict.Spent → LearnsNew (L.book ledger.old) (L.book ledger.new) budget }
    ensures open { result ≡ Ok Verdict.Spent → IsOpen (L.book ledger.new).formula (L.book ledger.new).steps }
    ensures sufficient { result ≡ Ok Verdict.Spent → budget < 3 ^ (L.book ledger.new).formula.vars }
    ensures ledger { result ≡ Err SolveFault.Ledger → Rose (L.faults ledger.old) (L.faults ledger.new) }
    ensures over { (result ≡ Err SolveFault.Over) ↔ (stage ≡ Stage.Failed) }

    // What comes of an earlier answer.
    ensures over_same { stage ≡ Stage.Failed → L.book ledger.new ≡ L.book ledger.old }
    ensures satisfied_again { stage ≡ Stage.Satisfied → IsSatisfiedAgain result × (L.book ledger.new ≡ L.book ledger.old) }
    ensures refuted_again { stage ≡ Stage.Refuted → (result ≡ Ok Verdict.Refuted) × (L.book ledger.new ≡ L.book ledger.old) }
{
    match stage {
        Stage::Open => answer(alloc, ledger, order, work, budget),
        Stage::Satisfied => match valuation(alloc, &work.trail) {
            Ok(values) => Ok(Verdict::Satisfied(values)),
            Err(NoMemory) => Err(SolveFault::NoMemory),
        },
        Stage::Refuted => Ok(Verdict::Refuted),
        Stage::Failed => Err(SolveFault::Over),
    }
}

/// Where a solver stands after an answer.
fn stage_of(answer: &Result<Verdict, SolveFault>) -> Stage
    ensures { result ≡ stage_after answer.now }
{
    match answer {
        Ok(Verdict::Satisfied(_)) => Stage::Satisfied,
        Ok(Verdict::Refuted) => Stage::Refuted,
        Ok(Verdict::Spent) => Stage::Open,
        Err(_) => Stage::Failed,
    }
}

/// A search for a valuation of a ledger's formula, with each learned clause as a step of the ledger.
#[derive(Drop)]
pub struct Solver<L: Ledger> {
    ledger: L,
    alloc: Global,
    order: Order,
    work: Work,
    stage: Stage,
}

impl<L: Ledger> Model for Solver<L> {
    ghost use Rattle.lrat_replay.specs.Marks.{room};
    ghost use Rattle.clause_solver.specs.Solver.{SolverState, IsKept};

    ghost Value = { SolverState L };

    ghost view = { λ solver. record { ledger = solver.ledger; stage = solver.stage } };

    ghost invariant = { λ solver. IsKept solver.stage (record { book = L.book solver.ledger; broken = L.broken solver.ledger; clauses = solver.work.clauses; track = solver.work.trail; width = room solver.work.seen }) };
}

impl<L: Ledger> Solver<L> {
    /// A solver of the formula of a ledger that is not broken, has no steps, and in which nothing was deleted.
    /// For want of memory the ledger comes back as it was.
    pub fn new(alloc: Global, ledger: L) -> Result<Solver<L>, Stopped<NoMemory, L>>
        requires whole { L.broken ledger ≡ false }
        requires no_steps { (L.book ledger).steps ≡ [] }
        requires kept { (L.book ledger).deleted ≡ set.empty }
        ensures ledger { IfOk result (λ solver. solver.ledger ≡ ledger) }
        ensures stage { IfOk result (λ solver. solver.stage ≡ Stage.Open) }
        ensures held { IfErr result (λ stopped. stopped.held ≡ ledger) }
    {
        let order = match Order::new(alloc, ledger.formula()) {
            Ok(order) => order,
            Err(fault) => {
                return Err(Stopped {
                    fault,
                    held: ledger,
                });
            }
        };
        match work_of(alloc, ledger.formula()) {
            Ok(work) => Ok(Solver {
                ledger,
                alloc,
                order,
                work,
                stage: Stage::Open,
            }),
            Err(fault) => Err(Stopped {
                fault,
                held: ledger,
            }),
        }
    }

    /// Searches, and learns at most `budget` clauses that are not empty; the last identifier and the budget are together
    /// below 2,147,483,647. After `Spent` a further call goes on; after `Satisfied` or `Refuted` it answers the same
    /// again and learns nothing; after `Ledger` or `NoMemory` the steps that were learned stay, and it answers `Over`.
    pub fn solve(&mut self, budget: u32) -> Result<Verdict, SolveFault>
        requires { last_id (L.book self.old.ledger) + budget < 2147483647 }
        // What was learned: at most so many steps that are not empty, each step accepted, and new where it is not empty.
        ensures learned { LearnsUpTo (L.book self.old.ledger) (L.book self.new.ledger) budget }
        ensures formula { (L.book self.new.ledger).formula ≡ (L.book self.old.ledger).formula }
        ensures deleted { (L.book self.new.ledger).deleted ≡ (L.book self.old.ledger).deleted }
        ensures origin { (L.origin self.new.ledger ≡ L.origin self.old.ledger) ⊎ (L.origin self.new.ledger ≡ []) }
        ensures faults { L.faults self.old.ledger ≤ L.faults self.new.ledger }
        ensures whole { OnOk result (L.broken self.new.ledger ≡ false) }

        // What each answer means.
        ensures satisfied { (values : List Bool) → result ≡ Ok (Verdict.Satisfied values) → IsSatisfiedBy values (L.book self.new.ledger).formula }
        ensures refuted { result ≡ Ok Verdict.Refuted → EndsEmpty (L.book self.new.ledger).steps }
        ensures no_solution { result ≡ Ok Verdict.Refuted → HasNoSolution (L.book self.new.ledger).formula }
        ensures spent { result ≡ Ok Verdict.Spent → LearnsNew (L.book self.old.ledger) (L.book self.new.ledger) budget }
        ensures open { result ≡ Ok Verdict.Spent → IsOpen (L.book self.new.ledger).formula (L.book self.new.ledger).steps }
        ensures sufficient { result ≡ Ok Verdict.Spent → budget < 3 ^ (L.book self.new.ledger).formula.vars }
        ensures ledger { result ≡ Err SolveFault.Ledger → Rose (L.faults self.old.ledger) (L.faults self.new.ledger) }
        ensures over { (result ≡ Err SolveFault.Over) ↔ (self.old.stage ≡ Stage.Failed) }

        // What comes of an earlier answer.
        ensures over_same { self.old.stage ≡ Stage.Failed → L.book self.new.ledger ≡ L.book self.old.ledger }
        ensures satisfied_again { self.old.stage ≡ Stage.Satisfied → IsSatisfiedAgain result × (L.book self.new.ledger ≡ L.book self.old.ledger) }
        ensures refuted_again { self.old.stage ≡ Stage.Refuted → (result ≡ Ok Verdict.Refuted) × (L.book self.new.ledger ≡ L.book self.old.ledger) }
        ensures stage { self.new.stage ≡ stage_after result }
    {
        let answer = resume(
            self.alloc,
            &mut self.ledger,
            &mut self.order,
            &mut self.work,
            self.stage,
            budget,
        );
        self.stage = stage_of(&answer);
        answer
    }

    /// Where it stands.
    pub fn stage(&self) -> Stage
        ensures { result ≡ self.now.stage }
    {
        self.stage
    }

    /// The ledger.
    pub fn ledger(&self) -> &L
        ensures { result.now ≡ self.now.ledger }
    {
        &self.ledger
    }

    /// Gives the ledger back.
    pub fn into_ledger(self) -> L
        ensures { result ≡ self.ledger }
    {
        let Solver {
            ledger,
            alloc: _,
            order,
            work,
            stage: _,
        } = self;
        drop(order);
        drop(work);
        ledger
    }
}

//! Propagation by scanning all clauses: a second opinion for tests.
ghost use Rattle.std.specs.Prelude.{◌≡◌, ℕ, ◌+◌, ◌<◌, ◌≤◌, IfOk, IfSome, IfNone, All, length, Ok};
ghost use Rattle.clause_core.specs.Formula.{IsOver};
ghost use Rattle.clause_solver.specs.Trail.{known_by, unassigned};
ghost use Rattle.clause_solver.specs.Plain.{AllRest, HaveReasons, IsConflictAt};

use crate::trail::Trail;
use clause_core::clauses::Clauses;
use lrat_replay::status::Status;
use wire_io::fault::NoMemory;

/// What one pass over the clauses found.
#[derive(Clone, Copy, Debug, PartialEq, Eq)]
enum Pass {
    /// The clause at this place is in conflict.
    Conflict(usize),
    /// Some clause forced a literal.
    Forced,
    /// Each clause rests.
    Quiet,
}

/// One pass over the clauses: adds what they force, up to the first one in conflict.
fn scan_all(trail: &mut Trail, clauses: &Clauses) -> Result<Pass, NoMemory>
    requires over { All (IsOver trail.old.vars) clauses.now }
    requires few { length clauses.now < 2147483647 }
    requires reasons { HaveReasons clauses.now trail.old.values }
    ensures reasons { HaveReasons clauses.now trail.new.values }
    ensures vars { trail.new.vars ≡ trail.old.vars }
    ensures fewer { unassigned trail.new ≤ unassigned trail.old }
    ensures conflict { (place : ℕ) → result ≡ Ok (Pass.Conflict place) → IsConflictAt clauses.now (known_by trail.new.values) place }
    ensures forced { result ≡ Ok Pass.Forced → unassigned trail.new < unassigned trail.old }
    ensures quiet { result ≡ Ok Pass.Quiet → AllRest clauses.now (known_by trail.new.values) }
{
    let mut forced = false;
    for index in 0..clauses.len() {
        match trail.status(clauses.clause(index)) {
            Status::Conflict => return Ok(Pass::Conflict(index)),
            Status::Forces(lit) => {
                trail.push(lit, Some(index as u32 + 1))?;
                forced = true;
            }
            Status::Satisfied | Status::Unresolved => {}
        }
    }
    if forced {
        Ok(Pass::Forced)
    } else {
        Ok(Pass::Quiet)
    }
}

/// Adds what clauses force until each rests, or one is in conflict: its place is the answer.
pub fn propagate(trail: &mut Trail, clauses: &Clauses) -> Result<Option<usize>, NoMemory>
    requires over { All (IsOver trail.old.vars) clauses.now }
    requires few { length clauses.now < 2147483647 }
    requires reasons { HaveReasons clauses.now trail.old.values }
    ensures reasons { HaveReasons clauses.now trail.new.values }
    ensures vars { trail.new.vars ≡ trail.old.vars }
    ensures fewer { unassigned trail.new ≤ unassigned trail.old }
    ensures rests { IfOk result (λ answer. IfNone answer (AllRest clauses.now (known_by trail.new.values))) }
    ensures conflict { IfOk result (λ answer. IfSome answer (IsConflictAt clauses.now (known_by trail.new.values))) }
{
    loop {
        match scan_all(trail, clauses)? {
            Pass::Conflict(place) => return Ok(Some(place)),
            Pass::Forced => {}
            Pass::Quiet => return Ok(None),
        }
    }
}

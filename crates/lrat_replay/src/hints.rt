//! Hints, one after the other.
ghost use Rattle.std.specs.Prelude.{◌≡◌, ℕ, ◌+◌, ◌*◌, ◌<◌, ◌≤◌, MatchResult, None, Some};
ghost use Rattle.lrat_replay.specs.Marks.{known_of, room};
ghost use Rattle.lrat_replay.specs.Book.{live, run, fault_of_outcome};

use crate::fault::StepFault;
use crate::marks::Marks;
use crate::status::{Status, scan};
use crate::store::Store;

/// Follows the hints: marks what they force, until one clashes.
pub fn follow(store: &Store, marks: &mut Marks, hints: &[i32]) -> Result<(), StepFault>
    requires { 2 * store.now.formula.vars + 2 ≤ room marks.old }
    ensures outcome { MatchResult result (λ _. fault_of_outcome (run (live store.now) (known_of marks.old) hints.now) ≡ None) (λ fault. fault_of_outcome (run (live store.now) (known_of marks.old) hints.now) ≡ Some fault) }
    ensures room { room marks.new ≡ room marks.old }
{
    for hint in hints {
        if *hint < 0 {
            return Err(StepFault::Rat);
        }
        let Some(clause) = store.find(*hint as u32) else {
            return Err(StepFault::Unknown);
        };
        match scan(marks, clause) {
            Status::Satisfied => return Err(StepFault::Satisfied),
            Status::Unresolved => return Err(StepFault::Loose),
            Status::Conflict => return Ok(()),
            Status::Forces(lit) => marks.add(lit),
        }
    }
    Err(StepFault::NoConflict)
}

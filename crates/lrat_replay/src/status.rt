//! What a clause comes to where some literals are known to be true.
ghost use Rattle.std.specs.Prelude.{◌≡◌, ◌↔◌, ◌<◌, All};
ghost use Rattle.clause_core.specs.Literal.{Literal, number, flip};
ghost use Rattle.lrat_replay.specs.Hints.{FitsIn};
ghost use Rattle.lrat_replay.specs.Marks.{known_of, room};
ghost use Rattle.lrat_replay.specs.Status.{status, IsSatisfied, IsUnresolved, IsUnit, IsConflict};
ghost use Rattle.lrat_replay.specs.StatusStep.{with_unassigned};

use crate::marks::Marks;
use clause_core::lit::Lit;

/// What a clause comes to.
#[derive(Clone, Copy, Debug, PartialEq, Eq)]
pub enum Status {
    /// A literal of it is true.
    Satisfied,
    /// Two or more different literals of it have no value.
    Unresolved,
    /// Exactly one has no value.
    Forces(Lit),
    /// None has, and none is true.
    Conflict,
}

impl Status {
    /// One more literal without value.
    fn with_unassigned(self, lit: Lit) -> Status
        ensures { result ≡ with_unassigned self lit }
    {
        match self {
            Status::Conflict => Status::Forces(lit),
            Status::Forces(first) => {
                if first.is(lit) {
                    Status::Forces(first)
                } else {
                    Status::Unresolved
                }
            }
            Status::Unresolved => Status::Unresolved,
            Status::Satisfied => Status::Satisfied,
        }
    }
}

/// What a clause comes to, literal by literal.
pub(crate) fn scan(marks: &Marks, clause: &[Lit]) -> Status
    requires { FitsIn (room marks.now) clause.now }
    ensures { result ≡ status (known_of marks.now) clause.now }
{
    let mut status = Status::Conflict;
    for lit in clause {
        if marks.has(*lit) {
            return Status::Satisfied;
        }
        if !marks.has(lit.flip()) {
            status = status.with_unassigned(*lit);
        }
    }
    status
}

/// What a clause comes to under the literals that are marked.
pub fn status_of(marks: &Marks, clause: &[Lit]) -> Status
    requires { FitsIn (room marks.now) clause.now }
    ensures value { result ≡ status (known_of marks.now) clause.now }
    ensures satisfied { (result ≡ Status.Satisfied) ↔ IsSatisfied (known_of marks.now) clause.now }
    ensures unresolved { (result ≡ Status.Unresolved) ↔ IsUnresolved (known_of marks.now) clause.now }
    ensures unit { (lit : Literal) → (result ≡ Status.Forces lit) ↔ IsUnit (known_of marks.now) clause.now lit }
    ensures conflict { (result ≡ Status.Conflict) ↔ IsConflict (known_of marks.now) clause.now }
{
    scan(marks, clause)
}

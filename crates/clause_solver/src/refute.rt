//! Refutation: the hints of the empty clause, where nothing was decided.
ghost use Rattle.std.specs.Prelude.{◌≡◌, ◌+◌, ◌*◌, ◌<◌, ◌≤◌, [], IfOk, true, false, All, length, map, pos};
ghost use Rattle.clause_core.specs.Literal.{Literal, flip, has};
ghost use Rattle.clause_core.specs.Formula.{IsOver};
ghost use Rattle.lrat_replay.specs.Hints.{FitsIn};
ghost use Rattle.lrat_replay.specs.Marks.{known_of, room};
ghost use Rattle.lrat_replay.specs.Book.{run, denied, Accepted};
ghost use Rattle.clause_solver.specs.Trail.{known_by, has_decision};
ghost use Rattle.clause_solver.specs.Plain.{HaveReasons, IsConflictAt, at_of};

use crate::trail::Trail;
use clause_core::clauses::Clauses;
use clause_core::lit::Lit;
use lrat_replay::marks::Marks;
use std::alloc::Global;
use wire_io::fault::NoMemory;

/// Marks the complements of a clause's literals.
fn mark(seen: &mut Marks, clause: &[Lit])
    requires { FitsIn (room seen.old) clause.now }
    ensures kept { (x : Literal) → known_of seen.old x ≡ true → known_of seen.new x ≡ true }
    ensures marked { (l : Literal) → has clause.now l ≡ true → known_of seen.new (flip l) ≡ true }
    ensures room { room seen.new ≡ room seen.old }
{
    for lit in clause {
        seen.add(lit.flip());
    }
}

/// The hints by which replay accepts the empty clause, where nothing was decided.
pub fn refute(
    alloc: Global,
    trail: &Trail,
    clauses: &Clauses,
    seen: &mut Marks,
    conflict: usize,
) -> Result<Vec<u32>, NoMemory>
    requires over { All (IsOver trail.now.vars) clauses.now }
    requires room { 2 * trail.now.vars + 2 ≤ room seen.old }
    requires few { length clauses.now < 2147483647 }
    requires reasons { HaveReasons clauses.now trail.now.values }
    requires conflict { IsConflictAt clauses.now (known_by trail.now.values) conflict }
    requires decided { has_decision trail.now.values ≡ false }
    ensures accepted { IfOk result (λ hints. run (at_of clauses.now) (denied []) (map pos hints.items) ≡ Accepted) }
    ensures numbers { IfOk result (λ hints. All (λ id. (0 < id) × (id ≤ length clauses.now)) hints.items) }
    ensures room { room seen.new ≡ room seen.old }
{
    seen.clear();
    mark(seen, clauses.clause(conflict));
    let mut hints = Vec::new(alloc);
    hints.push(conflict as u32 + 1)?;
    let mut place = trail.len();
    while place > 0 {
        place -= 1;
        let value = trail.value(place);
        match value.reason {
            None => {}
            Some(id) => {
                if seen.has(value.lit) {
                    mark(seen, clauses.clause(id as usize - 1));
                    hints.push(id)?;
                }
            }
        }
    }
    hints.reverse();
    Ok(hints)
}

//! The tests of a clause before its hints.
ghost use Rattle.std.specs.Prelude.{◌≡◌, ◌+◌, ◌*◌, ◌≤◌, true, false, not};
ghost use Rattle.clause_core.specs.Formula.{IsOver};
ghost use Rattle.lrat_replay.specs.Marks.{known_of, room};
ghost use Rattle.lrat_replay.specs.Book.{denied, some_above, some_flip};

use crate::marks::Marks;
use clause_core::lit::Lit;

/// Whether a variable of the clause is above this one.
pub fn is_above(clause: &[Lit], vars: u32) -> bool
    ensures value { result ≡ some_above vars clause.now }
    ensures over { result ≡ false → IsOver vars clause.now }
{
    for lit in clause {
        if lit.var() > vars {
            return true;
        }
    }
    false
}

/// Marks the complements of the literals, and says whether the clause has a literal and its complement.
pub fn deny(marks: &mut Marks, vars: u32, clause: &[Lit]) -> bool
    requires over { IsOver vars clause.now }
    requires room { 2 * vars + 2 ≤ room marks.old }
    ensures value { result ≡ some_flip clause.now clause.now }
    ensures denied { result ≡ false → known_of marks.new ≡ denied clause.now }
    ensures room { room marks.new ≡ room marks.old }
{
    marks.clear();
    for lit in clause {
        if marks.has(*lit) {
            return true;
        }
        marks.add(lit.flip());
    }
    false
}

//! Clauses whose literals are all marked.
ghost use Rattle.std.specs.Prelude.{◌≡◌, ◌↔◌, ◌+◌, ◌*◌, ◌<◌, ◌≤◌, ◌++◌, All, IsTrue, length, true, false};
ghost use Rattle.clause_core.specs.Literal.{has};
ghost use Rattle.clause_core.specs.Formula.{IsOver};
ghost use Rattle.lrat_replay.specs.Marks.{known_of, room};
ghost use Rattle.lrat_replay.specs.Hints.{FitsIn};
ghost use Rattle.lrat_replay.specs.Subset.{AreKnown, SomeAreKnown};
ghost use Rattle.lrat_replay.specs.Lists.{AreListed, NoneOf};

use crate::lists::Lists;
use crate::marks::Marks;
use crate::place::clause_at;
use clause_core::clauses::Clauses;
use clause_core::formula::Formula;
use clause_core::lit::Lit;

/// Marks the literals of a clause, and no others.
pub fn mark_all(marks: &mut Marks, clause: &[Lit])
    requires { FitsIn (room marks.old) clause.now }
    ensures marked { known_of marks.new ≡ has clause.now }
    ensures room { room marks.new ≡ room marks.old }
{
    marks.clear();
    for lit in clause {
        marks.add(*lit);
    }
}

/// Whether each literal of a clause is marked.
fn are_marked(marks: &Marks, clause: &[Lit]) -> bool
    requires { FitsIn (room marks.now) clause.now }
    ensures { IsTrue result ↔ AreKnown (known_of marks.now) clause.now }
{
    for lit in clause {
        if !marks.has(*lit) {
            return false;
        }
    }
    true
}

/// Whether some clause of one list has only marked literals.
fn some_listed(marks: &Marks, lists: &Lists, formula: &Formula, steps: &Clauses, code: u32) -> bool
    requires listed { AreListed (formula.now.clauses ++ steps.now) lists.now.first.items lists.now.next.items }
    requires within { code < length lists.now.first.items }
    requires over { All (IsOver formula.now.vars) steps.now }
    requires room { 2 * formula.now.vars + 2 ≤ room marks.now }
    ensures found { result ≡ true → SomeAreKnown (known_of marks.now) (formula.now.clauses ++ steps.now) }
    ensures none { result ≡ false → NoneOf (known_of marks.now) (formula.now.clauses ++ steps.now) code }
{
    let mut link = lists.newest(code);
    while link > 0 {
        let place = link as usize - 1;
        if are_marked(marks, clause_at(formula, steps, place)) {
            return true;
        }
        link = lists.older(place);
    }
    false
}

/// Whether some clause has only literals of this one, which are the marked ones: the empty clause, or one that begins
/// with a literal of this one.
pub fn some_within(
    marks: &Marks,
    lists: &Lists,
    formula: &Formula,
    steps: &Clauses,
    clause: &[Lit],
) -> bool
    requires listed { AreListed (formula.now.clauses ++ steps.now) lists.now.first.items lists.now.next.items }
    requires wide { length lists.now.first.items ≡ 2 * formula.now.vars + 2 }
    requires over { All (IsOver formula.now.vars) steps.now }
    requires room { 2 * formula.now.vars + 2 ≤ room marks.now }
    requires marked { known_of marks.now ≡ has clause.now }
    requires clause { IsOver formula.now.vars clause.now }
    ensures { IsTrue result ↔ SomeAreKnown (known_of marks.now) (formula.now.clauses ++ steps.now) }
{
    if some_listed(marks, lists, formula, steps, 0) {
        return true;
    }
    for lit in clause {
        if some_listed(marks, lists, formula, steps, lit.code()) {
            return true;
        }
    }
    false
}

//! Places: that of a number in a slice of rising numbers, and the clause at one.
ghost use Rattle.std.specs.Prelude.{◌≡◌, ℕ, ◌+◌, ◌<◌, ◌≤◌, ◌++◌, All, MatchOption, length, slice_index_or};
ghost use Rattle.clause_core.specs.Formula.{IsOver};
ghost use Rattle.lrat_replay.specs.Store.{AreRising, IsAbsent, IsPlace};

use clause_core::clauses::Clauses;
use clause_core::formula::Formula;
use clause_core::lit::Lit;

/// The place of a number, found by halving.
fn search(ids: &[u32], id: u32) -> Option<usize>
    requires { AreRising 0 ids.now }
    ensures { MatchOption result (IsAbsent ids.now id) (IsPlace ids.now id) }
{
    match ids.binary_search(&id) {
        Ok(place) => Some(place),
        Err(_) => None,
    }
}

/// The place of a number: at once where the numbers run on from 1.
pub fn place_of(ids: &[u32], id: u32) -> Option<usize>
    requires { AreRising 0 ids.now }
    ensures { MatchOption result (IsAbsent ids.now id) (IsPlace ids.now id) }
{
    let next = id as usize;
    if 0 < next && next <= ids.len() && ids[next - 1] == id {
        return Some(next - 1);
    }
    search(ids, id)
}

/// The clause at a place among those of a formula and the steps after them.
pub fn clause_at<'a>(formula: &'a Formula, steps: &'a Clauses, place: usize) -> &'a [Lit]
    requires inside { place < length formula.now.clauses + length steps.now }
    requires over { All (IsOver formula.now.vars) steps.now }
    ensures value { slice_index_or (formula.now.clauses ++ steps.now) place result.now ≡ result.now }
    ensures over { IsOver formula.now.vars result.now }
{
    let count = formula.count() as usize;
    if place < count {
        formula.clause(place as u32)
    } else {
        steps.clause(place - count)
    }
}

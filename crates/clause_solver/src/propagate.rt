//! Propagation over watched literals.
ghost use Rattle.std.specs.Prelude.{◌≡◌, ◌⊎◌, ◌+◌, ◌<◌, ◌≤◌, IfOk, OnOk, IfSome, IfNone, true, false, All, List, Some, length, slice_get, slice_index_or};
ghost use Rattle.clause_core.specs.Literal.{Literal, flip, has};
ghost use Rattle.clause_core.specs.Formula.{IsOver};
ghost use Rattle.clause_solver.specs.Trail.{known_by, oldest, IsVariableOf};
ghost use Rattle.clause_solver.specs.Plain.{AllRest, IsConflictAt};
ghost use Rattle.clause_solver.specs.Watch.{count, list_of};
ghost use Rattle.clause_solver.specs.Watching.{IsWatched, IsWorking, IsQuiet, IsVisiting, HasAdvanced};

use crate::trail::Trail;
use crate::watch::{Entry, Pair, is_short};
use crate::work::Work;
use clause_core::lit::Lit;
use wire_io::fault::NoMemory;

/// The first literal of a clause that is not false.
fn first_not_false(trail: &Trail, clause: &[Lit]) -> Option<Lit>
    requires { IsOver trail.now.vars clause.now }
    ensures some { IfSome result (λ lit. (has clause.now lit ≡ true) × (known_by trail.now.values (flip lit) ≡ false)) }
    ensures none { IfNone result ((l : Literal) → has clause.now l ≡ true → known_by trail.now.values (flip l) ≡ true) }
{
    for lit in clause {
        if !trail.has(lit.flip()) {
            return Some(*lit);
        }
    }
    None
}

/// The first other literal of a clause that is not false.
fn other_not_false(trail: &Trail, clause: &[Lit], one: Lit) -> Option<Lit>
    requires { IsOver trail.now.vars clause.now }
    ensures some { IfSome result (λ lit. (has clause.now lit ≡ true) × (known_by trail.now.values (flip lit) ≡ false) × (lit ≡ one → ⊥)) }
    ensures none { IfNone result ((l : Literal) → has clause.now l ≡ true → (one ≡ l) ⊎ (known_by trail.now.values (flip l) ≡ true)) }
{
    for lit in clause {
        if !lit.is(one) && !trail.has(lit.flip()) {
            return Some(*lit);
        }
    }
    None
}

/// Settles the next clause, before anything is decided: it watches two literals that are not false, or forces the only one.
fn settle_next(work: &mut Work) -> Result<Option<usize>, NoMemory>
    requires working { IsWorking work.old }
    requires few { length work.old.clauses < 2147483647 }
    requires some { count work.old.watches < length work.old.clauses }
    ensures working { OnOk result (IsWorking work.new) }
    ensures advanced { OnOk result (HasAdvanced work.old work.new) }
    ensures settled { IfOk result (λ answer. IfNone answer (count work.new.watches ≡ count work.old.watches + 1)) }
    ensures conflict { IfOk result (λ answer. IfSome answer (IsConflictAt work.new.clauses (known_by work.new.trail.values))) }
{
    let place = work.watches.len();
    let clause = work.clauses.clause(place);
    let Some(one) = first_not_false(&work.trail, clause) else {
        return Ok(Some(place));
    };
    if let Some(two) = other_not_false(&work.trail, clause, one) {
        let is_whole = is_short(clause);
        work.watches.watch(one, two, is_whole)?;
        return Ok(None);
    }
    if !work.trail.has(one) {
        work.trail.push(one, Some(place as u32 + 1))?;
        work.watches.pass_over()?;
        return Ok(None);
    }
    work.watches.pass_over()?;
    Ok(None)
}

/// Settles the clauses that are left; the answer is one in conflict.
fn settle_rest(work: &mut Work) -> Result<Option<usize>, NoMemory>
    requires working { IsWorking work.old }
    requires few { length work.old.clauses < 2147483647 }
    ensures working { OnOk result (IsWorking work.new) }
    ensures advanced { OnOk result (HasAdvanced work.old work.new) }
    ensures settled { IfOk result (λ answer. IfNone answer (length work.new.clauses ≤ count work.new.watches)) }
    ensures conflict { IfOk result (λ answer. IfSome answer (IsConflictAt work.new.clauses (known_by work.new.trail.values))) }
{
    while work.watches.len() < work.clauses.len() {
        if let Some(conflict) = settle_next(work)? {
            return Ok(Some(conflict));
        }
    }
    Ok(None)
}

/// The other one of two literals.
fn other_of(one: Lit, two: Lit, lost: Lit) -> Lit
    ensures { ((one ≡ lost) × (result ≡ two)) ⊎ ((one ≡ lost → ⊥) × (result ≡ one)) }
{
    if one.is(lost) { two } else { one }
}

/// A literal, if it is not false.
fn open_literal(trail: &Trail, lit: Lit) -> Option<Lit>
    requires { IsVariableOf trail.now.vars lit }
    ensures some { IfSome result (λ x. (x ≡ lit) × (known_by trail.now.values (flip lit) ≡ false)) }
    ensures none { IfNone result (known_by trail.now.values (flip lit) ≡ true) }
{
    if trail.has(lit.flip()) {
        return None;
    }
    Some(lit)
}

/// The first literal of a clause that is not false beside one of the two that it watches. A clause that has no others is not read.
fn another(work: &Work, place: usize, pair: Pair, other: Lit) -> Option<Lit>
    requires inside { place < length work.now.clauses }
    requires over { All (IsOver work.now.trail.vars) work.now.clauses }
    requires watched { (clause : List Literal) → slice_get work.now.clauses place ≡ Some clause → IsWatched clause pair (known_by (oldest work.now.looked work.now.trail.values)) (known_by work.now.trail.values) }
    requires stays { (other ≡ pair.one) ⊎ (other ≡ pair.two) }
    ensures some { IfSome result (λ lit. (clause : List Literal) → slice_get work.now.clauses place ≡ Some clause → (has clause lit ≡ true) × (known_by work.now.trail.values (flip lit) ≡ false) × (lit ≡ other → ⊥)) }
    ensures none { IfNone result ((clause : List Literal) → slice_get work.now.clauses place ≡ Some clause → (l : Literal) → has clause l ≡ true → (other ≡ l) ⊎ (known_by work.now.trail.values (flip l) ≡ true)) }
{
    if pair.is_whole {
        let rest = other_of(pair.one, pair.two, other);
        return open_literal(&work.trail, rest);
    }
    let clause = work.clauses.clause(place);
    other_not_false(&work.trail, clause, other)
}

/// Visits a clause of the list of a literal that became false: a true literal of it becomes the entry's blocker, or it watches
/// another literal, or forces the other one that it watches; the answer is the clause where it is in conflict.
fn visit_clause(
    work: &mut Work,
    lost: Lit,
    index: usize,
    place: u32,
) -> Result<Option<usize>, NoMemory>
    requires visiting { IsVisiting work.old lost (index + 1) }
    requires at { place ≡ slice_index_or (list_of work.old.watches lost) index 0 }
    requires few { length work.old.clauses < 2147483647 }
    ensures working { OnOk result (IsWorking work.new) }
    ensures looked { work.new.looked ≡ work.old.looked }
    ensures advanced { OnOk result (HasAdvanced work.old work.new) }
    ensures visiting { IfOk result (λ answer. IfNone answer (IsVisiting work.new lost index)) }
    ensures conflict { IfOk result (λ answer. IfSome answer (IsConflictAt work.new.clauses (known_by work.new.trail.values))) }
{
    let Some(pair) = work.watches.pair(place as usize) else {
        return Ok(None);
    };
    let other = other_of(pair.one, pair.two, lost);
    if work.trail.has(other) {
        let entry = Entry {
            place,
            blocker: other,
        };
        work.watches.note(lost, index, entry);
        return Ok(None);
    }
    if let Some(one) = another(work, place as usize, pair, other) {
        if work.trail.has(one) {
            let entry = Entry {
                place,
                blocker: one,
            };
            work.watches.note(lost, index, entry);
            return Ok(None);
        }
        work.watches.turn(lost, index, place, one, other)?;
        return Ok(None);
    }
    if work.trail.has(other.flip()) {
        return Ok(Some(place as usize));
    }
    work.trail.push(other, Some(place + 1))?;
    Ok(None)
}

/// Visits an entry of the list of a literal that became false: its clause, unless the entry's blocker is true.
fn visit(work: &mut Work, lost: Lit, index: usize) -> Result<Option<usize>, NoMemory>
    requires visiting { IsVisiting work.old lost (index + 1) }
    requires few { length work.old.clauses < 2147483647 }
    ensures working { OnOk result (IsWorking work.new) }
    ensures looked { work.new.looked ≡ work.old.looked }
    ensures advanced { OnOk result (HasAdvanced work.old work.new) }
    ensures visiting { IfOk result (λ answer. IfNone answer (IsVisiting work.new lost index)) }
    ensures conflict { IfOk result (λ answer. IfSome answer (IsConflictAt work.new.clauses (known_by work.new.trail.values))) }
{
    let entry = work.watches.listed(lost, index);
    if work.trail.has(entry.blocker) {
        return Ok(None);
    }
    visit_clause(work, lost, index, entry.place)
}

/// Looks at the oldest value that was not looked at. It stays a call, so that a profile can count what is looked at.
#[inline(never)]
fn look_at_next(work: &mut Work) -> Result<Option<usize>, NoMemory>
    requires working { IsWorking work.old }
    requires few { length work.old.clauses < 2147483647 }
    requires settled { length work.old.clauses ≤ count work.old.watches }
    requires some { work.old.looked < length work.old.trail.values }
    requires room { work.old.looked + 1 < 18446744073709551616 }
    ensures working { OnOk result (IsWorking work.new) }
    ensures settled { IfOk result (λ answer. IfNone answer (length work.new.clauses ≤ count work.new.watches)) }
    ensures advanced { OnOk result (HasAdvanced work.old work.new) }
    ensures looked { IfOk result (λ answer. IfNone answer (work.new.looked ≡ work.old.looked + 1)) }
    ensures conflict { IfOk result (λ answer. IfSome answer (IsConflictAt work.new.clauses (known_by work.new.trail.values))) }
{
    let lost = work.trail.value(work.looked).lit.flip();
    let mut index = work.watches.list_len(lost);
    while index > 0 {
        index -= 1;
        if let Some(conflict) = visit(work, lost, index)? {
            return Ok(Some(conflict));
        }
    }
    work.looked += 1;
    Ok(None)
}

/// Adds what clauses force until each rests, or one is in conflict: its place is the answer.
pub fn propagate(work: &mut Work) -> Result<Option<usize>, NoMemory>
    requires working { IsWorking work.old }
    requires few { length work.old.clauses < 2147483647 }
    ensures working { OnOk result (IsWorking work.new) }
    ensures advanced { OnOk result (HasAdvanced work.old work.new) }
    ensures quiet { IfOk result (λ answer. IfNone answer (IsQuiet work.new)) }
    ensures rests { IfOk result (λ answer. IfNone answer (AllRest work.new.clauses (known_by work.new.trail.values))) }
    ensures conflict { IfOk result (λ answer. IfSome answer (IsConflictAt work.new.clauses (known_by work.new.trail.values))) }
{
    if let Some(conflict) = settle_rest(work)? {
        return Ok(Some(conflict));
    }
    while work.looked < work.trail.len() {
        if let Some(conflict) = look_at_next(work)? {
            return Ok(Some(conflict));
        }
    }
    Ok(None)
}

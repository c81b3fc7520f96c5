//! Analysis of a conflict: a clause that it shows, with the hints by which replay accepts it.
ghost use Rattle.std.specs.Prelude.{◌≡◌, ◌⊎◌, ℕ, ◌+◌, ◌<◌, ◌≤◌, ◌∷◌, [], OnOk, IfSome, IfNone, true, false, All, List, length, map, pos, Some};
ghost use Rattle.clause_core.specs.Literal.{Literal, flip, has};
ghost use Rattle.clause_core.specs.Formula.{IsOver};
ghost use Rattle.lrat_replay.specs.Book.{run, denied, Accepted};
ghost use Rattle.clause_solver.specs.Trail.{known_by, IsFresh, AreFresh, IsVariableOf, oldest, before_last, has_decision};
ghost use Rattle.clause_solver.specs.declared.value.Value.{Value};
ghost use Rattle.clause_solver.specs.Plain.{HaveReasons, IsConflictAt, AllRest, at_of};
ghost use Rattle.clause_solver.specs.Met.{seen_of, room};
ghost use Rattle.clause_solver.specs.Analysis.{IsWitness, IsSomeSeen, IsNoneSeen, MayResolve, MayKeep, IsAsserting, IsAnchor, IsLed};

use crate::met::Met;
use crate::order::Order;
use crate::trail::Trail;
use clause_core::clauses::Clauses;
use clause_core::lit::Lit;
use std::alloc::Global;
use wire_io::fault::NoMemory;

/// What an analysis works on and comes to, kept from one to the next for its room: the places that were met; a learned clause
/// with its hints, and these as a ledger takes them; and how many of the oldest values stay at least.
#[derive(Drop)]
pub struct Analysis {
    pub met: Met,
    pub clause: Vec<Lit>,
    pub hints: Vec<u32>,
    pub signed: Vec<i32>,
    pub after: usize,
}

impl Analysis {
    /// Before the first conflict.
    pub fn new(alloc: Global) -> Analysis {
        Analysis {
            met: Met::new(alloc),
            clause: Vec::new(alloc),
            hints: Vec::new(alloc),
            signed: Vec::new(alloc),
            after: 0,
        }
    }

    /// Before a conflict under so many values.
    fn begin(&mut self, count: usize) -> Result<(), NoMemory>
        ensures room { OnOk result (count ≤ room self.new.met) }
        ensures clause { OnOk result (self.new.clause.items ≡ []) }
        ensures hints { OnOk result (self.new.hints.items ≡ []) }
        ensures after { OnOk result (self.new.after ≡ 0) }
    {
        self.met.begin(count)?;
        self.clause.clear();
        self.hints.clear();
        self.after = 0;
        Ok(())
    }
}

/// Meets the place of a value; its variable gains activity where that was not met.
fn meet(order: &mut Order, trail: &Trail, met: &mut Met, lit: Lit)
    requires known { known_by trail.now.values lit ≡ true }
    requires variable { IsVariableOf trail.now.vars lit }
    requires room { length trail.now.values ≤ room met.old }
    ensures kept { (x : Literal) → seen_of met.old trail.now.values x ≡ true → seen_of met.new trail.now.values x ≡ true }
    ensures marked { seen_of met.new trail.now.values lit ≡ true }
    ensures room { room met.new ≡ room met.old }
{
    let place = trail.place(lit);
    if met.has(place) {
        return;
    }
    order.bump(lit.var());
    met.add(place);
}

/// Meets the complements of the literals of a clause in conflict.
fn mark(order: &mut Order, trail: &Trail, met: &mut Met, clause: &[Lit])
    requires over { IsOver trail.now.vars clause.now }
    requires is_false { (l : Literal) → has clause.now l ≡ true → known_by trail.now.values (flip l) ≡ true }
    requires room { length trail.now.values ≤ room met.old }
    ensures marked { (l : Literal) → has clause.now l ≡ true → seen_of met.new trail.now.values (flip l) ≡ true }
    ensures room { room met.new ≡ room met.old }
{
    for lit in clause {
        meet(order, trail, met, lit.flip());
    }
}

/// Meets the complement of a literal of the clause that forced one; the variable of that one gains activity.
fn meet_other(order: &mut Order, trail: &Trail, met: &mut Met, lit: Lit, one: Lit)
    requires known { (one ≡ lit) ⊎ (known_by trail.now.values (flip lit) ≡ true) }
    requires variable { IsVariableOf trail.now.vars lit }
    requires room { length trail.now.values ≤ room met.old }
    ensures kept { (x : Literal) → seen_of met.old trail.now.values x ≡ true → seen_of met.new trail.now.values x ≡ true }
    ensures marked { (one ≡ lit) ⊎ (seen_of met.new trail.now.values (flip lit) ≡ true) }
    ensures room { room met.new ≡ room met.old }
{
    if lit.is(one) {
        order.bump(lit.var());
        return;
    }
    meet(order, trail, met, lit.flip());
}

/// Meets the complements of the other literals of the clause that forced one; the variable of that one gains activity too.
fn mark_others(order: &mut Order, trail: &Trail, met: &mut Met, clause: &[Lit], one: Lit)
    requires over { IsOver trail.now.vars clause.now }
    requires others { (l : Literal) → has clause.now l ≡ true → (one ≡ l) ⊎ (known_by trail.now.values (flip l) ≡ true) }
    requires room { length trail.now.values ≤ room met.old }
    ensures kept { (x : Literal) → seen_of met.old trail.now.values x ≡ true → seen_of met.new trail.now.values x ≡ true }
    ensures marked { (l : Literal) → has clause.now l ≡ true → (one ≡ l) ⊎ (seen_of met.new trail.now.values (flip l) ≡ true) }
    ensures room { room met.new ≡ room met.old }
{
    for lit in clause {
        meet_other(order, trail, met, *lit, one);
    }
}

/// The place of a value that was met, from `start` on and before a place: the one that is known, or the newest one.
fn seen_before(trail: &Trail, met: &Met, start: usize, place: usize, known: usize) -> Option<usize>
    requires fresh { AreFresh trail.now.values }
    requires order { start ≤ place }
    requires within { place < length trail.now.values }
    requires known { IsWitness trail.now.values (seen_of met.now trail.now.values) start place known }
    ensures some { IfSome result (λ other. IsSomeSeen (known_by (oldest start trail.now.values)) (oldest place trail.now.values) (seen_of met.now trail.now.values)) }
    ensures at { IfSome result (IsWitness trail.now.values (seen_of met.now trail.now.values) start place) }
    ensures none { IfNone result (IsNoneSeen (known_by (oldest start trail.now.values)) (oldest place trail.now.values) (seen_of met.now trail.now.values)) }
{
    if start <= known && known < place {
        return Some(known);
    }
    let mut below = place;
    while below > start {
        below -= 1;
        if met.has(below) {
            return Some(below);
        }
    }
    None
}

/// Whether each literal of a clause but one has a complement that was met, or is one of so many oldest values.
fn is_covered(trail: &Trail, met: &Met, fixed: usize, clause: &[Lit], one: Lit) -> bool
    requires { IsOver trail.now.vars clause.now }
{
    for lit in clause {
        if !lit.is(one) {
            let place = trail.place(lit.flip());
            if place >= fixed && !met.has(place) {
                return false;
            }
        }
    }
    true
}

/// The reason of the value at a place, of an older level, if all its other literals stand in the learned clause, or are false for good.
fn reason_to_drop(
    order: &Order,
    trail: &Trail,
    clauses: &Clauses,
    met: &Met,
    place: usize,
) -> Option<u32>
    requires over { All (IsOver trail.now.vars) clauses.now }
    requires within { place < length trail.now.values }
    ensures { IfSome result (λ id. (value : Value) → oldest (place + 1) trail.now.values ≡ value ∷ oldest place trail.now.values → value.reason ≡ Some id) }
{
    let value = trail.value(place);
    let id = value.reason?;
    let number = id as usize;
    if number == 0 || number > clauses.len() {
        return None;
    }
    let clause = clauses.clause(number - 1);
    if is_covered(trail, met, order.fixed(), clause, value.lit) {
        Some(id)
    } else {
        None
    }
}

/// The reason on which the value at a place, which was met, is resolved, if it is not kept: at level zero always; at the
/// last level, which begins at `start`, while another value of it was met; at the others where that adds no literal.
fn reason_to_resolve(
    order: &Order,
    trail: &Trail,
    clauses: &Clauses,
    met: &Met,
    start: usize,
    place: usize,
    known: &mut usize,
) -> Option<u32>
    requires fresh { AreFresh trail.now.values }
    requires over { All (IsOver trail.now.vars) clauses.now }
    requires last { start < length trail.now.values }
    requires newest { before_last trail.now.values ≡ oldest start trail.now.values }
    requires within { place < length trail.now.values }
    requires known { IsWitness trail.now.values (seen_of met.now trail.now.values) start place known.old }
    ensures known { IsWitness trail.now.values (seen_of met.now trail.now.values) start place known.new }
    ensures resolves { IfSome result (λ id. (value : Value) → oldest (place + 1) trail.now.values ≡ value ∷ oldest place trail.now.values → MayResolve (known_by (oldest start trail.now.values)) (oldest place trail.now.values) (seen_of met.now trail.now.values) value id) }
    ensures keeps { IfNone result ((value : Value) → oldest (place + 1) trail.now.values ≡ value ∷ oldest place trail.now.values → MayKeep (known_by (oldest start trail.now.values)) (oldest place trail.now.values) (seen_of met.now trail.now.values) value.lit) }
{
    let value = trail.value(place);
    if place < start {
        if place < order.fixed() {
            return value.reason;
        }
        return reason_to_drop(order, trail, clauses, met, place);
    }
    match seen_before(trail, met, start, place, *known) {
        None => None,
        Some(other) => {
            *known = other;
            value.reason
        }
    }
}

/// How many of the oldest values stay at least, where one more literal is kept: up to the second one that is kept.
fn values_after(kept: usize, after: usize, place: usize) -> usize
    requires { place + 1 < 18446744073709551616 }
    ensures { ((kept ≡ 1) × (result ≡ place + 1)) ⊎ ((kept ≡ 1 → ⊥) × (result ≡ after)) }
{
    if kept == 1 { place + 1 } else { after }
}

/// The clause at the first point at which one literal of the last level is left. The last level begins at `start`;
/// values of level zero are resolved on their reasons, so these are among the hints.
pub fn analyse(
    order: &mut Order,
    trail: &Trail,
    clauses: &Clauses,
    analysis: &mut Analysis,
    conflict: usize,
    start: usize,
) -> Result<(), NoMemory>
    requires over { All (IsOver trail.now.vars) clauses.now }
    requires few { length clauses.now < 2147483647 }
    requires reasons { HaveReasons clauses.now trail.now.values }
    requires conflict { IsConflictAt clauses.now (known_by trail.now.values) conflict }
    requires last { start < length trail.now.values }
    requires newest { before_last trail.now.values ≡ oldest start trail.now.values }
    requires decided { has_decision trail.now.values ≡ true }
    ensures accepted { OnOk result (run (at_of clauses.now) (denied analysis.new.clause.items) (map pos analysis.new.hints.items) ≡ Accepted) }
    ensures numbers { OnOk result (All (λ id. (0 < id) × (id ≤ length clauses.now)) analysis.new.hints.items) }
    ensures is_false { OnOk result ((l : Literal) → has analysis.new.clause.items l ≡ true → known_by trail.now.values (flip l) ≡ true) }
    ensures asserts { OnOk result (IsAsserting (known_by (oldest start trail.now.values)) analysis.new.clause.items) }
    ensures over { OnOk result (IsOver trail.now.vars analysis.new.clause.items) }
    ensures led { OnOk result (IsLed trail.now.values start analysis.new.clause.items analysis.new.after) }
    ensures anchor { OnOk result (IsAnchor trail.now.values analysis.new.clause.items analysis.new.after) }
{
    let mut place = trail.len();
    let mut known = place;
    analysis.begin(place)?;
    mark(order, trail, &mut analysis.met, clauses.clause(conflict));
    analysis.hints.push(conflict as u32 + 1)?;
    while place > 0 {
        place -= 1;
        if analysis.met.has(place) {
            let value = trail.value(place);
            let met = &analysis.met;
            let reason = reason_to_resolve(order, trail, clauses, met, start, place, &mut known);
            match reason {
                Some(id) => {
                    let clause = clauses.clause(id as usize - 1);
                    mark_others(order, trail, &mut analysis.met, clause, value.lit);
                    analysis.hints.push(id)?;
                }
                None => {
                    analysis.after = values_after(analysis.clause.len(), analysis.after, place);
                    analysis.clause.push(value.lit.flip())?;
                }
            }
        }
    }
    analysis.hints.reverse();
    Ok(())
}

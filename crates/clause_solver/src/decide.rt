//! Decisions.
ghost use Rattle.std.specs.Prelude.{◌≡◌, ◌⊎◌, ◌≤◌, ◌+◌, IfSome, IfNone, true};
ghost use Rattle.clause_core.specs.Literal.{Literal, flip};
ghost use Rattle.clause_solver.specs.Trail.{known_by, IsFresh, IsVariableOf, AreValued};

use crate::order::Order;
use crate::trail::Trail;
use clause_core::lit::Lit;
use wire_io::fault::NoMemory;

/// The least variable without value, if there is one.
pub fn least_unassigned(trail: &Trail) -> Option<Lit>
    ensures variable { IfSome result (IsVariableOf trail.now.vars) }
    ensures fresh { IfSome result (IsFresh (known_by trail.now.values)) }
    ensures none { IfNone result (AreValued trail.now.vars (known_by trail.now.values)) }
{
    for before in 0..trail.vars() {
        let lit = Lit::new(before + 1, false);
        if !trail.has(lit) && !trail.has(lit.flip()) {
            return Some(lit);
        }
    }
    None
}

/// A variable as it is decided, if it is one without value.
fn without_value(order: &Order, trail: &Trail, var: u32) -> Option<Lit>
    ensures variable { IfSome result (IsVariableOf trail.now.vars) }
    ensures fresh { IfSome result (IsFresh (known_by trail.now.values)) }
{
    if var == 0 || var > trail.vars() {
        return None;
    }
    let lit = Lit::new(var, order.negated(var));
    if trail.has(lit) || trail.has(lit.flip()) {
        return None;
    }
    Some(lit)
}

/// The first variable of the order without value, as it is decided.
fn first_unassigned(order: &mut Order, trail: &Trail) -> Option<Lit>
    ensures variable { IfSome result (IsVariableOf trail.now.vars) }
    ensures fresh { IfSome result (IsFresh (known_by trail.now.values)) }
{
    for _ in 0..order.len() {
        let var = order.take()?;
        if let Some(lit) = without_value(order, trail, var) {
            return Some(lit);
        }
    }
    None
}

/// A variable without value, if there is one: the first one of the order.
pub fn unassigned(order: &mut Order, trail: &Trail) -> Option<Lit>
    ensures variable { IfSome result (IsVariableOf trail.now.vars) }
    ensures fresh { IfSome result (IsFresh (known_by trail.now.values)) }
    ensures none { IfNone result (AreValued trail.now.vars (known_by trail.now.values)) }
{
    match first_unassigned(order, trail) {
        Some(lit) => Some(lit),
        None => least_unassigned(trail),
    }
}

/// Notes the values that are taken back, where so many are kept.
pub fn release(order: &mut Order, trail: &Trail, keep: usize) -> Result<(), NoMemory> {
    for place in keep..trail.len() {
        order.release(trail.value(place).lit)?;
    }
    order.go_back(keep);
    Ok(())
}

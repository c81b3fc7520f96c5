//! Where levels begin: the decisions of a trail.
ghost use Rattle.std.specs.Prelude.{◌≡◌, ◌⊎◌, ◌<◌, ◌≤◌, true, false, length, IfSome, IfNone};
ghost use Rattle.clause_solver.specs.Trail.{oldest, before_last, has_decision, AreFresh, IsDecidedAt};

use crate::trail::Trail;

/// The first place from one on and before another at which a value was decided, or that other place.
pub fn next_decision(trail: &Trail, from: usize, end: usize) -> usize
    requires order { from ≤ end }
    requires inside { end ≤ length trail.now.values }
    ensures from { from ≤ result }
    ensures within { result ≤ end }
    ensures before { before_last (oldest result trail.now.values) ≡ before_last (oldest from trail.now.values) }
    ensures decided { has_decision (oldest result trail.now.values) ≡ has_decision (oldest from trail.now.values) }
    ensures ends { (result ≡ end) ⊎ IsDecidedAt trail.now.values result }
{
    for place in from..end {
        if trail.value(place).reason.is_none() {
            return place;
        }
    }
    end
}

/// The place of the newest decision.
pub fn last_decision(trail: &Trail) -> Option<usize>
    ensures within { IfSome result (λ place. place < length trail.now.values) }
    ensures before { IfSome result (λ place. before_last trail.now.values ≡ oldest place trail.now.values) }
    ensures at { IfSome result (IsDecidedAt trail.now.values) }
    ensures some { IfSome result (λ place. has_decision trail.now.values ≡ true) }
    ensures none { IfNone result (has_decision trail.now.values ≡ false) }
    ensures fresh { AreFresh trail.now.values }
{
    let mut place = trail.len();
    while place > 0 {
        place -= 1;
        if trail.value(place).reason.is_none() {
            return Some(place);
        }
    }
    None
}

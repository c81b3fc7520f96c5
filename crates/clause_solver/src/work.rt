//! What a search works on.
use crate::trail::Trail;
use crate::watch::Watches;
use clause_core::clauses::Clauses;
use lrat_replay::marks::Marks;

/// The ledger's clauses, each at the place before its identifier; the trail; marks for a refutation; which clauses watch which literals;
/// and how many of the oldest values were looked at since they came.
#[derive(Drop)]
pub struct Work {
    pub clauses: Clauses,
    pub trail: Trail,
    pub seen: Marks,
    pub watches: Watches,
    pub looked: usize,
}

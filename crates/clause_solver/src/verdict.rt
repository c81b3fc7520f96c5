//! What a call of a solver answers.
use clause_core::valuation::Valuation;

/// What a solver found.
#[derive(Drop)]
pub enum Verdict {
    /// The valuation satisfies the formula.
    Satisfied(Valuation),
    /// No valuation does: the last step of the ledger is the empty clause.
    Refuted,
    /// As many clauses were learned as the budget allows.
    Spent,
}

/// Why a solver stopped.
#[derive(Clone, Copy, Debug, PartialEq, Eq)]
pub enum SolveFault {
    /// The ledger failed.
    Ledger,
    /// There was no memory.
    NoMemory,
    /// An earlier call stopped for the ledger or for want of memory.
    Over,
}

/// Where a solver stands.
#[derive(Clone, Copy, Debug, PartialEq, Eq)]
pub enum Stage {
    /// A further call goes on.
    Open,
    /// A valuation was found that satisfies the formula.
    Satisfied,
    /// The formula was refuted.
    Refuted,
    /// A call stopped for the ledger or for want of memory.
    Failed,
}

//! Literals, clauses, formulas and valuations, and CNF text.
#![tactic(auto)]

ghost use Rattle.clause_core.specs.Literal.{IsByVariableAndSign, HasItsLiterals};
ghost use Rattle.clause_core.specs.RoundTrip.{IsRoundTrip};

pub mod clauses;
mod draft;
pub mod formula;
pub mod lit;
pub mod number;
pub mod read;
pub mod refusal;
pub mod rows;
pub mod text;
pub mod valuation;
pub mod write;

/// What is written is read, of all formulas within the limits of a read text.
pub fn round_trip()
    ensures { IsRoundTrip }
{}

/// What literals and clauses are, whatever stands for them in memory.
pub fn literal_meaning()
    ensures literal { IsByVariableAndSign }
    ensures clause { HasItsLiterals }
{}

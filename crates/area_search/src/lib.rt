//! The search for a lattice of least area: questions of single shapes, one after another.
#![tactic(auto)]

pub mod fault;
pub mod least;
mod progress;
mod search;
mod start;

//! Rows of runs, for the crates that hold tables of them.
#![tactic(auto)]

pub mod row;

//! Assignments of values to inputs, products of literals, sets of assignments, and functions that are given by such sets.
#![tactic(auto)]

pub mod assign;
pub mod cube;
pub mod spec;
pub mod table;
mod word;

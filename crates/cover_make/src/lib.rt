//! Covers: lists of cubes that have the assignments of a set, and no assignment outside a larger one.
#![tactic(auto)]

pub mod cover;
pub mod cubes;

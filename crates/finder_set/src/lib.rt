//! Heuristics that propose lattices and are not trusted.
#![tactic(auto)]

pub mod finder;
pub mod fold;
mod folded;
pub mod improve;
mod shrink;
pub mod slot;
mod split;
pub mod split_and;
pub mod split_or;
mod trial;
pub mod trim;

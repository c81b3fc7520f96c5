//! Lattices put together, and lattices without one of their rows or columns.
#![tactic(auto)]

pub mod compose;
mod drawn;
pub mod without;

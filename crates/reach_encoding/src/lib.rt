//! The formula whose solutions are the lattices of a size that realise a function.
#![tactic(auto)]

pub mod decode;
pub mod encode;
mod flood;
pub mod laws;
mod line;
pub mod model;
mod task;

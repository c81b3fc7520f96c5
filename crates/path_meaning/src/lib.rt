//! Which lattices join their plates, and the laws of paths and cuts.
#![tactic(auto)]

pub mod cells;
mod flood;
pub mod laws;
pub mod marks;
pub mod paths;
pub mod realise;
mod stamps;

//! Arrays some of whose switches are stuck: their text, and a lattice placed on one.
#![tactic(auto)]

pub mod laws;
mod line;
pub mod place;
pub mod read;
mod rows;

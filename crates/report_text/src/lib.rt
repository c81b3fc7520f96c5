//! The text of a report: what is known of the lattice of each output.
#![tactic(auto)]

pub mod answer;
pub mod array;
pub mod block;
mod form;
mod heading;
mod line;
pub mod report;
pub mod shape;
pub mod text;
pub mod write;

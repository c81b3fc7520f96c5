//! Rectangles of switches, what they join, and the lattice of pairs.
#![tactic(auto)]

pub mod array;
pub mod columns;
pub mod control;
mod drawn;
pub mod grid;
pub mod laws;
pub mod neighbours;
pub mod pairs;
pub mod rails;
mod repeat;
pub mod rising;
pub mod shape;
pub mod start;
mod told;

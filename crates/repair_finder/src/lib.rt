//! A finder that mends lattices from which a line was taken.
#![tactic(auto)]

mod aim;
mod block;
mod change;
mod cut;
mod folding;
mod lines;
mod mend;
mod probe;
pub mod repair;
mod sketch;

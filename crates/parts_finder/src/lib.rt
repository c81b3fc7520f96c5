//! A finder that puts lattices together from those of parts of a function.
#![tactic(auto)]

mod anneal;
mod bits;
mod choice;
mod classes;
mod front;
mod join;
mod memo;
mod part;
pub mod parts;
mod picture;
mod products;
mod shrunk;
mod solve;
mod tester;

//! PLA texts: what they hold, and what that means.
#![tactic(auto)]

mod fault;
mod given;
pub mod kind;
pub mod laws;
mod line;
pub mod marked;
pub mod name;
mod names;
mod number;
pub mod pla;
mod row;
mod saying;
mod word;

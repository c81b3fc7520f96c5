//! The lattice that is made from a cover of a function and a cover of what that one leaves.
#![tactic(auto)]

pub mod dual;

//! What told inputs come to.
#![tactic(auto)]

pub mod law;

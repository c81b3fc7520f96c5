//! What finders of lattices share: the test of what they propose, lattices flooded at 64 assignments at once, and numbers that
//! look drawn at random. Floods are not promised to be right.
#![tactic(auto)]

pub mod flood;
pub mod proposal;
pub mod random;
pub mod words;

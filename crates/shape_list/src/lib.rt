//! Shapes that fit inside one another, and what a list of shapes covers.
#![tactic(auto)]

pub mod fitting;
pub mod refuted;
pub mod stair;

//! The functions on which `trial` tries the search: a PLA text made from a number.
#![tactic(auto)]

pub mod laws;
pub mod made;
mod plane;

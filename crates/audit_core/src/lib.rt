//! Journals are tested against a PLA: each section by replay, each answer by its lattice and the sections before it.
#![tactic(auto)]

mod answer;
mod asked;
pub mod audit;
mod begin;
pub mod laws;
mod lists;
mod part;
pub mod refusal;
pub mod renew;
mod same;
mod section;
pub mod text;

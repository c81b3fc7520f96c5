//! Journals at concrete texts, the solver over sections of journals in memory, single questions, and searches for lattices of
//! least area.
#![tactic(auto)]

#[cfg(test)]
mod functions;
#[cfg(test)]
mod journals;
#[cfg(test)]
mod questions;
#[cfg(test)]
mod searches;
#[cfg(test)]
mod sections;

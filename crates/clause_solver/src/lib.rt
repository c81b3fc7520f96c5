//! Search for a valuation, with each learned clause as a step of a ledger.
#![tactic(auto)]

mod analyse;
mod conflict;
mod decide;
mod learn;
mod level;
mod met;
mod model;
mod order;
#[cfg(test)]
mod plain;
mod propagate;
mod refute;
mod restart;
mod search;
pub mod solver;
#[cfg(test)]
mod tests;
mod trail;
mod value;
pub mod verdict;
mod watch;
mod work;

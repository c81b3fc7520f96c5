//! Runs of the command `map`.
#![tactic(auto)]

#[cfg(test)]
mod map;

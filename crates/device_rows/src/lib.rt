//! Runs over devices of which each call fails in turn.
#![tactic(auto)]

#[cfg(test)]
mod devices;

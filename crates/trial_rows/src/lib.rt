//! Runs of the command `trial`.
#![tactic(auto)]

#[cfg(test)]
mod trial;

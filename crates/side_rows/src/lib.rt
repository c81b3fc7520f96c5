//! Runs of the commands that test a side file, `verify` and `check`.
#![tactic(auto)]

#[cfg(test)]
mod check;
#[cfg(test)]
mod verify;

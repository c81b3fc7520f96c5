//! Runs of the commands that read a journal, `audit` and `renew`.
#![tactic(auto)]

#[cfg(test)]
mod audit;
#[cfg(test)]
mod own;
#[cfg(test)]
mod parity;
#[cfg(test)]
mod renew;

//! Replay of clause proofs at concrete formulas, and LRAT lines.
#![tactic(auto)]

#[cfg(test)]
mod replays;

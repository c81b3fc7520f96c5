//! The process of the program: its words, its devices and its finders, and the status with which it ends.
#![tactic(auto)]

mod devices;
mod exit;
pub mod start;
#[cfg(test)]
mod tests;
mod words;

//! Maps each output of a PLA onto a rectangle of switches.
#![tactic(auto)]

mod audit;
mod check;
mod encoding;
pub mod ending;
mod inputs;
mod lattices;
mod map;
mod notes;
mod renew;
pub mod run;
pub mod status;
mod synth;
mod tally;
mod trial;
pub mod verify;
pub mod words;

//! Runs of the command `synth`, with finders and without.
#![tactic(auto)]

#[cfg(test)]
mod finders;
#[cfg(test)]
mod large;
#[cfg(test)]
mod synth;

//! Finders of our own at concrete functions: how many cells they leave.
#![tactic(auto)]

#[cfg(test)]
mod functions;
#[cfg(test)]
mod parts;
#[cfg(test)]
mod repairs;

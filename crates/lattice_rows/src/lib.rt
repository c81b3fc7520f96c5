//! Runs of the commands that write lattices and formulas, the words, and the devices of the process.
#![tactic(auto)]

#[cfg(test)]
mod cnf;
#[cfg(test)]
mod devices;
#[cfg(test)]
mod dual;
#[cfg(test)]
mod faults;
#[cfg(test)]
mod pairs;
#[cfg(test)]
mod words;

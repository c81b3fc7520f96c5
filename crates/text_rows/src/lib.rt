//! Reports, PLA texts made from a number, arrays with lattices placed on them, and formulas, at concrete texts.
#![tactic(auto)]

#[cfg(test)]
mod arrays;
#[cfg(test)]
mod formulas;
#[cfg(test)]
mod reports;
#[cfg(test)]
mod trials;

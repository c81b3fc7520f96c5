//! Calls that may want memory, each by itself with as much as it asks for.
#![tactic(auto)]

#[cfg(test)]
mod tests;

//! Finders that propose nonsense, nothing, or cannot be begun, and what is made of what they propose; finders of the kit, what
//! finders share, and lattices put together, at concrete lattices.
#![tactic(auto)]

#[cfg(test)]
mod compositions;
#[cfg(test)]
mod functions;
#[cfg(test)]
mod hostile;
#[cfg(test)]
mod kit;
#[cfg(test)]
mod tools;

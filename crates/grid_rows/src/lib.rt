//! Lattices, paths, rails, shapes and encodings at concrete values.
#![tactic(auto)]

#[cfg(test)]
mod encoding;
#[cfg(test)]
mod functions;
#[cfg(test)]
mod lattices;
#[cfg(test)]
mod paths;
#[cfg(test)]
mod rails;
#[cfg(test)]
mod shapes;

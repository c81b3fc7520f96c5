//! The values of a trail.
use clause_core::lit::Lit;

/// A literal that is true, with its reason: the identifier of the clause that forced it, or none where it was decided.
#[derive(Clone, Copy, Debug)]
pub struct Value {
    pub lit: Lit,
    pub reason: Option<u32>,
}

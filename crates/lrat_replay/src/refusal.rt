//! Why an LRAT text is refused.

/// Why an LRAT text is refused, and on which line, from 1 on.
#[derive(Clone, Copy, Debug, PartialEq, Eq)]
pub enum LratRefusal {
    /// A word is neither `d` nor a signed number of a magnitude below 2 to the power of 31.
    Word { line: u32 },
    /// The words are neither an addition nor a deletion.
    Form { line: u32 },
    /// There was no memory.
    NoMemory,
}

//! Why a CNF text is refused.

/// Why a CNF text is refused, and on which line, from 1 on.
#[derive(Clone, Copy, Debug, PartialEq, Eq)]
pub enum CnfRefusal {
    /// The header is not there or has not its form, or a second line begins with `p`.
    Header { line: u32 },
    /// A word is no signed number, or its variable is above those of the header.
    Literal { line: u32 },
    /// There are more or fewer clauses than the header says.
    Count { line: u32 },
    /// The last clause has no 0.
    Unended { line: u32 },
    /// There are more than 67,108,864 bytes.
    TooLong,
    /// The header says more than 16,777,216 variables or 1,073,741,824 clauses.
    TooLarge { line: u32 },
    /// There was no memory.
    NoMemory,
}

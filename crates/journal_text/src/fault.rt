//! Why a question was not written.

/// Why a question was not written.
#[derive(Clone, Copy, Debug, PartialEq, Eq)]
pub enum JournalFault {
    /// The sink failed.
    Sink,
    /// There was no memory.
    NoMemory,
}

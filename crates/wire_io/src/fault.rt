//! The faults of a call that reads, writes or takes memory.
use std::alloc::{AllocError, AllocFailed};

/// A device failed.
#[derive(Clone, Copy, Debug, PartialEq, Eq)]
pub struct Failed;

/// There was no memory for the call.
#[derive(Clone, Copy, Debug, PartialEq, Eq)]
pub struct NoMemory;

impl From<AllocError> for NoMemory {
    fn from(_: AllocError) -> Self {
        NoMemory
    }
}

impl<T: Drop> From<AllocFailed<T>> for NoMemory {
    fn from(_: AllocFailed<T>) -> Self {
        NoMemory
    }
}

/// Why a source could not be read to its end.
#[derive(Clone, Copy, Debug, PartialEq, Eq)]
pub enum ReadFault {
    /// The source failed.
    Fault,
    /// The source has more bytes than the limit.
    TooLong,
    /// There was no memory for the bytes.
    NoMemory,
}

/// The refusal of a call that took a value: why, and the device that the value held.
#[derive(Clone, Copy, Debug, PartialEq, Eq, Drop)]
pub struct Stopped<F, T> {
    pub fault: F,
    pub held: T,
}

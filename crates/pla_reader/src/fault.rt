//! The faults of lines.
ghost use Rattle.std.specs.Prelude.{◌≡◌};
ghost use Rattle.pla_reader.specs.declared.fault.Stop.TheVariants.{Fault, NoMemory};
ghost use Rattle.pla_reader.specs.Reading.{refusal_at};

use crate::pla::PlaRefusal;
use std::alloc::AllocFailed;
use wire_io::fault::NoMemory as OutOfMemory;

/// What is wrong with a line.
#[derive(Clone, Copy, Debug, PartialEq, Eq)]
pub enum LineFault {
    BadByte,
    UnknownWord,
    Unsupported,
    Repeated,
    BadNumber,
    Late,
    Missing,
    Inputs,
    Outputs,
    RowLength,
    BadDigit,
    Names,
    TooManyRows,
}

/// Why a line was not taken.
#[derive(Clone, Copy, Debug, PartialEq, Eq)]
pub enum Stop {
    /// It has a fault.
    Fault(LineFault),
    /// There was no memory for what it gives.
    NoMemory,
}

impl From<LineFault> for Stop {
    ghost from_gives = { λ fault stop. stop ≡ Fault fault };

    fn from(fault: LineFault) -> Self {
        Stop::Fault(fault)
    }
}

impl From<OutOfMemory> for Stop {
    ghost from_gives = { λ _ stop. stop ≡ NoMemory };

    fn from(_: OutOfMemory) -> Self {
        Stop::NoMemory
    }
}

impl<T: Drop> From<AllocFailed<T>> for Stop {
    ghost from_gives = { λ _ stop. stop ≡ NoMemory };

    fn from(_: AllocFailed<T>) -> Self {
        Stop::NoMemory
    }
}

impl LineFault {
    /// The refusal of a text whose line of this number has the fault.
    pub fn at(self, line: u32) -> PlaRefusal
        ensures { result ≡ refusal_at self line }
    {
        match self {
            LineFault::BadByte => PlaRefusal::BadByte { line },
            LineFault::UnknownWord => PlaRefusal::UnknownWord { line },
            LineFault::Unsupported => PlaRefusal::Unsupported { line },
            LineFault::Repeated => PlaRefusal::Repeated { line },
            LineFault::BadNumber => PlaRefusal::BadNumber { line },
            LineFault::Late => PlaRefusal::Late { line },
            LineFault::Missing => PlaRefusal::Missing { line },
            LineFault::Inputs => PlaRefusal::Inputs { line },
            LineFault::Outputs => PlaRefusal::Outputs { line },
            LineFault::RowLength => PlaRefusal::RowLength { line },
            LineFault::BadDigit => PlaRefusal::BadDigit { line },
            LineFault::Names => PlaRefusal::Names { line },
            LineFault::TooManyRows => PlaRefusal::TooManyRows { line },
        }
    }
}

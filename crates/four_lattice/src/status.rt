//! The status of a process.
ghost use Rattle.std.specs.Prelude.{◌≡◌, ℕ};
ghost use Rattle.four_lattice.specs.Ending.{number_of};

/// How a run ends; the numbers are those of the process.
#[derive(Clone, Copy, Debug, PartialEq, Eq)]
pub enum Status {
    /// The work was done.
    Done,
    /// The words are no command.
    Words,
    /// The input is refused.
    Input,
    /// An input could not be read.
    ReadFault,
    /// An output could not be written.
    WriteFault,
    /// There was no memory.
    NoMemory,
    /// The side file is refused.
    Side,
    /// The work was done, and an answer is undecided.
    Undecided,
    /// The side file is not confirmed.
    Unconfirmed,
}

impl Status {
    /// The number of the status, from 0 to 8 in their order.
    pub fn number(self) -> u8
        ensures { result ≡ number_of self }
    {
        self as u8
    }
}

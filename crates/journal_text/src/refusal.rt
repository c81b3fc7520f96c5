//! Why a text is no journal.
ghost use Rattle.std.specs.Prelude.{◌≡◌};

use std::alloc::AllocFailed;
use wire_io::fault::NoMemory as OutOfMemory;

/// Why a text is refused: the first faulty line.
#[derive(Clone, Copy, Debug, PartialEq, Eq)]
pub enum JournalRefusal {
    /// It is not the first line of a journal.
    Header { line: u32 },
    /// It does not give the rails.
    Rails { line: u32 },
    /// Its first word is neither a word of journals nor a number.
    Word { line: u32 },
    /// A line that begins so cannot stand there: in a section, or outside of one.
    Order { line: u32 },
    /// It is not the line of a question, a closing line or the last line, as its first word says.
    Question { line: u32 },
    /// It is not the line of a step with hints above 0.
    Step { line: u32 },
    /// It is not the first line of an answer, or not the next row of its lattice.
    Block { line: u32 },
    /// It does not list the proofs of an answer.
    Proofs { line: u32 },
    /// It follows the last line.
    Trailing { line: u32 },
    /// It has no line feed.
    Truncated { line: u32 },
    /// There was no memory for the journal.
    NoMemory,
}

impl From<OutOfMemory> for JournalRefusal {
    ghost use Rattle.journal_text.specs.declared.refusal.JournalRefusal.TheVariants.{NoMemory};

    ghost from_gives = { λ _ refusal. refusal ≡ NoMemory };

    fn from(_: OutOfMemory) -> Self {
        JournalRefusal::NoMemory
    }
}

impl<T: Drop> From<AllocFailed<T>> for JournalRefusal {
    ghost use Rattle.journal_text.specs.declared.refusal.JournalRefusal.TheVariants.{NoMemory};

    ghost from_gives = { λ _ refusal. refusal ≡ NoMemory };

    fn from(_: AllocFailed<T>) -> Self {
        JournalRefusal::NoMemory
    }
}

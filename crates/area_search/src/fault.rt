//! Why a search stopped.
ghost use Rattle.std.specs.Prelude.{◌≡◌, ◌↔◌};

use journal_text::fault::JournalFault;
use wire_io::fault::Stopped;

/// Why a search stopped.
#[derive(Clone, Copy, Debug, PartialEq, Eq)]
pub enum SearchFault {
    /// The journal's sink failed.
    Sink,
    /// There was no memory.
    NoMemory,
}

/// A search that stopped for want of memory, and gives its sink back.
pub(crate) fn out_of_memory<K>(held: K) -> Stopped<SearchFault, K>
    ensures fault { result.fault ≡ SearchFault.NoMemory }
    ensures held { result.held ≡ held }
{
    Stopped {
        fault: SearchFault::NoMemory,
        held,
    }
}

/// A search that stopped where its question did.
pub(crate) fn question_stopped<K>(stopped: Stopped<JournalFault, K>) -> Stopped<SearchFault, K>
    ensures fault { (result.fault ≡ SearchFault.Sink) ↔ (stopped.fault ≡ JournalFault.Sink) }
    ensures held { result.held ≡ stopped.held }
{
    Stopped {
        fault: match stopped.fault {
            JournalFault::Sink => SearchFault::Sink,
            JournalFault::NoMemory => SearchFault::NoMemory,
        },
        held: stopped.held,
    }
}

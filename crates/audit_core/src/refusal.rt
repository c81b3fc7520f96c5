//! Why a journal is not right for a PLA.
ghost use Rattle.std.specs.Prelude.{◌≡◌};

use cube_core::assign::Assign;
use journal_text::refusal::JournalRefusal;
use lrat_replay::fault::StepFault;
use std::alloc::AllocFailed;
use wire_io::fault::NoMemory as OutOfMemory;

/// Why a journal is not right for a PLA: the first part that is not, and the first of what is wrong with it.
#[derive(Clone, Copy, Debug, PartialEq, Eq)]
pub enum AuditRefusal {
    /// A section or an answer is for no output, or an answer has not the output's name, or not a greater number than the answer before.
    Output { line: u32 },
    /// A lattice has a literal of an input that the PLA has not, or one that is not allowed.
    Literal { line: u32 },
    /// A lattice does not realise its output; this is the least assignment at which it fails.
    Wrong { line: u32, assign: Assign },
    /// Replay refuses a step.
    Step { line: u32, fault: StepFault },
    /// A section closes as refuted, and no step is empty.
    Unfinished { line: u32 },
    /// A section closes as spent, and its steps are not exactly so many new ones.
    Count { line: u32 },
    /// Some size below an answer's area fits inside none that was refuted.
    Uncovered { line: u32 },
    /// The section that an answer speaks of is not there.
    NoSection { line: u32 },
    /// A lattice is larger than the one with which a search begins.
    Large { line: u32 },
    /// A pair of assignments is not the first that no allowed literal tells apart.
    NoRails { line: u32 },
    /// An answer does not list its proofs.
    Proofs { line: u32 },
    /// There was no memory.
    NoMemory,
}

/// Why the text of a journal is not right for a PLA.
#[derive(Clone, Copy, Debug, PartialEq, Eq)]
pub enum TextRefusal {
    /// It is not the text of a journal.
    Form(JournalRefusal),
    /// It is, and the journal is not right.
    Audit(AuditRefusal),
}

impl From<OutOfMemory> for AuditRefusal {
    ghost use Rattle.audit_core.specs.declared.refusal.AuditRefusal.TheVariants.{NoMemory};

    ghost from_gives = { λ _ refusal. refusal ≡ NoMemory };

    fn from(_: OutOfMemory) -> Self {
        AuditRefusal::NoMemory
    }
}

impl<T: Drop> From<AllocFailed<T>> for AuditRefusal {
    ghost use Rattle.audit_core.specs.declared.refusal.AuditRefusal.TheVariants.{NoMemory};

    ghost from_gives = { λ _ refusal. refusal ≡ NoMemory };

    fn from(_: AllocFailed<T>) -> Self {
        AuditRefusal::NoMemory
    }
}

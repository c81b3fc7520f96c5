//! The audit of a journal.
ghost use Rattle.std.specs.Prelude.{◌≡◌, ◌≢◌, ◌⊎◌, ◌<◌, ◌≤◌, ◌^◌, All, length, map, IfOk, IfErr, OnOk, MatchResult};
ghost use Rattle.pla_reader.specs.Parts.{parts_of, IsPla};
ghost use Rattle.journal_text.specs.Bounds.{IsJournal, IsPart};
ghost use Rattle.journal_text.specs.Parts.{part_of, parts_of_journal};
ghost use Rattle.journal_text.specs.Text.{journal_text};
ghost use Rattle.audit_core.specs.Audit.{Audited, IsAuditRefused, AreRight, HasRefused};
ghost use Rattle.audit_core.specs.Tested.{basis_in};
ghost use Rattle.audit_core.specs.Confirmed.{confirmed_from};
ghost use Rattle.audit_core.specs.declared.refusal.AuditRefusal.{AuditRefusal};

use crate::answer::Basis;
use crate::part::Seen;
use crate::refusal::AuditRefusal;
use journal_text::journal::{Journal, Part};
use lattice_grid::rails::Rails;
use pla_reader::pla::Pla;
use std::alloc::Global;

/// An answer of a journal that is right: its output, and its place among the parts of the journal.
#[derive(Clone, Copy, Debug, PartialEq, Eq)]
pub struct Confirmed {
    pub output: u32,
    pub part: u32,
}

/// Tests each part after those before it.
fn test_parts(
    alloc: Global,
    basis: &Basis<'_>,
    parts: &[Part],
) -> Result<Vec<Confirmed>, AuditRefusal>
    requires pla { IsPla (parts_of basis.now.pla.now) }
    requires bounds { All (IsPart basis.now.version) (map part_of parts.now) }
    requires few { length parts.now < 2 ^ 32 }
    ensures confirmed { IfOk result (λ found. found.items ≡ confirmed_from 0 (map part_of parts.now)) }
    ensures right { OnOk result (AreRight (basis_in basis.now) (map part_of parts.now)) }
    ensures refused { IfErr result (λ refusal. refusal ≢ AuditRefusal.NoMemory → HasRefused (basis_in basis.now) parts.now refusal) }
{
    let mut seen = Seen::new(alloc, basis.pla.specs.len())?;
    for part in parts {
        if let Err(refusal) = seen.take(alloc, basis, part) {
            return Err(refusal);
        }
    }
    Ok(seen.confirmed)
}

/// Tests the parts of a journal with its rails.
fn test_journal(alloc: Global, pla: &Pla, journal: &Journal) -> Result<Vec<Confirmed>, AuditRefusal>
    requires pla { IsPla (parts_of pla.now) }
    requires journal { IsJournal (parts_of_journal journal.now) }
    requires few { length (journal_text (parts_of_journal journal.now)) ≤ 536870912 }
    ensures confirmed { IfOk result (λ found. found.items ≡ confirmed_from 0 (parts_of_journal journal.now).parts) }
    ensures audited { OnOk result (Audited (parts_of pla.now) (parts_of_journal journal.now)) }
    ensures refused { IfErr result (λ refusal. refusal ≢ AuditRefusal.NoMemory → IsAuditRefused (parts_of pla.now) journal.now refusal) }
{
    let rails = Rails::new(journal.rails).unwrap();
    let basis = Basis {
        pla,
        version: journal.version,
        rails,
    };
    test_parts(alloc, &basis, &journal.parts)
}

/// The answers of a journal that is right for a PLA, in order; or why it is not, at the first part that is not right:
/// each section is replayed, and each answer is tested against its function and the sections before it.
pub fn audit(alloc: Global, pla: &Pla, journal: &Journal) -> Result<Vec<Confirmed>, AuditRefusal>
    requires pla { IsPla (parts_of pla.now) }
    requires journal { IsJournal (parts_of_journal journal.now) }
    requires few { length (journal_text (parts_of_journal journal.now)) ≤ 536870912 }
    ensures confirmed { IfOk result (λ found. found.items ≡ confirmed_from 0 (parts_of_journal journal.now).parts) }
    ensures audited { OnOk result (Audited (parts_of pla.now) (parts_of_journal journal.now)) }
    ensures refused { IfErr result (λ refusal. refusal ≢ AuditRefusal.NoMemory → IsAuditRefused (parts_of pla.now) journal.now refusal) }
    // A journal that is right, or has a refusal, gets no other answer but want of memory.
    ensures only_audited { Audited (parts_of pla.now) (parts_of_journal journal.now) → MatchResult result (λ _. Unit {0}) (λ refusal. refusal ≡ AuditRefusal.NoMemory) }
    ensures only_refusal { (refusal : AuditRefusal) → IsAuditRefused (parts_of pla.now) journal.now refusal →
        MatchResult result (λ _. ⊥) (λ other. (other ≡ refusal) ⊎ (other ≡ AuditRefusal.NoMemory)) }
{
    test_journal(alloc, pla, journal)
}

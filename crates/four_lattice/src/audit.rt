//! The command `audit`.
ghost use Rattle.std.specs.Prelude.{◌≡◌, ◌≢◌, ◌≤◌, ◌⊎◌, ◌++◌, codes, decimal, length, IfSome, IfOk, OnOk, IfErr};
ghost use Rattle.audit_core.specs.Audit.{Audited};
ghost use Rattle.audit_core.specs.declared.refusal.AuditRefusal.{AuditRefusal};
ghost use Rattle.journal_text.specs.Bounds.{IsJournal};
ghost use Rattle.journal_text.specs.Parts.{JournalParts, parts_of_journal};
ghost use Rattle.journal_text.specs.Reading.{HasLineNumbers};
ghost use Rattle.journal_text.specs.Text.{journal_text};
ghost use Rattle.pla_reader.specs.Parts.{Parts, parts_of, IsPla};
ghost use Rattle.wire_io.specs.Causes.{HasCause};
ghost use Rattle.wire_io.specs.Told.{Gains, GainsFront, IsSpent, LosesUpTo};
ghost use Rattle.four_lattice.specs.SideAudit.{EndsAs, EndsAudit, HasConfirmed};
ghost use Rattle.four_lattice.specs.Devices.{change, EndsTest};
ghost use Rattle.four_lattice.specs.Judge.{Unconfirms, PlaGives, AuditComes, IsGranted};
ghost use Rattle.four_lattice.specs.Run.{FinishesQuiet};
ghost use Rattle.four_lattice.specs.Synth.{answers_of};
ghost use Rattle.four_lattice.specs.Uses.{pla_and_side, most_pla_bytes, most_side_bytes};

use crate::ending::{Ending, Refusal, Unconfirmed};
use crate::inputs::{ending_of_journal, input_pla, input_side};
use audit_core::audit::audit;
use audit_core::refusal::{AuditRefusal, TextRefusal};
use audit_core::text::audit_text;
use itoa::Buffer;
use journal_text::journal::Journal;
use pla_reader::pla::Pla;
use std::alloc::Global;
use wire_io::fault::Failed;
use wire_io::sink::{Sink, write_pieces};
use wire_io::source::Source;

/// How a run ends whose journal is not right.
fn ending_of_audit(refusal: AuditRefusal) -> Ending
    ensures refused { refusal ≢ AuditRefusal.NoMemory → result ≡ Ending.Refused (Refusal.Unconfirmed (Unconfirmed.Unaudited refusal)) }
    ensures wanting { refusal ≡ AuditRefusal.NoMemory → result ≡ Ending.NoMemory }
{
    match refusal {
        AuditRefusal::NoMemory => Ending::NoMemory,
        AuditRefusal::Output { .. }
        | AuditRefusal::Literal { .. }
        | AuditRefusal::Wrong { .. }
        | AuditRefusal::Step { .. }
        | AuditRefusal::Unfinished { .. }
        | AuditRefusal::Count { .. }
        | AuditRefusal::Uncovered { .. }
        | AuditRefusal::NoSection { .. }
        | AuditRefusal::Large { .. }
        | AuditRefusal::NoRails { .. }
        | AuditRefusal::Proofs { .. } => {
            Ending::Refused(Refusal::Unconfirmed(Unconfirmed::Unaudited(refusal)))
        }
    }
}

/// How a run ends whose text of a journal is refused.
fn ending_of_text(refusal: TextRefusal) -> Ending
    ensures { EndsAs refusal result }
{
    match refusal {
        TextRefusal::Form(refusal) => ending_of_journal(refusal),
        TextRefusal::Audit(refusal) => ending_of_audit(refusal),
    }
}

/// Tests a journal against a PLA: the number of its answers where it is right, or else how the run ends.
pub(crate) fn confirm(alloc: Global, text: &Pla, journal: &Journal) -> Result<u64, Ending>
    requires pla { IsPla (parts_of text.now) }
    requires journal { IsJournal (parts_of_journal journal.now) }
    requires few { length (journal_text (parts_of_journal journal.now)) ≤ most_side_bytes }
    requires lines { HasLineNumbers journal.now }
    ensures many { IfOk result (λ many. many ≡ length (answers_of (parts_of_journal journal.now).parts)) }
    ensures audited { OnOk result (Audited (parts_of text.now) (parts_of_journal journal.now)) }
    ensures ends { IfErr result (EndsTest (Unconfirms (parts_of text.now) (parts_of_journal journal.now))) }
{
    match audit(alloc, text, journal) {
        Ok(confirmed) => Ok(confirmed.len() as u64),
        Err(refusal) => Err(ending_of_audit(refusal)),
    }
}

/// Tests the journal that a side file is against a PLA, as it is read: the number of its answers where it is right, or
/// else how the run ends.
fn confirm_side<S: Source>(alloc: Global, text: &Pla, side: &mut S) -> Result<u64, Ending>
    requires pla { IsPla (parts_of text.now) }
    ensures confirmed { IfOk result (λ many. (journal : JournalParts) × HasConfirmed (parts_of text.now) (S.left side.old) journal many) }
    ensures spent { OnOk result (IsSpent (S.left side.new)) }
    ensures taken { OnOk result (LosesUpTo (S.left side.old) (S.left side.new) most_side_bytes) }
    ensures ends { IfErr result (λ ending. EndsAudit (parts_of text.now) ending (change (S.left side.old) (S.faults side.old) (S.left side.new) (S.faults side.new))) }
    ensures later { S.faults side.old ≤ S.faults side.new }
{
    let bytes = match input_side(alloc, side) {
        Ok(bytes) => bytes,
        Err(ending) => return Err(ending),
    };
    match audit_text(alloc, text, &bytes) {
        Ok(confirmed) => Ok(confirmed.len() as u64),
        Err(refusal) => Err(ending_of_text(refusal)),
    }
}

/// Writes how many answers are right.
fn write_confirmed<K: Sink>(out: &mut K, many: u64) -> Result<(), Failed>
    ensures ok { OnOk result (Gains (K.got out.old) (K.got out.new) (codes "confirmed " ++ (decimal many ++ codes "\n"))) }
    ensures front { GainsFront (K.got out.old) (K.got out.new) (codes "confirmed " ++ (decimal many ++ codes "\n")) }
    ensures cause { HasCause (K.faults out.old) (K.faults out.new) result }
{
    let mut digits = Buffer::new();
    write_pieces(out, &[b"confirmed ", digits.format(many).as_bytes(), b"\n"])
}

/// How the command `audit` ends.
pub(crate) fn end_of_audit<S: Source, K: Sink>(
    alloc: Global,
    pla: &mut S,
    side: &mut S,
    out: &mut K,
) -> Ending
    ensures finishes { FinishesQuiet (AuditComes IfSome) pla_and_side most_pla_bytes result
        (change (S.left pla.old) (S.faults pla.old) (S.left pla.new) (S.faults pla.new))
        (change (S.left side.old) (S.faults side.old) (S.left side.new) (S.faults side.new))
        (change (K.got out.old) (K.faults out.old) (K.got out.new) (K.faults out.new)) }
    ensures side_last { (side.new ≡ side.old) ⊎ ((parts : Parts) × PlaGives IfSome (record { pla = S.left pla.old; side = S.left side.old }) parts) }
    ensures out_last { (out.new ≡ out.old) ⊎ IsGranted (AuditComes IfSome (record { pla = S.left pla.old; side = S.left side.old })) }
{
    let text = match input_pla(alloc, pla) {
        Ok(text) => text,
        Err(ending) => return ending,
    };
    let many = match confirm_side(alloc, &text, side) {
        Ok(many) => many,
        Err(ending) => return ending,
    };
    match write_confirmed(out, many) {
        Ok(()) => Ending::Done,
        Err(Failed) => Ending::WriteFault,
    }
}

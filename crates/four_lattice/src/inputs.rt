//! The inputs of the commands are read.
ghost use Rattle.std.specs.Prelude.{◌≡◌, ◌≢◌, ℕ, ◌≤◌, length, drop, IfOk, OnOk, IfErr, IfSome, Ok};
ghost use Rattle.clause_core.specs.CnfRead.{cnf_of};
ghost use Rattle.defect_array.specs.Reading.{Reads as ReadsArray};
ghost use Rattle.journal_text.specs.Bounds.{IsJournal};
ghost use Rattle.journal_text.specs.Parts.{parts_of_journal};
ghost use Rattle.journal_text.specs.Reading.{Gives as GivesJournal, HasLineNumbers};
ghost use Rattle.journal_text.specs.Text.{journal_text};
ghost use Rattle.pla_reader.specs.Parts.{parts_of, IsPla};
ghost use Rattle.pla_reader.specs.Reading.{Reads};
ghost use Rattle.report_text.specs.Bounds.{IsReport};
ghost use Rattle.report_text.specs.Reading.{Gives};
ghost use Rattle.report_text.specs.Report.{parts_of_report};
ghost use Rattle.wire_io.specs.Told.{IsSpent, Loses, LosesUpTo};
ghost use Rattle.four_lattice.specs.Devices.{change, unread, EndsTest};
ghost use Rattle.four_lattice.specs.Inputs.{EndsPla, EndsCnf, EndsLrat, EndsReport, EndsJournal, RefusesArray};
ghost use Rattle.four_lattice.specs.Judge.{as_array};
ghost use Rattle.four_lattice.specs.Uses.{most_pla_bytes, most_cnf_bytes, most_side_bytes};

use crate::ending::{Ending, InputRefusal, Refusal, SideRefusal};
use clause_core::formula::Formula;
use clause_core::read::read_cnf;
use clause_core::refusal::CnfRefusal;
use defect_array::read::{ArrayRefusal, read_array};
use journal_text::journal::Journal;
use journal_text::read::read_journal;
use journal_text::refusal::JournalRefusal;
use lattice_grid::array::Array;
use lrat_replay::refusal::LratRefusal;
use pla_reader::pla::{MOST_BYTES, Pla, PlaRefusal, read_pla};
use report_text::answer::Report;
use report_text::report::{ReportRefusal, read_report};
use std::alloc::Global;
use wire_io::fault::ReadFault;
use wire_io::source::{Source, read_all};

/// The most bytes of a CNF text.
const MOST_CNF_BYTES: usize = 67_108_864;

/// The most bytes of a side file.
const MOST_SIDE_BYTES: usize = 536_870_912;

/// How a run ends that could not read a source, where too many bytes are refused so.
fn ending_of_read(fault: ReadFault, long: Refusal) -> Ending
    ensures { result ≡ unread long fault }
{
    match fault {
        ReadFault::Fault => Ending::ReadFault,
        ReadFault::TooLong => Ending::Refused(long),
        ReadFault::NoMemory => Ending::NoMemory,
    }
}

/// How a run ends that refuses a PLA.
fn ending_of_pla(refusal: PlaRefusal) -> Ending
    ensures refused { refusal ≢ PlaRefusal.NoMemory → result ≡ Ending.Refused (Refusal.Input (InputRefusal.Pla refusal)) }
    ensures wanting { refusal ≡ PlaRefusal.NoMemory → result ≡ Ending.NoMemory }
{
    match refusal {
        PlaRefusal::NoMemory => Ending::NoMemory,
        PlaRefusal::TooLong
        | PlaRefusal::BadByte { .. }
        | PlaRefusal::UnknownWord { .. }
        | PlaRefusal::Unsupported { .. }
        | PlaRefusal::Repeated { .. }
        | PlaRefusal::BadNumber { .. }
        | PlaRefusal::Late { .. }
        | PlaRefusal::Missing { .. }
        | PlaRefusal::Inputs { .. }
        | PlaRefusal::Outputs { .. }
        | PlaRefusal::RowLength { .. }
        | PlaRefusal::BadDigit { .. }
        | PlaRefusal::Names { .. }
        | PlaRefusal::TooManyRows { .. }
        | PlaRefusal::Conflict { .. } => {
            Ending::Refused(Refusal::Input(InputRefusal::Pla(refusal)))
        }
    }
}

/// How a run ends that refuses a CNF.
fn ending_of_cnf(refusal: CnfRefusal) -> Ending
    ensures refused { refusal ≢ CnfRefusal.NoMemory → result ≡ Ending.Refused (Refusal.Input (InputRefusal.Cnf refusal)) }
    ensures wanting { refusal ≡ CnfRefusal.NoMemory → result ≡ Ending.NoMemory }
{
    match refusal {
        CnfRefusal::NoMemory => Ending::NoMemory,
        CnfRefusal::Header { .. }
        | CnfRefusal::Literal { .. }
        | CnfRefusal::Count { .. }
        | CnfRefusal::Unended { .. }
        | CnfRefusal::TooLong
        | CnfRefusal::TooLarge { .. } => {
            Ending::Refused(Refusal::Input(InputRefusal::Cnf(refusal)))
        }
    }
}

/// How a run ends that refuses the lines of a proof.
pub(crate) fn ending_of_lrat(refusal: LratRefusal) -> Ending
    ensures refused { refusal ≢ LratRefusal.NoMemory → result ≡ Ending.Refused (Refusal.Side (SideRefusal.Lrat refusal)) }
    ensures wanting { refusal ≡ LratRefusal.NoMemory → result ≡ Ending.NoMemory }
{
    match refusal {
        LratRefusal::NoMemory => Ending::NoMemory,
        LratRefusal::Word { .. } | LratRefusal::Form { .. } => {
            Ending::Refused(Refusal::Side(SideRefusal::Lrat(refusal)))
        }
    }
}

/// How a run ends that refuses a report.
fn ending_of_report(refusal: ReportRefusal) -> Ending
    ensures refused { refusal ≢ ReportRefusal.NoMemory → result ≡ Ending.Refused (Refusal.Side (SideRefusal.Report refusal)) }
    ensures wanting { refusal ≡ ReportRefusal.NoMemory → result ≡ Ending.NoMemory }
{
    match refusal {
        ReportRefusal::NoMemory => Ending::NoMemory,
        ReportRefusal::Header { .. }
        | ReportRefusal::Inputs { .. }
        | ReportRefusal::Rails { .. }
        | ReportRefusal::Block { .. }
        | ReportRefusal::Grid { .. }
        | ReportRefusal::Proofs { .. }
        | ReportRefusal::Trailing { .. }
        | ReportRefusal::Truncated { .. } => {
            Ending::Refused(Refusal::Side(SideRefusal::Report(refusal)))
        }
    }
}

/// How a run ends that refuses the text of a journal.
pub(crate) fn ending_of_journal(refusal: JournalRefusal) -> Ending
    ensures refused { refusal ≢ JournalRefusal.NoMemory → result ≡ Ending.Refused (Refusal.Side (SideRefusal.Journal refusal)) }
    ensures wanting { refusal ≡ JournalRefusal.NoMemory → result ≡ Ending.NoMemory }
{
    match refusal {
        JournalRefusal::NoMemory => Ending::NoMemory,
        JournalRefusal::Header { .. }
        | JournalRefusal::Rails { .. }
        | JournalRefusal::Word { .. }
        | JournalRefusal::Order { .. }
        | JournalRefusal::Question { .. }
        | JournalRefusal::Step { .. }
        | JournalRefusal::Block { .. }
        | JournalRefusal::Proofs { .. }
        | JournalRefusal::Trailing { .. }
        | JournalRefusal::Truncated { .. } => {
            Ending::Refused(Refusal::Side(SideRefusal::Journal(refusal)))
        }
    }
}

/// A PLA, and the bytes of the text that it was read from.
#[derive(Drop)]
pub(crate) struct Text {
    pub(crate) pla: Pla,
    pub(crate) bytes: Vec<u8>,
}

impl Text {
    /// The bytes behind the PLA.
    fn behind(&self) -> &[u8]
        ensures same { result.now ≡ drop self.now.pla.rest self.now.bytes.items }
        ensures fewer { length result.now ≤ length self.now.bytes.items }
    {
        let place = self.pla.rest.min(self.bytes.len());
        &self.bytes[place..]
    }
}

/// The PLA that a source has, with its text, or how the run ends.
pub(crate) fn input_text<S: Source>(alloc: Global, pla: &mut S) -> Result<Text, Ending>
    ensures reads { IfOk result (λ text. IfSome (S.left pla.old) (λ bytes. Reads bytes (parts_of text.pla))) }
    ensures told { IfOk result (λ text. IfSome (S.left pla.old) (λ bytes. text.bytes.items ≡ bytes)) }
    ensures few { IfOk result (λ text. length text.bytes.items ≤ most_pla_bytes) }
    ensures whole { IfOk result (λ text. IsPla (parts_of text.pla)) }
    ensures spent { OnOk result (IsSpent (S.left pla.new)) }
    ensures taken { OnOk result (LosesUpTo (S.left pla.old) (S.left pla.new) most_pla_bytes) }
    ensures ends { IfErr result (λ ending. EndsPla ending (change (S.left pla.old) (S.faults pla.old) (S.left pla.new) (S.faults pla.new))) }
    ensures later { S.faults pla.old ≤ S.faults pla.new }
{
    let bytes = match read_all(alloc, pla, MOST_BYTES) {
        Ok(bytes) => bytes,
        Err(fault) => {
            let long = Refusal::Input(InputRefusal::Pla(PlaRefusal::TooLong));
            return Err(ending_of_read(fault, long));
        }
    };
    match read_pla(alloc, &bytes) {
        Ok(pla) => Ok(Text { pla, bytes }),
        Err(refusal) => Err(ending_of_pla(refusal)),
    }
}

/// The PLA that a source has, or how the run ends.
pub(crate) fn input_pla<S: Source>(alloc: Global, pla: &mut S) -> Result<Pla, Ending>
    ensures reads { IfOk result (λ text. IfSome (S.left pla.old) (λ bytes. Reads bytes (parts_of text))) }
    ensures whole { IfOk result (λ text. IsPla (parts_of text)) }
    ensures spent { OnOk result (IsSpent (S.left pla.new)) }
    ensures taken { OnOk result (LosesUpTo (S.left pla.old) (S.left pla.new) most_pla_bytes) }
    ensures ends { IfErr result (λ ending. EndsPla ending (change (S.left pla.old) (S.faults pla.old) (S.left pla.new) (S.faults pla.new))) }
    ensures later { S.faults pla.old ≤ S.faults pla.new }
{
    match input_text(alloc, pla) {
        Ok(text) => Ok(text.pla),
        Err(ending) => Err(ending),
    }
}

/// How a run ends that refuses an array.
fn ending_of_array(refusal: ArrayRefusal) -> Ending
    ensures refused { refusal ≢ ArrayRefusal.NoMemory → result ≡ Ending.Refused (as_array refusal) }
    ensures wanting { refusal ≡ ArrayRefusal.NoMemory → result ≡ Ending.NoMemory }
{
    match refusal {
        ArrayRefusal::NoMemory => Ending::NoMemory,
        ArrayRefusal::Empty
        | ArrayRefusal::Ragged { .. }
        | ArrayRefusal::Byte { .. }
        | ArrayRefusal::TooLarge { .. } => {
            Ending::Refused(Refusal::Input(InputRefusal::Array(refusal)))
        }
    }
}

/// The array that follows a PLA in its text, or how the run ends.
pub(crate) fn input_array(alloc: Global, text: &Text) -> Result<Array, Ending>
    requires few { length text.now.bytes.items ≤ most_pla_bytes }
    ensures reads { IfOk result (λ array. ReadsArray (drop text.now.pla.rest text.now.bytes.items) array) }
    ensures ends { IfErr result (EndsTest (RefusesArray (drop text.now.pla.rest text.now.bytes.items))) }
{
    match read_array(alloc, text.behind()) {
        Ok(array) => Ok(array),
        Err(refusal) => Err(ending_of_array(refusal)),
    }
}

/// The formula that a source has, or how the run ends.
pub(crate) fn input_cnf<S: Source>(alloc: Global, pla: &mut S) -> Result<Formula, Ending>
    ensures reads { IfOk result (λ formula. IfSome (S.left pla.old) (λ bytes. cnf_of bytes ≡ Ok formula)) }
    ensures spent { OnOk result (IsSpent (S.left pla.new)) }
    ensures taken { OnOk result (LosesUpTo (S.left pla.old) (S.left pla.new) most_cnf_bytes) }
    ensures ends { IfErr result (λ ending. EndsCnf ending (change (S.left pla.old) (S.faults pla.old) (S.left pla.new) (S.faults pla.new))) }
    ensures later { S.faults pla.old ≤ S.faults pla.new }
{
    let bytes = match read_all(alloc, pla, MOST_CNF_BYTES) {
        Ok(bytes) => bytes,
        Err(fault) => {
            let long = Refusal::Input(InputRefusal::Cnf(CnfRefusal::TooLong));
            return Err(ending_of_read(fault, long));
        }
    };
    match read_cnf(alloc, &bytes) {
        Ok(formula) => Ok(formula),
        Err(refusal) => Err(ending_of_cnf(refusal)),
    }
}

/// The report that a side file has, or how the run ends.
pub(crate) fn input_report<S: Source>(alloc: Global, side: &mut S) -> Result<Report, Ending>
    ensures reads { IfOk result (λ report. IfSome (S.left side.old) (λ bytes. (length bytes ≤ most_side_bytes) × Gives bytes (Ok (parts_of_report report)))) }
    ensures whole { IfOk result (λ report. IsReport (parts_of_report report)) }
    ensures spent { OnOk result (IsSpent (S.left side.new)) }
    ensures taken { OnOk result (LosesUpTo (S.left side.old) (S.left side.new) most_side_bytes) }
    ensures ends { IfErr result (λ ending. EndsReport ending (change (S.left side.old) (S.faults side.old) (S.left side.new) (S.faults side.new))) }
    ensures later { S.faults side.old ≤ S.faults side.new }
{
    let bytes = match read_all(alloc, side, MOST_SIDE_BYTES) {
        Ok(bytes) => bytes,
        Err(fault) => return Err(ending_of_read(fault, Refusal::Side(SideRefusal::TooLong))),
    };
    match read_report(alloc, &bytes) {
        Ok(report) => Ok(report),
        Err(refusal) => Err(ending_of_report(refusal)),
    }
}

/// The bytes of a side file that is to be steps or a journal, or how the run ends.
pub(crate) fn input_side<S: Source>(alloc: Global, side: &mut S) -> Result<Vec<u8>, Ending>
    ensures all { IfOk result (λ bytes. Loses (S.left side.old) (S.left side.new) bytes.items) }
    ensures few { IfOk result (λ bytes. length bytes.items ≤ most_side_bytes) }
    ensures spent { OnOk result (IsSpent (S.left side.new)) }
    ensures ends { IfErr result (λ ending. EndsJournal ending (change (S.left side.old) (S.faults side.old) (S.left side.new) (S.faults side.new))) }
    ensures steps_end { IfErr result (λ ending. EndsLrat ending (change (S.left side.old) (S.faults side.old) (S.left side.new) (S.faults side.new))) }
    ensures later { S.faults side.old ≤ S.faults side.new }
{
    match read_all(alloc, side, MOST_SIDE_BYTES) {
        Ok(bytes) => Ok(bytes),
        Err(fault) => Err(ending_of_read(fault, Refusal::Side(SideRefusal::TooLong))),
    }
}

/// The journal that a side file has, or how the run ends.
pub(crate) fn input_journal<S: Source>(alloc: Global, side: &mut S) -> Result<Journal, Ending>
    ensures reads { IfOk result (λ journal. IfSome (S.left side.old) (λ bytes. (length bytes ≤ most_side_bytes) × GivesJournal bytes (Ok (parts_of_journal journal)))) }
    ensures whole { IfOk result (λ journal. IsJournal (parts_of_journal journal)) }
    ensures few { IfOk result (λ journal. length (journal_text (parts_of_journal journal)) ≤ most_side_bytes) }
    ensures lines { IfOk result HasLineNumbers }
    ensures spent { OnOk result (IsSpent (S.left side.new)) }
    ensures taken { OnOk result (LosesUpTo (S.left side.old) (S.left side.new) most_side_bytes) }
    ensures ends { IfErr result (λ ending. EndsJournal ending (change (S.left side.old) (S.faults side.old) (S.left side.new) (S.faults side.new))) }
    ensures later { S.faults side.old ≤ S.faults side.new }
{
    let bytes = match read_all(alloc, side, MOST_SIDE_BYTES) {
        Ok(bytes) => bytes,
        Err(fault) => return Err(ending_of_read(fault, Refusal::Side(SideRefusal::TooLong))),
    };
    match read_journal(alloc, &bytes) {
        Ok(journal) => Ok(journal),
        Err(refusal) => Err(ending_of_journal(refusal)),
    }
}

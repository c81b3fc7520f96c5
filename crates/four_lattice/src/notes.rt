//! The line of notes.
ghost use Rattle.std.specs.Prelude.{◌≡◌, ℕ, ◌≤◌, ◌++◌, codes, OnOk};
ghost use Rattle.wire_io.specs.Causes.{HasCause};
ghost use Rattle.wire_io.specs.Told.{Gains, GainsFront};
ghost use Rattle.four_lattice.specs.Ending.{lead_of, pla_name, pla_spot, cnf_name, cnf_spot, array_name, array_spot, journal_name, journal_spot, audit_name, audit_spot, report_name, report_spot, lrat_name, lrat_spot, verify_name, verify_spot, step_name, input_name, input_spot, side_name, side_spot, unconfirmed_name, unconfirmed_spot, refusal_name, refusal_spot, said, note_text};

use crate::ending::{Ending, InputRefusal, Refusal, SideRefusal, Unconfirmed};
use crate::verify::VerifyRefusal;
use audit_core::refusal::AuditRefusal;
use clause_core::refusal::CnfRefusal;
use cube_core::assign::Assign;
use defect_array::read::ArrayRefusal;
use itoa::Buffer;
use journal_text::refusal::JournalRefusal;
use lrat_replay::fault::StepFault;
use lrat_replay::refusal::LratRefusal;
use pla_reader::pla::PlaRefusal;
use report_text::report::ReportRefusal;
use wire_io::fault::Failed;
use wire_io::sink::{Sink, write_pieces};

/// Where what is refused lies.
#[derive(Clone, Copy, Debug, PartialEq, Eq)]
pub(crate) enum Spot {
    /// It has no place.
    Nowhere,
    /// On a line.
    At { line: u32 },
    /// On a line, and at an assignment.
    AssignmentAt { line: u32, assign: Assign },
    /// At an output and an assignment.
    AssignmentOf { output: u8, assign: Assign },
}

/// Where a refusal of a PLA lies.
fn spot_of_pla(refusal: PlaRefusal) -> Spot
    ensures { result ≡ pla_spot refusal }
{
    match refusal {
        PlaRefusal::BadByte { line }
        | PlaRefusal::UnknownWord { line }
        | PlaRefusal::Unsupported { line }
        | PlaRefusal::Repeated { line }
        | PlaRefusal::BadNumber { line }
        | PlaRefusal::Late { line }
        | PlaRefusal::Missing { line }
        | PlaRefusal::Inputs { line }
        | PlaRefusal::Outputs { line }
        | PlaRefusal::RowLength { line }
        | PlaRefusal::BadDigit { line }
        | PlaRefusal::Names { line }
        | PlaRefusal::TooManyRows { line } => Spot::At { line },
        PlaRefusal::Conflict { output, assign } => Spot::AssignmentOf { output, assign },
        PlaRefusal::TooLong | PlaRefusal::NoMemory => Spot::Nowhere,
    }
}

/// Where a report does not verify.
fn spot_of_denial(refusal: VerifyRefusal) -> Spot
    ensures { result ≡ verify_spot refusal }
{
    match refusal {
        VerifyRefusal::Inputs { line }
        | VerifyRefusal::Output { line }
        | VerifyRefusal::Literal { line } => Spot::At { line },
        VerifyRefusal::Wrong { line, assign } => Spot::AssignmentAt { line, assign },
        VerifyRefusal::NoMemory => Spot::Nowhere,
    }
}

/// The name of a refusal of a PLA.
fn name_of_pla(refusal: PlaRefusal) -> &'static [u8]
    ensures { result.now ≡ pla_name refusal }
{
    match refusal {
        PlaRefusal::TooLong => b"TooLong",
        PlaRefusal::BadByte { .. } => b"BadByte",
        PlaRefusal::UnknownWord { .. } => b"UnknownWord",
        PlaRefusal::Unsupported { .. } => b"Unsupported",
        PlaRefusal::Repeated { .. } => b"Repeated",
        PlaRefusal::BadNumber { .. } => b"BadNumber",
        PlaRefusal::Late { .. } => b"Late",
        PlaRefusal::Missing { .. } => b"Missing",
        PlaRefusal::Inputs { .. } => b"Inputs",
        PlaRefusal::Outputs { .. } => b"Outputs",
        PlaRefusal::RowLength { .. } => b"RowLength",
        PlaRefusal::BadDigit { .. } => b"BadDigit",
        PlaRefusal::Names { .. } => b"Names",
        PlaRefusal::TooManyRows { .. } => b"TooManyRows",
        PlaRefusal::Conflict { .. } => b"Conflict",
        PlaRefusal::NoMemory => b"NoMemory",
    }
}

/// The name of a refusal of a CNF.
fn name_of_cnf(refusal: CnfRefusal) -> &'static [u8]
    ensures { result.now ≡ cnf_name refusal }
{
    match refusal {
        CnfRefusal::Header { .. } => b"Header",
        CnfRefusal::Literal { .. } => b"Literal",
        CnfRefusal::Count { .. } => b"Count",
        CnfRefusal::Unended { .. } => b"Unended",
        CnfRefusal::TooLong => b"TooLong",
        CnfRefusal::TooLarge { .. } => b"TooLarge",
        CnfRefusal::NoMemory => b"NoMemory",
    }
}

/// The name of a refusal of an array.
fn name_of_array(refusal: ArrayRefusal) -> &'static [u8]
    ensures { result.now ≡ array_name refusal }
{
    match refusal {
        ArrayRefusal::Empty => b"Empty",
        ArrayRefusal::Ragged { .. } => b"Ragged",
        ArrayRefusal::Byte { .. } => b"Byte",
        ArrayRefusal::TooLarge { .. } => b"TooLarge",
        ArrayRefusal::NoMemory => b"NoMemory",
    }
}

/// The name of a refusal of a report.
fn name_of_report(refusal: ReportRefusal) -> &'static [u8]
    ensures { result.now ≡ report_name refusal }
{
    match refusal {
        ReportRefusal::Header { .. } => b"Header",
        ReportRefusal::Inputs { .. } => b"Inputs",
        ReportRefusal::Rails { .. } => b"Rails",
        ReportRefusal::Block { .. } => b"Block",
        ReportRefusal::Grid { .. } => b"Grid",
        ReportRefusal::Proofs { .. } => b"Proofs",
        ReportRefusal::Trailing { .. } => b"Trailing",
        ReportRefusal::Truncated { .. } => b"Truncated",
        ReportRefusal::NoMemory => b"NoMemory",
    }
}

/// The name of why a report does not verify.
fn name_of_denial(refusal: VerifyRefusal) -> &'static [u8]
    ensures { result.now ≡ verify_name refusal }
{
    match refusal {
        VerifyRefusal::Inputs { .. } => b"Inputs",
        VerifyRefusal::Output { .. } => b"Output",
        VerifyRefusal::Literal { .. } => b"Literal",
        VerifyRefusal::Wrong { .. } => b"Wrong",
        VerifyRefusal::NoMemory => b"NoMemory",
    }
}

/// The name of a fault of a step.
fn name_of_step(fault: StepFault) -> &'static [u8]
    ensures { result.now ≡ step_name fault }
{
    match fault {
        StepFault::Order => b"Order",
        StepFault::Unknown => b"Unknown",
        StepFault::Satisfied => b"Satisfied",
        StepFault::Loose => b"Loose",
        StepFault::NoConflict => b"NoConflict",
        StepFault::Rat => b"Rat",
        StepFault::Tautology => b"Tautology",
        StepFault::Variable => b"Variable",
        StepFault::NoMemory => b"NoMemory",
    }
}

/// The name of a refusal of the lines of a proof.
fn name_of_lrat(refusal: LratRefusal) -> &'static [u8]
    ensures { result.now ≡ lrat_name refusal }
{
    match refusal {
        LratRefusal::Word { .. } => b"Word",
        LratRefusal::Form { .. } => b"Form",
        LratRefusal::NoMemory => b"NoMemory",
    }
}

/// Where a refusal of a CNF lies.
fn spot_of_cnf(refusal: CnfRefusal) -> Spot
    ensures { result ≡ cnf_spot refusal }
{
    match refusal {
        CnfRefusal::Header { line }
        | CnfRefusal::Literal { line }
        | CnfRefusal::Count { line }
        | CnfRefusal::Unended { line }
        | CnfRefusal::TooLarge { line } => Spot::At { line },
        CnfRefusal::TooLong | CnfRefusal::NoMemory => Spot::Nowhere,
    }
}

/// Where a refusal of an array lies.
fn spot_of_array(refusal: ArrayRefusal) -> Spot
    ensures { result ≡ array_spot refusal }
{
    match refusal {
        ArrayRefusal::Ragged { line }
        | ArrayRefusal::Byte { line }
        | ArrayRefusal::TooLarge { line } => Spot::At { line },
        ArrayRefusal::Empty | ArrayRefusal::NoMemory => Spot::Nowhere,
    }
}

/// Where a refusal of a report lies.
fn spot_of_report(refusal: ReportRefusal) -> Spot
    ensures { result ≡ report_spot refusal }
{
    match refusal {
        ReportRefusal::Header { line }
        | ReportRefusal::Inputs { line }
        | ReportRefusal::Rails { line }
        | ReportRefusal::Block { line }
        | ReportRefusal::Grid { line }
        | ReportRefusal::Proofs { line }
        | ReportRefusal::Trailing { line }
        | ReportRefusal::Truncated { line } => Spot::At { line },
        ReportRefusal::NoMemory => Spot::Nowhere,
    }
}

/// Where a refusal of the lines of a proof lies.
fn spot_of_lrat(refusal: LratRefusal) -> Spot
    ensures { result ≡ lrat_spot refusal }
{
    match refusal {
        LratRefusal::Word { line } | LratRefusal::Form { line } => Spot::At { line },
        LratRefusal::NoMemory => Spot::Nowhere,
    }
}

/// The name of a refusal of a journal's text.
fn name_of_journal(refusal: JournalRefusal) -> &'static [u8]
    ensures { result.now ≡ journal_name refusal }
{
    match refusal {
        JournalRefusal::Header { .. } => b"Header",
        JournalRefusal::Rails { .. } => b"Rails",
        JournalRefusal::Word { .. } => b"Word",
        JournalRefusal::Order { .. } => b"Order",
        JournalRefusal::Question { .. } => b"Question",
        JournalRefusal::Step { .. } => b"Step",
        JournalRefusal::Block { .. } => b"Block",
        JournalRefusal::Proofs { .. } => b"Proofs",
        JournalRefusal::Trailing { .. } => b"Trailing",
        JournalRefusal::Truncated { .. } => b"Truncated",
        JournalRefusal::NoMemory => b"NoMemory",
    }
}

/// The name of why a journal is not right; of a step that replay refuses, its fault's.
fn name_of_audit(refusal: AuditRefusal) -> &'static [u8]
    ensures { result.now ≡ audit_name refusal }
{
    match refusal {
        AuditRefusal::Output { .. } => b"Output",
        AuditRefusal::Literal { .. } => b"Literal",
        AuditRefusal::Wrong { .. } => b"Wrong",
        AuditRefusal::Step { fault, .. } => name_of_step(fault),
        AuditRefusal::Unfinished { .. } => b"Unfinished",
        AuditRefusal::Count { .. } => b"Count",
        AuditRefusal::Uncovered { .. } => b"Uncovered",
        AuditRefusal::NoSection { .. } => b"NoSection",
        AuditRefusal::Large { .. } => b"Large",
        AuditRefusal::NoRails { .. } => b"NoRails",
        AuditRefusal::Proofs { .. } => b"Proofs",
        AuditRefusal::NoMemory => b"NoMemory",
    }
}

/// Where a refusal of a journal's text lies.
fn spot_of_journal(refusal: JournalRefusal) -> Spot
    ensures { result ≡ journal_spot refusal }
{
    match refusal {
        JournalRefusal::Header { line }
        | JournalRefusal::Rails { line }
        | JournalRefusal::Word { line }
        | JournalRefusal::Order { line }
        | JournalRefusal::Question { line }
        | JournalRefusal::Step { line }
        | JournalRefusal::Block { line }
        | JournalRefusal::Proofs { line }
        | JournalRefusal::Trailing { line }
        | JournalRefusal::Truncated { line } => Spot::At { line },
        JournalRefusal::NoMemory => Spot::Nowhere,
    }
}

/// Where a journal is not right.
fn spot_of_audit(refusal: AuditRefusal) -> Spot
    ensures { result ≡ audit_spot refusal }
{
    match refusal {
        AuditRefusal::Wrong { line, assign } => Spot::AssignmentAt { line, assign },
        AuditRefusal::Output { line }
        | AuditRefusal::Literal { line }
        | AuditRefusal::Step { line, .. }
        | AuditRefusal::Unfinished { line }
        | AuditRefusal::Count { line }
        | AuditRefusal::Uncovered { line }
        | AuditRefusal::NoSection { line }
        | AuditRefusal::Large { line }
        | AuditRefusal::NoRails { line }
        | AuditRefusal::Proofs { line } => Spot::At { line },
        AuditRefusal::NoMemory => Spot::Nowhere,
    }
}

impl InputRefusal {
    fn name(&self) -> &'static [u8]
        ensures { result.now ≡ input_name self.now }
    {
        match self {
            InputRefusal::Pla(refusal) => name_of_pla(*refusal),
            InputRefusal::NoSuchOutput => b"NoSuchOutput",
            InputRefusal::Cnf(refusal) => name_of_cnf(*refusal),
            InputRefusal::Array(refusal) => name_of_array(*refusal),
        }
    }

    fn spot(&self) -> Spot
        ensures { result ≡ input_spot self.now }
    {
        match self {
            InputRefusal::Pla(refusal) => spot_of_pla(*refusal),
            InputRefusal::NoSuchOutput => Spot::Nowhere,
            InputRefusal::Cnf(refusal) => spot_of_cnf(*refusal),
            InputRefusal::Array(refusal) => spot_of_array(*refusal),
        }
    }
}

impl SideRefusal {
    fn name(&self) -> &'static [u8]
        ensures { result.now ≡ side_name self.now }
    {
        match self {
            SideRefusal::TooLong => b"TooLong",
            SideRefusal::Report(refusal) => name_of_report(*refusal),
            SideRefusal::Lrat(refusal) => name_of_lrat(*refusal),
            SideRefusal::Journal(refusal) => name_of_journal(*refusal),
        }
    }

    fn spot(&self) -> Spot
        ensures { result ≡ side_spot self.now }
    {
        match self {
            SideRefusal::TooLong => Spot::Nowhere,
            SideRefusal::Report(refusal) => spot_of_report(*refusal),
            SideRefusal::Lrat(refusal) => spot_of_lrat(*refusal),
            SideRefusal::Journal(refusal) => spot_of_journal(*refusal),
        }
    }
}

impl Unconfirmed {
    fn name(&self) -> &'static [u8]
        ensures { result.now ≡ unconfirmed_name self.now }
    {
        match self {
            Unconfirmed::Denied(refusal) => name_of_denial(*refusal),
            Unconfirmed::Step { fault, .. } => name_of_step(*fault),
            Unconfirmed::Unfinished { .. } => b"Unfinished",
            Unconfirmed::Unaudited(refusal) => name_of_audit(*refusal),
        }
    }

    fn spot(&self) -> Spot
        ensures { result ≡ unconfirmed_spot self.now }
    {
        match self {
            Unconfirmed::Denied(refusal) => spot_of_denial(*refusal),
            Unconfirmed::Unaudited(refusal) => spot_of_audit(*refusal),
            Unconfirmed::Step { line, .. } | Unconfirmed::Unfinished { line } => {
                Spot::At { line: *line }
            }
        }
    }
}

impl Refusal {
    /// What the line of notes begins with.
    fn lead(&self) -> &'static [u8]
        ensures { result.now ≡ lead_of self.now }
    {
        match self {
            Refusal::Words => b"words refused",
            Refusal::Input(_) => b"input refused: ",
            Refusal::Side(_) => b"side refused: ",
            Refusal::Unconfirmed(_) => b"not confirmed: ",
        }
    }

    /// The name of what is refused.
    fn name(&self) -> &'static [u8]
        ensures { result.now ≡ refusal_name self.now }
    {
        match self {
            Refusal::Words => b"",
            Refusal::Input(refusal) => refusal.name(),
            Refusal::Side(refusal) => refusal.name(),
            Refusal::Unconfirmed(refusal) => refusal.name(),
        }
    }

    /// Where what is refused lies.
    fn spot(&self) -> Spot
        ensures { result ≡ refusal_spot self.now }
    {
        match self {
            Refusal::Words => Spot::Nowhere,
            Refusal::Input(refusal) => refusal.spot(),
            Refusal::Side(refusal) => refusal.spot(),
            Refusal::Unconfirmed(refusal) => refusal.spot(),
        }
    }
}

/// Writes the end of a line of notes: where what is refused lies.
fn write_spot<K: Sink>(sink: &mut K, lead: &[u8], name: &[u8], spot: Spot) -> Result<(), Failed>
    ensures ok { OnOk result (Gains (K.got sink.old) (K.got sink.new) (said lead.now name.now spot)) }
    ensures front { GainsFront (K.got sink.old) (K.got sink.new) (said lead.now name.now spot) }
    ensures cause { HasCause (K.faults sink.old) (K.faults sink.new) result }
{
    let (mut first, mut second) = (Buffer::new(), Buffer::new());
    match spot {
        Spot::Nowhere => write_pieces(sink, &[lead, name, b"\n"]),
        Spot::At { line } => {
            let line = first.format(line).as_bytes();
            write_pieces(sink, &[lead, name, b" at line ", line, b"\n"])
        }
        Spot::AssignmentAt { line, assign } => {
            let line = first.format(line).as_bytes();
            let at = second.format(assign.number()).as_bytes();
            write_pieces(
                sink,
                &[lead, name, b" at line ", line, b" assignment ", at, b"\n"],
            )
        }
        Spot::AssignmentOf { output, assign } => {
            let output = first.format(output).as_bytes();
            let at = second.format(assign.number()).as_bytes();
            write_pieces(
                sink,
                &[lead, name, b" output ", output, b" assignment ", at, b"\n"],
            )
        }
    }
}

/// Writes the line of notes of an ending; there is none where the work was done.
pub(crate) fn write_note<K: Sink>(sink: &mut K, ending: &Ending) -> Result<(), Failed>
    ensures ok { OnOk result (Gains (K.got sink.old) (K.got sink.new) (note_text ending.now)) }
    ensures front { GainsFront (K.got sink.old) (K.got sink.new) (note_text ending.now) }
    ensures cause { HasCause (K.faults sink.old) (K.faults sink.new) result }
{
    match ending {
        Ending::Done | Ending::Undecided => write_pieces(sink, &[]),
        Ending::Refused(refusal) => {
            write_spot(sink, refusal.lead(), refusal.name(), refusal.spot())
        }
        Ending::ReadFault => write_pieces(sink, &[b"read fault\n"]),
        Ending::WriteFault => write_pieces(sink, &[b"write fault\n"]),
        Ending::NoMemory => write_pieces(sink, &[b"want of memory\n"]),
    }
}

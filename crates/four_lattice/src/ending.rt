//! How a run ends, and what is refused.
ghost use Rattle.std.specs.Prelude.{◌≡◌};
ghost use Rattle.four_lattice.specs.Ending.{status_of, refusal_status};

use crate::status::Status;
use crate::verify::VerifyRefusal;
use audit_core::refusal::AuditRefusal;
use clause_core::refusal::CnfRefusal;
use defect_array::read::ArrayRefusal;
use journal_text::refusal::JournalRefusal;
use lrat_replay::fault::StepFault;
use lrat_replay::refusal::LratRefusal;
use pla_reader::pla::PlaRefusal;
use report_text::report::ReportRefusal;

/// Why the standard input is refused.
#[derive(Clone, Copy, Debug, PartialEq, Eq)]
pub enum InputRefusal {
    /// It is no PLA.
    Pla(PlaRefusal),
    /// The PLA has not the chosen output.
    NoSuchOutput,
    /// It is no CNF.
    Cnf(CnfRefusal),
    /// No array follows the PLA.
    Array(ArrayRefusal),
}

/// Why the side file is refused.
#[derive(Clone, Copy, Debug, PartialEq, Eq)]
pub enum SideRefusal {
    /// It has more bytes than a side file may have.
    TooLong,
    /// It is no report.
    Report(ReportRefusal),
    /// It has a line that is no step.
    Lrat(LratRefusal),
    /// It is no journal.
    Journal(JournalRefusal),
}

/// Why the side file is not confirmed.
#[derive(Clone, Copy, Debug, PartialEq, Eq)]
pub enum Unconfirmed {
    /// The report does not verify.
    Denied(VerifyRefusal),
    /// Replay refuses the line.
    Step { fault: StepFault, line: u32 },
    /// The lines end, on this line, before the empty clause.
    Unfinished { line: u32 },
    /// The journal is not right.
    Unaudited(AuditRefusal),
}

/// What is refused.
#[derive(Clone, Copy, Debug, PartialEq, Eq)]
pub enum Refusal {
    /// The words ask for no job.
    Words,
    Input(InputRefusal),
    Side(SideRefusal),
    Unconfirmed(Unconfirmed),
}

/// How a run ends.
#[derive(Clone, Copy, Debug, PartialEq, Eq)]
pub enum Ending {
    /// The work was done, and each answer is decided.
    Done,
    /// The work was done, and an answer is undecided.
    Undecided,
    /// The words or a text are refused.
    Refused(Refusal),
    /// A source failed.
    ReadFault,
    /// A sink failed.
    WriteFault,
    /// There was no memory.
    NoMemory,
}

/// How a run ended, and the sink of its journal.
#[derive(Drop)]
pub(crate) struct Finished<K> {
    pub(crate) ending: Ending,
    pub(crate) journal: K,
}

impl Refusal {
    /// The status of a refusal, by its level.
    fn status(&self) -> Status
        ensures { result ≡ refusal_status self.now }
    {
        match self {
            Refusal::Words => Status::Words,
            Refusal::Input(_) => Status::Input,
            Refusal::Side(_) => Status::Side,
            Refusal::Unconfirmed(_) => Status::Unconfirmed,
        }
    }
}

impl Ending {
    /// The status of an ending.
    pub fn status(&self) -> Status
        ensures { result ≡ status_of self.now }
    {
        match self {
            Ending::Done => Status::Done,
            Ending::Undecided => Status::Undecided,
            Ending::Refused(refusal) => refusal.status(),
            Ending::ReadFault => Status::ReadFault,
            Ending::WriteFault => Status::WriteFault,
            Ending::NoMemory => Status::NoMemory,
        }
    }
}

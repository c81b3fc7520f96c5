//! The text of a journal: the questions that were asked, the steps that show their answers, and what is known of each output.
#![tactic(auto)]

ghost use Rattle.journal_text.specs.Laws.{BeginsJournal, AddsSection, BeginsSection, AddsAnswer, JoinsParts, JoinsFront, EndsJournal};
ghost use Rattle.journal_text.specs.Shown.{ExcludesBelow, ExcludesOnArray};

pub mod fault;
mod form;
pub mod journal;
mod lead;
mod lines;
pub mod read;
pub mod reader;
pub mod refusal;
pub mod section;
pub mod target;
pub mod write;
pub mod writer;

/// How what the calls write comes to the text of a journal.
pub fn written_together()
    ensures begins { BeginsJournal }
    ensures section { AddsSection }
    ensures begun { BeginsSection }
    ensures answer { AddsAnswer }
    ensures parts { JoinsParts }
    ensures front { JoinsFront }
    ensures ends { EndsJournal }
{}

/// What refuted sections show of lattices.
pub fn refuted_sections()
    ensures below { ExcludesBelow }
    ensures on_array { ExcludesOnArray }
{}

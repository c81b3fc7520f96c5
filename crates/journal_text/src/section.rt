//! Sections are written while their steps are learned.
ghost use Rattle.std.specs.Prelude.{◌≡◌, ℕ, ◌+◌, ◌≤◌, ◌⊎◌, Bool, true, false, List, [], All, length, map, None, OnOk, OnErr, IfOk, IfErr, IfSome, FitsSigned};
ghost use Rattle.std.specs.Int.{w32};
ghost use Rattle.std.specs.FinSet as set;
ghost use Rattle.clause_core.specs.Formula.{IsSatisfiedBy};
ghost use Rattle.wire_io.specs.Causes.{Rose};
ghost use Rattle.lrat_replay.specs.Book as books;
ghost use Rattle.lrat_replay.specs.Ledger.{IsAbove0, IsKeptOrAdded};
ghost use Rattle.lrat_replay.specs.Laws.{Refutes};
ghost use Rattle.lrat_replay.specs.Learned.{SpentWritten};
ghost use Rattle.lrat_replay.specs.New.{AreNew};
ghost use Rattle.lrat_replay.specs.declared.line.LineKind.TheVariants.{Add};
ghost use Rattle.journal_text.specs.Bounds.{IsClose};
ghost use Rattle.journal_text.specs.Calls.{Wrote, WasCut, IsClosed, IsSectionBegun};
ghost use Rattle.journal_text.specs.Kept.{SpellsQuestion, SpellsSection, AreOf, capped};
ghost use Rattle.journal_text.specs.Origin.{origin_of};
ghost use Rattle.journal_text.specs.Text.{close_text};
ghost use Rattle.journal_text.specs.declared.target.Close.{Close};
ghost use Rattle.journal_text.specs.declared.target.Close.TheVariants.{Refuted, Spent, Satisfied};

use crate::lines::write_close;
use crate::target::Close;
use crate::writer::JournalWriter;
use clause_core::formula::Formula;
use clause_core::lit::Lit;
use clause_core::valuation::Valuation;
use lrat_replay::ledger::{LearnFault, Ledger};
use lrat_replay::replay::{Refutation, Replay};
use lrat_replay::write::write_step;
use std::marker::Model;
use wire_io::fault::{Failed, Stopped};
use wire_io::sink::Sink;

/// Each hint is a number of its type, as it is read.
fn hint_bounds(hints: &[i32])
    ensures { All (FitsSigned w32) hints.now }
{
    for hint in hints {
        let _number = *hint;
    }
}

/// A ledger that writes the line of each step as soon as replay accepts it.
#[derive(Drop)]
pub struct Section<K: Sink> {
    sink: K,
    replay: Replay,
    broken: bool,
    before: u64,
    learned: u32,
}

impl<K: Sink> Model for Section<K> {
    ghost use Rattle.journal_text.specs.Kept.{Learning, learning_code, IsSection};

    ghost Value = { Learning K };

    ghost coded = { learning_code K.code };

    ghost view = { λ section. record { sink = section.sink; book = section.replay; broken = section.broken; before = section.before } };

    ghost invariant = { λ section. IsSection (K.got section.sink) section.replay section.broken section.before section.learned };
}

impl<K: Sink> Section<K> {
    /// A section without steps, the first line of which was written.
    pub(crate) fn begin(sink: K, replay: Replay, before: u64) -> Section<K>
        requires none { replay.steps ≡ [] }
        requires all { replay.deleted ≡ set.empty }
        requires asked { IfSome (K.got sink) (λ bytes. SpellsQuestion bytes before) }
        ensures { result ≡ record { sink = sink; book = replay; broken = false; before = before } }
    {
        // The number of clauses, which bounds the identifiers so far, is in the range of a formula's.
        let _clauses = replay.formula().count();
        Section {
            sink,
            replay,
            broken: false,
            before,
            learned: 0,
        }
    }

    /// Whether an empty clause was learned.
    pub fn reached(&self) -> bool
        ensures { result ≡ books.some_empty self.now.book.steps }
    {
        self.replay.reached()
    }

    /// How many steps were learned, at most 2,147,483,647.
    pub fn steps(&self) -> u32
        ensures count { result ≡ length self.now.book.steps }
        ensures counted { result ≤ 2147483647 }
        ensures spelled { IfSome (K.got self.now.sink) (λ bytes. SpellsSection bytes self.now.book self.now.broken self.now.before) }
        ensures begun { IfSome (K.got self.now.sink) (λ bytes. IsSectionBegun bytes (origin_of (K.got self.now.sink)) self.now.broken) }
    {
        self.learned
    }

    /// The sink as it is. What it got ends with the section, which is never closed.
    pub fn into_sink(self) -> K
        ensures same { result ≡ self.sink }
        ensures begun { IfSome (K.got result) (λ bytes. IsSectionBegun bytes (origin_of (K.got self.sink)) self.broken) }
    {
        let Section {
            sink,
            replay: _,
            broken: _,
            before: _,
            learned: _,
        } = self;
        sink
    }

    /// Writes the last line.
    fn close(self, close: Close) -> Result<(JournalWriter<K>, Replay), Stopped<Failed, K>>
        requires whole { self.broken ≡ false }
        requires bounds { IsClose close }
        ensures ok { IfOk result (λ pair. Wrote (K.got self.sink) (K.got pair.0.sink) (K.faults self.sink) (K.faults pair.0.sink) (close_text close)) }
        ensures whole { IfOk result (λ pair. pair.0.failed ≡ false) }
        ensures steps { IfOk result (λ pair. pair.0.steps ≡ capped (self.before + length self.book.steps)) }
        ensures replay { IfOk result (λ pair. pair.1 ≡ self.book) }
        ensures closed { IfOk result (λ pair. IfSome (K.got pair.0.sink) (λ bytes. IsClosed bytes (origin_of (K.got self.sink)) close (AreOf self.book))) }
        ensures cut { IfErr result (λ stopped. WasCut (K.got self.sink) (K.got stopped.held) (K.faults self.sink) (K.faults stopped.held) (close_text close)) }
    {
        let Section {
            mut sink,
            replay,
            broken: _,
            before,
            learned,
        } = self;
        if let Err(fault) = write_close(&mut sink, close) {
            return Err(Stopped { fault, held: sink });
        }
        let steps = before.saturating_add(u64::from(learned));
        Ok((JournalWriter::after(sink, steps), replay))
    }

    /// Closes the section as refuted. It is not broken, and an empty clause was learned.
    pub fn refuted(self) -> Result<(JournalWriter<K>, Refutation), Stopped<Failed, K>>
        requires whole { self.broken ≡ false }
        requires reached { books.some_empty self.book.steps ≡ true }
        ensures ok { IfOk result (λ pair. Wrote (K.got self.sink) (K.got pair.0.sink) (K.faults self.sink) (K.faults pair.0.sink) (close_text Refuted)) }
        ensures whole { IfOk result (λ pair. pair.0.failed ≡ false) }
        ensures steps { IfOk result (λ pair. pair.0.steps ≡ capped (self.before + length self.book.steps)) }
        ensures formula { IfOk result (λ pair. pair.1 ≡ self.book.formula) }
        ensures closed { IfOk result (λ pair. IfSome (K.got pair.0.sink) (λ bytes. IsClosed bytes (origin_of (K.got self.sink)) Refuted
            (λ steps. AreOf self.book steps × Refutes self.book.formula (map Add steps)))) }
        ensures cut { IfErr result (λ stopped. WasCut (K.got self.sink) (K.got stopped.held) (K.faults self.sink) (K.faults stopped.held) (close_text Refuted)) }
    {
        match self.close(Close::Refuted) {
            Err(stopped) => Err(stopped),
            Ok((writer, replay)) => {
                let Ok(refutation) = replay.refutation() else {
                    unreachable!();
                };
                Ok((writer, refutation))
            }
        }
    }

    /// Closes the section as one whose budget was spent. It is not broken, and exactly `budget` steps were learned, at most
    /// 200,000, each of them new and none empty.
    pub fn spent(self, budget: u32) -> Result<JournalWriter<K>, Stopped<Failed, K>>
        requires whole { self.broken ≡ false }
        requires few { budget ≤ 200000 }
        requires count { length self.book.steps ≡ budget }
        requires fresh { AreNew (books.start self.book.formula) self.book.steps }
        ensures ok { IfOk result (λ writer. Wrote (K.got self.sink) (K.got writer.sink) (K.faults self.sink) (K.faults writer.sink) (close_text (Spent budget))) }
        ensures whole { IfOk result (λ writer. writer.failed ≡ false) }
        ensures steps { IfOk result (λ writer. writer.steps ≡ capped (self.before + length self.book.steps)) }
        ensures closed { IfOk result (λ writer. IfSome (K.got writer.sink) (λ bytes. IsClosed bytes (origin_of (K.got self.sink)) (Spent budget)
            (λ steps. AreOf self.book steps × SpentWritten self.book.formula steps budget))) }
        ensures cut { IfErr result (λ stopped. WasCut (K.got self.sink) (K.got stopped.held) (K.faults self.sink) (K.faults stopped.held) (close_text (Spent budget))) }
    {
        match self.close(Close::Spent(budget)) {
            Err(stopped) => Err(stopped),
            Ok((writer, _)) => Ok(writer),
        }
    }

    /// Closes the section as one whose formula this valuation satisfies. It is not broken.
    pub fn satisfied(self, v: &Valuation) -> Result<JournalWriter<K>, Stopped<Failed, K>>
        requires whole { self.broken ≡ false }
        requires satisfies { IsSatisfiedBy v.now self.book.formula }
        ensures ok { IfOk result (λ writer. Wrote (K.got self.sink) (K.got writer.sink) (K.faults self.sink) (K.faults writer.sink) (close_text Satisfied)) }
        ensures whole { IfOk result (λ writer. writer.failed ≡ false) }
        ensures steps { IfOk result (λ writer. writer.steps ≡ capped (self.before + length self.book.steps)) }
        ensures closed { IfOk result (λ writer. IfSome (K.got writer.sink) (λ bytes. IsClosed bytes (origin_of (K.got self.sink)) Satisfied (AreOf self.book))) }
        ensures cut { IfErr result (λ stopped. WasCut (K.got self.sink) (K.got stopped.held) (K.faults self.sink) (K.faults stopped.held) (close_text Satisfied)) }
    {
        let _values = v;
        match self.close(Close::Satisfied) {
            Err(stopped) => Err(stopped),
            Ok((writer, _)) => Ok(writer),
        }
    }
}

impl<K: Sink> Ledger for Section<K> {
    ghost use Rattle.journal_text.specs.Origin.{origin_of};

    ghost book = { λ section. section.book };

    ghost broken = { λ section. section.broken };

    ghost origin = { λ section. origin_of (K.got section.sink) };

    ghost faults = { λ section. K.faults section.sink };

    fn formula(&self) -> &Formula {
        self.replay.formula()
    }

    fn last_id(&self) -> u32 {
        self.replay.last_id()
    }

    fn learn(&mut self, id: u32, clause: &[Lit], hints: &[i32]) -> Result<(), LearnFault> {
        hint_bounds(hints);
        if self.replay.step(id, clause, hints).is_err() {
            return Err(LearnFault::NoMemory);
        }
        self.learned += 1;
        if write_step(&mut self.sink, id, clause, hints).is_err() {
            self.broken = true;
            return Err(LearnFault::Failed);
        }
        Ok(())
    }
}

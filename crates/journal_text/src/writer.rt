//! Journals are written.
ghost use Rattle.std.specs.Prelude.{◌≡◌, ℕ, ◌≤◌, ◌^◌, Bool, true, false, List, [], OnOk, OnErr, IfOk, IfErr, IfSome, codes};
ghost use Rattle.wire_io.specs.Causes.{HasCause};
ghost use Rattle.wire_io.specs.Told.{Gains, GainsFront};
ghost use Rattle.lrat_replay.specs.Book.{start};
ghost use Rattle.report_text.specs.Bounds.{IsBlock};
ghost use Rattle.report_text.specs.Report.{block_text, parts_of_block};
ghost use Rattle.report_text.specs.declared.answer.Version.TheVariants.{Two};
ghost use Rattle.journal_text.specs.Bounds.{IsTarget, MayStand};
ghost use Rattle.journal_text.specs.Calls.{Wrote, WasCut, WasRefused, IsAskable};
ghost use Rattle.journal_text.specs.Kept.{IsWriter};
ghost use Rattle.journal_text.specs.Origin.{origin_of};
ghost use Rattle.journal_text.specs.Text.{head_text, question_text};

use crate::fault::JournalFault;
use crate::lines::{write_head, write_question};
use crate::section::Section;
use crate::target::Target;
use clause_core::formula::Formula;
use lattice_grid::rails::Rails;
use lrat_replay::replay::Replay;
use report_text::answer::Block;
use report_text::write::{write_block, write_end};
use std::alloc::Global;
use std::marker::Model;
use wire_io::fault::{Failed, Stopped};
use wire_io::sink::Sink;

/// A target that may be asked for is within its bounds, since its shape or its array is.
fn target_bounds(target: &Target)
    requires { IsAskable target.now }
    ensures { IsTarget target.now }
{
    match target {
        Target::Whole(shape) => {
            let _rows = shape.rows();
        }
        Target::Marked(array) => {
            let _shape = array.shape();
        }
    }
}

/// A sink to which a journal is written.
#[derive(Drop)]
pub struct JournalWriter<K: Sink> {
    sink: K,
    steps: u64,
    failed: bool,
}

impl<K: Sink> Model for JournalWriter<K> {
    ghost use Rattle.journal_text.specs.Kept.{Writing, writing_code, IsWriter};

    ghost Value = { Writing K };

    ghost coded = { writing_code K.code };

    ghost view = { λ writer. record { sink = writer.sink; steps = writer.steps; failed = writer.failed } };

    ghost invariant = { λ writer. IsWriter (K.got writer.sink) writer.steps writer.failed };
}

impl<K: Sink> JournalWriter<K> {
    /// Writes the lines before the parts to a sink that has got nothing.
    pub fn begin(mut sink: K, rails: Rails) -> Result<JournalWriter<K>, Stopped<Failed, K>>
        requires empty { IfSome (K.got sink) (λ bytes. bytes ≡ []) }
        ensures ok { IfOk result (λ writer. Wrote (K.got sink) (K.got writer.sink) (K.faults sink) (K.faults writer.sink) (head_text Two rails)) }
        ensures none { IfOk result (λ writer. writer.steps ≡ 0) }
        ensures whole { IfOk result (λ writer. writer.failed ≡ false) }
        ensures cut { IfErr result (λ stopped. WasCut (K.got sink) (K.got stopped.held) (K.faults sink) (K.faults stopped.held) (head_text Two rails)) }
    {
        if let Err(fault) = write_head(&mut sink, rails) {
            return Err(Stopped { fault, held: sink });
        }
        Ok(JournalWriter {
            sink,
            steps: 0,
            failed: false,
        })
    }

    /// Goes on behind parts with so many step lines.
    pub(crate) fn after(sink: K, steps: u64) -> JournalWriter<K>
        requires { IsWriter (K.got sink) steps false }
        ensures { result ≡ record { sink = sink; steps = steps; failed = false } }
    {
        JournalWriter {
            sink,
            steps,
            failed: false,
        }
    }

    /// How many step lines its closed sections have, or the greatest `u64` where there are more. Where no answer failed, the
    /// sink got the lines of parts that are within their bounds.
    pub fn steps(&self) -> u64
        ensures value { result ≡ self.now.steps }
        ensures spelled { IsWriter (K.got self.now.sink) result self.now.failed }
    {
        self.steps
    }

    /// The sink as it is.
    pub fn into_sink(self) -> K
        ensures { result ≡ self.sink }
    {
        let JournalWriter {
            sink,
            steps: _,
            failed: _,
        } = self;
        sink
    }

    /// Writes the first line of a section, which has this formula and no steps. No answer failed, the output is at most 63, and a
    /// shape without array has at most 32,768 cells.
    pub fn question(
        self,
        alloc: Global,
        output: u32,
        target: &Target,
        formula: Formula,
    ) -> Result<Section<K>, Stopped<JournalFault, K>>
        requires whole { self.failed ≡ false }
        requires output { output ≤ 63 }
        requires few { IsAskable target.now }
        ensures ok { IfOk result (λ section. Wrote (K.got self.sink) (K.got section.sink) (K.faults self.sink) (K.faults section.sink) (question_text output target.now)) }
        ensures book { IfOk result (λ section. section.book ≡ start formula) }
        ensures unbroken { IfOk result (λ section. section.broken ≡ false) }
        ensures before { IfOk result (λ section. section.before ≡ self.steps) }
        ensures origin { IfOk result (λ section. IfSome (K.got section.sink) (λ bytes. origin_of (K.got section.sink) ≡ bytes)) }
        ensures refused { IfErr result (λ stopped. WasRefused stopped.fault (K.got self.sink) (K.got stopped.held) (K.faults self.sink) (K.faults stopped.held) (question_text output target.now)) }
    {
        let JournalWriter {
            mut sink,
            steps,
            failed: _,
        } = self;
        target_bounds(target);
        let Ok(replay) = Replay::new(alloc, formula) else {
            return Err(Stopped {
                fault: JournalFault::NoMemory,
                held: sink,
            });
        };
        if write_question(&mut sink, output, target).is_err() {
            return Err(Stopped {
                fault: JournalFault::Sink,
                held: sink,
            });
        }
        Ok(Section::begin(sink, replay, steps))
    }

    /// Writes the answer for an output, which is not `Found`. No answer failed. After a failure the writer takes nothing more.
    pub fn answer(&mut self, block: &Block) -> Result<(), Failed>
        requires whole { self.old.failed ≡ false }
        requires block { IsBlock Two (parts_of_block block.now) }
        requires form { MayStand block.now.answer }
        ensures ok { OnOk result (Gains (K.got self.old.sink) (K.got self.new.sink) (block_text Two (parts_of_block block.now))) }
        ensures front { GainsFront (K.got self.old.sink) (K.got self.new.sink) (block_text Two (parts_of_block block.now)) }
        ensures cause { HasCause (K.faults self.old.sink) (K.faults self.new.sink) result }
        ensures whole { OnOk result (self.new.failed ≡ false) }
        ensures failed { OnErr result (self.new.failed ≡ true) }
        ensures steps { self.new.steps ≡ self.old.steps }
    {
        if let Err(fault) = write_block(&mut self.sink, block) {
            self.failed = true;
            return Err(fault);
        }
        Ok(())
    }

    /// Writes the last line, and hands the sink back. No answer failed.
    pub fn finish(self) -> Result<K, Stopped<Failed, K>>
        requires whole { self.failed ≡ false }
        ensures ok { IfOk result (λ sink. Wrote (K.got self.sink) (K.got sink) (K.faults self.sink) (K.faults sink) (codes "end\n")) }
        ensures cut { IfErr result (λ stopped. WasCut (K.got self.sink) (K.got stopped.held) (K.faults self.sink) (K.faults stopped.held) (codes "end\n")) }
    {
        let mut sink = self.into_sink();
        match write_end(&mut sink) {
            Ok(()) => Ok(sink),
            Err(fault) => Err(Stopped { fault, held: sink }),
        }
    }
}

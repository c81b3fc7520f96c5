//! The lines of a journal beside those of steps and answers.
ghost use Rattle.std.specs.Prelude.{◌≡◌, ◌++◌, OnOk, codes};
ghost use Rattle.wire_io.specs.Causes.{HasCause};
ghost use Rattle.wire_io.specs.Told.{Gains, GainsFront};
ghost use Rattle.report_text.specs.Bounds.{AreRails};
ghost use Rattle.report_text.specs.Cells.{size_text, array_text};
ghost use Rattle.report_text.specs.Writing.{Puts};
ghost use Rattle.report_text.specs.declared.answer.Version.TheVariants.{Two};
ghost use Rattle.journal_text.specs.Text.{head_text, target_text, question_text, close_text};
ghost use Rattle.journal_text.specs.declared.target.Close.TheVariants.{Spent};

use crate::target::{Close, Target};
use itoa::Buffer as Digits;
use lattice_grid::array::Array;
use lattice_grid::rails::Rails;
use report_text::write::{put_array, put_number, put_size};
use wire_io::buffer::Buffer;
use wire_io::fault::Failed;
use wire_io::sink::{Sink, write_all, write_pieces};

/// Writes the lines before the parts, or a front of them where the sink fails.
#[tactic(auto, unfolding(crate::specs::Text::head_text))]
pub(crate) fn write_head<K: Sink>(sink: &mut K, rails: Rails) -> Result<(), Failed>
    ensures ok { OnOk result (Gains (K.got sink.old) (K.got sink.new) (head_text Two rails)) }
    ensures front { GainsFront (K.got sink.old) (K.got sink.new) (head_text Two rails) }
    ensures cause { HasCause (K.faults sink.old) (K.faults sink.new) result }
    ensures rails { AreRails Two rails }
{
    let mut digits = Digits::new();
    let number = digits.format(rails.bits()).as_bytes();
    write_pieces(sink, &[b"lattice journal 2\nrails ", number, b"\n"])
}

/// Puts the size of an array, and its rows.
fn put_marked<K: Sink>(buffer: &mut Buffer, sink: &mut K, array: &Array) -> Result<(), Failed>
    ensures { Puts (K.got sink.old) (K.got sink.new) buffer.old buffer.new (K.faults sink.old) (K.faults sink.new) result
        (size_text array.now.size ++ (codes " " ++ array_text array.now)) }
{
    put_size(buffer, sink, array.shape())?;
    buffer.put(sink, b" ")?;
    put_array(buffer, sink, array)
}

/// Puts a target.
fn put_target<K: Sink>(buffer: &mut Buffer, sink: &mut K, target: &Target) -> Result<(), Failed>
    ensures { Puts (K.got sink.old) (K.got sink.new) buffer.old buffer.new (K.faults sink.old) (K.faults sink.new) result (target_text target.now) }
{
    match target {
        Target::Whole(shape) => put_size(buffer, sink, *shape),
        Target::Marked(array) => put_marked(buffer, sink, array),
    }
}

/// Puts what stands behind the output of a question.
fn put_asked<K: Sink>(buffer: &mut Buffer, sink: &mut K, target: &Target) -> Result<(), Failed>
    ensures { Puts (K.got sink.old) (K.got sink.new) buffer.old buffer.new (K.faults sink.old) (K.faults sink.new) result
        (codes " " ++ (target_text target.now ++ codes "\n")) }
{
    buffer.put(sink, b" ")?;
    put_target(buffer, sink, target)?;
    buffer.put(sink, b"\n")
}

/// Puts the first line of a section.
pub(crate) fn put_question<K: Sink>(
    buffer: &mut Buffer,
    sink: &mut K,
    output: u32,
    target: &Target,
) -> Result<(), Failed>
    ensures { Puts (K.got sink.old) (K.got sink.new) buffer.old buffer.new (K.faults sink.old) (K.faults sink.new) result (question_text output target.now) }
{
    put_number(buffer, sink, b"question ", output)?;
    put_asked(buffer, sink, target)
}

/// Writes the first line of a section, or a front of it where the sink fails.
pub(crate) fn write_question<K: Sink>(
    sink: &mut K,
    output: u32,
    target: &Target,
) -> Result<(), Failed>
    ensures ok { OnOk result (Gains (K.got sink.old) (K.got sink.new) (question_text output target.now)) }
    ensures front { GainsFront (K.got sink.old) (K.got sink.new) (question_text output target.now) }
    ensures cause { HasCause (K.faults sink.old) (K.faults sink.new) result }
{
    let mut buffer = Buffer::new();
    put_question(&mut buffer, sink, output, target)?;
    buffer.flush(sink)
}

/// Writes the closing line of a budget that was spent, or a front of it where the sink fails.
fn write_spent<K: Sink>(sink: &mut K, budget: u32) -> Result<(), Failed>
    ensures ok { OnOk result (Gains (K.got sink.old) (K.got sink.new) (close_text (Spent budget))) }
    ensures front { GainsFront (K.got sink.old) (K.got sink.new) (close_text (Spent budget)) }
    ensures cause { HasCause (K.faults sink.old) (K.faults sink.new) result }
{
    let mut digits = Digits::new();
    let number = digits.format(budget).as_bytes();
    write_pieces(sink, &[b"spent ", number, b"\n"])
}

/// Writes the last line of a section, or a front of it where the sink fails.
pub(crate) fn write_close<K: Sink>(sink: &mut K, close: Close) -> Result<(), Failed>
    ensures ok { OnOk result (Gains (K.got sink.old) (K.got sink.new) (close_text close)) }
    ensures front { GainsFront (K.got sink.old) (K.got sink.new) (close_text close) }
    ensures cause { HasCause (K.faults sink.old) (K.faults sink.new) result }
{
    match close {
        Close::Refuted => write_all(sink, b"refuted\n"),
        Close::Spent(budget) => write_spent(sink, budget),
        Close::Satisfied => write_all(sink, b"satisfied\n"),
    }
}

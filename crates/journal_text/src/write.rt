//! Journals that were read are written.
ghost use Rattle.std.specs.Prelude.{◌++◌, OnOk, codes, decimal};
ghost use Rattle.std.specs.List.{flat_map};
ghost use Rattle.wire_io.specs.Causes.{HasCause};
ghost use Rattle.wire_io.specs.Told.{Gains, GainsFront};
ghost use Rattle.report_text.specs.Writing.{Puts};
ghost use Rattle.journal_text.specs.Bounds.{IsJournal};
ghost use Rattle.journal_text.specs.Lines.{line_text};
ghost use Rattle.journal_text.specs.Parts.{section_of, part_of, parts_of_journal};
ghost use Rattle.journal_text.specs.Text.{head_text, steps_text, close_text, section_text, part_text, parts_text, journal_text};

use crate::journal::{Journal, Part, PartKind, SectionText, StepLine};
use crate::lines::put_question;
use crate::target::Close;
use lrat_replay::write::put_step;
use report_text::answer::Version;
use report_text::write::{put_block, put_number};
use wire_io::buffer::Buffer;
use wire_io::fault::Failed;
use wire_io::sink::Sink;

/// Puts the lines before the parts.
fn put_head<K: Sink>(
    buffer: &mut Buffer,
    sink: &mut K,
    version: Version,
    rails: u32,
) -> Result<(), Failed>
    ensures { Puts (K.got sink.old) (K.got sink.new) buffer.old buffer.new (K.faults sink.old) (K.faults sink.new) result (head_text version rails) }
{
    match version {
        Version::One => buffer.put(sink, b"lattice journal 1\n"),
        Version::Two => put_lead(buffer, sink, b"lattice journal 2\nrails ", rails),
    }
}

/// Puts a number behind a lead, and a line feed.
fn put_lead<K: Sink>(
    buffer: &mut Buffer,
    sink: &mut K,
    lead: &[u8],
    number: u32,
) -> Result<(), Failed>
    ensures { Puts (K.got sink.old) (K.got sink.new) buffer.old buffer.new (K.faults sink.old) (K.faults sink.new) result (lead.now ++ (decimal number ++ codes "\n")) }
{
    put_number(buffer, sink, lead, number)?;
    buffer.put(sink, b"\n")
}

/// Puts the lines of steps.
fn put_steps<K: Sink>(buffer: &mut Buffer, sink: &mut K, steps: &[StepLine]) -> Result<(), Failed>
    ensures { Puts (K.got sink.old) (K.got sink.new) buffer.old buffer.new (K.faults sink.old) (K.faults sink.new) result (flat_map line_text steps.now) }
{
    for line in steps {
        let step = &line.step;
        put_step(
            buffer,
            sink,
            step.id,
            step.clause.as_slice(),
            step.hints.as_slice(),
        )?;
    }
    Ok(())
}

/// Puts the last line of a section.
fn put_close<K: Sink>(buffer: &mut Buffer, sink: &mut K, close: Close) -> Result<(), Failed>
    ensures { Puts (K.got sink.old) (K.got sink.new) buffer.old buffer.new (K.faults sink.old) (K.faults sink.new) result (close_text close) }
{
    match close {
        Close::Refuted => buffer.put(sink, b"refuted\n"),
        Close::Spent(budget) => put_lead(buffer, sink, b"spent ", budget),
        Close::Satisfied => buffer.put(sink, b"satisfied\n"),
    }
}

/// Puts the lines of a section behind its first one.
fn put_inner<K: Sink>(
    buffer: &mut Buffer,
    sink: &mut K,
    section: &SectionText,
) -> Result<(), Failed>
    ensures { Puts (K.got sink.old) (K.got sink.new) buffer.old buffer.new (K.faults sink.old) (K.faults sink.new) result
        (steps_text (section_of section.now).steps ++ close_text section.now.close) }
{
    put_steps(buffer, sink, &section.steps)?;
    put_close(buffer, sink, section.close)
}

/// Puts the lines of a section.
fn put_section<K: Sink>(
    buffer: &mut Buffer,
    sink: &mut K,
    section: &SectionText,
) -> Result<(), Failed>
    ensures { Puts (K.got sink.old) (K.got sink.new) buffer.old buffer.new (K.faults sink.old) (K.faults sink.new) result (section_text (section_of section.now)) }
{
    put_question(buffer, sink, section.output, &section.target)?;
    put_inner(buffer, sink, section)
}

/// Puts the lines of a part.
fn put_part<K: Sink>(
    buffer: &mut Buffer,
    sink: &mut K,
    version: Version,
    part: &Part,
) -> Result<(), Failed>
    ensures { Puts (K.got sink.old) (K.got sink.new) buffer.old buffer.new (K.faults sink.old) (K.faults sink.new) result (part_text version (part_of part.now)) }
{
    match &part.what {
        PartKind::Question(section) => put_section(buffer, sink, section),
        PartKind::Answer(block) => put_block(buffer, sink, block, version),
    }
}

/// Puts the lines of parts.
fn put_parts<K: Sink>(
    buffer: &mut Buffer,
    sink: &mut K,
    version: Version,
    parts: &[Part],
) -> Result<(), Failed>
    ensures { Puts (K.got sink.old) (K.got sink.new) buffer.old buffer.new (K.faults sink.old) (K.faults sink.new) result (flat_map (λ p. part_text version (part_of p)) parts.now) }
{
    for part in parts {
        put_part(buffer, sink, version, part)?;
    }
    Ok(())
}

/// Puts the lines behind the head.
fn put_body<K: Sink>(buffer: &mut Buffer, sink: &mut K, journal: &Journal) -> Result<(), Failed>
    ensures { Puts (K.got sink.old) (K.got sink.new) buffer.old buffer.new (K.faults sink.old) (K.faults sink.new) result
        (parts_text journal.now.version (parts_of_journal journal.now).parts ++ codes "end\n") }
{
    put_parts(buffer, sink, journal.version, &journal.parts)?;
    buffer.put(sink, b"end\n")
}

/// Puts the lines of a journal.
fn put_journal<K: Sink>(buffer: &mut Buffer, sink: &mut K, journal: &Journal) -> Result<(), Failed>
    ensures { Puts (K.got sink.old) (K.got sink.new) buffer.old buffer.new (K.faults sink.old) (K.faults sink.new) result (journal_text (parts_of_journal journal.now)) }
{
    put_head(buffer, sink, journal.version, journal.rails)?;
    put_body(buffer, sink, journal)
}

/// Writes a journal as a text of its version, or a front of it where the sink fails. The numbers of its lines do not
/// enter the text.
pub fn write_journal<K: Sink>(journal: &Journal, sink: &mut K) -> Result<(), Failed>
    requires { IsJournal (parts_of_journal journal.now) }
    ensures ok { OnOk result (Gains (K.got sink.old) (K.got sink.new) (journal_text (parts_of_journal journal.now))) }
    ensures front { GainsFront (K.got sink.old) (K.got sink.new) (journal_text (parts_of_journal journal.now)) }
    ensures cause { HasCause (K.faults sink.old) (K.faults sink.new) result }
{
    let mut buffer = Buffer::new();
    put_journal(&mut buffer, sink, journal)?;
    buffer.flush(sink)
}

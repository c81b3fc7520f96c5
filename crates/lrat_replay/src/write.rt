//! The text of a step, written.
ghost use Rattle.std.specs.Prelude.{◌≡◌, ℕ, ◌++◌, OnOk, codes};
ghost use Rattle.std.specs.Fmt.{signed_decimal};
ghost use Rattle.wire_io.specs.Causes.{HasCause};
ghost use Rattle.wire_io.specs.Told.{Gains, GainsFront};
ghost use Rattle.wire_io.specs.Passing.{Passes};
ghost use Rattle.lrat_replay.specs.LratText.{id_text, hints_text, end_text, step_text};

use clause_core::lit::Lit;
use clause_core::write::put_literals;
use itoa::Buffer as Digits;
use wire_io::buffer::Buffer;
use wire_io::fault::Failed;
use wire_io::sink::Sink;

/// Adds an identifier, with a blank behind it.
fn put_id<K: Sink>(buffer: &mut Buffer, sink: &mut K, id: u32) -> Result<(), Failed>
    ensures ok { OnOk result (Passes (K.got sink.old) (K.got sink.new) buffer.old buffer.new (id_text id)) }
    ensures front { GainsFront (K.got sink.old) (K.got sink.new) (buffer.old ++ id_text id) }
    ensures cause { HasCause (K.faults sink.old) (K.faults sink.new) result }
{
    let mut digits = Digits::new();
    let number = digits.format(id).as_bytes();
    buffer.put_all(sink, &[number, b" "])
}

/// Adds a hint, with a blank behind it.
fn put_hint<K: Sink>(buffer: &mut Buffer, sink: &mut K, hint: i32) -> Result<(), Failed>
    ensures ok { OnOk result (Passes (K.got sink.old) (K.got sink.new) buffer.old buffer.new (signed_decimal hint ++ codes " ")) }
    ensures front { GainsFront (K.got sink.old) (K.got sink.new) (buffer.old ++ (signed_decimal hint ++ codes " ")) }
    ensures cause { HasCause (K.faults sink.old) (K.faults sink.new) result }
{
    let mut digits = Digits::new();
    let number = digits.format(hint).as_bytes();
    buffer.put_all(sink, &[number, b" "])
}

/// Adds hints, each with a blank behind it.
fn put_hints<K: Sink>(buffer: &mut Buffer, sink: &mut K, hints: &[i32]) -> Result<(), Failed>
    ensures ok { OnOk result (Passes (K.got sink.old) (K.got sink.new) buffer.old buffer.new (hints_text hints.now)) }
    ensures front { GainsFront (K.got sink.old) (K.got sink.new) (buffer.old ++ hints_text hints.now) }
    ensures cause { HasCause (K.faults sink.old) (K.faults sink.new) result }
{
    for hint in hints {
        put_hint(buffer, sink, *hint)?;
    }
    Ok(())
}

/// Adds what stands behind the literals of a step.
fn put_end<K: Sink>(buffer: &mut Buffer, sink: &mut K, hints: &[i32]) -> Result<(), Failed>
    ensures ok { OnOk result (Passes (K.got sink.old) (K.got sink.new) buffer.old buffer.new (end_text hints.now)) }
    ensures front { GainsFront (K.got sink.old) (K.got sink.new) (buffer.old ++ end_text hints.now) }
    ensures cause { HasCause (K.faults sink.old) (K.faults sink.new) result }
{
    buffer.put(sink, b"0 ")?;
    put_hints(buffer, sink, hints)?;
    buffer.put(sink, b"0\n")
}

/// Adds the line of a step behind what waits.
pub fn put_step<K: Sink>(
    buffer: &mut Buffer,
    sink: &mut K,
    id: u32,
    clause: &[Lit],
    hints: &[i32],
) -> Result<(), Failed>
    ensures ok { OnOk result (Passes (K.got sink.old) (K.got sink.new) buffer.old buffer.new (step_text id clause.now hints.now)) }
    ensures front { GainsFront (K.got sink.old) (K.got sink.new) (buffer.old ++ step_text id clause.now hints.now) }
    ensures cause { HasCause (K.faults sink.old) (K.faults sink.new) result }
{
    put_id(buffer, sink, id)?;
    put_literals(buffer, sink, clause)?;
    put_end(buffer, sink, hints)
}

/// Writes the line of a step. It fails only where the sink does, which then has a front of the line.
pub fn write_step<K: Sink>(
    sink: &mut K,
    id: u32,
    clause: &[Lit],
    hints: &[i32],
) -> Result<(), Failed>
    ensures ok { OnOk result (Gains (K.got sink.old) (K.got sink.new) (step_text id clause.now hints.now)) }
    ensures front { GainsFront (K.got sink.old) (K.got sink.new) (step_text id clause.now hints.now) }
    ensures cause { HasCause (K.faults sink.old) (K.faults sink.new) result }
{
    let mut buffer = Buffer::new();
    put_step(&mut buffer, sink, id, clause, hints)?;
    buffer.flush(sink)
}

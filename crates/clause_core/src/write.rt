//! The text of a formula, written.
ghost use Rattle.std.specs.Prelude.{◌≡◌, ℕ, ◌++◌, OnOk, codes};
ghost use Rattle.wire_io.specs.Causes.{HasCause};
ghost use Rattle.wire_io.specs.Told.{Gains, GainsFront};
ghost use Rattle.wire_io.specs.Passing.{Passes};
ghost use Rattle.clause_core.specs.Cnf.{literal_text, literals_text, clause_text, head_text, cnf_text};

use crate::formula::Formula;
use crate::lit::Lit;
use itoa::Buffer as Digits;
use wire_io::buffer::Buffer;
use wire_io::fault::Failed;
use wire_io::sink::Sink;

/// Adds the number of a literal, with a blank behind it.
fn put_literal<K: Sink>(buffer: &mut Buffer, sink: &mut K, lit: Lit) -> Result<(), Failed>
    ensures ok { OnOk result (Passes (K.got sink.old) (K.got sink.new) buffer.old buffer.new (literal_text lit ++ codes " ")) }
    ensures front { GainsFront (K.got sink.old) (K.got sink.new) (buffer.old ++ (literal_text lit ++ codes " ")) }
    ensures cause { HasCause (K.faults sink.old) (K.faults sink.new) result }
{
    let mut digits = Digits::new();
    let number = digits.format(lit.signed()).as_bytes();
    buffer.put_all(sink, &[number, b" "])
}

/// Adds the numbers of literals, each with a blank behind it.
pub fn put_literals<K: Sink>(
    buffer: &mut Buffer,
    sink: &mut K,
    clause: &[Lit],
) -> Result<(), Failed>
    ensures ok { OnOk result (Passes (K.got sink.old) (K.got sink.new) buffer.old buffer.new (literals_text clause.now)) }
    ensures front { GainsFront (K.got sink.old) (K.got sink.new) (buffer.old ++ literals_text clause.now) }
    ensures cause { HasCause (K.faults sink.old) (K.faults sink.new) result }
{
    for lit in clause {
        put_literal(buffer, sink, *lit)?;
    }
    Ok(())
}

/// Adds the line of a clause.
fn put_clause<K: Sink>(buffer: &mut Buffer, sink: &mut K, clause: &[Lit]) -> Result<(), Failed>
    ensures ok { OnOk result (Passes (K.got sink.old) (K.got sink.new) buffer.old buffer.new (clause_text clause.now)) }
    ensures front { GainsFront (K.got sink.old) (K.got sink.new) (buffer.old ++ clause_text clause.now) }
    ensures cause { HasCause (K.faults sink.old) (K.faults sink.new) result }
{
    put_literals(buffer, sink, clause)?;
    buffer.put(sink, b"0\n")
}

/// Adds the first line.
fn put_head<K: Sink>(
    buffer: &mut Buffer,
    sink: &mut K,
    vars: u32,
    clauses: u32,
) -> Result<(), Failed>
    ensures ok { OnOk result (Passes (K.got sink.old) (K.got sink.new) buffer.old buffer.new (head_text vars clauses)) }
    ensures front { GainsFront (K.got sink.old) (K.got sink.new) (buffer.old ++ head_text vars clauses) }
    ensures cause { HasCause (K.faults sink.old) (K.faults sink.new) result }
{
    let mut vars_digits = Digits::new();
    let mut clauses_digits = Digits::new();
    let many_vars = vars_digits.format(vars).as_bytes();
    let many_clauses = clauses_digits.format(clauses).as_bytes();
    buffer.put_all(sink, &[b"p cnf ", many_vars, b" ", many_clauses, b"\n"])
}

/// Writes the text of a formula. It fails only where the sink does, which then has a front of the text.
pub fn write_cnf<K: Sink>(formula: &Formula, sink: &mut K) -> Result<(), Failed>
    ensures ok { OnOk result (Gains (K.got sink.old) (K.got sink.new) (cnf_text formula.now)) }
    ensures front { GainsFront (K.got sink.old) (K.got sink.new) (cnf_text formula.now) }
    ensures cause { HasCause (K.faults sink.old) (K.faults sink.new) result }
{
    let mut buffer = Buffer::new();
    put_head(&mut buffer, sink, formula.vars(), formula.count())?;
    for index in 0..formula.count() {
        put_clause(&mut buffer, sink, formula.clause(index))?;
    }
    buffer.flush(sink)
}

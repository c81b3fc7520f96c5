//! Runs of the command `pairs`.
use four_lattice::run::run;
use four_lattice::status::Status;
use run_rows::row::{Row, done, refused, try_row, words_of};
use std::test::Fail;
use wire_io::firm::{FirmSink, FirmSource};
use wire_io::memory::{MemorySink, MemorySource};

/// The text of the conjunction of two inputs, and its report.
const AND: &str = ".i 2\n.o 1\n11 1\n.e\n";

const AND_REPORT: &str =
    "lattice report 2\ninputs x0 x1\nrails 1048575\noutput 0 f0 found 3x1\nx0\nx1\nx0\nend\n";

/// The words of the command.
const PAIRS: &[&str] = &["pairs"];

#[test]
fn texts(rt: HostRuntime) -> Result<(), Fail> {
    let rows = [
        done(PAIRS, AND, "", AND_REPORT),
        // What follows the last line is not looked at.
        done(
            PAIRS,
            ".i 1\n.o 2\n- 10\n.e\nrest",
            "",
            "lattice report 2\ninputs x0\nrails 1048575\noutput 0 f0 found 1x1\n1\noutput 1 f1 found 1x1\n0\nend\n",
        ),
        // Parity of two inputs: two off assignments, 0 and 3, and two on assignments, 1 and 2.
        done(
            PAIRS,
            ".i 2\n.o 1\n10 1\n01 1\n.e\n",
            "",
            "lattice report 2\ninputs x0 x1\nrails 1048575\noutput 0 f0 found 2x2\nx0 x1\nx1' x0'\nend\n",
        ),
        // Neither on nor off.
        done(
            PAIRS,
            ".i 2\n.o 1\n.type fr\n.e\n",
            "",
            "lattice report 2\ninputs x0 x1\nrails 1048575\noutput 0 f0 found 1x1\n0\nend\n",
        ),
        done(
            PAIRS,
            ".i 2\n.o 1\n.type fr\n11 1\n00 0\n.e\n",
            "",
            "lattice report 2\ninputs x0 x1\nrails 1048575\noutput 0 f0 found 1x1\nx0\nend\n",
        ),
        // A don't-care wins over on, and nothing is off.
        done(
            PAIRS,
            ".i 2\n.o 1\n.type fdr\n1- 1\n11 -\n.e\n",
            "",
            "lattice report 2\ninputs x0 x1\nrails 1048575\noutput 0 f0 found 1x1\n1\nend\n",
        ),
        // As another tool writes it: Windows line ends, tabs, comments, a count of rows, names, a bar between the planes, no last line.
        done(
            PAIRS,
            "# one\r\n.i\t2\r\n.o 1 # two\r\n.ilb a b\r\n.ob\tf\r\n.p 1\r\n.type fd\r\n1 1|4\r\n",
            "",
            "lattice report 2\ninputs a b\nrails 1048575\noutput 0 f found 3x1\nx0\nx1\nx0\nend\n",
        ),
    ];
    for row in &rows {
        try_row(rt.alloc(), row)?;
    }
    Ok(())
}

/// A row whose text is refused.
fn refused_text(text: &'static str, notes: &'static str) -> Row {
    refused(PAIRS, text, "", Status::Input, notes)
}

#[test]
fn refused_texts(rt: HostRuntime) -> Result<(), Fail> {
    let rows = [
        refused_text(".i 2\n.o 1\n1 1\n", "input refused: RowLength at line 3\n"),
        refused_text(".i 2\n.o 1\n1x 1\n", "input refused: BadDigit at line 3\n"),
        refused_text(".i 2\n11 1\n", "input refused: Missing at line 2\n"),
        refused_text(
            ".i 2\n.o 1\n11 1\n.type f\n",
            "input refused: Late at line 4\n",
        ),
        refused_text(".i 2\n.i 2\n", "input refused: Repeated at line 2\n"),
        refused_text(".foo\n", "input refused: UnknownWord at line 1\n"),
        refused_text(".mv 3\n", "input refused: Unsupported at line 1\n"),
        refused_text(".i two\n", "input refused: BadNumber at line 1\n"),
        refused_text(".i 11\n", "input refused: Inputs at line 1\n"),
        refused_text(".o 65\n", "input refused: Outputs at line 1\n"),
        refused_text(".i 2\n.ilb a a\n", "input refused: Names at line 2\n"),
        refused_text("", "input refused: Missing at line 1\n"),
        refused_text(
            ".i 2\n.o 1\n.type fr\n1- 1\n11 0\n.e\n",
            "input refused: Conflict output 0 assignment 3\n",
        ),
        refused_text(".e \x01\n", "input refused: BadByte at line 1\n"),
    ];
    for row in &rows {
        try_row(rt.alloc(), row)?;
    }
    Ok(())
}

#[test]
fn no_words(rt: HostRuntime) -> Result<(), Fail> {
    let alloc = rt.alloc();
    let mut pla = FirmSource::new(AND.as_bytes().to_vec(alloc)?, 4);
    let mut side = FirmSource::new(Vec::new(alloc), 4);
    let mut out = FirmSink::new(alloc, 200, 7)?;
    let mut notes = FirmSink::new(alloc, 200, 1)?;
    let journal = FirmSink::new(alloc, 1, 1)?;
    let mut finders = Vec::new(alloc);
    let ended = run(
        alloc,
        &[],
        &mut pla,
        &mut side,
        &mut out,
        journal,
        &mut notes,
        &mut finders,
    );
    assert_eq!(rt; ended.status, Status::Words);
    assert_eq!(rt; ended.status.number(), 1);
    assert_eq!(rt; notes.bytes(), b"words refused\n".as_slice());
    assert_eq!(rt; out.total(), 0);
    assert_eq!(rt; ended.journal.total(), 0);
    Ok(())
}

#[test]
fn a_source_that_fails(rt: HostRuntime) -> Result<(), Fail> {
    let alloc = rt.alloc();
    let words = words_of(alloc, PAIRS)?;
    let mut pla = MemorySource::new(AND.as_bytes().to_vec(alloc)?, 4, vec![in alloc; 2]?);
    let mut side = MemorySource::new(Vec::new(alloc), 4, Vec::new(alloc));
    let mut out = MemorySink::new(alloc, 200, 7, Vec::new(alloc))?;
    let mut notes = MemorySink::new(alloc, 200, 1, Vec::new(alloc))?;
    let journal = MemorySink::new(alloc, 1, 1, Vec::new(alloc))?;
    let mut finders = Vec::new(alloc);
    let ended = run(
        alloc,
        &words,
        &mut pla,
        &mut side,
        &mut out,
        journal,
        &mut notes,
        &mut finders,
    );
    assert_eq!(rt; ended.status, Status::ReadFault);
    assert_eq!(rt; notes.bytes(), b"read fault\n".as_slice());
    assert_eq!(rt; out.bytes().len(), 0);
    assert_eq!(rt; ended.journal.bytes().len(), 0);
    Ok(())
}

#[test]
fn a_sink_that_fails(rt: HostRuntime) -> Result<(), Fail> {
    let alloc = rt.alloc();
    let words = words_of(alloc, PAIRS)?;
    let mut pla = MemorySource::new(AND.as_bytes().to_vec(alloc)?, 4, Vec::new(alloc));
    let mut side = MemorySource::new(Vec::new(alloc), 4, Vec::new(alloc));
    let mut out = MemorySink::new(alloc, 200, 1, vec![in alloc; 2]?)?;
    let mut notes = MemorySink::new(alloc, 200, 1, Vec::new(alloc))?;
    let journal = MemorySink::new(alloc, 1, 1, Vec::new(alloc))?;
    let mut finders = Vec::new(alloc);
    let ended = run(
        alloc,
        &words,
        &mut pla,
        &mut side,
        &mut out,
        journal,
        &mut notes,
        &mut finders,
    );
    assert_eq!(rt; ended.status, Status::WriteFault);
    assert_eq!(rt; out.bytes(), b"l".as_slice());
    assert_eq!(rt; notes.bytes(), b"write fault\n".as_slice());
    assert_eq!(rt; ended.journal.bytes().len(), 0);
    Ok(())
}

#[test]
fn notes_that_fail(rt: HostRuntime) -> Result<(), Fail> {
    let alloc = rt.alloc();
    let mut pla = MemorySource::new(Vec::new(alloc), 4, Vec::new(alloc));
    let mut side = MemorySource::new(Vec::new(alloc), 4, Vec::new(alloc));
    let mut out = MemorySink::new(alloc, 200, 1, Vec::new(alloc))?;
    let mut notes = MemorySink::new(alloc, 200, 1, vec![in alloc; 3]?)?;
    let journal = MemorySink::new(alloc, 1, 1, Vec::new(alloc))?;
    let mut finders = Vec::new(alloc);
    let ended = run(
        alloc,
        &[],
        &mut pla,
        &mut side,
        &mut out,
        journal,
        &mut notes,
        &mut finders,
    );
    assert_eq!(rt; ended.status, Status::Words);
    assert_eq!(rt; notes.bytes(), b"wo".as_slice());
    assert_eq!(rt; ended.journal.bytes().len(), 0);
    Ok(())
}

//! Runs of the command `verify`.
use four_lattice::run::run;
use four_lattice::status::Status;
use run_rows::row::{Row, done, refused, try_row, words_of};
use std::test::Fail;
use wire_io::memory::{MemorySink, MemorySource};

/// The words of the command.
const VERIFY: &[&str] = &["verify", "J"];

/// The conjunction of two inputs, and its report.
const AND: &str = ".i 2\n.o 1\n11 1\n.e\n";

const AND_REPORT: &str = "lattice report 1\ninputs x0 x1\noutput 0 f0 found 3x1\nx0\nx1\nx0\nend\n";

/// Parity of two inputs, and the report of their disjunction.
const PARITY: &str = ".i 2\n.o 1\n10 1\n01 1\n.e\n";

const OR_REPORT: &str = "lattice report 1\ninputs x0 x1\noutput 0 f0 found 1x2\nx0 x1\nend\n";

/// Two outputs, and a report of both.
const TWO: &str = ".i 2\n.o 2\n11 10\n1- 01\n.e\n";

const TWO_REPORT: &str =
    "lattice report 1\ninputs x0 x1\noutput 0 f0 found 2x1\nx0\nx1\noutput 1 f1 minimum 1x1\nx0\nend\n";

/// A row whose report does not verify.
fn unconfirmed(pla: &'static str, side: &'static str, notes: &'static str) -> Row {
    refused(VERIFY, pla, side, Status::Unconfirmed, notes)
}

#[test]
fn reports(rt: HostRuntime) -> Result<(), Fail> {
    let rows = [
        done(VERIFY, AND, AND_REPORT, "realised 1\n"),
        done(VERIFY, TWO, TWO_REPORT, "realised 2\n"),
        done(
            VERIFY,
            AND,
            "lattice report 1\ninputs x0 x1\nend\n",
            "realised 0\n",
        ),
        unconfirmed(
            PARITY,
            OR_REPORT,
            "not confirmed: Wrong at line 3 assignment 3\n",
        ),
        unconfirmed(
            AND,
            "lattice report 1\ninputs x0\nend\n",
            "not confirmed: Inputs at line 2\n",
        ),
        unconfirmed(
            TWO,
            "lattice report 1\ninputs x0 x1\noutput 0 f0 found 1x1\nx0\nend\n",
            "not confirmed: Wrong at line 3 assignment 1\n",
        ),
        unconfirmed(
            TWO,
            "lattice report 1\ninputs x0 x1\noutput 0 f0 found 2x1\nx0\nx1\noutput 1 f0 found 1x1\nx0\nend\n",
            "not confirmed: Output at line 6\n",
        ),
        unconfirmed(
            TWO,
            "lattice report 1\ninputs x0 x1\noutput 1 f1 found 1x1\nx0\noutput 0 f0 found 2x1\nx0\nx1\nend\n",
            "not confirmed: Output at line 5\n",
        ),
        unconfirmed(
            AND,
            "lattice report 1\ninputs x0 x1\noutput 1 f1 found 1x1\nx0\nend\n",
            "not confirmed: Output at line 3\n",
        ),
        unconfirmed(
            AND,
            "lattice report 1\ninputs x0 x1\noutput 0 f0 found 1x1\nx2\nend\n",
            "not confirmed: Literal at line 3\n",
        ),
    ];
    for row in &rows {
        try_row(rt.alloc(), row)?;
    }
    Ok(())
}

#[test]
fn reports_of_version_2(rt: HostRuntime) -> Result<(), Fail> {
    let rows = [
        done(
            VERIFY,
            AND,
            "lattice report 2\ninputs x0 x1\nrails 1048575\noutput 0 f0 minimum 2x1\nx1\nx0\nrefuted 1x1:1\nend\n",
            "realised 1\n",
        ),
        done(
            VERIFY,
            AND,
            "lattice report 2\ninputs x0 x1\nrails 1048575\noutput 0 f0 mapped 2x2 .o/.o\nx0 x1\nx1 x0\nend\n",
            "realised 1\n",
        ),
        done(
            VERIFY,
            AND,
            "lattice report 2\ninputs x0 x1\nrails 1\noutput 0 f0 norails 3 1\nend\n",
            "realised 1\n",
        ),
        unconfirmed(
            AND,
            "lattice report 2\ninputs x0 x1\nrails 1048575\noutput 0 f0 mapped 2x1 c/.\nx0\nx1\nend\n",
            "not confirmed: Wrong at line 4 assignment 2\n",
        ),
        unconfirmed(
            AND,
            "lattice report 2\ninputs x0 x1\nrails 1\noutput 0 f0 found 2x1\nx1\nx0\nend\n",
            "not confirmed: Literal at line 4\n",
        ),
        unconfirmed(
            TWO,
            "lattice report 2\ninputs x0 x1\nrails 1048575\noutput 0 f0 minimum 2x1\nx1\nx0\nrefuted\noutput 0 f0 none 1x1 .\nrefuted\nend\n",
            "not confirmed: Output at line 8\n",
        ),
    ];
    for row in &rows {
        try_row(rt.alloc(), row)?;
    }
    Ok(())
}

/// A row whose side file is refused.
fn refused_side(side: &'static str, notes: &'static str) -> Row {
    refused(VERIFY, AND, side, Status::Side, notes)
}

#[test]
fn refused_sides(rt: HostRuntime) -> Result<(), Fail> {
    let rows = [
        refused_side("lattice re", "side refused: Truncated at line 1\n"),
        refused_side(
            "lattice report 1\ninputs x0 x1\noutput 0 f0 found 3x1\nx0 x0\nx1\nx0\nend\n",
            "side refused: Grid at line 4\n",
        ),
        refused_side("lattice report 3\n", "side refused: Header at line 1\n"),
        refused_side(
            "lattice report 2\ninputs x0 x1\nend\n",
            "side refused: Rails at line 3\n",
        ),
        refused_side(
            "lattice report 2\ninputs x0 x1\nrails 1048576\nend\n",
            "side refused: Rails at line 3\n",
        ),
        refused_side(
            "lattice report 2\ninputs x0 x1\nrails 1048575\noutput 0 f0 minimum 2x1\nx1\nx0\nend\n",
            "side refused: Proofs at line 7\n",
        ),
        refused_side(
            "lattice report 1\ninputs\n",
            "side refused: Inputs at line 2\n",
        ),
        refused_side(
            "lattice report 1\ninputs x0 x1\noutput 0 f0\n",
            "side refused: Block at line 3\n",
        ),
        refused_side(
            "lattice report 1\ninputs x0 x1\nend\n\n",
            "side refused: Trailing at line 4\n",
        ),
        // The PLA decides where both are faulty.
        refused(
            VERIFY,
            ".foo\n",
            "lattice re",
            Status::Input,
            "input refused: UnknownWord at line 1\n",
        ),
    ];
    for row in &rows {
        try_row(rt.alloc(), row)?;
    }
    Ok(())
}

#[test]
fn a_side_that_fails(rt: HostRuntime) -> Result<(), Fail> {
    let alloc = rt.alloc();
    let words = words_of(alloc, VERIFY)?;
    let mut pla = MemorySource::new(AND.as_bytes().to_vec(alloc)?, 4, Vec::new(alloc));
    let mut side = MemorySource::new(AND_REPORT.as_bytes().to_vec(alloc)?, 4, vec![in alloc; 3]?);
    let mut out = MemorySink::new(alloc, 200, 1, Vec::new(alloc))?;
    let mut notes = MemorySink::new(alloc, 200, 1, Vec::new(alloc))?;
    let journal = MemorySink::new(alloc, 1, 1, Vec::new(alloc))?;
    let mut finders = Vec::new(alloc);
    let ended = run(
        alloc,
        &words,
        &mut pla,
        &mut side,
        &mut out,
        journal,
        &mut notes,
        &mut finders,
    );
    assert_eq!(rt; ended.status, Status::ReadFault);
    assert_eq!(rt; out.bytes().len(), 0);
    assert_eq!(rt; notes.bytes(), b"read fault\n".as_slice());
    assert_eq!(rt; ended.journal.bytes().len(), 0);
    Ok(())
}

//! Runs of the command `check`.
use four_lattice::run::run;
use four_lattice::status::Status;
use run_rows::row::{Row, done, refused, try_row, words_of};
use std::test::Fail;
use wire_io::memory::{MemorySink, MemorySource};

/// A variable and its complement.
const BOTH: &str = "p cnf 1 2\n1 0\n-1 0\n";

/// The four clauses over two variables.
const FOUR: &str = "p cnf 2 4\n1 2 0\n1 -2 0\n-1 2 0\n-1 -2 0\n";

/// The words of the command.
const CHECK: &[&str] = &["check", "J"];

/// A row whose lines do not refute the formula.
fn unconfirmed(side: &'static str, notes: &'static str) -> Row {
    refused(CHECK, BOTH, side, Status::Unconfirmed, notes)
}

#[test]
fn steps(rt: HostRuntime) -> Result<(), Fail> {
    let rows = [
        done(CHECK, BOTH, "3 0 1 2 0\n", "verified\n"),
        unconfirmed("3 0 -1 0", "not confirmed: Rat at line 1\n"),
        unconfirmed("3 0 1 0", "not confirmed: NoConflict at line 1\n"),
        unconfirmed("", "not confirmed: Unfinished at line 1\n"),
        refused(
            CHECK,
            BOTH,
            "3 0 1 2",
            Status::Side,
            "side refused: Form at line 1\n",
        ),
    ];
    for row in &rows {
        try_row(rt.alloc(), row)?;
    }
    Ok(())
}

#[test]
fn deletions(rt: HostRuntime) -> Result<(), Fail> {
    let rows = [
        done(
            CHECK,
            FOUR,
            "5 1 0 1 2 0\n5 d 1 2 0\n6 0 5 3 4 0\n",
            "verified\n",
        ),
        // A deleted clause is no hint any more.
        refused(
            CHECK,
            FOUR,
            "5 1 0 1 2 0\n5 d 1 2 0\n6 0 1 3 4 0\n",
            Status::Unconfirmed,
            "not confirmed: Unknown at line 3\n",
        ),
        // A clause is deleted once.
        refused(
            CHECK,
            FOUR,
            "5 1 0 1 2 0\n5 d 1 0\n5 d 1 0\n",
            Status::Unconfirmed,
            "not confirmed: Unknown at line 3\n",
        ),
    ];
    for row in &rows {
        try_row(rt.alloc(), row)?;
    }
    Ok(())
}

/// A row whose formula is refused.
fn refused_formula(cnf: &'static str, notes: &'static str) -> Row {
    refused(CHECK, cnf, "", Status::Input, notes)
}

#[test]
fn formulas(rt: HostRuntime) -> Result<(), Fail> {
    let rows = [
        refused_formula("p cnf 1 2\n1 0\n", "input refused: Count at line 3\n"),
        refused_formula("p cnf 1 1\n2 0\n", "input refused: Literal at line 2\n"),
        refused_formula("p cnf 1 1\n1\n", "input refused: Unended at line 3\n"),
        refused_formula("1 0\n", "input refused: Header at line 1\n"),
    ];
    for row in &rows {
        try_row(rt.alloc(), row)?;
    }
    Ok(())
}

#[test]
fn a_side_that_fails(rt: HostRuntime) -> Result<(), Fail> {
    let alloc = rt.alloc();
    let words = words_of(alloc, CHECK)?;
    let mut pla = MemorySource::new(BOTH.as_bytes().to_vec(alloc)?, 4, Vec::new(alloc));
    let mut side = MemorySource::new(b"3 0 1 2 0\n".to_vec(alloc)?, 4, vec![in alloc; 2]?);
    let mut out = MemorySink::new(alloc, 200, 1, Vec::new(alloc))?;
    let mut notes = MemorySink::new(alloc, 200, 1, Vec::new(alloc))?;
    let journal = MemorySink::new(alloc, 1, 1, Vec::new(alloc))?;
    let mut finders = Vec::new(alloc);
    let ended = run(
        alloc,
        &words,
        &mut pla,
        &mut side,
        &mut out,
        journal,
        &mut notes,
        &mut finders,
    );
    assert_eq!(rt; ended.status, Status::ReadFault);
    assert_eq!(rt; out.bytes().len(), 0);
    assert_eq!(rt; notes.bytes(), b"read fault\n".as_slice());
    assert_eq!(rt; ended.journal.bytes().len(), 0);
    Ok(())
}

//! Runs of the command `renew`.
use crate::own::own_journal;
use crate::parity::{NEW_TEXT, OLD_TEXT, PARITY};
use four_lattice::run::run;
use four_lattice::status::Status;
use run_rows::row::{Row, done, refused, try_row, words_of};
use std::alloc::Global;
use std::process::Abort;
use std::test::Fail;
use wire_io::firm::{FirmSink, FirmSource};
use wire_io::memory::{MemorySink, MemorySource};

/// The words of the command.
const RENEW: &[&str] = &["renew", "J"];

/// A row whose side file is refused.
fn refused_side(side: &'static str, notes: &'static str) -> Row {
    refused(RENEW, PARITY, side, Status::Side, notes)
}

/// A row whose journal is not right.
fn unconfirmed(side: &'static str, notes: &'static str) -> Row {
    refused(RENEW, PARITY, side, Status::Unconfirmed, notes)
}

#[test]
fn versions(rt: HostRuntime) -> Result<(), Fail> {
    let rows = [
        done(RENEW, PARITY, OLD_TEXT, NEW_TEXT),
        // A journal of version 2 is its own.
        done(RENEW, PARITY, NEW_TEXT, NEW_TEXT),
        done(
            RENEW,
            PARITY,
            "lattice journal 1\nend\n",
            "lattice journal 2\nrails 1048575\nend\n",
        ),
        // The rails are kept.
        done(
            RENEW,
            ".i 2\n.o 1\n11 1\n.e\n",
            "lattice journal 2\nrails 1\noutput 0 f0 norails 3 1\nend\n",
            "lattice journal 2\nrails 1\noutput 0 f0 norails 3 1\nend\n",
        ),
        // An answer that speaks of no section has an empty list.
        done(
            RENEW,
            ".i 2\n.o 1\n.e\n",
            "lattice journal 1\noutput 0 f0 minimum 1x1\n0\nend\n",
            "lattice journal 2\nrails 1048575\noutput 0 f0 minimum 1x1\n0\nrefuted\nend\n",
        ),
    ];
    for row in &rows {
        try_row(rt.alloc(), row)?;
    }
    Ok(())
}

#[test]
fn refusals(rt: HostRuntime) -> Result<(), Fail> {
    let rows = [
        refused_side("", "side refused: Truncated at line 1\n"),
        refused_side(
            "lattice journal 1\nrefuted\nend\n",
            "side refused: Order at line 2\n",
        ),
        refused_side(
            "lattice journal 2\nrails 1048575\noutput 0 f0 minimum 1x1\n0\nend\n",
            "side refused: Proofs at line 5\n",
        ),
        unconfirmed(
            "lattice journal 1\nquestion 0 1x1\nrefuted\nend\n",
            "not confirmed: Unfinished at line 3\n",
        ),
        unconfirmed(
            "lattice journal 1\noutput 0 f0 minimum 1x1\nx0\nend\n",
            "not confirmed: Wrong at line 2 assignment 2\n",
        ),
        // A list that is there and wrong is not mended.
        refused(
            RENEW,
            ".i 2\n.o 1\n.e\n",
            "lattice journal 2\nrails 1048575\noutput 0 f0 minimum 1x1\n0\nrefuted 1x1:1\nend\n",
            Status::Unconfirmed,
            "not confirmed: Proofs at line 3\n",
        ),
        refused(
            RENEW,
            ".i 2\n",
            OLD_TEXT,
            Status::Input,
            "input refused: Missing at line 2\n",
        ),
        refused(
            &["renew"],
            PARITY,
            OLD_TEXT,
            Status::Words,
            "words refused\n",
        ),
    ];
    for row in &rows {
        try_row(rt.alloc(), row)?;
    }
    Ok(())
}

/// What `synth` writes for a PLA is its own renewal, with undecided answers too.
fn try_own(rt: &impl Abort, alloc: Global, text: &str, status: Status) -> Result<(), Fail> {
    let words = words_of(alloc, RENEW)?;
    let written = own_journal(rt, alloc, text, status)?;
    let mut pla = FirmSource::new(text.as_bytes().to_vec(alloc)?, 64);
    let mut side = FirmSource::new(written.as_slice().to_vec(alloc)?, 500);
    let mut out = FirmSink::new(alloc, 400_000, 500)?;
    let mut notes = FirmSink::new(alloc, 100, 3)?;
    let journal = FirmSink::new(alloc, 1, 1)?;
    let mut finders = Vec::new(alloc);
    let ended = run(
        alloc,
        &words,
        &mut pla,
        &mut side,
        &mut out,
        journal,
        &mut notes,
        &mut finders,
    );
    assert_eq!(rt; ended.status, Status::Done);
    assert_eq!(rt; out.bytes(), written.as_slice());
    assert_eq!(rt; notes.total(), 0);
    Ok(())
}

#[test]
fn own_journals(rt: HostRuntime) -> Result<(), Fail> {
    try_own(&rt, rt.alloc(), PARITY, Status::Done)?;
    try_own(
        &rt,
        rt.alloc(),
        ".i 3\n.o 1\n100 1\n010 1\n001 1\n111 1\n.e\n",
        Status::Undecided,
    )?;
    try_own(
        &rt,
        rt.alloc(),
        ".i 2\n.o 2\n11 10\n1- 01\n.e\n",
        Status::Done,
    )
}

#[test]
fn a_sink_that_fails(rt: HostRuntime) -> Result<(), Fail> {
    let alloc = rt.alloc();
    let words = words_of(alloc, RENEW)?;
    let mut pla = MemorySource::new(PARITY.as_bytes().to_vec(alloc)?, 64, Vec::new(alloc));
    let mut side = MemorySource::new(OLD_TEXT.as_bytes().to_vec(alloc)?, 400, Vec::new(alloc));
    let mut out = MemorySink::new(alloc, 400, 7, vec![in alloc; 3]?)?;
    let journal = MemorySink::new(alloc, 1, 1, Vec::new(alloc))?;
    let mut notes = MemorySink::new(alloc, 100, 3, Vec::new(alloc))?;
    let mut finders = Vec::new(alloc);
    let ended = run(
        alloc,
        &words,
        &mut pla,
        &mut side,
        &mut out,
        journal,
        &mut notes,
        &mut finders,
    );
    assert_eq!(rt; ended.status, Status::WriteFault);
    assert_eq!(rt; out.bytes(), b"lattice journa".as_slice());
    assert_eq!(rt; notes.bytes(), b"write fault\n".as_slice());
    assert_eq!(rt; ended.journal.bytes().len(), 0);
    Ok(())
}

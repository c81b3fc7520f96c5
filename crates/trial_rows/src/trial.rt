//! Runs of the command `trial`.
use four_lattice::run::run;
use four_lattice::status::Status;
use run_rows::row::{Row, refused, try_row, words_of};
use std::alloc::Global;
use std::process::Abort;
use std::test::Fail;
use trial_text::made::made;
use wire_io::firm::{FirmSink, FirmSource};

/// What a trial wrote, and its status.
#[derive(Drop)]
struct Written {
    status: Status,
    out: Vec<u8>,
    journal: Vec<u8>,
}

/// Runs the command.
fn try_trial(rt: &impl Abort, alloc: Global) -> Result<Written, Fail> {
    let words = words_of(alloc, &["trial", "--conflicts", "50", "1", "J"])?;
    let mut pla = FirmSource::new(Vec::new(alloc), 4);
    let mut side = FirmSource::new(Vec::new(alloc), 3);
    let mut out = FirmSink::new(alloc, 100_000, 700)?;
    let journal = FirmSink::new(alloc, 4_000_000, 500)?;
    let mut notes = FirmSink::new(alloc, 200, 1)?;
    let mut finders = Vec::new(alloc);
    let ended = run(
        alloc,
        &words,
        &mut pla,
        &mut side,
        &mut out,
        journal,
        &mut notes,
        &mut finders,
    );
    assert_eq!(rt; notes.bytes(), b"".as_slice());
    Ok(Written {
        status: ended.status,
        out: out.bytes().to_vec(alloc)?,
        journal: ended.journal.bytes().to_vec(alloc)?,
    })
}

/// Audits a journal with the text that the number makes.
fn try_audit(rt: &impl Abort, alloc: Global, journal: Vec<u8>) -> Result<(), Fail> {
    let words = words_of(alloc, &["audit", "J"])?;
    let mut pla = FirmSource::new(made(alloc, 1)?, 64);
    let mut side = FirmSource::new(journal, 500);
    let mut out = FirmSink::new(alloc, 100, 7)?;
    let mut notes = FirmSink::new(alloc, 100, 3)?;
    let journal = FirmSink::new(alloc, 1, 1)?;
    let mut finders = Vec::new(alloc);
    let ended = run(
        alloc,
        &words,
        &mut pla,
        &mut side,
        &mut out,
        journal,
        &mut notes,
        &mut finders,
    );
    assert_eq!(rt; notes.bytes(), b"".as_slice());
    assert_eq!(rt; ended.status, Status::Done);
    assert_eq!(rt; out.bytes(), b"confirmed 16\n".as_slice());
    Ok(())
}

#[test]
fn two_trials_are_equal_and_audit(rt: HostRuntime) -> Result<(), Fail> {
    let alloc = rt.alloc();
    let first = try_trial(&rt, alloc)?;
    let second = try_trial(&rt, alloc)?;
    assert!(&rt; first.status == Status::Done || first.status == Status::Undecided);
    assert_eq!(&rt; first.status, second.status);
    assert_eq!(&rt; first.out.as_slice(), second.out.as_slice());
    assert_eq!(&rt; first.journal.as_slice(), second.journal.as_slice());
    assert!(&rt;
        first.out.starts_with(
            b"lattice report 2\ninputs x0 x1 x2 x3 x4 x5\nrails 1048575\noutput 0 f0 "
        )
    );
    try_audit(&rt, alloc, first.journal)
}

/// Words that ask for no job.
fn no_job(words: &'static [&'static str]) -> Row {
    refused(words, "", "", Status::Words, "words refused\n")
}

#[test]
fn words(rt: HostRuntime) -> Result<(), Fail> {
    let rows = [
        no_job(&["trial"]),
        no_job(&["trial", "J"]),
        no_job(&["trial", "1"]),
        no_job(&["trial", "J", "1", "J"]),
        no_job(&["trial", "1", "2", "J"]),
        no_job(&["trial", "J", "J"]),
        no_job(&["trial", "00", "J"]),
        no_job(&["trial", "+1", "J"]),
        no_job(&["trial", "-1", "J"]),
        no_job(&["trial", "4294967296", "J"]),
        no_job(&["trial", "1", "-"]),
        no_job(&["trial", "1", "J", "--conflicts", "50"]),
        no_job(&["trial", "1", "--conflicts", "50", "J"]),
        no_job(&["trial", "--conflicts", "200001", "1", "J"]),
        no_job(&["trial", "--conflicts", "50", "J"]),
        no_job(&["trial", "--output", "1", "1", "J"]),
        no_job(&["trial", "--conflicts", "1", "--conflicts", "1", "1", "J"]),
        no_job(&["synth", "1", "J"]),
    ];
    for row in &rows {
        try_row(rt.alloc(), row)?;
    }
    Ok(())
}

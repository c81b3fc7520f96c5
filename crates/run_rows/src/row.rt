//! Rows of runs: what a command answers over texts in memory.
use four_lattice::run::run;
use four_lattice::status::Status;
use std::alloc::Global;
use std::test::Fail;
use wire_io::firm::{FirmSink, FirmSource};

/// The words of a command, the texts that it reads, and the status, the output and the line of notes of its run.
#[derive(Drop)]
pub struct Row {
    pub words: &'static [&'static str],
    pub pla: &'static str,
    pub side: &'static str,
    pub status: Status,
    pub out: &'static str,
    pub notes: &'static str,
}

/// The words as a command line has them.
pub fn words_of(alloc: Global, words: &[&str]) -> Result<Vec<String>, Fail> {
    let mut made = Vec::new(alloc);
    for word in words {
        made.push(String::from_str(alloc, word)?)?;
    }
    Ok(made)
}

/// Fails where these are not the bytes that are wanted.
fn same(what: &'static str, found: &[u8], wanted: &str) -> Result<(), Fail> {
    if found == wanted.as_bytes() {
        Ok(())
    } else {
        Err(Fail::from(what))
    }
}

/// Runs the command, and compares what it answers with the row.
pub fn try_row(alloc: Global, row: &Row) -> Result<(), Fail> {
    let words = words_of(alloc, row.words)?;
    let mut pla = FirmSource::new(row.pla.as_bytes().to_vec(alloc)?, 4);
    let mut side = FirmSource::new(row.side.as_bytes().to_vec(alloc)?, 3);
    let mut out = FirmSink::new(alloc, 4000, 7)?;
    let mut notes = FirmSink::new(alloc, 200, 1)?;
    let journal = FirmSink::new(alloc, 1, 1)?;
    let mut finders = Vec::new(alloc);
    let ended = run(
        alloc,
        &words,
        &mut pla,
        &mut side,
        &mut out,
        journal,
        &mut notes,
        &mut finders,
    );
    if ended.status != row.status {
        return Err(Fail::from("another status"));
    }
    same("another output", out.bytes(), row.out)?;
    same("other notes", notes.bytes(), row.notes)?;
    same("a journal", ended.journal.bytes(), "")
}

/// A row that writes its text.
pub fn done(
    words: &'static [&'static str],
    pla: &'static str,
    side: &'static str,
    out: &'static str,
) -> Row {
    Row {
        words,
        pla,
        side,
        status: Status::Done,
        out,
        notes: "",
    }
}

/// A row that is refused.
pub fn refused(
    words: &'static [&'static str],
    pla: &'static str,
    side: &'static str,
    status: Status,
    notes: &'static str,
) -> Row {
    Row {
        words,
        pla,
        side,
        status,
        out: "",
        notes,
    }
}

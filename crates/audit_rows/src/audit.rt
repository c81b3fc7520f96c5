//! Runs of the command `audit`.
use crate::own::own_journal;
use crate::parity::{JOURNAL, OLD_TEXT, PARITY};
use four_lattice::run::run;
use four_lattice::status::Status;
use run_rows::row::{Row, done, refused, try_row, words_of};
use std::alloc::Global;
use std::process::Abort;
use std::test::Fail;
use wire_io::firm::{FirmSink, FirmSource};
use wire_io::memory::{MemorySink, MemorySource};

/// The words of the command.
const AUDIT: &[&str] = &["audit", "J"];

/// A journal with other lines: from line `first` to line `last`, numbered from 1, the journal has `lines` instead; and
/// what the run answers.
#[derive(Drop)]
struct Forged {
    first: usize,
    last: usize,
    lines: &'static str,
    status: Status,
    out: &'static str,
    notes: &'static str,
}

/// A forged journal that is not confirmed.
fn unconfirmed(first: usize, last: usize, lines: &'static str, notes: &'static str) -> Forged {
    Forged {
        first,
        last,
        lines,
        status: Status::Unconfirmed,
        out: "",
        notes,
    }
}

/// The text of the journal with other lines.
fn text_of(alloc: Global, forged: &Forged) -> Result<Vec<u8>, Fail> {
    let mut text = Vec::new(alloc);
    for (place, line) in JOURNAL.iter().enumerate() {
        if place + 1 == forged.first {
            text.extend_from_slice(forged.lines.as_bytes())?;
        }
        if place + 1 < forged.first || place + 1 > forged.last {
            text.extend_from_slice(line.as_bytes())?;
        }
    }
    Ok(text)
}

/// Audits the journal with other lines.
fn try_forged(rt: &impl Abort, alloc: Global, forged: &Forged) -> Result<(), Fail> {
    let words = words_of(alloc, AUDIT)?;
    let mut pla = FirmSource::new(PARITY.as_bytes().to_vec(alloc)?, 4);
    let mut side = FirmSource::new(text_of(alloc, forged)?, 100);
    let mut out = FirmSink::new(alloc, 100, 7)?;
    let mut notes = FirmSink::new(alloc, 100, 3)?;
    let journal = FirmSink::new(alloc, 1, 1)?;
    let mut finders = Vec::new(alloc);
    let ended = run(
        alloc,
        &words,
        &mut pla,
        &mut side,
        &mut out,
        journal,
        &mut notes,
        &mut finders,
    );
    assert_eq!(rt; ended.status, forged.status);
    assert_eq!(rt; out.bytes(), forged.out.as_bytes());
    assert_eq!(rt; notes.bytes(), forged.notes.as_bytes());
    assert_eq!(rt; ended.journal.total(), 0);
    Ok(())
}

#[test]
fn sections(rt: HostRuntime) -> Result<(), Fail> {
    let rows = [
        Forged {
            first: 18,
            last: 18,
            lines: "",
            status: Status::Done,
            out: "confirmed 1\n",
            notes: "",
        },
        unconfirmed(3, 3, "1 0 0\n", "not confirmed: Order at line 3\n"),
        unconfirmed(
            3,
            3,
            "2147483647 0 0\n",
            "not confirmed: NoConflict at line 3\n",
        ),
        unconfirmed(3, 3, "", "not confirmed: Unfinished at line 3\n"),
        unconfirmed(4, 4, "spent 1\n", "not confirmed: Count at line 4\n"),
        // One by two fits inside one by three.
        Forged {
            first: 4,
            last: 4,
            lines: "satisfied\n",
            status: Status::Done,
            out: "confirmed 1\n",
            notes: "",
        },
    ];
    for row in &rows {
        try_forged(&rt, rt.alloc(), row)?;
    }
    Ok(())
}

#[test]
fn answers(rt: HostRuntime) -> Result<(), Fail> {
    let rows = [
        unconfirmed(
            14,
            14,
            "output 1 f0 minimum 2x2\n",
            "not confirmed: Output at line 14\n",
        ),
        unconfirmed(15, 15, "x2 x1\n", "not confirmed: Literal at line 14\n"),
        unconfirmed(
            15,
            15,
            "x1 x1\n",
            "not confirmed: Wrong at line 14 assignment 1\n",
        ),
        unconfirmed(8, 10, "", "not confirmed: Uncovered at line 11\n"),
        unconfirmed(
            10,
            10,
            "satisfied\n",
            "not confirmed: Uncovered at line 14\n",
        ),
        unconfirmed(
            14,
            16,
            "output 0 f0 minimum 2x3\nx0 x1 x1\nx1' x0' x0'\n",
            "not confirmed: Large at line 14\n",
        ),
        unconfirmed(
            14,
            14,
            "output 0 f0 undecided 2x2 least 4 at 2x2 after 0\n",
            "not confirmed: NoSection at line 14\n",
        ),
    ];
    for row in &rows {
        try_forged(&rt, rt.alloc(), row)?;
    }
    Ok(())
}

/// A row whose side file is refused.
fn refused_side(side: &'static str, notes: &'static str) -> Row {
    refused(AUDIT, PARITY, side, Status::Side, notes)
}

#[test]
fn texts(rt: HostRuntime) -> Result<(), Fail> {
    let rows = [
        done(AUDIT, PARITY, "lattice journal 1\nend\n", "confirmed 0\n"),
        done(
            AUDIT,
            ".i 2\n.o 1\n.e\n",
            "lattice journal 2\nrails 1048575\noutput 0 f0 minimum 1x1\n0\nrefuted\nend\n",
            "confirmed 1\n",
        ),
        refused_side("", "side refused: Truncated at line 1\n"),
        refused_side(
            "lattice report 1\nend\n",
            "side refused: Header at line 1\n",
        ),
        refused_side(
            "lattice journal 2\nrails 1048576\nend\n",
            "side refused: Rails at line 2\n",
        ),
        refused_side(
            "lattice journal 1\nanswer\nend\n",
            "side refused: Word at line 2\n",
        ),
        refused_side(
            "lattice journal 1\nrefuted\nend\n",
            "side refused: Order at line 2\n",
        ),
        refused_side(
            "lattice journal 1\nquestion 0 0x1\nend\n",
            "side refused: Question at line 2\n",
        ),
        refused_side(
            "lattice journal 1\nquestion 0 1x1\n34 0 -27 0\nrefuted\nend\n",
            "side refused: Step at line 3\n",
        ),
        refused_side(
            "lattice journal 1\noutput 0 f0 found 1x1\n0\nend\n",
            "side refused: Block at line 2\n",
        ),
        refused_side(
            "lattice journal 2\nrails 1048575\noutput 0 f0 minimum 1x1\n0\nend\n",
            "side refused: Proofs at line 5\n",
        ),
        refused_side(
            "lattice journal 1\nend\nend\n",
            "side refused: Trailing at line 3\n",
        ),
        refused_side(
            "lattice journal 1\nen",
            "side refused: Truncated at line 2\n",
        ),
    ];
    for row in &rows {
        try_row(rt.alloc(), row)?;
    }
    Ok(())
}

/// What `synth` writes for a PLA is confirmed, with so many answers.
fn try_own(
    rt: &impl Abort,
    alloc: Global,
    text: &str,
    status: Status,
    out: &str,
) -> Result<(), Fail> {
    let words = words_of(alloc, AUDIT)?;
    let mut pla = FirmSource::new(text.as_bytes().to_vec(alloc)?, 64);
    let mut side = FirmSource::new(own_journal(rt, alloc, text, status)?, 500);
    let mut confirmed = FirmSink::new(alloc, 100, 7)?;
    let mut notes = FirmSink::new(alloc, 100, 3)?;
    let journal = FirmSink::new(alloc, 1, 1)?;
    let mut finders = Vec::new(alloc);
    let ended = run(
        alloc,
        &words,
        &mut pla,
        &mut side,
        &mut confirmed,
        journal,
        &mut notes,
        &mut finders,
    );
    assert_eq!(rt; ended.status, Status::Done);
    assert_eq!(rt; confirmed.bytes(), out.as_bytes());
    assert_eq!(rt; notes.total(), 0);
    Ok(())
}

#[test]
fn own_journals(rt: HostRuntime) -> Result<(), Fail> {
    try_own(&rt, rt.alloc(), PARITY, Status::Done, "confirmed 1\n")?;
    try_own(
        &rt,
        rt.alloc(),
        ".i 3\n.o 1\n100 1\n010 1\n001 1\n111 1\n.e\n",
        Status::Undecided,
        "confirmed 1\n",
    )?;
    try_own(
        &rt,
        rt.alloc(),
        ".i 2\n.o 2\n11 10\n1- 01\n.e\n",
        Status::Done,
        "confirmed 2\n",
    )
}

#[test]
fn a_journal_that_fails(rt: HostRuntime) -> Result<(), Fail> {
    let alloc = rt.alloc();
    let words = words_of(alloc, AUDIT)?;
    let mut pla = MemorySource::new(PARITY.as_bytes().to_vec(alloc)?, 64, Vec::new(alloc));
    let mut side = MemorySource::new(
        b"lattice journal 1\nend\n".to_vec(alloc)?,
        4,
        vec![in alloc; 2]?,
    );
    let mut out = MemorySink::new(alloc, 100, 7, Vec::new(alloc))?;
    let journal = MemorySink::new(alloc, 1, 1, Vec::new(alloc))?;
    let mut notes = MemorySink::new(alloc, 100, 3, Vec::new(alloc))?;
    let mut finders = Vec::new(alloc);
    let ended = run(
        alloc,
        &words,
        &mut pla,
        &mut side,
        &mut out,
        journal,
        &mut notes,
        &mut finders,
    );
    assert_eq!(rt; ended.status, Status::ReadFault);
    assert_eq!(rt; out.bytes().len(), 0);
    assert_eq!(rt; notes.bytes(), b"read fault\n".as_slice());
    assert_eq!(rt; ended.journal.bytes().len(), 0);
    Ok(())
}

#[test]
fn a_sink_that_fails(rt: HostRuntime) -> Result<(), Fail> {
    let alloc = rt.alloc();
    let words = words_of(alloc, AUDIT)?;
    let mut pla = MemorySource::new(PARITY.as_bytes().to_vec(alloc)?, 64, Vec::new(alloc));
    let mut side = MemorySource::new(OLD_TEXT.as_bytes().to_vec(alloc)?, 400, Vec::new(alloc));
    let mut out = MemorySink::new(alloc, 400, 7, vec![in alloc; 2]?)?;
    let journal = MemorySink::new(alloc, 1, 1, Vec::new(alloc))?;
    let mut notes = MemorySink::new(alloc, 100, 3, Vec::new(alloc))?;
    let mut finders = Vec::new(alloc);
    let ended = run(
        alloc,
        &words,
        &mut pla,
        &mut side,
        &mut out,
        journal,
        &mut notes,
        &mut finders,
    );
    assert_eq!(rt; ended.status, Status::WriteFault);
    assert_eq!(rt; out.bytes(), b"confirm".as_slice());
    assert_eq!(rt; notes.bytes(), b"write fault\n".as_slice());
    assert_eq!(rt; ended.journal.bytes().len(), 0);
    Ok(())
}

//! Runs of the command `synth`.
use four_lattice::run::run;
use four_lattice::status::Status;
use run_rows::row::words_of;
use std::alloc::Global;
use std::process::Abort;
use std::test::Fail;
use wire_io::firm::{FirmSink, FirmSource};
use wire_io::memory::{MemorySink, MemorySource};

/// The words of a run and its PLA; its status; how its report begins and ends; how its journal begins and ends, and of
/// how many lines it is, where that is known.
#[derive(Drop)]
struct Row {
    words: &'static [&'static str],
    pla: &'static str,
    status: Status,
    out: [&'static str; 2],
    journal: [&'static str; 2],
    lines: Option<usize>,
}

/// Runs the command, and compares what it answers with the row.
fn try_row(rt: &impl Abort, alloc: Global, row: &Row) -> Result<(), Fail> {
    let words = words_of(alloc, row.words)?;
    let mut pla = FirmSource::new(row.pla.as_bytes().to_vec(alloc)?, 4);
    let mut side = FirmSource::new(Vec::new(alloc), 3);
    let mut out = FirmSink::new(alloc, 4000, 7)?;
    let journal = FirmSink::new(alloc, 400_000, 5)?;
    let mut notes = FirmSink::new(alloc, 200, 1)?;
    let mut finders = Vec::new(alloc);
    let ended = run(
        alloc,
        &words,
        &mut pla,
        &mut side,
        &mut out,
        journal,
        &mut notes,
        &mut finders,
    );
    assert_eq!(rt; ended.status, row.status);
    assert!(rt; out.bytes().starts_with(row.out[0].as_bytes()));
    assert!(rt; out.bytes().ends_with(row.out[1].as_bytes()));
    let bytes = ended.journal.bytes();
    assert!(rt; bytes.starts_with(row.journal[0].as_bytes()));
    assert!(rt; bytes.ends_with(row.journal[1].as_bytes()));
    if let Some(lines) = row.lines {
        assert_eq!(rt; bytes.iter().filter(|b| **b == b'\n').count(), lines);
    }
    assert_eq!(rt; notes.total(), 0);
    Ok(())
}

/// Parity of two inputs, its report, and the lines of its answer.
const PARITY: &str = ".i 2\n.o 1\n10 1\n01 1\n.e\n";

const PARITY_REPORT: &str =
    "lattice report 2\ninputs x0 x1\nrails 1048575\noutput 0 f0 minimum 2x2\nx0 x1\nx1' x0'\nrefuted 1x2:1 2x1:1 1x3:1 3x1:1\nend\n";

const PARITY_ANSWER: &str =
    "refuted\noutput 0 f0 minimum 2x2\nx0 x1\nx1' x0'\nrefuted 1x2:1 2x1:1 1x3:1 3x1:1\nend\n";

/// The words that give no conflicts.
const NO_CONFLICTS: &[&str] = &["synth", "--conflicts", "0", "J"];

#[test]
fn questions(rt: HostRuntime) -> Result<(), Fail> {
    let rows = [
        Row {
            words: NO_CONFLICTS,
            pla: PARITY,
            status: Status::Done,
            out: [PARITY_REPORT, PARITY_REPORT],
            journal: [
                "lattice journal 2\nrails 1048575\nquestion 0 1x2\n",
                PARITY_ANSWER,
            ],
            lines: Some(19),
        },
        // With no conflicts the question of two by two is given up.
        Row {
            words: NO_CONFLICTS,
            pla: ".i 3\n.o 1\n100 1\n010 1\n001 1\n111 1\n.e\n",
            status: Status::Undecided,
            out: [
                "lattice report 2\ninputs x0 x1 x2\nrails 1048575\noutput 0 f0 undecided 4x4 least 4 at 2x2 after 0\nx0 x1 x2 x0\nx1' x0' x0' x2\nx2' x0' x0' x1\nx0 x2' x1' x0\nrefuted ",
                "\nend\n",
            ],
            journal: ["lattice journal 2\nrails 1048575\nquestion 0 ", "\nend\n"],
            lines: None,
        },
        // The search begins with the lattice of pairs.
        Row {
            words: &["synth", "--rails", "1", "--conflicts", "7", "J"],
            pla: ".i 2\n.o 1\n1- 1\n.e\n",
            status: Status::Done,
            out: [
                "lattice report 2\ninputs x0 x1\nrails 1\noutput 0 f0 minimum 1x1\nx0\nrefuted\nend\n",
                "",
            ],
            journal: [
                "lattice journal 2\nrails 1\nquestion 0 ",
                "satisfied\noutput 0 f0 minimum 1x1\nx0\nrefuted\nend\n",
            ],
            lines: None,
        },
    ];
    for row in &rows {
        try_row(&rt, rt.alloc(), row)?;
    }
    Ok(())
}

/// A row whose journal has no questions: its report and its journal have the same block.
fn plain(
    words: &'static [&'static str],
    pla: &'static str,
    report: &'static str,
    journal: &'static str,
    lines: usize,
) -> Row {
    Row {
        words,
        pla,
        status: Status::Done,
        out: [report, report],
        journal: [journal, journal],
        lines: Some(lines),
    }
}

#[test]
fn no_questions(rt: HostRuntime) -> Result<(), Fail> {
    let rows = [
        plain(
            &["synth", "J"],
            ".i 2\n.o 1\n.e\n",
            "lattice report 2\ninputs x0 x1\nrails 1048575\noutput 0 f0 minimum 1x1\n0\nrefuted\nend\n",
            "lattice journal 2\nrails 1048575\noutput 0 f0 minimum 1x1\n0\nrefuted\nend\n",
            6,
        ),
        plain(
            &["synth", "--output", "0", "J"],
            ".i 2\n.o 1\n-- 1\n.e\n",
            "lattice report 2\ninputs x0 x1\nrails 1048575\noutput 0 f0 minimum 1x1\n1\nrefuted\nend\n",
            "lattice journal 2\nrails 1048575\noutput 0 f0 minimum 1x1\n1\nrefuted\nend\n",
            6,
        ),
        // No allowed literal tells assignment 3 from assignment 1.
        plain(
            &["synth", "--rails", "1", "J"],
            ".i 2\n.o 1\n11 1\n.e\n",
            "lattice report 2\ninputs x0 x1\nrails 1\noutput 0 f0 norails 3 1\nend\n",
            "lattice journal 2\nrails 1\noutput 0 f0 norails 3 1\nend\n",
            4,
        ),
        // Two outputs, in order.
        plain(
            &["synth", "J"],
            ".i 1\n.o 2\n- 10\n.e\n",
            "lattice report 2\ninputs x0\nrails 1048575\noutput 0 f0 minimum 1x1\n1\nrefuted\noutput 1 f1 minimum 1x1\n0\nrefuted\nend\n",
            "lattice journal 2\nrails 1048575\noutput 0 f0 minimum 1x1\n1\nrefuted\noutput 1 f1 minimum 1x1\n0\nrefuted\nend\n",
            9,
        ),
        plain(
            &["synth", "--output", "1", "J"],
            ".i 1\n.o 2\n- 10\n.e\n",
            "lattice report 2\ninputs x0\nrails 1048575\noutput 1 f1 minimum 1x1\n0\nrefuted\nend\n",
            "lattice journal 2\nrails 1048575\noutput 1 f1 minimum 1x1\n0\nrefuted\nend\n",
            6,
        ),
    ];
    for row in &rows {
        try_row(&rt, rt.alloc(), row)?;
    }
    Ok(())
}

#[test]
fn an_output_that_is_not_there(rt: HostRuntime) -> Result<(), Fail> {
    let alloc = rt.alloc();
    let words = words_of(alloc, &["synth", "--output", "1", "J"])?;
    let mut pla = FirmSource::new(PARITY.as_bytes().to_vec(alloc)?, 4);
    let mut side = FirmSource::new(Vec::new(alloc), 3);
    let mut out = FirmSink::new(alloc, 4000, 7)?;
    let journal = FirmSink::new(alloc, 1, 1)?;
    let mut notes = FirmSink::new(alloc, 200, 1)?;
    let mut finders = Vec::new(alloc);
    let ended = run(
        alloc,
        &words,
        &mut pla,
        &mut side,
        &mut out,
        journal,
        &mut notes,
        &mut finders,
    );
    assert_eq!(rt; ended.status, Status::Input);
    assert_eq!(rt; out.total(), 0);
    assert_eq!(rt; ended.journal.total(), 0);
    assert_eq!(rt; notes.bytes(), b"input refused: NoSuchOutput\n".as_slice());
    Ok(())
}

#[test]
fn a_journal_that_fails(rt: HostRuntime) -> Result<(), Fail> {
    let alloc = rt.alloc();
    let words = words_of(alloc, NO_CONFLICTS)?;
    let mut pla = MemorySource::new(PARITY.as_bytes().to_vec(alloc)?, 4, Vec::new(alloc));
    let mut side = MemorySource::new(Vec::new(alloc), 4, Vec::new(alloc));
    let mut out = MemorySink::new(alloc, 4000, 1, Vec::new(alloc))?;
    let journal = MemorySink::new(alloc, 4000, 1, vec![in alloc; 2]?)?;
    let mut notes = MemorySink::new(alloc, 200, 1, Vec::new(alloc))?;
    let mut finders = Vec::new(alloc);
    let ended = run(
        alloc,
        &words,
        &mut pla,
        &mut side,
        &mut out,
        journal,
        &mut notes,
        &mut finders,
    );
    assert_eq!(rt; ended.status, Status::WriteFault);
    assert_eq!(rt; ended.journal.bytes(), b"l".as_slice());
    assert!(rt; PARITY_REPORT.as_bytes().starts_with(out.bytes()));
    assert_eq!(rt; notes.bytes(), b"write fault\n".as_slice());
    Ok(())
}

#[test]
fn an_input_that_fails(rt: HostRuntime) -> Result<(), Fail> {
    let alloc = rt.alloc();
    let words = words_of(alloc, NO_CONFLICTS)?;
    let mut pla = MemorySource::new(PARITY.as_bytes().to_vec(alloc)?, 4, vec![in alloc; 3]?);
    let mut side = MemorySource::new(Vec::new(alloc), 4, Vec::new(alloc));
    let mut out = MemorySink::new(alloc, 4000, 1, Vec::new(alloc))?;
    let journal = MemorySink::new(alloc, 4000, 1, Vec::new(alloc))?;
    let mut notes = MemorySink::new(alloc, 200, 1, Vec::new(alloc))?;
    let mut finders = Vec::new(alloc);
    let ended = run(
        alloc,
        &words,
        &mut pla,
        &mut side,
        &mut out,
        journal,
        &mut notes,
        &mut finders,
    );
    assert_eq!(rt; ended.status, Status::ReadFault);
    assert_eq!(rt; out.bytes().len(), 0);
    assert_eq!(rt; ended.journal.bytes().len(), 0);
    assert_eq!(rt; notes.bytes(), b"read fault\n".as_slice());
    Ok(())
}

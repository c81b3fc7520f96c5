//! Runs of the command `map`.
use four_lattice::run::run;
use four_lattice::status::Status;
use run_rows::row::{Row, refused, try_row, words_of};
use std::alloc::Global;
use std::process::Abort;
use std::test::Fail;
use wire_io::firm::{FirmSink, FirmSource};
use wire_io::memory::{MemorySink, MemorySource};

/// The words of the command.
const MAP: &[&str] = &["map", "J"];

/// A run that is accepted: its words, its PLA with the array behind it, its status, how its report goes on after the head and how it
/// ends, and how its journal begins and ends after the head.
#[derive(Drop)]
struct Accepted {
    words: &'static [&'static str],
    pla: &'static str,
    status: Status,
    out: [&'static str; 2],
    journal: [&'static str; 2],
}

/// The lines before the blocks of a report of two inputs, and before the parts of a journal.
const REPORT_HEAD: &str = "lattice report 2\ninputs x0 x1\nrails 1048575\n";

const JOURNAL_HEAD: &str = "lattice journal 2\nrails 1048575\n";

/// Runs a command that tests a side file, and compares what it prints.
fn try_test(
    rt: &impl Abort,
    alloc: Global,
    word: &str,
    pla: &str,
    side: &[u8],
    expected: &str,
) -> Result<(), Fail> {
    let words = words_of(alloc, &[word, "J"])?;
    let mut pla = FirmSource::new(pla.as_bytes().to_vec(alloc)?, 64);
    let mut side = FirmSource::new(side.to_vec(alloc)?, 500);
    let mut out = FirmSink::new(alloc, 100, 7)?;
    let mut notes = FirmSink::new(alloc, 100, 3)?;
    let journal = FirmSink::new(alloc, 1, 1)?;
    let mut finders = Vec::new(alloc);
    let ended = run(
        alloc,
        &words,
        &mut pla,
        &mut side,
        &mut out,
        journal,
        &mut notes,
        &mut finders,
    );
    assert_eq!(rt; notes.bytes(), b"".as_slice());
    assert_eq!(rt; ended.status, Status::Done);
    assert_eq!(rt; out.bytes(), expected.as_bytes());
    Ok(())
}

/// Whether bytes are a head, what goes on after it, and an end.
fn is_between(bytes: &[u8], head: &str, parts: &[&str; 2]) -> bool {
    match bytes.split_at_checked(head.len()) {
        None => false,
        Some((first, rest)) => {
            first == head.as_bytes()
                && rest.starts_with(parts[0].as_bytes())
                && rest.ends_with(parts[1].as_bytes())
        }
    }
}

/// Runs the command, compares what it answers with the row, and has its report and its journal tested against the PLA.
fn try_accepted(rt: &impl Abort, alloc: Global, row: &Accepted) -> Result<(), Fail> {
    let words = words_of(alloc, row.words)?;
    let mut pla = FirmSource::new(row.pla.as_bytes().to_vec(alloc)?, 4);
    let mut side = FirmSource::new(Vec::new(alloc), 3);
    let mut out = FirmSink::new(alloc, 4000, 7)?;
    let journal = FirmSink::new(alloc, 400_000, 5)?;
    let mut notes = FirmSink::new(alloc, 200, 1)?;
    let mut finders = Vec::new(alloc);
    let ended = run(
        alloc,
        &words,
        &mut pla,
        &mut side,
        &mut out,
        journal,
        &mut notes,
        &mut finders,
    );
    assert_eq!(rt; notes.bytes(), b"".as_slice());
    assert_eq!(rt; ended.status, row.status);
    assert!(rt; is_between(out.bytes(), REPORT_HEAD, &row.out));
    assert!(rt; is_between(ended.journal.bytes(), JOURNAL_HEAD, &row.journal));
    try_test(rt, alloc, "verify", row.pla, out.bytes(), "realised 1\n")?;
    try_test(
        rt,
        alloc,
        "audit",
        row.pla,
        ended.journal.bytes(),
        "confirmed 1\n",
    )
}

/// A row that is decided: the answer's line with how the next one begins, and the question's.
fn decided(pla: &'static str, answer: &'static str, question: &'static str) -> Accepted {
    Accepted {
        words: MAP,
        pla,
        status: Status::Done,
        out: [answer, "\nend\n"],
        journal: [question, "\nend\n"],
    }
}

#[test]
fn conjunctions(rt: HostRuntime) -> Result<(), Fail> {
    let rows = [
        decided(
            ".i 2\n.o 1\n11 1\n.e\n.o\n.o\n",
            "output 0 f0 mapped 2x2 .o/.o\nx",
            "question 0 2x2 .o/.o\n",
        ),
        decided(
            ".i 2\n.o 1\n11 1\n.e\nc\n.\n",
            "output 0 f0 none 2x1 c/.\nrefuted 2x1:",
            "question 0 2x1 c/.\n",
        ),
        decided(
            ".i 2\n.o 1\n11 1\n.e\n.\nc\n.\n",
            "output 0 f0 mapped 3x1 ./c/.\nx",
            "question 0 3x1 ./c/.\n",
        ),
        // A diagonal of sound switches joins nothing.
        decided(
            ".i 2\n.o 1\n11 1\n.e\n.o\no.\n",
            "output 0 f0 none 2x2 .o/o.\nrefuted 2x2:",
            "question 0 2x2 .o/o.\n",
        ),
        decided(
            ".i 2\n.o 1\n11 1\n.e\n..\ncc\n",
            "output 0 f0 none 2x2 ../cc\nrefuted 2x2:",
            "question 0 2x2 ../cc\n",
        ),
    ];
    for row in &rows {
        try_accepted(&rt, rt.alloc(), row)?;
    }
    Ok(())
}

#[test]
fn parity_and_disjunctions(rt: HostRuntime) -> Result<(), Fail> {
    let rows = [
        decided(
            ".i 2\n.o 1\n10 1\n01 1\n.e\n..\n..\n",
            "output 0 f0 mapped 2x2 ../..\nx",
            "question 0 2x2 ../..\n",
        ),
        decided(
            ".i 2\n.o 1\n10 1\n01 1\n.e\n..\n.o\n",
            "output 0 f0 none 2x2 ../.o\nrefuted 2x2:",
            "question 0 2x2 ../.o\n",
        ),
        decided(
            ".i 2\n.o 1\n1- 1\n-1 1\n.e\n.o.\n",
            "output 0 f0 mapped 1x3 .o.\nx",
            "question 0 1x3 .o.\n",
        ),
        decided(
            ".i 2\n.o 1\n1- 1\n-1 1\n.e\n.c.\n",
            "output 0 f0 none 1x3 .c.\nrefuted 1x3:",
            "question 0 1x3 .c.\n",
        ),
        decided(
            ".i 2\n.o 1\n1- 1\n-1 1\n.e\n..\ncc\n",
            "output 0 f0 mapped 2x2 ../cc\nx",
            "question 0 2x2 ../cc\n",
        ),
    ];
    for row in &rows {
        try_accepted(&rt, rt.alloc(), row)?;
    }
    Ok(())
}

#[test]
fn constants_on_stuck_switches(rt: HostRuntime) -> Result<(), Fail> {
    let rows = [
        decided(
            ".i 2\n.o 1\n-- 1\n.e\nc\nc\n",
            "output 0 f0 mapped 2x1 c/c\n",
            "question 0 2x1 c/c\n",
        ),
        decided(
            ".i 2\n.o 1\n.e\nc\nc\n",
            "output 0 f0 none 2x1 c/c\nrefuted 2x1:",
            "question 0 2x1 c/c\n",
        ),
        decided(
            ".i 2\n.o 1\n.e\no\nc\n",
            "output 0 f0 mapped 2x1 o/c\n",
            "question 0 2x1 o/c\n",
        ),
        decided(
            ".i 2\n.o 1\n-- 1\n.e\noc\nco\n",
            "output 0 f0 none 2x2 oc/co\nrefuted 2x2:",
            "question 0 2x2 oc/co\n",
        ),
    ];
    for row in &rows {
        try_accepted(&rt, rt.alloc(), row)?;
    }
    Ok(())
}

#[test]
fn an_output_of_two_and_an_array_with_comments(rt: HostRuntime) -> Result<(), Fail> {
    let row = Accepted {
        words: &["map", "--output", "1", "--conflicts", "50", "J"],
        pla: ".i 2\n.o 2\n11 10\n1- 01\n.e # ..\n# a column\n\n o # open\n\t.\r\n",
        status: Status::Done,
        out: ["output 1 f1 none 2x1 o/.\nrefuted 2x1:", "\nend\n"],
        journal: ["question 1 2x1 o/.\n", "\nend\n"],
    };
    try_accepted(&rt, rt.alloc(), &row)
}

/// Odd parity of three inputs: a question of four sound switches is left open without conflicts.
const ODD: &str = ".i 3\n.o 1\n100 1\n010 1\n001 1\n111 1\n.e\n..\n..\n";

#[test]
fn a_question_that_is_given_up(rt: HostRuntime) -> Result<(), Fail> {
    let alloc = rt.alloc();
    let words = words_of(alloc, &["map", "--conflicts", "0", "J"])?;
    let mut pla = FirmSource::new(ODD.as_bytes().to_vec(alloc)?, 4);
    let mut side = FirmSource::new(Vec::new(alloc), 3);
    let mut out = FirmSink::new(alloc, 4000, 7)?;
    let journal = FirmSink::new(alloc, 4000, 5)?;
    let mut notes = FirmSink::new(alloc, 200, 1)?;
    let mut finders = Vec::new(alloc);
    let ended = run(
        alloc,
        &words,
        &mut pla,
        &mut side,
        &mut out,
        journal,
        &mut notes,
        &mut finders,
    );
    assert_eq!(rt; ended.status, Status::Undecided);
    assert_eq!(rt;
        out.bytes(),
        b"lattice report 2\ninputs x0 x1 x2\nrails 1048575\noutput 0 f0 stopped 2x2 ../.. after 0\nend\n".as_slice()
    );
    assert_eq!(rt;
        ended.journal.bytes(),
        b"lattice journal 2\nrails 1048575\nquestion 0 2x2 ../..\nspent 0\noutput 0 f0 stopped 2x2 ../.. after 0\nend\n".as_slice()
    );
    assert_eq!(rt; notes.total(), 0);
    try_test(&rt, alloc, "verify", ODD, out.bytes(), "realised 1\n")?;
    try_test(
        &rt,
        alloc,
        "audit",
        ODD,
        ended.journal.bytes(),
        "confirmed 1\n",
    )
}

/// A row whose input is refused.
fn refused_input(words: &'static [&'static str], pla: &'static str, notes: &'static str) -> Row {
    refused(words, pla, "", Status::Input, notes)
}

#[test]
fn refused_arrays(rt: HostRuntime) -> Result<(), Fail> {
    let rows = [
        refused_input(MAP, ".i 2\n.o 1\n11 1\n.e\n", "input refused: Empty\n"),
        refused_input(MAP, ".i 2\n.o 1\n11 1\n.e", "input refused: Empty\n"),
        refused_input(MAP, ".i 2\n.o 1\n11 1\n", "input refused: Empty\n"),
        refused_input(
            MAP,
            ".i 2\n.o 1\n11 1\n.e ..\n# ..\n",
            "input refused: Empty\n",
        ),
        refused_input(
            MAP,
            ".i 2\n.o 1\n11 1\n.e\n..\n.\n",
            "input refused: Ragged at line 2\n",
        ),
        refused_input(
            MAP,
            ".i 2\n.o 1\n11 1\n.end\n.z\n",
            "input refused: Byte at line 1\n",
        ),
        refused_input(
            MAP,
            ".i 2\n.o 1\n11 1\n.e\n.................\n",
            "input refused: TooLarge at line 1\n",
        ),
        refused_input(
            MAP,
            ".i 2\n.o 1\n11 1\n.e\n\n..\n\n.\n",
            "input refused: Ragged at line 4\n",
        ),
        // A row that is too short is ragged, whatever its bytes.
        refused_input(
            MAP,
            ".i 2\n.o 1\n11 1\n.e\n..\nz\n",
            "input refused: Ragged at line 2\n",
        ),
    ];
    for row in &rows {
        try_row(rt.alloc(), row)?;
    }
    Ok(())
}

#[test]
fn what_is_refused_first(rt: HostRuntime) -> Result<(), Fail> {
    let rows = [
        refused_input(
            &["map", "--output", "1", "J"],
            ".i 2\n.o 1\n11 1\n.e\n.z\n",
            "input refused: NoSuchOutput\n",
        ),
        refused_input(
            &["map", "--output", "1", "J"],
            ".i 2\n.o 1\n1 1\n.e\n.z\n",
            "input refused: RowLength at line 3\n",
        ),
        refused_input(
            &["map", "--output", "1", "J"],
            ".i 2\n.o 2\n11 11\n.e\n.z\n",
            "input refused: Byte at line 1\n",
        ),
    ];
    for row in &rows {
        try_row(rt.alloc(), row)?;
    }
    Ok(())
}

#[test]
fn words(rt: HostRuntime) -> Result<(), Fail> {
    const REFUSED: &[&[&str]] = &[
        &["map"],
        &["map", "--rails", "1", "J"],
        &["map", "--conflicts", "200001", "J"],
        &["map", "--output", "64", "J"],
        &["map", "J", "--output", "0"],
        &["map", "--output", "0", "--output", "0", "J"],
        &["map", "J", "J"],
    ];
    for words in REFUSED {
        try_row(
            rt.alloc(),
            &refused(*words, ODD, "", Status::Words, "words refused\n"),
        )?;
    }
    Ok(())
}

/// What a run that broke off comes to: its status, its line of notes, and what its journal got.
#[derive(Drop)]
struct BrokenOff {
    status: Status,
    notes: &'static str,
    journal: &'static [u8],
}

/// Runs the command over devices whose calls of these numbers fail; the report that stands is a front of the whole one.
fn try_devices(
    rt: &impl Abort,
    alloc: Global,
    reads: Vec<u64>,
    outs: Vec<u64>,
    writes: Vec<u64>,
    expected: &BrokenOff,
) -> Result<(), Fail> {
    const REPORT: &[u8] =
        b"lattice report 2\ninputs x0 x1 x2\nrails 1048575\noutput 0 f0 stopped 2x2 ../.. after 0\nend\n";
    let words = words_of(alloc, &["map", "--conflicts", "0", "J"])?;
    let mut pla = MemorySource::new(ODD.as_bytes().to_vec(alloc)?, 4, reads);
    let mut side = MemorySource::new(Vec::new(alloc), 4, Vec::new(alloc));
    let mut out = MemorySink::new(alloc, 4000, 16, outs)?;
    let journal = MemorySink::new(alloc, 4000, 1, writes)?;
    let mut notes = MemorySink::new(alloc, 200, 1, Vec::new(alloc))?;
    let mut finders = Vec::new(alloc);
    let ended = run(
        alloc,
        &words,
        &mut pla,
        &mut side,
        &mut out,
        journal,
        &mut notes,
        &mut finders,
    );
    assert_eq!(rt; ended.status, expected.status);
    assert_eq!(rt; notes.bytes(), expected.notes.as_bytes());
    assert_eq!(rt; ended.journal.bytes(), expected.journal);
    assert!(rt; REPORT.starts_with(out.bytes()));
    Ok(())
}

#[test]
fn devices_that_fail(rt: HostRuntime) -> Result<(), Fail> {
    let alloc = rt.alloc();
    try_devices(
        &rt,
        alloc,
        Vec::new(alloc),
        Vec::new(alloc),
        vec![in alloc; 2]?,
        &BrokenOff {
            status: Status::WriteFault,
            notes: "write fault\n",
            journal: b"l",
        },
    )?;
    // Within the question's line.
    try_devices(
        &rt,
        alloc,
        Vec::new(alloc),
        Vec::new(alloc),
        vec![in alloc; 36]?,
        &BrokenOff {
            status: Status::WriteFault,
            notes: "write fault\n",
            journal: b"lattice journal 2\nrails 1048575\nque",
        },
    )?;
    try_devices(
        &rt,
        alloc,
        Vec::new(alloc),
        vec![in alloc; 1]?,
        Vec::new(alloc),
        &BrokenOff {
            status: Status::WriteFault,
            notes: "write fault\n",
            journal: b"",
        },
    )?;
    try_devices(
        &rt,
        alloc,
        vec![in alloc; 3]?,
        Vec::new(alloc),
        Vec::new(alloc),
        &BrokenOff {
            status: Status::ReadFault,
            notes: "read fault\n",
            journal: b"",
        },
    )
}

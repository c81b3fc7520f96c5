//! Runs of the command `dual`.
use four_lattice::run::run;
use four_lattice::status::Status;
use run_rows::row::{done, refused, try_row, words_of};
use std::alloc::Global;
use std::test::Fail;
use wire_io::firm::{FirmSink, FirmSource};

/// The words of the command.
const DUAL: &[&str] = &["dual"];

/// The conjunction of two inputs, and its report.
const AND: &str = ".i 2\n.o 1\n11 1\n.e\n";

const AND_REPORT: &str =
    "lattice report 2\ninputs x0 x1\nrails 1048575\noutput 0 f0 found 2x1\nx1\nx0\nend\n";

/// Three outputs as one writes them by hand, and their report.
const SLICE: &str =
    "# slice\n.i 7\n.o 3\n.ilb a b c d e f g\n.ob load shift hold\n.p 4\n11----- 1-0\n--1---- 01-\n---1--- 010\n----111 001\n.e\n";

const SLICE_REPORT: &str =
    "lattice report 2\ninputs a b c d e f g\nrails 1048575\noutput 0 load found 2x1\nx1\nx0\noutput 1 shift found 1x2\nx2 x3\noutput 2 hold found 3x1\nx6\nx5\nx4\nend\n";

#[test]
fn texts(rt: HostRuntime) -> Result<(), Fail> {
    let rows = [
        done(DUAL, AND, "", AND_REPORT),
        done(
            DUAL,
            ".i 2\n.o 1\n1- 1\n-1 1\n.e\n",
            "",
            "lattice report 2\ninputs x0 x1\nrails 1048575\noutput 0 f0 found 1x2\nx0 x1\nend\n",
        ),
        done(
            DUAL,
            ".i 2\n.o 1\n10 1\n01 1\n.e\n",
            "",
            "lattice report 2\ninputs x0 x1\nrails 1048575\noutput 0 f0 found 2x2\nx0 x1\nx1' x0'\nend\n",
        ),
        // Neither on nor off.
        done(
            DUAL,
            ".i 2\n.o 1\n.type fr\n.e\n",
            "",
            "lattice report 2\ninputs x0 x1\nrails 1048575\noutput 0 f0 found 1x1\n0\nend\n",
        ),
        // The cover of what the on cover leaves is not a cover of the off assignments alone.
        done(
            DUAL,
            ".i 2\n.o 1\n.type fr\n11 1\n00 0\n.e\n",
            "",
            "lattice report 2\ninputs x0 x1\nrails 1048575\noutput 0 f0 found 1x1\nx1\nend\n",
        ),
        done(
            DUAL,
            ".i 2\n.o 1\n.type fdr\n1- 1\n11 -\n.e\n",
            "",
            "lattice report 2\ninputs x0 x1\nrails 1048575\noutput 0 f0 found 1x1\n1\nend\n",
        ),
        done(
            DUAL,
            ".i 10\n.o 1\n1111111111 1\n.e\n",
            "",
            "lattice report 2\ninputs x0 x1 x2 x3 x4 x5 x6 x7 x8 x9\nrails 1048575\noutput 0 f0 found 10x1\nx9\nx8\nx7\nx6\nx5\nx4\nx3\nx2\nx1\nx0\nend\n",
        ),
        done(DUAL, SLICE, "", SLICE_REPORT),
        done(&["verify", "J"], SLICE, SLICE_REPORT, "realised 3\n"),
        done(
            DUAL,
            ".i 2\n.o 2\n.type fd\n.p 3\n11 1~\n10 2~\n01 ~1\n.end\n",
            "",
            "lattice report 2\ninputs x0 x1\nrails 1048575\noutput 0 f0 found 1x1\nx0\noutput 1 f1 found 2x1\nx1\nx0'\nend\n",
        ),
    ];
    for row in &rows {
        try_row(rt.alloc(), row)?;
    }
    Ok(())
}

#[test]
fn chosen_outputs(rt: HostRuntime) -> Result<(), Fail> {
    let rows = [
        done(&["dual", "--output", "0"], AND, "", AND_REPORT),
        done(
            &["dual", "--output", "2"],
            SLICE,
            "",
            "lattice report 2\ninputs a b c d e f g\nrails 1048575\noutput 2 hold found 3x1\nx6\nx5\nx4\nend\n",
        ),
        done(
            &["pairs", "--output", "0"],
            AND,
            "",
            "lattice report 2\ninputs x0 x1\nrails 1048575\noutput 0 f0 found 3x1\nx0\nx1\nx0\nend\n",
        ),
        refused(
            &["dual", "--output", "1"],
            AND,
            "",
            Status::Input,
            "input refused: NoSuchOutput\n",
        ),
        // The PLA is judged before the choice.
        refused(
            &["dual", "--output", "1"],
            ".i 2\n.o 1\n1x 1\n.e\n",
            "",
            Status::Input,
            "input refused: BadDigit at line 3\n",
        ),
        refused(
            DUAL,
            ".i 2\n.o 1\n.type fr\n1- 1\n11 0\n.e\n",
            "",
            Status::Input,
            "input refused: Conflict output 0 assignment 3\n",
        ),
        refused(
            DUAL,
            ".i 11\n.o 1\n1111111111 1\n.e\n",
            "",
            Status::Input,
            "input refused: Inputs at line 1\n",
        ),
    ];
    for row in &rows {
        try_row(rt.alloc(), row)?;
    }
    Ok(())
}

/// Odd parity of ten inputs, a row for each assignment.
fn parity(alloc: Global) -> Result<Vec<u8>, Fail> {
    let mut text = b".i 10\n.o 1\n".to_vec(alloc)?;
    for number in 0..1024u16 {
        if number.count_ones() % 2 == 1 {
            for input in 0..10u16 {
                text.push(if (number >> input) & 1 == 1 {
                    b'1'
                } else {
                    b'0'
                })?;
            }
            text.extend_from_slice(b" 1\n")?;
        }
    }
    text.extend_from_slice(b".e\n")?;
    Ok(text)
}

#[test]
fn odd_parity_of_ten_inputs(rt: HostRuntime) -> Result<(), Fail> {
    let alloc = rt.alloc();
    let words = words_of(alloc, DUAL)?;
    let mut pla = FirmSource::new(parity(alloc)?, 4096);
    let mut side = FirmSource::new(Vec::new(alloc), 4);
    let mut out = FirmSink::new(alloc, 150, 8192)?;
    let mut notes = FirmSink::new(alloc, 200, 1)?;
    let journal = FirmSink::new(alloc, 1, 1)?;
    let mut finders = Vec::new(alloc);
    let ended = run(
        alloc,
        &words,
        &mut pla,
        &mut side,
        &mut out,
        journal,
        &mut notes,
        &mut finders,
    );
    assert_eq!(rt; ended.status, Status::Done);
    assert_eq!(rt; notes.total(), 0);
    let front =
        b"lattice report 2\ninputs x0 x1 x2 x3 x4 x5 x6 x7 x8 x9\nrails 1048575\noutput 0 f0 found 512x512\nx0 x1 x2 x0 ";
    assert!(rt; out.bytes().starts_with(front));
    assert_eq!(rt; ended.journal.total(), 0);
    Ok(())
}

//! Runs of `synth` on a file as it is written by hand, and on the parity of ten inputs.
use four_lattice::run::run;
use four_lattice::status::Status;
use run_rows::row::words_of;
use std::alloc::Global;
use std::test::Fail;
use wire_io::firm::{FirmSink, FirmSource};

/// Odd parity of ten inputs, a row for each assignment.
fn parity(alloc: Global) -> Result<Vec<u8>, Fail> {
    let mut text = b".i 10\n.o 1\n".to_vec(alloc)?;
    for number in 0..1024u16 {
        if number.count_ones() % 2 == 1 {
            for input in 0..10u16 {
                let digit = if (number >> input) & 1 == 1 {
                    b'1'
                } else {
                    b'0'
                };
                text.push(digit)?;
            }
            text.extend_from_slice(b" 1\n")?;
        }
    }
    text.extend_from_slice(b".e\n")?;
    Ok(text)
}

#[test]
fn odd_parity_of_ten_inputs(rt: HostRuntime) -> Result<(), Fail> {
    let alloc = rt.alloc();
    let words = words_of(alloc, &["synth", "--conflicts", "0", "J"])?;
    let mut pla = FirmSource::new(parity(alloc)?, 4096);
    let mut side = FirmSource::new(Vec::new(alloc), 4);
    let mut out = FirmSink::new(alloc, 150, 8192)?;
    let mut notes = FirmSink::new(alloc, 200, 1)?;
    let journal = FirmSink::new(alloc, 100, 8192)?;
    let mut finders = Vec::new(alloc);
    let ended = run(
        alloc,
        &words,
        &mut pla,
        &mut side,
        &mut out,
        journal,
        &mut notes,
        &mut finders,
    );
    assert_eq!(rt; ended.status, Status::Undecided);
    assert_eq!(rt; notes.total(), 0);
    // The dual product is too large: the search begins with a column for each on assignment.
    let front =
        b"lattice report 2\ninputs x0 x1 x2 x3 x4 x5 x6 x7 x8 x9\nrails 1048575\noutput 0 f0 undecided 10x1023 least 4 at 2x2 after 0\nx0 0 x0' 0 ";
    assert!(rt; out.bytes().starts_with(front));
    Ok(())
}

/// A PLA as it is written by hand.
const SLICE: &str =
    "# slice\n.i 7\n.o 3\n.ilb a b c d e f g\n.ob load shift hold\n.p 4\n11----- 1-0\n--1---- 01-\n---1--- 010\n----111 001\n.e\n";

/// What its report has of each output.
const BLOCKS: [&str; 3] = [
    "rails 1048575\noutput 0 load minimum 2x1\nx1\nx0\nrefuted ",
    "\noutput 1 shift minimum 1x2\nx2 x3\nrefuted ",
    "\noutput 2 hold minimum 3x1\nx6\nx5\nx4\nrefuted ",
];

#[test]
fn a_file_as_it_is_written_by_hand(rt: HostRuntime) -> Result<(), Fail> {
    let alloc = rt.alloc();
    let words = words_of(alloc, &["synth", "J"])?;
    let mut pla = FirmSource::new(SLICE.as_bytes().to_vec(alloc)?, 7);
    let mut side = FirmSource::new(Vec::new(alloc), 4);
    let mut out = FirmSink::new(alloc, 4000, 64)?;
    let mut notes = FirmSink::new(alloc, 200, 1)?;
    let journal = FirmSink::new(alloc, 400_000, 4096)?;
    let mut finders = Vec::new(alloc);
    let ended = run(
        alloc,
        &words,
        &mut pla,
        &mut side,
        &mut out,
        journal,
        &mut notes,
        &mut finders,
    );
    assert_eq!(rt; ended.status, Status::Done);
    assert_eq!(rt; notes.total(), 0);
    for block in BLOCKS {
        let at = block.as_bytes();
        assert!(rt;
            out.bytes().windows(at.len()).any(|part| part == at),
            "{block}"
        );
    }
    Ok(())
}

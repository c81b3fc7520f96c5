//! Runs of each command over devices of which a call fails.
use four_lattice::run::run;
use four_lattice::status::Status;
use run_rows::row::words_of;
use std::alloc::Global;
use std::process::Abort;
use std::test::Fail;
use wire_io::memory::{MemorySink, MemorySource};

/// A PLA of two inputs and its dual lattice as a report; a formula with its refutation.
const AND: &str = ".i 2\n.o 1\n11 1\n.e\n";

const AND_REPORT: &str = "lattice report 1\ninputs x0 x1\noutput 0 f0 found 2x1\nx1\nx0\nend\n";

const BOTH: &str = "p cnf 1 2\n1 0\n-1 0\n";

const STEPS: &str = "3 0 1 2 0\n";

/// The device whose second call fails.
#[derive(Clone, Copy, Debug, PartialEq, Eq)]
enum Failing {
    Pla,
    Side,
    Out,
}

/// The numbers of the calls of a device that fail: the second one, where it is this device.
fn fails(alloc: Global, device: Failing, failing: Failing) -> Result<Vec<u64>, Fail> {
    let mut numbers = Vec::new(alloc);
    if device == failing {
        numbers.push(2)?;
    }
    Ok(numbers)
}

/// Runs a command of which a device fails, and compares the status, the output and the line of notes.
fn try_fault(
    rt: &impl Abort,
    alloc: Global,
    words: &[&str],
    pla: &str,
    side: &str,
    failing: Failing,
) -> Result<(), Fail> {
    let words = words_of(alloc, words)?;
    let pla_fails = fails(alloc, Failing::Pla, failing)?;
    let side_fails = fails(alloc, Failing::Side, failing)?;
    let out_fails = fails(alloc, Failing::Out, failing)?;
    let mut pla = MemorySource::new(pla.as_bytes().to_vec(alloc)?, 4, pla_fails);
    let mut side = MemorySource::new(side.as_bytes().to_vec(alloc)?, 4, side_fails);
    let mut out = MemorySink::new(alloc, 4000, 1, out_fails)?;
    let journal = MemorySink::new(alloc, 1, 1, Vec::new(alloc))?;
    let mut notes = MemorySink::new(alloc, 200, 7, Vec::new(alloc))?;
    let mut finders = Vec::new(alloc);
    let ended = run(
        alloc,
        &words,
        &mut pla,
        &mut side,
        &mut out,
        journal,
        &mut notes,
        &mut finders,
    );
    let (status, written, note) = match failing {
        Failing::Pla | Failing::Side => (Status::ReadFault, 0, "read fault\n"),
        Failing::Out => (Status::WriteFault, 1, "write fault\n"),
    };
    assert_eq!(rt; ended.status, status);
    assert_eq!(rt; out.bytes().len(), written);
    assert_eq!(rt; notes.bytes(), note.as_bytes());
    assert_eq!(rt; ended.journal.bytes().len(), 0);
    Ok(())
}

#[test]
fn the_standard_input_fails(rt: HostRuntime) -> Result<(), Fail> {
    let alloc = rt.alloc();
    let cnf = ["cnf", "--rows", "1", "--cols", "1"];
    try_fault(&rt, alloc, &["pairs"], AND, "", Failing::Pla)?;
    try_fault(&rt, alloc, &["dual"], AND, "", Failing::Pla)?;
    try_fault(&rt, alloc, &cnf, AND, "", Failing::Pla)?;
    try_fault(&rt, alloc, &["verify", "J"], AND, AND_REPORT, Failing::Pla)?;
    try_fault(&rt, alloc, &["check", "J"], BOTH, STEPS, Failing::Pla)
}

#[test]
fn the_side_file_fails(rt: HostRuntime) -> Result<(), Fail> {
    let alloc = rt.alloc();
    try_fault(&rt, alloc, &["verify", "J"], AND, AND_REPORT, Failing::Side)?;
    try_fault(&rt, alloc, &["check", "J"], BOTH, STEPS, Failing::Side)
}

#[test]
fn the_standard_output_fails(rt: HostRuntime) -> Result<(), Fail> {
    let alloc = rt.alloc();
    let cnf = ["cnf", "--rows", "1", "--cols", "1"];
    try_fault(&rt, alloc, &["pairs"], AND, "", Failing::Out)?;
    try_fault(&rt, alloc, &["dual"], AND, "", Failing::Out)?;
    try_fault(&rt, alloc, &cnf, AND, "", Failing::Out)?;
    try_fault(&rt, alloc, &["verify", "J"], AND, AND_REPORT, Failing::Out)?;
    try_fault(&rt, alloc, &["check", "J"], BOTH, STEPS, Failing::Out)
}

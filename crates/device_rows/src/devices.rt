//! Runs over devices of which each call fails in turn, until a run meets no fault.
use four_lattice::run::run;
use four_lattice::status::Status;
use run_rows::row::words_of;
use std::alloc::Global;
use std::process::Abort;
use std::test::Fail;
use wire_io::memory::{MemorySink, MemorySource};

/// A device of a run.
#[derive(Clone, Copy, PartialEq, Eq)]
enum Device {
    Pla,
    Side,
    Out,
    Journal,
    Notes,
}

/// The words and the texts of a run.
#[derive(Clone, Copy)]
struct Case<'a> {
    words: &'static [&'static str],
    pla: &'static str,
    side: &'a [u8],
}

/// What a run left.
#[derive(Drop)]
struct Left {
    status: Status,
    out: Vec<u8>,
    journal: Vec<u8>,
    notes: Vec<u8>,
}

/// How many bytes a device takes or gives in one call.
const STEP: usize = 16;

/// More calls than any run here makes of a device.
const MOST_CALLS: u64 = 1000;

/// The numbers of the calls of a device that fail, where this one is to fail.
fn fails_of(alloc: Global, device: Device, failing: Device, call: u64) -> Result<Vec<u64>, Fail> {
    let mut fails = Vec::new(alloc);
    if device == failing {
        fails.push(call)?;
    }
    Ok(fails)
}

/// Runs the command over devices of which one fails at the call of this number; no call has the number 0.
fn run_failing(alloc: Global, case: &Case<'_>, failing: Device, call: u64) -> Result<Left, Fail> {
    let words = words_of(alloc, case.words)?;
    let mut pla = MemorySource::new(
        case.pla.as_bytes().to_vec(alloc)?,
        STEP,
        fails_of(alloc, Device::Pla, failing, call)?,
    );
    let mut side = MemorySource::new(
        case.side.to_vec(alloc)?,
        STEP,
        fails_of(alloc, Device::Side, failing, call)?,
    );
    let out_fails = fails_of(alloc, Device::Out, failing, call)?;
    let mut out = MemorySink::new(alloc, 4000, STEP, out_fails)?;
    let journal_fails = fails_of(alloc, Device::Journal, failing, call)?;
    let journal = MemorySink::new(alloc, 4000, STEP, journal_fails)?;
    let notes_fails = fails_of(alloc, Device::Notes, failing, call)?;
    let mut notes = MemorySink::new(alloc, 200, STEP, notes_fails)?;
    let mut finders = Vec::new(alloc);
    let ended = run(
        alloc,
        &words,
        &mut pla,
        &mut side,
        &mut out,
        journal,
        &mut notes,
        &mut finders,
    );
    Ok(Left {
        status: ended.status,
        out: out.bytes().to_vec(alloc)?,
        journal: ended.journal.bytes().to_vec(alloc)?,
        notes: notes.bytes().to_vec(alloc)?,
    })
}

/// Parity of two inputs, with a journal.
const SYNTH: Case<'static> = Case {
    words: &["synth", "--conflicts", "0", "J"],
    pla: ".i 2\n.o 1\n10 1\n01 1\n.e\n",
    side: b"",
};

/// A source fails: nothing is written, and the notes say so.
fn try_source(
    rt: &impl Abort,
    alloc: Global,
    case: &Case<'_>,
    failing: Device,
) -> Result<(), Fail> {
    for call in 1..MOST_CALLS {
        let left = run_failing(alloc, case, failing, call)?;
        if left.status == Status::Done {
            assert!(rt; call > 2);
            return Ok(());
        }
        assert_eq!(rt; left.status, Status::ReadFault);
        assert!(rt; left.out.is_empty() && left.journal.is_empty());
        assert_eq!(rt; left.notes.as_slice(), b"read fault\n".as_slice());
    }
    Err(Fail::from("a run met a fault at each call"))
}

#[test]
fn each_call_of_the_standard_input(rt: HostRuntime) -> Result<(), Fail> {
    try_source(&rt, rt.alloc(), &SYNTH, Device::Pla)
}

#[test]
fn each_call_of_the_side_file(rt: HostRuntime) -> Result<(), Fail> {
    let alloc = rt.alloc();
    let written = run_failing(alloc, &SYNTH, Device::Journal, 0)?;
    let audit = Case {
        words: &["audit", "J"],
        pla: SYNTH.pla,
        side: &written.journal,
    };
    try_source(&rt, alloc, &audit, Device::Side)
}

/// A front of a text without its last line has the one block of the report, or of the journal, whole.
fn has_block(front: &[u8], whole: &[u8]) -> bool {
    front.len() + 4 >= whole.len()
}

/// A sink fails: both have fronts of their texts, and a block that stands whole in the report is whole in the journal.
fn try_sink(rt: &impl Abort, alloc: Global, failing: Device) -> Result<(), Fail> {
    let whole = run_failing(alloc, &SYNTH, failing, 0)?;
    assert_eq!(rt; whole.status, Status::Done);
    assert!(rt; whole.out.ends_with(b"end\n") && whole.journal.ends_with(b"end\n"));
    for call in 1..MOST_CALLS {
        let left = run_failing(alloc, &SYNTH, failing, call)?;
        if left.status == Status::Done {
            assert!(rt; call > 2);
            assert_eq!(rt; left.out.as_slice(), whole.out.as_slice());
            assert_eq!(rt; left.journal.as_slice(), whole.journal.as_slice());
            return Ok(());
        }
        assert_eq!(rt; left.status, Status::WriteFault);
        assert_eq!(rt; left.notes.as_slice(), b"write fault\n".as_slice());
        assert!(rt; whole.out.starts_with(&left.out) && whole.journal.starts_with(&left.journal));
        assert!(rt; !has_block(&left.out, &whole.out) || has_block(&left.journal, &whole.journal));
    }
    Err(Fail::from("a run met a fault at each call"))
}

#[test]
fn each_call_of_the_standard_output(rt: HostRuntime) -> Result<(), Fail> {
    try_sink(&rt, rt.alloc(), Device::Out)
}

#[test]
fn each_call_of_the_journal(rt: HostRuntime) -> Result<(), Fail> {
    try_sink(&rt, rt.alloc(), Device::Journal)
}

#[test]
fn each_call_of_the_notes(rt: HostRuntime) -> Result<(), Fail> {
    let alloc = rt.alloc();
    let refused = Case {
        words: &["dual"],
        pla: ".i 2\n.o 1\n.type fr\n1- 1\n11 0\n.e\n",
        side: b"",
    };
    let whole = run_failing(alloc, &refused, Device::Notes, 0)?;
    assert_eq!(rt; whole.status, Status::Input);
    assert_eq!(rt;
        whole.notes.as_slice(),
        b"input refused: Conflict output 0 assignment 3\n".as_slice()
    );
    for call in 1..MOST_CALLS {
        let left = run_failing(alloc, &refused, Device::Notes, call)?;
        assert_eq!(rt; left.status, Status::Input);
        assert!(rt; whole.notes.starts_with(&left.notes));
        if left.notes.len() == whole.notes.len() {
            assert!(rt; call > 2);
            return Ok(());
        }
    }
    Err(Fail::from("a run met a fault at each call"))
}

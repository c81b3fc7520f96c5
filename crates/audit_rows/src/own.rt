//! Journals that the program writes itself.
use four_lattice::run::run;
use four_lattice::status::Status;
use run_rows::row::words_of;
use std::alloc::Global;
use std::process::Abort;
use std::test::Fail;
use wire_io::firm::{FirmSink, FirmSource};

/// The journal that `synth` writes for a PLA with no conflicts, where it ends with this status.
pub fn own_journal(
    rt: &impl Abort,
    alloc: Global,
    text: &str,
    status: Status,
) -> Result<Vec<u8>, Fail> {
    let words = words_of(alloc, &["synth", "--conflicts", "0", "J"])?;
    let mut pla = FirmSource::new(text.as_bytes().to_vec(alloc)?, 64);
    let mut side = FirmSource::new(Vec::new(alloc), 1);
    let mut report = FirmSink::new(alloc, 4000, 64)?;
    let mut notes = FirmSink::new(alloc, 100, 3)?;
    let journal = FirmSink::new(alloc, 400_000, 500)?;
    let mut finders = Vec::new(alloc);
    let ended = run(
        alloc,
        &words,
        &mut pla,
        &mut side,
        &mut report,
        journal,
        &mut notes,
        &mut finders,
    );
    assert_eq!(rt; ended.status, status);
    assert_eq!(rt; notes.total(), 0);
    Ok(ended.journal.bytes().to_vec(alloc)?)
}

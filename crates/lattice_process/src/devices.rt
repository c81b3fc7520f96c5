//! The devices of the process.
ghost use Rattle.std.specs.Prelude.{◌<◌, ◌^◌, vec_len};

use crate::exit::exit_code;
use crate::words::last_word;
use finder_set::finder::Finder;
use four_lattice::status::Status;
use std::process::ExitCode;
use wire_io::host::{HostSink, HostSource};

/// Runs the command that the words give over the standard input, output and error and the file that the last word
/// names, and gives the exit code of the run; that of want of memory where there was none for the
/// names.
pub(crate) fn run_on_devices(
    rt: &HostRuntime,
    words: &[String],
    finders: &mut Vec<Box<dyn Finder>>,
) -> ExitCode
    requires few { vec_len finders.old < 2 ^ 32 }
{
    let alloc = rt.alloc();
    let (Ok(side_path), Ok(journal_path)) = (last_word(alloc, words), last_word(alloc, words))
    else {
        return ExitCode::from(Status::NoMemory.number());
    };
    let mut pla = HostSource::standard(rt);
    let mut side = HostSource::file(rt, side_path);
    let mut out = HostSink::standard(rt);
    let journal = HostSink::file(rt, journal_path);
    let mut notes = HostSink::errors(rt);
    exit_code(
        alloc, words, &mut pla, &mut side, &mut out, journal, &mut notes, finders,
    )
}

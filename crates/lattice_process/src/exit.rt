//! The exit code of a run.
ghost use Rattle.std.specs.Prelude.{◌≡◌, ◌^◌, ◌<◌, true, [], IfSome, vec_len};
ghost use Rattle.std.specs.Process.{exit_status};
ghost use Rattle.four_lattice.specs.Devices.{change};
ghost use Rattle.four_lattice.specs.Run.{job_asked};
ghost use Rattle.four_lattice.specs.Uses.{uses};
ghost use Rattle.lattice_process.specs.Exit.{IsExit};

use finder_set::finder::Finder;
use four_lattice::run::run;
use std::alloc::Global;
use std::process::ExitCode;
use wire_io::sink::Sink;
use wire_io::source::Source;

/// Runs the command that the words give over these devices: the exit code has the number of the status of the run.
pub(crate) fn exit_code<S: Source, K: Sink + Drop>(
    alloc: Global,
    words: &[String],
    pla: &mut S,
    side: &mut S,
    out: &mut K,
    journal: K,
    notes: &mut K,
    finders: &mut Vec<Box<dyn Finder>>,
) -> ExitCode
    requires empty { (uses (job_asked words.now)).journal ≡ true → IfSome (K.got journal) (λ bytes. bytes ≡ []) }
    requires few { vec_len finders.old < 2 ^ 32 }
    ensures { IsExit (job_asked words.now) (exit_status result)
        (change (S.left pla.old) (S.faults pla.old) (S.left pla.new) (S.faults pla.new))
        (change (S.left side.old) (S.faults side.old) (S.left side.new) (S.faults side.new))
        (change (K.got out.old) (K.faults out.old) (K.got out.new) (K.faults out.new))
        (change (K.got notes.old) (K.faults notes.old) (K.got notes.new) (K.faults notes.new))
        (record { told = K.got journal; faults = K.faults journal }) }
{
    let ended = run(alloc, words, pla, side, out, journal, notes, finders);
    ExitCode::from(ended.status.number())
}

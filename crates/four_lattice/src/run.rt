//! The top call.
ghost use Rattle.std.specs.Prelude.{◌≡◌, ◌⊎◌, ℕ, ◌^◌, ◌<◌, true, false, [], IfSome, Some, vec_len};
ghost use Rattle.wire_io.specs.Causes.{Device};
ghost use Rattle.four_lattice.specs.Devices.{change};
ghost use Rattle.four_lattice.specs.Judge.{Comes, JobComes, IsGranted, Opens};
ghost use Rattle.four_lattice.specs.Laws.{IsOneJudgement, IsConfirmed};
ghost use Rattle.four_lattice.specs.Rejected.{IsWorkDone, IsStatusOfWork, UsesFinders};
ghost use Rattle.four_lattice.specs.Run.{job_asked, Finishes, FinishesAsked, Answers, AreJudged, SettlesRefusal, SettlesTask};
ghost use Rattle.four_lattice.specs.Uses.{uses, uses_of, most_bytes, most_bytes_of};
ghost use Rattle.four_lattice.specs.Words.{IsWithinBounds};

use crate::audit::end_of_audit;
use crate::check::end_of_check;
use crate::encoding::end_of_cnf;
use crate::ending::{Ending, Finished, Refusal};
use crate::lattices::{Construction, end_of_lattices};
use crate::map::end_of_map;
use crate::notes::write_note;
use crate::renew::end_of_renew;
use crate::status::Status;
use crate::synth::{Rejected, end_of_synth};
use crate::trial::end_of_trial;
use crate::verify::end_of_verify;
use crate::words::{Job, WordsFault, settings};
use finder_set::finder::Finder;
use std::alloc::Global;
use wire_io::sink::Sink;
use wire_io::source::Source;

/// How a run ended, the sink of the journal that it was given, and the proposals for which finders were dropped.
#[derive(Drop)]
pub struct Ended<K: Drop> {
    pub status: Status,
    pub journal: K,
    pub dropped: Vec<Rejected>,
}

/// How a job ends.
fn end_of_job<S: Source, K: Sink>(
    alloc: Global,
    job: Job,
    pla: &mut S,
    side: &mut S,
    out: &mut K,
    finders: &mut Vec<Box<dyn Finder>>,
    rejected: &mut Vec<Rejected>,
    journal: K,
) -> Finished<K>
    requires within { IsWithinBounds job }
    requires empty { (uses_of job).journal ≡ true → IfSome (K.got journal) (λ bytes. bytes ≡ []) }
    requires few { vec_len finders.old < 2 ^ 32 }
    requires fresh { rejected.old.items ≡ [] }
    ensures finishes { Finishes (JobComes IfSome job (record { pla = S.left pla.old; side = S.left side.old })) (uses_of job) (most_bytes_of job) result.ending
        (record {
          pla = change (S.left pla.old) (S.faults pla.old) (S.left pla.new) (S.faults pla.new);
          side = change (S.left side.old) (S.faults side.old) (S.left side.new) (S.faults side.new);
          out = change (K.got out.old) (K.faults out.old) (K.got out.new) (K.faults out.new);
          journal = change (K.got journal) (K.faults journal) (K.got result.journal) (K.faults result.journal);
        }) }
    ensures side_last { (side.new ≡ side.old) ⊎ Opens (Some job) (record { pla = S.left pla.old; side = S.left side.old }) }
    ensures out_last { (out.new ≡ out.old) ⊎ IsGranted (JobComes IfSome job (record { pla = S.left pla.old; side = S.left side.old })) }
    ensures journal_last { (result.journal ≡ journal) ⊎ IsGranted (JobComes IfSome job (record { pla = S.left pla.old; side = S.left side.old })) }
    ensures pla_kept { (uses_of job).pla ≡ false → pla.new ≡ pla.old }
    ensures side_kept { (uses_of job).side ≡ false → side.new ≡ side.old }
    ensures journal_kept { (uses_of job).journal ≡ false → result.journal ≡ journal }
    ensures finders_kept { (uses_of job).finders ≡ false → (finders.new ≡ finders.old) × (rejected.new ≡ rejected.old) }
    ensures finders_used { IsWorkDone result.ending → (uses_of job).finders ≡ true → UsesFinders (JobComes IfSome job (record { pla = S.left pla.old; side = S.left side.old })) begun (λ finder. (Finder-box finder).left finder.value) finders.old.items finders.new.items rejected.new.items }
{
    match job {
        Job::Pairs { output } => {
            let ending = end_of_lattices(alloc, Construction::Pairs, output, pla, side, out);
            Finished { ending, journal }
        }
        Job::Dual { output } => {
            let ending = end_of_lattices(alloc, Construction::Dual, output, pla, side, out);
            Finished { ending, journal }
        }
        Job::Cnf { output, shape } => {
            let ending = end_of_cnf(alloc, output, shape, pla, side, out);
            Finished { ending, journal }
        }
        Job::Verify => {
            let ending = end_of_verify(alloc, pla, side, out);
            Finished { ending, journal }
        }
        Job::Check => {
            let ending = end_of_check(alloc, pla, side, out);
            Finished { ending, journal }
        }
        Job::Audit => {
            let ending = end_of_audit(alloc, pla, side, out);
            Finished { ending, journal }
        }
        Job::Renew => {
            let ending = end_of_renew(alloc, pla, side, out);
            Finished { ending, journal }
        }
        Job::Synth {
            conflicts,
            output,
            rails,
        } => end_of_synth(
            alloc, output, rails, conflicts, pla, side, out, finders, rejected, journal,
        ),
        Job::Map { conflicts, output } => {
            end_of_map(alloc, output, conflicts, pla, side, out, journal)
        }
        Job::Trial { conflicts, number } => {
            end_of_trial(alloc, number, conflicts, out, finders, rejected, journal)
        }
    }
}

/// How a run ends, by what its words ask for.
fn end_of_words<S: Source, K: Sink>(
    alloc: Global,
    words: &[String],
    pla: &mut S,
    side: &mut S,
    out: &mut K,
    finders: &mut Vec<Box<dyn Finder>>,
    rejected: &mut Vec<Rejected>,
    journal: K,
) -> Finished<K>
    requires empty { (uses (job_asked words.now)).journal ≡ true → IfSome (K.got journal) (λ bytes. bytes ≡ []) }
    requires few { vec_len finders.old < 2 ^ 32 }
    requires fresh { rejected.old.items ≡ [] }
    ensures finishes { FinishesAsked (job_asked words.now) result.ending
        (record {
          pla = change (S.left pla.old) (S.faults pla.old) (S.left pla.new) (S.faults pla.new);
          side = change (S.left side.old) (S.faults side.old) (S.left side.new) (S.faults side.new);
          out = change (K.got out.old) (K.faults out.old) (K.got out.new) (K.faults out.new);
          journal = change (K.got journal) (K.faults journal) (K.got result.journal) (K.faults result.journal);
        }) }
    ensures side_last { (side.new ≡ side.old) ⊎ Opens (job_asked words.now) (record { pla = S.left pla.old; side = S.left side.old }) }
    ensures out_last { (out.new ≡ out.old) ⊎ IsGranted (Comes IfSome (job_asked words.now) (record { pla = S.left pla.old; side = S.left side.old })) }
    ensures journal_last { (result.journal ≡ journal) ⊎ IsGranted (Comes IfSome (job_asked words.now) (record { pla = S.left pla.old; side = S.left side.old })) }
    ensures pla_kept { (uses (job_asked words.now)).pla ≡ false → pla.new ≡ pla.old }
    ensures side_kept { (uses (job_asked words.now)).side ≡ false → side.new ≡ side.old }
    ensures journal_kept { (uses (job_asked words.now)).journal ≡ false → result.journal ≡ journal }
    ensures finders_kept { (uses (job_asked words.now)).finders ≡ false → (finders.new ≡ finders.old) × (rejected.new ≡ rejected.old) }
    ensures finders_used { IsWorkDone result.ending → (uses (job_asked words.now)).finders ≡ true → UsesFinders (Comes IfSome (job_asked words.now) (record { pla = S.left pla.old; side = S.left side.old })) begun (λ finder. (Finder-box finder).left finder.value) finders.old.items finders.new.items rejected.new.items }
{
    match settings(alloc, words) {
        Ok(job) => end_of_job(alloc, job, pla, side, out, finders, rejected, journal),
        Err(WordsFault::Refused) => Finished {
            ending: Ending::Refused(Refusal::Words),
            journal,
        },
        Err(WordsFault::NoMemory) => Finished {
            ending: Ending::NoMemory,
            journal,
        },
    }
}

/// Runs the command, and tells how it ended.
fn answer<S: Source, K: Sink + Drop>(
    alloc: Global,
    words: &[String],
    pla: &mut S,
    side: &mut S,
    out: &mut K,
    journal: K,
    notes: &mut K,
    finders: &mut Vec<Box<dyn Finder>>,
) -> Ended<K>
    requires empty { (uses (job_asked words.now)).journal ≡ true → IfSome (K.got journal) (λ bytes. bytes ≡ []) }
    requires few { vec_len finders.old < 2 ^ 32 }
    ensures answers { Answers (job_asked words.now) result.status
        (record {
          pla = change (S.left pla.old) (S.faults pla.old) (S.left pla.new) (S.faults pla.new);
          side = change (S.left side.old) (S.faults side.old) (S.left side.new) (S.faults side.new);
          out = change (K.got out.old) (K.faults out.old) (K.got out.new) (K.faults out.new);
          journal = change (K.got journal) (K.faults journal) (K.got result.journal) (K.faults result.journal);
        })
        (change (K.got notes.old) (K.faults notes.old) (K.got notes.new) (K.faults notes.new)) }
    ensures pla_kept { (uses (job_asked words.now)).pla ≡ false → pla.new ≡ pla.old }
    ensures side_kept { (uses (job_asked words.now)).side ≡ false → side.new ≡ side.old }
    ensures side_last { (side.new ≡ side.old) ⊎ Opens (job_asked words.now) (record { pla = S.left pla.old; side = S.left side.old }) }
    ensures out_last { (out.new ≡ out.old) ⊎ IsGranted (Comes IfSome (job_asked words.now) (record { pla = S.left pla.old; side = S.left side.old })) }
    ensures journal_last { (result.journal ≡ journal) ⊎ IsGranted (Comes IfSome (job_asked words.now) (record { pla = S.left pla.old; side = S.left side.old })) }
    ensures journal_kept { (uses (job_asked words.now)).journal ≡ false → result.journal ≡ journal }
    ensures finders_kept { (uses (job_asked words.now)).finders ≡ false → (finders.new ≡ finders.old) × (result.dropped.items ≡ []) }
    ensures finders_used { IsStatusOfWork result.status → (uses (job_asked words.now)).finders ≡ true → UsesFinders (Comes IfSome (job_asked words.now) (record { pla = S.left pla.old; side = S.left side.old })) begun (λ finder. (Finder-box finder).left finder.value) finders.old.items finders.new.items result.dropped.items }
{
    let mut dropped = Vec::new(alloc);
    let Finished { ending, journal } = end_of_words(
        alloc,
        words,
        pla,
        side,
        out,
        finders,
        &mut dropped,
        journal,
    );
    let _ = write_note(notes, &ending);
    Ended {
        status: ending.status(),
        journal,
        dropped,
    }
}

/// Runs the command that the words after the program's name give: reads `pla`, and `side` where the command has a
/// file to read, writes what it asks for to `out`, and at a refusal or a fault one line to `notes`. The sink of the
/// journal comes back at every status.
pub fn run<S: Source, K: Sink + Drop>(
    alloc: Global,
    words: &[String],
    pla: &mut S,
    side: &mut S,
    out: &mut K,
    journal: K,
    notes: &mut K,
    finders: &mut Vec<Box<dyn Finder>>,
) -> Ended<K>
    // The journal got nothing yet, where the command writes one; there are fewer than 4,294,967,296 finders.
    requires empty { (uses (job_asked words.now)).journal ≡ true → IfSome (K.got journal) (λ bytes. bytes ≡ []) }
    requires few { vec_len finders.old < 2 ^ 32 }
    // The status of refused words comes exactly where the words are no command's, but for want of memory.
    ensures words { AreJudged (job_asked words.now) result.status }
    // Each status has its cause, what was written is the work of accepted texts, and the notes get their line.
    ensures answers { Answers (job_asked words.now) result.status
        (record {
          pla = change (S.left pla.old) (S.faults pla.old) (S.left pla.new) (S.faults pla.new);
          side = change (S.left side.old) (S.faults side.old) (S.left side.new) (S.faults side.new);
          out = change (K.got out.old) (K.faults out.old) (K.got out.new) (K.faults out.new);
          journal = change (K.got journal) (K.faults journal) (K.got result.journal) (K.faults result.journal);
        })
        (change (K.got notes.old) (K.faults notes.old) (K.got notes.new) (K.faults notes.new)) }
    // Told texts that are refused end the run as that refusal, but for faults and want of memory.
    ensures refused { SettlesRefusal (job_asked words.now) result.status
        (record {
          pla = change (S.left pla.old) (S.faults pla.old) (S.left pla.new) (S.faults pla.new);
          side = change (S.left side.old) (S.faults side.old) (S.left side.new) (S.faults side.new);
          out = change (K.got out.old) (K.faults out.old) (K.got out.new) (K.faults out.new);
          journal = change (K.got journal) (K.faults journal) (K.got result.journal) (K.faults result.journal);
        })
        (change (K.got notes.old) (K.faults notes.old) (K.got notes.new) (K.faults notes.new)) }
    // Told texts that are accepted end it with their whole task done, but for faults and want of memory.
    ensures done { SettlesTask (job_asked words.now) result.status
        (record {
          pla = change (S.left pla.old) (S.faults pla.old) (S.left pla.new) (S.faults pla.new);
          side = change (S.left side.old) (S.faults side.old) (S.left side.new) (S.faults side.new);
          out = change (K.got out.old) (K.faults out.old) (K.got out.new) (K.faults out.new);
          journal = change (K.got journal) (K.faults journal) (K.got result.journal) (K.faults result.journal);
        }) }
    // Devices that the command does not use are the same objects; the side file is called only where the text before it
    // is accepted, and the standard output and the journal only where all are.
    ensures pla_kept { (uses (job_asked words.now)).pla ≡ false → pla.new ≡ pla.old }
    ensures side_kept { (uses (job_asked words.now)).side ≡ false → side.new ≡ side.old }
    ensures side_last { (side.new ≡ side.old) ⊎ Opens (job_asked words.now) (record { pla = S.left pla.old; side = S.left side.old }) }
    ensures out_last { (out.new ≡ out.old) ⊎ IsGranted (Comes IfSome (job_asked words.now) (record { pla = S.left pla.old; side = S.left side.old })) }
    ensures journal_last { (result.journal ≡ journal) ⊎ IsGranted (Comes IfSome (job_asked words.now) (record { pla = S.left pla.old; side = S.left side.old })) }
    ensures journal_kept { (uses (job_asked words.now)).journal ≡ false → result.journal ≡ journal }
    // Finders are left as they are by commands that do not ask them; those that ask drop each one that proposed a wrong smaller
    // lattice, and ask the others to the end.
    ensures finders_kept { (uses (job_asked words.now)).finders ≡ false → (finders.new ≡ finders.old) × (result.dropped.items ≡ []) }
    ensures finders_used { IsStatusOfWork result.status → (uses (job_asked words.now)).finders ≡ true → UsesFinders (Comes IfSome (job_asked words.now) (record { pla = S.left pla.old; side = S.left side.old })) begun (λ finder. (Finder-box finder).left finder.value) finders.old.items finders.new.items result.dropped.items }
{
    answer(alloc, words, pla, side, out, journal, notes, finders)
}

/// Told texts come to one judgement.
pub fn one_judgement()
    ensures { IsOneJudgement }
{}

/// The journal that `synth` wrote is confirmed by `audit` of it with the same PLA, if it is no longer than a side file may
/// be: so is each that is right.
pub fn right_journals()
    ensures { IsConfirmed }
{}

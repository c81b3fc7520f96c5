//! The command `trial`.
ghost use Rattle.std.specs.Prelude.{◌≡◌, ◌⊎◌, ◌<◌, ◌≤◌, ◌^◌, [], vec_len, IfOk, IfErr, IfSome, None, OnOk};
ghost use Rattle.wire_io.specs.Causes.{Device, HasCause};
ghost use Rattle.wire_io.specs.Told.{Gains, GainsFront};
ghost use Rattle.pla_reader.specs.Parts.{parts_of, IsPla};
ghost use Rattle.pla_reader.specs.Reading.{Reads};
ghost use Rattle.pla_reader.specs.declared.pla.PlaRefusal.TheVariants.{NoMemory};
ghost use Rattle.trial_text.specs.Made.{made as text_made};
ghost use Rattle.four_lattice.specs.Devices.{change, still};
ghost use Rattle.four_lattice.specs.Judge.{TrialComes, IsGranted};
ghost use Rattle.four_lattice.specs.Minima.{WroteTried, StoppedTried};
ghost use Rattle.four_lattice.specs.Rejected.{AreAskedWhereFull, IsWorkDone, UsesFinders};
ghost use Rattle.four_lattice.specs.Run.{Finishes};
ghost use Rattle.four_lattice.specs.Synth.{chosen_outputs};
ghost use Rattle.four_lattice.specs.Trial.{summary_text};
ghost use Rattle.four_lattice.specs.Uses.{journal_and_finders};

use crate::ending::{Ending, Finished};
use crate::lattices::WorkFault;
use crate::synth::{Rejected, write_minima};
use crate::tally::Tally;
use finder_set::finder::Finder;
use itoa::Buffer;
use lattice_grid::rails::Rails;
use pla_reader::pla::{Pla, PlaRefusal, read_pla};
use std::alloc::Global;
use trial_text::laws::made_reading;
use trial_text::made::made;
use wire_io::fault::{Failed, Stopped};
use wire_io::sink::{Sink, write_pieces};

/// The PLA that a number makes; no answer but want of memory is another.
fn pla_of(alloc: Global, number: u32) -> Result<Pla, PlaRefusal>
    ensures reads { IfOk result (λ pla. Reads (text_made number) (parts_of pla)) }
    ensures whole { IfOk result (λ pla. IsPla (parts_of pla)) }
    ensures wanting { IfErr result (λ refusal. refusal ≡ NoMemory) }
{
    made_reading();
    match made(alloc, number) {
        Ok(text) => read_pla(alloc, &text),
        Err(_) => Err(PlaRefusal::NoMemory),
    }
}

/// Writes the line that sums a trial up.
fn write_summary<K: Sink>(out: &mut K, number: u32, tally: Tally, steps: u64) -> Result<(), Failed>
    ensures ok { OnOk result (Gains (K.got out.old) (K.got out.new) (summary_text number tally steps)) }
    ensures front { GainsFront (K.got out.old) (K.got out.new) (summary_text number tally steps) }
    ensures cause { HasCause (K.faults out.old) (K.faults out.new) result }
{
    let mut number_digits = Buffer::new();
    let mut minimum_digits = Buffer::new();
    let mut undecided_digits = Buffer::new();
    let mut area_digits = Buffer::new();
    let mut steps_digits = Buffer::new();
    write_pieces(
        out,
        &[
            b"trial ",
            number_digits.format(number).as_bytes(),
            b" outputs 16 minimum ",
            minimum_digits.format(tally.minimum).as_bytes(),
            b" undecided ",
            undecided_digits.format(tally.undecided).as_bytes(),
            b" area ",
            area_digits.format(tally.area).as_bytes(),
            b" steps ",
            steps_digits.format(steps).as_bytes(),
            b"\n",
        ],
    )
}

/// Writes the report and the journal of all outputs, and the line that sums them up.
fn write_tried<K: Sink>(
    alloc: Global,
    out: &mut K,
    pla: &Pla,
    number: u32,
    conflicts: u32,
    finders: &mut Vec<Box<dyn Finder>>,
    rejected: &mut Vec<Rejected>,
    journal: K,
) -> Result<(Tally, K), Stopped<WorkFault, K>>
    requires few { vec_len finders.old < 2 ^ 32 }
    requires fresh { rejected.old.items ≡ [] }
    requires pla { IsPla (parts_of pla.now) }
    requires conflicts { conflicts ≤ 200000 }
    requires empty { IfSome (K.got journal) (λ bytes. bytes ≡ []) }
    ensures wrote { IfOk result (λ pair. WroteTried number conflicts (parts_of pla.now) pair.0
        (change (K.got out.old) (K.faults out.old) (K.got out.new) (K.faults out.new))
        (change (K.got journal) (K.faults journal) (K.got pair.1) (K.faults pair.1))) }
    ensures stopped { IfErr result (λ stopped. StoppedTried number conflicts (parts_of pla.now) stopped.fault
        (change (K.got out.old) (K.faults out.old) (K.got out.new) (K.faults out.new))
        (change (K.got journal) (K.faults journal) (K.got stopped.held) (K.faults stopped.held))) }
    ensures used { OnOk result (AreAskedWhereFull begun left 1048575 (parts_of pla.now) (chosen_outputs None pla.now.outputs) finders.old.items finders.new.items rejected.new.items) }
{
    let (tally, steps, journal) = write_minima(
        alloc,
        out,
        pla,
        None,
        Rails::all(),
        conflicts,
        finders,
        rejected,
        journal,
    )?;
    if write_summary(out, number, tally, steps).is_err() {
        return Err(Stopped {
            fault: WorkFault::Write,
            held: journal,
        });
    }
    Ok((tally, journal))
}

/// How the command `trial` ends.
pub(crate) fn end_of_trial<K: Sink>(
    alloc: Global,
    number: u32,
    conflicts: u32,
    out: &mut K,
    finders: &mut Vec<Box<dyn Finder>>,
    rejected: &mut Vec<Rejected>,
    journal: K,
) -> Finished<K>
    requires conflicts { conflicts ≤ 200000 }
    requires empty { IfSome (K.got journal) (λ bytes. bytes ≡ []) }
    requires few { vec_len finders.old < 2 ^ 32 }
    requires fresh { rejected.old.items ≡ [] }
    ensures finishes { (pla side : Device) → Finishes (TrialComes number conflicts) journal_and_finders 0 result.ending
        (record {
          pla = still pla;
          side = still side;
          out = change (K.got out.old) (K.faults out.old) (K.got out.new) (K.faults out.new);
          journal = change (K.got journal) (K.faults journal) (K.got result.journal) (K.faults result.journal);
        }) }
    ensures used { IsWorkDone result.ending → UsesFinders (TrialComes number conflicts) begun (λ finder. (Finder-box finder).left finder.value) finders.old.items finders.new.items rejected.new.items }
    ensures out_last { (out.new ≡ out.old) ⊎ IsGranted (TrialComes number conflicts) }
    ensures journal_last { (result.journal ≡ journal) ⊎ IsGranted (TrialComes number conflicts) }
{
    let pla = match pla_of(alloc, number) {
        Ok(pla) => pla,
        Err(_) => {
            return Finished {
                ending: Ending::NoMemory,
                journal,
            };
        }
    };
    match write_tried(
        alloc, out, &pla, number, conflicts, finders, rejected, journal,
    ) {
        Ok((tally, journal)) => Finished {
            ending: tally.ending(),
            journal,
        },
        Err(Stopped { fault, held }) => Finished {
            ending: fault.ending(),
            journal: held,
        },
    }
}

//! The command `map`.
ghost use Rattle.std.specs.Prelude.{◌≡◌, ◌⊎◌, ℕ, ◌<◌, ◌≤◌, ◌∷◌, false, [], IfOk, IfErr, IfSome, Some};
ghost use Rattle.pla_reader.specs.Parts.{parts_of, IsPla};
ghost use Rattle.report_text.specs.Report.{parts_of_block};
ghost use Rattle.four_lattice.specs.Devices.{change};
ghost use Rattle.four_lattice.specs.Judge.{MapComes, IsGranted};
ghost use Rattle.four_lattice.specs.Lattices.{IsWriteCause};
ghost use Rattle.four_lattice.specs.Minima.{asked_on, fault_of_place, AnswersOutput, CutsOutput, WroteOutput, StoppedOutput, WroteAnswers, StoppedAnswers};
ghost use Rattle.four_lattice.specs.Run.{Finishes};
ghost use Rattle.four_lattice.specs.Uses.{pla_and_journal, most_pla_bytes};

use crate::ending::{Ending, Finished, InputRefusal, Refusal};
use crate::inputs::{input_array, input_text};
use crate::lattices::{WorkFault, has_output};
use crate::synth::{write_ends, write_heads};
use crate::tally::Tally;
use audit_core::laws::right_where_shown;
use defect_array::place::{PlaceFault, place};
use journal_text::writer::JournalWriter;
use lattice_grid::array::Array;
use lattice_grid::rails::Rails;
use pla_reader::pla::Pla;
use report_text::answer::Block;
use report_text::write::write_block;
use std::alloc::Global;
use wire_io::fault::Stopped;
use wire_io::sink::Sink;
use wire_io::source::Source;

/// What stops a command whose placing stopped so.
fn work_fault(fault: PlaceFault) -> WorkFault
    ensures { result ≡ fault_of_place fault }
{
    match fault {
        PlaceFault::Sink => WorkFault::Write,
        PlaceFault::NoMemory => WorkFault::NoMemory,
    }
}

/// Places a lattice for an output on the array, and writes its question and its answer to the journal.
fn answer_output<K: Sink>(
    alloc: Global,
    pla: &Pla,
    output: u32,
    array: Array,
    conflicts: u32,
    writer: JournalWriter<K>,
) -> Result<(Block, JournalWriter<K>), Stopped<WorkFault, K>>
    requires pla { IsPla (parts_of pla.now) }
    requires there { output < pla.now.outputs }
    requires conflicts { conflicts ≤ 200000 }
    requires whole { writer.failed ≡ false }
    ensures whole { IfOk result (λ pair. pair.1.failed ≡ false) }
    ensures answers { IfOk result (λ pair. AnswersOutput (asked_on array conflicts (parts_of pla.now)) output (parts_of_block pair.0)
        (change (K.got writer.sink) (K.faults writer.sink) (K.got pair.1.sink) (K.faults pair.1.sink))) }
    ensures later { IfOk result (λ pair. K.faults writer.sink ≤ K.faults pair.1.sink) }
    ensures cuts { IfErr result (λ stopped. CutsOutput (asked_on array conflicts (parts_of pla.now)) output
        (change (K.got writer.sink) (K.faults writer.sink) (K.got stopped.held) (K.faults stopped.held))) }
    ensures cause { IfErr result (λ stopped. IsWriteCause (K.faults writer.sink) (K.faults stopped.held) stopped.fault) }
    ensures cut_later { IfErr result (λ stopped. K.faults writer.sink ≤ K.faults stopped.held) }
{
    let number = output as usize;
    let Ok(name) = pla.output_names.as_slice()[number].copy(alloc) else {
        return Err(Stopped {
            fault: WorkFault::NoMemory,
            held: writer.into_sink(),
        });
    };
    let (answer, proofs, mut writer) = match place(
        alloc,
        output,
        &pla.specs[number],
        array,
        conflicts,
        writer,
    ) {
        Ok(placed) => placed,
        Err(Stopped { fault, held }) => {
            return Err(Stopped {
                fault: work_fault(fault),
                held,
            });
        }
    };
    let block = Block {
        output,
        name,
        answer,
        proofs,
    };
    if writer.answer(&block).is_err() {
        return Err(Stopped {
            fault: WorkFault::Write,
            held: writer.into_sink(),
        });
    }
    Ok((block, writer))
}

/// Answers for an output in the journal, and then writes its block.
fn write_output<K: Sink>(
    alloc: Global,
    out: &mut K,
    pla: &Pla,
    output: u32,
    array: Array,
    conflicts: u32,
    writer: JournalWriter<K>,
) -> Result<(Tally, JournalWriter<K>), Stopped<WorkFault, K>>
    requires pla { IsPla (parts_of pla.now) }
    requires there { output < pla.now.outputs }
    requires conflicts { conflicts ≤ 200000 }
    requires whole { writer.failed ≡ false }
    ensures whole { IfOk result (λ pair. pair.1.failed ≡ false) }
    ensures wrote { IfOk result (λ pair. WroteOutput (asked_on array conflicts (parts_of pla.now)) output pair.0
        (change (K.got out.old) (K.faults out.old) (K.got out.new) (K.faults out.new))
        (change (K.got writer.sink) (K.faults writer.sink) (K.got pair.1.sink) (K.faults pair.1.sink))) }
    ensures stopped { IfErr result (λ stopped. StoppedOutput (asked_on array conflicts (parts_of pla.now)) output stopped.fault
        (change (K.got out.old) (K.faults out.old) (K.got out.new) (K.faults out.new))
        (change (K.got writer.sink) (K.faults writer.sink) (K.got stopped.held) (K.faults stopped.held))) }
{
    let (block, writer) = answer_output(alloc, pla, output, array, conflicts, writer)?;
    if write_block(out, &block).is_err() {
        return Err(Stopped {
            fault: WorkFault::Write,
            held: writer.into_sink(),
        });
    }
    Ok((Tally::of(&block.answer), writer))
}

/// Writes the report and the journal of an output on the array.
fn write_placed<K: Sink>(
    alloc: Global,
    out: &mut K,
    pla: &Pla,
    output: u32,
    array: Array,
    conflicts: u32,
    journal: K,
) -> Result<(Tally, K), Stopped<WorkFault, K>>
    requires pla { IsPla (parts_of pla.now) }
    requires there { output < pla.now.outputs }
    requires conflicts { conflicts ≤ 200000 }
    requires empty { IfSome (K.got journal) (λ bytes. bytes ≡ []) }
    ensures wrote { IfOk result (λ pair. WroteAnswers (asked_on array conflicts (parts_of pla.now)) (Some output) pair.0
        (change (K.got out.old) (K.faults out.old) (K.got out.new) (K.faults out.new))
        (change (K.got journal) (K.faults journal) (K.got pair.1) (K.faults pair.1))) }
    ensures stopped { IfErr result (λ stopped. StoppedAnswers (asked_on array conflicts (parts_of pla.now)) (Some output) stopped.fault
        (change (K.got out.old) (K.faults out.old) (K.got out.new) (K.faults out.new))
        (change (K.got journal) (K.faults journal) (K.got stopped.held) (K.faults stopped.held))) }
{
    right_where_shown();
    let writer = write_heads(out, pla, Rails::all(), journal)?;
    let (tally, writer) = write_output(alloc, out, pla, output, array, conflicts, writer)?;
    let journal = write_ends(out, writer)?;
    Ok((tally, journal))
}

/// How the command `map` ends.
pub(crate) fn end_of_map<S: Source, K: Sink>(
    alloc: Global,
    output: u32,
    conflicts: u32,
    pla: &mut S,
    side: &mut S,
    out: &mut K,
    journal: K,
) -> Finished<K>
    requires conflicts { conflicts ≤ 200000 }
    requires empty { IfSome (K.got journal) (λ bytes. bytes ≡ []) }
    ensures finishes { Finishes (MapComes IfSome conflicts output (record { pla = S.left pla.old; side = S.left side.old })) pla_and_journal most_pla_bytes result.ending
        (record {
          pla = change (S.left pla.old) (S.faults pla.old) (S.left pla.new) (S.faults pla.new);
          side = change (S.left side.old) (S.faults side.old) (S.left side.new) (S.faults side.new);
          out = change (K.got out.old) (K.faults out.old) (K.got out.new) (K.faults out.new);
          journal = change (K.got journal) (K.faults journal) (K.got result.journal) (K.faults result.journal);
        }) }
    ensures side_same { side.new ≡ side.old }
    ensures out_last { (out.new ≡ out.old) ⊎ IsGranted (MapComes IfSome conflicts output (record { pla = S.left pla.old; side = S.left side.old })) }
    ensures journal_last { (result.journal ≡ journal) ⊎ IsGranted (MapComes IfSome conflicts output (record { pla = S.left pla.old; side = S.left side.old })) }
{
    let _ = &side;
    let text = match input_text(alloc, pla) {
        Ok(text) => text,
        Err(ending) => return Finished { ending, journal },
    };
    if !has_output(&text.pla, Some(output)) {
        return Finished {
            ending: Ending::Refused(Refusal::Input(InputRefusal::NoSuchOutput)),
            journal,
        };
    }
    let array = match input_array(alloc, &text) {
        Ok(array) => array,
        Err(ending) => return Finished { ending, journal },
    };
    match write_placed(alloc, out, &text.pla, output, array, conflicts, journal) {
        Ok((tally, journal)) => Finished {
            ending: tally.ending(),
            journal,
        },
        Err(Stopped { fault, held }) => Finished {
            ending: fault.ending(),
            journal: held,
        },
    }
}

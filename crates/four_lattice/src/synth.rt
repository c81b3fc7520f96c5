//! The command `synth`.
ghost use Rattle.std.specs.Prelude.{◌≡◌, ◌⊎◌, ℕ, ◌-◌, ◌^◌, ◌<◌, ◌≤◌, ◌++◌, false, [], map, vec_len, IfOk, IfErr, IfSome, OnOk};
ghost use Rattle.std.specs.List.{range_with_len};
ghost use Rattle.pla_reader.specs.Parts.{parts_of, IsPla};
ghost use Rattle.report_text.specs.Report.{parts_of_block};
ghost use Rattle.four_lattice.specs.Devices.{change};
ghost use Rattle.four_lattice.specs.Judge.{SynthComes, IsGranted};
ghost use Rattle.four_lattice.specs.Lattices.{IsThere, IsWriteCause};
ghost use Rattle.four_lattice.specs.Minima.{asked, AnswersOutput, CutsOutput, WroteOutput, StoppedOutput, WroteBlocks, StoppedBlocks, WroteHeads, StoppedHeads, WroteEnds, StoppedEnds, WroteAnswers, StoppedAnswers, IsTallyOf, fault_of_search};
ghost use Rattle.four_lattice.specs.Rejected.{rejected_for, AreAskedWhereFull, AreUsedOnce, IsWorkDone, UsesFinders};
ghost use Rattle.four_lattice.specs.Run.{Finishes};
ghost use Rattle.four_lattice.specs.Synth.{chosen_outputs};
ghost use Rattle.four_lattice.specs.Trial.{HasSteps};
ghost use Rattle.four_lattice.specs.Uses.{pla_journal_and_finders, most_pla_bytes};

use crate::ending::{Ending, Finished, InputRefusal, Refusal};
use crate::inputs::input_pla;
use crate::lattices::{WorkFault, has_output};
use crate::tally::Tally;
use area_search::fault::SearchFault;
use area_search::least::search;
use audit_core::laws::right_where_shown;
use finder_set::finder::Finder;
use finder_set::improve::Dropped;
use journal_text::writer::JournalWriter;
use lattice_grid::grid::Grid;
use lattice_grid::rails::Rails;
use pla_reader::pla::Pla;
use report_text::answer::Block;
use report_text::write::{write_block, write_end, write_head};
use std::alloc::Global;
use wire_io::fault::{NoMemory as OutOfMemory, Stopped};
use wire_io::sink::Sink;
use wire_io::source::Source;

/// A proposal for which a finder was dropped, and the output for which it was made.
#[derive(Drop)]
pub struct Rejected {
    pub output: u32,
    pub proposal: Grid,
}

/// What stops a command whose search stopped so.
fn work_fault(fault: SearchFault) -> WorkFault
    ensures { result ≡ fault_of_search fault }
{
    match fault {
        SearchFault::Sink => WorkFault::Write,
        SearchFault::NoMemory => WorkFault::NoMemory,
    }
}

/// Adds the proposals for which finders were dropped at an output.
fn reject(
    rejected: &mut Vec<Rejected>,
    output: u32,
    dropped: Vec<Dropped>,
) -> Result<(), OutOfMemory>
    ensures { OnOk result (rejected.new.items ≡ rejected.old.items ++ map (rejected_for output) dropped.items) }
{
    for entry in dropped {
        rejected.push(Rejected {
            output,
            proposal: entry.proposal,
        })?;
    }
    Ok(())
}

/// Searches the lattice of an output, and writes its questions and its answer to the journal.
fn answer_output<K: Sink>(
    alloc: Global,
    pla: &Pla,
    output: u32,
    rails: Rails,
    conflicts: u32,
    finders: &mut Vec<Box<dyn Finder>>,
    rejected: &mut Vec<Rejected>,
    writer: JournalWriter<K>,
) -> Result<(Block, JournalWriter<K>), Stopped<WorkFault, K>>
    requires few { vec_len finders.old < 2 ^ 32 }
    requires pla { IsPla (parts_of pla.now) }
    requires there { output < pla.now.outputs }
    requires conflicts { conflicts ≤ 200000 }
    requires whole { writer.failed ≡ false }
    ensures whole { IfOk result (λ pair. pair.1.failed ≡ false) }
    ensures answers { IfOk result (λ pair. AnswersOutput (asked rails conflicts (parts_of pla.now)) output (parts_of_block pair.0)
        (change (K.got writer.sink) (K.faults writer.sink) (K.got pair.1.sink) (K.faults pair.1.sink))) }
    ensures later { IfOk result (λ pair. K.faults writer.sink ≤ K.faults pair.1.sink) }
    ensures cuts { IfErr result (λ stopped. CutsOutput (asked rails conflicts (parts_of pla.now)) output
        (change (K.got writer.sink) (K.faults writer.sink) (K.got stopped.held) (K.faults stopped.held))) }
    ensures cause { IfErr result (λ stopped. IsWriteCause (K.faults writer.sink) (K.faults stopped.held) stopped.fault) }
    ensures cut_later { IfErr result (λ stopped. K.faults writer.sink ≤ K.faults stopped.held) }
    ensures used { OnOk result (AreUsedOnce begun left rails (parts_of pla.now) output finders.old.items finders.new.items rejected.old.items rejected.new.items) }
    ensures fewer { vec_len finders.new ≤ vec_len finders.old }
{
    let place = output as usize;
    let Ok(name) = pla.output_names.as_slice()[place].copy(alloc) else {
        return Err(Stopped {
            fault: WorkFault::NoMemory,
            held: writer.into_sink(),
        });
    };
    let (answer, dropped, proofs, mut writer) = match search(
        alloc,
        output,
        &pla.specs[place],
        rails,
        conflicts,
        finders,
        writer,
    ) {
        Ok(found) => found,
        Err(Stopped { fault, held }) => {
            return Err(Stopped {
                fault: work_fault(fault),
                held,
            });
        }
    };
    if reject(rejected, output, dropped).is_err() {
        return Err(Stopped {
            fault: WorkFault::NoMemory,
            held: writer.into_sink(),
        });
    }
    let block = Block {
        output,
        name,
        answer,
        proofs,
    };
    if writer.answer(&block).is_err() {
        return Err(Stopped {
            fault: WorkFault::Write,
            held: writer.into_sink(),
        });
    }
    Ok((block, writer))
}

/// Answers for an output in the journal, and then writes its block.
fn write_output<K: Sink>(
    alloc: Global,
    out: &mut K,
    pla: &Pla,
    output: u32,
    rails: Rails,
    conflicts: u32,
    finders: &mut Vec<Box<dyn Finder>>,
    rejected: &mut Vec<Rejected>,
    writer: JournalWriter<K>,
) -> Result<(Tally, JournalWriter<K>), Stopped<WorkFault, K>>
    requires few { vec_len finders.old < 2 ^ 32 }
    requires pla { IsPla (parts_of pla.now) }
    requires there { output < pla.now.outputs }
    requires conflicts { conflicts ≤ 200000 }
    requires whole { writer.failed ≡ false }
    ensures whole { IfOk result (λ pair. pair.1.failed ≡ false) }
    ensures few { IfOk result (λ pair. IsTallyOf 1 pair.0) }
    ensures wrote { IfOk result (λ pair. WroteOutput (asked rails conflicts (parts_of pla.now)) output pair.0
        (change (K.got out.old) (K.faults out.old) (K.got out.new) (K.faults out.new))
        (change (K.got writer.sink) (K.faults writer.sink) (K.got pair.1.sink) (K.faults pair.1.sink))) }
    ensures stopped { IfErr result (λ stopped. StoppedOutput (asked rails conflicts (parts_of pla.now)) output stopped.fault
        (change (K.got out.old) (K.faults out.old) (K.got out.new) (K.faults out.new))
        (change (K.got writer.sink) (K.faults writer.sink) (K.got stopped.held) (K.faults stopped.held))) }
    ensures used { OnOk result (AreUsedOnce begun left rails (parts_of pla.now) output finders.old.items finders.new.items rejected.old.items rejected.new.items) }
    ensures fewer { vec_len finders.new ≤ vec_len finders.old }
{
    let (block, writer) = answer_output(
        alloc, pla, output, rails, conflicts, finders, rejected, writer,
    )?;
    if write_block(out, &block).is_err() {
        return Err(Stopped {
            fault: WorkFault::Write,
            held: writer.into_sink(),
        });
    }
    Ok((Tally::of(&block.answer), writer))
}

/// Answers for each output from `first` on that is below `end`, one after another.
fn write_outputs<K: Sink>(
    alloc: Global,
    out: &mut K,
    pla: &Pla,
    first: u32,
    end: u32,
    rails: Rails,
    conflicts: u32,
    finders: &mut Vec<Box<dyn Finder>>,
    rejected: &mut Vec<Rejected>,
    writer: JournalWriter<K>,
) -> Result<(Tally, JournalWriter<K>), Stopped<WorkFault, K>>
    requires few { vec_len finders.old < 2 ^ 32 }
    requires fresh { rejected.old.items ≡ [] }
    requires pla { IsPla (parts_of pla.now) }
    requires rising { first ≤ end }
    requires there { end ≤ pla.now.outputs }
    requires conflicts { conflicts ≤ 200000 }
    requires whole { writer.failed ≡ false }
    ensures whole { IfOk result (λ pair. pair.1.failed ≡ false) }
    ensures wrote { IfOk result (λ pair. WroteBlocks (asked rails conflicts (parts_of pla.now)) (range_with_len first (end - first)) pair.0
        (change (K.got out.old) (K.faults out.old) (K.got out.new) (K.faults out.new))
        (change (K.got writer.sink) (K.faults writer.sink) (K.got pair.1.sink) (K.faults pair.1.sink))) }
    ensures stopped { IfErr result (λ stopped. StoppedBlocks (asked rails conflicts (parts_of pla.now)) (range_with_len first (end - first)) stopped.fault
        (change (K.got out.old) (K.faults out.old) (K.got out.new) (K.faults out.new))
        (change (K.got writer.sink) (K.faults writer.sink) (K.got stopped.held) (K.faults stopped.held))) }
    ensures used { OnOk result (AreAskedWhereFull begun left rails (parts_of pla.now) (range_with_len first (end - first)) finders.old.items finders.new.items rejected.new.items) }
    ensures fewer { vec_len finders.new ≤ vec_len finders.old }
{
    right_where_shown();
    let mut writer = writer;
    let mut tally = Tally::new();
    for output in first..end {
        let (next, later) = write_output(
            alloc, out, pla, output, rails, conflicts, finders, rejected, writer,
        )?;
        tally = tally.and(next);
        writer = later;
    }
    Ok((tally, writer))
}

/// Answers for the chosen outputs.
fn write_chosen<K: Sink>(
    alloc: Global,
    out: &mut K,
    pla: &Pla,
    output: Option<u32>,
    rails: Rails,
    conflicts: u32,
    finders: &mut Vec<Box<dyn Finder>>,
    rejected: &mut Vec<Rejected>,
    writer: JournalWriter<K>,
) -> Result<(Tally, JournalWriter<K>), Stopped<WorkFault, K>>
    requires few { vec_len finders.old < 2 ^ 32 }
    requires fresh { rejected.old.items ≡ [] }
    requires pla { IsPla (parts_of pla.now) }
    requires there { IsThere output pla.now.outputs }
    requires conflicts { conflicts ≤ 200000 }
    requires whole { writer.failed ≡ false }
    ensures whole { IfOk result (λ pair. pair.1.failed ≡ false) }
    ensures wrote { IfOk result (λ pair. WroteBlocks (asked rails conflicts (parts_of pla.now)) (chosen_outputs output pla.now.outputs) pair.0
        (change (K.got out.old) (K.faults out.old) (K.got out.new) (K.faults out.new))
        (change (K.got writer.sink) (K.faults writer.sink) (K.got pair.1.sink) (K.faults pair.1.sink))) }
    ensures stopped { IfErr result (λ stopped. StoppedBlocks (asked rails conflicts (parts_of pla.now)) (chosen_outputs output pla.now.outputs) stopped.fault
        (change (K.got out.old) (K.faults out.old) (K.got out.new) (K.faults out.new))
        (change (K.got writer.sink) (K.faults writer.sink) (K.got stopped.held) (K.faults stopped.held))) }
    ensures used { OnOk result (AreAskedWhereFull begun left rails (parts_of pla.now) (chosen_outputs output pla.now.outputs) finders.old.items finders.new.items rejected.new.items) }
    ensures fewer { vec_len finders.new ≤ vec_len finders.old }
{
    match output {
        None => {
            let end = u32::from(pla.outputs);
            write_outputs(
                alloc, out, pla, 0, end, rails, conflicts, finders, rejected, writer,
            )
        }
        Some(one) => write_outputs(
            alloc,
            out,
            pla,
            one,
            one + 1,
            rails,
            conflicts,
            finders,
            rejected,
            writer,
        ),
    }
}

/// Writes the last line of the journal, and then that of the report.
pub(crate) fn write_ends<K: Sink>(
    out: &mut K,
    writer: JournalWriter<K>,
) -> Result<K, Stopped<WorkFault, K>>
    requires whole { writer.failed ≡ false }
    ensures ends { IfOk result (λ journal. WroteEnds
        (change (K.got out.old) (K.faults out.old) (K.got out.new) (K.faults out.new))
        (change (K.got writer.sink) (K.faults writer.sink) (K.got journal) (K.faults journal))) }
    ensures stopped { IfErr result (λ stopped. StoppedEnds stopped.fault
        (change (K.got out.old) (K.faults out.old) (K.got out.new) (K.faults out.new))
        (change (K.got writer.sink) (K.faults writer.sink) (K.got stopped.held) (K.faults stopped.held))) }
{
    let journal = match writer.finish() {
        Ok(journal) => journal,
        Err(Stopped { fault: _, held }) => {
            return Err(Stopped {
                fault: WorkFault::Write,
                held,
            });
        }
    };
    if write_end(out).is_err() {
        return Err(Stopped {
            fault: WorkFault::Write,
            held: journal,
        });
    }
    Ok(journal)
}

/// Writes the lines of the report before its blocks, and then those of the journal before its parts.
pub(crate) fn write_heads<K: Sink>(
    out: &mut K,
    pla: &Pla,
    rails: Rails,
    journal: K,
) -> Result<JournalWriter<K>, Stopped<WorkFault, K>>
    requires pla { IsPla (parts_of pla.now) }
    requires empty { IfSome (K.got journal) (λ bytes. bytes ≡ []) }
    ensures whole { IfOk result (λ writer. writer.failed ≡ false) }
    ensures heads { IfOk result (λ writer. WroteHeads rails (parts_of pla.now).input_names
        (change (K.got out.old) (K.faults out.old) (K.got out.new) (K.faults out.new))
        (change (K.got journal) (K.faults journal) (K.got writer.sink) (K.faults writer.sink))) }
    ensures stopped { IfErr result (λ stopped. StoppedHeads rails (parts_of pla.now).input_names stopped.fault
        (change (K.got out.old) (K.faults out.old) (K.got out.new) (K.faults out.new))
        (change (K.got journal) (K.faults journal) (K.got stopped.held) (K.faults stopped.held))) }
{
    if write_head(out, &pla.input_names, rails.bits()).is_err() {
        return Err(Stopped {
            fault: WorkFault::Write,
            held: journal,
        });
    }
    match JournalWriter::begin(journal, rails) {
        Ok(writer) => Ok(writer),
        Err(Stopped { fault: _, held }) => Err(Stopped {
            fault: WorkFault::Write,
            held,
        }),
    }
}

/// Writes the report and the journal of the chosen outputs: their tally, and how many steps the journal has.
pub(crate) fn write_minima<K: Sink>(
    alloc: Global,
    out: &mut K,
    pla: &Pla,
    output: Option<u32>,
    rails: Rails,
    conflicts: u32,
    finders: &mut Vec<Box<dyn Finder>>,
    rejected: &mut Vec<Rejected>,
    journal: K,
) -> Result<(Tally, u64, K), Stopped<WorkFault, K>>
    requires few { vec_len finders.old < 2 ^ 32 }
    requires fresh { rejected.old.items ≡ [] }
    requires pla { IsPla (parts_of pla.now) }
    requires there { IsThere output pla.now.outputs }
    requires conflicts { conflicts ≤ 200000 }
    requires empty { IfSome (K.got journal) (λ bytes. bytes ≡ []) }
    ensures wrote { IfOk result (λ found. WroteAnswers (asked rails conflicts (parts_of pla.now)) output found.0
        (change (K.got out.old) (K.faults out.old) (K.got out.new) (K.faults out.new))
        (change (K.got journal) (K.faults journal) (K.got found.2) (K.faults found.2))) }
    ensures counted { IfOk result (λ found. IfSome (K.got found.2) (HasSteps found.1)) }
    ensures stopped { IfErr result (λ stopped. StoppedAnswers (asked rails conflicts (parts_of pla.now)) output stopped.fault
        (change (K.got out.old) (K.faults out.old) (K.got out.new) (K.faults out.new))
        (change (K.got journal) (K.faults journal) (K.got stopped.held) (K.faults stopped.held))) }
    ensures used { OnOk result (AreAskedWhereFull begun left rails (parts_of pla.now) (chosen_outputs output pla.now.outputs) finders.old.items finders.new.items rejected.new.items) }
    ensures fewer { vec_len finders.new ≤ vec_len finders.old }
{
    let writer = write_heads(out, pla, rails, journal)?;
    let (tally, writer) = write_chosen(
        alloc, out, pla, output, rails, conflicts, finders, rejected, writer,
    )?;
    let steps = writer.steps();
    let journal = write_ends(out, writer)?;
    Ok((tally, steps, journal))
}

/// How the command `synth` ends.
pub(crate) fn end_of_synth<S: Source, K: Sink>(
    alloc: Global,
    output: Option<u32>,
    rails: Rails,
    conflicts: u32,
    pla: &mut S,
    side: &mut S,
    out: &mut K,
    finders: &mut Vec<Box<dyn Finder>>,
    rejected: &mut Vec<Rejected>,
    journal: K,
) -> Finished<K>
    requires conflicts { conflicts ≤ 200000 }
    requires empty { IfSome (K.got journal) (λ bytes. bytes ≡ []) }
    requires few { vec_len finders.old < 2 ^ 32 }
    requires fresh { rejected.old.items ≡ [] }
    ensures finishes { Finishes (SynthComes IfSome rails conflicts output (record { pla = S.left pla.old; side = S.left side.old })) pla_journal_and_finders most_pla_bytes result.ending
        (record {
          pla = change (S.left pla.old) (S.faults pla.old) (S.left pla.new) (S.faults pla.new);
          side = change (S.left side.old) (S.faults side.old) (S.left side.new) (S.faults side.new);
          out = change (K.got out.old) (K.faults out.old) (K.got out.new) (K.faults out.new);
          journal = change (K.got journal) (K.faults journal) (K.got result.journal) (K.faults result.journal);
        }) }
    ensures used { IsWorkDone result.ending → UsesFinders (SynthComes IfSome rails conflicts output (record { pla = S.left pla.old; side = S.left side.old })) begun (λ finder. (Finder-box finder).left finder.value) finders.old.items finders.new.items rejected.new.items }
    ensures side_same { side.new ≡ side.old }
    ensures out_last { (out.new ≡ out.old) ⊎ IsGranted (SynthComes IfSome rails conflicts output (record { pla = S.left pla.old; side = S.left side.old })) }
    ensures journal_last { (result.journal ≡ journal) ⊎ IsGranted (SynthComes IfSome rails conflicts output (record { pla = S.left pla.old; side = S.left side.old })) }
{
    let _ = &side;
    let text = match input_pla(alloc, pla) {
        Ok(text) => text,
        Err(ending) => return Finished { ending, journal },
    };
    if !has_output(&text, output) {
        return Finished {
            ending: Ending::Refused(Refusal::Input(InputRefusal::NoSuchOutput)),
            journal,
        };
    }
    match write_minima(
        alloc, out, &text, output, rails, conflicts, finders, rejected, journal,
    ) {
        Ok((tally, _, journal)) => Finished {
            ending: tally.ending(),
            journal,
        },
        Err(Stopped { fault, held }) => Finished {
            ending: fault.ending(),
            journal: held,
        },
    }
}

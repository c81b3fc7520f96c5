//! The commands `pairs` and `dual`.
ghost use Rattle.std.specs.Prelude.{◌≡◌, ℕ, ◌+◌, ◌<◌, ◌≤◌, List, length, map, IfOk, OnOk, IfErr, IsTrue, ◌↔◌, ◌⊎◌, MatchOption, IfSome};
ghost use Rattle.wire_io.specs.Told.{Gains, GainsFront};
ghost use Rattle.pla_reader.specs.Names.{bytes_of};
ghost use Rattle.pla_reader.specs.Parts.{parts_of, IsPla};
ghost use Rattle.report_text.specs.Report.{blocks_text, report_text};
ghost use Rattle.report_text.specs.declared.answer.Version.TheVariants.{Two};
ghost use Rattle.four_lattice.specs.Lattices.{made_by, blocks_by, report_by, ending_of_fault, IsThere, IsWriteCause};
ghost use Rattle.four_lattice.specs.Devices.{change};
ghost use Rattle.four_lattice.specs.Judge.{LatticesCome, IsGranted};
ghost use Rattle.four_lattice.specs.Run.{FinishesQuiet};
ghost use Rattle.four_lattice.specs.Uses.{pla_alone, most_pla_bytes};
ghost use Rattle.four_lattice.specs.declared.lattices.WorkFault.TheVariants.{Write, NoMemory};

use crate::ending::{Ending, InputRefusal, Refusal};
use crate::inputs::input_pla;
use cube_core::spec::Spec;
use dual_product::dual::dual_product;
use lattice_grid::grid::Grid;
use lattice_grid::pairs::pairs;
use pla_reader::name::Name;
use pla_reader::pla::Pla;
use report_text::answer::{ALL_RAILS, Answer, Block};
use report_text::write::{write_block, write_end, write_head};
use std::alloc::Global;
use wire_io::fault::{Failed, NoMemory as OutOfMemory};
use wire_io::sink::Sink;
use wire_io::source::Source;

/// How the lattice of an output is made.
#[derive(Clone, Copy, Debug, PartialEq, Eq)]
pub(crate) enum Construction {
    /// A column for each on assignment, a row for each off assignment.
    Pairs,
    /// A column for each cube of a cover, a row for each cube of a cover of what that one leaves.
    Dual,
}

impl Construction {
    /// The lattice of a function.
    fn make(self, alloc: Global, spec: &Spec) -> Result<Grid, OutOfMemory>
        ensures { IfOk result (λ grid. grid ≡ made_by self spec.now) }
    {
        match self {
            Construction::Pairs => pairs(alloc, spec),
            Construction::Dual => dual_product(alloc, spec),
        }
    }
}

/// Why a command's work stopped.
#[derive(Clone, Copy, Debug, PartialEq, Eq)]
pub(crate) enum WorkFault {
    Write,
    NoMemory,
}

impl WorkFault {
    /// How a run ends whose work stopped so.
    pub(crate) fn ending(self) -> Ending
        ensures { result ≡ ending_of_fault self }
    {
        match self {
            WorkFault::Write => Ending::WriteFault,
            WorkFault::NoMemory => Ending::NoMemory,
        }
    }
}

impl From<Failed> for WorkFault {
    ghost from_gives = { λ _ fault. fault ≡ Write };

    fn from(_: Failed) -> Self {
        WorkFault::Write
    }
}

impl From<OutOfMemory> for WorkFault {
    ghost from_gives = { λ _ fault. fault ≡ NoMemory };

    fn from(_: OutOfMemory) -> Self {
        WorkFault::NoMemory
    }
}

/// Whether a PLA has the chosen output.
pub(crate) fn has_output(pla: &Pla, output: Option<u32>) -> bool
    ensures { IsTrue result ↔ IsThere output pla.now.outputs }
{
    match output {
        None => true,
        Some(output) => output < u32::from(pla.outputs),
    }
}

/// Writes the block of each output from this one on.
fn write_blocks<K: Sink>(
    alloc: Global,
    sink: &mut K,
    how: Construction,
    first: u32,
    names: &[Name],
    specs: &[Spec],
) -> Result<(), WorkFault>
    requires same { length names.now ≡ length specs.now }
    requires few { first + length specs.now ≤ 64 }
    ensures ok { OnOk result (Gains (K.got sink.old) (K.got sink.new) (blocks_text Two (blocks_by how first (map bytes_of names.now) specs.now))) }
    ensures front { GainsFront (K.got sink.old) (K.got sink.new) (blocks_text Two (blocks_by how first (map bytes_of names.now) specs.now)) }
    ensures later { K.faults sink.old ≤ K.faults sink.new }
    ensures cause { IfErr result (IsWriteCause (K.faults sink.old) (K.faults sink.new)) }
{
    for (place, spec) in specs.iter().enumerate() {
        let block = Block {
            output: first + place as u32,
            name: names[place].copy(alloc)?,
            answer: Answer::Found(how.make(alloc, spec)?),
            proofs: Vec::new(alloc),
        };
        write_block(sink, &block)?;
    }
    Ok(())
}

/// Writes the blocks of the chosen outputs.
fn write_chosen<K: Sink>(
    alloc: Global,
    sink: &mut K,
    how: Construction,
    output: Option<u32>,
    pla: &Pla,
) -> Result<(), WorkFault>
    requires whole { IsPla (parts_of pla.now) }
    requires there { IsThere output pla.now.outputs }
    ensures ok { OnOk result (Gains (K.got sink.old) (K.got sink.new) (blocks_text Two (report_by how output (parts_of pla.now)).blocks)) }
    ensures front { GainsFront (K.got sink.old) (K.got sink.new) (blocks_text Two (report_by how output (parts_of pla.now)).blocks) }
    ensures later { K.faults sink.old ≤ K.faults sink.new }
    ensures cause { IfErr result (IsWriteCause (K.faults sink.old) (K.faults sink.new)) }
{
    let names = pla.output_names.as_slice();
    match output {
        None => write_blocks(alloc, sink, how, 0, names, &pla.specs),
        Some(output) => {
            let place = output as usize;
            let (names, specs) = (&names[place..place + 1], &pla.specs[place..place + 1]);
            write_blocks(alloc, sink, how, output, names, specs)
        }
    }
}

/// Writes the report of the lattices of the chosen outputs.
pub(crate) fn write_lattices<K: Sink>(
    alloc: Global,
    sink: &mut K,
    how: Construction,
    output: Option<u32>,
    pla: &Pla,
) -> Result<(), WorkFault>
    requires whole { IsPla (parts_of pla.now) }
    requires there { IsThere output pla.now.outputs }
    ensures ok { OnOk result (Gains (K.got sink.old) (K.got sink.new) (report_text (report_by how output (parts_of pla.now)))) }
    ensures front { GainsFront (K.got sink.old) (K.got sink.new) (report_text (report_by how output (parts_of pla.now))) }
    ensures later { K.faults sink.old ≤ K.faults sink.new }
    ensures cause { IfErr result (IsWriteCause (K.faults sink.old) (K.faults sink.new)) }
{
    write_head(sink, &pla.input_names, ALL_RAILS)?;
    write_chosen(alloc, sink, how, output, pla)?;
    write_end(sink)?;
    Ok(())
}

/// How a report of the lattices of the chosen outputs ends.
pub(crate) fn end_of_lattices<S: Source, K: Sink>(
    alloc: Global,
    how: Construction,
    output: Option<u32>,
    pla: &mut S,
    side: &mut S,
    out: &mut K,
) -> Ending
    ensures finishes { FinishesQuiet (LatticesCome IfSome how output) pla_alone most_pla_bytes result
        (change (S.left pla.old) (S.faults pla.old) (S.left pla.new) (S.faults pla.new))
        (change (S.left side.old) (S.faults side.old) (S.left side.new) (S.faults side.new))
        (change (K.got out.old) (K.faults out.old) (K.got out.new) (K.faults out.new)) }
    ensures side_same { side.new ≡ side.old }
    ensures out_last { (out.new ≡ out.old) ⊎ IsGranted (LatticesCome IfSome how output (record { pla = S.left pla.old; side = S.left side.old })) }
{
    let _ = &side;
    let text = match input_pla(alloc, pla) {
        Ok(text) => text,
        Err(ending) => return ending,
    };
    if !has_output(&text, output) {
        return Ending::Refused(Refusal::Input(InputRefusal::NoSuchOutput));
    }
    match write_lattices(alloc, out, how, output, &text) {
        Ok(()) => Ending::Done,
        Err(fault) => fault.ending(),
    }
}

//! The command `verify`.
ghost use Rattle.std.specs.Prelude.{◌≡◌, ◌≢◌, ℕ, ◌+◌, ◌*◌, ◌≤◌, ◌⊎◌, ◌++◌, codes, decimal, IfSome, length, map, IfOk, OnOk, IfErr, MatchOption, MatchResult, IsTrue, ◌↔◌};
ghost use Rattle.cube_core.specs.Function.{Function};
ghost use Rattle.pla_reader.specs.Names.{bytes_of};
ghost use Rattle.pla_reader.specs.Parts.{Parts, parts_of, IsPla};
ghost use Rattle.std.specs.Prelude.{All};
ghost use Rattle.std.specs.Option.{option_copied};
ghost use Rattle.lattice_grid.specs.Rails.{IsOverRails};
ghost use Rattle.path_meaning.specs.Defective.{RealisesIn};
ghost use Rattle.report_text.specs.Bounds.{IsAnswer, IsBlock, IsReport};
ghost use Rattle.report_text.specs.Form.{lattice_of};
ghost use Rattle.report_text.specs.Report.{parts_of_block, parts_of_report};
ghost use Rattle.report_text.specs.declared.answer.Version.{Version};
ghost use Rattle.four_lattice.specs.Verified.{array_in, first_line, IsOf, IsRight, AreRight, IsLatticeRefused, IsBlockRefused, HasRefusedBlock, IsVerified, IsDenied};
ghost use Rattle.wire_io.specs.Causes.{HasCause};
ghost use Rattle.wire_io.specs.Told.{Gains, GainsFront};
ghost use Rattle.four_lattice.specs.Devices.{change, EndsTest};
ghost use Rattle.four_lattice.specs.Judge.{Denies, PlaGives, VerifyComes, IsGranted};
ghost use Rattle.four_lattice.specs.Run.{FinishesQuiet};
ghost use Rattle.four_lattice.specs.Uses.{pla_and_side, most_pla_bytes};
ghost use Rattle.four_lattice.specs.declared.verify.VerifyRefusal.{VerifyRefusal};

use crate::ending::{Ending, Refusal, Unconfirmed};
use crate::inputs::{input_pla, input_report};
use cube_core::assign::Assign;
use cube_core::spec::Spec;
use itoa::Buffer;
use lattice_grid::array::Array;
use lattice_grid::rails::Rails;
use path_meaning::marks::Marks;
use path_meaning::realise::realises_in;
use pla_reader::name::Name;
use pla_reader::pla::Pla;
use report_text::answer::{Answer, Block, Report, Version};
use std::alloc::Global;
use wire_io::fault::{Failed, NoMemory as OutOfMemory};
use wire_io::sink::{Sink, write_pieces};
use wire_io::source::Source;

/// Why a report does not verify: the first of these, with the line of the names, or on which its block begins.
#[derive(Clone, Copy, Debug, PartialEq, Eq)]
pub enum VerifyRefusal {
    /// The names of the inputs are not the PLA's.
    Inputs { line: u32 },
    /// The block has not the number and the name of an output, or does not come after the one before.
    Output { line: u32 },
    /// The lattice has a literal of an input that the PLA has not, or one that is not allowed.
    Literal { line: u32 },
    /// The lattice does not realise the output; this is the least assignment at which it fails.
    Wrong { line: u32, assign: Assign },
    /// There was no memory for the marks of cells.
    NoMemory,
}

impl From<OutOfMemory> for VerifyRefusal {
    ghost use Rattle.four_lattice.specs.declared.verify.VerifyRefusal.TheVariants.{NoMemory};

    ghost from_gives = { λ _ refusal. refusal ≡ NoMemory };

    fn from(_: OutOfMemory) -> Self {
        VerifyRefusal::NoMemory
    }
}

/// The array that the lattice of an answer stands on.
fn array_of(answer: &Answer) -> Option<&Array>
    ensures { option_copied result ≡ array_in answer.now }
{
    match answer {
        Answer::Mapped { array, .. } => Some(array),
        Answer::Found(_)
        | Answer::Minimum(_)
        | Answer::Undecided { .. }
        | Answer::NoneMapped { .. }
        | Answer::MapUndecided { .. }
        | Answer::NoRails { .. } => None,
    }
}

/// The number of the line on which the first block of a report begins.
fn line_of_first(version: Version) -> u32
    ensures { result ≡ first_line version }
{
    match version {
        Version::One => 3,
        Version::Two => 4,
    }
}

/// How many cells an answer's lattice has; none where it has no lattice.
fn cells_of(answer: &Answer) -> u32
    ensures { IfSome (lattice_of answer.now) (λ g. g.size.rows * g.size.cols ≤ result) }
{
    match answer.grid() {
        None => 0,
        Some(grid) => grid.shape().area(),
    }
}

/// Marks for so many cells, the old ones where they suffice.
fn marks_for(alloc: Global, marks: Marks, cells: u32) -> Result<Marks, OutOfMemory>
    ensures { IfOk result (λ marks. cells ≤ marks) }
{
    if marks.cells() >= cells {
        Ok(marks)
    } else {
        Marks::new(alloc, cells)
    }
}

/// The function of the output that a block is of: None exactly where the block is of none that is not below `least`.
fn function_of<'a>(pla: &'a Pla, block: &Block, least: u32) -> Option<&'a Spec>
    ensures { MatchOption result
        ((f : Function) → IsOf (parts_of pla.now) least (parts_of_block block.now) f → ⊥)
        (λ spec. IsOf (parts_of pla.now) least (parts_of_block block.now) spec.now) }
{
    if block.output < least {
        return None;
    }
    let output = block.output as usize;
    let name = pla.output_names.as_slice().get(output)?;
    let spec = pla.specs.get(output)?;
    if name.bytes() == block.name.bytes() {
        Some(spec)
    } else {
        None
    }
}

/// Tests the lattice of a block, where it has one, against the function of its output.
fn test_lattice(
    spec: &Spec,
    inputs: u8,
    rails: Rails,
    answer: &Answer,
    line: u32,
    marks: &mut Marks,
) -> Result<(), VerifyRefusal>
    requires few { inputs ≤ 10 }
    requires answer { IsAnswer answer.now }
    requires room { IfSome (lattice_of answer.now) (λ g. g.size.rows * g.size.cols ≤ marks.old) }
    ensures over { OnOk result (IfSome (lattice_of answer.now) (IsOverRails inputs rails)) }
    ensures realises { OnOk result (IfSome (lattice_of answer.now) (λ g. RealisesIn g spec.now (array_in answer.now))) }
    ensures refused { IfErr result (IsLatticeRefused inputs rails line answer.now spec.now) }
    ensures kept { marks.new ≡ marks.old }
{
    let Some(grid) = answer.grid() else {
        return Ok(());
    };
    if !grid.allowed(inputs, rails) {
        return Err(VerifyRefusal::Literal { line });
    }
    match realises_in(spec, grid, array_of(answer), marks) {
        Ok(()) => Ok(()),
        Err(assign) => Err(VerifyRefusal::Wrong { line, assign }),
    }
}

/// Tests the block that begins at a line.
fn test_block(
    pla: &Pla,
    rails: Rails,
    block: &Block,
    least: u32,
    line: u32,
    marks: &mut Marks,
) -> Result<(), VerifyRefusal>
    requires pla { IsPla (parts_of pla.now) }
    requires answer { IsAnswer block.now.answer }
    requires room { IfSome (lattice_of block.now.answer) (λ g. g.size.rows * g.size.cols ≤ marks.old) }
    ensures right { OnOk result ((version : Version) → IsRight (record { parts = parts_of pla.now; version = version; rails = rails }) least (parts_of_block block.now)) }
    ensures refused { IfErr result (λ refusal. (version : Version) → IsBlockRefused (record { parts = parts_of pla.now; version = version; rails = rails }) least line (parts_of_block block.now) refusal) }
    ensures kept { marks.new ≡ marks.old }
{
    let Some(spec) = function_of(pla, block, least) else {
        return Err(VerifyRefusal::Output { line });
    };
    test_lattice(spec, pla.inputs, rails, &block.answer, line, marks)
}

/// Tests each block after those before it, in a text of this version.
fn test_blocks(
    alloc: Global,
    pla: &Pla,
    version: Version,
    rails: Rails,
    blocks: &[Block],
) -> Result<(), VerifyRefusal>
    requires pla { IsPla (parts_of pla.now) }
    requires blocks { All (IsBlock version) (map parts_of_block blocks.now) }
    ensures right { OnOk result (AreRight (record { parts = parts_of pla.now; version = version; rails = rails }) (map parts_of_block blocks.now) (length blocks.now)) }
    ensures few { OnOk result (length blocks.now ≤ 64) }
    ensures refused { IfErr result (λ refusal. refusal ≢ VerifyRefusal.NoMemory →
        HasRefusedBlock (record { parts = parts_of pla.now; version = version; rails = rails }) (map parts_of_block blocks.now) refusal) }
{
    let mut marks = Marks::new(alloc, 1)?;
    let mut least = 0;
    let mut line = line_of_first(version);
    for block in blocks {
        marks = marks_for(alloc, marks, cells_of(&block.answer))?;
        if let Err(refusal) = test_block(pla, rails, block, least, line, &mut marks) {
            return Err(refusal);
        }
        least = block.output + 1;
        line += block.lines(version);
    }
    Ok(())
}

/// Whether two lists have the same names, in the same order.
fn are_same_names(names: &[Name], others: &[Name]) -> bool
    ensures { IsTrue result ↔ (map bytes_of names.now ≡ map bytes_of others.now) }
{
    if names.len() != others.len() {
        return false;
    }
    for (place, name) in names.iter().enumerate() {
        if name.bytes() != others[place].bytes() {
            return false;
        }
    }
    true
}

/// Tests a report.
fn test_report(alloc: Global, pla: &Pla, report: &Report) -> Result<u32, VerifyRefusal>
    requires pla { IsPla (parts_of pla.now) }
    requires report { IsReport (parts_of_report report.now) }
    ensures many { IfOk result (λ many. many ≡ length report.now.blocks.items) }
    ensures verified { OnOk result (IsVerified (parts_of pla.now) (parts_of_report report.now)) }
    ensures refused { IfErr result (λ refusal. refusal ≢ VerifyRefusal.NoMemory → IsDenied (parts_of pla.now) (parts_of_report report.now) refusal) }
{
    if !are_same_names(&report.input_names, pla.input_names.as_slice()) {
        return Err(VerifyRefusal::Inputs { line: 2 });
    }
    let rails = Rails::new(report.rails).unwrap();
    test_blocks(alloc, pla, report.version, rails, &report.blocks)?;
    Ok(report.blocks.len() as u32)
}

/// The number of blocks of a report whose names are the PLA's and each lattice of which is of allowed literals and realises
/// its output, on its array where it has one; or why it is refused, at the first block that fails.
pub fn verify(alloc: Global, pla: &Pla, report: &Report) -> Result<u32, VerifyRefusal>
    requires pla { IsPla (parts_of pla.now) }
    requires report { IsReport (parts_of_report report.now) }
    ensures many { IfOk result (λ many. many ≡ length report.now.blocks.items) }
    ensures verified { OnOk result (IsVerified (parts_of pla.now) (parts_of_report report.now)) }
    ensures refused { IfErr result (λ refusal. refusal ≢ VerifyRefusal.NoMemory → IsDenied (parts_of pla.now) (parts_of_report report.now) refusal) }
    // A report that verifies, or has a refusal, gets no other answer but want of memory.
    ensures only_verified { IsVerified (parts_of pla.now) (parts_of_report report.now) → MatchResult result (λ _. Unit {0}) (λ refusal. refusal ≡ VerifyRefusal.NoMemory) }
    ensures only_refusal { (refusal : VerifyRefusal) → IsDenied (parts_of pla.now) (parts_of_report report.now) refusal →
        MatchResult result (λ _. ⊥) (λ other. (other ≡ refusal) ⊎ (other ≡ VerifyRefusal.NoMemory)) }
{
    test_report(alloc, pla, report)
}

/// How a run ends whose report does not verify.
fn ending_of_denial(refusal: VerifyRefusal) -> Ending
    ensures refused { refusal ≢ VerifyRefusal.NoMemory → result ≡ Ending.Refused (Refusal.Unconfirmed (Unconfirmed.Denied refusal)) }
    ensures wanting { refusal ≡ VerifyRefusal.NoMemory → result ≡ Ending.NoMemory }
{
    match refusal {
        VerifyRefusal::NoMemory => Ending::NoMemory,
        VerifyRefusal::Inputs { .. }
        | VerifyRefusal::Output { .. }
        | VerifyRefusal::Literal { .. }
        | VerifyRefusal::Wrong { .. } => {
            Ending::Refused(Refusal::Unconfirmed(Unconfirmed::Denied(refusal)))
        }
    }
}

/// Tests a report against a PLA: the number of its blocks where it verifies, or else how the run ends.
fn confirm(alloc: Global, text: &Pla, report: &Report) -> Result<u32, Ending>
    requires pla { IsPla (parts_of text.now) }
    requires report { IsReport (parts_of_report report.now) }
    ensures many { IfOk result (λ many. many ≡ length report.now.blocks.items) }
    ensures verified { OnOk result (IsVerified (parts_of text.now) (parts_of_report report.now)) }
    ensures ends { IfErr result (EndsTest (Denies (parts_of text.now) (parts_of_report report.now))) }
{
    match verify(alloc, text, report) {
        Ok(many) => Ok(many),
        Err(refusal) => Err(ending_of_denial(refusal)),
    }
}

/// Writes how many lattices realise their outputs.
fn write_realised<K: Sink>(out: &mut K, many: u32) -> Result<(), Failed>
    ensures ok { OnOk result (Gains (K.got out.old) (K.got out.new) (codes "realised " ++ (decimal many ++ codes "\n"))) }
    ensures front { GainsFront (K.got out.old) (K.got out.new) (codes "realised " ++ (decimal many ++ codes "\n")) }
    ensures cause { HasCause (K.faults out.old) (K.faults out.new) result }
{
    let mut digits = Buffer::new();
    write_pieces(out, &[b"realised ", digits.format(many).as_bytes(), b"\n"])
}

/// How the command `verify` ends.
pub(crate) fn end_of_verify<S: Source, K: Sink>(
    alloc: Global,
    pla: &mut S,
    side: &mut S,
    out: &mut K,
) -> Ending
    ensures finishes { FinishesQuiet (VerifyComes IfSome) pla_and_side most_pla_bytes result
        (change (S.left pla.old) (S.faults pla.old) (S.left pla.new) (S.faults pla.new))
        (change (S.left side.old) (S.faults side.old) (S.left side.new) (S.faults side.new))
        (change (K.got out.old) (K.faults out.old) (K.got out.new) (K.faults out.new)) }
    ensures side_last { (side.new ≡ side.old) ⊎ ((parts : Parts) × PlaGives IfSome (record { pla = S.left pla.old; side = S.left side.old }) parts) }
    ensures out_last { (out.new ≡ out.old) ⊎ IsGranted (VerifyComes IfSome (record { pla = S.left pla.old; side = S.left side.old })) }
{
    let text = match input_pla(alloc, pla) {
        Ok(text) => text,
        Err(ending) => return ending,
    };
    let report = match input_report(alloc, side) {
        Ok(report) => report,
        Err(ending) => return ending,
    };
    let many = match confirm(alloc, &text, &report) {
        Ok(many) => many,
        Err(ending) => return ending,
    };
    match write_realised(out, many) {
        Ok(()) => Ending::Done,
        Err(Failed) => Ending::WriteFault,
    }
}

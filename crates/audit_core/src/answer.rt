//! Answers are tested.
ghost use Rattle.std.specs.Prelude.{◌≡◌, ◌≢◌, ◌↔◌, ℕ, List, [], ◌∷◌, IsTrue, OnOk, IfErr, MatchOption, length, slice_get, Some};
ghost use Rattle.std.specs.Option.{option_copied};
ghost use Rattle.cube_core.specs.Function.{Function};
ghost use Rattle.pla_reader.specs.Parts.{parts_of, IsPla};
ghost use Rattle.report_text.specs.Bounds.{IsAnswer};
ghost use Rattle.report_text.specs.Report.{parts_of_block};
ghost use Rattle.journal_text.specs.Parts.{Part as Told};
ghost use Rattle.audit_core.specs.Audit.{array_in, IsCovered, HasSection, Meets, AreMet, IsRightAnswer, IsAnswerRefused};
ghost use Rattle.audit_core.specs.Audit.Demand.{OfPair, OfLiterals, OfValues, OfArea, OfCover, OfSection, OfProofs};
ghost use Rattle.audit_core.specs.Bare.{asked_in};
ghost use Rattle.audit_core.specs.Sought.{IsNamed, IsNext, Keeps, ListsClosed, ListsClosedIn};
ghost use Rattle.audit_core.specs.Tested.{basis_in, claim_in, claim_behind, IsTold, IsBehind, AreAll};
ghost use Rattle.audit_core.specs.declared.refusal.AuditRefusal.{AuditRefusal};

use crate::asked::{Asked, has_marked, has_whole, lists_marked, lists_whole};
use crate::begin::{has_pair, is_small};
use crate::refusal::AuditRefusal;
use cube_core::spec::Spec;
use journal_text::target::Close;
use lattice_grid::array::Array;
use lattice_grid::rails::Rails;
use path_meaning::marks::Marks;
use path_meaning::realise::realises_in;
use pla_reader::pla::Pla;
use report_text::answer::{Answer, Block, Proof, Version};
use shape_list::refuted::{Refuted, covered_below};
use std::alloc::Global;

/// What parts are tested against: a PLA, and the version and the rails of the journal.
#[derive(Drop)]
pub(crate) struct Basis<'a> {
    pub(crate) pla: &'a Pla,
    pub(crate) version: Version,
    pub(crate) rails: Rails,
}

/// An answer that begins on a line, and the sections before it.
#[derive(Drop)]
pub(crate) struct Claim<'a> {
    pub(crate) asked: &'a [Asked],
    pub(crate) block: &'a Block,
    pub(crate) line: u32,
}

/// The array that the lattice of an answer stands on.
fn array_of(answer: &Answer) -> Option<&Array>
    ensures { option_copied result ≡ array_in answer.now }
{
    match answer {
        Answer::Mapped { array, .. } => Some(array),
        Answer::Found(_)
        | Answer::Minimum(_)
        | Answer::Undecided { .. }
        | Answer::NoneMapped { .. }
        | Answer::MapUndecided { .. }
        | Answer::NoRails { .. } => None,
    }
}

/// The function of the output that a block is of: None exactly where the block is of none that is not below `least`.
fn function_of<'a>(pla: &'a Pla, block: &Block, least: u32) -> Option<&'a Spec>
    ensures { MatchOption result
        ((f : Function) → IsNamed (parts_of pla.now) least (parts_of_block block.now) f → ⊥)
        (λ spec. IsNamed (parts_of pla.now) least (parts_of_block block.now) spec.now) }
{
    if block.output < least {
        return None;
    }
    let output = block.output as usize;
    let name = pla.output_names.as_slice().get(output)?;
    let spec = pla.specs.get(output)?;
    if name.bytes() == block.name.bytes() {
        Some(spec)
    } else {
        None
    }
}

/// Tests the lattice of an answer, where it has one: its literals, and that it realises the function.
fn test_lattice(
    alloc: Global,
    basis: &Basis<'_>,
    claim: &Claim<'_>,
    spec: &Spec,
) -> Result<(), AuditRefusal>
    requires pla { IsPla (parts_of basis.now.pla.now) }
    requires answer { IsAnswer claim.now.block.now.answer }
    ensures met { OnOk result (AreMet (Meets (claim_in basis.now claim.now) spec.now) (OfLiterals ∷ OfValues ∷ [])) }
    ensures told { IfErr result (λ refusal. refusal ≢ AuditRefusal.NoMemory → IsTold (claim_in basis.now claim.now) spec.now claim.now.line (OfLiterals ∷ OfValues ∷ []) refusal) }
{
    let line = claim.line;
    let Some(grid) = claim.block.answer.grid() else {
        return Ok(());
    };
    if !grid.allowed(basis.pla.inputs, basis.rails) {
        return Err(AuditRefusal::Literal { line });
    }
    let mut marks = Marks::new(alloc, grid.shape().area())?;
    match realises_in(spec, grid, array_of(&claim.block.answer), &mut marks) {
        Ok(()) => Ok(()),
        Err(assign) => Err(AuditRefusal::Wrong { line, assign }),
    }
}

/// Whether the area below which an answer excludes lattices is covered by what the parts before it refute.
fn is_covered(refuted: &Refuted, answer: &Answer) -> bool
    requires { IsAnswer answer.now }
    ensures { (before : List Told) (output : ℕ) → Keeps before output refuted.now → IsTrue result ↔ IsCovered before output answer.now }
{
    match answer {
        Answer::Minimum(grid) => covered_below(refuted, grid.shape().area()),
        Answer::Undecided { least, .. } => covered_below(refuted, *least),
        Answer::Found(_)
        | Answer::Mapped { .. }
        | Answer::NoneMapped { .. }
        | Answer::MapUndecided { .. }
        | Answer::NoRails { .. } => true,
    }
}

/// Whether the section that an answer speaks of stands among the parts before it.
fn has_section(asked: &[Asked], output: u32, answer: &Answer) -> bool
    ensures { (before : List Told) → asked.now ≡ asked_in before → IsTrue result ↔ HasSection before output answer.now }
{
    match answer {
        Answer::Undecided { at, after, .. } => has_whole(asked, output, *at, Close::Spent(*after)),
        Answer::NoneMapped { array } => has_marked(asked, output, array, Close::Refuted),
        Answer::MapUndecided { array, after } => has_marked(
            asked,
            output,
            array,
            Close::Spent(*after),
        ),
        Answer::Found(_) | Answer::Minimum(_) | Answer::Mapped { .. } | Answer::NoRails { .. } =>
            true,
    }
}

/// Whether the proofs of an answer are those of the sections before it that close as refuted.
fn lists(asked: &[Asked], output: u32, answer: &Answer, proofs: &[Proof]) -> bool
    ensures { (before : List Told) → asked.now ≡ asked_in before → IsTrue result ↔ ListsClosed output before answer.now proofs.now }
{
    match answer {
        Answer::Minimum(_) | Answer::Undecided { .. } => lists_whole(asked, output, proofs),
        Answer::NoneMapped { array } => lists_marked(asked, output, array, proofs),
        Answer::Found(_)
        | Answer::Mapped { .. }
        | Answer::MapUndecided { .. }
        | Answer::NoRails { .. } => proofs.is_empty(),
    }
}

/// Whether an answer lists its proofs, in a version in which it has to.
fn lists_proofs(version: Version, asked: &[Asked], block: &Block) -> bool
    ensures { (before : List Told) → asked.now ≡ asked_in before → IsTrue result ↔ ListsClosedIn version block.now.output before block.now.answer block.now.proofs.items }
{
    match version {
        Version::One => true,
        Version::Two => lists(asked, block.output, &block.answer, &block.proofs),
    }
}

/// Tests an answer against the sections before it.
fn test_sections(
    basis: &Basis<'_>,
    claim: &Claim<'_>,
    refuted: &Refuted,
) -> Result<(), AuditRefusal>
    requires answer { IsAnswer claim.now.block.now.answer }
    ensures met { OnOk result ((before : List Told) → IsBehind (basis_in basis.now) before claim.now.asked.now claim.now.block.now.output refuted.now
        → (f : Function) → slice_get (parts_of basis.now.pla.now).functions claim.now.block.now.output ≡ Some f
        → AreMet (Meets (claim_behind basis.now claim.now before) f) (OfCover ∷ OfSection ∷ OfProofs ∷ [])) }
    ensures told { IfErr result (λ refusal. (before : List Told) → IsBehind (basis_in basis.now) before claim.now.asked.now claim.now.block.now.output refuted.now
        → (f : Function) → slice_get (parts_of basis.now.pla.now).functions claim.now.block.now.output ≡ Some f
        → IsTold (claim_behind basis.now claim.now before) f claim.now.line (OfCover ∷ OfSection ∷ OfProofs ∷ []) refusal) }
{
    let line = claim.line;
    let block = claim.block;
    if !is_covered(refuted, &block.answer) {
        return Err(AuditRefusal::Uncovered { line });
    }
    if !has_section(claim.asked, block.output, &block.answer) {
        return Err(AuditRefusal::NoSection { line });
    }
    if !lists_proofs(basis.version, claim.asked, block) {
        return Err(AuditRefusal::Proofs { line });
    }
    Ok(())
}

/// Tests what an answer says of lattices alone.
fn test_lattices(
    alloc: Global,
    basis: &Basis<'_>,
    claim: &Claim<'_>,
    spec: &Spec,
) -> Result<(), AuditRefusal>
    requires pla { IsPla (parts_of basis.now.pla.now) }
    requires answer { IsAnswer claim.now.block.now.answer }
    ensures met { OnOk result (AreMet (Meets (claim_in basis.now claim.now) spec.now) (OfPair ∷ OfLiterals ∷ OfValues ∷ OfArea ∷ [])) }
    ensures told { IfErr result (λ refusal. refusal ≢ AuditRefusal.NoMemory → IsTold (claim_in basis.now claim.now) spec.now claim.now.line (OfPair ∷ OfLiterals ∷ OfValues ∷ OfArea ∷ []) refusal) }
{
    let line = claim.line;
    if !has_pair(alloc, spec, basis.rails, &claim.block.answer)? {
        return Err(AuditRefusal::NoRails { line });
    }
    if let Err(refusal) = test_lattice(alloc, basis, claim, spec) {
        return Err(refusal);
    }
    if !is_small(alloc, spec, basis.rails, &claim.block.answer)? {
        return Err(AuditRefusal::Large { line });
    }
    Ok(())
}

/// Tests an answer, which is to be for an output from `least` on: its output, and then each demand in order.
pub(crate) fn test_answer(
    alloc: Global,
    basis: &Basis<'_>,
    claim: &Claim<'_>,
    least: u32,
    refuted: &[Refuted],
) -> Result<(), AuditRefusal>
    requires pla { IsPla (parts_of basis.now.pla.now) }
    requires answer { IsAnswer claim.now.block.now.answer }
    requires lists { length refuted.now ≡ (parts_of basis.now.pla.now).outputs }
    ensures right { OnOk result ((before : List Told) → IsNext before least → AreAll (basis_in basis.now) before claim.now.asked.now refuted.now → IsRightAnswer (claim_behind basis.now claim.now before)) }
    ensures refused { IfErr result (λ refusal. refusal ≢ AuditRefusal.NoMemory → (before : List Told) → IsNext before least → AreAll (basis_in basis.now) before claim.now.asked.now refuted.now
        → IsAnswerRefused (claim_behind basis.now claim.now before) claim.now.line refusal) }
{
    let Some(spec) = function_of(basis.pla, claim.block, least) else {
        return Err(AuditRefusal::Output { line: claim.line });
    };
    if let Err(refusal) = test_lattices(alloc, basis, claim, spec) {
        return Err(refusal);
    }
    test_sections(basis, claim, &refuted[claim.block.output as usize])
}

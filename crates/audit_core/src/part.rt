//! Parts are tested one after the other.
ghost use Rattle.std.specs.Prelude.{◌≡◌, ◌≢◌, ℕ, ◌+◌, ◌<◌, ◌^◌, List, [], ◌∷◌, ◌++◌, OnOk, IfOk, IfErr, vec_len};
ghost use Rattle.pla_reader.specs.Parts.{parts_of, IsPla};
ghost use Rattle.journal_text.specs.Bounds.{IsPart};
ghost use Rattle.journal_text.specs.Parts.{Part as Told, part_of};
ghost use Rattle.audit_core.specs.Audit.{Basis as Tests, IsKindRefused};
ghost use Rattle.audit_core.specs.Sought.{IsSection, AreKept};
ghost use Rattle.audit_core.specs.Seen.{IsSeen};
ghost use Rattle.audit_core.specs.Tested.{basis_in};
ghost use Rattle.audit_core.specs.declared.refusal.AuditRefusal.{AuditRefusal};

use crate::answer::{Basis, Claim, test_answer};
use crate::asked::{Asked, without_steps};
use crate::audit::Confirmed;
use crate::lists::{shape_of, whole_section};
use crate::refusal::AuditRefusal;
use crate::section::test_section;
use journal_text::journal::{Part, PartKind, SectionText};
use journal_text::target::Close;
use report_text::answer::Block;
use shape_list::refuted::Refuted;
use std::alloc::Global;
use wire_io::fault::NoMemory;

/// What is kept of parts that are right: the least output that the next answer may be for, the shapes that were
/// refuted of each output, the sections without their steps, how many parts there are, and the answers.
#[derive(Drop)]
pub(crate) struct Seen {
    pub(crate) least: u32,
    pub(crate) refuted: Vec<Refuted>,
    pub(crate) asked: Vec<Asked>,
    pub(crate) many: u32,
    pub(crate) confirmed: Vec<Confirmed>,
}

/// A list without a shape for each output.
fn empty_lists(alloc: Global, outputs: usize) -> Result<Vec<Refuted>, NoMemory>
    ensures { IfOk result (λ lists. AreKept [] outputs lists.items) }
{
    let mut lists = Vec::new(alloc);
    for _output in 0..outputs {
        lists.push(Refuted::new(alloc))?;
    }
    Ok(lists)
}

/// Adds the shape of a part that is a refuted section without array to the list of its output.
fn keep(refuted: &mut Vec<Refuted>, part: &Part, output: u32) -> Result<(), NoMemory>
    requires section { IsSection (λ s. s.output ≡ output) (part_of part.now) }
    requires within { output < vec_len refuted.old }
    ensures { OnOk result ((before : List Told) (outputs : ℕ) → AreKept before outputs refuted.old.items → AreKept (before ++ part_of part.now ∷ []) outputs refuted.new.items) }
{
    match whole_section(part, output, Close::Refuted) {
        None => Ok(()),
        Some(section) => refuted[output as usize].add(shape_of(&section.target)),
    }
}

impl Seen {
    /// Nothing.
    pub(crate) fn new(alloc: Global, outputs: usize) -> Result<Seen, NoMemory>
        ensures { IfOk result (λ seen. (basis : Tests) → basis.parts.outputs ≡ outputs → IsSeen basis [] seen) }
    {
        Ok(Seen {
            least: 0,
            refuted: empty_lists(alloc, outputs)?,
            asked: Vec::new(alloc),
            many: 0,
            confirmed: Vec::new(alloc),
        })
    }

    /// Tests a question that follows some parts.
    fn take_question(
        &mut self,
        alloc: Global,
        basis: &Basis<'_>,
        part: &Part,
        section: &SectionText,
    ) -> Result<(), AuditRefusal>
        requires pla { IsPla (parts_of basis.now.pla.now) }
        requires what { part.now.what ≡ PartKind.Question section.now }
        requires bounds { IsPart basis.now.version (part_of part.now) }
        requires lists { vec_len self.old.refuted ≡ basis.now.pla.now.outputs }
        requires few { self.old.many + 1 < 2 ^ 32 }
        ensures ok { OnOk result ((before : List Told) → IsSeen (basis_in basis.now) before self.old → IsSeen (basis_in basis.now) (before ++ part_of part.now ∷ []) self.new) }
        ensures refused { IfErr result (λ refusal. refusal ≢ AuditRefusal.NoMemory → (before : List Told) → IsKindRefused (basis_in basis.now) before part.now.line part.now.what refusal) }
    {
        if let Err(refusal) = test_section(alloc, basis, section, part.line) {
            return Err(refusal);
        }
        keep(&mut self.refuted, part, section.output)?;
        self.asked.push(without_steps(alloc, section)?)?;
        self.many += 1;
        Ok(())
    }

    /// Tests an answer that follows some parts.
    fn take_answer(
        &mut self,
        alloc: Global,
        basis: &Basis<'_>,
        part: &Part,
        block: &Block,
    ) -> Result<(), AuditRefusal>
        requires pla { IsPla (parts_of basis.now.pla.now) }
        requires what { part.now.what ≡ PartKind.Answer block.now }
        requires bounds { IsPart basis.now.version (part_of part.now) }
        requires lists { vec_len self.old.refuted ≡ basis.now.pla.now.outputs }
        requires few { self.old.many + 1 < 2 ^ 32 }
        ensures ok { OnOk result ((before : List Told) → IsSeen (basis_in basis.now) before self.old → IsSeen (basis_in basis.now) (before ++ part_of part.now ∷ []) self.new) }
        ensures refused { IfErr result (λ refusal. refusal ≢ AuditRefusal.NoMemory → (before : List Told) → IsSeen (basis_in basis.now) before self.old → IsKindRefused (basis_in basis.now) before part.now.line part.now.what refusal) }
    {
        let claim = Claim {
            asked: &self.asked,
            block,
            line: part.line,
        };
        if let Err(refusal) = test_answer(alloc, basis, &claim, self.least, &self.refuted) {
            return Err(refusal);
        }
        self.confirmed.push(Confirmed {
            output: block.output,
            part: self.many,
        })?;
        self.least = block.output + 1;
        self.many += 1;
        Ok(())
    }

    /// Tests the part that follows some parts.
    pub(crate) fn take(
        &mut self,
        alloc: Global,
        basis: &Basis<'_>,
        part: &Part,
    ) -> Result<(), AuditRefusal>
        requires pla { IsPla (parts_of basis.now.pla.now) }
        requires bounds { IsPart basis.now.version (part_of part.now) }
        requires lists { vec_len self.old.refuted ≡ basis.now.pla.now.outputs }
        requires few { self.old.many + 1 < 2 ^ 32 }
        ensures ok { OnOk result ((before : List Told) → IsSeen (basis_in basis.now) before self.old → IsSeen (basis_in basis.now) (before ++ part_of part.now ∷ []) self.new) }
        ensures refused { IfErr result (λ refusal. refusal ≢ AuditRefusal.NoMemory → (before : List Told) → IsSeen (basis_in basis.now) before self.old → IsKindRefused (basis_in basis.now) before part.now.line part.now.what refusal) }
    {
        match &part.what {
            PartKind::Question(section) => self.take_question(alloc, basis, part, section),
            PartKind::Answer(block) => self.take_answer(alloc, basis, part, block),
        }
    }
}

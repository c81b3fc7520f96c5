//! Sections are replayed.
ghost use Rattle.std.specs.Prelude.{◌≡◌, ◌≢◌, ◌↔◌, IsTrue, OnOk, IfOk, IfErr};
ghost use Rattle.clause_core.specs.Formula.{Formula, IsOver};
ghost use Rattle.lrat_replay.specs.Book.{Accepts, after_lines, start};
ghost use Rattle.lrat_replay.specs.New.{IsNew};
ghost use Rattle.lrat_replay.specs.Learned.{AreWrittenNew};
ghost use Rattle.pla_reader.specs.Parts.{parts_of, IsPla};
ghost use Rattle.journal_text.specs.Bounds.{IsTarget};
ghost use Rattle.journal_text.specs.Parts.{section_of};
ghost use Rattle.journal_text.specs.Proved.{formula_of};
ghost use Rattle.journal_text.specs.declared.target.Close.TheVariants.{Refuted, Spent, Satisfied};
ghost use Rattle.audit_core.specs.Audit.{adds_of, IsRightSection, IsSectionRefused};
ghost use Rattle.audit_core.specs.Replayed.{refusal_of, StopsAt, steps_of, IsReplayRight, IsReplayRefused};
ghost use Rattle.audit_core.specs.Tested.{basis_in};
ghost use Rattle.audit_core.specs.declared.refusal.AuditRefusal.{AuditRefusal};

use crate::answer::Basis;
use crate::refusal::AuditRefusal;
use clause_core::lit::Lit;
use cube_core::spec::Spec;
use journal_text::journal::{SectionText, StepLine};
use journal_text::target::{Close, Target};
use lattice_grid::rails::Rails;
use lrat_replay::fault::StepFault;
use lrat_replay::replay::Replay;
use reach_encoding::encode::encode;
use std::alloc::Global;
use wire_io::fault::NoMemory;

/// The refusal of a step on a line.
fn refusal_at(line: u32, fault: StepFault) -> AuditRefusal
    ensures { result ≡ refusal_of line fault }
{
    match fault {
        StepFault::NoMemory => AuditRefusal::NoMemory,
        StepFault::Order
        | StepFault::Unknown
        | StepFault::Satisfied
        | StepFault::Loose
        | StepFault::NoConflict
        | StepFault::Rat
        | StepFault::Tautology
        | StepFault::Variable => AuditRefusal::Step { line, fault },
    }
}

/// Replays steps one after the other, up to the first that is refused.
fn replay_steps(replay: &mut Replay, steps: &[StepLine]) -> Result<(), AuditRefusal>
    ensures accepted { OnOk result (Accepts replay.old (adds_of steps.now)) }
    ensures after { OnOk result (replay.new ≡ after_lines replay.old (adds_of steps.now)) }
    ensures refused { IfErr result (StopsAt replay.old steps.now) }
{
    for line in steps {
        let step = &line.step;
        if let Err(fault) = replay.step(step.id, step.clause.as_slice(), step.hints.as_slice()) {
            return Err(refusal_at(line.line, fault));
        }
    }
    Ok(())
}

/// Whether a clause is over the formula's variables and new. The replay stays as it was.
fn is_new_step(replay: &mut Replay, clause: &[Lit]) -> bool
    ensures is_new { IsOver replay.old.formula.vars clause.now → IsTrue result ↔ IsNew replay.old clause.now }
    ensures kept { replay.new ≡ replay.old }
{
    let vars = replay.formula().vars();
    clause.iter().all(|lit| lit.var() <= vars) && replay.is_new(clause)
}

/// Replays steps one after the other, up to the first that is refused, and says whether each was new.
fn replay_new_steps(replay: &mut Replay, steps: &[StepLine]) -> Result<bool, AuditRefusal>
    ensures accepted { OnOk result (Accepts replay.old (adds_of steps.now)) }
    ensures are_new { IfOk result (λ fresh. IsTrue fresh ↔ AreWrittenNew replay.old (steps_of steps.now)) }
    ensures refused { IfErr result (StopsAt replay.old steps.now) }
{
    let mut fresh = true;
    for line in steps {
        let step = &line.step;
        let is_new = is_new_step(replay, step.clause.as_slice());
        if let Err(fault) = replay.step(step.id, step.clause.as_slice(), step.hints.as_slice()) {
            return Err(refusal_at(line.line, fault));
        }
        fresh &= is_new;
    }
    Ok(fresh)
}

/// The formula of a section, without steps.
fn replay_of(
    alloc: Global,
    spec: &Spec,
    rails: Rails,
    section: &SectionText,
) -> Result<Replay, NoMemory>
    requires { IsTarget section.now.target }
    ensures { IfOk result (λ replay. replay ≡ start (formula_of rails spec.now (section_of section.now))) }
{
    let formula = match &section.target {
        Target::Whole(shape) => encode(alloc, spec, rails, *shape, None)?,
        Target::Marked(array) => encode(alloc, spec, rails, array.shape(), Some(array))?,
    };
    Replay::new(alloc, formula)
}

/// Replays the steps of a section that closes as refuted: one of them is to be empty.
fn replay_refuted(replay: &mut Replay, section: &SectionText) -> Result<(), AuditRefusal>
    requires close { section.now.close ≡ Refuted }
    ensures right { OnOk result ((formula : Formula) → replay.old ≡ start formula → IsReplayRight formula (section_of section.now)) }
    ensures refused { IfErr result (λ refusal. refusal ≢ AuditRefusal.NoMemory → (formula : Formula) → replay.old ≡ start formula → IsReplayRefused formula section.now refusal) }
{
    if let Err(refusal) = replay_steps(replay, &section.steps) {
        return Err(refusal);
    }
    if !replay.reached() {
        return Err(AuditRefusal::Unfinished {
            line: section.close_line,
        });
    }
    Ok(())
}

/// Replays the steps of a section that closes as spent: they are to be exactly so many, each new.
fn replay_spent(replay: &mut Replay, section: &SectionText, budget: u32) -> Result<(), AuditRefusal>
    requires close { section.now.close ≡ Spent budget }
    ensures right { OnOk result ((formula : Formula) → replay.old ≡ start formula → IsReplayRight formula (section_of section.now)) }
    ensures refused { IfErr result (λ refusal. refusal ≢ AuditRefusal.NoMemory → (formula : Formula) → replay.old ≡ start formula → IsReplayRefused formula section.now refusal) }
{
    let fresh = match replay_new_steps(replay, &section.steps) {
        Ok(fresh) => fresh,
        Err(refusal) => return Err(refusal),
    };
    if !fresh || section.steps.len() != budget as usize {
        return Err(AuditRefusal::Count {
            line: section.close_line,
        });
    }
    Ok(())
}

/// Replays the steps of a section that closes as satisfied.
fn replay_satisfied(replay: &mut Replay, section: &SectionText) -> Result<(), AuditRefusal>
    requires close { section.now.close ≡ Satisfied }
    ensures right { OnOk result ((formula : Formula) → replay.old ≡ start formula → IsReplayRight formula (section_of section.now)) }
    ensures refused { IfErr result (λ refusal. refusal ≢ AuditRefusal.NoMemory → (formula : Formula) → replay.old ≡ start formula → IsReplayRefused formula section.now refusal) }
{
    replay_steps(replay, &section.steps)
}

/// Replays the steps of a section from its formula, and tests what they come to.
fn replay_section(
    alloc: Global,
    spec: &Spec,
    rails: Rails,
    section: &SectionText,
) -> Result<(), AuditRefusal>
    requires { IsTarget section.now.target }
    ensures right { OnOk result (IsReplayRight (formula_of rails spec.now (section_of section.now)) (section_of section.now)) }
    ensures refused { IfErr result (λ refusal. refusal ≢ AuditRefusal.NoMemory → IsReplayRefused (formula_of rails spec.now (section_of section.now)) section.now refusal) }
{
    let mut replay = replay_of(alloc, spec, rails, section)?;
    match section.close {
        Close::Refuted => replay_refuted(&mut replay, section),
        Close::Spent(budget) => replay_spent(&mut replay, section, budget),
        Close::Satisfied => replay_satisfied(&mut replay, section),
    }
}

/// Tests a section that begins on a line: its output, its steps, and what they come to.
pub(crate) fn test_section(
    alloc: Global,
    basis: &Basis<'_>,
    section: &SectionText,
    line: u32,
) -> Result<(), AuditRefusal>
    requires pla { IsPla (parts_of basis.now.pla.now) }
    requires target { IsTarget section.now.target }
    ensures right { OnOk result (IsRightSection (basis_in basis.now) (section_of section.now)) }
    ensures refused { IfErr result (λ refusal. refusal ≢ AuditRefusal.NoMemory → IsSectionRefused (basis_in basis.now) line section.now refusal) }
{
    let Some(spec) = basis.pla.specs.get(section.output as usize) else {
        return Err(AuditRefusal::Output { line });
    };
    replay_section(alloc, spec, basis.rails, section)
}

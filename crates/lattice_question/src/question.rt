//! One question: whether some lattice of a shape, or on an array with stuck cells, realises a function.
ghost use Rattle.std.specs.Prelude.{◌≡◌, ◌⊎◌, ℕ, ◌+◌, ◌<◌, ◌≤◌, false, [], IfOk, IfErr, IfSome, length, map};
ghost use Rattle.std.specs.FinSet as set;
ghost use Rattle.wire_io.specs.Told.{Gains};
ghost use Rattle.clause_core.specs.Formula.{IsSatisfiedBy};
ghost use Rattle.clause_solver.specs.Search.{LearnsNew};
ghost use Rattle.lrat_replay.specs.Book.{Accepts, start, last_id};
ghost use Rattle.lrat_replay.specs.Laws.{Refutes};
ghost use Rattle.lrat_replay.specs.Learned.{EndsEmpty, SpentWritten, without_hints};
ghost use Rattle.lrat_replay.specs.New.{IsOpen};
ghost use Rattle.lrat_replay.specs.declared.line.LineKind.TheVariants.{Add};
ghost use Rattle.reach_encoding.specs.Encoding.{IsQuestion, encoding};
ghost use Rattle.journal_text.specs.Bounds.{IsTarget};
ghost use Rattle.journal_text.specs.Calls.{IsAskable, IsClosed};
ghost use Rattle.journal_text.specs.Origin.{origin_of};
ghost use Rattle.journal_text.specs.Parts.{size_of};
ghost use Rattle.journal_text.specs.Text.{question_text};
ghost use Rattle.journal_text.specs.declared.target.Close.TheVariants.{Refuted, Satisfied, Spent};
ghost use Rattle.lattice_question.specs.Asked.{question_for, OutcomeSo, IsRightFor, SectionSo, AddsSection};
ghost use Rattle.lattice_question.specs.Closing.{VerdictSo, StoppedSection, ClosedSo};
ghost use Rattle.lattice_question.specs.Written.{StoppedQuestion};

use clause_core::formula::Formula;
use clause_core::valuation::Valuation;
use clause_solver::solver::Solver;
use clause_solver::verdict::{SolveFault, Verdict};
use cube_core::spec::Spec;
use journal_text::fault::JournalFault;
use journal_text::section::Section;
use journal_text::target::Target;
use journal_text::writer::JournalWriter;
use lattice_grid::grid::Grid;
use lattice_grid::rails::Rails;
use lattice_grid::shape::Shape;
use reach_encoding::decode::decode;
use reach_encoding::encode::encode;
use reach_encoding::laws::{read, solved};
use std::alloc::Global;
use wire_io::fault::{Failed, NoMemory, Stopped};
use wire_io::sink::Sink;

/// What came of a question.
#[derive(Drop)]
pub enum Outcome {
    /// No lattice of the target realises the function: so many steps refute it.
    Refuted(u32),
    /// This lattice of the target does.
    Satisfied(Grid),
    /// The budget was spent, and the question is open.
    Spent,
}

/// What came of a question, and the writer behind its section.
#[derive(Drop)]
pub struct Asked<K: Sink> {
    pub outcome: Outcome,
    pub writer: JournalWriter<K>,
}

/// A question that stopped for want of memory, and gives its sink back.
fn out_of_memory<K>(held: K) -> Stopped<JournalFault, K>
    ensures fault { result.fault ≡ JournalFault.NoMemory }
    ensures held { result.held ≡ held }
{
    Stopped {
        fault: JournalFault::NoMemory,
        held,
    }
}

/// A question that stopped since its sink failed.
fn sink_failed<K>(stopped: Stopped<Failed, K>) -> Stopped<JournalFault, K>
    ensures fault { result.fault ≡ JournalFault.Sink }
    ensures held { result.held ≡ stopped.held }
{
    Stopped {
        fault: JournalFault::Sink,
        held: stopped.held,
    }
}

/// The shape that is asked for. A target that may be asked for is within its bounds.
fn shape_of(target: &Target) -> Shape
    requires { IsAskable target.now }
    ensures size { result ≡ size_of target.now }
    ensures bounds { IsTarget target.now }
{
    match target {
        Target::Whole(shape) => {
            let _rows = shape.rows();
            *shape
        }
        Target::Marked(array) => array.shape(),
    }
}

/// The formula of the question.
fn formula_of(
    alloc: Global,
    spec: &Spec,
    rails: Rails,
    target: &Target,
) -> Result<Formula, NoMemory>
    requires { IsTarget target.now }
    ensures { IfOk result (λ formula. formula ≡ encoding (question_for rails spec.now target.now)) }
{
    match target {
        Target::Whole(shape) => encode(alloc, spec, rails, *shape, None),
        Target::Marked(array) => encode(alloc, spec, rails, array.shape(), Some(array)),
    }
}

/// Writes the line of the question whether some lattice of this target and of allowed literals realises the function.
fn begin<K: Sink>(
    alloc: Global,
    output: u32,
    spec: &Spec,
    rails: Rails,
    target: &Target,
    writer: JournalWriter<K>,
) -> Result<Section<K>, Stopped<JournalFault, K>>
    requires whole { writer.failed ≡ false }
    requires output { output ≤ 63 }
    requires askable { IsAskable target.now }
    requires target { IsTarget target.now }
    ensures book { IfOk result (λ section. section.book ≡ start (encoding (question_for rails spec.now target.now))) }
    ensures unbroken { IfOk result (λ section. section.broken ≡ false) }
    ensures asked { IfOk result (λ section. Gains (K.got writer.sink) (K.got section.sink) (question_text output target.now)) }
    ensures origin { IfOk result (λ section. IfSome (K.got section.sink) (λ bytes. origin_of (K.got section.sink) ≡ bytes)) }
    ensures later { IfOk result (λ section. K.faults writer.sink ≤ K.faults section.sink) }
    ensures stopped { IfErr result (λ stopped. StoppedQuestion output (K.got writer.sink) (K.got stopped.held) (K.faults writer.sink) (K.faults stopped.held) stopped.fault) }
{
    let Ok(formula) = formula_of(alloc, spec, rails, target) else {
        return Err(out_of_memory(writer.into_sink()));
    };
    match writer.question(alloc, output, target, formula) {
        Ok(section) => Ok(section),
        Err(stopped) => Err(stopped),
    }
}

/// Asks a solver for the section's formula.
fn solve<K: Sink>(
    alloc: Global,
    section: Section<K>,
    budget: u32,
) -> Result<(Verdict, Section<K>), Stopped<JournalFault, K>>
    requires unbroken { section.broken ≡ false }
    requires none { section.book.steps ≡ [] }
    requires all { section.book.deleted ≡ set.empty }
    requires within { last_id section.book + budget < 2147483647 }
    ensures unbroken { IfOk result (λ pair. pair.1.broken ≡ false) }
    ensures formula { IfOk result (λ pair. pair.1.book.formula ≡ section.book.formula) }
    ensures verdict { IfOk result (λ pair. VerdictSo pair.0 section.book pair.1.book budget) }
    ensures origin { IfOk result (λ pair. (origin_of (K.got pair.1.sink) ≡ origin_of (K.got section.sink)) ⊎ (origin_of (K.got pair.1.sink) ≡ [])) }
    ensures later { IfOk result (λ pair. K.faults section.sink ≤ K.faults pair.1.sink) }
    ensures stopped { IfErr result (λ stopped. StoppedSection (K.got section.sink) (K.got stopped.held) (K.faults section.sink) (K.faults stopped.held) stopped.fault) }
{
    let mut solver = match Solver::new(alloc, section) {
        Ok(solver) => solver,
        Err(stopped) => return Err(out_of_memory(stopped.held.into_sink())),
    };
    match solver.solve(budget) {
        Ok(verdict) => Ok((verdict, solver.into_ledger())),
        Err(fault) => Err(Stopped {
            fault: match fault {
                SolveFault::Ledger => JournalFault::Sink,
                SolveFault::NoMemory => JournalFault::NoMemory,
                SolveFault::Over => unreachable!(),
            },
            held: solver.into_ledger().into_sink(),
        }),
    }
}

/// Closes the section of a question whose formula this valuation satisfies, and reads the lattice.
fn close_satisfied<K: Sink>(
    alloc: Global,
    spec: &Spec,
    rails: Rails,
    target: &Target,
    valuation: &Valuation,
    section: Section<K>,
) -> Result<(Grid, JournalWriter<K>), Stopped<JournalFault, K>>
    requires unbroken { section.broken ≡ false }
    requires askable { IsAskable target.now }
    requires formula { section.book.formula ≡ encoding (question_for rails spec.now target.now) }
    requires question { IsQuestion (question_for rails spec.now target.now) }
    requires satisfies { IsSatisfiedBy valuation.now section.book.formula }
    ensures whole { IfOk result (λ pair. pair.1.failed ≡ false) }
    ensures right { IfOk result (λ pair. IsRightFor rails spec.now target.now pair.0) }
    ensures closed { IfOk result (λ pair. IfSome (K.got pair.1.sink) (λ bytes. IsClosed bytes (origin_of (K.got section.sink)) Satisfied (λ steps. Accepts (start section.book.formula) (map Add steps)))) }
    ensures later { IfOk result (λ pair. K.faults section.sink ≤ K.faults pair.1.sink) }
    ensures stopped { IfErr result (λ stopped. StoppedSection (K.got section.sink) (K.got stopped.held) (K.faults section.sink) (K.faults stopped.held) stopped.fault) }
{
    let _steps = section.steps();
    read();
    let shape = shape_of(target);
    let Ok(grid) = decode(alloc, spec.inputs(), rails, shape, valuation) else {
        return Err(out_of_memory(section.into_sink()));
    };
    match section.satisfied(valuation) {
        Ok(writer) => Ok((grid, writer)),
        Err(stopped) => Err(sink_failed(stopped)),
    }
}

/// Closes the section of a question that was refuted, and tells how many steps it has.
fn close_refuted<K: Sink>(
    section: Section<K>,
) -> Result<(u32, JournalWriter<K>), Stopped<JournalFault, K>>
    requires unbroken { section.broken ≡ false }
    requires ends { EndsEmpty section.book.steps }
    ensures whole { IfOk result (λ pair. pair.1.failed ≡ false) }
    ensures some { IfOk result (λ pair. 1 ≤ pair.0) }
    ensures few { IfOk result (λ pair. pair.0 ≤ 2147483647) }
    ensures closed { IfOk result (λ pair. IfSome (K.got pair.1.sink) (λ bytes. IsClosed bytes (origin_of (K.got section.sink)) Refuted (λ steps. Refutes section.book.formula (map Add steps) × (length steps ≡ pair.0)))) }
    ensures later { IfOk result (λ pair. K.faults section.sink ≤ K.faults pair.1.sink) }
    ensures stopped { IfErr result (λ stopped. StoppedSection (K.got section.sink) (K.got stopped.held) (K.faults section.sink) (K.faults stopped.held) stopped.fault) }
{
    let steps = section.steps();
    match section.refuted() {
        Ok((writer, _)) => Ok((steps, writer)),
        Err(stopped) => Err(sink_failed(stopped)),
    }
}

/// Closes the section of a question whose budget was spent.
fn close_spent<K: Sink>(
    section: Section<K>,
    budget: u32,
) -> Result<JournalWriter<K>, Stopped<JournalFault, K>>
    requires unbroken { section.broken ≡ false }
    requires budget { budget ≤ 200000 }
    requires learns { LearnsNew (start section.book.formula) section.book budget }
    requires open { IsOpen section.book.formula section.book.steps }
    ensures whole { IfOk result (λ writer. writer.failed ≡ false) }
    ensures closed { IfOk result (λ writer. IfSome (K.got writer.sink) (λ bytes. IsClosed bytes (origin_of (K.got section.sink)) (Spent budget)
        (λ steps. SpentWritten section.book.formula steps budget × IsOpen section.book.formula (without_hints steps)))) }
    ensures later { IfOk result (λ writer. K.faults section.sink ≤ K.faults writer.sink) }
    ensures stopped { IfErr result (λ stopped. StoppedSection (K.got section.sink) (K.got stopped.held) (K.faults section.sink) (K.faults stopped.held) stopped.fault) }
{
    let _steps = section.steps();
    match section.spent(budget) {
        Ok(writer) => Ok(writer),
        Err(stopped) => Err(sink_failed(stopped)),
    }
}

/// Closes the section of a question as its verdict says.
fn close<K: Sink>(
    alloc: Global,
    spec: &Spec,
    rails: Rails,
    budget: u32,
    target: &Target,
    verdict: Verdict,
    section: Section<K>,
) -> Result<Asked<K>, Stopped<JournalFault, K>>
    requires unbroken { section.broken ≡ false }
    requires askable { IsAskable target.now }
    requires formula { section.book.formula ≡ encoding (question_for rails spec.now target.now) }
    requires question { IsQuestion (question_for rails spec.now target.now) }
    requires budget { budget ≤ 200000 }
    requires verdict { VerdictSo verdict (start section.book.formula) section.book budget }
    ensures whole { IfOk result (λ asked. asked.writer.failed ≡ false) }
    ensures so { IfOk result (λ asked. OutcomeSo rails spec.now target.now asked.outcome) }
    ensures closed { IfOk result (λ asked. IfSome (K.got asked.writer.sink) (λ bytes. ClosedSo rails spec.now budget target.now asked.outcome (origin_of (K.got section.sink)) bytes)) }
    ensures later { IfOk result (λ asked. K.faults section.sink ≤ K.faults asked.writer.sink) }
    ensures stopped { IfErr result (λ stopped. StoppedSection (K.got section.sink) (K.got stopped.held) (K.faults section.sink) (K.faults stopped.held) stopped.fault) }
{
    match verdict {
        Verdict::Satisfied(valuation) => {
            let (grid, writer) = close_satisfied(alloc, spec, rails, target, &valuation, section)?;
            Ok(Asked {
                outcome: Outcome::Satisfied(grid),
                writer,
            })
        }
        Verdict::Refuted => {
            solved();
            let (steps, writer) = close_refuted(section)?;
            Ok(Asked {
                outcome: Outcome::Refuted(steps),
                writer,
            })
        }
        Verdict::Spent => Ok(Asked {
            outcome: Outcome::Spent,
            writer: close_spent(section, budget)?,
        }),
    }
}

/// Asks whether some lattice of this target and of allowed literals realises the function, on the array where it has one, with
/// so many steps at most, and writes the section of the question. No answer of the writer failed, the output is at most 63, the
/// budget at most 200,000, and a shape without array has at most 32,768 cells.
pub fn ask<K: Sink>(
    alloc: Global,
    output: u32,
    spec: &Spec,
    rails: Rails,
    budget: u32,
    target: &Target,
    writer: JournalWriter<K>,
) -> Result<Asked<K>, Stopped<JournalFault, K>>
    requires whole { writer.failed ≡ false }
    requires output { output ≤ 63 }
    requires budget { budget ≤ 200000 }
    requires few { IsAskable target.now }
    ensures whole { IfOk result (λ asked. asked.writer.failed ≡ false) }
    ensures so { IfOk result (λ asked. OutcomeSo rails spec.now target.now asked.outcome) }
    ensures adds { IfOk result (λ asked. AddsSection output target.now (K.got writer.sink) (K.got asked.writer.sink) (SectionSo rails spec.now budget asked.outcome)) }
    ensures later { IfOk result (λ asked. K.faults writer.sink ≤ K.faults asked.writer.sink) }
    ensures stopped { IfErr result (λ stopped. StoppedQuestion output (K.got writer.sink) (K.got stopped.held) (K.faults writer.sink) (K.faults stopped.held) stopped.fault) }
{
    let (_inputs, _shape) = (spec.inputs(), shape_of(target));
    let section = begin(alloc, output, spec, rails, target, writer)?;
    let (verdict, section) = match solve(alloc, section, budget) {
        Ok(solved) => solved,
        Err(stopped) => return Err(stopped),
    };
    close(alloc, spec, rails, budget, target, verdict, section)
}

//! Questions one after another, until none is left below the best lattice.
ghost use Rattle.std.specs.Prelude.{◌≡◌, ℕ, ◌*◌, ◌<◌, ◌≤◌, List, false, IfOk, IfErr, Option};
ghost use Rattle.journal_text.specs.Least.{area};
ghost use Rattle.journal_text.specs.declared.target.Target.TheVariants.{Whole};
ghost use Rattle.lattice_question.specs.Asked.{OutcomeSo, SectionSo, AddsSection};
ghost use Rattle.area_search.specs.Progress.{IsKnown, HasWritten, TurnSo, PassedSo, AdvancedSo, EndedSo};
ghost use Rattle.area_search.specs.Searched.{StoppedSearch};

use crate::fault::{SearchFault, out_of_memory, question_stopped};
use crate::progress::{Progress, Turn};
use cube_core::spec::Spec;
use journal_text::target::Target;
use journal_text::writer::JournalWriter;
use lattice_grid::rails::Rails;
use lattice_grid::shape::Shape;
use lattice_question::question::{Asked, Outcome, ask};
use shape_list::stair::stair;
use std::alloc::Global;
use wire_io::fault::Stopped;
use wire_io::sink::Sink;

/// What a pass over the largest shapes of an area came to.
#[derive(Clone, Copy, Debug, PartialEq, Eq)]
pub enum Passed {
    /// No lattice of at most this area is right.
    All,
    /// There is a better lattice.
    Better,
    /// The question of this shape was given up.
    GivenUp(Shape),
}

/// Asks whether some lattice of this shape and of allowed literals realises the function.
fn ask_shape<K: Sink>(
    alloc: Global,
    output: u32,
    spec: &Spec,
    rails: Rails,
    budget: u32,
    shape: Shape,
    writer: JournalWriter<K>,
) -> Result<Asked<K>, Stopped<SearchFault, K>>
    requires whole { writer.failed ≡ false }
    requires output { output ≤ 63 }
    requires budget { budget ≤ 200000 }
    requires few { shape.rows * shape.cols ≤ 32768 }
    ensures whole { IfOk result (λ asked. asked.writer.failed ≡ false) }
    ensures so { IfOk result (λ asked. OutcomeSo rails spec.now (Whole shape) asked.outcome) }
    ensures adds { IfOk result (λ asked. AddsSection output (Whole shape) (K.got writer.sink) (K.got asked.writer.sink) (SectionSo rails spec.now budget asked.outcome)) }
    ensures later { IfOk result (λ asked. K.faults writer.sink ≤ K.faults asked.writer.sink) }
    ensures stopped { IfErr result (λ stopped. StoppedSearch output (K.got writer.sink) (K.got stopped.held) (K.faults writer.sink) (K.faults stopped.held) stopped.fault) }
{
    let target = Target::Whole(shape);
    match ask(alloc, output, spec, rails, budget, &target, writer) {
        Ok(asked) => Ok(asked),
        Err(stopped) => Err(question_stopped(stopped)),
    }
}

/// Asks the question of a shape, unless it was given up before.
fn take_turn<K: Sink>(
    alloc: Global,
    output: u32,
    spec: &Spec,
    rails: Rails,
    budget: u32,
    shape: Shape,
    progress: &mut Progress,
    writer: JournalWriter<K>,
) -> Result<(Turn, JournalWriter<K>), Stopped<SearchFault, K>>
    requires whole { writer.failed ≡ false }
    requires output { output ≤ 63 }
    requires budget { budget ≤ 200000 }
    requires known { IsKnown rails spec.now progress.old }
    requires smaller { shape.rows * shape.cols < area progress.old.best }
    ensures whole { IfOk result (λ pair. pair.1.failed ≡ false) }
    ensures known { IfOk result (λ pair. IsKnown rails spec.now progress.new) }
    ensures turned { IfOk result (λ pair. TurnSo pair.0 shape progress.old progress.new) }
    ensures written { IfOk result (λ pair. (first : Option (List ℕ)) → HasWritten rails output spec.now budget first (K.got writer.sink) progress.old
        → HasWritten rails output spec.now budget first (K.got pair.1.sink) progress.new) }
    ensures later { IfOk result (λ pair. K.faults writer.sink ≤ K.faults pair.1.sink) }
    ensures stopped { IfErr result (λ stopped. (first : Option (List ℕ)) (faults : ℕ) → HasWritten rails output spec.now budget first (K.got writer.sink) progress.old
        → faults ≤ K.faults writer.sink → StoppedSearch output first (K.got stopped.held) faults (K.faults stopped.held) stopped.fault) }
{
    if progress.given_up == Some(shape) {
        return Ok((Turn::GivenUp, writer));
    }
    let asked = match ask_shape(alloc, output, spec, rails, budget, shape, writer) {
        Ok(asked) => asked,
        Err(stopped) => return Err(stopped),
    };
    let Asked { outcome, writer } = asked;
    match outcome {
        Outcome::Refuted(steps) => match progress.refute(shape, steps) {
            Ok(()) => Ok((Turn::Refuted, writer)),
            Err(_) => Err(out_of_memory(writer.into_sink())),
        },
        Outcome::Satisfied(grid) => {
            progress.best = grid;
            Ok((Turn::Better, writer))
        }
        Outcome::Spent => {
            progress.given_up = Some(shape);
            Ok((Turn::GivenUp, writer))
        }
    }
}

/// Asks the questions of the largest shapes of an area, in order, until one of them has a lattice or is given up. A shape
/// that fits inside a refuted one is passed over.
fn pass<K: Sink>(
    alloc: Global,
    output: u32,
    spec: &Spec,
    rails: Rails,
    budget: u32,
    most: u32,
    progress: &mut Progress,
    writer: JournalWriter<K>,
) -> Result<(Passed, JournalWriter<K>), Stopped<SearchFault, K>>
    requires whole { writer.failed ≡ false }
    requires output { output ≤ 63 }
    requires budget { budget ≤ 200000 }
    requires known { IsKnown rails spec.now progress.old }
    requires some { 1 ≤ most }
    requires smaller { most < area progress.old.best }
    ensures whole { IfOk result (λ pair. pair.1.failed ≡ false) }
    ensures known { IfOk result (λ pair. IsKnown rails spec.now progress.new) }
    ensures passed { IfOk result (λ pair. PassedSo pair.0 most progress.old progress.new) }
    ensures written { IfOk result (λ pair. (first : Option (List ℕ)) → HasWritten rails output spec.now budget first (K.got writer.sink) progress.old
        → HasWritten rails output spec.now budget first (K.got pair.1.sink) progress.new) }
    ensures later { IfOk result (λ pair. K.faults writer.sink ≤ K.faults pair.1.sink) }
    ensures stopped { IfErr result (λ stopped. (first : Option (List ℕ)) (faults : ℕ) → HasWritten rails output spec.now budget first (K.got writer.sink) progress.old
        → faults ≤ K.faults writer.sink → StoppedSearch output first (K.got stopped.held) faults (K.faults stopped.held) stopped.fault) }
{
    let Ok(shapes) = stair(alloc, most) else {
        return Err(out_of_memory(writer.into_sink()));
    };
    let mut writer = writer;
    for shape in shapes.iter() {
        if progress.refuted.holds(*shape) {
            continue;
        }
        match take_turn(alloc, output, spec, rails, budget, *shape, progress, writer) {
            Ok((Turn::Refuted, next)) => writer = next,
            Ok((Turn::Better, next)) => return Ok((Passed::Better, next)),
            Ok((Turn::GivenUp, next)) => return Ok((Passed::GivenUp(*shape), next)),
            Err(stopped) => return Err(stopped),
        }
    }
    Ok((Passed::All, writer))
}

/// Asks the next questions. The answer is the shape of least area whose question was given up, or none where the search may
/// go on with fewer questions left.
fn advance<K: Sink>(
    alloc: Global,
    output: u32,
    spec: &Spec,
    rails: Rails,
    budget: u32,
    progress: &mut Progress,
    writer: JournalWriter<K>,
) -> Result<(Option<Shape>, JournalWriter<K>), Stopped<SearchFault, K>>
    requires whole { writer.failed ≡ false }
    requires output { output ≤ 63 }
    requires budget { budget ≤ 200000 }
    requires known { IsKnown rails spec.now progress.old }
    requires further { progress.old.least < area progress.old.best }
    ensures whole { IfOk result (λ pair. pair.1.failed ≡ false) }
    ensures known { IfOk result (λ pair. IsKnown rails spec.now progress.new) }
    ensures advanced { IfOk result (λ pair. AdvancedSo pair.0 progress.old progress.new) }
    ensures written { IfOk result (λ pair. (first : Option (List ℕ)) → HasWritten rails output spec.now budget first (K.got writer.sink) progress.old
        → HasWritten rails output spec.now budget first (K.got pair.1.sink) progress.new) }
    ensures later { IfOk result (λ pair. K.faults writer.sink ≤ K.faults pair.1.sink) }
    ensures stopped { IfErr result (λ stopped. (first : Option (List ℕ)) (faults : ℕ) → HasWritten rails output spec.now budget first (K.got writer.sink) progress.old
        → faults ≤ K.faults writer.sink → StoppedSearch output first (K.got stopped.held) faults (K.faults stopped.held) stopped.fault) }
{
    let most = progress.area_asked();
    let (passed, writer) = match pass(alloc, output, spec, rails, budget, most, progress, writer) {
        Ok(passed) => passed,
        Err(stopped) => return Err(stopped),
    };
    match passed {
        Passed::All => {
            progress.least = most + 1;
            Ok((None, writer))
        }
        Passed::Better => Ok((None, writer)),
        Passed::GivenUp(shape) => {
            if most == progress.least {
                Ok((Some(shape), writer))
            } else {
                Ok((None, writer))
            }
        }
    }
}

/// Asks questions until no shape is left below the best lattice, or that of the least area was given up, which is the answer.
pub fn search_below<K: Sink>(
    alloc: Global,
    output: u32,
    spec: &Spec,
    rails: Rails,
    budget: u32,
    progress: &mut Progress,
    writer: JournalWriter<K>,
) -> Result<(Option<Shape>, JournalWriter<K>), Stopped<SearchFault, K>>
    requires whole { writer.failed ≡ false }
    requires output { output ≤ 63 }
    requires budget { budget ≤ 200000 }
    requires known { IsKnown rails spec.now progress.old }
    ensures whole { IfOk result (λ pair. pair.1.failed ≡ false) }
    ensures known { IfOk result (λ pair. IsKnown rails spec.now progress.new) }
    ensures ended { IfOk result (λ pair. EndedSo pair.0 progress.new) }
    ensures written { IfOk result (λ pair. (first : Option (List ℕ)) → HasWritten rails output spec.now budget first (K.got writer.sink) progress.old
        → HasWritten rails output spec.now budget first (K.got pair.1.sink) progress.new) }
    ensures later { IfOk result (λ pair. K.faults writer.sink ≤ K.faults pair.1.sink) }
    ensures stopped { IfErr result (λ stopped. (first : Option (List ℕ)) (faults : ℕ) → HasWritten rails output spec.now budget first (K.got writer.sink) progress.old
        → faults ≤ K.faults writer.sink → StoppedSearch output first (K.got stopped.held) faults (K.faults stopped.held) stopped.fault) }
{
    let mut writer = writer;
    while progress.least < progress.best.shape().area() {
        match advance(alloc, output, spec, rails, budget, progress, writer) {
            Ok((None, next)) => writer = next,
            Ok((Some(shape), next)) => return Ok((Some(shape), next)),
            Err(stopped) => return Err(stopped),
        }
    }
    Ok((None, writer))
}

//! A lattice is placed on an array some of whose switches are stuck.
ghost use Rattle.std.specs.Prelude.{◌≡◌, ◌↔◌, ℕ, ◌≤◌, [], true, false, All, IfOk, IfErr};
ghost use Rattle.report_text.specs.Bounds.{IsAnswer, IsProof};
ghost use Rattle.report_text.specs.Form.{form_of, lists};
ghost use Rattle.report_text.specs.declared.answer.Version.TheVariants.{Two};
ghost use Rattle.lattice_question.specs.Written.{Searched};
ghost use Rattle.defect_array.specs.Answering.{answer_for, proofs_for};
ghost use Rattle.defect_array.specs.Place.{HoldsOnArray, StoppedPlace};

use cube_core::spec::Spec;
use journal_text::fault::JournalFault;
use journal_text::target::Target;
use journal_text::writer::JournalWriter;
use lattice_grid::array::Array;
use lattice_grid::rails::Rails;
use lattice_question::question::{Asked, Outcome, ask};
use report_text::answer::{Answer, Proof};
use std::alloc::Global;
use wire_io::fault::{NoMemory, Stopped};
use wire_io::sink::Sink;

/// Why a placing stopped.
#[derive(Clone, Copy, Debug, PartialEq, Eq)]
pub enum PlaceFault {
    /// The journal's sink failed.
    Sink,
    /// There was no memory.
    NoMemory,
}

/// A placing that stopped for want of memory, and gives its sink back.
fn out_of_memory<K>(held: K) -> Stopped<PlaceFault, K>
    ensures fault { result.fault ≡ PlaceFault.NoMemory }
    ensures held { result.held ≡ held }
{
    Stopped {
        fault: PlaceFault::NoMemory,
        held,
    }
}

/// A placing that stopped where its question did.
fn question_stopped<K>(stopped: Stopped<JournalFault, K>) -> Stopped<PlaceFault, K>
    ensures fault { (result.fault ≡ PlaceFault.Sink) ↔ (stopped.fault ≡ JournalFault.Sink) }
    ensures held { result.held ≡ stopped.held }
{
    Stopped {
        fault: match stopped.fault {
            JournalFault::Sink => PlaceFault::Sink,
            JournalFault::NoMemory => PlaceFault::NoMemory,
        },
        held: stopped.held,
    }
}

/// The answer for an array whose question came to this.
fn answer_of(outcome: Outcome, array: Array, budget: u32) -> Answer
    ensures { result ≡ answer_for outcome array budget }
{
    match outcome {
        Outcome::Satisfied(grid) => Answer::Mapped { grid, array },
        Outcome::Refuted(_) => Answer::NoneMapped { array },
        Outcome::Spent => Answer::MapUndecided {
            array,
            after: budget,
        },
    }
}

/// The shape of the array that was refuted, and how many steps it took; nothing where it was not.
fn proofs_of(alloc: Global, outcome: &Outcome, array: &Array) -> Result<Vec<Proof>, NoMemory>
    ensures { IfOk result (λ proofs. proofs.items ≡ proofs_for outcome.now array.now) }
{
    let mut proofs = Vec::new(alloc);
    match outcome {
        Outcome::Refuted(steps) => {
            proofs.push(Proof {
                shape: array.shape(),
                steps: *steps,
            })?;
            Ok(proofs)
        }
        Outcome::Satisfied(_) | Outcome::Spent => Ok(proofs),
    }
}

/// Places a lattice on an array, as far as one question of so many steps can tell: a lattice that realises the function on the
/// array, that no lattice does, or that the question was given up. Every literal is allowed. The output is at most 63 and the budget
/// at most 200,000; no answer of the writer failed. Gives also what was refuted with how many steps; the section of the question is
/// written.
pub fn place<K: Sink>(
    alloc: Global,
    output: u32,
    spec: &Spec,
    array: Array,
    budget: u32,
    writer: JournalWriter<K>,
) -> Result<(Answer, Vec<Proof>, JournalWriter<K>), Stopped<PlaceFault, K>>
    requires whole { writer.failed ≡ false }
    requires output { output ≤ 63 }
    requires budget { budget ≤ 200000 }
    ensures whole { IfOk result (λ placed. placed.2.failed ≡ false) }
    // What the answer says of lattices holds for every sink.
    ensures holds { IfOk result (λ placed. HoldsOnArray spec.now array budget placed.0) }
    ensures answer { IfOk result (λ placed. IsAnswer placed.0) }
    ensures proofs { IfOk result (λ placed. All IsProof placed.1.items) }
    ensures unlisted { IfOk result (λ placed. lists Two (form_of placed.0) ≡ false → placed.1.items ≡ []) }
    // What was written shows the answer.
    ensures searched { IfOk result (λ placed. Searched 1048575 output spec.now budget (K.got writer.sink) (K.got placed.2.sink) placed.0 placed.1.items) }
    ensures later { IfOk result (λ placed. K.faults writer.sink ≤ K.faults placed.2.sink) }
    ensures stopped { IfErr result (λ stopped. StoppedPlace output (K.got writer.sink) (K.got stopped.held) (K.faults writer.sink) (K.faults stopped.held) stopped.fault) }
{
    let _shape = array.shape();
    let target = Target::Marked(array);
    let asked = match ask(alloc, output, spec, Rails::all(), budget, &target, writer) {
        Ok(asked) => asked,
        Err(stopped) => return Err(question_stopped(stopped)),
    };
    let Asked { outcome, writer } = asked;
    let Target::Marked(array) = target else {
        unreachable!();
    };
    let Ok(proofs) = proofs_of(alloc, &outcome, &array) else {
        return Err(out_of_memory(writer.into_sink()));
    };
    Ok((answer_of(outcome, array, budget), proofs, writer))
}

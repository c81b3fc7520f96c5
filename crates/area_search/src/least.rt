//! The search for a lattice of least area.
ghost use Rattle.std.specs.Prelude.{◌≡◌, ℕ, ◌^◌, ◌<◌, ◌≤◌, [], true, false, All, IfOk, IfErr, vec_len};
ghost use Rattle.report_text.specs.Bounds.{IsAnswer, IsProof};
ghost use Rattle.report_text.specs.Form.{form_of, lists};
ghost use Rattle.report_text.specs.declared.answer.Version.TheVariants.{Two};
ghost use Rattle.lattice_grid.specs.declared.start.Start.TheVariants as starts;
ghost use Rattle.journal_text.specs.Least.{area, IsRight, IsNoLarger, IsStart};
ghost use Rattle.area_search.specs.Answer.{HoldsOfLattices, AreUsed};
ghost use Rattle.area_search.specs.Progress.{answer_of};
ghost use Rattle.lattice_question.specs.Written.{Searched};
ghost use Rattle.area_search.specs.Searched.{StoppedSearch};

use crate::fault::{SearchFault, out_of_memory};
use crate::progress::Progress;
use crate::search::search_below;
use crate::start::{best_lattice, first_lattice};
use cube_core::spec::Spec;
use finder_set::finder::Finder;
use finder_set::improve::Dropped;
use journal_text::writer::JournalWriter;
use lattice_grid::grid::Grid;
use lattice_grid::rails::Rails;
use lattice_grid::shape::Shape;
use lattice_grid::start::Start;
use path_meaning::laws::fitting;
use report_text::answer::{Answer, Proof};
use std::alloc::Global;
use wire_io::fault::{NoMemory, Stopped};
use wire_io::sink::Sink;

/// The answer of a search that ended so.
fn answer_of(grid: Grid, least: u32, given_up: Option<Shape>, budget: u32) -> Answer
    ensures { result ≡ answer_of grid least given_up budget }
{
    match given_up {
        None => Answer::Minimum(grid),
        Some(at) => Answer::Undecided {
            grid,
            least,
            at,
            after: budget,
        },
    }
}

/// Searches below this lattice.
fn search_from<K: Sink>(
    alloc: Global,
    output: u32,
    spec: &Spec,
    rails: Rails,
    budget: u32,
    best: Grid,
    writer: JournalWriter<K>,
) -> Result<(Answer, Vec<Proof>, JournalWriter<K>), Stopped<SearchFault, K>>
    requires whole { writer.failed ≡ false }
    requires output { output ≤ 63 }
    requires budget { budget ≤ 200000 }
    requires right { IsRight rails spec.now best }
    requires no_larger { IsNoLarger rails spec.now best }
    requires small { area best ≤ 32768 }
    ensures whole { IfOk result (λ found. found.2.failed ≡ false) }
    ensures holds { IfOk result (λ found. HoldsOfLattices rails spec.now found.0) }
    ensures answer { IfOk result (λ found. IsAnswer found.0) }
    ensures proofs { IfOk result (λ found. All IsProof found.1.items) }
    ensures listed { IfOk result (λ found. lists Two (form_of found.0) ≡ true) }
    ensures searched { IfOk result (λ found. Searched rails output spec.now budget (K.got writer.sink) (K.got found.2.sink) found.0 found.1.items) }
    ensures later { IfOk result (λ found. K.faults writer.sink ≤ K.faults found.2.sink) }
    ensures stopped { IfErr result (λ stopped. StoppedSearch output (K.got writer.sink) (K.got stopped.held) (K.faults writer.sink) (K.faults stopped.held) stopped.fault) }
{
    fitting();
    let mut progress = Progress::new(alloc, best);
    let (given_up, writer) = match search_below(
        alloc,
        output,
        spec,
        rails,
        budget,
        &mut progress,
        writer,
    ) {
        Ok(ended) => ended,
        Err(stopped) => return Err(stopped),
    };
    let Progress {
        best,
        refuted: _,
        proofs,
        least,
        given_up: _,
    } = progress;
    Ok((answer_of(best, least, given_up, budget), proofs, writer))
}

/// Searches from this lattice, or from what the finders make of it.
fn search_improved<K: Sink>(
    alloc: Global,
    output: u32,
    spec: &Spec,
    rails: Rails,
    budget: u32,
    finders: &mut Vec<Box<dyn Finder>>,
    first: Grid,
    writer: JournalWriter<K>,
) -> Result<(Answer, Vec<Dropped>, Vec<Proof>, JournalWriter<K>), Stopped<SearchFault, K>>
    requires whole { writer.failed ≡ false }
    requires output { output ≤ 63 }
    requires budget { budget ≤ 200000 }
    requires few { vec_len finders.old < 2 ^ 32 }
    requires start { IsStart rails spec.now (starts.Grid first) }
    requires right { IsRight rails spec.now first }
    ensures whole { IfOk result (λ found. found.3.failed ≡ false) }
    ensures holds { IfOk result (λ found. HoldsOfLattices rails spec.now found.0) }
    ensures answer { IfOk result (λ found. IsAnswer found.0) }
    ensures proofs { IfOk result (λ found. All IsProof found.2.items) }
    ensures unlisted { IfOk result (λ found. lists Two (form_of found.0) ≡ false → found.2.items ≡ []) }
    ensures searched { IfOk result (λ found. Searched rails output spec.now budget (K.got writer.sink) (K.got found.3.sink) found.0 found.2.items) }
    ensures later { IfOk result (λ found. K.faults writer.sink ≤ K.faults found.3.sink) }
    ensures used { IfOk result (λ found. AreUsed begun left rails spec.now finders.old.items finders.new.items found.1.items) }
    ensures fewer { vec_len finders.new ≤ vec_len finders.old }
    ensures stopped { IfErr result (λ stopped. StoppedSearch output (K.got writer.sink) (K.got stopped.held) (K.faults writer.sink) (K.faults stopped.held) stopped.fault) }
{
    let (best, dropped) = match best_lattice(alloc, spec, rails, finders, first) {
        Ok(begun) => begun,
        Err(NoMemory) => return Err(out_of_memory(writer.into_sink())),
    };
    match search_from(alloc, output, spec, rails, budget, best, writer) {
        Ok((answer, proofs, writer)) => Ok((answer, dropped, proofs, writer)),
        Err(stopped) => Err(stopped),
    }
}

/// The lattice of least area that realises the function, as far as questions of so many steps each can tell: the least one, one
/// with a bound below which no lattice is right, or the pair of assignments that no allowed literal tells apart. The output is
/// at most 63 and the budget at most 200,000; no answer of the writer failed. Gives also the finders that were dropped, and
/// which shapes were refuted with how many steps each; the sections of the questions are written.
pub fn search<K: Sink>(
    alloc: Global,
    output: u32,
    spec: &Spec,
    rails: Rails,
    budget: u32,
    finders: &mut Vec<Box<dyn Finder>>,
    writer: JournalWriter<K>,
) -> Result<(Answer, Vec<Dropped>, Vec<Proof>, JournalWriter<K>), Stopped<SearchFault, K>>
    requires whole { writer.failed ≡ false }
    requires output { output ≤ 63 }
    requires budget { budget ≤ 200000 }
    requires few { vec_len finders.old < 2 ^ 32 }
    ensures whole { IfOk result (λ found. found.3.failed ≡ false) }
    // What the answer says of lattices alone holds for every sink and all finders.
    ensures holds { IfOk result (λ found. HoldsOfLattices rails spec.now found.0) }
    ensures answer { IfOk result (λ found. IsAnswer found.0) }
    ensures proofs { IfOk result (λ found. All IsProof found.2.items) }
    ensures unlisted { IfOk result (λ found. lists Two (form_of found.0) ≡ false → found.2.items ≡ []) }
    // What was written shows the answer.
    ensures searched { IfOk result (λ found. Searched rails output spec.now budget (K.got writer.sink) (K.got found.3.sink) found.0 found.2.items) }
    ensures later { IfOk result (λ found. K.faults writer.sink ≤ K.faults found.3.sink) }
    // The finders were asked, and dropped where they proposed a wrong smaller lattice.
    ensures used { IfOk result (λ found. AreUsed begun left rails spec.now finders.old.items finders.new.items found.1.items) }
    ensures fewer { vec_len finders.new ≤ vec_len finders.old }
    ensures stopped { IfErr result (λ stopped. StoppedSearch output (K.got writer.sink) (K.got stopped.held) (K.faults writer.sink) (K.faults stopped.held) stopped.fault) }
{
    let start = match first_lattice(alloc, spec, rails) {
        Ok(start) => start,
        Err(NoMemory) => return Err(out_of_memory(writer.into_sink())),
    };
    match start {
        Start::Grid(first) => search_improved(
            alloc, output, spec, rails, budget, finders, first, writer,
        ),
        Start::Lacking { on, off } => Ok((
            Answer::NoRails { on, off },
            Vec::new(alloc),
            Vec::new(alloc),
            writer,
        )),
    }
}

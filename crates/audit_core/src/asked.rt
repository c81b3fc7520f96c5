//! What is kept of sections that were replayed: what they asked for and came to, without their steps.
ghost use Rattle.std.specs.Prelude.{◌≡◌, ◌↔◌, Any, IsTrue, IfOk};
ghost use Rattle.journal_text.specs.Parts.{section_of};
ghost use Rattle.journal_text.specs.declared.target.Close.TheVariants.{Refuted};
ghost use Rattle.audit_core.specs.Bare.{asked_of, bare, told_of, ListsAsked, ListsFirstAsked};
ghost use Rattle.audit_core.specs.Sought.{IsWholeOf, IsSizedOf, IsMarkedOf};
ghost use Rattle.std.specs.Prelude.{◌∷◌, []};

use crate::lists::shape_of;
use crate::same::{same_arrays, same_shapes};
use journal_text::journal::SectionText;
use journal_text::target::{Close, Target};
use lattice_grid::array::{Array, Defect};
use lattice_grid::shape::Shape;
use report_text::answer::Proof;
use std::alloc::Global;
use wire_io::fault::NoMemory;

/// A section without its steps: of an output, what it asked for, how many steps it has, and how it closes.
#[derive(Drop)]
pub(crate) struct Asked {
    pub(crate) output: u32,
    pub(crate) target: Target,
    pub(crate) steps: usize,
    pub(crate) close: Close,
}

/// The defects of an array, row by row.
fn cells_of(alloc: Global, array: &Array) -> Result<Vec<Defect>, NoMemory>
    ensures { IfOk result (λ cells. cells.items ≡ array.now.cells) }
{
    let shape = array.shape();
    let mut cells = Vec::new(alloc);
    for cell in 0..shape.area() {
        cells.push(array.at(shape.place(cell)))?;
    }
    Ok(cells)
}

/// The same array.
fn copied(alloc: Global, array: &Array) -> Result<Array, NoMemory>
    ensures { IfOk result (λ copy. copy ≡ array.now) }
{
    let cells = cells_of(alloc, array)?;
    Ok(Array::new(array.shape(), cells).unwrap())
}

/// The same target.
fn same_target(alloc: Global, target: &Target) -> Result<Target, NoMemory>
    ensures { IfOk result (λ copy. copy ≡ target.now) }
{
    match target {
        Target::Whole(shape) => Ok(Target::Whole(*shape)),
        Target::Marked(array) => Ok(Target::Marked(copied(alloc, array)?)),
    }
}

/// A section without its steps.
pub(crate) fn without_steps(alloc: Global, section: &SectionText) -> Result<Asked, NoMemory>
    ensures { IfOk result (λ asked. asked ≡ asked_of (section_of section.now)) }
{
    Ok(Asked {
        output: section.output,
        target: same_target(alloc, &section.target)?,
        steps: section.steps.len(),
        close: section.close,
    })
}

/// Whether a section is of an output, without array, and closes so.
fn was_whole(asked: &Asked, output: u32, close: Close) -> bool
    ensures { IsTrue result ↔ IsWholeOf output close (bare asked.now) }
{
    match asked.target {
        Target::Marked(_) => false,
        Target::Whole(_) => asked.output == output && asked.close == close,
    }
}

/// Whether a section is of an output and of a shape, without array, and closes so.
fn was_sized(asked: &Asked, output: u32, shape: Shape, close: Close) -> bool
    ensures { IsTrue result ↔ IsSizedOf output shape close (bare asked.now) }
{
    was_whole(asked, output, close) && same_shapes(shape_of(&asked.target), shape)
}

/// Whether a section is of an output and of an array, and closes so.
fn was_marked(asked: &Asked, output: u32, array: &Array, close: Close) -> bool
    ensures { IsTrue result ↔ IsMarkedOf output array.now close (bare asked.now) }
{
    match &asked.target {
        Target::Whole(_) => false,
        Target::Marked(other) => asked.output == output
            && asked.close == close
            && same_arrays(other, array),
    }
}

/// Whether some section is of an output and of a shape, without array, and closes so.
pub(crate) fn has_whole(asked: &[Asked], output: u32, shape: Shape, close: Close) -> bool
    ensures { IsTrue result ↔ Any (λ a. IsSizedOf output shape close (bare a)) asked.now }
{
    asked.iter().any(|a| was_sized(a, output, shape, close))
}

/// Whether some section is of an output and of an array, and closes so.
pub(crate) fn has_marked(asked: &[Asked], output: u32, array: &Array, close: Close) -> bool
    ensures { IsTrue result ↔ Any (λ a. IsMarkedOf output array.now close (bare a)) asked.now }
{
    asked.iter().any(|a| was_marked(a, output, array, close))
}

/// Whether a proof tells of a section.
fn is_proof_of(proof: &Proof, asked: &Asked) -> bool
    ensures { IsTrue result ↔ (proof.now ≡ told_of asked.now) }
{
    same_shapes(proof.shape, shape_of(&asked.target)) && proof.steps as usize == asked.steps
}

/// Whether the proofs tell of the sections of an output, without array, that close as refuted, in order.
pub(crate) fn lists_whole(asked: &[Asked], output: u32, proofs: &[Proof]) -> bool
    ensures { IsTrue result ↔ ListsAsked (IsWholeOf output Refuted) asked.now proofs.now }
{
    let mut rest = proofs;
    for section in asked {
        if was_whole(section, output, Close::Refuted) {
            let Some((proof, later)) = rest.split_first() else {
                return false;
            };
            if !is_proof_of(proof, section) {
                return false;
            }
            rest = later;
        }
    }
    rest.is_empty()
}

/// Whether the proofs tell of one section.
fn is_only(proofs: &[Proof], asked: &Asked) -> bool
    ensures { IsTrue result ↔ (proofs.now ≡ told_of asked.now ∷ []) }
{
    match proofs {
        [proof] => is_proof_of(proof, asked),
        _ => false,
    }
}

/// Whether the proofs tell of the first section of an output and of an array that closes as refuted, and of no other.
pub(crate) fn lists_marked(asked: &[Asked], output: u32, array: &Array, proofs: &[Proof]) -> bool
    ensures { IsTrue result ↔ ListsFirstAsked (IsMarkedOf output array.now Refuted) asked.now proofs.now }
{
    for section in asked {
        if was_marked(section, output, array, Close::Refuted) {
            return is_only(proofs, section);
        }
    }
    false
}

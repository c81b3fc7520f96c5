//! A journal that was audited is made anew in version 2, with the list of proofs of each answer.
ghost use Rattle.std.specs.Prelude.{◌≡◌, ◌≤◌, ◌∷◌, [], OnOk, IfOk, MatchOption, All, length, map};
ghost use Rattle.pla_reader.specs.Parts.{Parts};
ghost use Rattle.journal_text.specs.Bounds.{IsJournal};
ghost use Rattle.journal_text.specs.Good.{Lists, ListsFirst};
ghost use Rattle.journal_text.specs.Parts.{Answered, section_of, part_of, parts_of_journal};
ghost use Rattle.journal_text.specs.Proved.{HasMarked};
ghost use Rattle.journal_text.specs.Text.{journal_text};
ghost use Rattle.journal_text.specs.declared.target.Close.TheVariants.{Refuted};
ghost use Rattle.report_text.specs.Report.{parts_of_block};
ghost use Rattle.audit_core.specs.Audit.{Audited, HasSection};
ghost use Rattle.audit_core.specs.Renewed.{IsAnew, IsRenewed};
ghost use Rattle.audit_core.specs.Listing.{HasFewSteps, Adds, IsRelisted, AreRelisted};
ghost use Rattle.audit_core.specs.Sought.{IsWholeOf, IsMarkedOf, proof_of, ListsClosed};

use crate::lists::{marked_section, shape_of, whole_section};
use journal_text::journal::{Journal, Part, PartKind, SectionText};
use journal_text::target::Close;
use lattice_grid::array::Array;
use report_text::answer::{Answer, Block, Proof, Version};
use std::alloc::Global;
use wire_io::fault::NoMemory;

/// What a list of proofs says of a section.
fn proof_for(section: &SectionText) -> Proof
    requires { length section.now.steps.items ≤ 536870912 }
    ensures { result ≡ proof_of (section_of section.now) }
{
    Proof {
        shape: shape_of(&section.target),
        steps: section.steps.len() as u32,
    }
}

/// Adds the proof of a part that is a section of an output, without array, and closes as refuted.
fn add_proof(proofs: &mut Vec<Proof>, part: &Part, output: u32) -> Result<(), NoMemory>
    requires { HasFewSteps (part_of part.now) }
    ensures { OnOk result (Adds (IsWholeOf output Refuted) (part_of part.now) proofs.old.items proofs.new.items) }
{
    match whole_section(part, output, Close::Refuted) {
        None => Ok(()),
        Some(section) => {
            proofs.push(proof_for(section))?;
            Ok(())
        }
    }
}

/// The proofs of the sections of an output, without array, that close as refuted, in order.
fn proofs_whole(alloc: Global, parts: &[Part], output: u32) -> Result<Vec<Proof>, NoMemory>
    requires { All HasFewSteps (map part_of parts.now) }
    ensures { IfOk result (λ proofs. Lists (IsWholeOf output Refuted) (map part_of parts.now) proofs.items) }
{
    let mut proofs = Vec::new(alloc);
    for part in parts {
        add_proof(&mut proofs, part, output)?;
    }
    Ok(proofs)
}

/// The first section of an output and of an array that closes as refuted.
fn first_marked<'a>(parts: &'a [Part], output: u32, array: &Array) -> Option<&'a SectionText>
    requires { All HasFewSteps (map part_of parts.now) }
    ensures { MatchOption result (HasMarked (map part_of parts.now) output array.now (λ q. q.close ≡ Refuted) → ⊥)
        (λ s. (length s.now.steps.items ≤ 536870912) × ListsFirst (IsMarkedOf output array.now Refuted) (map part_of parts.now) (proof_of (section_of s.now) ∷ [])) }
{
    for part in parts {
        match marked_section(part, output, array, Close::Refuted) {
            None => {}
            Some(section) => return Some(section),
        }
    }
    None
}

/// The proof of the first section of an output and of an array that closes as refuted, alone.
fn proofs_marked(
    alloc: Global,
    parts: &[Part],
    output: u32,
    array: &Array,
) -> Result<Vec<Proof>, NoMemory>
    requires { All HasFewSteps (map part_of parts.now) }
    ensures { IfOk result (λ proofs. HasMarked (map part_of parts.now) output array.now (λ q. q.close ≡ Refuted)
        → ListsFirst (IsMarkedOf output array.now Refuted) (map part_of parts.now) proofs.items) }
{
    let mut proofs = Vec::new(alloc);
    match first_marked(parts, output, array) {
        None => Ok(proofs),
        Some(section) => {
            proofs.push(proof_for(section))?;
            Ok(proofs)
        }
    }
}

/// The proofs that an answer lists behind some parts.
fn proofs_of(
    alloc: Global,
    before: &[Part],
    output: u32,
    answer: &Answer,
) -> Result<Vec<Proof>, NoMemory>
    requires { All HasFewSteps (map part_of before.now) }
    ensures { IfOk result (λ proofs. HasSection (map part_of before.now) output answer.now → ListsClosed output (map part_of before.now) answer.now proofs.items) }
{
    match answer {
        Answer::Minimum(_) | Answer::Undecided { .. } => proofs_whole(alloc, before, output),
        Answer::NoneMapped { array } => proofs_marked(alloc, before, output, array),
        Answer::Found(_)
        | Answer::Mapped { .. }
        | Answer::MapUndecided { .. }
        | Answer::NoRails { .. } => Ok(Vec::new(alloc)),
    }
}

/// The block with the proofs that its answer lists behind some parts.
fn relist(alloc: Global, before: &[Part], block: Block) -> Result<Block, NoMemory>
    requires { All HasFewSteps (map part_of before.now) }
    ensures { IfOk result (λ made. IsRelisted (map part_of before.now) (Answered (parts_of_block block)) (Answered (parts_of_block made))) }
{
    let Block {
        output,
        name,
        answer,
        proofs: _,
    } = block;
    let proofs = proofs_of(alloc, before, output, &answer)?;
    Ok(Block {
        output,
        name,
        answer,
        proofs,
    })
}

/// The part with the proofs that it lists behind some parts, where it is an answer.
fn relist_part(alloc: Global, before: &[Part], part: Part) -> Result<Part, NoMemory>
    requires { All HasFewSteps (map part_of before.now) }
    ensures { IfOk result (λ made. IsRelisted (map part_of before.now) (part_of part) (part_of made)) }
{
    let Part { line, what } = part;
    match what {
        PartKind::Question(section) => Ok(Part {
            line,
            what: PartKind::Question(section),
        }),
        PartKind::Answer(block) => Ok(Part {
            line,
            what: PartKind::Answer(relist(alloc, before, block)?),
        }),
    }
}

/// The parts, each answer with the proofs that it lists behind those before it.
fn relist_all(alloc: Global, parts: Vec<Part>) -> Result<Vec<Part>, NoMemory>
    requires { All HasFewSteps (map part_of parts.items) }
    ensures { IfOk result (λ made. AreRelisted (map part_of parts.items) (map part_of made.items)) }
{
    let mut made = Vec::new(alloc);
    for part in parts {
        let listed = relist_part(alloc, &made, part)?;
        made.push(listed)?;
    }
    Ok(made)
}

/// The journal anew in version 2: the same sections and answers in order, each answer with its list of proofs. Where it
/// is right for a PLA, so is the new one, which may stand in a text. The numbers of lines are those of the old text.
pub fn renewed(alloc: Global, journal: Journal) -> Result<Journal, NoMemory>
    requires journal { IsJournal (parts_of_journal journal) }
    requires few { length (journal_text (parts_of_journal journal)) ≤ 536870912 }
    ensures anew { IfOk result (λ made. IsAnew (parts_of_journal journal) (parts_of_journal made)) }
    ensures right { IfOk result (λ made. (parts : Parts) → Audited parts (parts_of_journal journal) → IsRenewed parts (parts_of_journal journal) (parts_of_journal made)) }
{
    let Journal {
        version: _,
        rails,
        parts,
    } = journal;
    let parts = relist_all(alloc, parts)?;
    Ok(Journal {
        version: Version::Two,
        rails,
        parts,
    })
}

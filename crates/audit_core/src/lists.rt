//! Sections are sought among the parts of a journal.
ghost use Rattle.std.specs.Prelude.{◌≡◌, ◌↔◌, IsTrue, MatchOption};
ghost use Rattle.journal_text.specs.Parts.{Section, Question, section_of, part_of, size_of};
ghost use Rattle.audit_core.specs.Sought.{IsWholeOf, IsMarkedOf, IsSection};

use crate::same::same_arrays;
use journal_text::journal::{Part, PartKind, SectionText};
use journal_text::target::{Close, Target};
use lattice_grid::array::Array;
use lattice_grid::shape::Shape;

/// The section that a part is.
fn section_in(part: &Part) -> Option<&SectionText>
    ensures { MatchOption result ((s : Section) → part_of part.now ≡ Question s → ⊥) (λ s. part_of part.now ≡ Question (section_of s.now)) }
{
    match &part.what {
        PartKind::Question(section) => Some(section),
        PartKind::Answer(_) => None,
    }
}

/// Whether a section is of an output, without array, and closes so.
fn is_whole(section: &SectionText, output: u32, close: Close) -> bool
    ensures { IsTrue result ↔ IsWholeOf output close (section_of section.now) }
{
    match section.target {
        Target::Marked(_) => false,
        Target::Whole(_) => section.output == output && section.close == close,
    }
}

/// Whether a section is of an output and of an array, and closes so.
fn is_marked(section: &SectionText, output: u32, array: &Array, close: Close) -> bool
    ensures { IsTrue result ↔ IsMarkedOf output array.now close (section_of section.now) }
{
    match &section.target {
        Target::Whole(_) => false,
        Target::Marked(other) => section.output == output
            && section.close == close
            && same_arrays(other, array),
    }
}

/// The section of an output, without array, that closes so and that a part is.
pub(crate) fn whole_section(part: &Part, output: u32, close: Close) -> Option<&SectionText>
    ensures { MatchOption result (IsSection (IsWholeOf output close) (part_of part.now) → ⊥)
        (λ s. (part_of part.now ≡ Question (section_of s.now)) × IsWholeOf output close (section_of s.now)) }
{
    let section = section_in(part)?;
    if is_whole(section, output, close) {
        Some(section)
    } else {
        None
    }
}

/// The section of an output and of an array that closes so and that a part is.
pub(crate) fn marked_section<'a>(
    part: &'a Part,
    output: u32,
    array: &Array,
    close: Close,
) -> Option<&'a SectionText>
    ensures { MatchOption result (IsSection (IsMarkedOf output array.now close) (part_of part.now) → ⊥)
        (λ s. (part_of part.now ≡ Question (section_of s.now)) × IsMarkedOf output array.now close (section_of s.now)) }
{
    let section = section_in(part)?;
    if is_marked(section, output, array, close) {
        Some(section)
    } else {
        None
    }
}

/// The shape that a section asks for.
pub(crate) fn shape_of(target: &Target) -> Shape
    ensures { result ≡ size_of target.now }
{
    match target {
        Target::Whole(shape) => *shape,
        Target::Marked(array) => array.shape(),
    }
}

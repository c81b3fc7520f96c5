//! What a journal says, with the numbers of its lines.

use crate::target::{Close, Target};
use lrat_replay::line::Step;
use report_text::answer::{Block, Version};

/// A step, and the line on which it stands.
#[derive(Drop)]
pub struct StepLine {
    pub line: u32,
    pub step: Step,
}

/// A question of an output: what was asked for, the steps in order, how it closed, and the line on which it did.
#[derive(Drop)]
pub struct SectionText {
    pub output: u32,
    pub target: Target,
    pub steps: Vec<StepLine>,
    pub close: Close,
    pub close_line: u32,
}

/// What a part of a journal is.
#[derive(Drop)]
pub enum PartKind {
    /// A question.
    Question(SectionText),
    /// The answer for an output.
    Answer(Block),
}

/// A question or an answer, and the line on which it begins.
#[derive(Drop)]
pub struct Part {
    pub line: u32,
    pub what: PartKind,
}

/// The rails, bit 2i of which allows input i and bit 2i + 1 its complement, and the questions and answers in order.
#[derive(Drop)]
pub struct Journal {
    pub version: Version,
    pub rails: u32,
    pub parts: Vec<Part>,
}

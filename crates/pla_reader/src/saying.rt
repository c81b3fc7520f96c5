//! What lines say.
ghost use Rattle.std.specs.Prelude.{◌≡◌, ℕ, ◌==◌, IsTrue};
ghost use Rattle.pla_reader.specs.Lines.{words_of};
ghost use Rattle.pla_reader.specs.Says.{said_by, said_by_word};
ghost use Rattle.pla_reader.specs.Reading.{is_end};
ghost use Rattle.pla_reader.specs.Views.{line_of, said_of};

use crate::kind::Kind;
use crate::line::{Line, are_printed, visible_of};
use crate::number::number_at;
use crate::word::{is_of_others, kind_at, next_word};

/// What a line says, whatever stands before it.
#[derive(Clone, Copy, Debug)]
pub enum Saying<'a> {
    /// It has a byte that no line may have.
    Spoiled,
    /// Nothing that is looked at.
    Silent,
    /// A word that no PLA has.
    Unknown,
    /// A word of PLAs of other kinds.
    Foreign,
    /// The number of inputs, if it is a number.
    GivesInputs(Option<u32>),
    /// The number of outputs, if it is a number.
    GivesOutputs(Option<u32>),
    /// The type, if it is one.
    GivesKind(Option<Kind>),
    /// The names of the inputs, by the text that has them.
    NamesInputs(&'a [u8]),
    /// The names of the outputs, by the text that has them.
    NamesOutputs(&'a [u8]),
    /// A row, by its text.
    GivesRow(&'a [u8]),
    /// The end of the PLA.
    Ends,
}

impl Saying<'_> {
    /// Whether it is the end of the PLA.
    pub fn is_last(&self) -> bool
        ensures { result ≡ is_end (said_of self.now) }
    {
        matches!(self, Saying::Ends)
    }
}

/// What a word line says, by its first word and the text behind it.
#[tactic(auto, unfolding(crate::specs::Says::said_by_word))]
fn say_word<'a>(word: &[u8], rest: &'a [u8]) -> Saying<'a>
    ensures { said_of result ≡ said_by_word word.now (words_of rest.now) }
{
    if word == b".i".as_slice() {
        Saying::GivesInputs(number_at(rest))
    } else if word == b".o".as_slice() {
        Saying::GivesOutputs(number_at(rest))
    } else if word == b".type".as_slice() {
        Saying::GivesKind(kind_at(rest))
    } else if word == b".ilb".as_slice() {
        Saying::NamesInputs(rest)
    } else if word == b".ob".as_slice() {
        Saying::NamesOutputs(rest)
    } else if word == b".p".as_slice() {
        Saying::Silent
    } else if word == b".e".as_slice() {
        Saying::Ends
    } else if word == b".end".as_slice() {
        Saying::Ends
    } else if is_of_others(word) {
        Saying::Foreign
    } else {
        Saying::Unknown
    }
}

/// What a line says.
pub fn say(line: Line<'_>) -> Saying<'_>
    ensures { said_of result ≡ said_by (line_of line.entry) }
{
    let text = visible_of(line);
    if !are_printed(text) {
        return Saying::Spoiled;
    }
    match next_word(text) {
        None => Saying::Silent,
        Some((word, rest)) => {
            if word[0] == b'.' {
                say_word(word, rest)
            } else {
                Saying::GivesRow(text)
            }
        }
    }
}

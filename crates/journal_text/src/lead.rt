//! The first words of lines.
ghost use Rattle.std.specs.Prelude.{IsTrue, ◌↔◌, ◌<◌, ◌≤◌};
ghost use Rattle.std.specs.Bool.{MatchBool};
ghost use Rattle.journal_text.specs.Reading.{first_word, IsNumber};
ghost use Rattle.journal_text.specs.Lines.{IsLead};

use report_text::text::word_at;

/// What the first word of a line says.
#[derive(Clone, Copy)]
pub(crate) enum Lead {
    Question,
    Closing,
    Output,
    End,
    Number,
    Unknown,
}

/// Whether a byte is a decimal digit.
fn is_digit(byte: u8) -> bool
    ensures { MatchBool result ((48 ≤ byte) × (byte ≤ 57)) (((48 ≤ byte) × (byte ≤ 57)) → ⊥) }
{
    b'0' <= byte && byte <= b'9'
}

/// Whether a word is a number: decimal digits, and no leading zero but in 0 itself.
fn is_number(word: &[u8]) -> bool
    ensures { MatchBool result (IsNumber word.now) (IsNumber word.now → ⊥) }
{
    if word.is_empty() {
        return false;
    }
    if word[0] == b'0' && word.len() > 1 {
        return false;
    }
    word.iter().all(|byte| is_digit(*byte))
}

/// What a word says at the front of a line.
fn lead_word(word: &[u8]) -> Lead
    ensures { IsLead result word.now }
{
    if word == b"question".as_slice() {
        return Lead::Question;
    }
    if word == b"output".as_slice() {
        return Lead::Output;
    }
    if word == b"end".as_slice() {
        return Lead::End;
    }
    if word == b"refuted".as_slice()
        || word == b"spent".as_slice()
        || word == b"satisfied".as_slice()
    {
        return Lead::Closing;
    }
    if is_number(word) {
        Lead::Number
    } else {
        Lead::Unknown
    }
}

/// What the first word of a line says.
pub(crate) fn lead_of(line: &[u8]) -> Lead
    ensures { IsLead result (first_word line.now) }
{
    let (word, _) = word_at(line);
    lead_word(word)
}

//! The words of a line.
ghost use Rattle.std.specs.Prelude.{◌≡◌, ℕ, ◌<◌, ◌≤◌, [], ◌∷◌, length, not, MatchOption, map, if◌then◌else◌, None, Some};
ghost use Rattle.std.specs.List.{position, position_or_len, list_any};
ghost use Rattle.std.specs.Str.{bytes_eq};
ghost use Rattle.pla_reader.specs.Lines.{is_gap, words_of};
ghost use Rattle.pla_reader.specs.Says.{only_of, kind_of, kind_named, is_foreign};

use crate::kind::Kind;

/// Whether a byte is a blank or a tab.
fn parts_words(b: u8) -> bool
    ensures { result ≡ is_gap b }
{
    b == b' ' || b == b'\t'
}

/// The place of the first byte that is no gap.
fn first_solid(text: &[u8]) -> Option<usize>
    ensures { result ≡ position (λ b. not (is_gap b)) text.now }
{
    text.iter().position(|b| !parts_words(*b))
}

/// The place of the first gap.
fn first_gap(text: &[u8]) -> Option<usize>
    ensures { result ≡ position is_gap text.now }
{
    text.iter().position(|b| parts_words(*b))
}

/// The place of the first byte that is no gap, or the length.
fn gap_end(text: &[u8]) -> usize
    ensures same { result ≡ position_or_len (λ b. not (is_gap b)) text.now }
    ensures within { result ≤ length text.now }
{
    first_solid(text).unwrap_or(text.len())
}

/// The place of the first gap, or the length.
fn word_end(text: &[u8]) -> usize
    ensures same { result ≡ position_or_len is_gap text.now }
    ensures within { result ≤ length text.now }
{
    first_gap(text).unwrap_or(text.len())
}

/// The first word, which is not empty, and what follows it: None exactly where there is no word.
pub fn next_word(text: &[u8]) -> Option<(&[u8], &[u8])>
    ensures { MatchOption result (words_of text.now ≡ []) (λ found.
        (0 < length found.0.now) × (words_of text.now ≡ found.0.now ∷ words_of found.1.now)) }
{
    let rest = &text[gap_end(text)..];
    if rest.is_empty() {
        return None;
    }
    let (word, after) = rest.split_at(word_end(rest));
    Some((word, after))
}

/// The word of a text with one word alone.
pub fn only_word(text: &[u8]) -> Option<&[u8]>
    ensures { MatchOption result (only_of (words_of text.now) ≡ None) (λ word. only_of (words_of text.now) ≡ Some word.now) }
{
    let (word, rest) = next_word(text)?;
    match next_word(rest) {
        None => Some(word),
        Some(_) => None,
    }
}

/// The type that a word names.
fn kind_by(word: &[u8]) -> Option<Kind>
    ensures { result ≡ kind_named (Some word.now) }
{
    if word == b"f".as_slice() {
        Some(Kind::F)
    } else if word == b"fd".as_slice() {
        Some(Kind::Fd)
    } else if word == b"fr".as_slice() {
        Some(Kind::Fr)
    } else if word == b"fdr".as_slice() {
        Some(Kind::Fdr)
    } else {
        None
    }
}

/// The type that the only word names.
pub fn kind_at(text: &[u8]) -> Option<Kind>
    ensures { result ≡ kind_of (words_of text.now) }
{
    let word = only_word(text)?;
    kind_by(word)
}

/// Whether the word is one of PLAs of other kinds.
#[tactic(auto, unfolding(crate::specs::Says::is_foreign))]
pub fn is_of_others(word: &[u8]) -> bool
    ensures { result ≡ is_foreign word.now }
{
    if word == b".mv".as_slice() {
        true
    } else if word == b".phase".as_slice() {
        true
    } else if word == b".pair".as_slice() {
        true
    } else if word == b".symbolic".as_slice() {
        true
    } else if word == b".symbolic-output".as_slice() {
        true
    } else if word == b".kiss".as_slice() {
        true
    } else {
        word == b".label".as_slice()
    }
}

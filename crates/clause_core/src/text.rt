//! Lines and words.
ghost use Rattle.std.specs.Prelude.{◌≡◌, ℕ, ◌+◌, ◌-◌, ◌≤◌, ◌<◌, ◌==◌, not, true, false, cond, [], ◌∷◌, length, MatchOption, IfSome, slice_index};
ghost use Rattle.clause_core.specs.Text.{lines_of, words_of, is_blank, IsFront};

/// The first line of a text, what follows it, and whether a line feed ended it.
#[derive(Clone, Copy)]
pub struct Cut<'a> {
    pub line: &'a [u8],
    pub rest: &'a [u8],
    pub ended: bool,
}

/// A word, and what follows it.
#[derive(Clone, Copy)]
pub struct Word<'a> {
    pub bytes: &'a [u8],
    pub rest: &'a [u8],
}

/// Whether a byte separates words.
fn separates(byte: u8) -> bool
    ensures { result ≡ is_blank byte }
{
    byte == b' ' || byte == b'\t' || byte == b'\r' || byte == b'\n'
}

/// How many bytes stand before the first line feed.
fn line_len(text: &[u8]) -> usize
    ensures { IsFront (λ b. b == 10) text.now result }
{
    for (index, byte) in text.iter().enumerate() {
        if *byte == b'\n' {
            return index;
        }
    }
    text.len()
}

/// How many bytes stand before the first separator.
fn word_len(text: &[u8]) -> usize
    ensures { IsFront is_blank text.now result }
{
    for (index, byte) in text.iter().enumerate() {
        if separates(*byte) {
            return index;
        }
    }
    text.len()
}

/// How many separators stand before the first other byte.
fn gap_len(text: &[u8]) -> usize
    ensures { IsFront (λ b. not (is_blank b)) text.now result }
{
    for (index, byte) in text.iter().enumerate() {
        if !separates(*byte) {
            return index;
        }
    }
    text.len()
}

/// Cuts the first line off.
pub fn cut_line(text: &[u8]) -> Cut<'_>
    ensures lines { lines_of text.now ≡ result.line.now ∷ cond result.ended (lines_of result.rest.now) [] }
    ensures last { result.ended ≡ false → result.rest.now ≡ [] }
    ensures shorter { length result.line.now + (length result.rest.now + cond result.ended 1 0) ≡ length text.now }
{
    let end = line_len(text);
    if end < text.len() {
        Cut {
            line: &text[..end],
            rest: &text[end + 1..],
            ended: true,
        }
    } else {
        Cut {
            line: text,
            rest: &[],
            ended: false,
        }
    }
}

/// What a text has from its first word on.
fn skip_gap(text: &[u8]) -> &[u8]
    ensures words { words_of result.now ≡ words_of text.now }
    ensures shorter { length result.now ≤ length text.now }
    ensures begins { 0 < length result.now → is_blank (slice_index result.now 0) ≡ false }
{
    &text[gap_len(text)..]
}

/// Cuts the first word off a text that begins with it.
fn cut_word(text: &[u8]) -> Word<'_>
    requires some { 0 < length text.now }
    requires begins { is_blank (slice_index text.now 0) ≡ false }
    ensures words { words_of text.now ≡ result.bytes.now ∷ words_of result.rest.now }
    ensures some { 0 < length result.bytes.now }
    ensures shorter { length result.bytes.now + length result.rest.now ≡ length text.now }
{
    let end = word_len(text);
    Word {
        bytes: &text[..end],
        rest: &text[end..],
    }
}

/// The first word of a text.
pub fn next_word(text: &[u8]) -> Option<Word<'_>>
    ensures words { MatchOption result (words_of text.now ≡ []) (λ word. words_of text.now ≡ word.bytes.now ∷ words_of word.rest.now) }
    ensures some { IfSome result (λ word. 0 < length word.bytes.now) }
    ensures shorter { IfSome result (λ word. length word.bytes.now + length word.rest.now ≤ length text.now) }
{
    let text = skip_gap(text);
    if text.is_empty() {
        return None;
    }
    Some(cut_word(text))
}

//! The lines of a text.
ghost use Rattle.std.specs.Prelude.{◌≡◌, ℕ, ◌+◌, ◌<◌, ◌≤◌, [], ◌∷◌, length, true, IsTrue, ◌==◌, ◌||◌, if◌then◌else◌};
ghost use Rattle.std.specs.List.{position, position_or_len};
ghost use Rattle.pla_reader.specs.Lines.{Line as LineText, lines_of, line_length, without_return, body, visible, is_clean};
ghost use Rattle.pla_reader.specs.Views.{line_of};

/// A line that stands in a text: its bytes up to the line feed that ends it, if there is one.
#[derive(Clone, Copy, Debug)]
pub struct Line<'a> {
    pub text: &'a [u8],
    pub ended: bool,
}

/// The place of the first such byte.
fn first_place(bytes: &[u8], wanted: u8) -> Option<usize>
    ensures { result ≡ position (λ b. b == wanted) bytes.now }
{
    bytes.iter().position(|b| *b == wanted)
}

/// The place of the first such byte, or the length.
fn place_of(bytes: &[u8], wanted: u8) -> usize
    ensures same { result ≡ position_or_len (λ b. b == wanted) bytes.now }
    ensures within { result ≤ length bytes.now }
{
    first_place(bytes, wanted).unwrap_or(bytes.len())
}

/// The first line, and what follows it.
pub fn line_at(bytes: &[u8]) -> (Line<'_>, &[u8])
    ensures lines { lines_of bytes.now ≡ line_of result.0 ∷ (if result.0.ended then lines_of result.1.now else []) }
    ensures many { line_length (line_of result.0) + length result.1.now ≡ length bytes.now }
{
    let place = place_of(bytes, b'\n');
    if place < bytes.len() {
        let line = Line {
            text: &bytes[..place],
            ended: true,
        };
        (line, &bytes[place + 1..])
    } else {
        let line = Line {
            text: bytes,
            ended: false,
        };
        (line, &bytes[bytes.len()..])
    }
}

/// The text without a carriage return at its end.
fn stripped(text: &[u8]) -> &[u8]
    ensures { result.now ≡ without_return text.now }
{
    if !text.is_empty() && text[text.len() - 1] == b'\r' {
        &text[..text.len() - 1]
    } else {
        text
    }
}

/// The text of a line without a carriage return just before the line feed.
fn body_of(line: Line<'_>) -> &[u8]
    ensures { result.now ≡ body (line_of line.entry) }
{
    if line.ended {
        stripped(line.text)
    } else {
        line.text
    }
}

/// What is read of a line: without a carriage return just before the line feed, and without a comment.
pub fn visible_of(line: Line<'_>) -> &[u8]
    ensures { result.now ≡ visible (line_of line.entry) }
{
    let text = body_of(line);
    &text[..place_of(text, b'#')]
}

/// Whether each byte is a tab or one from the blank to `~`.
pub fn are_printed(text: &[u8]) -> bool
    ensures { result ≡ is_clean text.now }
{
    text.iter()
        .all(|b| *b == b'\t' || (*b >= b' ' && *b <= b'~'))
}

//! Journals are read part by part.
ghost use Rattle.std.specs.Prelude.{◌≡◌, ◌≢◌, ℕ, ◌+◌, ◌≤◌, ◌∷◌, ◌++◌, List, [], length, codes, decimal, MatchOption, MatchResult, OnOk, None};
ghost use Rattle.report_text.specs.Bounds.{AreRails};
ghost use Rattle.report_text.specs.Pieces.{words};
ghost use Rattle.report_text.specs.declared.answer.Version.{Version};
ghost use Rattle.journal_text.specs.Cursor.{HasBegun, ReadsOn};
ghost use Rattle.journal_text.specs.Lines.{AreParts, IsRefusedBehind, first_number};
ghost use Rattle.journal_text.specs.Reading.{title_text, IsRefused};
ghost use Rattle.journal_text.specs.Text.{head_text};
ghost use Rattle.journal_text.specs.declared.journal.Part.{Part as PartRead};
ghost use Rattle.journal_text.specs.declared.refusal.JournalRefusal.{JournalRefusal};

use crate::journal::Part;
use crate::read::{Ahead, part_at};
use crate::refusal::JournalRefusal;
use report_text::answer::{ALL_RAILS, Version};
use report_text::text::{behind, cut, last_number};
use std::alloc::Global;

/// A journal whose head was read, and some of its parts: what is left of its text, and the number of the first line there.
#[derive(Drop)]
pub struct Reader<'a> {
    pub version: Version,
    pub rails: u32,
    pub rest: &'a [u8],
    pub line: u32,
}

/// The version that a first line names.
fn title_of(line: &[u8]) -> Option<Version>
    ensures { MatchOption result ((v : Version) → title_text v ≢ line.now ++ 10 ∷ []) (λ v. title_text v ≡ line.now ++ 10 ∷ []) }
{
    if line == b"lattice journal 1".as_slice() {
        return Some(Version::One);
    }
    if line == b"lattice journal 2".as_slice() {
        return Some(Version::Two);
    }
    None
}

/// The version at the front of a text, and what follows.
fn title_at(bytes: &[u8]) -> Result<(Version, &[u8]), JournalRefusal>
    ensures { MatchResult result
        (λ found. bytes.now ≡ title_text found.0 ++ found.1.now)
        (λ refusal. IsRefused bytes.now refusal) }
{
    let Some((title, rest)) = cut(bytes, b'\n') else {
        return Err(JournalRefusal::Truncated { line: 1 });
    };
    match title_of(title) {
        None => Err(JournalRefusal::Header { line: 1 }),
        Some(version) => Ok((version, rest)),
    }
}

/// The rails that a line gives.
fn rails_of(line: &[u8]) -> Option<u32>
    ensures { MatchOption result
        ((n : ℕ) → n ≤ 1048575 → words line.now ≢ codes "rails" ∷ decimal n ∷ [])
        (λ n. (n ≤ 1048575) × (words line.now ≡ codes "rails" ∷ decimal n ∷ [])) }
{
    last_number(behind(line, b"rails")?, ALL_RAILS)
}

/// The rails on the second line of a text of version 2, at the front of the bytes, and what follows.
fn rails_line(bytes: &[u8]) -> Result<(u32, &[u8]), JournalRefusal>
    ensures { MatchResult result
        (λ found. AreRails Version.Two found.0 × (title_text Version.Two ++ bytes.now ≡ head_text Version.Two found.0 ++ found.1.now))
        (λ refusal. IsRefused (title_text Version.Two ++ bytes.now) refusal) }
{
    let Some((text, rest)) = cut(bytes, b'\n') else {
        return Err(JournalRefusal::Truncated { line: 2 });
    };
    match rails_of(text) {
        None => Err(JournalRefusal::Rails { line: 2 }),
        Some(rails) => Ok((rails, rest)),
    }
}

/// The rails at the front of the bytes, where the version names them, and what follows.
fn rails_at(bytes: &[u8], version: Version) -> Result<(u32, &[u8]), JournalRefusal>
    ensures { MatchResult result
        (λ found. AreRails version found.0 × (title_text version ++ bytes.now ≡ head_text version found.0 ++ found.1.now))
        (λ refusal. IsRefused (title_text version ++ bytes.now) refusal) }
{
    match version {
        Version::One => Ok((ALL_RAILS, bytes)),
        Version::Two => rails_line(bytes),
    }
}

/// The number of the line on which the first part begins, or the last line stands.
fn first_line(version: Version) -> u32
    ensures { result ≡ first_number version }
{
    match version {
        Version::One => 2,
        Version::Two => 3,
    }
}

impl<'a> Reader<'a> {
    /// Reads the head of a journal.
    pub fn new(bytes: &'a [u8]) -> Result<Reader<'a>, JournalRefusal>
        requires { length bytes.now ≤ 536870912 }
        ensures { MatchResult result
            (λ reader. HasBegun bytes.now reader)
            (λ refusal. IsRefused bytes.now refusal) }
    {
        let (version, rest) = title_at(bytes)?;
        let (rails, rest) = rails_at(rest, version)?;
        Ok(Reader {
            version,
            rails,
            rest,
            line: first_line(version),
        })
    }

    /// Reads the next part: None at the last line, where nothing follows. There, and where the text is refused, the
    /// reader stays as it was.
    pub fn next(&mut self, alloc: Global) -> Result<Option<Part>, JournalRefusal>
        requires { self.old.line + length self.old.rest.now ≤ 536870913 }
        ensures { MatchResult result
            (λ found. ReadsOn self.old self.new found)
            (λ refusal. IsRefusedBehind self.old.version self.old.rest.now self.old.line refusal × (self.new ≡ self.old)) }
    {
        let ahead = match part_at(alloc, self.rest, self.line, self.version) {
            Ok(ahead) => ahead,
            Err(refusal) => return Err(refusal),
        };
        match ahead {
            Ahead::End(more) => {
                if more.is_empty() {
                    Ok(None)
                } else {
                    Err(JournalRefusal::Trailing {
                        line: self.line + 1,
                    })
                }
            }
            Ahead::Part { part, rest, next } => {
                self.rest = rest;
                self.line = next;
                Ok(Some(part))
            }
        }
    }

    /// Whether nothing but parts and the last line is left: why the text is refused, where it is not so. The reader stays.
    pub fn finish(&self, alloc: Global) -> Result<(), JournalRefusal>
        requires { self.now.line + length self.now.rest.now ≤ 536870913 }
        ensures { MatchResult result
            (λ _. (later : List PartRead) × AreParts self.now.version self.now.line self.now.rest.now later)
            (λ refusal. IsRefusedBehind self.now.version self.now.rest.now self.now.line refusal) }
    {
        let mut left = Reader {
            version: self.version,
            rails: self.rails,
            rest: self.rest,
            line: self.line,
        };
        while let Some(_part) = left.next(alloc)? {}
        Ok(())
    }
}

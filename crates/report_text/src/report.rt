//! Reports are read.
ghost use Rattle.std.specs.Prelude.{◌≡◌, ◌≢◌, ℕ, ◌+◌, ◌≤◌, ◌∷◌, List, map, MatchOption, MatchResult, IfOk, IfErr, IsErrOf, ◌⊎◌, Result, Ok, Err, ◌++◌, [], length, codes, decimal};
ghost use Rattle.pla_reader.specs.Names.{bytes_of};
ghost use Rattle.report_text.specs.Bounds.{AreNames, AreRails, IsReport};
ghost use Rattle.report_text.specs.Expected.{Expected, AreBlocks, Stops, refusal_of, report_expected, inputs_expected, rails_expected, blocks_expected};
ghost use Rattle.report_text.specs.Pieces.{words, feeds};
ghost use Rattle.report_text.specs.Reading.{Gives, seen, IsRefused};
ghost use Rattle.report_text.specs.declared.answer.Version.{Version};
ghost use Rattle.report_text.specs.declared.report.ReportRefusal.{ReportRefusal};
ghost use Rattle.report_text.specs.Report.{ReportParts, parts_of_block, parts_of_report, title_line, inputs_line, rails_lines, text_of, title_words, report_text};

use crate::answer::{ALL_RAILS, Block, Report, Version};
use crate::block::{BlockFault, block_at};
use crate::line::names_of;
use crate::text::{behind, cut, last_number, strip};
use pla_reader::name::Name;
use std::alloc::{AllocFailed, Global};
use wire_io::fault::NoMemory as OutOfMemory;

/// Why a text is refused: the first faulty line.
#[derive(Clone, Copy, Debug, PartialEq, Eq)]
pub enum ReportRefusal {
    /// It is not the first line of a report.
    Header { line: u32 },
    /// It does not give one to ten names.
    Inputs { line: u32 },
    /// It does not give the rails.
    Rails { line: u32 },
    /// It is neither the first line of a block nor the last line.
    Block { line: u32 },
    /// It is no row of the lattice.
    Grid { line: u32 },
    /// It does not list the block's proofs.
    Proofs { line: u32 },
    /// It follows the last line.
    Trailing { line: u32 },
    /// It has no line feed.
    Truncated { line: u32 },
    /// There was no memory for the report.
    NoMemory,
}

impl From<OutOfMemory> for ReportRefusal {
    ghost use Rattle.report_text.specs.declared.report.ReportRefusal.TheVariants.{NoMemory};

    ghost from_gives = { λ _ refusal. refusal ≡ NoMemory };

    fn from(_: OutOfMemory) -> Self {
        ReportRefusal::NoMemory
    }
}

impl<T: Drop> From<AllocFailed<T>> for ReportRefusal {
    ghost use Rattle.report_text.specs.declared.report.ReportRefusal.TheVariants.{NoMemory};

    ghost from_gives = { λ _ refusal. refusal ≡ NoMemory };

    fn from(_: AllocFailed<T>) -> Self {
        ReportRefusal::NoMemory
    }
}

/// The refusal of a report in which a block is faulty.
fn refused(fault: BlockFault) -> ReportRefusal
    ensures { result ≡ refusal_of fault }
{
    match fault {
        BlockFault::Block { line } => ReportRefusal::Block { line },
        BlockFault::Grid { line } => ReportRefusal::Grid { line },
        BlockFault::Proofs { line } => ReportRefusal::Proofs { line },
        BlockFault::Truncated { line } => ReportRefusal::Truncated { line },
        BlockFault::NoMemory => ReportRefusal::NoMemory,
    }
}

/// The version that a first line names.
fn version_of(line: &[u8]) -> Option<Version>
    ensures { MatchOption result ((v : Version) → words line.now ≢ title_words v) (λ v. words line.now ≡ title_words v) }
{
    if line == b"lattice report 1".as_slice() {
        return Some(Version::One);
    }
    if line == b"lattice report 2".as_slice() {
        return Some(Version::Two);
    }
    None
}

/// The version at the front of a text, and what follows.
fn title_at(bytes: &[u8]) -> Result<(Version, &[u8]), ReportRefusal>
    ensures { MatchResult result
        (λ found. bytes.now ≡ text_of (title_line found.0 ∷ []) ++ found.1.now)
        (λ refusal. Stops report_expected bytes.now 1 refusal) }
{
    let Some((title, rest)) = cut(bytes, b'\n') else {
        return Err(ReportRefusal::Truncated { line: 1 });
    };
    match version_of(title) {
        None => Err(ReportRefusal::Header { line: 1 }),
        Some(version) => Ok((version, rest)),
    }
}

/// The names on the second line of a text, at the front of the bytes, and what follows.
fn inputs_at(alloc: Global, bytes: &[u8]) -> Result<(Vec<Name>, &[u8]), ReportRefusal>
    ensures { MatchResult result
        (λ found. AreNames (map bytes_of found.0.items) × (bytes.now ≡ text_of (inputs_line (map bytes_of found.0.items) ∷ []) ++ found.1.now))
        (λ refusal. (later : List Expected) → Stops (inputs_expected ++ later) bytes.now 2 refusal) }
{
    let Some((text, rest)) = cut(bytes, b'\n') else {
        return Err(ReportRefusal::Truncated { line: 2 });
    };
    match names_of(alloc, text)? {
        None => Err(ReportRefusal::Inputs { line: 2 }),
        Some(names) => Ok((names, rest)),
    }
}

/// The rails that a line gives.
fn rails_of(line: &[u8]) -> Option<u32>
    ensures { MatchOption result
        ((n : ℕ) → n ≤ 1048575 → words line.now ≢ codes "rails" ∷ decimal n ∷ [])
        (λ n. (n ≤ 1048575) × (words line.now ≡ codes "rails" ∷ decimal n ∷ [])) }
{
    last_number(behind(line, b"rails")?, ALL_RAILS)
}

/// The rails on the third line of a text of version 2, at the front of the bytes, and what follows.
fn rails_line(bytes: &[u8]) -> Result<(u32, &[u8]), ReportRefusal>
    ensures { MatchResult result
        (λ found. AreRails Version.Two found.0 × (bytes.now ≡ text_of (rails_lines Version.Two found.0) ++ found.1.now))
        (λ refusal. (later : List Expected) → Stops (rails_expected Version.Two ++ later) bytes.now 3 refusal) }
{
    let Some((text, rest)) = cut(bytes, b'\n') else {
        return Err(ReportRefusal::Truncated { line: 3 });
    };
    match rails_of(text) {
        None => Err(ReportRefusal::Rails { line: 3 }),
        Some(rails) => Ok((rails, rest)),
    }
}

/// The rails at the front of the bytes, where the version names them, and what follows.
fn rails_at(bytes: &[u8], version: Version) -> Result<(u32, &[u8]), ReportRefusal>
    ensures { MatchResult result
        (λ found. AreRails version found.0 × (bytes.now ≡ text_of (rails_lines version found.0) ++ found.1.now))
        (λ refusal. (later : List Expected) → Stops (rails_expected version ++ later) bytes.now 3 refusal) }
{
    match version {
        Version::One => Ok((ALL_RAILS, bytes)),
        Version::Two => rails_line(bytes),
    }
}

/// The number of the line on which the first block begins, or the last line stands.
fn first_line(version: Version) -> u32
    ensures { result ≡ 3 + length (rails_expected version) }
{
    match version {
        Version::One => 3,
        Version::Two => 4,
    }
}

/// The blocks at the front of the bytes, which begin at the line `first`, where the last line and nothing else follows.
fn blocks_at(
    alloc: Global,
    bytes: &[u8],
    first: u32,
    version: Version,
) -> Result<Vec<Block>, ReportRefusal>
    requires { first + length bytes.now ≤ 536870913 }
    ensures { MatchResult result
        (λ blocks. AreBlocks version bytes.now (map parts_of_block blocks.items))
        (λ refusal. Stops (blocks_expected version) bytes.now first refusal) }
{
    let mut blocks = Vec::new(alloc);
    let mut rest = bytes;
    let mut line = first;
    loop {
        if let Some(more) = strip(rest, b"end\n") {
            return if more.is_empty() {
                Ok(blocks)
            } else {
                Err(ReportRefusal::Trailing { line: line + 1 })
            };
        }
        match block_at(alloc, rest, line, version) {
            Err(fault) => return Err(refused(fault)),
            Ok((block, after)) => {
                line += block.lines(version);
                blocks.push(block)?;
                rest = after;
            }
        }
    }
}

/// The report that the text spells, or the first fault.
fn spelled(alloc: Global, bytes: &[u8]) -> Result<Report, ReportRefusal>
    requires { length bytes.now ≤ 536870912 }
    ensures { MatchResult result
        (λ report. Gives bytes.now (Ok (parts_of_report report)))
        (λ refusal. Stops report_expected bytes.now 1 refusal) }
{
    let (version, rest) = title_at(bytes)?;
    let (input_names, rest) = inputs_at(alloc, rest)?;
    let (rails, rest) = rails_at(rest, version)?;
    let blocks = blocks_at(alloc, rest, first_line(version), version)?;
    Ok(Report {
        version,
        rails,
        input_names,
        blocks,
    })
}

/// The report that the text spells, or why it spells none: the first faulty line.
pub fn read_report(alloc: Global, bytes: &[u8]) -> Result<Report, ReportRefusal>
    requires { length bytes.now ≤ 536870912 }
    ensures found { IfOk result (λ report. Gives bytes.now (Ok (parts_of_report report))) }
    ensures refused { IfErr result (λ refusal. refusal ≢ ReportRefusal.NoMemory → IsRefused bytes.now refusal) }
    ensures only { (given : Result ReportParts ReportRefusal) → Gives bytes.now given → IsErrOf result ReportRefusal.NoMemory ⊎ (seen result ≡ given) }
    ensures again { (report : ReportParts) → IsReport report → bytes.now ≡ report_text report → IsErrOf result ReportRefusal.NoMemory ⊎ (seen result ≡ Ok report) }
    ensures cut_short { (report : ReportParts) (more : List ℕ) → IsReport report → more ≢ [] → report_text report ≡ bytes.now ++ more →
        IsErrOf result ReportRefusal.NoMemory ⊎ (seen result ≡ Err (ReportRefusal.Truncated (1 + feeds bytes.now))) }
{
    spelled(alloc, bytes)
}

/// A text gives one answer: it spells one report, or it has one refusal.
pub fn one_answer()
    ensures { (text : List ℕ) (one other : Result ReportParts ReportRefusal) → Gives text one → Gives text other → one ≡ other }
{}

/// Each text gives an answer: it spells a report, or it is refused.
pub fn some_answer()
    ensures { (text : List ℕ) → (given : Result ReportParts ReportRefusal) × Gives text given }
{}

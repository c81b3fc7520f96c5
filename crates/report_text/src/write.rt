//! Reports are written.
ghost use Rattle.std.specs.Prelude.{◌≡◌, ◌*◌, ◌<◌, ◌≤◌, ◌++◌, ◌∷◌, All, OnOk, codes, decimal, map, take, drop, Some};
ghost use Rattle.std.specs.List.{flat_map};
ghost use Rattle.std.specs.Option.{option_copied};
ghost use Rattle.wire_io.specs.Causes.{HasCause};
ghost use Rattle.wire_io.specs.Told.{Gains, GainsFront};
ghost use Rattle.lattice_grid.specs.Control.{NamesBelow};
ghost use Rattle.lattice_grid.specs.declared.array.Defect.{Defect};
ghost use Rattle.pla_reader.specs.Names.{bytes_of};
ghost use Rattle.report_text.specs.Bounds.{IsBlock, IsReport, AreNames, AreRails};
ghost use Rattle.report_text.specs.Cells.{control_text, defect_byte, array_text, size_text, proof_text, rows_of};
ghost use Rattle.report_text.specs.Form.{form_of, lattice_of, lists};
ghost use Rattle.report_text.specs.Report.{heading_of, heading_words, lattice_lines, proofs_lines, title_line, inputs_line, rails_lines, words_text, text_of, block_text, head_text, report_text, parts_of_block, parts_of_report};
ghost use Rattle.report_text.specs.Writing.{Puts, word_text, behind_blanks};
ghost use Rattle.report_text.specs.declared.answer.Version.TheVariants.{Two};

use crate::answer::{Answer, Block, Proof, Report, Version};
use indexmap::IndexSet;
use itoa::Buffer as Digits;
use lattice_grid::array::{Array, Defect};
use lattice_grid::control::Control;
use lattice_grid::grid::Grid;
use lattice_grid::shape::{Place, Shape};
use pla_reader::name::Name;
use wire_io::buffer::Buffer;
use wire_io::fault::Failed;
use wire_io::sink::{Sink, write_all};

/// What can be written as a word.
trait Spelled {
    ghost use Rattle.std.specs.Prelude.{ℕ, List};

    /// The word.
    ghost text: { Self → List ℕ };

    /// Puts the word.
    fn put<K: Sink>(&self, buffer: &mut Buffer, sink: &mut K) -> Result<(), Failed>
        ensures { Puts (K.got sink.old) (K.got sink.new) buffer.old buffer.new (K.faults sink.old) (K.faults sink.new) result (text self.now) };
}

/// A word that is not listed.
#[derive(Drop)]
enum Word<'a> {
    Text(&'a [u8]),
    Number(u32),
    Size(Shape),
    Rows(&'a Array),
}

/// Puts the numbers of rows and columns, joined by the letter x.
pub fn put_size<K: Sink>(buffer: &mut Buffer, sink: &mut K, shape: Shape) -> Result<(), Failed>
    ensures { Puts (K.got sink.old) (K.got sink.new) buffer.old buffer.new (K.faults sink.old) (K.faults sink.new) result (size_text shape) }
{
    let mut rows_digits = Digits::new();
    let mut cols_digits = Digits::new();
    let rows = rows_digits.format(shape.rows()).as_bytes();
    let cols = cols_digits.format(shape.cols()).as_bytes();
    buffer.put_all(sink, &[rows, b"x", cols])
}

/// Puts a number behind a lead.
pub fn put_number<K: Sink>(
    buffer: &mut Buffer,
    sink: &mut K,
    lead: &[u8],
    number: u32,
) -> Result<(), Failed>
    ensures { Puts (K.got sink.old) (K.got sink.new) buffer.old buffer.new (K.faults sink.old) (K.faults sink.new) result (lead.now ++ decimal number) }
{
    let mut digits = Digits::new();
    buffer.put_all(sink, &[lead, digits.format(number).as_bytes()])
}

/// The byte of a defect.
fn byte_of(defect: Defect) -> u8
    ensures { result ≡ defect_byte defect }
{
    match defect {
        Defect::Sound => b'.',
        Defect::StuckOpen => b'o',
        Defect::StuckClosed => b'c',
    }
}

/// Puts the bytes of a row of an array, which is to be inside.
fn put_defects<K: Sink>(
    buffer: &mut Buffer,
    sink: &mut K,
    array: &Array,
    row: u32,
) -> Result<(), Failed>
    requires { row < array.now.size.rows }
    ensures { Puts (K.got sink.old) (K.got sink.new) buffer.old buffer.new (K.faults sink.old) (K.faults sink.new) result
        (map defect_byte (take array.now.size.cols (drop (row * array.now.size.cols) array.now.cells))) }
{
    for col in 0..array.shape().cols() {
        let byte = byte_of(array.at(Place { row, col }));
        buffer.put(sink, &[byte])?;
    }
    Ok(())
}

/// Puts a lead, and the bytes of a row of an array.
fn put_array_row<K: Sink>(
    buffer: &mut Buffer,
    sink: &mut K,
    lead: &[u8],
    array: &Array,
    row: u32,
) -> Result<(), Failed>
    requires { row < array.now.size.rows }
    ensures { Puts (K.got sink.old) (K.got sink.new) buffer.old buffer.new (K.faults sink.old) (K.faults sink.new) result
        (lead.now ++ map defect_byte (take array.now.size.cols (drop (row * array.now.size.cols) array.now.cells))) }
{
    buffer.put(sink, lead)?;
    put_defects(buffer, sink, array, row)
}

/// Puts the rows of an array, joined by `/`, a byte for each switch, as `read_rows` reads them.
pub fn put_array<K: Sink>(buffer: &mut Buffer, sink: &mut K, array: &Array) -> Result<(), Failed>
    ensures { Puts (K.got sink.old) (K.got sink.new) buffer.old buffer.new (K.faults sink.old) (K.faults sink.new) result (array_text array.now) }
{
    let mut lead: &[u8] = b"";
    for row in 0..array.shape().rows() {
        put_array_row(buffer, sink, lead, array, row)?;
        lead = b"/";
    }
    Ok(())
}

impl Spelled for Word<'_> {
    ghost use Rattle.report_text.specs.Writing.{word_text};

    ghost text = { word_text };

    fn put<K: Sink>(&self, buffer: &mut Buffer, sink: &mut K) -> Result<(), Failed> {
        match self {
            Word::Text(bytes) => buffer.put(sink, bytes),
            Word::Number(number) => put_number(buffer, sink, b"", *number),
            Word::Size(shape) => put_size(buffer, sink, *shape),
            Word::Rows(array) => put_array(buffer, sink, array),
        }
    }
}

impl Spelled for Name {
    ghost use Rattle.pla_reader.specs.Names.{bytes_of};

    ghost text = { bytes_of };

    fn put<K: Sink>(&self, buffer: &mut Buffer, sink: &mut K) -> Result<(), Failed> {
        buffer.put(sink, self.bytes())
    }
}

impl Spelled for Proof {
    ghost use Rattle.report_text.specs.Cells.{proof_text};

    ghost text = { proof_text };

    fn put<K: Sink>(&self, buffer: &mut Buffer, sink: &mut K) -> Result<(), Failed> {
        put_size(buffer, sink, self.shape)?;
        put_number(buffer, sink, b":", self.steps)
    }
}

/// Puts a word behind a blank.
fn put_word<T: Spelled, K: Sink>(buffer: &mut Buffer, sink: &mut K, word: &T) -> Result<(), Failed>
    ensures { Puts (K.got sink.old) (K.got sink.new) buffer.old buffer.new (K.faults sink.old) (K.faults sink.new) result (32 ∷ T.text word.now) }
{
    buffer.put(sink, b" ")?;
    word.put(buffer, sink)
}

/// Puts words, each behind a blank.
fn put_words<T: Spelled, K: Sink>(
    buffer: &mut Buffer,
    sink: &mut K,
    words: &[T],
) -> Result<(), Failed>
    ensures { Puts (K.got sink.old) (K.got sink.new) buffer.old buffer.new (K.faults sink.old) (K.faults sink.new) result (behind_blanks T.text words.now) }
{
    for word in words {
        put_word(buffer, sink, word)?;
    }
    Ok(())
}

/// Puts a line: its first word, the others, and a line feed.
fn put_line<T: Spelled, K: Sink>(
    buffer: &mut Buffer,
    sink: &mut K,
    first: &[u8],
    others: &[T],
) -> Result<(), Failed>
    ensures { Puts (K.got sink.old) (K.got sink.new) buffer.old buffer.new (K.faults sink.old) (K.faults sink.new) result
        (words_text (first.now ∷ map T.text others.now)) }
{
    buffer.put(sink, first)?;
    put_words(buffer, sink, others)?;
    buffer.put(sink, b"\n")
}

/// Puts a cell behind a lead.
fn put_cell<K: Sink>(
    buffer: &mut Buffer,
    sink: &mut K,
    lead: &[u8],
    control: Control,
) -> Result<(), Failed>
    requires { NamesBelow 10 control }
    ensures { Puts (K.got sink.old) (K.got sink.new) buffer.old buffer.new (K.faults sink.old) (K.faults sink.new) result (lead.now ++ control_text control) }
{
    match control {
        Control::Zero => buffer.put_all(sink, &[lead, b"0"]),
        Control::One => buffer.put_all(sink, &[lead, b"1"]),
        Control::Plain(input) => buffer.put_all(sink, &[lead, b"x", &[b'0' + input]]),
        Control::Bar(input) => buffer.put_all(sink, &[lead, b"x", &[b'0' + input], b"'"]),
    }
}

/// Puts the line of a row.
fn put_row<K: Sink>(buffer: &mut Buffer, sink: &mut K, cells: &[Control]) -> Result<(), Failed>
    requires { All (NamesBelow 10) cells.now }
    ensures { Puts (K.got sink.old) (K.got sink.new) buffer.old buffer.new (K.faults sink.old) (K.faults sink.new) result (words_text (map control_text cells.now)) }
{
    let mut lead: &[u8] = b"";
    for cell in cells {
        put_cell(buffer, sink, lead, *cell)?;
        lead = b" ";
    }
    buffer.put(sink, b"\n")
}

/// Puts the lines of a lattice.
fn put_grid<K: Sink>(buffer: &mut Buffer, sink: &mut K, grid: &Grid) -> Result<(), Failed>
    ensures { Puts (K.got sink.old) (K.got sink.new) buffer.old buffer.new (K.faults sink.old) (K.faults sink.new) result (text_of (lattice_lines (Some grid.now))) }
{
    for row in 0..grid.shape().rows() {
        put_row(buffer, sink, grid.row(row))?;
    }
    Ok(())
}

/// Puts the lines of a lattice, where there is one.
fn put_lattice<K: Sink>(
    buffer: &mut Buffer,
    sink: &mut K,
    grid: Option<&Grid>,
) -> Result<(), Failed>
    ensures { Puts (K.got sink.old) (K.got sink.new) buffer.old buffer.new (K.faults sink.old) (K.faults sink.new) result (text_of (lattice_lines (option_copied grid.entry))) }
{
    match grid {
        None => Ok(()),
        Some(grid) => put_grid(buffer, sink, grid),
    }
}

/// Puts the first line of a block.
fn put_heading<K: Sink>(buffer: &mut Buffer, sink: &mut K, block: &Block) -> Result<(), Failed>
    ensures { Puts (K.got sink.old) (K.got sink.new) buffer.old buffer.new (K.faults sink.old) (K.faults sink.new) result
        (words_text (heading_words (heading_of (parts_of_block block.now)))) }
{
    let output = Word::Number(block.output);
    let name = Word::Text(block.name.bytes());
    match &block.answer {
        Answer::Found(grid) => {
            let form = [output, name, Word::Text(b"found"), Word::Size(grid.shape())];
            put_line(buffer, sink, b"output", &form)
        }
        Answer::Minimum(grid) => {
            let form = [
                output,
                name,
                Word::Text(b"minimum"),
                Word::Size(grid.shape()),
            ];
            put_line(buffer, sink, b"output", &form)
        }
        Answer::Undecided {
            grid,
            least,
            at,
            after,
        } => {
            let form = [
                output,
                name,
                Word::Text(b"undecided"),
                Word::Size(grid.shape()),
                Word::Text(b"least"),
                Word::Number(*least),
                Word::Text(b"at"),
                Word::Size(*at),
                Word::Text(b"after"),
                Word::Number(*after),
            ];
            put_line(buffer, sink, b"output", &form)
        }
        Answer::Mapped { array, .. } => {
            let form = [
                output,
                name,
                Word::Text(b"mapped"),
                Word::Size(array.shape()),
                Word::Rows(array),
            ];
            put_line(buffer, sink, b"output", &form)
        }
        Answer::NoneMapped { array } => {
            let form = [
                output,
                name,
                Word::Text(b"none"),
                Word::Size(array.shape()),
                Word::Rows(array),
            ];
            put_line(buffer, sink, b"output", &form)
        }
        Answer::MapUndecided { array, after } => {
            let form = [
                output,
                name,
                Word::Text(b"stopped"),
                Word::Size(array.shape()),
                Word::Rows(array),
                Word::Text(b"after"),
                Word::Number(*after),
            ];
            put_line(buffer, sink, b"output", &form)
        }
        Answer::NoRails { on, off } => {
            let form = [
                output,
                name,
                Word::Text(b"norails"),
                Word::Number(u32::from(on.number())),
                Word::Number(u32::from(off.number())),
            ];
            put_line(buffer, sink, b"output", &form)
        }
    }
}

/// Puts the line of proofs, where one is to follow.
fn put_proofs<K: Sink>(
    buffer: &mut Buffer,
    sink: &mut K,
    follow: bool,
    proofs: &[Proof],
) -> Result<(), Failed>
    ensures { Puts (K.got sink.old) (K.got sink.new) buffer.old buffer.new (K.faults sink.old) (K.faults sink.new) result (text_of (proofs_lines follow proofs.now)) }
{
    if follow {
        put_line(buffer, sink, b"refuted", proofs)
    } else {
        Ok(())
    }
}

/// Puts the lines of a block behind its first one.
fn put_body<K: Sink>(
    buffer: &mut Buffer,
    sink: &mut K,
    block: &Block,
    version: Version,
) -> Result<(), Failed>
    ensures { Puts (K.got sink.old) (K.got sink.new) buffer.old buffer.new (K.faults sink.old) (K.faults sink.new) result
        (text_of (lattice_lines (lattice_of block.now.answer) ++ proofs_lines (lists version (form_of block.now.answer)) block.now.proofs.items)) }
{
    put_lattice(buffer, sink, block.answer.grid())?;
    let follow = block.answer.lists_proofs(version);
    put_proofs(buffer, sink, follow, &block.proofs)
}

/// Puts the lines of a block.
pub fn put_block<K: Sink>(
    buffer: &mut Buffer,
    sink: &mut K,
    block: &Block,
    version: Version,
) -> Result<(), Failed>
    ensures { Puts (K.got sink.old) (K.got sink.new) buffer.old buffer.new (K.faults sink.old) (K.faults sink.new) result (block_text version (parts_of_block block.now)) }
{
    put_heading(buffer, sink, block)?;
    put_body(buffer, sink, block, version)
}

/// Writes the block of an output in a text of version 2, or a front of it where the sink fails.
pub fn write_block<K: Sink>(sink: &mut K, block: &Block) -> Result<(), Failed>
    requires { IsBlock Two (parts_of_block block.now) }
    ensures ok { OnOk result (Gains (K.got sink.old) (K.got sink.new) (block_text Two (parts_of_block block.now))) }
    ensures front { GainsFront (K.got sink.old) (K.got sink.new) (block_text Two (parts_of_block block.now)) }
    ensures cause { HasCause (K.faults sink.old) (K.faults sink.new) result }
{
    let mut buffer = Buffer::new();
    put_block(&mut buffer, sink, block, Version::Two)?;
    buffer.flush(sink)
}

/// Puts the first line of a report.
fn put_title<K: Sink>(buffer: &mut Buffer, sink: &mut K, version: Version) -> Result<(), Failed>
    ensures { Puts (K.got sink.old) (K.got sink.new) buffer.old buffer.new (K.faults sink.old) (K.faults sink.new) result (words_text (title_line version).words) }
{
    match version {
        Version::One => buffer.put(sink, b"lattice report 1\n"),
        Version::Two => buffer.put(sink, b"lattice report 2\n"),
    }
}

/// Puts the line of the rails, where the version has one.
fn put_rails<K: Sink>(
    buffer: &mut Buffer,
    sink: &mut K,
    version: Version,
    rails: u32,
) -> Result<(), Failed>
    ensures { Puts (K.got sink.old) (K.got sink.new) buffer.old buffer.new (K.faults sink.old) (K.faults sink.new) result (text_of (rails_lines version rails)) }
{
    match version {
        Version::One => Ok(()),
        Version::Two => put_line(buffer, sink, b"rails", &[Word::Number(rails)]),
    }
}

/// Puts the lines before the blocks.
fn put_head<K: Sink>(
    buffer: &mut Buffer,
    sink: &mut K,
    version: Version,
    rails: u32,
    names: &[Name],
) -> Result<(), Failed>
    ensures { Puts (K.got sink.old) (K.got sink.new) buffer.old buffer.new (K.faults sink.old) (K.faults sink.new) result (head_text version rails (map bytes_of names.now)) }
{
    put_title(buffer, sink, version)?;
    put_line(buffer, sink, b"inputs", names)?;
    put_rails(buffer, sink, version, rails)
}

/// Writes the three lines before the blocks of a text of version 2, with one to ten names and rails of at most
/// `ALL_RAILS`, or a front of them where the sink fails.
pub fn write_head<K: Sink>(sink: &mut K, names: &IndexSet<Name>, rails: u32) -> Result<(), Failed>
    requires names { AreNames (map bytes_of names.now.keys) }
    requires rails { rails ≤ 1048575 }
    ensures ok { OnOk result (Gains (K.got sink.old) (K.got sink.new) (head_text Two rails (map bytes_of names.now.keys))) }
    ensures front { GainsFront (K.got sink.old) (K.got sink.new) (head_text Two rails (map bytes_of names.now.keys)) }
    ensures cause { HasCause (K.faults sink.old) (K.faults sink.new) result }
{
    let mut buffer = Buffer::new();
    put_head(&mut buffer, sink, Version::Two, rails, names.as_slice())?;
    buffer.flush(sink)
}

/// Writes the last line, or a front of it where the sink fails.
pub fn write_end<K: Sink>(sink: &mut K) -> Result<(), Failed>
    ensures ok { OnOk result (Gains (K.got sink.old) (K.got sink.new) (codes "end\n")) }
    ensures front { GainsFront (K.got sink.old) (K.got sink.new) (codes "end\n") }
    ensures cause { HasCause (K.faults sink.old) (K.faults sink.new) result }
{
    write_all(sink, b"end\n")
}

/// Puts the lines of blocks.
fn put_blocks<K: Sink>(
    buffer: &mut Buffer,
    sink: &mut K,
    blocks: &[Block],
    version: Version,
) -> Result<(), Failed>
    ensures { Puts (K.got sink.old) (K.got sink.new) buffer.old buffer.new (K.faults sink.old) (K.faults sink.new) result (flat_map (λ b. block_text version (parts_of_block b)) blocks.now) }
{
    for block in blocks {
        put_block(buffer, sink, block, version)?;
    }
    Ok(())
}

/// Puts the lines of a report.
fn put_report<K: Sink>(buffer: &mut Buffer, sink: &mut K, report: &Report) -> Result<(), Failed>
    ensures { Puts (K.got sink.old) (K.got sink.new) buffer.old buffer.new (K.faults sink.old) (K.faults sink.new) result (report_text (parts_of_report report.now)) }
{
    put_head(
        buffer,
        sink,
        report.version,
        report.rails,
        &report.input_names,
    )?;
    put_blocks(buffer, sink, &report.blocks, report.version)?;
    buffer.put(sink, b"end\n")
}

/// Writes a report as a text of its version, or a front of it where the sink fails.
pub fn write_report<K: Sink>(sink: &mut K, report: &Report) -> Result<(), Failed>
    requires { IsReport (parts_of_report report.now) }
    ensures ok { OnOk result (Gains (K.got sink.old) (K.got sink.new) (report_text (parts_of_report report.now))) }
    ensures front { GainsFront (K.got sink.old) (K.got sink.new) (report_text (parts_of_report report.now)) }
    ensures cause { HasCause (K.faults sink.old) (K.faults sink.new) result }
{
    let mut buffer = Buffer::new();
    put_report(&mut buffer, sink, report)?;
    buffer.flush(sink)
}

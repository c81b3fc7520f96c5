//! Blocks are read.
ghost use Rattle.std.specs.Prelude.{◌≡◌, ◌≢◌, ℕ, ◌+◌, ◌*◌, ◌≤◌, ◌++◌, List, All, MatchResult, MatchOption, IfOk, IfErr, IfSome, IsErrOf, ◌⊎◌, Err, length, drop, true};
ghost use Rattle.std.specs.Result.{IsOkAnd};
ghost use Rattle.lattice_grid.specs.Control.{NamesBelow};
ghost use Rattle.report_text.specs.Expected.{Expected, HasLattice, HasCells, HasProofs, Stops, refusal_of, rows_expected, cells_expected, proofs_expected, block_expected, answer_with};
ghost use Rattle.report_text.specs.Form.{lattice_size};
ghost use Rattle.report_text.specs.Reading.{HasBlock, IsBlockFault};
ghost use Rattle.report_text.specs.Report.{BlockParts, parts_of_block};
ghost use Rattle.report_text.specs.declared.block.BlockFault.{BlockFault};

use crate::answer::{Answer, Block, Proof, Version};
use crate::form::{Form, lattice_shape};
use crate::heading::{Heading, heading_of};
use crate::line::{add_row, proofs_of};
use crate::text::cut;
use lattice_grid::control::Control;
use lattice_grid::grid::Grid;
use lattice_grid::shape::Shape;
use std::alloc::Global;
use wire_io::fault::NoMemory as OutOfMemory;

/// Why no block is read: the first faulty line.
#[derive(Clone, Copy, Debug, PartialEq, Eq)]
pub enum BlockFault {
    /// The line is no first line of a block.
    Block { line: u32 },
    /// The line is no row of the block's lattice.
    Grid { line: u32 },
    /// The line does not list the block's proofs.
    Proofs { line: u32 },
    /// The line has no line feed.
    Truncated { line: u32 },
    /// There was no memory for the block.
    NoMemory,
}

impl From<OutOfMemory> for BlockFault {
    ghost use Rattle.report_text.specs.declared.block.BlockFault.TheVariants.{NoMemory};

    ghost from_gives = { λ _ fault. fault ≡ NoMemory };

    fn from(_: OutOfMemory) -> Self {
        BlockFault::NoMemory
    }
}

/// The cells of the rows at the front of the bytes, of which the first is on the line `first`, and what follows.
fn rows_at(
    alloc: Global,
    shape: Shape,
    bytes: &[u8],
    first: u32,
) -> Result<(Vec<Control>, &[u8]), BlockFault>
    requires { first ≤ 536870914 }
    ensures { MatchResult result
        (λ found. HasLattice shape bytes.now found.0.items found.1.now)
        (λ fault. (later : List Expected) → Stops (rows_expected shape ++ later) bytes.now first (refusal_of fault)) }
{
    let mut cells = Vec::new(alloc);
    let mut rest = bytes;
    for row in 0..shape.rows() {
        let line = first + row;
        let Some((text, after)) = cut(rest, b'\n') else {
            return Err(BlockFault::Truncated { line });
        };
        if !add_row(&mut cells, text, shape.cols())? {
            return Err(BlockFault::Grid { line });
        }
        rest = after;
    }
    Ok((cells, rest))
}

/// The cells of the lattice at the front of the bytes, where one is to follow, and what follows it.
fn cells_at(
    alloc: Global,
    shape: Option<Shape>,
    bytes: &[u8],
    first: u32,
) -> Result<(Vec<Control>, &[u8]), BlockFault>
    requires { first ≤ 536870914 }
    ensures { MatchResult result
        (λ found. HasCells shape bytes.now found.0.items found.1.now)
        (λ fault. (later : List Expected) → Stops (cells_expected shape ++ later) bytes.now first (refusal_of fault)) }
{
    match shape {
        None => Ok((Vec::new(alloc), bytes)),
        Some(shape) => rows_at(alloc, shape, bytes, first),
    }
}

/// The proofs on the line at the front of the bytes, and what follows it.
fn proofs_line(alloc: Global, bytes: &[u8], line: u32) -> Result<(Vec<Proof>, &[u8]), BlockFault>
    ensures { MatchResult result
        (λ found. HasProofs true bytes.now found.0.items found.1.now)
        (λ fault. (later : List Expected) → Stops (proofs_expected true ++ later) bytes.now line (refusal_of fault)) }
{
    let Some((text, rest)) = cut(bytes, b'\n') else {
        return Err(BlockFault::Truncated { line });
    };
    match proofs_of(alloc, text)? {
        None => Err(BlockFault::Proofs { line }),
        Some(proofs) => Ok((proofs, rest)),
    }
}

/// The proofs on the line at the front of the bytes, where they are to follow, and what follows it.
fn proofs_at(
    alloc: Global,
    follow: bool,
    bytes: &[u8],
    line: u32,
) -> Result<(Vec<Proof>, &[u8]), BlockFault>
    ensures { MatchResult result
        (λ found. HasProofs follow bytes.now found.0.items found.1.now)
        (λ fault. (later : List Expected) → Stops (proofs_expected follow ++ later) bytes.now line (refusal_of fault)) }
{
    if follow {
        proofs_line(alloc, bytes, line)
    } else {
        Ok((Vec::new(alloc), bytes))
    }
}

/// The lattice with these cells, of which there are as many as the shape has.
fn lattice(shape: Shape, cells: Vec<Control>) -> Grid
    requires many { length cells.items ≡ shape.rows * shape.cols }
    requires inputs { All (NamesBelow 10) cells.items }
    ensures { result ≡ record { size = shape; cells = cells.items } }
{
    Grid::new(shape, cells).unwrap()
}

/// The answer of this form with these cells.
fn answer_of(form: Form, cells: Vec<Control>) -> Answer
    requires many { IfSome (lattice_size form) (λ size. length cells.items ≡ size.rows * size.cols) }
    requires inputs { All (NamesBelow 10) cells.items }
    ensures { result ≡ answer_with form cells.items }
{
    match form {
        Form::Found(shape) => Answer::Found(lattice(shape, cells)),
        Form::Minimum(shape) => Answer::Minimum(lattice(shape, cells)),
        Form::Undecided {
            shape,
            least,
            at,
            after,
        } => Answer::Undecided {
            grid: lattice(shape, cells),
            least,
            at,
            after,
        },
        Form::Mapped(array) => Answer::Mapped {
            grid: lattice(array.shape(), cells),
            array,
        },
        Form::NoneMapped(array) => Answer::NoneMapped { array },
        Form::MapUndecided { array, after } => Answer::MapUndecided { array, after },
        Form::NoRails { on, off } => Answer::NoRails { on, off },
    }
}

/// The block at the front of the bytes, which begin at the line `first`, and what follows it.
pub(crate) fn block_at(
    alloc: Global,
    bytes: &[u8],
    first: u32,
    version: Version,
) -> Result<(Block, &[u8]), BlockFault>
    requires { first ≤ 536870913 }
    ensures { MatchResult result
        (λ found. HasBlock version bytes.now (parts_of_block found.0) found.1.now)
        (λ fault. Stops (block_expected version) bytes.now first (refusal_of fault)) }
{
    let Some((text, rest)) = cut(bytes, b'\n') else {
        return Err(BlockFault::Truncated { line: first });
    };
    let Some(heading) = heading_of(alloc, text, version)? else {
        return Err(BlockFault::Block { line: first });
    };
    let Heading { output, name, form } = heading;
    let (cells, rest) = cells_at(alloc, lattice_shape(&form), rest, first + 1)?;
    let answer = answer_of(form, cells);
    let follow = answer.lists_proofs(version);
    let (proofs, rest) = proofs_at(alloc, follow, rest, first + 1 + answer.rows())?;
    let block = Block {
        output,
        name,
        answer,
        proofs,
    };
    Ok((block, rest))
}

/// The block of a text of this version whose lines begin at the place `at`, which is the first of a line or the end, and
/// the place after its last line feed. The line there has the number `line`: the number of line feeds before it, and one.
/// The first faulty line is the refusal.
pub fn read_block(
    alloc: Global,
    bytes: &[u8],
    at: usize,
    line: u32,
    version: Version,
) -> Result<(Block, usize), BlockFault>
    requires within { at ≤ length bytes.now }
    requires line { line ≤ 536870913 }
    ensures within { IfOk result (λ found. found.1 ≤ length bytes.now) }
    ensures found { IfOk result (λ found. HasBlock version (drop at bytes.now) (parts_of_block found.0) (drop found.1 bytes.now)) }
    ensures fault { IfErr result (λ fault. fault ≢ BlockFault.NoMemory → IsBlockFault version (drop at bytes.now) line fault) }
    ensures only_block { (block : BlockParts) (rest : List ℕ) → HasBlock version (drop at bytes.now) block rest →
        IsErrOf result BlockFault.NoMemory ⊎ IsOkAnd result (λ found. (parts_of_block found.0 ≡ block) × (drop found.1 bytes.now ≡ rest)) }
    ensures only_fault { (fault : BlockFault) → IsBlockFault version (drop at bytes.now) line fault →
        IsErrOf result BlockFault.NoMemory ⊎ (result ≡ Err fault) }
{
    match block_at(alloc, &bytes[at..], line, version) {
        Ok((block, rest)) => Ok((block, bytes.len() - rest.len())),
        Err(fault) => Err(fault),
    }
}

/// The front of a text, where a block's lines are to stand, gives one answer: a block stands there, or there is one fault.
pub fn block_or_fault()
    ensures one_block { (version : Version) (text : List ℕ) (b c : BlockParts) (r s : List ℕ) → HasBlock version text b r → HasBlock version text c s → (b ≡ c) × (r ≡ s) }
    ensures one_fault { (version : Version) (text : List ℕ) (first : ℕ) (d e : BlockFault) → IsBlockFault version text first d → IsBlockFault version text first e → d ≡ e }
    ensures not_both { (version : Version) (text : List ℕ) (first : ℕ) (b : BlockParts) (r : List ℕ) (e : BlockFault) → HasBlock version text b r → IsBlockFault version text first e → ⊥ }
    ensures some { (version : Version) (text : List ℕ) (first : ℕ) →
        ((b : BlockParts) × (r : List ℕ) × HasBlock version text b r) ⊎ ((e : BlockFault) × IsBlockFault version text first e) }
{}

//! What a lattice is at 64 assignments at once.
use crate::bits::Bits;
use crate::part::Part;
use finder_tools::flood::{last_row, spread};
use finder_tools::words::on_word;
use lattice_grid::control::Control;
use lattice_grid::grid::Grid;
use std::alloc::Global;
use wire_io::fault::NoMemory;

/// Tests lattices by a flood at 64 assignments at once, and counts its work: the cells of each flood.
///
/// The cells of the lattice at hand stand as a flood asks. The tests are not promised to be right.
#[derive(Drop)]
pub(crate) struct Tester {
    alloc: Global,
    on: Vec<u64>,
    reached: Vec<u64>,
    whole: u64,
    left: u64,
}

impl Tester {
    /// A tester for so much work.
    pub(crate) fn new(alloc: Global, work: u64) -> Tester {
        Tester {
            alloc,
            on: Vec::new(alloc),
            reached: Vec::new(alloc),
            whole: work,
            left: work,
        }
    }

    /// The allocator.
    pub(crate) fn alloc(&self) -> Global {
        self.alloc
    }

    /// Counts so much work.
    pub(crate) fn spend(&mut self, work: u64) {
        self.left = self.left.saturating_sub(work);
    }

    /// Whether all work was done.
    pub(crate) fn is_tired(&self) -> bool {
        self.left == 0
    }

    /// Whether half of all work was done.
    pub(crate) fn is_half_tired(&self) -> bool {
        self.left <= self.whole / 2
    }

    /// Adds so many cells that are off, and reached where the word says.
    fn add_line(&mut self, length: u32, reached: u64) -> Result<(), NoMemory> {
        for _cell in 0..length {
            self.on.push(0)?;
            self.reached.push(reached)?;
        }
        Ok(())
    }

    /// Adds the cells of a row, and the one behind it.
    fn add_row(&mut self, row: &[Control], place: usize) -> Result<(), NoMemory> {
        for control in row {
            self.on.push(on_word(*control, place))?;
            self.reached.push(0)?;
        }
        self.add_line(1, 0)
    }

    /// Sets the cells of a lattice up for the assignments of the word at a place.
    fn set_up(&mut self, grid: &Grid, place: usize) -> Result<(), NoMemory> {
        self.on.clear();
        self.reached.clear();
        let shape = grid.shape();
        self.add_line(shape.cols(), u64::MAX)?;
        self.add_line(1, 0)?;
        for row in 0..shape.rows() {
            self.add_row(grid.row(row), place)?;
        }
        self.add_line(shape.cols(), 0)?;
        self.add_line(1, 0)
    }

    /// At which assignments of the word at a place the lattice joins its plates.
    pub(crate) fn word(&mut self, grid: &Grid, place: usize) -> Result<u64, NoMemory> {
        self.set_up(grid, place)?;
        Ok(self.flooded(grid.shape().cols()))
    }

    /// Adds cells row by row, and the one behind each row, for the first 64 assignments.
    fn add_cells(&mut self, cells: &[Control], cols: u32) -> Result<(), NoMemory> {
        let mut col = 0u32;
        for control in cells {
            self.on.push(on_word(*control, 0))?;
            self.reached.push(0)?;
            col = col.saturating_add(1);
            if col >= cols {
                self.add_line(1, 0)?;
                col = 0;
            }
        }
        Ok(())
    }

    /// At which of the first 64 assignments a lattice of these cells, in rows of so many, joins its plates.
    pub(crate) fn first_word(&mut self, cells: &[Control], cols: u32) -> Result<u64, NoMemory> {
        self.on.clear();
        self.reached.clear();
        self.add_line(cols, u64::MAX)?;
        self.add_line(1, 0)?;
        self.add_cells(cells, cols)?;
        self.add_line(cols, 0)?;
        self.add_line(1, 0)?;
        Ok(self.flooded(cols))
    }

    /// At which assignments the cells at hand join their plates.
    fn flooded(&mut self, cols: u32) -> u64 {
        let stride = cols as usize + 1;
        let rounds = spread(&self.on, &mut self.reached, stride);
        let work = (rounds as u64).saturating_mul(self.on.len() as u64);
        self.spend(work);
        last_row(&self.reached, stride)
    }

    /// At which assignments of a function's inputs the lattice joins its plates.
    pub(crate) fn function(&mut self, part: &Part, grid: &Grid) -> Result<Bits, NoMemory> {
        let mut bits = Bits::empty();
        for place in 0..part.words() {
            bits.set_word(place, self.word(grid, place)?);
        }
        Ok(bits)
    }

    /// Whether the lattice realises a function.
    pub(crate) fn realises(&mut self, part: &Part, grid: &Grid) -> Result<bool, NoMemory> {
        for place in 0..part.words() {
            let joined = self.word(grid, place)?;
            if part.on.word(place) & !joined != 0 || part.off.word(place) & joined != 0 {
                return Ok(false);
            }
        }
        Ok(true)
    }
}

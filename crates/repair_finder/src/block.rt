//! Cells at 64 assignments at once.
use crate::lines::Cells;
use finder_tools::flood::{last_row, spread, spread_to, spread_up};
use finder_tools::words::on_word;
use lattice_grid::control::Control;
use std::alloc::Global;
use wire_io::fault::NoMemory;

/// The cells of a lattice at the assignments of the word at a place, as a flood asks for them: where each is on, where a path
/// of cells that are on leads to it from the upper plate, and where from the lower one; and where the plates are joined.
#[derive(Drop)]
pub(crate) struct Block {
    place: usize,
    stride: usize,
    on: Vec<u64>,
    above: Vec<u64>,
    below: Vec<u64>,
    room: Vec<u64>,
    joined: u64,
}

/// A cell that gets another control: where it stands among the words of a block, its control and the new one.
#[derive(Clone, Copy)]
pub(crate) struct Change {
    pub(crate) offset: usize,
    pub(crate) old: Control,
    pub(crate) new: Control,
}

/// What is known of a change without a flood: where the plates are joined, and where in doubt.
#[derive(Clone, Copy)]
pub(crate) struct Look {
    pub(crate) joined: u64,
    pub(crate) doubt: u64,
}

/// At which assignments a flood joined the plates, and how many cells were flooded.
#[derive(Clone, Copy)]
pub(crate) struct Flooded {
    pub(crate) joined: u64,
    pub(crate) work: u64,
}

/// The word at a place, and 0 where there is none.
fn at(words: &[u64], place: usize) -> u64 {
    match words.get(place) {
        Some(word) => *word,
        None => 0,
    }
}

/// Where one of the cells around a place is reached.
fn around(reached: &[u64], place: usize, stride: usize) -> u64 {
    at(reached, place.saturating_sub(1))
        | at(reached, place.saturating_add(1))
        | at(reached, place.saturating_sub(stride))
        | at(reached, place.saturating_add(stride))
}

/// Adds so many words of 0.
fn add_zeros(words: &mut Vec<u64>, length: usize) -> Result<(), NoMemory> {
    for _word in 0..length {
        words.push(0)?;
    }
    Ok(())
}

/// Adds the words of the cells, with a cell that is off behind each row.
fn add_cells(on: &mut Vec<u64>, cells: &Cells, place: usize) -> Result<(), NoMemory> {
    let mut col = 0u32;
    for control in &cells.controls {
        on.push(on_word(*control, place))?;
        col = col.saturating_add(1);
        if col >= cells.cols {
            on.push(0)?;
            col = 0;
        }
    }
    Ok(())
}

/// Makes these the words of the cells at the assignments of the word at a place, as a flood asks for them.
pub(crate) fn set_up(on: &mut Vec<u64>, cells: &Cells, place: usize) -> Result<(), NoMemory> {
    let stride = stride_of(cells);
    on.clear();
    add_zeros(on, stride)?;
    add_cells(on, cells, place)?;
    add_zeros(on, stride)
}

/// How many words a row of cells has.
pub(crate) fn stride_of(cells: &Cells) -> usize {
    (cells.cols as usize).saturating_add(1)
}

/// Makes a word that of each cell of the first row, and nothing of the others.
pub(crate) fn dry_down(reached: &mut [u64], stride: usize, word: u64) {
    let mut left = stride.saturating_sub(1);
    for cell in reached.iter_mut() {
        *cell = if left > 0 { word } else { 0 };
        left = left.saturating_sub(1);
    }
}

/// Reaches each cell of the last row, and nothing of the others.
fn dry_up(reached: &mut [u64], stride: usize) {
    let mut before = reached.len().saturating_sub(stride);
    for cell in reached.iter_mut() {
        *cell = if before == 0 { u64::MAX } else { 0 };
        before = before.saturating_sub(1);
    }
}

/// The work of so many rounds over so many cells.
pub(crate) fn work_of(rounds: usize, cells: usize) -> u64 {
    (rounds as u64).saturating_mul(cells as u64)
}

impl Block {
    /// The cells at the assignments of the word at a place. No path is known yet.
    pub(crate) fn new(alloc: Global, cells: &Cells, place: usize) -> Result<Block, NoMemory> {
        let mut block = Block {
            place,
            stride: stride_of(cells),
            on: Vec::new(alloc),
            above: Vec::new(alloc),
            below: Vec::new(alloc),
            room: Vec::new(alloc),
            joined: 0,
        };
        set_up(&mut block.on, cells, place)?;
        let length = block.on.len();
        add_zeros(&mut block.above, length)?;
        add_zeros(&mut block.below, length)?;
        add_zeros(&mut block.room, length)?;
        Ok(block)
    }

    /// Finds all paths anew, and says how many cells were flooded.
    pub(crate) fn settle(&mut self) -> Flooded {
        let work = self.refill_above().saturating_add(self.refill_below());
        self.joined = last_row(&self.above, self.stride);
        Flooded {
            joined: self.joined,
            work,
        }
    }

    /// Follows the paths from the upper plate on.
    fn fill_above(&mut self) -> u64 {
        let rounds = spread(&self.on, &mut self.above, self.stride);
        work_of(rounds, self.on.len())
    }

    /// Follows the paths from the lower plate on.
    fn fill_below(&mut self) -> u64 {
        let rounds = spread_up(&self.on, &mut self.below, self.stride);
        work_of(rounds, self.on.len())
    }

    /// Finds the paths from the upper plate anew.
    fn refill_above(&mut self) -> u64 {
        dry_down(&mut self.above, self.stride, u64::MAX);
        self.fill_above()
    }

    /// Finds the paths from the lower plate anew.
    fn refill_below(&mut self) -> u64 {
        dry_up(&mut self.below, self.stride);
        self.fill_below()
    }

    /// The words of a change: where the cell is newly on, and where it is newly off.
    fn rising_and_falling(&self, change: Change) -> (u64, u64) {
        let old = on_word(change.old, self.place);
        let new = on_word(change.new, self.place);
        (new & !old, old & !new)
    }

    /// What is known of a change without a flood. A path leads through a cell that is newly on where one leads to a cell
    /// beside it from either plate; a cell that is newly off may only matter where one led to it from both.
    pub(crate) fn look(&self, change: Change) -> Look {
        let (rising, falling) = self.rising_and_falling(change);
        let place = change.offset;
        let met = around(&self.above, place, self.stride) & around(&self.below, place, self.stride);
        Look {
            joined: self.joined | (rising & met),
            doubt: falling & at(&self.above, place) & at(&self.below, place),
        }
    }

    /// Gives the cell at a place a word.
    fn put(&mut self, place: usize, word: u64) {
        if let Some(cell) = self.on.get_mut(place) {
            *cell = word;
        }
    }

    /// At which of the assignments that are in doubt the plates are still joined after a change.
    pub(crate) fn kept(&mut self, change: Change, doubt: u64) -> Flooded {
        self.put(change.offset, on_word(change.new, self.place));
        dry_down(&mut self.room, self.stride, doubt);
        let rounds = spread_to(&self.on, &mut self.room, self.stride, doubt);
        self.put(change.offset, on_word(change.old, self.place));
        Flooded {
            joined: last_row(&self.room, self.stride),
            work: work_of(rounds, self.on.len()),
        }
    }

    /// Makes a change, after which the plates are joined at these assignments; it says how many cells were flooded.
    pub(crate) fn take(&mut self, change: Change, joined: u64) -> u64 {
        let (rising, falling) = self.rising_and_falling(change);
        self.put(change.offset, on_word(change.new, self.place));
        self.joined = joined;
        self.follow_above(change.offset, rising, falling)
            .saturating_add(self.follow_below(change.offset, rising, falling))
    }

    /// Follows the paths from the upper plate after a change.
    fn follow_above(&mut self, place: usize, rising: u64, falling: u64) -> u64 {
        if falling & at(&self.above, place) != 0 {
            self.refill_above()
        } else if rising & around(&self.above, place, self.stride) != 0 {
            self.fill_above()
        } else {
            0
        }
    }

    /// Follows the paths from the lower plate after a change.
    fn follow_below(&mut self, place: usize, rising: u64, falling: u64) -> u64 {
        if falling & at(&self.below, place) != 0 {
            self.refill_below()
        } else if rising & around(&self.below, place, self.stride) != 0 {
            self.fill_below()
        } else {
            0
        }
    }

    /// Whether another control of a cell may mend an assignment, of which this is the bit: where the plates are to be joined,
    /// the cell is off and a path leads to a cell beside it; else paths lead to it from both plates.
    pub(crate) fn may_mend(&self, place: usize, bit: u64, is_on: bool) -> bool {
        if is_on {
            let beside = around(&self.above, place, self.stride)
                | around(&self.below, place, self.stride);
            bit & beside & !at(&self.on, place) != 0
        } else {
            bit & at(&self.above, place) & at(&self.below, place) != 0
        }
    }
}

//! Cells that are changed, and at which assignments they are wrong.
use crate::aim::{Aim, Bits, WORDS, word};
use crate::block::{Block, Change};
use crate::lines::Cells;
use finder_tools::random::Random;
use lattice_grid::control::Control;
use std::alloc::Global;
use wire_io::fault::NoMemory;

/// Cells, a block for each word of assignments, at which assignments the cells are wrong and at how many; and how many
/// cells were flooded since that was asked last.
#[derive(Drop)]
pub(crate) struct Sketch {
    pub(crate) cells: Cells,
    blocks: Vec<Block>,
    wrong: Bits,
    many: u32,
    work: u64,
}

/// What is known of a change without a flood: where the plates are joined, where in doubt, and at how many of the other
/// assignments the cells are wrong.
#[derive(Clone, Copy)]
struct Outlook {
    joined: Bits,
    doubt: Bits,
    many: u32,
}

/// How many assignments these are.
fn count(bits: &Bits) -> u32 {
    let mut many = 0u32;
    for word in bits {
        many = many.saturating_add(word.count_ones());
    }
    many
}

impl Sketch {
    /// The cells of a lattice, to be changed.
    pub(crate) fn new(alloc: Global, aim: &Aim, cells: Cells) -> Result<Sketch, NoMemory> {
        let mut blocks = Vec::new(alloc);
        let mut wrong = [0u64; 16];
        let mut work = 0u64;
        for place in 0..aim.words().min(WORDS) {
            let mut block = Block::new(alloc, &cells, place)?;
            let settled = block.settle();
            wrong[place] = aim.wrong(place, settled.joined);
            work = work.saturating_add(settled.work);
            blocks.push(block)?;
        }
        Ok(Sketch {
            cells,
            blocks,
            wrong,
            many: count(&wrong),
            work,
        })
    }

    /// At how many assignments the cells are wrong.
    pub(crate) fn many(&self) -> u32 {
        self.many
    }

    /// How many cells were flooded since this was asked last.
    pub(crate) fn worked(&mut self) -> u64 {
        let work = self.work;
        self.work = 0;
        work
    }

    /// The control of a cell, and `0` where there is none.
    fn control(&self, cell: usize) -> Control {
        match self.cells.controls.get(cell) {
            Some(control) => *control,
            None => Control::Zero,
        }
    }

    /// Gives a cell a control, where there is one with this number.
    fn put(&mut self, cell: usize, control: Control) {
        if let Some(old) = self.cells.controls.get_mut(cell) {
            *old = control;
        }
    }

    /// Where a cell stands among the words of a block.
    fn offset(&self, cell: usize) -> usize {
        let cols = (self.cells.cols as usize).max(1);
        let line = (cell / cols).saturating_add(1);
        line.saturating_mul(cols.saturating_add(1))
            .saturating_add(cell % cols)
    }

    /// What is known of a change without a flood, unless the cells are then wrong at more than so many assignments.
    fn outlook(&self, aim: &Aim, change: Change, most: u32) -> Option<Outlook> {
        let mut outlook = Outlook {
            joined: [0u64; 16],
            doubt: [0u64; 16],
            many: 0,
        };
        for place in 0..WORDS {
            let Some(block) = self.blocks.get(place) else {
                return Some(outlook);
            };
            let look = block.look(change);
            outlook.joined[place] = look.joined;
            outlook.doubt[place] = look.doubt;
            let wrong = aim.wrong(place, look.joined) & !look.doubt;
            outlook.many = outlook.many.saturating_add(wrong.count_ones());
            if outlook.many > most {
                return None;
            }
        }
        Some(outlook)
    }

    /// At which assignments of the word at a place the plates are joined after a change.
    fn joined(&mut self, place: usize, change: Change, outlook: &Outlook) -> u64 {
        let doubt = word(&outlook.doubt, place);
        let joined = word(&outlook.joined, place);
        match self.blocks.get_mut(place) {
            Some(block) if doubt != 0 => {
                let kept = block.kept(change, doubt);
                self.work = self.work.saturating_add(kept.work);
                (joined & !doubt) | kept.joined
            }
            _ => joined,
        }
    }

    /// At which assignments the plates are joined after a change, unless the cells are then wrong at more than so many.
    fn settled(&mut self, aim: &Aim, change: Change, outlook: &Outlook, most: u32) -> Option<Bits> {
        let mut joined = [0u64; 16];
        let mut many = outlook.many;
        for place in 0..WORDS {
            let now = self.joined(place, change, outlook);
            joined[place] = now;
            let wrong = aim.wrong(place, now) & word(&outlook.doubt, place);
            many = many.saturating_add(wrong.count_ones());
            if many > most {
                return None;
            }
        }
        Some(joined)
    }

    /// Makes a change, after which the plates are joined at these assignments.
    fn take(&mut self, aim: &Aim, change: Change, joined: &Bits) {
        for place in 0..WORDS {
            if let Some(block) = self.blocks.get_mut(place) {
                let work = block.take(change, joined[place]);
                self.work = self.work.saturating_add(work);
                self.wrong[place] = aim.wrong(place, joined[place]);
            }
        }
        self.many = count(&self.wrong);
    }

    /// Gives a cell a control, unless the cells are then wrong at more than so many assignments.
    pub(crate) fn give(&mut self, aim: &Aim, cell: usize, control: Control, most: u32) {
        let old = self.control(cell);
        if old == control {
            return;
        }
        let change = Change {
            offset: self.offset(cell),
            old,
            new: control,
        };
        let Some(outlook) = self.outlook(aim, change, most) else {
            return;
        };
        if let Some(joined) = self.settled(aim, change, &outlook, most) {
            self.put(cell, control);
            self.take(aim, change, &joined);
        }
    }

    /// One of the assignments at which the cells are wrong.
    pub(crate) fn wrong_assignment(&self, random: &mut Random) -> u32 {
        let first = random.below(WORDS as u32) as usize;
        let turn = random.below(64);
        for step in 0..WORDS {
            let place = first.saturating_add(step) % WORDS;
            let bits = word(&self.wrong, place);
            if bits != 0 {
                let bit = bits.rotate_right(turn).trailing_zeros().wrapping_add(turn) % 64;
                return (place as u32).saturating_mul(64).saturating_add(bit);
            }
        }
        0
    }

    /// A cell by its number, drawn at random.
    pub(crate) fn any_cell(&self, random: &mut Random) -> usize {
        random.next() as usize % self.cells.controls.len().max(1)
    }

    /// A cell of which another control may mend an assignment: the first one from one that is drawn at random.
    pub(crate) fn useful_cell(&self, random: &mut Random, aim: &Aim, x: u32) -> usize {
        let first = self.any_cell(random);
        let Some(block) = self.blocks.get((x / 64) as usize) else {
            return first;
        };
        let bit = 1u64 << (x % 64);
        let mut cell = first;
        for _cell in 0..self.cells.controls.len() {
            if block.may_mend(self.offset(cell), bit, aim.is_on(x)) {
                return cell;
            }
            cell = cell.saturating_add(1) % self.cells.controls.len().max(1);
        }
        first
    }
}

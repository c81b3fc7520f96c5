//! Tests of cells that are not changed.
use crate::aim::Aim;
use crate::block::{dry_down, set_up, stride_of, work_of};
use crate::lines::Cells;
use finder_tools::flood::{last_row, spread};
use std::alloc::Global;
use wire_io::fault::NoMemory;

/// Room for a flood, and how many cells were flooded.
#[derive(Drop)]
pub(crate) struct Probe {
    on: Vec<u64>,
    reached: Vec<u64>,
    pub(crate) work: u64,
}

impl Probe {
    /// Room for nothing yet.
    pub(crate) fn new(alloc: Global) -> Probe {
        Probe {
            on: Vec::new(alloc),
            reached: Vec::new(alloc),
            work: 0,
        }
    }

    /// At which assignments of the word at a place the cells join their plates.
    fn joined(&mut self, cells: &Cells, place: usize) -> Result<u64, NoMemory> {
        set_up(&mut self.on, cells, place)?;
        self.reached.clear();
        self.reached.extend_from_slice(&self.on)?;
        let stride = stride_of(cells);
        dry_down(&mut self.reached, stride, u64::MAX);
        let rounds = spread(&self.on, &mut self.reached, stride);
        self.work = self.work.saturating_add(work_of(rounds, self.on.len()));
        Ok(last_row(&self.reached, stride))
    }

    /// At how many assignments the cells are wrong, as soon as they are wrong at more than so many.
    pub(crate) fn wrong(&mut self, aim: &Aim, cells: &Cells, most: u32) -> Result<u32, NoMemory> {
        let mut many = 0u32;
        for place in 0..aim.words() {
            let joined = self.joined(cells, place)?;
            many = many.saturating_add(aim.wrong(place, joined).count_ones());
            if many > most {
                return Ok(many);
            }
        }
        Ok(many)
    }
}

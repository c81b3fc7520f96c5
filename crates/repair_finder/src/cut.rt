//! Lattices with a line less, those first that are wrong at the fewest assignments.
use crate::aim::Aim;
use crate::lines::{Cells, Lines, Merger, RULES};
use crate::probe::Probe;
use std::alloc::Global;
use wire_io::fault::NoMemory;

/// A lattice with a line less: at how many assignments it is wrong, and its cells.
#[derive(Drop)]
pub(crate) struct Cut {
    pub(crate) wrong: u32,
    pub(crate) cells: Cells,
}

/// The cuts of a lattice, the best ones first, of at most so many.
#[derive(Drop)]
pub(crate) struct Cuts {
    pub(crate) cuts: Vec<Cut>,
    most: usize,
}

impl Cut {
    /// Whether it comes before another one: wrong at fewer assignments, then with fewer cells.
    fn is_before(&self, wrong: u32, cells: usize) -> bool {
        self.wrong < wrong || (self.wrong == wrong && self.cells.controls.len() <= cells)
    }
}

impl Cuts {
    /// The most assignments at which a cut is wrong that is kept.
    fn bound(&self) -> u32 {
        match self.cuts.last() {
            Some(cut) if self.cuts.len() >= self.most => cut.wrong,
            _ => u32::MAX,
        }
    }

    /// Puts a lattice where it belongs.
    fn put(&mut self, wrong: u32, cells: Cells) -> Result<(), NoMemory> {
        let size = cells.controls.len();
        let mut place = 0usize;
        for cut in &self.cuts {
            if !cut.is_before(wrong, size) {
                break;
            }
            place = place.saturating_add(1);
        }
        if place >= self.most {
            return Ok(());
        }
        let place = place.min(self.cuts.len());
        self.cuts.insert(place, Cut { wrong, cells })?;
        self.cuts.truncate(self.most);
        Ok(())
    }

    /// Tests the lattice with a line and the next one made one by each rule.
    fn add_line(
        &mut self,
        alloc: Global,
        aim: &Aim,
        probe: &mut Probe,
        cells: &Cells,
        lines: Lines,
        number: u32,
    ) -> Result<(), NoMemory> {
        for rule in RULES {
            let merger = Merger {
                lines,
                rule,
                number,
            };
            let less = cells.merged(alloc, merger)?;
            if less.controls.is_empty() {
                return Ok(());
            }
            let wrong = probe.wrong(aim, &less, self.bound())?;
            self.put(wrong, less)?;
        }
        Ok(())
    }

    /// Tests the lattices with two of these lines made one.
    fn add_lines(
        &mut self,
        alloc: Global,
        aim: &Aim,
        probe: &mut Probe,
        cells: &Cells,
        lines: Lines,
    ) -> Result<(), NoMemory> {
        for number in 0..cells.count(lines) {
            self.add_line(alloc, aim, probe, cells, lines, number)?;
        }
        Ok(())
    }
}

/// The best so many lattices with a line less.
pub(crate) fn cuts_of(
    alloc: Global,
    aim: &Aim,
    probe: &mut Probe,
    cells: &Cells,
    most: usize,
) -> Result<Cuts, NoMemory> {
    let mut cuts = Cuts {
        cuts: Vec::new(alloc),
        most,
    };
    cuts.add_lines(alloc, aim, probe, cells, Lines::Columns)?;
    cuts.add_lines(alloc, aim, probe, cells, Lines::Rows)?;
    Ok(cuts)
}

//! Lattices made smaller a line at a time.
use crate::aim::Aim;
use crate::change::change;
use crate::cut::{Cuts, cuts_of};
use crate::folding::folded;
use crate::lines::Cells;
use crate::probe::Probe;
use crate::sketch::Sketch;
use finder_tools::random::Random;
use std::alloc::Global;
use wire_io::fault::NoMemory;

/// How many cuts of a lattice are kept.
const MOST_CUTS: usize = 40;

/// How many cuts are changed in the first round, and how many more in each later one.
const FIRST_CUTS: usize = 4;

const MORE_CUTS: usize = 2;

/// How many changes a cut gets in the first round; twice as many in each later one.
const FIRST_STEPS: u32 = 4_000;

/// How many rounds a lattice gets.
const ROUNDS: u32 = 12;

/// How many times a line is taken off a lattice.
const LINES: u32 = 2_000;

/// What a change costs beside its floods.
const CHANGE: u64 = 70;

/// What is left of the work, and of the numbers that are drawn.
#[derive(Drop)]
pub(crate) struct Mender {
    alloc: Global,
    random: Random,
    probe: Probe,
    left: u64,
}

impl Mender {
    /// One that has so much work to do.
    pub(crate) fn new(alloc: Global, work: u64) -> Mender {
        Mender {
            alloc,
            random: Random::new(),
            probe: Probe::new(alloc),
            left: work,
        }
    }

    /// Adds to the work that is left.
    pub(crate) fn add_work(&mut self, work: u64) {
        self.left = self.left.saturating_add(work);
    }

    /// Counts so much work.
    fn spend(&mut self, work: u64) {
        self.left = self.left.saturating_sub(work);
    }

    /// Counts the work of tests.
    fn spend_tests(&mut self) {
        let work = self.probe.work;
        self.probe.work = 0;
        self.spend(work);
    }

    /// Cells that realise the function, if so many changes lead from these to such.
    fn mended(&mut self, aim: &Aim, cells: &Cells, steps: u32) -> Result<Option<Cells>, NoMemory> {
        let mut sketch = Sketch::new(self.alloc, aim, cells.copy(self.alloc)?)?;
        for step in 0..steps {
            if sketch.many() == 0 {
                return Ok(Some(sketch.cells));
            }
            if self.left == 0 {
                return Ok(None);
            }
            change(&mut self.random, aim, &mut sketch, step, steps);
            let work = sketch.worked().saturating_add(CHANGE);
            self.spend(work);
        }
        Ok(None)
    }

    /// Cells that realise the function, if so many changes lead from one of the first cuts to such.
    fn first_mended(
        &mut self,
        aim: &Aim,
        cuts: &Cuts,
        tries: usize,
        steps: u32,
    ) -> Result<Option<Cells>, NoMemory> {
        for cut in cuts.cuts.iter().take(tries) {
            if let Some(cells) = self.mended(aim, &cut.cells, steps)? {
                return Ok(Some(cells));
            }
        }
        Ok(None)
    }

    /// Cells of a line less that realise the function, if they are found.
    fn smaller(&mut self, aim: &Aim, cells: &Cells) -> Result<Option<Cells>, NoMemory> {
        let cuts = cuts_of(self.alloc, aim, &mut self.probe, cells, MOST_CUTS)?;
        self.spend_tests();
        let mut tries = FIRST_CUTS;
        let mut steps = FIRST_STEPS;
        for _round in 0..ROUNDS {
            if self.left == 0 {
                return Ok(None);
            }
            if let Some(cells) = self.first_mended(aim, &cuts, tries, steps)? {
                return Ok(Some(cells));
            }
            tries = tries.saturating_add(MORE_CUTS);
            steps = steps.saturating_mul(2);
        }
        Ok(None)
    }

    /// The smallest cells that are found from these by the work that is left.
    pub(crate) fn smallest(&mut self, aim: &Aim, cells: Cells) -> Result<Cells, NoMemory> {
        let mut least = cells;
        for _line in 0..LINES {
            match self.smaller(aim, &least)? {
                Some(less) => least = less,
                None => return Ok(least),
            }
        }
        Ok(least)
    }

    /// The cells with lines made one until nothing shrinks.
    pub(crate) fn folded(&mut self, aim: &Aim, cells: Cells) -> Result<Cells, NoMemory> {
        let least = folded(self.alloc, aim, &mut self.probe, cells)?;
        self.spend_tests();
        Ok(least)
    }
}

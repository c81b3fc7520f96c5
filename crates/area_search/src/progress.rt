//! What is known in a search.
ghost use Rattle.std.specs.Prelude.{◌≡◌, ◌≢◌, ℕ, ◌<◌, ◌≤◌, [], ◌∷◌, ◌++◌, OnOk, OnErr, None};
ghost use Rattle.journal_text.specs.Least.{area};

use lattice_grid::grid::Grid;
use lattice_grid::shape::Shape;
use report_text::answer::Proof;
use shape_list::refuted::Refuted;
use std::alloc::Global;
use wire_io::fault::NoMemory;

/// How much further than the least area the next questions may lie.
const LONGEST_STEP: u32 = 8;

/// What is known in a search.
#[derive(Drop)]
pub struct Progress {
    /// The smallest lattice so far.
    pub best: Grid,
    /// The shapes of which no lattice is right.
    pub refuted: Refuted,
    /// The same shapes, in order, each with how many steps refuted it.
    pub proofs: Vec<Proof>,
    /// Each shape of smaller area fits inside a refuted one.
    pub least: u32,
    /// The shape of the question that was given up last.
    pub given_up: Option<Shape>,
}

/// What a question changed.
#[derive(Clone, Copy, Debug, PartialEq, Eq)]
pub enum Turn {
    /// A shape was refuted.
    Refuted,
    /// There is a better lattice.
    Better,
    /// The question was given up.
    GivenUp,
}

impl Progress {
    /// Where a search begins that has this lattice.
    pub fn new(alloc: Global, best: Grid) -> Progress
        ensures best { result.best ≡ best }
        ensures refuted { result.refuted ≡ [] }
        ensures proofs { result.proofs.items ≡ [] }
        ensures least { result.least ≡ 1 }
        ensures given_up { result.given_up ≡ None }
    {
        Progress {
            best,
            refuted: Refuted::new(alloc),
            proofs: Vec::new(alloc),
            least: 1,
            given_up: None,
        }
    }

    /// The area of the next questions: halfway to that of the best lattice, but at most eight further than the least area,
    /// and no further once a question was given up.
    pub fn area_asked(&self) -> u32
        requires { self.now.least < area self.now.best }
        ensures from { self.now.least ≤ result }
        ensures below { result < area self.now.best }
        ensures again { self.now.given_up ≢ None → result ≡ self.now.least }
    {
        if self.given_up.is_some() {
            return self.least;
        }
        let above = self.best.shape().area() - 1 - self.least;
        self.least + (above / 2).min(LONGEST_STEP)
    }

    /// Adds a refuted shape, and how many steps it took.
    pub fn refute(&mut self, shape: Shape, steps: u32) -> Result<(), NoMemory>
        ensures refuted { OnOk result (self.new.refuted ≡ self.old.refuted ++ shape ∷ []) }
        ensures proofs { OnOk result (self.new.proofs.items ≡ self.old.proofs.items ++ record { shape = shape; steps = steps } ∷ []) }
        ensures best { self.new.best ≡ self.old.best }
        ensures least { self.new.least ≡ self.old.least }
        ensures given_up { self.new.given_up ≡ self.old.given_up }
    {
        self.refuted.add(shape)?;
        self.proofs.push(Proof { shape, steps })?;
        Ok(())
    }
}

//! What answers come to together.
ghost use Rattle.std.specs.Prelude.{◌≡◌, ◌+◌, ◌<◌, ◌^◌, ◌∷◌, []};
ghost use Rattle.report_text.specs.Bounds.{IsAnswer};
ghost use Rattle.four_lattice.specs.Minima.{IsTallyOf, joined, tally_ending};
ghost use Rattle.four_lattice.specs.Trial.{tally_of};

use crate::ending::Ending;
use report_text::answer::Answer;

/// How many answers are minima, how many are undecided, and how many cells their lattices have together.
#[derive(Clone, Copy, Debug, PartialEq, Eq)]
pub(crate) struct Tally {
    pub(crate) minimum: u32,
    pub(crate) undecided: u32,
    pub(crate) area: u32,
}

impl Tally {
    /// Of no answer.
    pub(crate) fn new() -> Tally
        ensures { result ≡ tally_of [] }
    {
        Tally {
            minimum: 0,
            undecided: 0,
            area: 0,
        }
    }

    /// Of one answer.
    pub(crate) fn of(answer: &Answer) -> Tally
        requires small { IsAnswer answer.now }
        ensures same { result ≡ tally_of (answer.now ∷ []) }
        ensures few { IsTallyOf 1 result }
    {
        match answer {
            Answer::Minimum(grid) => Tally {
                minimum: 1,
                undecided: 0,
                area: grid.shape().area(),
            },
            Answer::Undecided { grid, .. } => Tally {
                minimum: 0,
                undecided: 1,
                area: grid.shape().area(),
            },
            Answer::Found(grid) | Answer::Mapped { grid, .. } => Tally {
                minimum: 0,
                undecided: 0,
                area: grid.shape().area(),
            },
            Answer::MapUndecided { .. } => Tally {
                minimum: 0,
                undecided: 1,
                area: 0,
            },
            Answer::NoneMapped { .. } | Answer::NoRails { .. } => Tally {
                minimum: 0,
                undecided: 0,
                area: 0,
            },
        }
    }

    /// Of these answers and those.
    pub(crate) fn and(self, other: Tally) -> Tally
        requires few { (self.minimum + other.minimum < 2 ^ 32) × (self.undecided + other.undecided < 2 ^ 32) × (self.area + other.area < 2 ^ 32) }
        ensures { result ≡ joined self other }
    {
        Tally {
            minimum: self.minimum + other.minimum,
            undecided: self.undecided + other.undecided,
            area: self.area + other.area,
        }
    }

    /// How a run ends whose work was done with these answers.
    pub(crate) fn ending(self) -> Ending
        ensures { result ≡ tally_ending self }
    {
        if self.undecided > 0 {
            Ending::Undecided
        } else {
            Ending::Done
        }
    }
}

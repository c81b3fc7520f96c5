//! What a finder of one proposal keeps.
ghost use Rattle.std.specs.Prelude.{◌≡◌, ◌≤◌, None};
ghost use Rattle.finder_set.specs.Kit.{Turn, one_more};

use lattice_grid::grid::Grid;
use std::marker::Model;

/// How often a finder was begun, for how many proposals it may still be asked, and the proposal that it has ready.
#[derive(Drop)]
pub struct Slot {
    left: u32,
    begun: u64,
    ready: Option<Grid>,
}

impl Model for Slot {
    ghost use Rattle.finder_set.specs.Kit.{Turn};

    ghost Value = { Turn };

    ghost view = { λ slot. record { left = slot.left; begun = slot.begun; ready = slot.ready } };
}

impl Slot {
    /// Nothing was begun, and nothing is ready.
    pub fn new() -> Slot
        ensures { result ≡ record { left = 0; begun = 0; ready = None } }
    {
        Slot {
            left: 0,
            begun: 0,
            ready: None,
        }
    }

    /// Counts a call of `begin`, and keeps no proposal.
    pub fn count(&mut self)
        ensures counted { self.new ≡ record { left = 0; begun = one_more self.old.begun; ready = None } }
        ensures later { self.old.begun ≤ self.new.begun }
    {
        self.left = 0;
        self.begun = self.begun.saturating_add(1);
        self.ready = None;
    }

    /// Makes a proposal ready, or none.
    pub fn fill(&mut self, ready: Option<Grid>)
        ensures { self.new ≡ record { left = 1; begun = self.old.begun; ready = ready } }
    {
        self.left = 1;
        self.ready = ready;
    }

    /// For how many proposals may still be asked.
    pub fn left(&self) -> u32
        ensures { result ≡ self.now.left }
    {
        self.left
    }

    /// Gives out what is ready.
    pub fn take(&mut self) -> Option<Grid>
        ensures ready { result ≡ self.old.ready }
        ensures spent { self.new ≡ record { left = 0; begun = self.old.begun; ready = None } }
    {
        self.left = 0;
        self.ready.take()
    }
}

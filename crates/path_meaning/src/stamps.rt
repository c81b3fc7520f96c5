//! Which cells are marked, and which of them wait to be looked at.
ghost use Rattle.std.specs.Prelude.{◌≡◌, ℕ, ◌+◌, ◌<◌, ◌≤◌, ◌==◌, length, IfOk, MatchOption, slice_index, slice_index_or};
ghost use Rattle.path_meaning.specs.Flood.{IsFresh};

use lattice_grid::shape::Place;
use std::alloc::Global;
use std::marker::Model;
use wire_io::fault::NoMemory;

/// For each cell the round in which it was last marked; the cells that wait lie at the front of the stack.
#[derive(Drop)]
pub(crate) struct Marked {
    stamps: Vec<u16>,
    stack: Vec<Place>,
    waiting: usize,
    round: u16,
}

impl Model for Marked {
    ghost use Rattle.path_meaning.specs.Stamps.{Stamps, IsStamps};

    ghost Value = { Stamps };

    ghost view = { λ m. record { stamps = m.stamps.items; stack = m.stack.items; waiting = m.waiting; round = m.round } };

    ghost invariant = { λ m. IsStamps (record { stamps = m.stamps.items; stack = m.stack.items; waiting = m.waiting; round = m.round }) };
}

impl Marked {
    ghost use Rattle.path_meaning.specs.Stamps.{Stamps, IsStamps, pushed, Pops};

    /// Room for so many cells.
    pub(crate) fn new(alloc: Global, cells: u32) -> Result<Marked, NoMemory>
        ensures { IfOk result (λ m. length m.stamps ≡ cells) }
    {
        let cells = cells as usize;
        let stamps = vec![in alloc; 0u16; cells]?;
        let stack = vec![in alloc; Place { row: 0, col: 0 }; cells]?;
        Ok(Marked {
            stamps,
            stack,
            waiting: 0,
            round: 0,
        })
    }

    /// For how many cells there is room.
    pub(crate) fn cells(&self) -> usize
        ensures cells { result ≡ length self.now.stamps }
        ensures kept { IsStamps self.now }
    {
        self.stamps.len()
    }

    /// Begins a round, in which no cell is marked.
    pub(crate) fn begin(&mut self)
        ensures { IsFresh self.old self.new }
    {
        self.waiting = 0;
        if self.round == u16::MAX {
            self.stamps.fill(0);
            self.round = 0;
        }
        self.round += 1;
    }

    /// Whether the cell with this index is marked.
    pub(crate) fn is_marked(&self, index: usize) -> bool
        requires { index < length self.now.stamps }
        ensures { result ≡ (slice_index self.now.stamps index == self.now.round) }
    {
        self.stamps[index] == self.round
    }

    /// Marks the cell with this index, and lets it wait.
    #[tactic(auto, unfolding(crate::specs::Stamps::pushed))]
    pub(crate) fn push(&mut self, index: usize, p: Place)
        requires cell { index < length self.old.stamps }
        requires room { self.old.waiting < length self.old.stack }
        ensures { self.new ≡ pushed index p self.old }
    {
        self.stamps[index] = self.round;
        self.stack[self.waiting] = p;
        self.waiting += 1;
    }

    /// The cell that began to wait last; none exactly where none waits.
    pub(crate) fn pop(&mut self) -> Option<Place>
        ensures { MatchOption result ((self.old.waiting ≡ 0) × (self.new ≡ self.old)) (λ p. Pops self.old p self.new) }
    {
        if self.waiting == 0 {
            return None;
        }
        self.waiting -= 1;
        Some(self.stack[self.waiting])
    }
}

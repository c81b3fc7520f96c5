//! Which places of a trail were met in an analysis.
ghost use Rattle.std.specs.Prelude.{◌≡◌, ℕ, ◌<◌, ◌≤◌, OnOk, All, true, false};

use std::alloc::Global;
use wire_io::fault::NoMemory;

/// A set of places: those whose stamp is the present one. A stamp is a byte, and stamps are read in the order of places.
#[derive(Drop)]
pub struct Met {
    stamps: Vec<u8>,
    present: u8,
    ghost begun: { 0 < present },
    ghost past: { All (λ stamp. stamp ≤ present) stamps.items },
}

impl Met {
    ghost use Rattle.clause_solver.specs.Met.{is_met, room};

    /// No places, and room for none.
    pub fn new(alloc: Global) -> Met {
        Met {
            stamps: Vec::new(alloc),
            present: 1,
        }
    }

    /// Whether a place is one of them.
    pub fn has(&self, place: usize) -> bool
        ensures { result ≡ is_met self.now place }
    {
        place < self.stamps.len() && self.stamps[place] == self.present
    }

    /// Adds a place.
    pub fn add(&mut self, place: usize)
        requires { place < room self.old }
        ensures added { is_met self.new place ≡ true }
        ensures kept { (other : ℕ) → is_met self.old other ≡ true → is_met self.new other ≡ true }
        ensures room { room self.new ≡ room self.old }
    {
        self.stamps[place] = self.present;
    }

    /// Makes room for so many places.
    fn grow(&mut self, count: usize) -> Result<(), NoMemory>
        ensures { OnOk result (count ≤ room self.new) }
    {
        while self.stamps.len() < count {
            self.stamps.push(0)?;
        }
        Ok(())
    }

    /// Takes all places out.
    fn clear(&mut self)
        ensures none { (place : ℕ) → is_met self.new place ≡ false }
        ensures room { room self.new ≡ room self.old }
    {
        if self.present == u8::MAX {
            self.stamps.fill(0);
            self.present = 1;
        } else {
            self.present += 1;
        }
    }

    /// No places, with room for so many.
    pub fn begin(&mut self, count: usize) -> Result<(), NoMemory>
        ensures none { OnOk result ((place : ℕ) → is_met self.new place ≡ false) }
        ensures room { OnOk result (count ≤ room self.new) }
    {
        self.grow(count)?;
        self.clear();
        Ok(())
    }
}

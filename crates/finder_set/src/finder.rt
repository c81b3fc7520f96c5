//! Heuristics that propose lattices.
ghost use Rattle.std.specs.Prelude.{◌≡◌, ℕ, ◌<◌, ◌≤◌, OnOk};
ghost use Rattle.wire_io.specs.Causes.{Rose};

use cube_core::spec::Spec;
use lattice_grid::grid::Grid;
use wire_io::fault::NoMemory;

/// A heuristic that proposes lattices of a function. It is not trusted: nothing is promised of what it proposes.
pub trait Finder: Drop {
    /// How many proposals it may still be asked for.
    ghost left: { Self → ℕ };

    /// How often it was begun, up to the greatest `u64`.
    ghost begun: { Self → ℕ };

    /// Begins with a function and the best lattice so far; it may then be asked for at most 1,000 proposals.
    fn begin(&mut self, spec: &Spec, best: &Grid) -> Result<(), NoMemory>
        ensures begun { OnOk result (Rose (begun self.old) (begun self.new)) }
        ensures later { begun self.old ≤ begun self.new }
        ensures left { OnOk result (left self.new ≤ 1000) };

    /// How many proposals it may still be asked for.
    fn left(&self) -> u32
        ensures { result ≡ left self.now };

    /// A lattice, or none this time. It may still be asked.
    fn propose(&mut self) -> Result<Option<Grid>, NoMemory>
        requires { 0 < left self.old }
        ensures fewer { OnOk result (left self.new < left self.old) }
        ensures later { begun self.old ≤ begun self.new };
}

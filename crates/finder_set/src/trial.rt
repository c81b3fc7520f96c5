//! Tests of lattices that begin where the last one failed.
ghost use Rattle.std.specs.Prelude.{◌≡◌, ℕ, ◌≤◌, true, IfOk};
ghost use Rattle.std.specs.Bool.{MatchBool};
ghost use Rattle.finder_set.specs.Finders.{area_of};
ghost use Rattle.lattice_grid.specs.Realise.{Realises};

use cube_core::assign::Assign;
use cube_core::spec::Spec;
use lattice_grid::grid::Grid;
use path_meaning::marks::Marks;
use path_meaning::paths::joins;
use path_meaning::realise::realises;
use std::alloc::Global;
use std::marker::Model;
use wire_io::fault::NoMemory;

/// Room for tests of lattices, and the assignment at which one failed last.
#[derive(Drop)]
pub(crate) struct Trial {
    marks: Marks,
    last: Option<Assign>,
}

impl Model for Trial {
    ghost use Rattle.std.specs.Prelude.{ℕ};

    ghost Value = { ℕ };

    ghost view = { λ trial. trial.marks };
}

/// Whether the lattice has another value than the function's at an assignment.
#[tactic(auto, using(crate::proofs::TrialLaws::fails_on, crate::proofs::TrialLaws::fails_off))]
fn fails(spec: &Spec, grid: &Grid, x: Assign, marks: &mut Marks) -> bool
    requires { area_of grid.now ≤ marks.old }
    ensures wrong { result ≡ true → Realises grid.now spec.now → ⊥ }
    ensures cells { marks.new ≡ marks.old }
{
    if spec.on().has(x) {
        !joins(grid, x, marks)
    } else if spec.off().has(x) {
        joins(grid, x, marks)
    } else {
        false
    }
}

impl Trial {
    /// Room for lattices of so many cells.
    pub(crate) fn new(alloc: Global, cells: u32) -> Result<Trial, NoMemory>
        ensures { IfOk result (λ trial. trial ≡ cells) }
    {
        Ok(Trial {
            marks: Marks::new(alloc, cells)?,
            last: None,
        })
    }

    /// Whether the lattice fails where the last one did that failed.
    fn fails_again(&mut self, spec: &Spec, grid: &Grid) -> bool
        requires { area_of grid.now ≤ self.old }
        ensures wrong { result ≡ true → Realises grid.now spec.now → ⊥ }
        ensures cells { self.new ≡ self.old }
    {
        match self.last {
            Some(x) => fails(spec, grid, x, &mut self.marks),
            None => false,
        }
    }

    /// Whether the lattice realises the function.
    pub(crate) fn realises(&mut self, spec: &Spec, grid: &Grid) -> bool
        requires { area_of grid.now ≤ self.old }
        ensures cases { MatchBool result (Realises grid.now spec.now) (Realises grid.now spec.now → ⊥) }
        ensures cells { self.new ≡ self.old }
    {
        if self.fails_again(spec, grid) {
            return false;
        }
        match realises(spec, grid, &mut self.marks) {
            Ok(()) => true,
            Err(x) => {
                self.last = Some(x);
                false
            }
        }
    }
}

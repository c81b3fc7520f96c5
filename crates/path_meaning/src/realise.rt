//! Whether a lattice realises a function.
ghost use Rattle.std.specs.Prelude.{◌≡◌, ℕ, ◌*◌, ◌≤◌, ◌↔◌, IsOk, IfErr, IfSome, None};
ghost use Rattle.std.specs.Bool.{MatchBool};
ghost use Rattle.std.specs.Option.{option_copied};
ghost use Rattle.cube_core.specs.Function.{IsFunction};
ghost use Rattle.lattice_grid.specs.Realise.{Realises};
ghost use Rattle.path_meaning.specs.Defective.{RealisesIn};
ghost use Rattle.path_meaning.specs.Failing.{MeetsIn, FailsIn, IsLeastFailure, IsLeastFailureIn};

use crate::cells::At;
use crate::marks::Marks;
use cube_core::assign::Assign;
use cube_core::spec::Spec;
use lattice_grid::array::Array;
use lattice_grid::grid::Grid;

/// Whether the lattice has the function's value at an assignment, or the function is free there.
fn meets(spec: &Spec, grid: &Grid, array: Option<&Array>, x: Assign, marks: &mut Marks) -> bool
    requires function { IsFunction spec.now }
    requires same { IfSome (option_copied array) (λ a. a.size ≡ grid.now.size) }
    requires room { grid.now.size.rows * grid.now.size.cols ≤ marks.old }
    ensures cases { MatchBool result (MeetsIn grid.now (option_copied array.entry) spec.now x) (FailsIn grid.now (option_copied array.entry) spec.now x) }
    ensures cells { marks.new ≡ marks.old }
{
    if spec.on().has(x) {
        marks.leads_down(&At { grid, array, x })
    } else {
        !spec.off().has(x) || !marks.leads_down(&At { grid, array, x })
    }
}

/// Ok exactly where the lattice joins its plates at each on assignment and at no off assignment, on the array where there
/// is one, which is to have its shape; otherwise the least assignment at which that fails.
pub fn realises_in(
    spec: &Spec,
    grid: &Grid,
    array: Option<&Array>,
    marks: &mut Marks,
) -> Result<(), Assign>
    requires same { IfSome (option_copied array) (λ a. a.size ≡ grid.now.size) }
    requires room { grid.now.size.rows * grid.now.size.cols ≤ marks.old }
    ensures ok { IsOk result ↔ RealisesIn grid.now spec.now (option_copied array.entry) }
    ensures least { IfErr result (IsLeastFailureIn grid.now (option_copied array.entry) spec.now) }
    ensures cells { marks.new ≡ marks.old }
{
    for number in 0..1u16 << spec.inputs() {
        if let Some(x) = Assign::new(number) {
            if !meets(spec, grid, array, x, marks) {
                return Err(x);
            }
        }
    }
    Ok(())
}

/// Ok exactly where the lattice joins its plates at each on assignment and at no off assignment; otherwise the least
/// assignment at which that fails.
pub fn realises(spec: &Spec, grid: &Grid, marks: &mut Marks) -> Result<(), Assign>
    requires { grid.now.size.rows * grid.now.size.cols ≤ marks.old }
    ensures ok { IsOk result ↔ Realises grid.now spec.now }
    ensures least { IfErr result (IsLeastFailure grid.now spec.now) }
    ensures cells { marks.new ≡ marks.old }
{
    realises_in(spec, grid, None, marks)
}

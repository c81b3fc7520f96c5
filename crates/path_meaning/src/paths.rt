//! Paths and cuts of a lattice at an assignment.
ghost use Rattle.std.specs.Prelude.{◌≡◌, ◌*◌, ◌≤◌, ◌↔◌, IsTrue};
ghost use Rattle.lattice_grid.specs.Realise.{Joined, Cut};

use crate::cells::At;
use crate::marks::Marks;
use cube_core::assign::Assign;
use lattice_grid::grid::Grid;

/// Whether a path of on-cells over four-neighbours leads from the top row to the bottom row.
pub fn joins(grid: &Grid, x: Assign, marks: &mut Marks) -> bool
    requires { grid.now.size.rows * grid.now.size.cols ≤ marks.old }
    ensures joined { IsTrue result ↔ Joined grid.now x }
    ensures not_cut { IsTrue result ↔ (Cut grid.now x → ⊥) }
    ensures cells { marks.new ≡ marks.old }
{
    let at = At {
        grid,
        array: None,
        x,
    };
    marks.leads_down(&at)
}

/// Whether a path of off-cells over eight-neighbours leads from the left column to the right column. One does exactly
/// where no path of on-cells leads from the top row to the bottom row, so the flood from the top tells it too.
pub fn cut(grid: &Grid, x: Assign, marks: &mut Marks) -> bool
    requires { grid.now.size.rows * grid.now.size.cols ≤ marks.old }
    ensures cut { IsTrue result ↔ Cut grid.now x }
    ensures not_joined { IsTrue result ↔ (Joined grid.now x → ⊥) }
    ensures cells { marks.new ≡ marks.old }
{
    let at = At {
        grid,
        array: None,
        x,
    };
    !marks.leads_down(&at)
}

//! The test of a proposal.
ghost use Rattle.std.specs.Prelude.{◌≡◌, ◌≤◌, MatchOption};
ghost use Rattle.finder_set.specs.Finders.{area_of};
ghost use Rattle.finder_tools.specs.Proposed.{IsRightBelow};

use cube_core::spec::Spec;
use lattice_grid::grid::Grid;
use path_meaning::marks::Marks;
use path_meaning::realise::realises;

/// The lattice, exactly where it names only the spec's inputs, realises it and has fewer cells than the best one, for which the
/// marks have room.
pub fn tested(spec: &Spec, best: &Grid, grid: Grid, marks: &mut Marks) -> Option<Grid>
    requires { area_of best.now ≤ marks.old }
    ensures given { MatchOption result (IsRightBelow spec.now best.now grid → ⊥) (λ given. (given ≡ grid) × IsRightBelow spec.now best.now given) }
    ensures cells { marks.new ≡ marks.old }
{
    if grid.shape().area() < best.shape().area()
        && grid.names_below(spec.inputs())
        && realises(spec, &grid, marks).is_ok()
    {
        Some(grid)
    } else {
        None
    }
}

//! The largest shapes of an area.
ghost use Rattle.std.specs.Prelude.{◌≡◌, ℕ, ◌+◌, ◌<◌, ◌≤◌, IfOk};
ghost use Rattle.lattice_grid.specs.Rectangle.{Size, IsSize, FitsInside};
ghost use Rattle.shape_list.specs.Shapes.{area_of, IsStep, IsStair, IsCoveredBelow};

use lattice_grid::shape::Shape;
use std::alloc::Global;
use wire_io::fault::NoMemory;

/// The first of the largest shapes of at most this area that has at least so many rows.
pub(crate) fn step_from(area: u32, rows: u32) -> Shape
    requires some { 1 ≤ rows }
    requires within { rows ≤ area }
    requires few { area ≤ 1048576 }
    ensures step { IsStep area result }
    ensures rows { rows ≤ result.rows }
    ensures covers { (s : Size) → IsSize s → area_of s ≤ area → rows ≤ s.rows → s.rows ≤ result.rows → FitsInside s result }
{
    let cols = area / rows;
    Shape::new(area / cols, cols).unwrap()
}

/// The shapes of at most this area, which is from 1 to 1,048,576, that fit inside no other such shape, by rising rows. Each
/// shape of at most this area fits inside one of them.
pub fn stair(alloc: Global, area: u32) -> Result<Vec<Shape>, NoMemory>
    requires some { 1 ≤ area }
    requires few { area ≤ 1048576 }
    ensures steps { IfOk result (λ shapes. IsStair area shapes.items) }
    ensures covers { IfOk result (λ shapes. IsCoveredBelow shapes.items (area + 1)) }
{
    let mut shapes = Vec::new(alloc);
    let mut rows = 1;
    while rows <= area {
        let step = step_from(area, rows);
        shapes.push(step)?;
        rows = step.rows() + 1;
    }
    Ok(shapes)
}

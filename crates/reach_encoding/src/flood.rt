//! A flood of the free cells of a rectangle, from one side.
ghost use Rattle.std.specs.Prelude.{◌≡◌, ◌*◌, ◌<◌, [], ◌∷◌, ◌↔◌, All, length, IfOk, OnOk};
ghost use Rattle.std.specs.List.{Contains};
ghost use Rattle.lattice_grid.specs.Path.{IsWithin};
ghost use Rattle.reach_encoding.specs.ModelOf.{IsFlood, IsFlooded, Spreads, StartsAt, around, is_free};

use lattice_grid::neighbours::{eight, four};
use lattice_grid::shape::{Place, Shape};
use std::alloc::Global;
use wire_io::fault::NoMemory;

/// Where a flood begins, and how it spreads.
#[derive(Clone, Copy)]
pub(crate) enum Side {
    /// It begins in the top row, enters cells that are on, and spreads to four-neighbours.
    Down,
    /// It begins in the left column, enters cells that are not on, and spreads to eight-neighbours.
    Across,
}

impl Side {
    /// Whether a flood from this side enters a cell that is on, or is not.
    pub(crate) fn lets_in(self, on: bool) -> bool
        ensures { result ≡ is_free self on }
    {
        match self {
            Side::Down => on,
            Side::Across => !on,
        }
    }
}

/// Marks a cell that is free and not marked, and lets it wait.
fn visit(
    shape: Shape,
    free: &[bool],
    p: Place,
    marks: &mut Vec<bool>,
    waiting: &mut Vec<Place>,
) -> Result<(), NoMemory>
    requires row { p.row < shape.rows }
    requires col { p.col < shape.cols }
    requires free { length free.now ≡ shape.rows * shape.cols }
    requires marks { length marks.old.items ≡ shape.rows * shape.cols }
    ensures spreads { OnOk result (Spreads shape free.now (p ∷ []) marks.old.items waiting.old.items marks.new.items waiting.new.items) }
{
    let index = (p.row * shape.cols() + p.col) as usize;
    if free[index] && !marks[index] {
        marks[index] = true;
        waiting.push(p)?;
    }
    Ok(())
}

/// Does so with each of some cells.
fn visit_all(
    shape: Shape,
    free: &[bool],
    places: &[Place],
    marks: &mut Vec<bool>,
    waiting: &mut Vec<Place>,
) -> Result<(), NoMemory>
    requires places { All (IsWithin shape) places.now }
    requires free { length free.now ≡ shape.rows * shape.cols }
    requires marks { length marks.old.items ≡ shape.rows * shape.cols }
    ensures spreads { OnOk result (Spreads shape free.now places.now marks.old.items waiting.old.items marks.new.items waiting.new.items) }
{
    for p in places {
        visit(shape, free, *p, marks, waiting)?;
    }
    Ok(())
}

/// Does so with the neighbours of a cell.
fn visit_around(
    shape: Shape,
    free: &[bool],
    side: Side,
    p: Place,
    marks: &mut Vec<bool>,
    waiting: &mut Vec<Place>,
) -> Result<(), NoMemory>
    requires row { p.row < shape.rows }
    requires col { p.col < shape.cols }
    requires free { length free.now ≡ shape.rows * shape.cols }
    requires marks { length marks.old.items ≡ shape.rows * shape.cols }
    ensures spreads { OnOk result (Spreads shape free.now (around shape side p) marks.old.items waiting.old.items marks.new.items waiting.new.items) }
{
    match side {
        Side::Down => {
            let near = four(shape, p);
            visit_all(shape, free, near.as_slice(), marks, waiting)
        }
        Side::Across => {
            let near = eight(shape, p);
            visit_all(shape, free, near.as_slice(), marks, waiting)
        }
    }
}

/// The cells of the top row.
fn top(alloc: Global, shape: Shape) -> Result<Vec<Place>, NoMemory>
    ensures { IfOk result (λ cells. (p : Place) → Contains cells.items p ↔ (IsWithin shape p × (p.row ≡ 0))) }
{
    let mut cells = Vec::new(alloc);
    for col in 0..shape.cols() {
        cells.push(Place { row: 0, col })?;
    }
    Ok(cells)
}

/// The cells of the left column.
fn left(alloc: Global, shape: Shape) -> Result<Vec<Place>, NoMemory>
    ensures { IfOk result (λ cells. (p : Place) → Contains cells.items p ↔ (IsWithin shape p × (p.col ≡ 0))) }
{
    let mut cells = Vec::new(alloc);
    for row in 0..shape.rows() {
        cells.push(Place { row, col: 0 })?;
    }
    Ok(cells)
}

/// The cells at which a flood begins.
fn starts(alloc: Global, shape: Shape, side: Side) -> Result<Vec<Place>, NoMemory>
    ensures { IfOk result (λ cells. (p : Place) → Contains cells.items p ↔ (IsWithin shape p × StartsAt side p)) }
{
    match side {
        Side::Down => top(alloc, shape),
        Side::Across => left(alloc, shape),
    }
}

/// Goes on from the cells that wait until none does.
fn spread(
    shape: Shape,
    free: &[bool],
    side: Side,
    marks: &mut Vec<bool>,
    waiting: &mut Vec<Place>,
) -> Result<(), NoMemory>
    requires free { length free.now ≡ shape.rows * shape.cols }
    requires flood { IsFlood shape free.now side marks.old.items waiting.old.items }
    ensures { OnOk result (IsFlooded shape free.now side marks.new.items) }
{
    while let Some(p) = waiting.pop() {
        visit_around(shape, free, side, p, marks, waiting)?;
    }
    Ok(())
}

/// Marks exactly the free cells that are reached over free cells from the side at which the flood begins.
pub(crate) fn flood(
    alloc: Global,
    shape: Shape,
    free: &[bool],
    side: Side,
) -> Result<Vec<bool>, NoMemory>
    requires { length free.now ≡ shape.rows * shape.cols }
    ensures { IfOk result (λ marks. IsFlooded shape free.now side marks.items) }
{
    let mut marks = vec![in alloc; false; shape.area() as usize]?;
    let mut waiting = Vec::new(alloc);
    let first = starts(alloc, shape, side)?;
    visit_all(shape, free, first.as_slice(), &mut marks, &mut waiting)?;
    spread(shape, free, side, &mut marks, &mut waiting)?;
    Ok(marks)
}

//! Lattices that get smaller by a row or a column at a time, as long as they realise a function.
ghost use Rattle.std.specs.Prelude.{◌≡◌, ℕ, ◌<◌, ◌≤◌, ◌==◌, IfOk, IfSome, if◌then◌else◌};
ghost use Rattle.std.specs.Option.{unwrap_or};
ghost use Rattle.finder_set.specs.Finders.{area_of};
ghost use Rattle.finder_set.specs.Shrinking.{places_of, IsChanged, Shrinks, ShrinksTwice, ProposesSmaller, IsRightAndSmaller};
ghost use Rattle.finder_set.specs.Tried.{HasTried};
ghost use Rattle.lattice_grid.specs.Lattice.{IsOver};
ghost use Rattle.lattice_grid.specs.Rectangle.{IsSize};

use crate::folded::{Neighbours, folded};
use crate::trial::Trial;
use cube_core::spec::Spec;
use lattice_compose::without::{drop_col, drop_row};
use lattice_grid::grid::Grid;
use std::alloc::Global;
use wire_io::fault::NoMemory;

/// The most cells of a lattice that is made smaller.
const MOST: u32 = 1024;

/// A way in which a lattice gets one row or one column less.
#[derive(Clone, Copy)]
pub(crate) enum Change {
    RowDropped,
    ColumnDropped,
    ColumnsFolded,
    RowsFolded,
}

/// So many lines, but none where there is only one.
fn spare(lines: u32) -> u32
    ensures { result ≡ (if lines == 1 then 0 else lines) }
{
    if lines == 1 { 0 } else { lines }
}

/// At how many places a lattice may be changed.
fn places(change: Change, grid: &Grid) -> u32
    ensures same { result ≡ places_of change grid.now }
    ensures size { IsSize grid.now.size }
{
    let shape = grid.shape();
    let (rows, cols) = (shape.rows(), shape.cols());
    match change {
        Change::RowDropped => spare(rows),
        Change::ColumnDropped => spare(cols),
        Change::ColumnsFolded => cols - 1,
        Change::RowsFolded => rows - 1,
    }
}

/// The lattice after the change at a place.
fn changed(alloc: Global, change: Change, grid: &Grid, place: u32) -> Result<Grid, NoMemory>
    requires place { place < places_of change grid.now }
    requires size { IsSize grid.now.size }
    ensures changed { IfOk result (IsChanged change place grid.now) }
    ensures over { IfOk result (λ less. (n : ℕ) → IsOver n grid.now → IsOver n less) }
    ensures smaller { IfOk result (λ less. area_of less < area_of grid.now) }
{
    match change {
        Change::RowDropped => drop_row(alloc, grid, place),
        Change::ColumnDropped => drop_col(alloc, grid, place),
        Change::ColumnsFolded => folded(alloc, Neighbours::Columns, grid, place),
        Change::RowsFolded => folded(alloc, Neighbours::Rows, grid, place),
    }
}

/// The lattice after the change at a place, if it still realises the spec.
fn tried(
    alloc: Global,
    change: Change,
    spec: &Spec,
    grid: &Grid,
    place: u32,
    trial: &mut Trial,
) -> Result<Option<Grid>, NoMemory>
    requires place { place < places_of change grid.now }
    requires size { IsSize grid.now.size }
    requires room { area_of grid.now ≤ trial.old }
    ensures tried { IfOk result (HasTried change spec.now place grid.now) }
    ensures cells { trial.new ≡ trial.old }
{
    let less = changed(alloc, change, grid, place)?;
    if trial.realises(spec, &less) {
        Ok(Some(less))
    } else {
        Ok(None)
    }
}

/// The smaller lattice, where there is one.
fn current<'a>(best: &'a Grid, smaller: &'a Option<Grid>) -> &'a Grid
    ensures { result.now ≡ unwrap_or smaller.now best.now }
{
    match smaller {
        Some(grid) => grid,
        None => best,
    }
}

/// What becomes of a lattice from the first place on, or none where no change is taken.
fn shrunk(
    alloc: Global,
    change: Change,
    spec: &Spec,
    best: &Grid,
    trial: &mut Trial,
) -> Result<Option<Grid>, NoMemory>
    requires { area_of best.now ≤ trial.old }
    ensures shrinks { IfOk result (λ smaller. Shrinks change spec.now 0 best.now (unwrap_or smaller best.now)) }
    ensures right { IfOk result (λ smaller. IfSome smaller (IsRightAndSmaller spec.now best.now)) }
    ensures cells { trial.new ≡ trial.old }
{
    let mut smaller = None;
    let mut place = 0;
    while place < places(change, current(best, &smaller)) {
        match tried(alloc, change, spec, current(best, &smaller), place, trial)? {
            Some(less) => smaller = Some(less),
            None => place += 1,
        }
    }
    Ok(smaller)
}

/// The proposal of a smaller lattice by one kind of changes, and then by another.
pub(crate) fn proposed(
    alloc: Global,
    first: Change,
    second: Change,
    spec: &Spec,
    best: &Grid,
) -> Result<Option<Grid>, NoMemory>
    ensures ready { IfOk result (ProposesSmaller (ShrinksTwice first second spec.now) best.now) }
    ensures right { IfOk result (λ ready. IfSome ready (IsRightAndSmaller spec.now best.now)) }
{
    let area = best.shape().area();
    if area > MOST {
        return Ok(None);
    }
    let mut trial = Trial::new(alloc, area)?;
    let once = shrunk(alloc, first, spec, best, &mut trial)?;
    let twice = shrunk(alloc, second, spec, current(best, &once), &mut trial)?;
    Ok(twice.or(once))
}

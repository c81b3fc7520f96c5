//! Lattices put together from the dual products of two parts of a cover.
ghost use Rattle.std.specs.Prelude.{◌≡◌, ◌↔◌, ◌≤◌, IfOk, IfSome, IsTrue};
ghost use Rattle.cover_make.specs.Cubes.{table_of};
ghost use Rattle.cube_core.specs.Function.{IsFunction};
ghost use Rattle.dual_product.specs.Dual.{dual_of};
ghost use Rattle.finder_set.specs.Put.{HasPut, HasPutParts};
ghost use Rattle.finder_set.specs.Splitting.{cubes_of, part_of, area_put, ProposesSplit, IsRight};

use cover_make::cover::{cover, off_cover};
use cover_make::cubes::CubeList;
use cube_core::cube::Cube;
use cube_core::spec::Spec;
use cube_core::table::Table;
use dual_product::dual::dual_product;
use lattice_compose::compose::{both, either};
use lattice_grid::grid::Grid;
use lattice_grid::shape::Shape;
use std::alloc::Global;
use wire_io::fault::NoMemory;

/// Which cover is parted: the one of the on assignments, or the one of what it leaves.
#[derive(Clone, Copy)]
pub(crate) enum Side {
    On,
    Off,
}

/// The cover that is parted.
fn cubes(alloc: Global, side: Side, spec: &Spec) -> Result<CubeList, NoMemory>
    ensures list { IfOk result (λ list. list ≡ record { inputs = spec.now.inputs; cubes = cubes_of side spec.now }) }
    ensures function { IsFunction spec.now }
{
    let room = spec.off().complement(spec.inputs());
    let ons = cover(alloc, spec.inputs(), spec.on(), &room)?;
    match side {
        Side::On => Ok(ons),
        Side::Off => off_cover(alloc, &ons),
    }
}

/// The assignments of so many inputs that are in some of the cubes.
fn table_of(inputs: u8, cubes: &[Cube]) -> Table
    requires { inputs ≤ 10 }
    ensures { result ≡ table_of inputs cubes.now }
{
    let mut table = Table::empty();
    for cube in cubes {
        table.add_cube(inputs, cube);
    }
    table
}

/// The function of a part.
fn part(side: Side, inputs: u8, cubes: &[Cube]) -> Spec
    requires some { 1 ≤ inputs }
    requires few { inputs ≤ 10 }
    ensures { result ≡ part_of side inputs cubes.now }
{
    let table = table_of(inputs, cubes);
    let rest = table.complement(inputs);
    match side {
        Side::On => Spec::new(inputs, table, rest).unwrap(),
        Side::Off => Spec::new(inputs, rest, table).unwrap(),
    }
}

/// Whether a lattice has room for two that are put together.
fn has_room(side: Side, first: Shape, other: Shape) -> bool
    ensures { IsTrue result ↔ (area_put side first other ≤ 1048576) }
{
    let (rows, cols) = match side {
        Side::On => (
            first.rows().max(other.rows()),
            first.cols() + 1 + other.cols(),
        ),
        Side::Off => (
            first.rows() + 1 + other.rows(),
            first.cols().max(other.cols()),
        ),
    };
    Shape::new(rows, cols).is_some()
}

/// The two lattices put together, if there is room for them.
fn put(alloc: Global, side: Side, first: &Grid, other: &Grid) -> Result<Option<Grid>, NoMemory>
    ensures { IfOk result (HasPut side first.now other.now) }
{
    if !has_room(side, first.shape(), other.shape()) {
        return Ok(None);
    }
    let grid = match side {
        Side::On => either(alloc, first, other)?,
        Side::Off => both(alloc, first, other)?,
    };
    Ok(Some(grid))
}

/// The dual product of a part.
fn dual_of_part(alloc: Global, side: Side, inputs: u8, cubes: &[Cube]) -> Result<Grid, NoMemory>
    requires some { 1 ≤ inputs }
    requires few { inputs ≤ 10 }
    ensures { IfOk result (λ grid. grid ≡ dual_of (part_of side inputs cubes.now)) }
{
    dual_product(alloc, &part(side, inputs, cubes))
}

/// The dual products of the two parts of a list put together, if there is room for them.
fn of_parts(alloc: Global, side: Side, list: &CubeList) -> Result<Option<Grid>, NoMemory>
    ensures { IfOk result (HasPutParts side list.now) }
{
    let inputs = list.inputs();
    let cubes = list.cubes();
    let (front, back) = cubes.split_at((cubes.len() + 1) / 2);
    let first = dual_of_part(alloc, side, inputs, front)?;
    let other = dual_of_part(alloc, side, inputs, back)?;
    put(alloc, side, &first, &other)
}

/// The proposal of the dual products of the two parts of a cover.
pub(crate) fn proposed(alloc: Global, side: Side, spec: &Spec) -> Result<Option<Grid>, NoMemory>
    ensures ready { IfOk result (ProposesSplit side spec.now) }
    ensures right { IfOk result (λ ready. IfSome ready (IsRight spec.now)) }
{
    if spec.on().is_empty() || spec.off().is_empty() {
        return Ok(None);
    }
    let list = cubes(alloc, side, spec)?;
    if list.cubes().len() < 2 {
        return Ok(None);
    }
    of_parts(alloc, side, &list)
}

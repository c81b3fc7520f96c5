//! The dual product.
ghost use Rattle.std.specs.Prelude.{◌≡◌, ◌<◌, ◌++◌, length, map, All, IfOk, OnOk};
ghost use Rattle.std.specs.FinSet as set;
ghost use Rattle.std.specs.List.{flat_map};
ghost use Rattle.cube_core.specs.Cube.{Meet};
ghost use Rattle.cube_core.specs.Function.{IsFunction};
ghost use Rattle.cover_make.specs.Cover.{off_cover_of};
ghost use Rattle.lattice_grid.specs.Lattice.{IsOver};
ghost use Rattle.lattice_grid.specs.Pairs.{single};
ghost use Rattle.lattice_grid.specs.Realise.{Realises};
ghost use Rattle.dual_product.specs.Dual.{control_of, literal_against, AreApart, dual_between, on_cover_of, dual_of};

use cover_make::cover::{cover, off_cover};
use cube_core::cube::Cube;
use cube_core::spec::Spec;
use cube_core::table::Table;
use lattice_grid::control::Control;
use lattice_grid::grid::Grid;
use lattice_grid::pairs::single_cell;
use lattice_grid::shape::Shape;
use std::alloc::Global;
use wire_io::fault::NoMemory;

/// The control of a literal of an input; of no literal a switch that is never on.
fn control(literal: Option<bool>, input: u8) -> Control
    ensures { result ≡ control_of literal input }
{
    match literal {
        Some(true) => Control::Plain(input),
        Some(false) => Control::Bar(input),
        None => Control::Zero,
    }
}

/// The literal of the on cube at the least input at which the two clash.
fn literal_against(on: &Cube, off: &Cube) -> Control
    requires { Meet on.now off.now → ⊥ }
    ensures { result ≡ literal_against on.now off.now }
{
    let input = on.clash(off).unwrap();
    control(on.literal(input), input)
}

/// Adds the row of an off cube.
fn push_row(cells: &mut Vec<Control>, ons: &[Cube], off: &Cube) -> Result<(), NoMemory>
    requires { All (λ c. Meet c off.now → ⊥) ons.now }
    ensures { OnOk result (cells.new.items ≡ cells.old.items ++ map (λ c. literal_against c off.now) ons.now) }
{
    for on in ons {
        cells.push(literal_against(on, off))?;
    }
    Ok(())
}

/// The rows of all off cubes.
fn rows(alloc: Global, ons: &[Cube], offs: &[Cube]) -> Result<Vec<Control>, NoMemory>
    requires { All (λ d. All (λ c. Meet c d → ⊥) ons.now) offs.now }
    ensures { IfOk result (λ cells. cells.items ≡ flat_map (λ d. map (λ c. literal_against c d) ons.now) offs.now) }
{
    let mut cells = Vec::new(alloc);
    for off in offs {
        push_row(&mut cells, ons, off)?;
    }
    Ok(cells)
}

/// The lattice of a column for each on cube and a row for each off cube.
fn cells_between(alloc: Global, ons: &[Cube], offs: &[Cube]) -> Result<Grid, NoMemory>
    requires apart { AreApart ons.now offs.now }
    requires some_ons { 0 < length ons.now }
    requires some_offs { 0 < length offs.now }
    ensures { IfOk result (λ grid. grid ≡ dual_between ons.now offs.now) }
{
    let cells = rows(alloc, ons, offs)?;
    let shape = Shape::new(offs.len() as u32, ons.len() as u32).unwrap();
    Ok(Grid::new(shape, cells).unwrap())
}

/// The lattice of the cover of the on assignments and its off cover.
fn between_covers(alloc: Global, inputs: u8, on: &Table, off: &Table) -> Result<Grid, NoMemory>
    requires function { IsFunction (record { inputs = inputs; on = on.now; off = off.now }) }
    requires some_on { on.now ≡ set.empty → ⊥ }
    requires some_off { off.now ≡ set.empty → ⊥ }
    ensures { let ons = on_cover_of (record { inputs = inputs; on = on.now; off = off.now }) in IfOk result (λ grid. grid ≡ dual_between ons.cubes (off_cover_of ons)) }
{
    let room = off.complement(inputs);
    let ons = cover(alloc, inputs, on, &room)?;
    let offs = off_cover(alloc, &ons)?;
    cells_between(alloc, ons.cubes(), offs.cubes())
}

/// The dual product.
fn build(alloc: Global, spec: &Spec) -> Result<Grid, NoMemory>
    ensures cells { IfOk result (λ grid. grid ≡ dual_of spec.now) }
    ensures function { IsFunction spec.now }
{
    let inputs = spec.inputs();
    if spec.on().is_empty() {
        single_cell(alloc, Control::Zero)
    } else if spec.off().is_empty() {
        single_cell(alloc, Control::One)
    } else {
        between_covers(alloc, inputs, spec.on(), spec.off())
    }
}

/// The dual product: one cell `0` where no assignment is on, else one cell `1` where none is off. Otherwise one column
/// for each cube of the cover of the on assignments within all that are not off, and one row for each cube of the
/// cover of what that cover leaves, within this, in order; each cell is the literal of its column's cube at the least
/// input at which this and its row's cube clash.
pub fn dual_product(alloc: Global, spec: &Spec) -> Result<Grid, NoMemory>
    ensures cells { IfOk result (λ grid. grid ≡ dual_of spec.now) }
    ensures over { IfOk result (IsOver spec.now.inputs) }
    ensures realises { IfOk result (λ grid. Realises grid spec.now) }
{
    build(alloc, spec)
}

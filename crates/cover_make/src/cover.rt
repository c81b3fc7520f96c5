//! The cover of a set of assignments within a larger one.
ghost use Rattle.std.specs.Prelude.{◌≡◌, ◌≤◌, ◌^◌, [], All, length, IfOk};
ghost use Rattle.cube_core.specs.Members.{IsWithin, AllBelow};
ghost use Rattle.cube_core.specs.Cube.{IsInside, Meet};
ghost use Rattle.cover_make.specs.Cubes.{AreProducts, Covers, uncovered_by};
ghost use Rattle.cover_make.specs.Tails.{tails_of};
ghost use Rattle.cover_make.specs.Cover.{expansion_from, expansions_below, irredundant_part, cover_of, off_cover_of, IsPrime, IsIrredundant};

use crate::cubes::CubeList;
use cube_core::assign::Assign;
use cube_core::cube::Cube;
use cube_core::table::Table;
use std::alloc::Global;
use wire_io::fault::NoMemory;

/// The expansion of the cube of one assignment: of inputs 0, 1, .. in turn the literal is dropped, if the cube without
/// it stays inside the room.
fn expand(inputs: u8, x: Assign, room: &Table) -> Cube
    requires { inputs ≤ 10 }
    ensures { result ≡ expansion_from inputs room.now x }
{
    let mut cube = Cube::point(inputs, x);
    for input in 0..inputs {
        let wider = cube.without(input);
        if wider.inside(inputs, room) {
            cube = wider;
        }
    }
    cube
}

/// The expansions from the assignments of need in rising order, but for those that a cube found so far has.
fn expand_all(alloc: Global, inputs: u8, need: &Table, room: &Table) -> Result<Vec<Cube>, NoMemory>
    requires few { inputs ≤ 10 }
    requires below { AllBelow (2 ^ inputs) need.now }
    ensures { IfOk result (λ cubes. cubes.items ≡ expansions_below inputs need.now room.now (2 ^ inputs)) }
{
    let mut cubes = Vec::new(alloc);
    let mut left = need.copy();
    while let Some(x) = left.first() {
        let cube = expand(inputs, x, room);
        cubes.push(cube)?;
        left = left.minus(&Table::of_cube(inputs, &cube));
    }
    Ok(cubes)
}

/// For each place of a list, from the last to the first, the assignments that some cube behind it has.
fn tails(alloc: Global, inputs: u8, cubes: &[Cube]) -> Result<Vec<Table>, NoMemory>
    requires { inputs ≤ 10 }
    ensures { IfOk result (λ tails. tails.items ≡ tails_of inputs cubes.now) }
{
    let mut tails = Vec::new(alloc);
    let mut behind = Table::empty();
    for place in (0..cubes.len()).rev() {
        tails.push(behind.copy())?;
        behind.add_cube(inputs, &cubes[place]);
    }
    Ok(tails)
}

/// The cubes that are kept, from the first to the last: each without which those kept before and the later ones do not
/// cover need.
fn irredundant(
    alloc: Global,
    inputs: u8,
    need: &Table,
    cubes: &[Cube],
    mut tails: Vec<Table>,
) -> Result<Vec<Cube>, NoMemory>
    requires few { inputs ≤ 10 }
    requires tails { tails.items ≡ tails_of inputs cubes.now }
    ensures { IfOk result (λ kept. kept.items ≡ irredundant_part inputs need.now [] cubes.now) }
{
    let mut kept = Vec::new(alloc);
    let mut before = Table::empty();
    for cube in cubes {
        let later = tails.pop().unwrap();
        if !need.is_within(&before.or(&later)) {
            kept.push(*cube)?;
            before.add_cube(inputs, cube);
        }
    }
    Ok(kept)
}

/// The cover of need within the room.
fn make(alloc: Global, inputs: u8, need: &Table, room: &Table) -> Result<CubeList, NoMemory>
    requires some { 1 ≤ inputs }
    requires few { inputs ≤ 10 }
    requires below { AllBelow (2 ^ inputs) need.now }
    ensures { IfOk result (λ list. list ≡ record { inputs = inputs; cubes = cover_of inputs need.now room.now }) }
{
    let all = expand_all(alloc, inputs, need, room)?;
    let tails = tails(alloc, inputs, &all)?;
    let cubes = irredundant(alloc, inputs, need, &all, tails)?;
    Ok(CubeList::new(inputs, cubes))
}

/// The cover of all assignments that are in no cube of a list, within these.
fn make_off(alloc: Global, cover: &CubeList) -> Result<CubeList, NoMemory>
    ensures list { IfOk result (λ list. list ≡ record { inputs = cover.now.inputs; cubes = off_cover_of cover.now }) }
    ensures kept { AreProducts cover.now }
{
    let inputs = cover.inputs();
    let rest = cover.table().complement(inputs);
    make(alloc, inputs, &rest, &rest)
}

/// The cover of need within the room: of 1 to 10 inputs, need within the room, and the room of assignments of the inputs.
/// The assignments of need are taken in rising order, but for those that a cube found so far has. Each gives the cube
/// that cares for all inputs there and that loses its literals of inputs 0, 1, .. in turn, each if the cube without it
/// stays inside the room. Then each cube, from the first to the last, is removed if those that remain without it cover
/// need.
pub fn cover(alloc: Global, inputs: u8, need: &Table, room: &Table) -> Result<CubeList, NoMemory>
    requires some { 1 ≤ inputs }
    requires few { inputs ≤ 10 }
    requires within { IsWithin need.now room.now }
    requires below { AllBelow (2 ^ inputs) room.now }
    ensures list { IfOk result (λ list. list ≡ record { inputs = inputs; cubes = cover_of inputs need.now room.now }) }
    ensures inside { IfOk result (λ list. All (λ c. IsInside inputs c room.now) list.cubes) }
    ensures covers { IfOk result (λ list. Covers list.cubes need.now) }
    ensures prime { IfOk result (λ list. All (IsPrime inputs room.now) list.cubes) }
    ensures irredundant { IfOk result (λ list. IsIrredundant list.cubes need.now) }
    ensures products { IfOk result AreProducts }
    ensures few { IfOk result (λ list. length list.cubes ≤ 1024) }
{
    make(alloc, inputs, need, room)
}

/// The cover of all assignments that are in no cube of a list, within these.
pub fn off_cover(alloc: Global, cover: &CubeList) -> Result<CubeList, NoMemory>
    ensures list { IfOk result (λ list. list ≡ record { inputs = cover.now.inputs; cubes = off_cover_of cover.now }) }
    ensures inside { IfOk result (λ list. All (λ c. IsInside cover.now.inputs c (uncovered_by cover.now)) list.cubes) }
    ensures covers { IfOk result (λ list. Covers list.cubes (uncovered_by cover.now)) }
    ensures prime { IfOk result (λ list. All (IsPrime cover.now.inputs (uncovered_by cover.now)) list.cubes) }
    ensures irredundant { IfOk result (λ list. IsIrredundant list.cubes (uncovered_by cover.now)) }
    ensures apart { IfOk result (λ list. All (λ d. All (λ c. Meet c d → ⊥) cover.now.cubes) list.cubes) }
    ensures products { IfOk result AreProducts }
    ensures few { IfOk result (λ list. length list.cubes ≤ 1024) }
{
    make_off(alloc, cover)
}

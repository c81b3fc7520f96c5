//! The finder.
ghost use Rattle.std.specs.Prelude.{◌≡◌, ◌<◌, ◌≤◌, None, OnOk, OnErr, IfOk, IfSome};
ghost use Rattle.finder_set.specs.Finders.{area_of};
ghost use Rattle.finder_set.specs.Kit.{one_more};
ghost use Rattle.finder_tools.specs.Proposed.{IsRightBelow};

use crate::aim::Aim;
use crate::lines::Cells;
use crate::mend::Mender;
use cube_core::spec::Spec;
use dual_product::dual::dual_product;
use finder_set::finder::Finder;
use finder_set::slot::Slot;
use finder_tools::proposal::tested;
use lattice_grid::grid::Grid;
use lattice_grid::shape::Shape;
use path_meaning::marks::Marks;
use std::alloc::Global;
use std::marker::Model;
use wire_io::fault::NoMemory;

/// The most work from the best lattice for a function: cells flooded, each time for 64 assignments, and what a change costs
/// beside that.
const MOST_WORK: u64 = 120_000_000;

/// The work for each cell of the best lattice and each 64 assignments, up to the most.
const WORK: u64 = 1_000_000;

/// A best lattice of so few cells is left as it is, and one of so many.
const SMALL: u32 = 2;

const LARGE: u32 = 2_000;

/// From the folded dual product so many times less work is done than from the best lattice.
const LESS: u64 = 4;

/// The most cells of a dual product that is folded, and of one that is repaired once it was folded.
const FOLDED: usize = 6_000;

const REPAIRED: usize = 1_000;

/// Takes a line off the best lattice so far, or makes two neighbouring ones one, in the ways in which the lattice is then wrong
/// at the fewest assignments, and changes cells until it is right again; then goes on with that one, until nothing more is
/// found or enough work was done. Then it does the same from the dual product, once folded, where that has not too many cells
/// and more than the best one. Changes are drawn at random, by a sequence that is the same in each run. It proposes the
/// smallest lattice that it finds, where that is right and smaller than the best one.
#[derive(Drop)]
pub struct RepairFinder {
    alloc: Global,
    slot: Slot,
}

impl Model for RepairFinder {
    ghost use Rattle.finder_set.specs.Kit.{Turn};

    ghost Value = { Turn };

    ghost view = { λ repair. repair.slot };
}

impl RepairFinder {
    /// A finder that was not begun. It takes no memory.
    pub fn new(alloc: Global) -> Self
        ensures { result ≡ record { left = 0; begun = 0; ready = None } }
    {
        RepairFinder {
            alloc,
            slot: Slot::new(),
        }
    }
}

/// The cells of a lattice.
fn cells_of(alloc: Global, grid: &Grid) -> Result<Cells, NoMemory> {
    let shape = grid.shape();
    let mut controls = Vec::new(alloc);
    for row in 0..shape.rows() {
        controls.extend_from_slice(grid.row(row))?;
    }
    Ok(Cells {
        cols: shape.cols(),
        controls,
    })
}

/// The lattice of these cells, if they are one.
fn grid_of(cells: Cells) -> Option<Grid> {
    if !cells.controls.iter().all(|control| control.names_below(10)) {
        return None;
    }
    let shape = Shape::new(cells.rows(), cells.cols)?;
    Grid::new(shape, cells.controls)
}

/// How much work is done from the best lattice where it has so many cells.
fn work_for(aim: &Aim, area: u32) -> u64 {
    WORK.saturating_mul(u64::from(area))
        .saturating_mul(aim.words() as u64)
        .min(MOST_WORK)
}

/// The cells of the folded dual product, where there are more than so many and not too many.
fn folded_dual(
    alloc: Global,
    spec: &Spec,
    aim: &Aim,
    mender: &mut Mender,
    fewest: usize,
) -> Result<Option<Cells>, NoMemory> {
    let dual = cells_of(alloc, &dual_product(alloc, spec)?)?;
    if dual.controls.len() > FOLDED || dual.controls.len() <= fewest {
        return Ok(None);
    }
    let folded = mender.folded(aim, dual)?;
    if folded.controls.len() > REPAIRED || folded.controls.len() <= fewest {
        return Ok(None);
    }
    Ok(Some(folded))
}

/// The smaller ones of two, the first ones where they are as small.
fn smaller(first: Cells, other: Cells) -> Cells {
    if other.controls.len() < first.controls.len() {
        other
    } else {
        first
    }
}

/// The smallest cells that are found from the best lattice and from the folded dual product.
fn smallest(alloc: Global, spec: &Spec, best: &Grid) -> Result<Cells, NoMemory> {
    let cells = cells_of(alloc, best)?;
    let size = cells.controls.len();
    let aim = Aim::of_spec(spec);
    let work = work_for(&aim, best.shape().area());
    let mut mender = Mender::new(alloc, work);
    let least = mender.smallest(&aim, cells)?;
    mender.add_work(work / LESS);
    match folded_dual(alloc, spec, &aim, &mut mender, size)? {
        Some(folded) => Ok(smaller(least, mender.smallest(&aim, folded)?)),
        None => Ok(least),
    }
}

/// The smallest lattice that is found, if it is right and smaller than the best one.
fn proposed(alloc: Global, spec: &Spec, best: &Grid) -> Result<Option<Grid>, NoMemory>
    ensures { IfOk result (λ ready. IfSome ready (IsRightBelow spec.now best.now)) }
{
    let area = best.shape().area();
    if area <= SMALL || area > LARGE {
        return Ok(None);
    }
    let mut marks = Marks::new(alloc, area)?;
    match grid_of(smallest(alloc, spec, best)?) {
        Some(grid) => Ok(tested(spec, best, grid, &mut marks)),
        None => Ok(None),
    }
}

impl Finder for RepairFinder {
    ghost left = { λ repair. repair.left };

    ghost begun = { λ repair. repair.begun };

    /// Makes its proposal for a function and the best lattice so far.
    fn begin(&mut self, spec: &Spec, best: &Grid) -> Result<(), NoMemory>
        ensures counted { self.new.begun ≡ one_more self.old.begun }
        ensures later { self.old.begun ≤ self.new.begun }
        ensures left { OnOk result (self.new.left ≡ 1) }
        ensures right { OnOk result (IfSome self.new.ready (IsRightBelow spec.now best.now)) }
        ensures nothing { OnErr result (self.new ≡ record { left = 0; begun = one_more self.old.begun; ready = None }) }
    {
        self.slot.count();
        let ready = proposed(self.alloc, spec, best)?;
        self.slot.fill(ready);
        Ok(())
    }

    fn left(&self) -> u32 {
        self.slot.left()
    }

    /// Gives out the proposal that is ready, and keeps none.
    fn propose(&mut self) -> Result<Option<Grid>, NoMemory>
        requires { 0 < self.old.left }
        ensures given { result ≡ Ok self.old.ready }
        ensures spent { self.new ≡ record { left = 0; begun = self.old.begun; ready = None } }
    {
        Ok(self.slot.take())
    }
}

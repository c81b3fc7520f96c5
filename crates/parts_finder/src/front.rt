//! Lattices of one function, none of which fits inside another.
use crate::anneal::{of_shape, smaller};
use crate::classes::Form;
use crate::join::{join, shape_of};
use crate::part::{Part, input_at};
use crate::picture::{Picture, control_at, drawn};
use crate::shrunk::shrunk;
use crate::tester::Tester;
use finder_tools::random::Random;
use lattice_grid::control::Control;
use lattice_grid::grid::Grid;
use lattice_grid::shape::{Place, Shape};
use std::alloc::Global;
use wire_io::fault::NoMemory;

/// The most cells of a lattice that is put together.
const MOST: u32 = 16384;

/// How many times it is tried to make a lattice smaller by changes of cells.
const TURNS: u32 = 40;

/// The mask of all inputs.
const ALL: u16 = 1023;

/// The most rows of a lattice whose cells are drawn at random.
const ROWS: u32 = 6;

/// The fewest and the most cells of the smallest lattice so far where that is tried.
const DRAWN: [u32; 2] = [12, 30];

/// Lattices of one function, none of which fits inside another.
#[derive(Drop)]
pub(crate) struct Front {
    grids: Vec<Grid>,
}

/// A lattice with the inputs that stand at its inputs' places in a mask.
#[derive(Clone, Copy)]
struct Renamed<'a> {
    grid: &'a Grid,
    mask: u16,
}

impl Picture for Renamed<'_> {
    fn control(&self, p: Place) -> Control {
        match control_at(self.grid, p) {
            Control::Zero => Control::Zero,
            Control::One => Control::One,
            Control::Plain(place) => Control::Plain(input_at(self.mask, place)),
            Control::Bar(place) => Control::Bar(input_at(self.mask, place)),
        }
    }
}

/// Whether a shape has no more rows and no more columns than another one.
fn fits(small: Shape, large: Shape) -> bool {
    small.rows() <= large.rows() && small.cols() <= large.cols()
}

/// The widest shape of so many rows with fewer cells than so many, if it has two columns at least and is not much wider
/// than high.
fn smaller_shape(rows: u32, cells: u32) -> Option<Shape> {
    let cols = cells.saturating_sub(1) / rows.max(1);
    if cols >= 2 && cols <= rows.saturating_mul(2) && rows <= cols.saturating_mul(2) {
        Shape::new(rows, cols)
    } else {
        None
    }
}

impl Front {
    /// No lattice.
    pub(crate) fn new(alloc: Global) -> Front {
        Front {
            grids: Vec::new(alloc),
        }
    }

    /// Takes a lattice out.
    pub(crate) fn pop(&mut self) -> Option<Grid> {
        self.grids.pop()
    }

    /// How many lattices there are.
    pub(crate) fn len(&self) -> usize {
        self.grids.len()
    }

    /// Whether some lattice fits inside a shape.
    fn has_within(&self, shape: Shape) -> bool {
        self.grids.iter().any(|grid| fits(grid.shape(), shape))
    }

    /// Adds a lattice, unless some lattice fits inside it, and drops those inside which it fits.
    pub(crate) fn insert(&mut self, grid: Grid) -> Result<(), NoMemory> {
        let shape = grid.shape();
        if self.has_within(shape) {
            return Ok(());
        }
        self.grids.retain(|other| !fits(shape, other.shape()));
        self.grids.push(grid)?;
        Ok(())
    }

    /// The lattice with the fewest lines that add up, of those with at most so many that are shared.
    fn pick(&self, form: Form, limit: u32) -> Option<&Grid> {
        let mut picked: Option<&Grid> = None;
        let mut fewest = u32::MAX;
        for grid in &self.grids {
            if form.shared(grid.shape()) <= limit && form.added(grid.shape()) < fewest {
                picked = Some(grid);
                fewest = form.added(grid.shape());
            }
        }
        picked
    }

    /// Whether a lattice of a shape would be added.
    fn wants(&self, shape: Shape) -> bool {
        shape.area() <= MOST && !self.has_within(shape)
    }

    /// Adds the lattice put together from one of either front, with at most so many shared lines.
    fn add_joined(
        &mut self,
        tester: &mut Tester,
        part: &Part,
        form: Form,
        fronts: (&Front, &Front),
        limit: u32,
    ) -> Result<(), NoMemory> {
        let (Some(one), Some(two)) = (fronts.0.pick(form, limit), fronts.1.pick(form, limit)) else {
            return Ok(());
        };
        let Some(shape) = shape_of(form, one.shape(), two.shape(), 1) else {
            return Ok(());
        };
        if !self.wants(shape) {
            return Ok(());
        }
        match join(tester, part, form, one, two)? {
            Some(grid) => self.insert(grid),
            None => Ok(()),
        }
    }

    /// Adds the lattices put together from one of either front, with as many shared lines as those of one front have.
    fn add_all_joined(
        &mut self,
        tester: &mut Tester,
        part: &Part,
        form: Form,
        fronts: (&Front, &Front),
        limits: &Front,
    ) -> Result<(), NoMemory> {
        for grid in &limits.grids {
            self.add_joined(tester, part, form, fronts, form.shared(grid.shape()))?;
        }
        Ok(())
    }

    /// The lattices put together from one of either front.
    pub(crate) fn joined(
        tester: &mut Tester,
        part: &Part,
        form: Form,
        first: &Front,
        other: &Front,
    ) -> Result<Front, NoMemory> {
        let mut front = Front::new(tester.alloc());
        front.add_all_joined(tester, part, form, (first, other), first)?;
        front.add_all_joined(tester, part, form, (first, other), other)?;
        Ok(front)
    }

    /// Adds lattices of one line less than those that are there, as far as changes of cells lead to them.
    pub(crate) fn anneal(
        &mut self,
        tester: &mut Tester,
        part: &Part,
        steps: u32,
    ) -> Result<(), NoMemory> {
        let mut random = Random::new();
        let mut place = 0usize;
        for _turn in 0..TURNS {
            let Some(grid) = self.grids.get(place) else {
                return Ok(());
            };
            match smaller(tester, &mut random, part, grid, steps)? {
                Some(less) => {
                    self.insert(shrunk(tester, part, less)?)?;
                    place = 0;
                }
                None => place = place.saturating_add(1),
            }
        }
        Ok(())
    }

    /// Adds lattices of fewer cells than the smallest one, as far as changes lead to them from cells that are drawn at
    /// random, so many times for each shape.
    pub(crate) fn draw(
        &mut self,
        tester: &mut Tester,
        part: &Part,
        tries: u32,
    ) -> Result<(), NoMemory> {
        let mut random = Random::new();
        let mut rows = 2u32;
        for _turn in 0..TURNS {
            if rows > ROWS || self.least() < DRAWN[0] || self.least() > DRAWN[1] {
                return Ok(());
            }
            let found = match smaller_shape(rows, self.least()) {
                Some(shape) => of_shape(tester, &mut random, part, shape, tries)?,
                None => None,
            };
            match found {
                Some(grid) => {
                    self.insert(shrunk(tester, part, grid)?)?;
                    rows = 2;
                }
                None => rows = rows.saturating_add(1),
            }
        }
        Ok(())
    }

    /// A copy.
    pub(crate) fn copy(&self, alloc: Global) -> Result<Front, NoMemory> {
        self.renamed(alloc, ALL)
    }

    /// The lattices with the inputs that stand at their inputs' places in the mask.
    pub(crate) fn renamed(&self, alloc: Global, mask: u16) -> Result<Front, NoMemory> {
        let mut front = Front::new(alloc);
        for grid in &self.grids {
            let renamed = drawn(alloc, &Renamed { grid, mask }, grid.shape())?;
            front.grids.push(renamed)?;
        }
        Ok(front)
    }

    /// The smallest lattice.
    pub(crate) fn smallest(self) -> Option<Grid> {
        let mut smallest: Option<Grid> = None;
        for grid in self.grids {
            smallest = match smallest {
                Some(other) if other.shape().area() <= grid.shape().area() => Some(other),
                _ => Some(grid),
            };
        }
        smallest
    }

    /// The least number of cells of a lattice.
    pub(crate) fn least(&self) -> u32 {
        let mut least = u32::MAX;
        for grid in &self.grids {
            least = least.min(grid.shape().area());
        }
        least
    }
}

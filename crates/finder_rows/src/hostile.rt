//! Finders that propose nonsense, nothing, or cannot be begun.
ghost use Rattle.std.specs.Prelude.{◌≤◌};

use crate::functions::{exclusive_or, row_of};
use cube_core::spec::Spec;
use finder_set::finder::Finder;
use finder_set::improve::{Improved, improve};
use lattice_grid::control::Control;
use lattice_grid::grid::Grid;
use lattice_grid::pairs::pairs;
use lattice_grid::shape::{Place, Shape};
use path_meaning::marks::Marks;
use std::alloc::Global;
use std::cell::Cell;
use std::rc::Rc;
use std::test::*;
use wire_io::fault::NoMemory;

/// What a hostile finder does.
#[derive(Drop)]
enum Habit {
    /// It proposes the cells of a row in this shape, each time.
    Proposes(Shape, Grid),
    /// It proposes nothing.
    Silent,
    /// It cannot be begun.
    Broken,
}

/// The cells of the first row in a shape.
fn shaped(alloc: Global, shape: Shape, row: &Grid) -> Result<Option<Grid>, NoMemory> {
    if row.shape().rows() == 0 {
        return Ok(None);
    }
    let cells = Vec::from_slice(alloc, row.row(0))?;
    Ok(Grid::new(shape, cells))
}

/// A finder that may be asked a thousand times each time that it was begun, and counts how often it was asked.
#[derive(Drop)]
struct Hostile {
    alloc: Global,
    habit: Habit,
    left: u32,
    begun: u64,
    asked: Rc<Cell<u32>>,
}

impl Finder for Hostile {
    ghost left = { λ hostile. hostile.left };

    ghost begun = { λ hostile. hostile.begun };

    fn begin(&mut self, _spec: &Spec, _best: &Grid) -> Result<(), NoMemory> {
        match self.habit {
            Habit::Broken => return Err(NoMemory),
            Habit::Proposes(_, _) | Habit::Silent => {}
        }
        self.left = 1000;
        self.begun = self.begun.saturating_add(1);
        Ok(())
    }

    fn left(&self) -> u32 {
        self.left
    }

    fn propose(&mut self) -> Result<Option<Grid>, NoMemory> {
        self.left -= 1;
        self.asked.set(self.asked.get().wrapping_add(1));
        match &self.habit {
            Habit::Proposes(shape, row) => shaped(self.alloc, *shape, row),
            Habit::Silent | Habit::Broken => Ok(None),
        }
    }
}

/// The control of a lattice's first cell.
fn first_control(grid: &Grid) -> Option<Control> {
    let shape = grid.shape();
    if shape.rows() > 0 && shape.cols() > 0 {
        Some(grid.at(Place { row: 0, col: 0 }))
    } else {
        None
    }
}

/// What comes of the pairs lattice of the exclusive or with this finder alone, how often it was asked, and how many finders are left.
fn improved_by(alloc: Global, habit: Habit) -> Result<(Improved, u32, usize), Fail> {
    let spec = exclusive_or().ok_or("a function")?;
    let best = pairs(alloc, &spec)?;
    let mut marks = Marks::new(alloc, best.shape().area())?;
    let asked = Rc::new(alloc, Cell::new(0))?;
    let finder = Hostile {
        alloc,
        habit,
        left: 0,
        begun: 0,
        asked: Rc::clone(&asked)?,
    };
    let mut finders: Vec<Box<dyn Finder>> = Vec::new(alloc);
    finders.push(Box::new(alloc, finder)?)?;
    let improved = improve(alloc, &mut finders, &spec, best, &mut marks)?;
    Ok((improved, asked.get(), finders.len()))
}

#[test]
fn an_input_that_is_not_there_is_named(rt: HostRuntime) -> Result<(), Fail> {
    let alloc = rt.alloc();
    let row = row_of(vec![in alloc; Control::Plain(9); 1]?).ok_or("a row")?;
    let shape = Shape::new(1, 1).ok_or("a shape")?;
    let (improved, asked, left) = improved_by(alloc, Habit::Proposes(shape, row))?;
    assert_eq!(rt; asked, 1);
    assert_eq!(rt; left, 0);
    assert_eq!(rt; improved.dropped.len(), 1);
    assert_eq!(rt; improved.dropped[0].place, 0);
    let dropped = improved.dropped.first().ok_or("no finder was dropped")?;
    assert_eq!(rt; first_control(&dropped.proposal), Some(Control::Plain(9)));
    assert_eq!(rt; improved.grid.shape().area(), 4);
    Ok(())
}

#[test]
fn a_smaller_lattice_of_another_function(rt: HostRuntime) -> Result<(), Fail> {
    let alloc = rt.alloc();
    let controls = [Control::Plain(0), Control::Plain(1)].to_vec(alloc)?;
    let row = row_of(controls).ok_or("a row")?;
    let shape = Shape::new(1, 2).ok_or("a shape")?;
    let (improved, asked, left) = improved_by(alloc, Habit::Proposes(shape, row))?;
    assert_eq!(rt; asked, 1);
    assert_eq!(rt; left, 0);
    assert_eq!(rt; improved.dropped.len(), 1);
    assert_eq!(rt; improved.dropped[0].proposal.shape(), shape);
    assert_eq!(rt; improved.grid.shape().area(), 4);
    Ok(())
}

#[test]
fn a_lattice_that_is_no_smaller_again_and_again(rt: HostRuntime) -> Result<(), Fail> {
    let alloc = rt.alloc();
    let row = row_of(vec![in alloc; Control::One; 4]?).ok_or("a row")?;
    let shape = Shape::new(2, 2).ok_or("a shape")?;
    let (improved, asked, left) = improved_by(alloc, Habit::Proposes(shape, row))?;
    assert_eq!(rt; asked, 1000);
    assert_eq!(rt; left, 1);
    assert!(rt; improved.dropped.is_empty());
    assert_eq!(rt; improved.grid.shape().area(), 4);
    Ok(())
}

#[test]
fn nothing_again_and_again(rt: HostRuntime) -> Result<(), Fail> {
    let (improved, asked, left) = improved_by(rt.alloc(), Habit::Silent)?;
    assert_eq!(rt; asked, 1000);
    assert_eq!(rt; left, 1);
    assert!(rt; improved.dropped.is_empty());
    assert_eq!(rt; improved.grid.shape().area(), 4);
    Ok(())
}

#[test]
fn a_finder_that_cannot_be_begun(rt: HostRuntime) -> Result<(), Fail> {
    let alloc = rt.alloc();
    let spec = exclusive_or().ok_or("a function")?;
    let best = pairs(alloc, &spec)?;
    let mut marks = Marks::new(alloc, best.shape().area())?;
    let asked = Rc::new(alloc, Cell::new(0))?;
    let finder = Hostile {
        alloc,
        habit: Habit::Broken,
        left: 0,
        begun: 0,
        asked,
    };
    let mut finders: Vec<Box<dyn Finder>> = Vec::new(alloc);
    finders.push(Box::new(alloc, finder)?)?;
    assert!(rt; improve(alloc, &mut finders, &spec, best, &mut marks).is_err());
    assert_eq!(rt; finders.len(), 1);
    Ok(())
}

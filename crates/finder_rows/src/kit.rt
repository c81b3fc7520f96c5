ghost use Rattle.std.specs.Prelude.{◌≤◌};

use crate::functions::{conjunction, exclusive_or, row_of};
use cube_core::spec::Spec;
use finder_set::finder::Finder;
use finder_set::fold::Fold;
use finder_set::improve::improve;
use finder_set::split_and::SplitAnd;
use finder_set::split_or::SplitOr;
use finder_set::trim::Trim;
use lattice_grid::control::Control;
use lattice_grid::grid::Grid;
use lattice_grid::pairs::pairs;
use lattice_grid::shape::Shape;
use path_meaning::marks::Marks;
use std::alloc::Global;
use std::cell::Cell;
use std::rc::Rc;
use std::test::*;
use wire_io::fault::NoMemory;

/// Proposes the cells of a row as one column each time, and counts its calls: a hundred for each beginning, and one for each proposal.
#[derive(Drop)]
struct Column {
    alloc: Global,
    row: Grid,
    tries: u32,
    left: u32,
    begun: u64,
    calls: Rc<Cell<u32>>,
    ghost few: { tries ≤ 1000 },
}

impl Finder for Column {
    ghost left = { λ column. column.left };

    ghost begun = { λ column. column.begun };

    fn begin(&mut self, _spec: &Spec, _best: &Grid) -> Result<(), NoMemory> {
        self.left = self.tries;
        self.begun = self.begun.saturating_add(1);
        self.calls.set(self.calls.get().wrapping_add(100));
        Ok(())
    }

    fn left(&self) -> u32 {
        self.left
    }

    fn propose(&mut self) -> Result<Option<Grid>, NoMemory> {
        self.left -= 1;
        self.calls.set(self.calls.get().wrapping_add(1));
        column_of(self.alloc, &self.row)
    }
}

/// The first row as one column.
fn column_of(alloc: Global, row: &Grid) -> Result<Option<Grid>, NoMemory> {
    let rows = row.shape().cols();
    let cells = Vec::from_slice(alloc, row.row(0))?;
    Ok(Shape::new(rows, 1).and_then(|shape| Grid::new(shape, cells)))
}

/// A finder that proposes the cells of this row so often.
fn proposing(
    alloc: Global,
    row: Grid,
    tries: u32,
    calls: &Rc<Cell<u32>>,
) -> Result<Column, NoMemory>
    requires { tries ≤ 1000 }
{
    Ok(Column {
        alloc,
        row,
        tries,
        left: 0,
        begun: 0,
        calls: Rc::clone(calls)?,
    })
}

#[test]
fn a_wrong_proposal_drops_its_finder(rt: HostRuntime) -> Result<(), Fail> {
    let alloc = rt.alloc();
    let spec = exclusive_or().ok_or("a function")?;
    let best = pairs(alloc, &spec)?;
    let mut marks = Marks::new(alloc, best.shape().area())?;
    let calls = Rc::new(alloc, Cell::new(0))?;
    let mut finders: Vec<Box<dyn Finder>> = Vec::new(alloc);
    let one = row_of(vec![in alloc; Control::One; 1]?).ok_or("a row")?;
    finders.push(Box::new(alloc, proposing(alloc, one, 3, &calls)?)?)?;
    let improved = improve(alloc, &mut finders, &spec, best, &mut marks)?;
    assert_eq!(rt; calls.get(), 101);
    assert_eq!(rt; finders.len(), 0);
    assert_eq!(rt; improved.dropped.len(), 1);
    assert_eq!(rt; improved.dropped[0].place, 0);
    assert_eq!(rt; improved.dropped[0].proposal.shape().area(), 1);
    assert!(rt; improved.dropped[0].proposal.names_below(0));
    assert_eq!(rt; improved.grid.shape().area(), 4);
    Ok(())
}

#[test]
fn a_right_smaller_proposal_is_taken(rt: HostRuntime) -> Result<(), Fail> {
    let alloc = rt.alloc();
    let spec = conjunction().ok_or("a function")?;
    let best = pairs(alloc, &spec)?;
    assert_eq!(rt; best.shape().area(), 3);
    let mut marks = Marks::new(alloc, best.shape().area())?;
    let calls = Rc::new(alloc, Cell::new(0))?;
    let mut finders: Vec<Box<dyn Finder>> = Vec::new(alloc);
    let both = row_of([Control::Plain(1), Control::Plain(0)].to_vec(alloc)?).ok_or("a row")?;
    finders.push(Box::new(alloc, proposing(alloc, both, 3, &calls)?)?)?;
    let improved = improve(alloc, &mut finders, &spec, best, &mut marks)?;
    assert_eq!(rt; calls.get(), 103);
    assert_eq!(rt; finders.len(), 1);
    assert_eq!(rt; improved.dropped.len(), 0);
    assert_eq!(rt; improved.grid.shape(), Shape::new(2, 1).ok_or("a shape")?);
    Ok(())
}

#[test]
fn a_finder_of_larger_lattices_stays(rt: HostRuntime) -> Result<(), Fail> {
    let alloc = rt.alloc();
    let spec = conjunction().ok_or("a function")?;
    let best = pairs(alloc, &spec)?;
    let mut marks = Marks::new(alloc, best.shape().area())?;
    let calls = Rc::new(alloc, Cell::new(0))?;
    let mut finders: Vec<Box<dyn Finder>> = Vec::new(alloc);
    // The first one is dropped. The second one proposes nothing smaller, and stays.
    let wrong = row_of(vec![in alloc; Control::Zero; 1]?).ok_or("a row")?;
    finders.push(Box::new(alloc, proposing(alloc, wrong, 1, &calls)?)?)?;
    let large = row_of(vec![in alloc; Control::One; 4]?).ok_or("a row")?;
    finders.push(Box::new(alloc, proposing(alloc, large, 2, &calls)?)?)?;
    let improved = improve(alloc, &mut finders, &spec, best, &mut marks)?;
    assert_eq!(rt; calls.get(), 203);
    assert_eq!(rt; finders.len(), 1);
    assert_eq!(rt; finders[0].left(), 0);
    assert_eq!(rt; improved.dropped.len(), 1);
    assert_eq!(rt; improved.grid.shape().area(), 3);
    Ok(())
}

#[test]
fn a_row_that_is_not_needed_is_dropped(rt: HostRuntime) -> Result<(), Fail> {
    let alloc = rt.alloc();
    let spec = conjunction().ok_or("a function")?;
    let best = pairs(alloc, &spec)?;
    assert_eq!(rt; best.shape(), Shape::new(3, 1).ok_or("a shape")?);
    let mut marks = Marks::new(alloc, best.shape().area())?;
    let mut finders: Vec<Box<dyn Finder>> = Vec::new(alloc);
    finders.push(Box::new(alloc, Trim::new(alloc))?)?;
    let improved = improve(alloc, &mut finders, &spec, best, &mut marks)?;
    assert_eq!(rt; finders.len(), 1);
    assert_eq!(rt; improved.dropped.len(), 0);
    assert_eq!(rt; improved.grid.shape(), Shape::new(2, 1).ok_or("a shape")?);
    assert_eq!(rt; improved.grid.row(0), [Control::Plain(1)].as_slice());
    assert_eq!(rt; improved.grid.row(1), [Control::Plain(0)].as_slice());
    Ok(())
}

#[test]
fn the_on_cover_is_parted(rt: HostRuntime) -> Result<(), Fail> {
    let spec = exclusive_or().ok_or("a function")?;
    let best = pairs(rt.alloc(), &spec)?;
    let mut finder = SplitOr::new(rt.alloc());
    finder.begin(&spec, &best)?;
    assert_eq!(rt; finder.left(), 1);
    let proposal = finder.propose()?.ok_or("a proposal")?;
    assert_eq!(rt; proposal.shape().rows(), 2);
    assert_eq!(rt;
        proposal.row(0),
        [Control::Plain(0), Control::Zero, Control::Plain(1)].as_slice()
    );
    assert_eq!(rt;
        proposal.row(1),
        [Control::Bar(1), Control::Zero, Control::Bar(0)].as_slice()
    );
    assert_eq!(rt; finder.left(), 0);
    Ok(())
}

#[test]
fn the_off_cover_is_parted(rt: HostRuntime) -> Result<(), Fail> {
    let spec = exclusive_or().ok_or("a function")?;
    let best = pairs(rt.alloc(), &spec)?;
    let mut finder = SplitAnd::new(rt.alloc());
    finder.begin(&spec, &best)?;
    let proposal = finder.propose()?.ok_or("a proposal")?;
    assert_eq!(rt; proposal.shape().rows(), 3);
    assert_eq!(rt;
        proposal.row(0),
        [Control::Plain(0), Control::Plain(1)].as_slice()
    );
    assert_eq!(rt; proposal.row(1), [Control::One, Control::One].as_slice());
    Ok(())
}

#[test]
fn a_larger_lattice_of_parts_is_set_aside(rt: HostRuntime) -> Result<(), Fail> {
    let alloc = rt.alloc();
    let spec = exclusive_or().ok_or("a function")?;
    let best = pairs(alloc, &spec)?;
    let mut marks = Marks::new(alloc, best.shape().area())?;
    let mut finders: Vec<Box<dyn Finder>> = Vec::new(alloc);
    finders.push(Box::new(alloc, SplitOr::new(alloc))?)?;
    let improved = improve(alloc, &mut finders, &spec, best, &mut marks)?;
    assert_eq!(rt; finders.len(), 1);
    assert_eq!(rt; improved.dropped.len(), 0);
    assert_eq!(rt; improved.grid.shape(), Shape::new(2, 2).ok_or("a shape")?);
    Ok(())
}

#[test]
fn two_rows_become_one(rt: HostRuntime) -> Result<(), Fail> {
    let spec = conjunction().ok_or("a function")?;
    let best = pairs(rt.alloc(), &spec)?;
    let mut finder = Fold::new(rt.alloc());
    finder.begin(&spec, &best)?;
    let proposal = finder.propose()?.ok_or("a proposal")?;
    assert_eq!(rt; proposal.shape(), Shape::new(2, 1).ok_or("a shape")?);
    assert_eq!(rt; proposal.row(0), [Control::Plain(0)].as_slice());
    assert_eq!(rt; proposal.row(1), [Control::Plain(1)].as_slice());
    Ok(())
}

#[test]
fn nothing_can_be_dropped(rt: HostRuntime) -> Result<(), Fail> {
    let spec = exclusive_or().ok_or("a function")?;
    let best = pairs(rt.alloc(), &spec)?;
    let mut finder = Trim::new(rt.alloc());
    assert_eq!(rt; finder.left(), 0);
    finder.begin(&spec, &best)?;
    assert_eq!(rt; finder.left(), 1);
    assert!(rt; finder.propose()?.is_none());
    assert_eq!(rt; finder.left(), 0);
    Ok(())
}

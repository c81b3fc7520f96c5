//! Runs of `synth` with finders that propose nonsense, nothing, or cannot be begun.
ghost use Rattle.std.specs.Prelude.{◌≤◌};

use cube_core::spec::Spec;
use finder_set::finder::Finder;
use four_lattice::run::{Ended, run};
use four_lattice::status::Status;
use lattice_grid::control::Control;
use lattice_grid::grid::Grid;
use lattice_grid::shape::{Place, Shape};
use run_rows::row::words_of;
use std::alloc::Global;
use std::process::Abort;
use std::test::*;
use wire_io::fault::NoMemory;
use wire_io::firm::{FirmSink, FirmSource};

/// What a hostile finder does.
#[derive(Drop)]
enum Habit {
    /// It proposes the cells of a row in this shape, each time.
    Proposes(Shape, Grid),
    /// It proposes nothing.
    Silent,
    /// It cannot be begun.
    Broken,
}

/// The cells of the first row in a shape.
fn shaped(alloc: Global, shape: Shape, row: &Grid) -> Result<Option<Grid>, NoMemory> {
    if row.shape().rows() == 0 {
        return Ok(None);
    }
    let cells = Vec::from_slice(alloc, row.row(0))?;
    Ok(Grid::new(shape, cells))
}

/// A finder that may be asked a thousand times each time that it was begun.
#[derive(Drop)]
struct Hostile {
    alloc: Global,
    habit: Habit,
    left: u32,
    begun: u64,
}

impl Finder for Hostile {
    ghost left = { λ hostile. hostile.left };

    ghost begun = { λ hostile. hostile.begun };

    fn begin(&mut self, _spec: &Spec, _best: &Grid) -> Result<(), NoMemory> {
        match self.habit {
            Habit::Broken => return Err(NoMemory),
            Habit::Proposes(_, _) | Habit::Silent => {}
        }
        self.left = 1000;
        self.begun = self.begun.saturating_add(1);
        Ok(())
    }

    fn left(&self) -> u32 {
        self.left
    }

    fn propose(&mut self) -> Result<Option<Grid>, NoMemory> {
        self.left -= 1;
        match &self.habit {
            Habit::Proposes(shape, row) => shaped(self.alloc, *shape, row),
            Habit::Silent | Habit::Broken => Ok(None),
        }
    }
}

/// A finder that proposes these controls in a shape of so many rows and columns.
fn proposing(rows: u32, cols: u32, controls: Vec<Control>) -> Result<Habit, Fail> {
    if !controls.iter().all(|control| control.names_below(10)) {
        return Err(Fail::from("an input past the last"));
    }
    let many = u32::try_from(controls.len()).ok().ok_or("a number")?;
    let shape = Shape::new(1, many).ok_or("a shape")?;
    let row = Grid::new(shape, controls).ok_or("a row")?;
    let shape = Shape::new(rows, cols).ok_or("a shape")?;
    Ok(Habit::Proposes(shape, row))
}

/// A run of the exclusive or with this finder alone: how it ended, how many finders are left, and its report.
fn run_with(alloc: Global, habit: Habit) -> Result<(Ended<FirmSink>, usize, FirmSink), Fail> {
    let mut finders: Vec<Box<dyn Finder>> = Vec::new(alloc);
    finders.push(Box::new(
        alloc,
        Hostile {
            alloc,
            habit,
            left: 0,
            begun: 0,
        },
    )?)?;
    let words = words_of(alloc, &["synth", "--conflicts", "0", "J"])?;
    let text = ".i 2\n.o 1\n10 1\n01 1\n.e\n";
    let mut pla = FirmSource::new(text.as_bytes().to_vec(alloc)?, 4);
    let mut side = FirmSource::new(Vec::new(alloc), 3);
    let mut out = FirmSink::new(alloc, 4_000, 7)?;
    let journal = FirmSink::new(alloc, 4_000, 5)?;
    let mut notes = FirmSink::new(alloc, 200, 1)?;
    let ended = run(
        alloc,
        &words,
        &mut pla,
        &mut side,
        &mut out,
        journal,
        &mut notes,
        &mut finders,
    );
    Ok((ended, finders.len(), out))
}

/// The report of the exclusive or, whatever finders are handed in.
const REPORT: &[u8] =
    b"lattice report 2\ninputs x0 x1\nrails 1048575\noutput 0 f0 minimum 2x2\nx0 x1\nx1' x0'\nrefuted 1x2:1 2x1:1 1x3:1 3x1:1\nend\n";

/// The control of a lattice's first cell.
fn first_control(grid: &Grid) -> Option<Control> {
    let shape = grid.shape();
    if shape.rows() > 0 && shape.cols() > 0 {
        Some(grid.at(Place { row: 0, col: 0 }))
    } else {
        None
    }
}

/// Runs with a finder that must be dropped, and gives the one proposal for which it was.
fn dropped_by(rt: &impl Abort, alloc: Global, habit: Habit) -> Result<Grid, Fail> {
    let (mut ended, left, out) = run_with(alloc, habit)?;
    assert_eq!(rt; ended.status, Status::Done);
    assert_eq!(rt; out.bytes(), REPORT);
    assert_eq!(rt; left, 0);
    assert_eq!(rt; ended.dropped.len(), 1);
    let rejected = ended.dropped.pop().ok_or("no finder was dropped")?;
    assert_eq!(rt; rejected.output, 0);
    Ok(rejected.proposal)
}

/// Runs with a finder that must be kept.
fn kept(rt: &impl Abort, alloc: Global, habit: Habit) -> Result<(), Fail> {
    let (ended, left, out) = run_with(alloc, habit)?;
    assert_eq!(rt; ended.status, Status::Done);
    assert_eq!(rt; out.bytes(), REPORT);
    assert_eq!(rt; left, 1);
    assert!(rt; ended.dropped.is_empty());
    Ok(())
}

#[test]
fn a_constant(rt: HostRuntime) -> Result<(), Fail> {
    let alloc = rt.alloc();
    let habit = proposing(1, 1, vec![in alloc; Control::One; 1]?)?;
    let proposal = dropped_by(&rt, alloc, habit)?;
    assert_eq!(rt; proposal.shape().area(), 1);
    assert_eq!(rt; first_control(&proposal), Some(Control::One));
    Ok(())
}

#[test]
fn an_input_that_is_not_there(rt: HostRuntime) -> Result<(), Fail> {
    let alloc = rt.alloc();
    let habit = proposing(1, 1, vec![in alloc; Control::Plain(9); 1]?)?;
    let proposal = dropped_by(&rt, alloc, habit)?;
    assert_eq!(rt; first_control(&proposal), Some(Control::Plain(9)));
    Ok(())
}

#[test]
fn a_smaller_lattice_of_another_function(rt: HostRuntime) -> Result<(), Fail> {
    let alloc = rt.alloc();
    let controls = [Control::Plain(0), Control::Plain(1)].to_vec(alloc)?;
    let proposal = dropped_by(&rt, alloc, proposing(1, 2, controls)?)?;
    assert_eq!(rt; proposal.shape(), Shape::new(1, 2).ok_or("a shape")?);
    Ok(())
}

#[test]
fn a_lattice_that_is_no_smaller(rt: HostRuntime) -> Result<(), Fail> {
    let alloc = rt.alloc();
    kept(
        &rt,
        alloc,
        proposing(2, 2, vec![in alloc; Control::One; 4]?)?,
    )
}

#[test]
fn nothing(rt: HostRuntime) -> Result<(), Fail> {
    kept(&rt, rt.alloc(), Habit::Silent)
}

#[test]
fn a_finder_that_cannot_be_begun(rt: HostRuntime) -> Result<(), Fail> {
    let (ended, left, _) = run_with(rt.alloc(), Habit::Broken)?;
    assert_eq!(rt; ended.status, Status::NoMemory);
    assert_eq!(rt; left, 1);
    assert!(rt; ended.dropped.is_empty());
    Ok(())
}

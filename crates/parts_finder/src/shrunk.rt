//! Lattices with lines dropped and folded until nothing shrinks.
ghost use Rattle.lattice_grid.specs.Control.{NamesBelow};

use crate::part::Part;
use crate::picture::{Picture, control_at, drawn};
use crate::tester::Tester;
use lattice_grid::control::Control;
use lattice_grid::grid::Grid;
use lattice_grid::shape::{Place, Shape};
use std::alloc::Global;
use wire_io::fault::NoMemory;

/// The most cells of a lattice that is folded.
const MOST: u32 = 1024;

/// How often the lines of a lattice are gone through.
const ROUNDS: u32 = 8;

/// Columns or rows.
#[derive(Clone, Copy)]
pub(crate) enum Lines {
    Columns,
    Rows,
}

/// What becomes of two neighbouring lines.
#[derive(Clone, Copy)]
enum Rule {
    /// The first one is dropped.
    Dropped,
    /// The first one's control unless it is `0`, and then the other one's.
    FirstUnlessZero,
    /// The other one's control unless it is `0`, and then the first one's.
    OtherUnlessZero,
    /// The first one's control unless it is `1`, and then the other one's.
    FirstUnlessOne,
    /// The other one's control unless it is `1`, and then the first one's.
    OtherUnlessOne,
}

/// The rules in the order in which they are tried.
const RULES: [Rule; 5] = [
    Rule::Dropped,
    Rule::FirstUnlessZero,
    Rule::OtherUnlessZero,
    Rule::FirstUnlessOne,
    Rule::OtherUnlessOne,
];

/// A lattice of which the line with a number and the next one are made one.
#[derive(Clone, Copy)]
struct Merged<'a> {
    grid: &'a Grid,
    lines: Lines,
    rule: Rule,
    number: u32,
}

/// The first control unless it is `0`, and then the other one.
fn unless_zero(first: Control, other: Control) -> Control
    requires first { NamesBelow 10 first }
    requires other { NamesBelow 10 other }
    ensures { NamesBelow 10 result }
{
    match first {
        Control::Zero => other,
        Control::One => Control::One,
        Control::Plain(input) => Control::Plain(input),
        Control::Bar(input) => Control::Bar(input),
    }
}

/// The first control unless it is `1`, and then the other one.
fn unless_one(first: Control, other: Control) -> Control
    requires first { NamesBelow 10 first }
    requires other { NamesBelow 10 other }
    ensures { NamesBelow 10 result }
{
    match first {
        Control::Zero => Control::Zero,
        Control::One => other,
        Control::Plain(input) => Control::Plain(input),
        Control::Bar(input) => Control::Bar(input),
    }
}

impl Rule {
    /// The control of the one line that two neighbouring ones become.
    fn control(self, first: Control, other: Control) -> Control
        requires first { NamesBelow 10 first }
        requires other { NamesBelow 10 other }
        ensures { NamesBelow 10 result }
    {
        match self {
            Rule::Dropped => other,
            Rule::FirstUnlessZero => unless_zero(first, other),
            Rule::OtherUnlessZero => unless_zero(other, first),
            Rule::FirstUnlessOne => unless_one(first, other),
            Rule::OtherUnlessOne => unless_one(other, first),
        }
    }
}

impl Lines {
    /// How many of these lines a shape has.
    pub(crate) fn count(self, shape: Shape) -> u32 {
        match self {
            Lines::Columns => shape.cols(),
            Lines::Rows => shape.rows(),
        }
    }

    /// The number of a place's line.
    fn number(self, p: Place) -> u32 {
        match self {
            Lines::Columns => p.col,
            Lines::Rows => p.row,
        }
    }

    /// The place on the next line.
    fn next(self, p: Place) -> Place {
        match self {
            Lines::Columns => Place {
                row: p.row,
                col: p.col.saturating_add(1),
            },
            Lines::Rows => Place {
                row: p.row.saturating_add(1),
                col: p.col,
            },
        }
    }

    /// Whether a line, if there is one with this number, has a control.
    fn have(self, grid: &Grid, number: u32, control: Control) -> bool {
        let shape = grid.shape();
        if number >= self.count(shape) {
            return false;
        }
        match self {
            Lines::Columns => (0..shape.rows()).any(|row| control_at(
                grid,
                Place { row, col: number },
            ) == control),
            Lines::Rows => (0..shape.cols()).any(|col| control_at(grid, Place { row: number, col })
                == control),
        }
    }

    /// The shape with one line less, if there is more than one.
    fn shorter(self, shape: Shape) -> Option<Shape> {
        match self {
            Lines::Columns => Shape::new(shape.rows(), shape.cols().saturating_sub(1)),
            Lines::Rows => Shape::new(shape.rows().saturating_sub(1), shape.cols()),
        }
    }
}

impl Rule {
    /// Whether the line comes out otherwise than where one of the two is dropped.
    fn is_of_use(self, grid: &Grid, lines: Lines, number: u32) -> bool {
        match self {
            Rule::Dropped => true,
            Rule::FirstUnlessZero => lines.have(grid, number, Control::Zero),
            Rule::OtherUnlessZero => lines.have(grid, number.saturating_add(1), Control::Zero),
            Rule::FirstUnlessOne => lines.have(grid, number, Control::One),
            Rule::OtherUnlessOne => lines.have(grid, number.saturating_add(1), Control::One),
        }
    }
}

impl Picture for Merged<'_> {
    fn control(&self, p: Place) -> Control {
        let here = control_at(self.grid, p);
        let next = control_at(self.grid, self.lines.next(p));
        let number = self.lines.number(p);
        if number < self.number {
            here
        } else if number > self.number {
            next
        } else {
            self.rule.control(here, next)
        }
    }
}

/// The lattice without the line with a number, if there is more than one.
pub(crate) fn without_line(
    alloc: Global,
    grid: &Grid,
    lines: Lines,
    number: u32,
) -> Result<Option<Grid>, NoMemory> {
    let Some(shape) = lines.shorter(grid.shape()) else {
        return Ok(None);
    };
    let merged = Merged {
        grid,
        lines,
        rule: Rule::Dropped,
        number,
    };
    Ok(Some(drawn(alloc, &merged, shape)?))
}

/// The lattice with two lines made one in the first way in which it still realises the function.
fn with_one_line_less(
    tester: &mut Tester,
    part: &Part,
    grid: &Grid,
    lines: Lines,
    number: u32,
) -> Result<Option<Grid>, NoMemory> {
    let Some(shape) = lines.shorter(grid.shape()) else {
        return Ok(None);
    };
    for rule in RULES {
        if rule.is_of_use(grid, lines, number) {
            let merged = Merged {
                grid,
                lines,
                rule,
                number,
            };
            let less = drawn(tester.alloc(), &merged, shape)?;
            if tester.realises(part, &less)? {
                return Ok(Some(less));
            }
        }
    }
    Ok(None)
}

/// The lattice with lines made one wherever that can be done, from the first one.
fn gone_through(
    tester: &mut Tester,
    part: &Part,
    grid: Grid,
    lines: Lines,
) -> Result<Grid, NoMemory> {
    let mut least = grid;
    let mut number = 0u32;
    for _line in 0..lines.count(least.shape()) {
        match with_one_line_less(tester, part, &least, lines, number)? {
            Some(less) => least = less,
            None => number = number.saturating_add(1),
        }
    }
    Ok(least)
}

/// The lattice with lines made one until nothing shrinks, where it has not too many cells.
pub(crate) fn shrunk(tester: &mut Tester, part: &Part, grid: Grid) -> Result<Grid, NoMemory> {
    let mut least = grid;
    for _round in 0..ROUNDS {
        let area = least.shape().area();
        if area > MOST || tester.is_tired() {
            return Ok(least);
        }
        least = gone_through(tester, part, least, Lines::Columns)?;
        least = gone_through(tester, part, least, Lines::Rows)?;
        if least.shape().area() == area {
            return Ok(least);
        }
    }
    Ok(least)
}

//! Two lattices put together.
ghost use Rattle.std.specs.Prelude.{◌<◌};
ghost use Rattle.lattice_grid.specs.Control.{NamesBelow};

use crate::bits::Bits;
use crate::classes::Form;
use crate::part::Part;
use crate::picture::{Picture, control_at, drawn};
use crate::tester::Tester;
use lattice_compose::compose::{both, either};
use lattice_grid::control::Control;
use lattice_grid::grid::Grid;
use lattice_grid::shape::{Place, Shape};
use wire_io::fault::NoMemory;

/// The most cells of two lattices for which it is tried whether they need a line between them.
const TRIED: u32 = 1024;

/// In how many ways two lattices with as many shared lines are put together without a line between them; there are twice as
/// many where one is filled.
const WAYS: u32 = 8;

/// From which end lines are counted.
#[derive(Clone, Copy)]
enum Turn {
    Plain,
    Mirrored,
}

/// How a lattice is filled that has fewer shared lines than the other one.
#[derive(Clone, Copy)]
enum Filling {
    /// Its last line is repeated.
    Repeated,
    /// With `1` where it stands beside the other one, and with `0` where it stands above or below it.
    Constant,
}

/// A lattice as it is put together with another one.
#[derive(Clone, Copy)]
struct Side<'a> {
    grid: &'a Grid,
    added: Turn,
    shared: Turn,
    filling: Filling,
}

/// Two lattices put together without a line between them.
#[derive(Clone, Copy)]
struct TwoTouching<'a> {
    form: Form,
    first: Side<'a>,
    other: Side<'a>,
}

impl Turn {
    /// Plain where the bit at a place of a number is 0.
    fn of_bit(number: u32, place: u32) -> Turn
        requires { place < 32 }
    {
        if (number >> place) & 1 == 0 {
            Turn::Plain
        } else {
            Turn::Mirrored
        }
    }

    /// The number of a line of so many.
    fn number(self, line: u32, count: u32) -> u32 {
        match self {
            Turn::Plain => line,
            Turn::Mirrored => count.saturating_sub(line).saturating_sub(1),
        }
    }
}

impl Form {
    /// The number of lines that two lattices share when they are put together so: the rows of two that stand side by side.
    pub(crate) fn shared(self, shape: Shape) -> u32 {
        match self {
            Form::Or => shape.rows(),
            Form::And => shape.cols(),
        }
    }

    /// The number of lines that add up.
    pub(crate) fn added(self, shape: Shape) -> u32 {
        match self {
            Form::Or => shape.cols(),
            Form::And => shape.rows(),
        }
    }

    /// The place on a line that adds up and on one that is shared.
    fn place(self, added: u32, shared: u32) -> Place {
        match self {
            Form::Or => Place {
                row: shared,
                col: added,
            },
            Form::And => Place {
                row: added,
                col: shared,
            },
        }
    }

    /// The shape of so many lines that add up and so many that are shared.
    fn shape(self, added: u32, shared: u32) -> Option<Shape> {
        match self {
            Form::Or => Shape::new(shared, added),
            Form::And => Shape::new(added, shared),
        }
    }

    /// What a lattice is filled with.
    fn filling(self) -> Control
        ensures { NamesBelow 10 result }
    {
        match self {
            Form::Or => Control::One,
            Form::And => Control::Zero,
        }
    }
}

impl Side<'_> {
    /// The control on a line that adds up and on one that is shared.
    fn control(&self, form: Form, added: u32, shared: u32) -> Control
        ensures { NamesBelow 10 result }
    {
        let shape = self.grid.shape();
        let count = form.shared(shape);
        let added = self.added.number(added, form.added(shape));
        if shared < count {
            return control_at(
                self.grid,
                form.place(added, self.shared.number(shared, count)),
            );
        }
        match self.filling {
            Filling::Constant => form.filling(),
            Filling::Repeated => {
                let last = self.shared.number(count.saturating_sub(1), count);
                control_at(self.grid, form.place(added, last))
            }
        }
    }
}

impl<'a> TwoTouching<'a> {
    /// The two lattices in one of the ways.
    fn of_way(form: Form, first: &'a Grid, other: &'a Grid, way: u32) -> TwoTouching<'a> {
        let filling = if way < WAYS {
            Filling::Repeated
        } else {
            Filling::Constant
        };
        TwoTouching {
            form,
            first: Side {
                grid: first,
                added: Turn::of_bit(way, 0),
                shared: Turn::Plain,
                filling,
            },
            other: Side {
                grid: other,
                added: Turn::of_bit(way, 1),
                shared: Turn::of_bit(way, 2),
                filling,
            },
        }
    }
}

impl Picture for TwoTouching<'_> {
    fn control(&self, p: Place) -> Control {
        let (added, shared) = match self.form {
            Form::Or => (p.col, p.row),
            Form::And => (p.row, p.col),
        };
        let before = self.form.added(self.first.grid.shape());
        if added < before {
            self.first.control(self.form, added, shared)
        } else {
            self.other.control(self.form, added - before, shared)
        }
    }
}

/// The shape of two lattices put together with so many lines between them, if a lattice has room for it.
pub(crate) fn shape_of(form: Form, first: Shape, other: Shape, between: u32) -> Option<Shape> {
    let added = form
        .added(first)
        .saturating_add(between)
        .saturating_add(form.added(other));
    form.shape(added, form.shared(first).max(form.shared(other)))
}

/// Whether a lattice is as good for a function as two, of which these are the functions, put together.
fn is_as_good(
    tester: &mut Tester,
    part: &Part,
    form: Form,
    grid: &Grid,
    functions: &[Bits; 2],
) -> Result<bool, NoMemory> {
    for place in 0..part.words() {
        let joined = tester.word(grid, place)?;
        let (first, other) = (functions[0].word(place), functions[1].word(place));
        let lost = match form {
            Form::Or => joined & part.off.word(place) & !(first | other),
            Form::And => first & other & part.on.word(place) & !joined,
        };
        if lost != 0 {
            return Ok(false);
        }
    }
    Ok(true)
}

/// In how many ways two lattices of these shapes are put together without a line between them.
fn ways(form: Form, first: Shape, other: Shape) -> u32 {
    if form.shared(first) == form.shared(other) {
        WAYS
    } else {
        2 * WAYS
    }
}

/// The two lattices put together without a line between them, in the first way that loses nothing.
fn touching(
    tester: &mut Tester,
    part: &Part,
    form: Form,
    first: &Grid,
    other: &Grid,
) -> Result<Option<Grid>, NoMemory> {
    let Some(shape) = shape_of(form, first.shape(), other.shape(), 0) else {
        return Ok(None);
    };
    if shape.area() > TRIED || tester.is_tired() {
        return Ok(None);
    }
    let functions = [tester.function(part, first)?, tester.function(part, other)?];
    for way in 0..ways(form, first.shape(), other.shape()) {
        let grid = drawn(
            tester.alloc(),
            &TwoTouching::of_way(form, first, other, way),
            shape,
        )?;
        if is_as_good(tester, part, form, &grid, &functions)? {
            return Ok(Some(grid));
        }
    }
    Ok(None)
}

/// The two lattices side by side with a column between them, if there is room.
fn beside(tester: &Tester, first: &Grid, other: &Grid) -> Result<Option<Grid>, NoMemory> {
    let (one, two) = (first.shape(), other.shape());
    match Shape::new(one.rows().max(two.rows()), one.cols() + 1 + two.cols()) {
        Some(_shape) => Ok(Some(either(tester.alloc(), first, other)?)),
        None => Ok(None),
    }
}

/// The two lattices one under the other with a row between them, if there is room.
fn stacked(tester: &Tester, first: &Grid, other: &Grid) -> Result<Option<Grid>, NoMemory> {
    let (one, two) = (first.shape(), other.shape());
    match Shape::new(one.rows() + 1 + two.rows(), one.cols().max(two.cols())) {
        Some(_shape) => Ok(Some(both(tester.alloc(), first, other)?)),
        None => Ok(None),
    }
}

/// Two lattices put together, without a line between them where that loses nothing for a function, if there is room.
pub(crate) fn join(
    tester: &mut Tester,
    part: &Part,
    form: Form,
    first: &Grid,
    other: &Grid,
) -> Result<Option<Grid>, NoMemory> {
    if let Some(grid) = touching(tester, part, form, first, other)? {
        return Ok(Some(grid));
    }
    match form {
        Form::Or => beside(tester, first, other),
        Form::And => stacked(tester, first, other),
    }
}

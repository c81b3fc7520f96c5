//! Lattices changed a cell at a time until they realise a function of few inputs.
use crate::part::Part;
use crate::picture::{Picture, drawn};
use crate::shrunk::{Lines, without_line};
use crate::tester::Tester;
use finder_tools::random::Random;
use lattice_grid::control::Control;
use lattice_grid::grid::Grid;
use lattice_grid::shape::{Place, Shape};
use std::alloc::Global;
use wire_io::fault::NoMemory;

/// The most inputs of a function whose lattices are changed so: all of its assignments are in one word.
pub(crate) const INPUTS: u8 = 5;

/// How many changes of cells are tried for cells that were drawn at random.
const STEPS: u32 = 8_000;

/// After how many changes two cells exchange their controls.
const EXCHANGE: u32 = 4;

/// A lattice that is changed, and at which assignments it is wrong.
#[derive(Drop)]
struct Sketch {
    shape: Shape,
    cells: Vec<Control>,
    wrong: u64,
}

impl Picture for Sketch {
    fn control(&self, p: Place) -> Control {
        let row = (p.row as usize).wrapping_mul(self.shape.cols() as usize);
        match self.cells.get(row.wrapping_add(p.col as usize)) {
            Some(control) if control.names_below(10) => *control,
            _ => Control::Zero,
        }
    }
}

/// The assignments at which a function is wrong that is 1 at these.
fn wrong_at(part: &Part, joined: u64) -> u64 {
    (part.on.word(0) & !joined) | (part.off.word(0) & joined)
}

/// Any control, a constant as often as the literals of an input.
fn any_control(random: &mut Random, inputs: u8) -> Control {
    let input = random.below(u32::from(inputs) + 1) as u8;
    let plain = random.below(2) == 0;
    if input == inputs {
        if plain { Control::One } else { Control::Zero }
    } else if plain {
        Control::Plain(input)
    } else {
        Control::Bar(input)
    }
}

/// A control that has the function's value at one of the assignments at which a lattice is wrong.
fn right_control(random: &mut Random, part: &Part, wrong: u64) -> Control {
    let turn = random.below(64);
    let x = wrong.rotate_right(turn).trailing_zeros().wrapping_add(turn) % 64;
    let wanted = (part.on.word(0) >> x) & 1;
    let input = random.below(u32::from(part.inputs) + 1) as u8;
    if input == part.inputs {
        if wanted == 1 {
            Control::One
        } else {
            Control::Zero
        }
    } else if u64::from((x >> input.min(5)) & 1) == wanted {
        Control::Plain(input)
    } else {
        Control::Bar(input)
    }
}

/// The control that a cell gets.
fn new_control(random: &mut Random, part: &Part, wrong: u64) -> Control {
    if random.below(2) == 0 {
        any_control(random, part.inputs)
    } else {
        right_control(random, part, wrong)
    }
}

/// How many halves the chance is multiplied by for each assignment more at which a lattice is wrong: more in later steps.
fn halves(step: u32, steps: u32) -> u32 {
    let part = u64::from(step).saturating_mul(6) / u64::from(steps.max(1));
    10 + part.min(5) as u32
}

/// Whether a change stays: always where the lattice is wrong at no more assignments than before, and rarely else.
fn stays(random: &mut Random, before: u64, now: u64, halves: u32) -> bool {
    let more = now.count_ones().saturating_sub(before.count_ones());
    let shift = halves.saturating_mul(more);
    shift < 31 && random.next() & ((1u32 << shift) - 1) == 0
}

impl Sketch {
    /// The cells of a lattice, to be changed.
    fn of_grid(tester: &mut Tester, part: &Part, grid: &Grid) -> Result<Sketch, NoMemory> {
        let shape = grid.shape();
        let mut cells = Vec::new(tester.alloc());
        for row in 0..shape.rows() {
            cells.extend_from_slice(grid.row(row))?;
        }
        let wrong = wrong_at(part, tester.word(grid, 0)?);
        Ok(Sketch {
            shape,
            cells,
            wrong,
        })
    }

    /// Cells of a lattice that are drawn at random, to be changed.
    fn of_shape(
        tester: &mut Tester,
        random: &mut Random,
        part: &Part,
        shape: Shape,
    ) -> Result<Sketch, NoMemory> {
        let mut cells = Vec::new(tester.alloc());
        for _cell in 0..shape.area() {
            cells.push(any_control(random, part.inputs))?;
        }
        let wrong = wrong_at(part, tester.first_word(&cells, shape.cols())?);
        Ok(Sketch {
            shape,
            cells,
            wrong,
        })
    }

    /// Gives a cell another control, or exchanges the controls of two; takes it back where the change doesn't stay.
    fn change(
        &mut self,
        tester: &mut Tester,
        random: &mut Random,
        part: &Part,
        step: u32,
        steps: u32,
    ) -> Result<(), NoMemory> {
        let (cell, other) = (self.any_cell(random), self.any_cell(random));
        let (old, old_other) = (self.cell(cell), self.cell(other));
        if step % EXCHANGE == EXCHANGE - 1 {
            self.put(cell, old_other);
            self.put(other, old);
        } else {
            self.put(cell, new_control(random, part, self.wrong));
        }
        let joined = tester.first_word(&self.cells, self.shape.cols())?;
        let now = wrong_at(part, joined);
        if stays(random, self.wrong, now, halves(step, steps)) {
            self.wrong = now;
        } else {
            self.put(other, old_other);
            self.put(cell, old);
        }
        Ok(())
    }

    /// A cell by its number, drawn at random.
    fn any_cell(&self, random: &mut Random) -> usize {
        random.next() as usize % self.cells.len().max(1)
    }

    /// The control of a cell, and `0` where there is none.
    fn cell(&self, cell: usize) -> Control {
        match self.cells.get(cell) {
            Some(control) => *control,
            None => Control::Zero,
        }
    }

    /// Gives a cell a control.
    fn put(&mut self, cell: usize, control: Control) {
        if cell < self.cells.len() {
            self.cells[cell] = control;
        }
    }
}

/// A lattice of the same shape that realises the function, if so many changes of cells lead to one.
fn settled(
    tester: &mut Tester,
    random: &mut Random,
    part: &Part,
    sketch: Sketch,
    steps: u32,
) -> Result<Option<Grid>, NoMemory> {
    let mut sketch = sketch;
    for step in 0..steps {
        if sketch.wrong == 0 {
            return Ok(Some(drawn(tester.alloc(), &sketch, sketch.shape)?));
        }
        sketch.change(tester, random, part, step, steps)?;
    }
    Ok(None)
}

/// A lattice of the same shape that realises the function, if changes of cells lead to one.
fn annealed(
    tester: &mut Tester,
    random: &mut Random,
    part: &Part,
    grid: &Grid,
    steps: u32,
) -> Result<Option<Grid>, NoMemory> {
    let sketch = Sketch::of_grid(tester, part, grid)?;
    settled(tester, random, part, sketch, steps)
}

/// A lattice of a shape that realises the function, if changes of cells lead to one from cells that are drawn at random, so
/// many times.
pub(crate) fn of_shape(
    tester: &mut Tester,
    random: &mut Random,
    part: &Part,
    shape: Shape,
    tries: u32,
) -> Result<Option<Grid>, NoMemory> {
    for _try in 0..tries {
        if tester.is_half_tired() {
            return Ok(None);
        }
        let sketch = Sketch::of_shape(tester, random, part, shape)?;
        if let Some(grid) = settled(tester, random, part, sketch, STEPS)? {
            return Ok(Some(grid));
        }
    }
    Ok(None)
}

/// The lattice without the line without which it is wrong at the fewest assignments, if there are two lines.
fn least_wrong(
    tester: &mut Tester,
    part: &Part,
    grid: &Grid,
    lines: Lines,
) -> Result<Option<Grid>, NoMemory> {
    let mut least: Option<Grid> = None;
    let mut fewest = u32::MAX;
    for number in 0..lines.count(grid.shape()) {
        if let Some(less) = without_line(tester.alloc(), grid, lines, number)? {
            let wrong = wrong_at(part, tester.word(&less, 0)?).count_ones();
            if wrong < fewest {
                fewest = wrong;
                least = Some(less);
            }
        }
    }
    Ok(least)
}

/// A lattice of one line less, if changes of cells lead to one.
fn with_less(
    tester: &mut Tester,
    random: &mut Random,
    part: &Part,
    grid: &Grid,
    lines: Lines,
    steps: u32,
) -> Result<Option<Grid>, NoMemory> {
    match least_wrong(tester, part, grid, lines)? {
        Some(less) => annealed(tester, random, part, &less, steps),
        None => Ok(None),
    }
}

/// A lattice of one column or one row less that realises the function, if changes of cells lead to one.
pub(crate) fn smaller(
    tester: &mut Tester,
    random: &mut Random,
    part: &Part,
    grid: &Grid,
    steps: u32,
) -> Result<Option<Grid>, NoMemory> {
    if tester.is_half_tired() {
        return Ok(None);
    }
    match with_less(tester, random, part, grid, Lines::Columns, steps)? {
        Some(less) => Ok(Some(less)),
        None => with_less(tester, random, part, grid, Lines::Rows, steps),
    }
}

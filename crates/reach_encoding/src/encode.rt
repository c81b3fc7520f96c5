//! The formula of a question.
ghost use Rattle.std.specs.Prelude.{◌≡◌, ℕ, ◌+◌, ◌*◌, ◌≤◌, ◌<◌, Bool, true, false, List, [], ◌∷◌, ◌++◌, length, map, All, IfOk, OnOk, IfSome, option_copied};
ghost use Rattle.std.specs.List.{flat_map};
ghost use Rattle.clause_core.specs.Formula.{most_clauses};
ghost use Rattle.lattice_grid.specs.Neighbours.{four_of, eight_of};
ghost use Rattle.lattice_grid.specs.Path.{IsWithin};
ghost use Rattle.reach_encoding.specs.Encoding.{below, cells_of, many_controls, many_asked, number_of, choices, values_with, values, closed_marks, top, bottom, left, right, next_four, next_eight, marks_at, marks, encoding};
ghost use Rattle.reach_encoding.specs.EncodeParts.{vars_of, Adds, HasRoom, cells_along, choice_clause, value_clause, stuck_clause, start_clause, step_clause, end_clause};

use crate::line::Line;
use crate::task::Task;
use clause_core::formula::Formula;
use clause_core::lit::Lit;
use cube_core::spec::Spec;
use lattice_grid::array::{Array, Defect};
use lattice_grid::neighbours::{eight, four};
use lattice_grid::rails::Rails;
use lattice_grid::shape::{Place, Shape};
use std::alloc::Global;
use wire_io::fault::NoMemory;

/// Makes the clause that some control stands at a cell.
fn fill_choice(clause: &mut Vec<Lit>, task: &Task, cell: u32) -> Result<(), NoMemory>
    requires { cell < cells_of task.now }
    ensures { OnOk result (clause.new.items ≡ choice_clause task.now cell) }
{
    clause.clear();
    for control in 0..task.controls() {
        clause.push(task.chosen(true, cell, control))?;
    }
    Ok(())
}

/// Adds the clauses that some control stands at each cell.
fn push_choices(alloc: Global, formula: &mut Formula, task: &Task) -> Result<(), NoMemory>
    requires { HasRoom task.now formula.old (choices task.now) }
    ensures { OnOk result (Adds formula.old formula.new (choices task.now)) }
{
    let mut clause = Vec::new(alloc);
    for cell in 0..task.cells() {
        fill_choice(&mut clause, task, cell)?;
        formula.push(&clause)?;
    }
    Ok(())
}

/// Adds the clauses that a sound cell is on as a control says that stands there.
fn push_control(formula: &mut Formula, task: &Task, cell: u32, control: u32) -> Result<(), NoMemory>
    requires cell { cell < cells_of task.now }
    requires control { control < many_controls task.now }
    requires room { HasRoom task.now formula.old (map (value_clause task.now cell control) (below (many_asked task.now))) }
    ensures { OnOk result (Adds formula.old formula.new (map (value_clause task.now cell control) (below (many_asked task.now)))) }
{
    let absent = task.chosen(false, cell, control);
    for time in 0..task.many() {
        let on = task.control_value(control, time);
        formula.push(&[absent, task.valued(on, cell, time)])?;
    }
    Ok(())
}

/// Adds the clauses of a sound cell.
fn push_sound(formula: &mut Formula, task: &Task, cell: u32) -> Result<(), NoMemory>
    requires cell { cell < cells_of task.now }
    requires room { HasRoom task.now formula.old (values_with task.now Defect.Sound cell) }
    ensures { OnOk result (Adds formula.old formula.new (values_with task.now Defect.Sound cell)) }
{
    for control in 0..task.controls() {
        push_control(formula, task, cell, control)?;
    }
    Ok(())
}

/// Adds the clauses of a cell that is always on, or never.
fn push_stuck(formula: &mut Formula, task: &Task, cell: u32, on: bool) -> Result<(), NoMemory>
    requires cell { cell < cells_of task.now }
    requires room { HasRoom task.now formula.old (map (stuck_clause task.now on cell) (below (many_asked task.now))) }
    ensures { OnOk result (Adds formula.old formula.new (map (stuck_clause task.now on cell) (below (many_asked task.now)))) }
{
    for time in 0..task.many() {
        formula.push(&[task.valued(on, cell, time)])?;
    }
    Ok(())
}

/// Adds the clauses of a cell with a defect.
fn push_cell(formula: &mut Formula, task: &Task, cell: u32, defect: Defect) -> Result<(), NoMemory>
    requires cell { cell < cells_of task.now }
    requires room { HasRoom task.now formula.old (values_with task.now defect cell) }
    ensures { OnOk result (Adds formula.old formula.new (values_with task.now defect cell)) }
{
    match defect {
        Defect::Sound => push_sound(formula, task, cell),
        Defect::StuckOpen => push_stuck(formula, task, cell, false),
        Defect::StuckClosed => push_stuck(formula, task, cell, true),
    }
}

/// Adds the clauses that each cell is on as its control and its defect say.
fn push_values(formula: &mut Formula, task: &Task) -> Result<(), NoMemory>
    requires { HasRoom task.now formula.old (values task.now) }
    ensures { OnOk result (Adds formula.old formula.new (values task.now)) }
{
    for cell in 0..task.cells() {
        push_cell(formula, task, cell, task.defect(cell))?;
    }
    Ok(())
}

/// Adds the clauses that the cells of a line are marked whose value lets through.
fn push_start(
    formula: &mut Formula,
    task: &Task,
    time: u32,
    through: bool,
    line: Line,
) -> Result<(), NoMemory>
    requires time { time < many_asked task.now }
    requires line { All (λ p. p < cells_of task.now) (cells_along line.first line.step line.count) }
    requires room { HasRoom task.now formula.old (map (start_clause task.now time through) (cells_along line.first line.step line.count)) }
    ensures { OnOk result (Adds formula.old formula.new (map (start_clause task.now time through) (cells_along line.first line.step line.count))) }
{
    for i in 0..line.count {
        let cell = line.at(i);
        formula.push(&[
            task.valued(!through, cell, time),
            task.marked(true, cell, time),
        ])?;
    }
    Ok(())
}

/// Adds the clauses that no cell of a line is marked.
fn push_end(formula: &mut Formula, task: &Task, time: u32, line: Line) -> Result<(), NoMemory>
    requires time { time < many_asked task.now }
    requires line { All (λ p. p < cells_of task.now) (cells_along line.first line.step line.count) }
    requires room { HasRoom task.now formula.old (map (end_clause task.now time) (cells_along line.first line.step line.count)) }
    ensures { OnOk result (Adds formula.old formula.new (map (end_clause task.now time) (cells_along line.first line.step line.count))) }
{
    for i in 0..line.count {
        let cell = line.at(i);
        formula.push(&[task.marked(false, cell, time)])?;
    }
    Ok(())
}

/// Adds the clauses that with a cell those next to it are marked whose value lets through.
fn push_steps(
    formula: &mut Formula,
    task: &Task,
    time: u32,
    through: bool,
    cell: u32,
    next: &[Place],
) -> Result<(), NoMemory>
    requires time { time < many_asked task.now }
    requires cell { cell < cells_of task.now }
    requires within { All (IsWithin task.now.size) next.now }
    requires room { HasRoom task.now formula.old (map (step_clause task.now time through cell) (map (number_of task.now.size) next.now)) }
    ensures { OnOk result (Adds formula.old formula.new (map (step_clause task.now time through cell) (map (number_of task.now.size) next.now))) }
{
    let unmarked = task.marked(false, cell, time);
    for place in next {
        let other = task.number(*place);
        formula.push(&[
            unmarked,
            task.valued(!through, other, time),
            task.marked(true, other, time),
        ])?;
    }
    Ok(())
}

/// Adds the clauses that the marks go on from each cell to its four-neighbours.
fn push_four_steps(
    formula: &mut Formula,
    task: &Task,
    time: u32,
    through: bool,
) -> Result<(), NoMemory>
    requires time { time < many_asked task.now }
    requires room { HasRoom task.now formula.old (flat_map (λ p. map (step_clause task.now time through p) (next_four task.now.size p)) (below (cells_of task.now))) }
    ensures { OnOk result (Adds formula.old formula.new (flat_map (λ p. map (step_clause task.now time through p) (next_four task.now.size p)) (below (cells_of task.now)))) }
{
    for cell in 0..task.cells() {
        let next = four(task.shape(), task.place(cell));
        push_steps(formula, task, time, through, cell, &next)?;
    }
    Ok(())
}

/// Adds the clauses that the marks go on from each cell to its eight-neighbours.
fn push_eight_steps(
    formula: &mut Formula,
    task: &Task,
    time: u32,
    through: bool,
) -> Result<(), NoMemory>
    requires time { time < many_asked task.now }
    requires room { HasRoom task.now formula.old (flat_map (λ p. map (step_clause task.now time through p) (next_eight task.now.size p)) (below (cells_of task.now))) }
    ensures { OnOk result (Adds formula.old formula.new (flat_map (λ p. map (step_clause task.now time through p) (next_eight task.now.size p)) (below (cells_of task.now)))) }
{
    for cell in 0..task.cells() {
        let next = eight(task.shape(), task.place(cell));
        push_steps(formula, task, time, through, cell, &next)?;
    }
    Ok(())
}

/// Adds the clauses of a cut from left to right that is not to be.
fn push_cuts(formula: &mut Formula, task: &Task, time: u32) -> Result<(), NoMemory>
    requires time { time < many_asked task.now }
    requires room { HasRoom task.now formula.old (closed_marks task.now time false (left task.now.size) (next_eight task.now.size) (right task.now.size)) }
    ensures { OnOk result (Adds formula.old formula.new (closed_marks task.now time false (left task.now.size) (next_eight task.now.size) (right task.now.size))) }
{
    push_start(formula, task, time, false, Line::left(task.shape()))?;
    push_eight_steps(formula, task, time, false)?;
    push_end(formula, task, time, Line::right(task.shape()))
}

/// Adds the clauses of a path from top to bottom that is not to be.
fn push_paths(formula: &mut Formula, task: &Task, time: u32) -> Result<(), NoMemory>
    requires time { time < many_asked task.now }
    requires room { HasRoom task.now formula.old (closed_marks task.now time true (top task.now.size) (next_four task.now.size) (bottom task.now.size)) }
    ensures { OnOk result (Adds formula.old formula.new (closed_marks task.now time true (top task.now.size) (next_four task.now.size) (bottom task.now.size))) }
{
    push_start(formula, task, time, true, Line::top(task.shape()))?;
    push_four_steps(formula, task, time, true)?;
    push_end(formula, task, time, Line::bottom(task.shape()))
}

/// Adds the clauses of the marks at an assignment.
fn push_marks_at(formula: &mut Formula, task: &Task, time: u32) -> Result<(), NoMemory>
    requires time { time < many_asked task.now }
    requires room { HasRoom task.now formula.old (marks_at task.now time) }
    ensures { OnOk result (Adds formula.old formula.new (marks_at task.now time)) }
{
    if task.is_on(time) {
        push_cuts(formula, task, time)
    } else {
        push_paths(formula, task, time)
    }
}

/// Adds the clauses of the marks.
fn push_marks(formula: &mut Formula, task: &Task) -> Result<(), NoMemory>
    requires { HasRoom task.now formula.old (marks task.now) }
    ensures { OnOk result (Adds formula.old formula.new (marks task.now)) }
{
    for time in 0..task.many() {
        push_marks_at(formula, task, time)?;
    }
    Ok(())
}

/// The formula whose solutions are the lattices of this shape and of allowed literals that realise the function, on the
/// array where there is one. There are at most 32,768 cells.
pub fn encode(
    alloc: Global,
    spec: &Spec,
    rails: Rails,
    shape: Shape,
    array: Option<&Array>,
) -> Result<Formula, NoMemory>
    requires few { shape.rows * shape.cols ≤ 32768 }
    requires array { IfSome (option_copied array) (λ a. a.size ≡ shape) }
    ensures { IfOk result (λ formula. formula ≡ encoding (record { function = spec.now; rails = rails; size = shape; array = option_copied array.entry })) }
{
    let task = Task::new(alloc, spec, rails, shape, array)?;
    let mut formula = Formula::new(alloc, task.vars());
    push_choices(alloc, &mut formula, &task)?;
    push_values(&mut formula, &task)?;
    push_marks(&mut formula, &task)?;
    Ok(formula)
}

//! The solution that a lattice gives.
ghost use Rattle.std.specs.Prelude.{◌≡◌, ◌*◌, ◌<◌, ◌≤◌, ◌++◌, length, IfOk, OnOk, IfSome, option_copied};
ghost use Rattle.std.specs.List.{flat_map};
ghost use Rattle.clause_core.specs.Formula.{IsSatisfiedBy, value_in};
ghost use Rattle.lattice_grid.specs.Rails.{IsOverRails};
ghost use Rattle.lattice_grid.specs.Rectangle.{IsSize};
ghost use Rattle.path_meaning.specs.Defective.{RealisesIn, is_on_in};
ghost use Rattle.reach_encoding.specs.EncodeParts.{vars_of};
ghost use Rattle.reach_encoding.specs.Encoding.{below, encoding};
ghost use Rattle.reach_encoding.specs.Model.{IsModel};
ghost use Rattle.reach_encoding.specs.ModelOf.{answered, is_control, control_row, choice_row, free_cells_of, side_at, IsRowOfMarks, HasMarks};

use crate::flood::{Side, flood};
use clause_core::valuation::Valuation;
use cube_core::assign::Assign;
use cube_core::spec::Spec;
use lattice_grid::array::{Array, Defect};
use lattice_grid::control::Control;
use lattice_grid::grid::Grid;
use lattice_grid::rails::Rails;
use lattice_grid::rising::rising_assignments;
use lattice_grid::shape::Place;
use std::alloc::Global;
use wire_io::fault::NoMemory;

/// Whether two controls are the same.
fn is_control(one: Control, other: Control) -> bool
    ensures { result ≡ is_control one other }
{
    one == other
}

/// Adds for each of some controls whether it is the one that stands.
fn push_control(
    values: &mut Vec<bool>,
    controls: &[Control],
    stands: Control,
) -> Result<(), NoMemory>
    ensures { OnOk result (values.new.items ≡ values.old.items ++ control_row controls.now stands) }
{
    for control in controls {
        values.push(is_control(*control, stands))?;
    }
    Ok(())
}

/// Adds for each cell which control stands there.
fn push_choices(values: &mut Vec<bool>, grid: &Grid, controls: &[Control]) -> Result<(), NoMemory>
    ensures size { IsSize grid.now.size }
    ensures rows { OnOk result (values.new.items ≡ values.old.items ++ flat_map (choice_row grid.now controls.now) (below (grid.now.size.rows * grid.now.size.cols))) }
{
    let shape = grid.shape();
    for cell in 0..shape.area() {
        push_control(values, controls, grid.at(shape.place(cell)))?;
    }
    Ok(())
}

/// Whether a cell is on at an assignment, with its defect.
fn is_on(grid: &Grid, array: Option<&Array>, x: Assign, p: Place) -> bool
    requires row { p.row < grid.now.size.rows }
    requires col { p.col < grid.now.size.cols }
    requires array { IfSome (option_copied array) (λ a. a.size ≡ grid.now.size) }
    ensures { result ≡ is_on_in grid.now (option_copied array.entry) x p }
{
    let defect = match array {
        Some(array) => array.at(p),
        None => Defect::Sound,
    };
    match defect {
        Defect::Sound => grid.is_on(p, x),
        Defect::StuckOpen => false,
        Defect::StuckClosed => true,
    }
}

/// Whether each cell is free for a flood at an assignment.
fn free_cells(
    alloc: Global,
    grid: &Grid,
    array: Option<&Array>,
    x: Assign,
    side: Side,
) -> Result<Vec<bool>, NoMemory>
    requires { IfSome (option_copied array) (λ a. a.size ≡ grid.now.size) }
    ensures { IfOk result (λ cells. cells.items ≡ free_cells_of grid.now (option_copied array.entry) side x) }
{
    let shape = grid.shape();
    let mut cells = Vec::new(alloc);
    for cell in 0..shape.area() {
        let on = is_on(grid, array, x, shape.place(cell));
        cells.push(side.lets_in(on))?;
    }
    Ok(cells)
}

/// Adds for each assignment and each cell whether the cell is on.
fn push_values(
    alloc: Global,
    values: &mut Vec<bool>,
    grid: &Grid,
    array: Option<&Array>,
    asked: &[Assign],
) -> Result<(), NoMemory>
    requires { IfSome (option_copied array) (λ a. a.size ≡ grid.now.size) }
    ensures { OnOk result (values.new.items ≡ values.old.items ++ flat_map (free_cells_of grid.now (option_copied array.entry) Side.Down) asked.now) }
{
    for x in asked {
        let row = free_cells(alloc, grid, array, *x, Side::Down)?;
        values.extend_from_slice(row.as_slice())?;
    }
    Ok(())
}

/// From which side the marks of an assignment are a flood: across where the function is 1, otherwise down.
fn side_at(spec: &Spec, x: Assign) -> Side
    ensures { result ≡ side_at spec.now.on x }
{
    if spec.on().has(x) {
        Side::Across
    } else {
        Side::Down
    }
}

/// The marks of each cell at an assignment.
fn marks_at(
    alloc: Global,
    spec: &Spec,
    grid: &Grid,
    array: Option<&Array>,
    x: Assign,
) -> Result<Vec<bool>, NoMemory>
    requires { IfSome (option_copied array) (λ a. a.size ≡ grid.now.size) }
    ensures { IfOk result (λ marks. IsRowOfMarks spec.now.on grid.now (option_copied array.entry) x marks.items) }
{
    let side = side_at(spec, x);
    let free = free_cells(alloc, grid, array, x, side)?;
    flood(alloc, grid.shape(), free.as_slice(), side)
}

/// Adds for each assignment and each cell whether the cell is marked.
fn push_marks(
    alloc: Global,
    values: &mut Vec<bool>,
    spec: &Spec,
    grid: &Grid,
    array: Option<&Array>,
    asked: &[Assign],
) -> Result<(), NoMemory>
    requires { IfSome (option_copied array) (λ a. a.size ≡ grid.now.size) }
    ensures { OnOk result (HasMarks spec.now.on grid.now (option_copied array.entry) asked.now values.old.items values.new.items) }
{
    for x in asked {
        let marks = marks_at(alloc, spec, grid, array, *x)?;
        values.extend_from_slice(marks.as_slice())?;
    }
    Ok(())
}

/// The solution of the encoding that a lattice gives which answers the question: it chooses at each cell the control that
/// stands there. The lattice has at most 32,768 cells and allowed literals of the function's inputs, and realises the function.
pub fn model_of(
    alloc: Global,
    spec: &Spec,
    rails: Rails,
    grid: &Grid,
    array: Option<&Array>,
) -> Result<Valuation, NoMemory>
    requires few { grid.now.size.rows * grid.now.size.cols ≤ 32768 }
    requires over { IsOverRails spec.now.inputs rails grid.now }
    requires realises { RealisesIn grid.now spec.now (option_copied array) }
    ensures satisfied { IfOk result (λ values. IsSatisfiedBy values (encoding (answered spec.now rails grid.now (option_copied array.entry)))) }
    ensures chosen { IfOk result (λ values. IsModel (answered spec.now rails grid.now (option_copied array.entry)) grid.now (value_in values)) }
    ensures long { IfOk result (λ values. length values ≡ vars_of (answered spec.now rails grid.now (option_copied array.entry))) }
{
    let controls = rails.controls(spec.inputs());
    let asked = rising_assignments(alloc, spec.inputs(), &spec.on().or(spec.off()))?;
    let mut values = Vec::new(alloc);
    push_choices(&mut values, grid, &controls)?;
    push_values(alloc, &mut values, grid, array, asked.as_slice())?;
    push_marks(alloc, &mut values, spec, grid, array, asked.as_slice())?;
    Ok(Valuation::new(values))
}

//! Encodings and their solutions.
ghost use Rattle.std.specs.Prelude.{◌≡◌, ◌*◌, ◌≤◌, IfOk, IfSome, option_copied};
ghost use Rattle.clause_core.specs.Formula.{IsSatisfiedBy};
ghost use Rattle.lattice_grid.specs.Rails.{IsOverRails};
ghost use Rattle.path_meaning.specs.Defective.{RealisesIn};
ghost use Rattle.reach_encoding.specs.Encoding.{encoding};

use crate::functions::{conjunction, exclusive_or};
use clause_core::valuation::Valuation;
use cube_core::spec::Spec;
use cube_core::table::Table;
use lattice_grid::array::{Array, Defect};
use lattice_grid::control::Control;
use lattice_grid::grid::Grid;
use lattice_grid::pairs::pairs;
use lattice_grid::rails::Rails;
use lattice_grid::shape::{Place, Shape};
use reach_encoding::decode::decode;
use reach_encoding::encode::encode;
use reach_encoding::laws::read;
use reach_encoding::model::model_of;
use std::alloc::{AllocError, Global};
use std::test::Fail;
use wire_io::fault::NoMemory;

#[test]
fn a_lattice_is_a_solution(rt: HostRuntime) -> Result<(), Fail> {
    let alloc = rt.alloc();
    let spec = exclusive_or().ok_or("a function")?;
    let grid = pairs(alloc, &spec)?;
    assert_eq!(rt; grid.shape().rows(), 2);
    assert_eq!(rt; grid.shape().cols(), 2);
    let rails = Rails::all();
    assert!(rt; grid.allowed(spec.inputs(), rails));
    let formula = encode(alloc, &spec, rails, grid.shape(), None)?;
    let values = model_of(alloc, &spec, rails, &grid, None)?;
    assert_eq!(rt; formula.vars(), 56);
    assert_eq!(rt; values.vars(), 56);
    assert!(rt; formula.satisfied_by(&values));
    // The first cell has control `x0`, which is number 2.
    assert!(rt; !values.of(1));
    assert!(rt; !values.of(2));
    assert!(rt; values.of(3));
    Ok(())
}

#[test]
fn stuck_cells(rt: HostRuntime) -> Result<(), Fail> {
    let alloc = rt.alloc();
    let shape = Shape::new(2, 1).ok_or("a shape")?;
    let defects = vec![in alloc; Defect::StuckClosed, Defect::Sound]?;
    let closed = Array::new(shape, defects).ok_or("an array")?;
    assert_eq!(rt; closed.at(Place { row: 0, col: 0 }), Defect::StuckClosed);
    let spec = conjunction().ok_or("a function")?;
    // Two cells have a control; the closed one has a value at each of four assignments, the sound one for each of six controls;
    // marks take four clauses at each of three off assignments, and six at the on assignment.
    let formula = encode(alloc, &spec, Rails::all(), shape, Some(&closed))?;
    assert_eq!(rt; formula.vars(), 28);
    assert_eq!(rt; formula.count(), 2 + 4 + 24 + 12 + 6);
    Ok(())
}

/// The lattice that a solution of the formula of a question chooses.
fn lattice_of(
    alloc: Global,
    spec: &Spec,
    rails: Rails,
    shape: Shape,
    array: Option<&Array>,
    values: &Valuation,
) -> Result<Grid, NoMemory>
    requires few { shape.rows * shape.cols ≤ 32768 }
    requires array { IfSome (option_copied array) (λ a. a.size ≡ shape) }
    requires satisfied { IsSatisfiedBy values.now (encoding (record { function = spec.now; rails = rails; size = shape; array = option_copied array })) }
    ensures size { IfOk result (λ grid. grid.size ≡ shape) }
    ensures over { IfOk result (IsOverRails spec.now.inputs rails) }
    ensures realises { IfOk result (λ grid. RealisesIn grid spec.now (option_copied array.entry)) }
{
    prove!(shape.rows() > 0);
    read();
    decode(alloc, spec.inputs(), rails, shape, values)
}

#[test]
fn the_first_chosen_controls_are_read(rt: HostRuntime) -> Result<(), Fail> {
    let alloc = rt.alloc();
    let rails = Rails::all();
    // No assignment is asked, so that some control at each cell is a solution.
    let free = Spec::new(1, Table::empty(), Table::empty()).ok_or("a function")?;
    let shape = Shape::new(2, 1).ok_or("a shape")?;
    let formula = encode(alloc, &free, rails, shape, None)?;
    let mut values = vec![in alloc; true; 8]?;
    values[0] = false;
    values[1] = false;
    values[2] = false;
    let values = Valuation::new(values);
    assert_eq!(rt; formula.vars(), 8);
    assert!(rt; formula.satisfied_by(&values));
    let grid = lattice_of(alloc, &free, rails, shape, None, &values)?;
    assert_eq!(rt; grid.row(0), [Control::Bar(0)].as_slice());
    assert_eq!(rt; grid.row(1), [Control::Zero].as_slice());
    Ok(())
}

/// How many variables say what is chosen at four cells of six controls, and how many the values at four assignments bring it to.
const CHOICES: usize = 24;

const VALUES: usize = 40;

/// A solution for the conjunction on four cells of which those on the right are stuck open: `x0` above `x1` at the left, and
/// `0` at the right.
fn solution(alloc: Global) -> Result<Valuation, AllocError> {
    let mut values = vec![in alloc; false; 56]?;
    for choice in [2, 6, 16, 18] {
        values[choice] = true;
    }
    // The first cell is on at assignments 1 and 3, the third one at 2 and 3.
    for value in [4, 10, 12, 14] {
        values[CHOICES + value] = true;
    }
    // At assignment 1 the first cell is marked from above; at 3 no cell of the left column is off.
    values[VALUES + 4] = true;
    Ok(Valuation::new(values))
}

#[test]
fn a_lattice_on_stuck_cells(rt: HostRuntime) -> Result<(), Fail> {
    let alloc = rt.alloc();
    let spec = conjunction().ok_or("a function")?;
    let rails = Rails::all();
    let shape = Shape::new(2, 2).ok_or("a shape")?;
    let defects = vec![in alloc;
        Defect::Sound,
        Defect::StuckOpen,
        Defect::Sound,
        Defect::StuckOpen,
    ]?;
    let array = Array::new(shape, defects).ok_or("an array")?;
    let formula = encode(alloc, &spec, rails, shape, Some(&array))?;
    let values = solution(alloc)?;
    assert!(rt; formula.vars() <= values.vars());
    assert!(rt; formula.satisfied_by(&values));
    let grid = lattice_of(alloc, &spec, rails, shape, Some(&array), &values)?;
    assert_eq!(rt; grid.row(0), [Control::Plain(0), Control::Zero].as_slice());
    assert_eq!(rt; grid.row(1), [Control::Plain(1), Control::Zero].as_slice());
    let again = model_of(alloc, &spec, rails, &grid, Some(&array))?;
    assert!(rt; formula.satisfied_by(&again));
    let same = lattice_of(alloc, &spec, rails, shape, Some(&array), &again)?;
    assert_eq!(rt; same.row(0), grid.row(0));
    assert_eq!(rt; same.row(1), grid.row(1));
    Ok(())
}

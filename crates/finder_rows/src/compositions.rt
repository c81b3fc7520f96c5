//! Cells of small lattices.
ghost use Rattle.std.specs.Prelude.{◌≡◌, All, IfOk};
ghost use Rattle.lattice_grid.specs.Control.{NamesBelow};

use lattice_compose::compose::{both, either};
use lattice_compose::without::{drop_col, drop_row};
use lattice_grid::control::Control;
use lattice_grid::grid::Grid;
use lattice_grid::shape::Shape;
use std::test::Fail;

/// A lattice of so many rows and columns.
fn lattice(rows: u32, cols: u32, cells: Vec<Control>) -> Result<Grid, Fail>
    requires { All (NamesBelow 10) cells.items }
    ensures rows { IfOk result (λ grid. grid.size.rows ≡ rows) }
    ensures cols { IfOk result (λ grid. grid.size.cols ≡ cols) }
{
    let shape = Shape::new(rows, cols).ok_or("a shape")?;
    let grid = Grid::new(shape, cells).ok_or("a lattice")?;
    Ok(grid)
}

#[test]
fn a_cell_beside_two(rt: HostRuntime) -> Result<(), Fail> {
    let left = lattice(1, 1, vec![in rt.alloc(); Control::Plain(0)]?)?;
    let right = lattice(
        2,
        1,
        vec![in rt.alloc(); Control::Plain(1), Control::Plain(2)]?,
    )?;
    let grid = either(rt.alloc(), &left, &right)?;
    assert_eq!(rt; grid.shape().rows(), 2);
    assert_eq!(rt;
        grid.row(0),
        [Control::Plain(0), Control::Zero, Control::Plain(1)].as_slice()
    );
    assert_eq!(rt;
        grid.row(1),
        [Control::One, Control::Zero, Control::Plain(2)].as_slice()
    );
    Ok(())
}

#[test]
fn two_above_a_cell(rt: HostRuntime) -> Result<(), Fail> {
    let upper = lattice(
        1,
        2,
        vec![in rt.alloc(); Control::Plain(0), Control::Plain(1)]?,
    )?;
    let lower = lattice(1, 1, vec![in rt.alloc(); Control::Plain(2)]?)?;
    let grid = both(rt.alloc(), &upper, &lower)?;
    assert_eq!(rt; grid.shape().rows(), 3);
    assert_eq!(rt;
        grid.row(0),
        [Control::Plain(0), Control::Plain(1)].as_slice()
    );
    assert_eq!(rt; grid.row(1), [Control::One, Control::One].as_slice());
    assert_eq!(rt; grid.row(2), [Control::Plain(2), Control::Zero].as_slice());
    Ok(())
}

#[test]
fn the_other_column(rt: HostRuntime) -> Result<(), Fail> {
    let grid = lattice(
        1,
        2,
        vec![in rt.alloc(); Control::Plain(0), Control::Plain(1)]?,
    )?;
    let less = drop_col(rt.alloc(), &grid, 0)?;
    assert_eq!(rt; less.shape().rows(), 1);
    assert_eq!(rt; less.row(0), [Control::Plain(1)].as_slice());
    Ok(())
}

#[test]
fn the_other_row(rt: HostRuntime) -> Result<(), Fail> {
    let grid = lattice(
        2,
        1,
        vec![in rt.alloc(); Control::Plain(1), Control::Plain(2)]?,
    )?;
    let less = drop_row(rt.alloc(), &grid, 0)?;
    assert_eq!(rt; less.shape().rows(), 1);
    assert_eq!(rt; less.row(0), [Control::Plain(2)].as_slice());
    Ok(())
}

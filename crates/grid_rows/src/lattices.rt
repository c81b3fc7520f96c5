use crate::functions::exclusive_or;
use lattice_grid::control::Control;
use lattice_grid::grid::Grid;
use lattice_grid::neighbours::{eight, four};
use lattice_grid::pairs::pairs;
use lattice_grid::shape::{Place, Shape};
use std::test::Fail;

#[test]
fn pairs_of_exclusive_or(rt: HostRuntime) -> Result<(), Fail> {
    let spec = exclusive_or().ok_or("a function")?;
    let grid = pairs(rt.alloc(), &spec)?;
    assert_eq!(rt; grid.shape().rows(), 2);
    assert_eq!(rt;
        grid.row(0),
        [Control::Plain(0), Control::Plain(1)].as_slice()
    );
    assert_eq!(rt; grid.row(1), [Control::Bar(1), Control::Bar(0)].as_slice());
    assert!(rt; grid.names_below(2));
    assert!(rt; !grid.names_below(1));
    Ok(())
}

#[test]
fn last_row_and_column_once_more(rt: HostRuntime) -> Result<(), Fail> {
    let cells = [Control::Plain(0), Control::Plain(1)].to_vec(rt.alloc())?;
    let grid = Grid::new(Shape::new(1, 2).ok_or("a shape")?, cells).ok_or("a lattice")?;
    let row = [Control::Plain(0), Control::Plain(1)];
    let taller = grid.repeat_row(rt.alloc())?;
    assert_eq!(rt; taller.shape().rows(), 2);
    assert_eq!(rt; taller.row(0), row.as_slice());
    assert_eq!(rt; taller.row(1), row.as_slice());
    let wider = grid.repeat_col(rt.alloc())?;
    assert_eq!(rt; wider.shape().cols(), 3);
    assert_eq!(rt;
        wider.row(0),
        [Control::Plain(0), Control::Plain(1), Control::Plain(1)].as_slice()
    );
    Ok(())
}

#[test]
fn neighbours_of_a_corner(rt: HostRuntime) -> Result<(), Fail> {
    let shape = Shape::new(3, 3).ok_or("a shape")?;
    let around = four(shape, Place { row: 0, col: 1 });
    let last = Place { row: 1, col: 1 };
    assert_eq!(rt;
        around.as_slice(),
        [Place { row: 0, col: 0 }, Place { row: 0, col: 2 }, last].as_slice()
    );
    assert_eq!(rt; eight(shape, last).as_slice().len(), 8);
    Ok(())
}

use crate::functions::exclusive_or;
use cube_core::assign::Assign;
use lattice_grid::control::Control;
use lattice_grid::grid::Grid;
use lattice_grid::pairs::pairs;
use lattice_grid::shape::Shape;
use path_meaning::marks::Marks;
use path_meaning::paths::{cut, joins};
use path_meaning::realise::realises;
use std::test::Fail;

#[test]
fn corner_to_corner_is_cut(rt: HostRuntime) -> Result<(), Fail> {
    let cells = [
        Control::Plain(0),
        Control::Bar(0),
        Control::Bar(0),
        Control::Plain(0),
    ]
    .to_vec(rt.alloc())?;
    let grid = Grid::new(Shape::new(2, 2).ok_or("a shape")?, cells).ok_or("a lattice")?;
    let mut marks = Marks::new(rt.alloc(), 4)?;
    let one = Assign::new(1).ok_or("an assignment")?;
    assert_eq!(rt; marks.cells(), 4);
    assert!(rt; !joins(&grid, one, &mut marks));
    assert!(rt; cut(&grid, one, &mut marks));
    Ok(())
}

#[test]
fn pairs_realise(rt: HostRuntime) -> Result<(), Fail> {
    let spec = exclusive_or().ok_or("a function")?;
    let grid = pairs(rt.alloc(), &spec)?;
    let mut marks = Marks::new(rt.alloc(), grid.shape().area())?;
    assert_eq!(rt; realises(&spec, &grid, &mut marks), Ok(()));
    Ok(())
}

#[test]
fn least_failure(rt: HostRuntime) -> Result<(), Fail> {
    let spec = exclusive_or().ok_or("a function")?;
    let cells = [Control::Plain(0)].to_vec(rt.alloc())?;
    let grid = Grid::new(Shape::new(1, 1).ok_or("a shape")?, cells).ok_or("a lattice")?;
    let mut marks = Marks::new(rt.alloc(), 1)?;
    assert_eq!(rt;
        realises(&spec, &grid, &mut marks),
        Err(Assign::new(2).ok_or("an assignment")?)
    );
    Ok(())
}

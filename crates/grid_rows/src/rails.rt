//! Lattices of allowed literals.
use crate::functions::conjunction;
use lattice_grid::columns::columns;
use lattice_grid::control::Control;
use lattice_grid::rails::Rails;
use lattice_grid::start::{Start, pairs_with};
use std::test::Fail;

#[test]
fn which_are_allowed(rt: HostRuntime) -> Result<(), Fail> {
    let rails = Rails::new(5).ok_or("rails")?;
    assert!(rt; rails.allows(Control::Plain(0)));
    assert!(rt; !rails.allows(Control::Bar(0)));
    assert!(rt; rails.allows(Control::Plain(1)));
    assert!(rt; rails.allows(Control::One));
    assert!(rt; !rails.full(2));
    assert!(rt; Rails::new(15).ok_or("rails")?.full(2));
    assert_eq!(rt; Rails::all().bits(), 1_048_575);
    assert_eq!(rt; Rails::new(1_048_576), None);
    Ok(())
}

#[test]
fn pairs_of_allowed_literals(rt: HostRuntime) -> Result<(), Fail> {
    let spec = conjunction().ok_or("a function")?;
    let rails = Rails::new(5).ok_or("rails")?;
    match pairs_with(rt.alloc(), &spec, rails)? {
        Start::Grid(grid) => {
            assert_eq!(rt; grid.shape().rows(), 3);
            assert_eq!(rt; grid.shape().cols(), 1);
            assert_eq!(rt; grid.row(0), [Control::Plain(0)].as_slice());
            assert_eq!(rt; grid.row(1), [Control::Plain(1)].as_slice());
            assert_eq!(rt; grid.row(2), [Control::Plain(0)].as_slice());
            assert!(rt; grid.allowed(2, rails));
            assert!(rt; !grid.allowed(2, Rails::new(1).ok_or("rails")?));
            assert!(rt; !grid.allowed(1, rails));
        }
        Start::Lacking { .. } => assert!(rt; false, "a pair is lacking"),
    }
    Ok(())
}

#[test]
fn a_pair_that_is_not_told_apart(rt: HostRuntime) -> Result<(), Fail> {
    let spec = conjunction().ok_or("a function")?;
    let rails = Rails::new(1).ok_or("rails")?;
    match pairs_with(rt.alloc(), &spec, rails)? {
        Start::Grid(_) => assert!(rt; false, "no pair is lacking"),
        Start::Lacking { on, off } => {
            assert_eq!(rt; on.number(), 3);
            assert_eq!(rt; off.number(), 1);
        }
    }
    Ok(())
}

#[test]
fn columns_of_all_literals(rt: HostRuntime) -> Result<(), Fail> {
    let spec = conjunction().ok_or("a function")?;
    assert!(rt; spec.on().first().is_some());
    assert!(rt; spec.off().first().is_some());
    let rails = Rails::all();
    match pairs_with(rt.alloc(), &spec, rails)? {
        Start::Grid(_) => {
            let grid = columns(rt.alloc(), &spec, rails)?;
            assert_eq!(rt; grid.shape().rows(), 2);
            assert_eq!(rt; grid.shape().cols(), 1);
            assert_eq!(rt; grid.row(0), [Control::Plain(0)].as_slice());
            assert_eq!(rt; grid.row(1), [Control::Plain(1)].as_slice());
        }
        Start::Lacking { .. } => assert!(rt; false, "a pair is lacking"),
    }
    Ok(())
}

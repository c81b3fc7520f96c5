use crate::functions::{carry, symmetric};
use cube_core::spec::Spec;
use dual_product::dual::dual_product;
use finder_set::finder::Finder;
use finder_set::fold::Fold;
use finder_set::improve::improve;
use lattice_grid::pairs::pairs;
use path_meaning::marks::Marks;
use repair_finder::repair::RepairFinder;
use std::alloc::Global;
use std::test::*;
use wire_io::fault::NoMemory;

/// How many cells are left of the dual product once it was mended, where the finder was not dropped.
fn mended(alloc: Global, spec: &Spec) -> Result<Option<u32>, NoMemory> {
    let best = dual_product(alloc, spec)?;
    let mut marks = Marks::new(alloc, best.shape().area())?;
    let mut finders: Vec<Box<dyn Finder>> = Vec::new(alloc);
    finders.push(Box::new(alloc, RepairFinder::new(alloc))?)?;
    let improved = improve(alloc, &mut finders, spec, best, &mut marks)?;
    if improved.dropped.is_empty() {
        Ok(Some(improved.grid.shape().area()))
    } else {
        Ok(None)
    }
}

/// How many cells are left of the pairs lattice once it was folded and mended, where no finder was dropped.
fn area(alloc: Global, spec: &Spec) -> Result<Option<u32>, NoMemory> {
    let best = pairs(alloc, spec)?;
    let mut marks = Marks::new(alloc, best.shape().area())?;
    let mut finders: Vec<Box<dyn Finder>> = Vec::new(alloc);
    finders.push(Box::new(alloc, Fold::new(alloc))?)?;
    finders.push(Box::new(alloc, RepairFinder::new(alloc))?)?;
    let improved = improve(alloc, &mut finders, spec, best, &mut marks)?;
    if improved.dropped.is_empty() {
        Ok(Some(improved.grid.shape().area()))
    } else {
        Ok(None)
    }
}

// The pairs lattice has 16 cells for both, and the dual product nine for the majority.

#[test]
fn the_exclusive_or_of_three_inputs(rt: HostRuntime) -> Result<(), Fail> {
    let spec = symmetric(3, 0b1010).ok_or("a function")?;
    let cells = area(rt.alloc(), &spec)?.ok_or("a finder")?;
    assert!(rt; cells < 16, "{cells}");
    Ok(())
}

#[test]
fn a_majority_of_three(rt: HostRuntime) -> Result<(), Fail> {
    let spec = symmetric(3, 0b1100).ok_or("a function")?;
    let cells = area(rt.alloc(), &spec)?.ok_or("a finder")?;
    assert!(rt; cells < 9, "{cells}");
    Ok(())
}

// The dual product has 15 cells for the carry, 64 for the exclusive or of four inputs and 100 for three of five.

#[test]
fn the_carry_of_two_bits_and_two(rt: HostRuntime) -> Result<(), Fail> {
    let spec = carry().ok_or("a function")?;
    let cells = mended(rt.alloc(), &spec)?.ok_or("a finder")?;
    assert!(rt; cells <= 6, "{cells}");
    Ok(())
}

#[test]
fn the_exclusive_or_of_four_inputs(rt: HostRuntime) -> Result<(), Fail> {
    let spec = symmetric(4, 0b01010).ok_or("a function")?;
    let cells = mended(rt.alloc(), &spec)?.ok_or("a finder")?;
    assert!(rt; cells <= 20, "{cells}");
    Ok(())
}

#[test]
fn three_of_five(rt: HostRuntime) -> Result<(), Fail> {
    let spec = symmetric(5, 0b111000).ok_or("a function")?;
    let cells = mended(rt.alloc(), &spec)?.ok_or("a finder")?;
    assert!(rt; cells <= 20, "{cells}");
    Ok(())
}

#[test]
fn it_may_be_asked_once_each_time(rt: HostRuntime) -> Result<(), Fail> {
    let spec = symmetric(2, 0b010).ok_or("a function")?;
    let best = pairs(rt.alloc(), &spec)?;
    let mut finder = RepairFinder::new(rt.alloc());
    assert_eq!(rt; finder.left(), 0);
    finder.begin(&spec, &best)?;
    assert_eq!(rt; finder.left(), 1);
    assert!(rt; finder.propose()?.is_none());
    assert_eq!(rt; finder.left(), 0);
    Ok(())
}

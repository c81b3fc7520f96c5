use crate::functions::{carry, symmetric};
use cube_core::spec::Spec;
use dual_product::dual::dual_product;
use finder_set::finder::Finder;
use finder_set::improve::{Improved, improve};
use parts_finder::parts::PartsFinder;
use path_meaning::marks::Marks;
use std::alloc::Global;
use std::test::*;
use wire_io::fault::NoMemory;

/// What the finder alone makes of the dual product.
fn improved(alloc: Global, spec: &Spec) -> Result<Improved, NoMemory> {
    let best = dual_product(alloc, spec)?;
    let mut marks = Marks::new(alloc, best.shape().area())?;
    let mut finders: Vec<Box<dyn Finder>> = Vec::new(alloc);
    finders.push(Box::new(alloc, PartsFinder::new(alloc))?)?;
    improve(alloc, &mut finders, spec, best, &mut marks)
}

/// How many cells are left, where the finder was not dropped.
fn area(alloc: Global, spec: &Spec) -> Result<Option<u32>, NoMemory> {
    let improved = improved(alloc, spec)?;
    if improved.dropped.is_empty() {
        Ok(Some(improved.grid.shape().area()))
    } else {
        Ok(None)
    }
}

// The dual product has 16 cells for the exclusive or of three inputs, and as many as there are choices of three of n inputs
// times those of n - 2 of them for three of n: 100 for five and 300 for six; 15 cells are known to do for five. The four
// finders of the kit come to 45 cells for the exclusive or of four inputs, and to 8,385 for that of eight.

#[test]
fn the_exclusive_or_of_three_inputs(rt: HostRuntime) -> Result<(), Fail> {
    let spec = symmetric(3, 0b1010).ok_or("a function")?;
    let cells = area(rt.alloc(), &spec)?.ok_or("a finder")?;
    assert!(rt; cells < 16, "{cells}");
    Ok(())
}

#[test]
fn the_exclusive_or_of_four_inputs(rt: HostRuntime) -> Result<(), Fail> {
    let spec = symmetric(4, 0b01010).ok_or("a function")?;
    let cells = area(rt.alloc(), &spec)?.ok_or("a finder")?;
    assert!(rt; cells <= 15, "{cells}");
    Ok(())
}

#[test]
fn the_exclusive_or_of_eight_inputs(rt: HostRuntime) -> Result<(), Fail> {
    let spec = symmetric(8, 0b010101010).ok_or("a function")?;
    let cells = area(rt.alloc(), &spec)?.ok_or("a finder")?;
    assert!(rt; cells <= 90, "{cells}");
    Ok(())
}

#[test]
fn three_of_five(rt: HostRuntime) -> Result<(), Fail> {
    let spec = symmetric(5, 0b111000).ok_or("a function")?;
    let cells = area(rt.alloc(), &spec)?.ok_or("a finder")?;
    assert!(rt; cells <= 15, "{cells}");
    Ok(())
}

#[test]
fn the_carry_of_two_bits_and_two(rt: HostRuntime) -> Result<(), Fail> {
    let spec = carry().ok_or("a function")?;
    let cells = area(rt.alloc(), &spec)?.ok_or("a finder")?;
    assert!(rt; cells <= 6, "{cells}");
    Ok(())
}

#[test]
fn three_of_six(rt: HostRuntime) -> Result<(), Fail> {
    let spec = symmetric(6, 0b1111000).ok_or("a function")?;
    let cells = area(rt.alloc(), &spec)?.ok_or("a finder")?;
    assert!(rt; cells < 150, "{cells}");
    Ok(())
}

#[test]
fn it_may_be_asked_once_each_time(rt: HostRuntime) -> Result<(), Fail> {
    let spec = symmetric(4, 0b01010).ok_or("a function")?;
    let best = dual_product(rt.alloc(), &spec)?;
    let mut finder = PartsFinder::new(rt.alloc());
    assert_eq!(rt; finder.left(), 0);
    for _turn in 0..2u8 {
        finder.begin(&spec, &best)?;
        assert_eq!(rt; finder.left(), 1);
        let proposal = finder.propose()?.ok_or("a proposal")?;
        assert!(rt; proposal.shape().area() < best.shape().area());
        assert_eq!(rt; finder.left(), 0);
    }
    Ok(())
}

#[test]
fn nothing_is_smaller_than_two_cells(rt: HostRuntime) -> Result<(), Fail> {
    let spec = symmetric(2, 0b100).ok_or("a function")?;
    let best = dual_product(rt.alloc(), &spec)?;
    assert_eq!(rt; best.shape().area(), 2);
    let mut finder = PartsFinder::new(rt.alloc());
    finder.begin(&spec, &best)?;
    assert_eq!(rt; finder.left(), 1);
    assert!(rt; finder.propose()?.is_none());
    Ok(())
}

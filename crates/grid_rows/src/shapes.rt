//! Which shapes fit inside which, and what a list of shapes covers.
use lattice_grid::shape::Shape;
use shape_list::fitting::fits;
use shape_list::refuted::{Refuted, covered_below};
use shape_list::stair::stair;
use std::test::Fail;

#[test]
fn largest_shapes_of_an_area(rt: HostRuntime) -> Result<(), Fail> {
    let shapes = stair(rt.alloc(), 8)?;
    let expected = [
        Shape::new(1, 8).ok_or("a shape")?,
        Shape::new(2, 4).ok_or("a shape")?,
        Shape::new(4, 2).ok_or("a shape")?,
        Shape::new(8, 1).ok_or("a shape")?,
    ];
    assert_eq!(rt; shapes.as_slice(), expected.as_slice());
    Ok(())
}

#[test]
fn shapes_inside_refuted_ones(rt: HostRuntime) -> Result<(), Fail> {
    let wide = Shape::new(2, 4).ok_or("a shape")?;
    let high = Shape::new(3, 2).ok_or("a shape")?;
    let small = Shape::new(2, 2).ok_or("a shape")?;
    assert!(rt; fits(small, wide));
    assert!(rt; !fits(high, wide));
    let mut refuted = Refuted::new(rt.alloc());
    assert!(rt; !refuted.holds(small));
    assert!(rt; covered_below(&refuted, 1));
    assert!(rt; !covered_below(&refuted, 2));
    refuted.add(wide)?;
    assert!(rt; refuted.holds(small));
    assert!(rt; !refuted.holds(high));
    assert!(rt; covered_below(&refuted, 3));
    assert!(rt; !covered_below(&refuted, 4));
    refuted.add(Shape::new(3, 1).ok_or("a shape")?)?;
    // 4x1 is not covered, and all smaller shapes are.
    assert!(rt; covered_below(&refuted, 4));
    assert!(rt; !covered_below(&refuted, 5));
    Ok(())
}

//! Functions of two inputs, and rows of controls.
use cube_core::assign::Assign;
use cube_core::spec::Spec;
use cube_core::table::Table;
use lattice_grid::control::Control;
use lattice_grid::grid::Grid;
use lattice_grid::shape::Shape;

/// A row of these controls.
pub fn row_of(controls: Vec<Control>) -> Option<Grid> {
    if !controls.iter().all(|control| control.names_below(10)) {
        return None;
    }
    let cols = u32::try_from(controls.len()).ok()?;
    Grid::new(Shape::new(1, cols)?, controls)
}

/// 1 where the inputs differ.
pub fn exclusive_or() -> Option<Spec> {
    let mut on = Table::empty();
    on.add(Assign::new(1)?);
    on.add(Assign::new(2)?);
    let off = on.complement(2);
    Spec::new(2, on, off)
}

/// 1 where both inputs are.
pub fn conjunction() -> Option<Spec> {
    let mut on = Table::empty();
    on.add(Assign::new(3)?);
    let off = on.complement(2);
    Spec::new(2, on, off)
}

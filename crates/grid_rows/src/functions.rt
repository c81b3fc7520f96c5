//! Functions of two inputs.
use cube_core::assign::Assign;
use cube_core::spec::Spec;
use cube_core::table::Table;

/// 1 where exactly one input is.
pub fn exclusive_or() -> Option<Spec> {
    let mut on = Table::empty();
    on.add(Assign::new(1)?);
    on.add(Assign::new(2)?);
    let mut off = Table::empty();
    off.add(Assign::new(0)?);
    off.add(Assign::new(3)?);
    Spec::new(2, on, off)
}

/// 1 where both inputs are.
pub fn conjunction() -> Option<Spec> {
    let mut on = Table::empty();
    on.add(Assign::new(3)?);
    let off = on.complement(2);
    Spec::new(2, on, off)
}

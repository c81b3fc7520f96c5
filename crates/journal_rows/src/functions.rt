//! Functions of a few inputs.
use cube_core::assign::Assign;
use cube_core::spec::Spec;
use cube_core::table::Table;

/// The function of so many inputs that is 1 at these assignments.
pub fn function(inputs: u8, ons: &[u16]) -> Option<Spec> {
    let mut on = Table::empty();
    for number in ons {
        on.add(Assign::new(*number)?);
    }
    if inputs < 1 || inputs > 10 {
        return None;
    }
    let off = Table::full(inputs).minus(&on);
    Spec::new(inputs, on, off)
}

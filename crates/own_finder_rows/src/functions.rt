//! Functions of the number of ones, and a carry.
ghost use Rattle.std.specs.Prelude.{◌≤◌};

use cube_core::assign::{ASSIGNMENTS, Assign};
use cube_core::spec::Spec;
use cube_core::table::Table;

/// 1 where the number of ones among so many inputs is one of these, each a bit of a number.
pub fn symmetric(inputs: u8, counts: u32) -> Option<Spec>
    requires { inputs ≤ 10 }
{
    let mut on = Table::empty();
    for number in 0..ASSIGNMENTS {
        if number < 1 << inputs && (counts >> number.count_ones().min(31)) & 1 == 1 {
            on.add(Assign::new(number)?);
        }
    }
    let off = on.complement(inputs);
    Spec::new(inputs, on, off)
}

/// 1 where two numbers of two bits add up to four or more.
pub fn carry() -> Option<Spec> {
    let mut on = Table::empty();
    for number in 0..16u16 {
        if number % 4 + number / 4 >= 4 {
            on.add(Assign::new(number)?);
        }
    }
    let off = on.complement(4);
    Spec::new(4, on, off)
}

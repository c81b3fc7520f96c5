//! The assignments of a set, one after another.
ghost use Rattle.std.specs.Prelude.{◌≡◌, ◌^◌, ◌≤◌, IfOk};
ghost use Rattle.cube_core.specs.Rising.{rising};

use cube_core::assign::Assign;
use cube_core::table::Table;
use std::alloc::Global;
use wire_io::fault::NoMemory;

/// The assignments of at most ten inputs that are in a set, rising.
pub fn rising_assignments(alloc: Global, inputs: u8, table: &Table) -> Result<Vec<Assign>, NoMemory>
    requires { inputs ≤ 10 }
    ensures { IfOk result (λ found. found.items ≡ rising (2 ^ inputs) table.now) }
{
    let mut found = Vec::new(alloc);
    for number in 0..1u16 << inputs {
        if let Some(x) = Assign::new(number) {
            if table.has(x) {
                found.push(x)?;
            }
        }
    }
    Ok(found)
}

//! The valuation of a trail.
ghost use Rattle.std.specs.Prelude.{◌≡◌, ℕ, ◌≤◌, ◌+◌, IfOk, length, false};
ghost use Rattle.clause_core.specs.Formula.{value_in};
ghost use Rattle.clause_solver.specs.Trail.{known_by, AreFresh, HasValues};

use crate::trail::Trail;
use clause_core::lit::Lit;
use clause_core::valuation::Valuation;
use std::alloc::Global;
use wire_io::fault::NoMemory;

/// The valuation that makes the trail's literals true, and variables without value false.
pub fn valuation(alloc: Global, trail: &Trail) -> Result<Valuation, NoMemory>
    ensures vars { IfOk result (λ values. length values ≡ trail.now.vars) }
    ensures values { IfOk result (λ values. HasValues trail.now.vars (known_by trail.now.values) values) }
    ensures fresh { AreFresh trail.now.values }
{
    let vars = trail.vars();
    let mut values = Vec::with_capacity(alloc, vars as usize)?;
    for before in 0..vars {
        values.push(trail.has(Lit::new(before + 1, false)))?;
    }
    Ok(Valuation::new(values))
}

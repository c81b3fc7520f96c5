//! The lattice with one column for each on assignment.
ghost use Rattle.std.specs.Prelude.{◌≡◌, ◌≢◌, ◌+◌, ◌*◌, ◌%◌, ◌/◌, ◌<◌, ◌≤◌, ◌==◌, ℕ, IfOk, length, slice_index, if◌then◌else◌};
ghost use Rattle.std.specs.FinSet as set;
ghost use Rattle.lattice_grid.specs.declared.control.Control.TheVariants.{Zero};
ghost use Rattle.lattice_grid.specs.Columns.{literal_or_one, IsColumns, IsNotLacking};
ghost use Rattle.lattice_grid.specs.Control.{NamesBelow};
ghost use Rattle.lattice_grid.specs.Rails.{IsOverRails};
ghost use Rattle.lattice_grid.specs.Realise.{Realises};

use crate::control::Control;
use crate::drawn::{Picture, drawn};
use crate::grid::Grid;
use crate::rails::Rails;
use crate::rising::rising_assignments;
use crate::shape::{Place, Shape};
use cube_core::assign::Assign;
use cube_core::spec::Spec;
use std::alloc::Global;
use wire_io::fault::NoMemory;

/// The literal of an input that is 1 at an assignment, where it is allowed, and `1` otherwise.
fn literal_or_one(rails: Rails, x: Assign, input: u8) -> Control
    requires { input < 10 }
    ensures same { result ≡ literal_or_one rails x input }
    ensures input { NamesBelow 10 result }
{
    let literal = if x.bit(input) {
        Control::Plain(input)
    } else {
        Control::Bar(input)
    };
    if rails.allows(literal) {
        literal
    } else {
        Control::One
    }
}

/// A column for each of some assignments, with a column of `0` between neighbours.
#[derive(Clone, Copy)]
struct AllColumns<'a> {
    rails: Rails,
    ons: &'a [Assign],
}

impl Picture for AllColumns<'_> {
    ghost control = { λ columns p. if p.col % 2 == 0 then literal_or_one columns.rails (slice_index columns.ons.now (p.col / 2)) p.row else Zero };

    ghost covers = { λ columns p. (p.row < 10) × (p.col + 1 < 2 * length columns.ons.now) };

    fn control(&self, p: Place) -> Control {
        if p.col % 2 == 0 {
            literal_or_one(self.rails, self.ons[(p.col / 2) as usize], p.row as u8)
        } else {
            Control::Zero
        }
    }
}

/// The shape of these columns.
fn columns_shape(inputs: u8, many: usize) -> Shape
    requires inputs { 1 ≤ inputs }
    requires few_inputs { inputs ≤ 10 }
    requires some { 1 ≤ many }
    requires few { many ≤ 1023 }
    ensures rows { result.rows ≡ inputs }
    ensures cols { result.cols + 1 ≡ 2 * many }
{
    Shape::new(u32::from(inputs), 2 * many as u32 - 1).unwrap()
}

/// The lattice with one row for each input and one column for each on assignment, rising, with a column of `0` between
/// neighbours; the cell of an input in the column of an assignment is the input's literal that is 1 there, where it is
/// allowed, and `1` otherwise. It has at most 20,450 cells. There are on and off assignments, and allowed literals tell each
/// on assignment from each off assignment.
pub fn columns(alloc: Global, spec: &Spec, rails: Rails) -> Result<Grid, NoMemory>
    requires some_on { spec.now.on ≢ set.empty }
    requires some_off { spec.now.off ≢ set.empty }
    requires told { IsNotLacking spec.now rails }
    ensures cells { IfOk result (IsColumns spec.now rails) }
    ensures few { IfOk result (λ grid. grid.size.rows * grid.size.cols ≤ 20450) }
    ensures over { IfOk result (IsOverRails spec.now.inputs rails) }
    ensures realises { IfOk result (λ grid. Realises grid spec.now) }
{
    let ons = rising_assignments(alloc, spec.inputs(), spec.on())?;
    let shape = columns_shape(spec.inputs(), ons.len());
    drawn(alloc, &AllColumns { rails, ons: &ons }, shape)
}

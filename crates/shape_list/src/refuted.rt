//! Lists of shapes that were refuted, with all shapes that fit inside them.
ghost use Rattle.std.specs.Prelude.{◌≡◌, ◌+◌, ◌<◌, ◌≤◌, [], ◌∷◌, ◌++◌, ◌↔◌, IsTrue, OnOk, OnErr};
ghost use Rattle.shape_list.specs.Shapes.{IsHeld, IsCoveredBelow};

use crate::fitting::fits;
use crate::stair::step_from;
use lattice_grid::shape::Shape;
use std::alloc::Global;
use std::marker::Model;
use wire_io::fault::NoMemory;

/// A list of shapes.
#[derive(Drop)]
pub struct Refuted {
    shapes: Vec<Shape>,
}

impl Model for Refuted {
    ghost use Rattle.std.specs.Prelude.{List};
    ghost use Rattle.lattice_grid.specs.Rectangle.{Size};

    ghost Value = { List Size };

    ghost view = { λ refuted. refuted.shapes.items };
}

impl Refuted {
    /// The list without a shape.
    pub fn new(alloc: Global) -> Refuted
        ensures { result ≡ [] }
    {
        Refuted {
            shapes: Vec::new(alloc),
        }
    }

    /// Adds a shape at the end.
    pub fn add(&mut self, s: Shape) -> Result<(), NoMemory>
        ensures ok { OnOk result (self.new ≡ self.old ++ s ∷ []) }
        ensures err { OnErr result (self.new ≡ self.old) }
    {
        self.shapes.push(s)?;
        Ok(())
    }

    /// Whether a shape fits inside some shape of the list.
    pub fn holds(&self, s: Shape) -> bool
        ensures { IsTrue result ↔ IsHeld self.now s }
    {
        self.shapes.iter().any(|member| fits(s, *member))
    }
}

/// Whether each shape of smaller area, which is at most 1,048,576, fits inside some shape of the list.
pub fn covered_below(refuted: &Refuted, area: u32) -> bool
    requires { area ≤ 1048576 }
    ensures { IsTrue result ↔ IsCoveredBelow refuted.now area }
{
    let mut rows = 1;
    while rows < area {
        let step = step_from(area - 1, rows);
        if !refuted.holds(step) {
            return false;
        }
        rows = step.rows() + 1;
    }
    true
}

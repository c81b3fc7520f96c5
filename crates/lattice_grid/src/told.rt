//! Lattices with a column for each on assignment and a row for each off assignment.
ghost use Rattle.std.specs.Prelude.{◌≡◌, ℕ, ◌<◌, ◌++◌, length, map, All, IfOk, OnOk};
ghost use Rattle.std.specs.List.{flat_map};
ghost use Rattle.lattice_grid.specs.declared.control.Control.{Control};
ghost use Rattle.lattice_grid.specs.Control.{NamesBelow};
ghost use Rattle.lattice_grid.specs.Told.{told_cells, told_lattice, AreTold};

use crate::control::Control;
use crate::grid::Grid;
use crate::shape::Shape;
use cube_core::assign::Assign;
use std::alloc::Global;
use wire_io::fault::NoMemory;

/// A choice of a literal that tells an on assignment from an off assignment.
pub(crate) trait Telling {
    ghost literal: { Self → ℕ → ℕ → Control };

    ghost can_tell: { Self → ℕ → ℕ → Type 0 };

    /// The literal for two assignments of which it can tell one from the other.
    fn tell(&self, on: Assign, off: Assign) -> Control
        requires { can_tell self.now on off }
        ensures same { result ≡ literal self.now on off }
        ensures input { NamesBelow 10 result };
}

/// Adds the row of an off assignment.
fn push_row<T: Telling>(
    cells: &mut Vec<Control>,
    telling: &T,
    ons: &[Assign],
    off: Assign,
) -> Result<(), NoMemory>
    requires told { All (λ on. T.can_tell telling.now on off) ons.now }
    requires inputs { All (NamesBelow 10) cells.old.items }
    ensures row { OnOk result (cells.new.items ≡ cells.old.items ++ map (λ on. T.literal telling.now on off) ons.now) }
    ensures inputs { OnOk result (All (NamesBelow 10) cells.new.items) }
{
    for on in ons {
        cells.push(telling.tell(*on, off))?;
    }
    Ok(())
}

/// The rows of all off assignments.
fn rows<T: Telling>(
    alloc: Global,
    telling: &T,
    ons: &[Assign],
    offs: &[Assign],
) -> Result<Vec<Control>, NoMemory>
    requires { All (λ off. All (λ on. T.can_tell telling.now on off) ons.now) offs.now }
    ensures rows { IfOk result (λ cells. cells.items ≡ told_cells (T.literal telling.now) ons.now offs.now) }
    ensures inputs { IfOk result (λ cells. All (NamesBelow 10) cells.items) }
{
    let mut cells = Vec::new(alloc);
    for off in offs {
        push_row(&mut cells, telling, ons, *off)?;
    }
    Ok(cells)
}

/// The lattice of all literals that tell the on assignments from the off assignments.
pub(crate) fn cells_between<T: Telling>(
    alloc: Global,
    telling: &T,
    ons: &[Assign],
    offs: &[Assign],
) -> Result<Grid, NoMemory>
    requires told { AreTold (T.can_tell telling.now) ons.now offs.now }
    requires some_ons { 0 < length ons.now }
    requires some_offs { 0 < length offs.now }
    ensures { IfOk result (λ grid. grid ≡ told_lattice (T.literal telling.now) ons.now offs.now) }
{
    let cells = rows(alloc, telling, ons, offs)?;
    let shape = Shape::new(offs.len() as u32, ons.len() as u32).unwrap();
    Ok(Grid::new(shape, cells).unwrap())
}

//! The lattice that a solution chooses.
ghost use Rattle.std.specs.Prelude.{◌≡◌, ℕ, ◌+◌, ◌*◌, ◌<◌, ◌≤◌, length, All, IfOk};
ghost use Rattle.clause_core.specs.Formula.{value_in, IsSatisfiedBy};
ghost use Rattle.lattice_grid.specs.Rails.{IsOverRails, controls_of};
ghost use Rattle.path_meaning.specs.Defective.{RealisesIn};
ghost use Rattle.reach_encoding.specs.Encoding.{Question, IsQuestion, encoding};
ghost use Rattle.reach_encoding.specs.Solved.{lattice_read};
ghost use Rattle.reach_encoding.specs.Decode.{ChoosesAt, Chooses, chosen_in, chosen_lattice, IsAskedOf};

use clause_core::valuation::Valuation;
use lattice_grid::control::Control;
use lattice_grid::grid::Grid;
use lattice_grid::rails::Rails;
use lattice_grid::shape::Shape;
use std::alloc::Global;
use wire_io::fault::NoMemory;

/// The number of the first of so many controls that is chosen at a cell.
fn first_chosen(controls: u32, cell: u32, v: &Valuation) -> u32
    requires few { controls ≤ 22 }
    requires cell { cell < 1048576 }
    requires wide { cell * controls + controls ≤ length v.now }
    requires some { ChoosesAt controls v.now cell }
    ensures first { result ≡ chosen_in controls v.now cell }
    ensures within { result < controls }
{
    let before = cell * controls;
    for control in 0..controls {
        if v.of(before + control + 1) {
            return control;
        }
    }
    controls
}

/// The first chosen control of each cell, row by row.
fn chosen_cells(
    alloc: Global,
    allowed: &[Control],
    shape: Shape,
    v: &Valuation,
) -> Result<Vec<Control>, NoMemory>
    requires few { length allowed.now ≤ 22 }
    requires chosen { Chooses (length allowed.now) shape v.now }
    ensures { IfOk result (λ cells. cells.items ≡ (chosen_lattice allowed.now shape v.now).cells) }
{
    let mut cells = Vec::new(alloc);
    for cell in 0..shape.area() {
        let number = first_chosen(allowed.len() as u32, cell, v);
        cells.push(allowed[number as usize])?;
    }
    Ok(cells)
}

/// The lattice of the first control that a valuation chooses at each cell, of the controls that may stand. Where the valuation
/// satisfies the formula of a question of these inputs and rails and this size, the lattice answers the question.
pub fn decode(
    alloc: Global,
    inputs: u8,
    rails: Rails,
    shape: Shape,
    v: &Valuation,
) -> Result<Grid, NoMemory>
    requires some { 1 ≤ inputs }
    requires few { inputs ≤ 10 }
    requires chosen { Chooses (length (controls_of inputs rails)) shape v.now }
    ensures cells { IfOk result (λ grid. grid ≡ chosen_lattice (controls_of inputs rails) shape v.now) }
    ensures over { IfOk result (IsOverRails inputs rails) }
    ensures reads { IfOk result (λ grid. (q : Question) → IsAskedOf inputs rails shape q → grid ≡ lattice_read q (value_in v.now)) }
    ensures realises { IfOk result (λ grid. (q : Question) → IsAskedOf inputs rails shape q → IsQuestion q → IsSatisfiedBy v.now (encoding q) → RealisesIn grid q.function q.array) }
{
    let allowed = rails.controls(inputs);
    let cells = chosen_cells(alloc, &allowed, shape, v)?;
    Ok(Grid::new(shape, cells).unwrap())
}

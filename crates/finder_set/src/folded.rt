//! Lattices with two neighbouring columns or rows made one.
ghost use Rattle.std.specs.Prelude.{◌≡◌, ℕ, ◌+◌, ◌^◌, ◌<◌, IfOk};
ghost use Rattle.finder_set.specs.Folded.{folded_control, IsCovered};
ghost use Rattle.finder_set.specs.Folding.{unless_zero, unless_one, cell_of_two, number_in, count_of, next_to, IsOneLess, IsFolded};
ghost use Rattle.lattice_grid.specs.Control.{NamesBelow};
ghost use Rattle.lattice_grid.specs.Lattice.{IsOver};
ghost use Rattle.lattice_grid.specs.Rectangle.{IsSize};

use lattice_grid::control::Control;
use lattice_grid::grid::Grid;
use lattice_grid::shape::{Place, Shape};
use std::alloc::Global;
use wire_io::fault::NoMemory;

/// Which neighbours are made one: a column and the one right of it, or a row and the one below it.
#[derive(Clone, Copy)]
pub(crate) enum Neighbours {
    Columns,
    Rows,
}

/// The left control unless it is `0`, and then the right one.
fn unless_zero(left: Control, right: Control) -> Control
    ensures { result ≡ unless_zero left right }
{
    match left {
        Control::Zero => right,
        Control::One => Control::One,
        Control::Plain(input) => Control::Plain(input),
        Control::Bar(input) => Control::Bar(input),
    }
}

/// The upper control unless it is `1`, and then the lower one.
fn unless_one(upper: Control, lower: Control) -> Control
    ensures { result ≡ unless_one upper lower }
{
    match upper {
        Control::Zero => Control::Zero,
        Control::One => lower,
        Control::Plain(input) => Control::Plain(input),
        Control::Bar(input) => Control::Bar(input),
    }
}

/// The control that is taken of two neighbours.
fn cell_of_two(lines: Neighbours, first: Control, second: Control) -> Control
    ensures { result ≡ cell_of_two lines first second }
{
    match lines {
        Neighbours::Columns => unless_zero(first, second),
        Neighbours::Rows => unless_one(first, second),
    }
}

/// The number of a place's column or row.
fn number_in(lines: Neighbours, p: Place) -> u32
    ensures { result ≡ number_in lines p }
{
    match lines {
        Neighbours::Columns => p.col,
        Neighbours::Rows => p.row,
    }
}

/// The place right of a place or below it.
fn next_to(lines: Neighbours, p: Place) -> Place
    requires { number_in lines p + 1 < 2 ^ 32 }
    ensures { result ≡ next_to lines p }
{
    match lines {
        Neighbours::Columns => Place {
            row: p.row,
            col: p.col + 1,
        },
        Neighbours::Rows => Place {
            row: p.row + 1,
            col: p.col,
        },
    }
}

/// The control at a place of the lattice after the folding.
fn cell(lines: Neighbours, grid: &Grid, number: u32, p: Place) -> Control
    requires { IsCovered lines grid.now.size p }
    ensures same { result ≡ folded_control lines number grid.now p }
    ensures input { NamesBelow 10 result }
{
    let next = next_to(lines, p);
    if number_in(lines, p) < number {
        grid.at(p)
    } else if number_in(lines, p) > number {
        grid.at(next)
    } else {
        cell_of_two(lines, grid.at(p), grid.at(next))
    }
}

/// The shape with one column or row less.
fn shorter(lines: Neighbours, shape: Shape) -> Shape
    requires { 1 < count_of lines shape }
    ensures less { IsOneLess lines shape result }
    ensures size { IsSize shape }
{
    match lines {
        Neighbours::Columns => Shape::new(shape.rows(), shape.cols() - 1).unwrap(),
        Neighbours::Rows => Shape::new(shape.rows() - 1, shape.cols()).unwrap(),
    }
}

/// The lattice with the column or row with this number and the next one made one.
pub(crate) fn folded(
    alloc: Global,
    lines: Neighbours,
    grid: &Grid,
    number: u32,
) -> Result<Grid, NoMemory>
    requires { number + 1 < count_of lines grid.now.size }
    ensures folded { IfOk result (IsFolded lines number grid.now) }
    ensures over { IfOk result (λ less. (n : ℕ) → IsOver n grid.now → IsOver n less) }
{
    let shape = shorter(lines, grid.shape());
    let mut cells = Vec::new(alloc);
    for index in 0..shape.area() {
        cells.push(cell(lines, grid, number, shape.place(index)))?;
    }
    Ok(Grid::new(shape, cells).unwrap())
}

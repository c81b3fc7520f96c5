//! Lattices of a function from those of its parts.
ghost use Rattle.lattice_grid.specs.Control.{NamesBelow};

use crate::anneal::INPUTS;
use crate::bits::Bits;
use crate::choice::{Choice, cheapest_of};
use crate::classes::{Bench, Class, Form, Halves};
use crate::front::Front;
use crate::memo::Memo;
use crate::part::{Part, all_of};
use crate::shrunk::shrunk;
use crate::tester::Tester;
use dual_product::dual::dual_product;
use lattice_grid::control::Control;
use lattice_grid::pairs::single_cell;
use std::alloc::Global;
use wire_io::fault::NoMemory;

/// A function with a lattice of at most so many cells is not parted.
const SMALL: u32 = 4;

/// In how many ways a function is parted at the top, and below it.
const WAYS: [usize; 2] = [4, 2];

/// How many changes of cells are tried for a lattice at the top, and below it.
const STEPS: [u32; 2] = [20_000, 1000];

/// How many times the cells of a lattice are drawn at random at the top, and below it.
const TRIES: [u32; 2] = [8, 4];

/// The fewest inputs of a function for which cells are drawn at random.
const DRAWN: u8 = 4;

/// How deep parts are parted again.
pub(crate) const DEPTH: u8 = 10;

/// Two parts of a function: one of the chosen inputs, and one of the others.
#[derive(Clone, Copy)]
struct Term {
    outer: Part,
    inner: Part,
}

/// A function of the inputs of a mask with the sets of a form.
fn turned_part(form: Form, mask: u16, halves: &Halves) -> Part {
    let turned = form.turned(halves);
    Part {
        inputs: mask.count_ones() as u8,
        on: turned.on,
        off: turned.off,
    }
}

/// The parts of a class.
fn term_of(bench: &Bench, part: &Part, choice: Choice, class: &Class) -> Term {
    let outer = Halves {
        on: Bits::of_word(class.members),
        off: Bits::of_word(bench.barred(choice.form, class)),
    };
    Term {
        outer: turned_part(choice.form, choice.chosen, &outer),
        inner: turned_part(choice.form, choice.rest(part), &class.halves),
    }
}

/// The parts of a choice.
fn terms(alloc: Global, part: &Part, choice: Choice) -> Result<Vec<Term>, NoMemory> {
    let mut bench = Bench::new(alloc);
    bench.part(part, choice.chosen)?;
    bench.sort(choice.form)?;
    let mut terms = Vec::new(alloc);
    for class in &bench.classes {
        if class.is_needed() {
            terms.push(term_of(&bench, part, choice, class))?;
        }
    }
    Ok(terms)
}

/// The dual product, folded.
fn of_dual(tester: &mut Tester, part: &Part) -> Result<Front, NoMemory> {
    let mut front = Front::new(tester.alloc());
    if let Some(spec) = part.spec() {
        let grid = dual_product(tester.alloc(), &spec)?;
        front.insert(shrunk(tester, part, grid)?)?;
    }
    Ok(front)
}

/// Adds the lattices of another front after folding.
fn add_shrunk(
    tester: &mut Tester,
    part: &Part,
    front: &mut Front,
    other: Front,
) -> Result<(), NoMemory> {
    let mut other = other;
    for _lattice in 0..other.len() {
        if let Some(grid) = other.pop() {
            front.insert(shrunk(tester, part, grid)?)?;
        }
    }
    Ok(())
}

/// The lattice of one cell.
fn of_control(alloc: Global, control: Control) -> Result<Front, NoMemory>
    requires { NamesBelow 10 control }
{
    let mut front = Front::new(alloc);
    front.insert(single_cell(alloc, control)?)?;
    Ok(front)
}

/// In how many ways a function is parted whose parts are parted so deep.
fn ways(tester: &Tester, depth: u8) -> usize {
    if tester.is_tired() {
        1
    } else if depth == DEPTH - 1 {
        WAYS[0]
    } else {
        WAYS[1]
    }
}

/// How many times the cells of a lattice are drawn at random for a function of so many inputs whose parts are parted so deep.
fn tries(inputs: u8, depth: u8) -> u32 {
    if inputs < DRAWN {
        0
    } else if depth == DEPTH {
        TRIES[0]
    } else {
        TRIES[1]
    }
}

/// Lattices of one term.
#[cycle(solving)]
fn of_term(
    tester: &mut Tester,
    memo: &mut Memo,
    part: &Part,
    choice: Choice,
    term: &Term,
    depth: u8,
) -> Result<Front, NoMemory> {
    let outer = solve(tester, memo, &term.outer, depth)?.renamed(tester.alloc(), choice.chosen)?;
    let inner = solve(tester, memo, &term.inner, depth)?.renamed(
        tester.alloc(),
        choice.rest(part),
    )?;
    Front::joined(tester, part, choice.form.other(), &outer, &inner)
}

/// Lattices of all terms put together.
#[cycle(solving)]
fn of_terms(
    tester: &mut Tester,
    memo: &mut Memo,
    part: &Part,
    choice: Choice,
    depth: u8,
) -> Result<Front, NoMemory> {
    let mut all: Option<Front> = None;
    for term in &terms(tester.alloc(), part, choice)? {
        let front = of_term(tester, memo, part, choice, term, depth)?;
        all = match all {
            None => Some(front),
            Some(before) => Some(Front::joined(tester, part, choice.form, &before, &front)?),
        };
    }
    Ok(all.unwrap_or(Front::new(tester.alloc())))
}

/// Adds the lattices of each of the cheapest ways to part a function.
#[cycle(solving)]
fn add_parted(
    tester: &mut Tester,
    memo: &mut Memo,
    part: &Part,
    front: &mut Front,
    depth: u8,
) -> Result<(), NoMemory> {
    let most = ways(tester, depth);
    for choice in &cheapest_of(tester, part, most)? {
        let joined = of_terms(tester, memo, part, *choice, depth)?;
        add_shrunk(tester, part, front, joined)?;
    }
    Ok(())
}

/// Lattices of a function that needs all of its inputs, whose parts are parted so deep.
#[cycle(solving)]
fn of_needed(
    tester: &mut Tester,
    memo: &mut Memo,
    part: &Part,
    depth: u8,
) -> Result<Front, NoMemory> {
    if let Some(front) = memo.find(tester.alloc(), part)? {
        return Ok(front);
    }
    let mut front = of_dual(tester, part)?;
    if depth > 0 && part.inputs >= 3 && front.least() > SMALL {
        add_parted(tester, memo, part, &mut front, depth - 1)?;
    }
    if part.inputs <= INPUTS && front.least() > SMALL {
        front.anneal(tester, part, STEPS[1])?;
        front.draw(tester, part, tries(part.inputs, depth))?;
        if depth == DEPTH {
            front.anneal(tester, part, STEPS[0])?;
        }
    }
    memo.keep(tester.alloc(), part, &front)?;
    Ok(front)
}

/// Lattices of a function, whose parts are parted so deep.
#[cycle(solving)]
pub(crate) fn solve(
    tester: &mut Tester,
    memo: &mut Memo,
    part: &Part,
    depth: u8,
) -> Result<Front, NoMemory> {
    if let Some(control) = part.control() {
        return of_control(tester.alloc(), control);
    }
    let kept = part.reduced();
    let front = of_needed(tester, memo, &kept.part, depth)?;
    front.renamed(tester.alloc(), kept.mask)
}

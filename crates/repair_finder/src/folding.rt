//! Lattices folded.
use crate::aim::Aim;
use crate::lines::{Cells, Lines, Merger, RULES};
use crate::probe::Probe;
use std::alloc::Global;
use wire_io::fault::NoMemory;

/// How often the lines of a lattice are gone through.
const ROUNDS: u32 = 8;

/// The cells with a line and the next one made one by the first rule by which they are still right.
fn with_one_line_less(
    alloc: Global,
    aim: &Aim,
    probe: &mut Probe,
    cells: &Cells,
    lines: Lines,
    number: u32,
) -> Result<Option<Cells>, NoMemory> {
    for rule in RULES {
        let merger = Merger {
            lines,
            rule,
            number,
        };
        let less = cells.merged(alloc, merger)?;
        if !less.controls.is_empty() && probe.wrong(aim, &less, 0)? == 0 {
            return Ok(Some(less));
        }
    }
    Ok(None)
}

/// The cells with lines made one wherever that can be done, from the first one.
fn gone_through(
    alloc: Global,
    aim: &Aim,
    probe: &mut Probe,
    cells: Cells,
    lines: Lines,
) -> Result<Cells, NoMemory> {
    let mut least = cells;
    let mut number = 0u32;
    for _line in 0..least.count(lines) {
        match with_one_line_less(alloc, aim, probe, &least, lines, number)? {
            Some(less) => least = less,
            None => number = number.saturating_add(1),
        }
    }
    Ok(least)
}

/// The cells with lines made one until nothing shrinks.
pub(crate) fn folded(
    alloc: Global,
    aim: &Aim,
    probe: &mut Probe,
    cells: Cells,
) -> Result<Cells, NoMemory> {
    let mut least = cells;
    for _round in 0..ROUNDS {
        let size = least.controls.len();
        least = gone_through(alloc, aim, probe, least, Lines::Columns)?;
        least = gone_through(alloc, aim, probe, least, Lines::Rows)?;
        if least.controls.len() == size {
            return Ok(least);
        }
    }
    Ok(least)
}

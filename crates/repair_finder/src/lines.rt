//! Cells with a line less.
use lattice_grid::control::Control;
use std::alloc::Global;
use wire_io::fault::NoMemory;

/// More cells than any lattice has.
const MOST_CELLS: usize = 2_000_000;

/// Columns or rows.
#[derive(Clone, Copy)]
pub(crate) enum Lines {
    Columns,
    Rows,
}

/// What becomes of two neighbouring lines.
#[derive(Clone, Copy)]
pub(crate) enum Rule {
    /// The first one is dropped.
    Dropped,
    /// The first one's control unless it is `0`, and then the other one's.
    FirstUnlessZero,
    /// The other one's control unless it is `0`, and then the first one's.
    OtherUnlessZero,
    /// The first one's control unless it is `1`, and then the other one's.
    FirstUnlessOne,
    /// The other one's control unless it is `1`, and then the first one's.
    OtherUnlessOne,
}

/// The rules in the order in which they are tried.
pub(crate) const RULES: [Rule; 5] = [
    Rule::Dropped,
    Rule::FirstUnlessZero,
    Rule::OtherUnlessZero,
    Rule::FirstUnlessOne,
    Rule::OtherUnlessOne,
];

/// Cells row by row, in rows of so many.
#[derive(Drop)]
pub(crate) struct Cells {
    pub(crate) cols: u32,
    pub(crate) controls: Vec<Control>,
}

/// A line that becomes one with the next: of which lines, by which rule, and its number.
#[derive(Clone, Copy)]
pub(crate) struct Merger {
    pub(crate) lines: Lines,
    pub(crate) rule: Rule,
    pub(crate) number: u32,
}

/// The first control unless it is the one that gives way, and then the other one.
fn unless(first: Control, other: Control, gives_way: Control) -> Control {
    if first == gives_way { other } else { first }
}

impl Rule {
    /// The control of the one line that two neighbouring ones become.
    fn control(self, first: Control, other: Control) -> Control {
        match self {
            Rule::Dropped => other,
            Rule::FirstUnlessZero => unless(first, other, Control::Zero),
            Rule::OtherUnlessZero => unless(other, first, Control::Zero),
            Rule::FirstUnlessOne => unless(first, other, Control::One),
            Rule::OtherUnlessOne => unless(other, first, Control::One),
        }
    }
}

impl Cells {
    /// How many rows there are.
    pub(crate) fn rows(&self) -> u32 {
        self.controls.len().min(MOST_CELLS) as u32 / self.cols.max(1)
    }

    /// How many of these lines there are.
    pub(crate) fn count(&self, lines: Lines) -> u32 {
        match lines {
            Lines::Columns => self.cols,
            Lines::Rows => self.rows(),
        }
    }

    /// A copy.
    pub(crate) fn copy(&self, alloc: Global) -> Result<Cells, NoMemory> {
        Ok(Cells {
            cols: self.cols,
            controls: Vec::from_slice(alloc, &self.controls)?,
        })
    }

    /// The control at a place, and `0` where there is none.
    fn at(&self, row: u32, col: u32) -> Control {
        let index = u64::from(row)
            .saturating_mul(u64::from(self.cols))
            .saturating_add(u64::from(col));
        match self.controls.get(index as usize) {
            Some(control) => *control,
            None => Control::Zero,
        }
    }

    /// The control at a place once a line and the next one are one.
    fn merged_at(&self, merger: Merger, row: u32, col: u32) -> Control {
        let here = self.at(row, col);
        let (number, next) = match merger.lines {
            Lines::Columns => (col, self.at(row, col.saturating_add(1))),
            Lines::Rows => (row, self.at(row.saturating_add(1), col)),
        };
        if number < merger.number {
            here
        } else if number > merger.number {
            next
        } else {
            merger.rule.control(here, next)
        }
    }

    /// The cells once a line and the next one are one; the last line has no next one, and is dropped by the first rule.
    pub(crate) fn merged(&self, alloc: Global, merger: Merger) -> Result<Cells, NoMemory> {
        let (rows, cols) = match merger.lines {
            Lines::Columns => (self.rows(), self.cols.saturating_sub(1)),
            Lines::Rows => (self.rows().saturating_sub(1), self.cols),
        };
        let mut controls = Vec::new(alloc);
        for row in 0..rows {
            self.add_merged_row(merger, row, cols, &mut controls)?;
        }
        Ok(Cells { cols, controls })
    }

    /// Adds the cells of a row once a line and the next one are one.
    fn add_merged_row(
        &self,
        merger: Merger,
        row: u32,
        cols: u32,
        controls: &mut Vec<Control>,
    ) -> Result<(), NoMemory> {
        for col in 0..cols {
            controls.push(self.merged_at(merger, row, col))?;
        }
        Ok(())
    }
}

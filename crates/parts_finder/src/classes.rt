//! What a function is at each assignment of some of its inputs, and classes of these assignments.
use crate::bits::{Bits, count_of};
use crate::part::{Part, all_of};
use crate::products::{Extent, extent_of};
use std::alloc::Global;
use wire_io::fault::NoMemory;

/// The most classes that are looked at.
const MOST: usize = 13;

/// Which way a function is put together: it is 1 where one of its terms is, or where all of them are.
#[derive(Clone, Copy, Debug, PartialEq, Eq)]
pub(crate) enum Form {
    Or,
    And,
}

/// The two sets of a function, of which one is to be covered.
#[derive(Clone, Copy)]
pub(crate) struct Halves {
    pub(crate) on: Bits,
    pub(crate) off: Bits,
}

/// Assignments of the chosen inputs, as the bits of a word, and the sets of the other inputs that fit all of them.
#[derive(Clone, Copy)]
pub(crate) struct Class {
    pub(crate) members: u64,
    pub(crate) halves: Halves,
}

/// Room for what a function is at each assignment of some inputs, and for classes of these.
#[derive(Drop)]
pub(crate) struct Bench {
    pub(crate) halves: Vec<Halves>,
    pub(crate) classes: Vec<Class>,
}

/// Whether a table has classes, or more than are looked at.
#[derive(Clone, Copy, Debug, PartialEq, Eq)]
pub(crate) enum Sorted {
    Few,
    TooMany,
}

impl Form {
    /// The other form.
    pub(crate) fn other(self) -> Form {
        match self {
            Form::Or => Form::And,
            Form::And => Form::Or,
        }
    }

    /// The sets with the one that is to be covered first.
    pub(crate) fn turned(self, halves: &Halves) -> Halves {
        match self {
            Form::Or => *halves,
            Form::And => Halves {
                on: halves.off,
                off: halves.on,
            },
        }
    }
}

impl Class {
    /// Whether an assignment with these sets may be one of the class.
    fn fits(&self, halves: &Halves) -> bool {
        self.halves.on.is_apart_from(&halves.off) && self.halves.off.is_apart_from(&halves.on)
    }

    /// Makes an assignment one of the class.
    fn join(&mut self, member: u64, halves: &Halves) {
        self.members |= member;
        self.halves.on.add_all(&halves.on);
        self.halves.off.add_all(&halves.off);
    }

    /// Whether a term is made for the class.
    pub(crate) fn is_needed(&self) -> bool {
        !self.halves.on.is_empty()
    }
}

impl Bench {
    /// Room for nothing yet.
    pub(crate) fn new(alloc: Global) -> Bench {
        Bench {
            halves: Vec::new(alloc),
            classes: Vec::new(alloc),
        }
    }

    /// What the function is at each assignment of the chosen inputs.
    pub(crate) fn part(&mut self, part: &Part, chosen: u16) -> Result<(), NoMemory> {
        self.halves.clear();
        let rest = all_of(part.inputs) & !chosen;
        let mut fixed = 0u16;
        for _place in 0..count_of(chosen) {
            self.halves.push(Halves {
                on: part.on.cofactor(rest, fixed),
                off: part.off.cofactor(rest, fixed),
            })?;
            fixed = fixed.wrapping_sub(chosen) & chosen;
        }
        Ok(())
    }

    /// Puts the assignments into classes, each into the first one that it fits.
    pub(crate) fn sort(&mut self, form: Form) -> Result<Sorted, NoMemory> {
        self.classes.clear();
        let mut member = 1u64;
        for halves in &self.halves {
            if self.classes.len() > MOST {
                return Ok(Sorted::TooMany);
            }
            put(&mut self.classes, member, &form.turned(halves))?;
            member = member.wrapping_shl(1);
        }
        Ok(Sorted::Few)
    }

    /// The assignments of the chosen inputs that may not be in a class.
    pub(crate) fn barred(&self, form: Form, class: &Class) -> u64 {
        let mut barred = 0;
        let mut member = 1u64;
        for halves in &self.halves {
            if !form.turned(halves).off.is_within(&class.halves.off) {
                barred |= member;
            }
            member = member.wrapping_shl(1);
        }
        barred
    }

    /// The price of the lattice that the classes would give: none where no class needs a term, or where the price is not
    /// below the bound.
    pub(crate) fn price(&self, form: Form, inputs: [u8; 2], bound: u32) -> Option<u32> {
        let mut total = Total {
            rows: 0,
            cols: 0,
            terms: 0,
        };
        for class in &self.classes {
            if class.is_needed() {
                total.add(self.outer(form, class, inputs[0]), inner(class, inputs[1]));
            }
            if total.price() >= bound {
                return None;
            }
        }
        if total.terms == 0 {
            None
        } else {
            Some(total.price())
        }
    }

    /// The extent of the part of the chosen inputs.
    fn outer(&self, form: Form, class: &Class, inputs: u8) -> Extent {
        extent_of(
            inputs,
            [class.members, 0, 0, 0],
            [self.barred(form, class), 0, 0, 0],
        )
    }
}

/// The extent of the part of the other inputs.
fn inner(class: &Class, inputs: u8) -> Extent {
    extent_of(inputs, class.halves.on.front(), class.halves.off.front())
}

/// Puts an assignment into the first class that it fits, or into a new one.
fn put(classes: &mut Vec<Class>, member: u64, halves: &Halves) -> Result<(), NoMemory> {
    for class in classes.iter_mut() {
        if class.fits(halves) {
            class.join(member, halves);
            return Ok(());
        }
    }
    classes.push(Class {
        members: member,
        halves: *halves,
    })?;
    Ok(())
}

/// The extent of terms side by side.
#[derive(Clone, Copy)]
struct Total {
    rows: u32,
    cols: u32,
    terms: u32,
}

impl Total {
    /// Adds a term of two parts, one under the other.
    fn add(&mut self, first: Extent, other: Extent) {
        self.rows = self.rows.max(first.rows.saturating_add(other.rows));
        self.cols = self.cols.saturating_add(first.cols.max(other.cols));
        self.terms = self.terms.saturating_add(1);
    }

    /// The number of cells.
    fn price(&self) -> u32 {
        self.cols
            .saturating_add(self.terms.saturating_sub(1))
            .saturating_mul(self.rows)
    }
}

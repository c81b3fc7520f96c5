//! Which inputs are parted from the others.
use crate::bits::count_of;
use crate::classes::{Bench, Form, Sorted};
use crate::part::{Part, all_of};
use crate::tester::Tester;
use wire_io::fault::NoMemory;

/// The most inputs that are chosen.
const CHOSEN: u32 = 6;

/// The most inputs that are left.
const LEFT: u32 = 8;

/// The work that one assignment is counted as where a set of inputs is tried.
const WORK: u64 = 10;

/// A form and a set of inputs, as a mask, and what its lattice would cost.
#[derive(Clone, Copy)]
pub(crate) struct Choice {
    pub(crate) form: Form,
    pub(crate) chosen: u16,
    pub(crate) price: u32,
}

/// The cheapest choices so far, of at most so many, the dearest one last.
#[derive(Drop)]
pub(crate) struct Cheapest {
    most: usize,
    choices: Vec<Choice>,
}

/// Whether a set of inputs may be chosen: there are some and not too many, and some and not too many are left.
fn may_be_chosen(inputs: u8, chosen: u16) -> bool {
    let count = chosen.count_ones();
    let left = (all_of(inputs) & !chosen).count_ones();
    count >= 1 && count <= CHOSEN && left >= 1 && left <= LEFT
}

impl Choice {
    /// The inputs that are left, as a mask.
    pub(crate) fn rest(self, part: &Part) -> u16 {
        all_of(part.inputs) & !self.chosen
    }
}

impl Cheapest {
    /// The price at which a choice isn't one of the cheapest.
    fn bound(&self) -> u32 {
        match self.choices.last() {
            Some(choice) if self.choices.len() >= self.most => choice.price,
            _ => u32::MAX,
        }
    }

    /// Adds a choice behind those that are as cheap.
    fn add(&mut self, choice: Choice) -> Result<(), NoMemory> {
        let mut place = 0usize;
        for other in &self.choices {
            if other.price <= choice.price {
                place = place.saturating_add(1);
            }
        }
        if place <= self.choices.len() {
            self.choices.insert(place, choice)?;
        }
        self.choices.truncate(self.most);
        Ok(())
    }

    /// Adds the choice of a form, for which the bench is set up, if it is one of the cheapest.
    fn add_form(
        &mut self,
        bench: &mut Bench,
        form: Form,
        inputs: u8,
        chosen: u16,
    ) -> Result<(), NoMemory> {
        if bench.sort(form)? == Sorted::TooMany {
            return Ok(());
        }
        let count = chosen.count_ones() as u8;
        match bench.price(form, [count, inputs.saturating_sub(count)], self.bound()) {
            Some(price) => self.add(Choice {
                form,
                chosen,
                price,
            }),
            None => Ok(()),
        }
    }
}

/// The cheapest choices, at most so many, from the cheapest one; of those as cheap the first ones.
pub(crate) fn cheapest_of(
    tester: &mut Tester,
    part: &Part,
    most: usize,
) -> Result<Vec<Choice>, NoMemory> {
    let mut bench = Bench::new(tester.alloc());
    let mut cheapest = Cheapest {
        most,
        choices: Vec::new(tester.alloc()),
    };
    for chosen in 1..all_of(part.inputs) {
        if may_be_chosen(part.inputs, chosen) {
            tester.spend(WORK * u64::from(count_of(all_of(part.inputs))));
            bench.part(part, chosen)?;
            cheapest.add_form(&mut bench, Form::Or, part.inputs, chosen)?;
            cheapest.add_form(&mut bench, Form::And, part.inputs, chosen)?;
        }
    }
    Ok(cheapest.choices)
}

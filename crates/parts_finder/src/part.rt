//! Functions of a part's own inputs.
ghost use Rattle.std.specs.Prelude.{◌<◌, IfSome};
ghost use Rattle.lattice_grid.specs.Control.{NamesBelow};

use crate::bits::Bits;
use cube_core::spec::Spec;
use lattice_grid::control::Control;

/// A function of at most ten inputs, by the assignments at which it is 1 and those at which it is 0.
#[derive(Clone, Copy)]
pub(crate) struct Part {
    pub(crate) inputs: u8,
    pub(crate) on: Bits,
    pub(crate) off: Bits,
}

/// A function of some of another one's inputs, those of the mask, in their order.
#[derive(Clone, Copy)]
pub(crate) struct Kept {
    pub(crate) mask: u16,
    pub(crate) part: Part,
}

/// The mask of so many inputs.
pub(crate) fn all_of(inputs: u8) -> u16 {
    (1 << inputs.min(10)) - 1
}

/// The input that stands at a place of a mask, and 0 where there is none.
pub(crate) fn input_at(mask: u16, place: u8) -> u8
    ensures { result < 10 }
{
    let mut before = 0u8;
    for input in 0..10u8 {
        if (mask >> input) & 1 == 1 {
            if before == place {
                return input;
            }
            before = before.saturating_add(1);
        }
    }
    0
}

/// The assignments of so many inputs at which an input has a value.
fn literal(inputs: u8, input: u8, wanted: u16) -> Bits {
    let mut bits = Bits::empty();
    for number in 0..1u16 << inputs.min(10) {
        if (number >> input.min(9)) & 1 == wanted {
            bits.add(number);
        }
    }
    bits
}

impl Part {
    /// The function of a spec.
    pub(crate) fn of_spec(spec: &Spec) -> Part {
        Part {
            inputs: spec.inputs(),
            on: Bits::of_table(spec.on()),
            off: Bits::of_table(spec.off()),
        }
    }

    /// The spec of the function.
    pub(crate) fn spec(&self) -> Option<Spec> {
        Spec::new(self.inputs, self.on.table(), self.off.table())
    }

    /// How many words have the assignments of the inputs.
    pub(crate) fn words(&self) -> usize {
        1 << self.inputs.saturating_sub(6).min(4)
    }

    /// The constant or the literal that realises the function, if one does.
    pub(crate) fn control(&self) -> Option<Control>
        ensures { IfSome result (NamesBelow 10) }
    {
        if self.on.is_empty() {
            return Some(Control::Zero);
        }
        if self.off.is_empty() {
            return Some(Control::One);
        }
        for input in 0..self.inputs.min(10) {
            let zeros = literal(self.inputs, input, 0);
            let ones = literal(self.inputs, input, 1);
            if self.on.is_within(&ones) && self.off.is_within(&zeros) {
                return Some(Control::Plain(input));
            }
            if self.on.is_within(&zeros) && self.off.is_within(&ones) {
                return Some(Control::Bar(input));
            }
        }
        None
    }

    /// The function without an input, whose value may be either; none where it would be both 1 and 0 somewhere.
    fn without(&self, input: u8) -> Option<Part> {
        let one = 1u16 << input.min(9);
        let free = all_of(self.inputs) & !one;
        let mut on = self.on.cofactor(free, 0);
        on.add_all(&self.on.cofactor(free, one));
        let mut off = self.off.cofactor(free, 0);
        off.add_all(&self.off.cofactor(free, one));
        if on.is_apart_from(&off) {
            Some(Part {
                inputs: self.inputs.saturating_sub(1),
                on,
                off,
            })
        } else {
            None
        }
    }

    /// The function without the inputs that it can do without, from the last one.
    pub(crate) fn reduced(&self) -> Kept {
        let mut kept = Kept {
            mask: all_of(self.inputs),
            part: *self,
        };
        for above in 1..=self.inputs.min(10) {
            let input = self.inputs.saturating_sub(above);
            if let Some(part) = kept.part.without(input) {
                kept.mask &= !(1u16 << input.min(9));
                kept.part = part;
            }
        }
        kept
    }
}

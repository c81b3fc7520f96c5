//! Changes of a cell.
ghost use Rattle.std.specs.Prelude.{◌≤◌, ◌<◌};

use crate::aim::Aim;
use crate::sketch::Sketch;
use finder_tools::random::Random;
use lattice_grid::control::Control;

/// The most assignments by which a change may be worse and stay.
const WORSE: u32 = 3;

/// Any control, a constant as often as the literals of an input.
fn any_control(random: &mut Random, inputs: u8) -> Control {
    let input = random.below(u32::from(inputs) + 1) as u8;
    let plain = random.below(2) == 0;
    if input == inputs {
        if plain { Control::One } else { Control::Zero }
    } else if plain {
        Control::Plain(input)
    } else {
        Control::Bar(input)
    }
}

/// A control that has the function's value at an assignment.
fn right_control(random: &mut Random, aim: &Aim, x: u32) -> Control {
    let is_on = aim.is_on(x);
    let input = random.below(u32::from(aim.inputs) + 1) as u8;
    if input == aim.inputs {
        if is_on { Control::One } else { Control::Zero }
    } else if ((x >> input.min(9)) & 1 == 1) == is_on {
        Control::Plain(input)
    } else {
        Control::Bar(input)
    }
}

/// How many halves the chance is multiplied by for each assignment more at which the cells are wrong: more in later steps.
fn halves(step: u32, steps: u32) -> u32 {
    let part = u64::from(step).saturating_mul(6) / u64::from(steps.max(1));
    10 + part.min(5) as u32
}

/// At how many assignments more the cells may be wrong after a change: none nearly always.
fn worse(random: &mut Random, halves: u32) -> u32 {
    let drawn = random.next();
    let mut more = 0u32;
    for many in 1..=WORSE {
        let shift = halves.saturating_mul(many);
        if shift < 32 && drawn & ((1u32 << shift) - 1) == 0 {
            more = many;
        }
    }
    more
}

/// Gives a cell another control where the cells are then wrong at no more assignments than before, and rarely else. Half of
/// the time both are drawn at random; else the change may mend an assignment at which the cells are wrong.
pub(crate) fn change(random: &mut Random, aim: &Aim, sketch: &mut Sketch, step: u32, steps: u32) {
    let more = worse(random, halves(step, steps));
    let most = sketch.many().saturating_add(more);
    if random.below(2) == 0 {
        let cell = sketch.any_cell(random);
        let control = any_control(random, aim.inputs);
        sketch.give(aim, cell, control, most);
    } else {
        let x = sketch.wrong_assignment(random);
        let cell = sketch.useful_cell(random, aim, x);
        let control = right_control(random, aim, x);
        sketch.give(aim, cell, control, most);
    }
}

//! Floods of lattices at 64 assignments at once.
//!
//! The cells of a lattice stand row by row, with a cell that is off behind each row, between a row that is reached and one
//! that is off; each is a word of 64 assignments, where it is on and where a path reaches it.
ghost use Rattle.std.specs.Prelude.{◌≡◌, ◌+◌, ◌<◌, ◌≤◌, length};

/// What a pass over the cells reached.
#[derive(Clone, Copy, Debug, PartialEq, Eq)]
enum Pass {
    More,
    Nothing,
}

/// Reaches a cell from those around it.
fn reach(on: &[u64], reached: &mut [u64], cell: usize, stride: usize) -> Pass
    requires same { length on.now ≡ length reached.old }
    requires before { stride ≤ cell }
    requires some { 1 ≤ stride }
    requires after { cell + stride < length reached.old }
{
    let around = reached[cell - 1]
        | reached[cell + 1]
        | reached[cell - stride]
        | reached[cell + stride];
    let now = on[cell] & (reached[cell] | around);
    if now == reached[cell] {
        Pass::Nothing
    } else {
        reached[cell] = now;
        Pass::More
    }
}

/// Goes through the cells from the first one.
fn pass_down(on: &[u64], reached: &mut [u64], stride: usize) -> Pass
    requires same { length on.now ≡ length reached.old }
    requires some { 1 ≤ stride }
    requires rows { stride ≤ length on.now }
{
    let mut pass = Pass::Nothing;
    for cell in stride..on.len() - stride {
        if reach(on, reached, cell, stride) == Pass::More {
            pass = Pass::More;
        }
    }
    pass
}

/// Goes through the cells from the last one.
fn pass_up(on: &[u64], reached: &mut [u64], stride: usize) -> Pass
    requires same { length on.now ≡ length reached.old }
    requires some { 1 ≤ stride }
    requires rows { stride ≤ length on.now }
{
    let mut pass = Pass::Nothing;
    for back in stride..on.len() - stride {
        if reach(on, reached, on.len() - 1 - back, stride) == Pass::More {
            pass = Pass::More;
        }
    }
    pass
}

/// Goes through the cells until nothing more is reached, and says how often it went through them.
pub fn spread(on: &[u64], reached: &mut [u64], stride: usize) -> usize {
    if on.len() != reached.len() || stride < 1 || on.len() < stride {
        return 0;
    }
    for round in 0..on.len() {
        if pass_down(on, reached, stride) == Pass::Nothing {
            return round + 1;
        }
        if pass_up(on, reached, stride) == Pass::Nothing {
            return round + 1;
        }
    }
    on.len()
}

/// Goes through the cells from the last one until nothing more is reached, and says how often it went through them.
pub fn spread_up(on: &[u64], reached: &mut [u64], stride: usize) -> usize {
    if on.len() != reached.len() || stride < 1 || on.len() < stride {
        return 0;
    }
    for round in 0..on.len() {
        if pass_up(on, reached, stride) == Pass::Nothing {
            return round + 1;
        }
        if pass_down(on, reached, stride) == Pass::Nothing {
            return round + 1;
        }
    }
    on.len()
}

/// Goes through the cells until nothing more is reached, or until one of the last cells but one row is reached at each of
/// these assignments, and says how often it went through them.
pub fn spread_to(on: &[u64], reached: &mut [u64], stride: usize, wanted: u64) -> usize {
    if on.len() != reached.len() || stride < 1 || on.len() < stride {
        return 0;
    }
    for round in 0..on.len() {
        if pass_down(on, reached, stride) == Pass::Nothing
            || wanted & !last_row(reached, stride) == 0
        {
            return round + 1;
        }
        if pass_up(on, reached, stride) == Pass::Nothing {
            return round + 1;
        }
    }
    on.len()
}

/// At which assignments one of the last cells but one row is reached.
pub fn last_row(reached: &[u64], stride: usize) -> u64 {
    let end = reached.len().saturating_sub(stride);
    let start = end.saturating_sub(stride);
    let mut joined = 0;
    for word in &reached[start..end] {
        joined |= *word;
    }
    joined
}

//! How many products a cover has, for functions of at most eight inputs, whose tables are words of bits.
ghost use Rattle.std.specs.Prelude.{◌≤◌};

/// The assignments of fewer than six inputs in a word.
const LOW: [u64; 6] = [0x1, 0x3, 0xF, 0xFF, 0xFFFF, 0xFFFF_FFFF];

/// Half of the assignments of at most six inputs, but for none of one.
const HALVES: [u32; 7] = [0, 1, 2, 4, 8, 16, 32];

/// A table of at most 64 assignments and how many products it was made of.
#[derive(Clone, Copy)]
struct Narrow {
    table: u64,
    products: u32,
}

/// The same of 128 assignments.
#[derive(Clone, Copy)]
struct Pair {
    low: u64,
    high: u64,
    products: u32,
}

/// The same of 256 assignments.
#[derive(Clone, Copy)]
struct Four {
    table: [u64; 4],
    products: u32,
}

/// A cover of at least `need` within `room`, of twice `half` assignments, or of one.
fn narrow_cover(need: u64, room: u64, half: u32) -> Narrow
    requires { half ≤ 32 }
{
    if need == 0 {
        return Narrow {
            table: 0,
            products: 0,
        };
    }
    if half == 0 {
        return Narrow {
            table: 1,
            products: 1,
        };
    }
    let low = (1u64 << half) - 1;
    let (need0, need1) = (need & low, need >> half);
    let (room0, room1) = (room & low, room >> half);
    let zero = narrow_cover(need0 & !room1, room0, half / 2);
    let one = narrow_cover(need1 & !room0, room1, half / 2);
    let rest = (need0 & !zero.table) | (need1 & !one.table);
    let both = narrow_cover(rest, room0 & room1, half / 2);
    Narrow {
        table: zero.table | both.table | ((one.table | both.table) << half),
        products: zero
            .products
            .saturating_add(one.products)
            .saturating_add(both.products),
    }
}

/// A cover of seven inputs.
fn pair_cover(need: [u64; 2], room: [u64; 2]) -> Pair {
    let zero = narrow_cover(need[0] & !room[1], room[0], 32);
    let one = narrow_cover(need[1] & !room[0], room[1], 32);
    let rest = (need[0] & !zero.table) | (need[1] & !one.table);
    let both = narrow_cover(rest, room[0] & room[1], 32);
    Pair {
        low: zero.table | both.table,
        high: one.table | both.table,
        products: zero
            .products
            .saturating_add(one.products)
            .saturating_add(both.products),
    }
}

/// A cover of eight inputs.
fn four_cover(need: [u64; 4], room: [u64; 4]) -> Four {
    let zero = pair_cover([need[0] & !room[2], need[1] & !room[3]], [room[0], room[1]]);
    let one = pair_cover([need[2] & !room[0], need[3] & !room[1]], [room[2], room[3]]);
    let rest = [
        (need[0] & !zero.low) | (need[2] & !one.low),
        (need[1] & !zero.high) | (need[3] & !one.high),
    ];
    let both = pair_cover(rest, [room[0] & room[2], room[1] & room[3]]);
    Four {
        table: [
            zero.low | both.low,
            zero.high | both.high,
            one.low | both.low,
            one.high | both.high,
        ],
        products: zero
            .products
            .saturating_add(one.products)
            .saturating_add(both.products),
    }
}

/// A cover of so many inputs, at most eight.
fn cover(need: [u64; 4], room: [u64; 4], inputs: u8) -> Four {
    match inputs {
        8.. => four_cover(need, room),
        7 => {
            let made = pair_cover([need[0], need[1]], [room[0], room[1]]);
            Four {
                table: [made.low, made.high, 0, 0],
                products: made.products,
            }
        }
        0..=6 => single(narrow_cover(need[0], room[0], HALVES[inputs as usize].min(32))),
    }
}

/// A table of one word.
fn single(made: Narrow) -> Four {
    Four {
        table: [made.table, 0, 0, 0],
        products: made.products,
    }
}

/// How many columns and rows the lattice of a function would have.
#[derive(Clone, Copy)]
pub(crate) struct Extent {
    pub(crate) rows: u32,
    pub(crate) cols: u32,
}

/// The words of all assignments that are not in a table.
fn inverted(table: [u64; 4]) -> [u64; 4] {
    [!table[0], !table[1], !table[2], !table[3]]
}

/// About how many columns and rows the dual product of a function of at most eight inputs has.
pub(crate) fn extent_of(inputs: u8, on: [u64; 4], off: [u64; 4]) -> Extent {
    let ons = cover(on, inverted(off), inputs);
    let rest = masked(inverted(ons.table), inputs);
    let offs = cover(rest, rest, inputs);
    Extent {
        rows: offs.products.max(1),
        cols: ons.products.max(1),
    }
}

/// The words with only the assignments of so many inputs in the first one.
fn masked(table: [u64; 4], inputs: u8) -> [u64; 4] {
    if inputs < 6 {
        [table[0] & LOW[inputs as usize], 0, 0, 0]
    } else {
        table
    }
}

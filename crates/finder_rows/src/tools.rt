use finder_tools::flood::{last_row, spread};
use finder_tools::random::Random;
use finder_tools::words::on_word;
use lattice_grid::control::Control;
use std::test::*;

#[test]
fn words_of_controls(rt: HostRuntime) -> Result<(), Fail> {
    // The word at place 1 has the assignments from 64 to 127, at which x6 is 1 and x7 is 0.
    let rows = [
        (Control::Zero, 0, 0),
        (Control::One, 0, u64::MAX),
        (Control::Plain(0), 0, 0xAAAA_AAAA_AAAA_AAAA),
        (Control::Bar(5), 3, 0x0000_0000_FFFF_FFFF),
        (Control::Plain(6), 0, 0),
        (Control::Plain(6), 1, u64::MAX),
        (Control::Bar(7), 1, u64::MAX),
        (Control::Plain(7), 2, u64::MAX),
    ];
    for (control, place, word) in rows {
        assert_eq!(rt; on_word(control, place), word);
    }
    Ok(())
}

#[test]
fn a_flood_of_exclusive_or(rt: HostRuntime) -> Result<(), Fail> {
    let (x, y) = (on_word(Control::Plain(0), 0), on_word(Control::Plain(1), 0));
    let on = [0, 0, 0, x, y, 0, !y, !x, 0, 0, 0, 0];
    let mut reached = [0u64; 12];
    reached[0] = u64::MAX;
    reached[1] = u64::MAX;
    let rounds = spread(&on, &mut reached, 3);
    assert!(rt; rounds >= 1);
    assert_eq!(rt; last_row(&reached, 3) & 0xF, 0b0110);
    Ok(())
}

#[test]
fn the_sequence_of_pcg(rt: HostRuntime) -> Result<(), Fail> {
    // The first words of the demonstration of PCG's reference code.
    let mut random = Random::new();
    assert_eq!(rt; random.next(), 0xA15C_02B7);
    assert_eq!(rt; random.next(), 0x7B47_F409);
    assert!(rt; random.below(6) < 6);
    Ok(())
}

//! Runs of the command `cnf`.
use four_lattice::status::Status;
use run_rows::row::{Row, done, refused, try_row};
use std::test::Fail;

/// One input, and an output that is that input.
const ONE: &str = ".i 1\n.o 1\n1 1\n.e\n";

/// The formula of one cell for it.
const ONE_CELL: &str =
    "p cnf 8 13\n1 2 3 4 0\n-1 -5 0\n-1 -6 0\n-2 5 0\n-2 6 0\n-3 -5 0\n-3 6 0\n-4 5 0\n-4 -6 0\n-5 7 0\n-7 0\n6 8 0\n-8 0\n";

/// Words that are refused.
fn refused_words(words: &'static [&'static str]) -> Row {
    refused(words, ONE, "", Status::Words, "words refused\n")
}

#[test]
fn formulas(rt: HostRuntime) -> Result<(), Fail> {
    let rows = [
        done(&["cnf", "--rows", "1", "--cols", "1"], ONE, "", ONE_CELL),
        done(
            &["cnf", "--cols", "1", "--output", "0", "--rows", "1"],
            ONE,
            "",
            ONE_CELL,
        ),
        // No assignment is asked.
        done(
            &["cnf", "--rows", "1", "--cols", "1"],
            ".i 1\n.o 1\n.type fr\n.e\n",
            "",
            "p cnf 4 1\n1 2 3 4 0\n",
        ),
        refused(
            &["cnf", "--rows", "1", "--cols", "1", "--output", "1"],
            ONE,
            "",
            Status::Input,
            "input refused: NoSuchOutput\n",
        ),
        refused_words(&["cnf"]),
        refused_words(&["cnf", "--rows", "1"]),
        refused_words(&["cnf", "--rows", "0", "--cols", "1"]),
        refused_words(&["cnf", "--rows", "1", "--cols", "17"]),
        refused_words(&["cnf", "--rows", "1", "--cols", "1", "J"]),
        refused_words(&["pairs", "--rows", "1"]),
    ];
    for row in &rows {
        try_row(rt.alloc(), row)?;
    }
    Ok(())
}

//! Words of the command line.
use four_lattice::status::Status;
use four_lattice::words::{Job, settings};
use lattice_grid::rails::Rails;
use run_rows::row::{Row, refused, try_row, words_of};
use std::alloc::Global;
use std::test::Fail;

/// Words that are refused.
fn refused_words(words: &'static [&'static str]) -> Row {
    refused(
        words,
        ".i 2\n.o 1\n11 1\n.e\n",
        "",
        Status::Words,
        "words refused\n",
    )
}

#[test]
fn no_command(rt: HostRuntime) -> Result<(), Fail> {
    let rows = [
        refused_words(&[]),
        refused_words(&[""]),
        refused_words(&["--help"]),
        refused_words(&["Pairs"]),
        refused_words(&["pairs", "J"]),
        refused_words(&["pairs", "--help"]),
        refused_words(&["pairs", "-h"]),
        refused_words(&["pairs", "--version"]),
        refused_words(&["pairs", "--output"]),
        refused_words(&["pairs", "--output", "64"]),
        refused_words(&["pairs", "--output", "00"]),
        refused_words(&["pairs", "--output", "+1"]),
        refused_words(&["pairs", "--output", "4294967296"]),
        refused_words(&["pairs", "--output", "10000000000"]),
        refused_words(&["pairs", "--output=1"]),
        refused_words(&["dual", "--output", "1", "--output", "1"]),
        refused_words(&["dual", "1", "--output"]),
        refused_words(&["verify"]),
        refused_words(&["verify", ""]),
        refused_words(&["verify", "-"]),
        refused_words(&["verify", "--"]),
        refused_words(&["verify", "J", "K"]),
        refused_words(&["verify", "--output", "1", "J"]),
        refused_words(&["check", "J", "--output", "1"]),
        refused_words(&["synth"]),
        refused_words(&["synth", "J", "--conflicts", "5"]),
        refused_words(&["synth", "--conflicts", "200001", "J"]),
        refused_words(&["synth", "--conflicts=5", "J"]),
        refused_words(&["synth", "--conflicts", "1", "--conflicts", "1", "J"]),
        refused_words(&["synth", "--rails", "1048576", "J"]),
        refused_words(&["synth", "--output", "64", "J"]),
        refused_words(&["pairs", "--conflicts", "1"]),
        refused_words(&["minima", "J"]),
    ];
    for row in &rows {
        try_row(rt.alloc(), row)?;
    }
    Ok(())
}

/// Whether the words ask for this job.
fn asks(alloc: Global, words: &[&str], job: Job) -> Result<bool, Fail> {
    let words = words_of(alloc, words)?;
    Ok(settings(alloc, &words) == Ok(job))
}

#[test]
fn commands(rt: HostRuntime) -> Result<(), Fail> {
    let alloc = rt.alloc();
    assert!(rt; asks(alloc, &["pairs"], Job::Pairs { output: None })?);
    assert!(rt;
        asks(
            alloc,
            &["pairs", "--output", "0"],
            Job::Pairs { output: Some(0) }
        )?
    );
    assert!(rt;
        asks(
            alloc,
            &["dual", "--output", "63"],
            Job::Dual { output: Some(63) }
        )?
    );
    assert!(rt; asks(alloc, &["verify", "J"], Job::Verify)?);
    assert!(rt; asks(alloc, &["check", "a b"], Job::Check)?);
    assert!(rt;
        asks(
            alloc,
            &["synth", "J"],
            Job::Synth {
                conflicts: 20_000,
                output: None,
                rails: Rails::all()
            }
        )?
    );
    let rails = Rails::new(6).ok_or("no rails")?;
    assert!(rt;
        asks(
            alloc,
            &[
                "synth",
                "--rails",
                "6",
                "--output",
                "3",
                "--conflicts",
                "200000",
                "J"
            ],
            Job::Synth {
                conflicts: 200_000,
                output: Some(3),
                rails
            }
        )?
    );
    Ok(())
}

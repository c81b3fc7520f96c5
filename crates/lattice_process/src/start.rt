//! What the program does.
use crate::devices::run_on_devices;
use crate::words::words_of_process;
use finder_set::finder::Finder;
use finder_set::fold::Fold;
use finder_set::split_and::SplitAnd;
use finder_set::split_or::SplitOr;
use finder_set::trim::Trim;
use four_lattice::status::Status;
use parts_finder::parts::PartsFinder;
use repair_finder::repair::RepairFinder;
use std::process::ExitCode;

/// Runs the command that the words of the process give, with the four finders of the kit, the one that decomposes and the
/// one that mends, and gives the exit code: that of the run; the number of `Words` where a word is not text; that of
/// `NoMemory` where there was no memory for the words, the devices or the finders.
pub fn start(rt: &HostRuntime) -> ExitCode {
    let words = match words_of_process(rt) {
        Ok(words) => words,
        Err(why) => return ExitCode::from(why.status().number()),
    };
    let alloc = rt.alloc();
    let mut finders: Vec<Box<dyn Finder>> = Vec::new(alloc);
    let (Ok(trim), Ok(split_or), Ok(split_and), Ok(fold), Ok(parts), Ok(repair)) = (
        Box::new(alloc, Trim::new(alloc)),
        Box::new(alloc, SplitOr::new(alloc)),
        Box::new(alloc, SplitAnd::new(alloc)),
        Box::new(alloc, Fold::new(alloc)),
        Box::new(alloc, PartsFinder::new(alloc)),
        Box::new(alloc, RepairFinder::new(alloc)),
    ) else {
        return ExitCode::from(Status::NoMemory.number());
    };
    if finders.push(trim).is_err()
        || finders.push(split_or).is_err()
        || finders.push(split_and).is_err()
        || finders.push(fold).is_err()
        || finders.push(parts).is_err()
        || finders.push(repair).is_err()
    {
        return ExitCode::from(Status::NoMemory.number());
    }
    run_on_devices(rt, &words, &mut finders)
}

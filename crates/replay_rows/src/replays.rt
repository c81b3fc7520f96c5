ghost use Rattle.std.specs.Prelude.{IsTrue};
ghost use Rattle.clause_core.specs.Formula.{IsOver};

use clause_core::lit::Lit;
use clause_core::read::read_cnf;
use lrat_replay::fault::StepFault;
use lrat_replay::ledger::Ledger;
use lrat_replay::read::read_lrat;
use lrat_replay::refusal::LratRefusal;
use lrat_replay::replay::Replay;
use lrat_replay::step_text::read_step;
use lrat_replay::tally::Tally;
use lrat_replay::write::write_step;
use std::test::Fail;
use wire_io::firm::FirmSink;

/// Whether a clause is over so many variables.
fn is_over(clause: &[Lit], vars: u32) -> bool
    ensures { IsTrue result → IsOver vars clause.now }
{
    clause.iter().all(|lit| lit.var() <= vars)
}

/// Whether a clause is new, if it is over the formula's variables.
fn is_new(replay: &mut Replay, clause: &[Lit]) -> Option<bool> {
    if !is_over(clause, replay.formula().vars()) {
        return None;
    }
    Some(replay.is_new(clause))
}

#[test]
fn an_empty_clause_is_reached(rt: HostRuntime) -> Result<(), Fail> {
    let alloc = rt.alloc();
    let formula = read_cnf(alloc, b"p cnf 1 2\n1 0\n-1 0\n")?;
    let mut replay = Replay::new(alloc, formula).ok().ok_or("memory")?;
    assert_eq!(rt; replay.step(3, &[], &[-1]), Err(StepFault::Rat));
    assert_eq!(rt; replay.step(3, &[], &[1]), Err(StepFault::NoConflict));
    assert_eq!(rt; replay.delete(&[2, 2]), Err(StepFault::Unknown));
    assert_eq!(rt; replay.step(3, &[], &[1, 2]), Ok(()));
    assert_eq!(rt; replay.step(3, &[], &[1, 2]), Err(StepFault::Order));
    assert!(rt; replay.reached());
    assert_eq!(rt; replay.last_id(), 3);
    let refutation = replay.refutation().ok().ok_or("not reached")?;
    assert_eq!(rt; refutation.formula().count(), 2);
    Ok(())
}

#[test]
fn each_refusal_of_a_step(rt: HostRuntime) -> Result<(), Fail> {
    let alloc = rt.alloc();
    let formula = read_cnf(alloc, b"p cnf 3 4\n1 0\n-1 2 0\n1 -2 3 0\n2 3 0\n")?;
    let mut replay = Replay::new(alloc, formula).ok().ok_or("memory")?;
    let two = Lit::new(2, false);
    let three = Lit::new(3, false);
    assert_eq!(rt; replay.step(4, &[two], &[1, 2]), Err(StepFault::Order));
    assert_eq!(rt;
        replay.step(2_147_483_648, &[two], &[1, 2]),
        Err(StepFault::Order)
    );
    let four = Lit::new(4, true);
    assert_eq!(rt; replay.step(5, &[four], &[1]), Err(StepFault::Variable));
    assert_eq!(rt;
        replay.step(5, &[two, two.flip()], &[1]),
        Err(StepFault::Tautology)
    );
    assert_eq!(rt; replay.step(5, &[two], &[-1]), Err(StepFault::Rat));
    assert_eq!(rt; replay.step(5, &[two], &[9]), Err(StepFault::Unknown));
    assert_eq!(rt; replay.step(5, &[two], &[1, 1]), Err(StepFault::Satisfied));
    assert_eq!(rt; replay.step(5, &[], &[4]), Err(StepFault::Loose));
    assert_eq!(rt;
        replay.step(5, &[three], &[1, 2]),
        Err(StepFault::NoConflict)
    );
    assert_eq!(rt; replay.last_id(), 4);
    assert_eq!(rt; replay.step(5, &[two], &[1, 2]), Ok(()));
    assert_eq!(rt; replay.last_id(), 5);
    Ok(())
}

#[test]
fn deleted_clauses_are_no_hints_and_still_old(rt: HostRuntime) -> Result<(), Fail> {
    let alloc = rt.alloc();
    let formula = read_cnf(alloc, b"p cnf 3 2\n1 2 0\n1 -2 0\n")?;
    let mut replay = Replay::new(alloc, formula).ok().ok_or("memory")?;
    let one = Lit::new(1, false);
    let three = Lit::new(3, false);
    assert!(rt; is_new(&mut replay, &[one]) == Some(true));
    assert!(rt; is_new(&mut replay, &[one, three]) == Some(true));
    assert!(rt; is_new(&mut replay, &[]) == Some(false));
    let longer = [three, Lit::new(2, false), one];
    assert!(rt; is_new(&mut replay, &longer) == Some(false));
    assert_eq!(rt; replay.step(3, &[one], &[1, 2]), Ok(()));
    assert_eq!(rt; replay.delete(&[3, 1]), Ok(()));
    assert_eq!(rt; replay.delete(&[2, 1]), Err(StepFault::Unknown));
    assert_eq!(rt;
        replay.step(4, &[one, three], &[3]),
        Err(StepFault::Unknown)
    );
    assert!(rt; is_new(&mut replay, &[one, three]) == Some(false));
    assert_eq!(rt;
        replay.step(4, &[one, Lit::new(2, false)], &[2]),
        Err(StepFault::Satisfied)
    );
    assert_eq!(rt; replay.last_id(), 3);
    Ok(())
}

#[test]
fn a_subset_is_found_whatever_its_list(rt: HostRuntime) -> Result<(), Fail> {
    let alloc = rt.alloc();
    let formula = read_cnf(alloc, b"p cnf 4 4\n3 1 0\n-2 3 0\n3 2 -1 0\n-2 4 0\n")?;
    let mut replay = Replay::new(alloc, formula).ok().ok_or("memory")?;
    let one = Lit::new(1, false);
    let two = Lit::new(2, false);
    let three = Lit::new(3, false);
    let four = Lit::new(4, false);
    assert!(rt; is_new(&mut replay, &[one, three, four]) == Some(false));
    assert!(rt; is_new(&mut replay, &[four, two.flip()]) == Some(false));
    assert!(rt; is_new(&mut replay, &[three, two.flip()]) == Some(false));
    assert!(rt; is_new(&mut replay, &[three, three]) == Some(true));
    assert!(rt; is_new(&mut replay, &[two, three, four]) == Some(true));
    assert_eq!(rt; replay.step(5, &[three], &[1, 3, 2]), Ok(()));
    assert!(rt; is_new(&mut replay, &[two, three, four]) == Some(false));
    assert_eq!(rt; replay.delete(&[5]), Ok(()));
    assert!(rt; is_new(&mut replay, &[two, three, four]) == Some(false));
    assert!(rt; is_new(&mut replay, &[two, four]) == Some(true));
    Ok(())
}

#[test]
fn nothing_is_new_beside_the_empty_clause(rt: HostRuntime) -> Result<(), Fail> {
    let alloc = rt.alloc();
    let formula = read_cnf(alloc, b"p cnf 2 3\n1 0\n0\n2 0\n")?;
    let mut replay = Replay::new(alloc, formula).ok().ok_or("memory")?;
    assert!(rt; is_new(&mut replay, &[Lit::new(2, true)]) == Some(false));
    Ok(())
}

#[test]
fn a_tally_is_as_the_ledger_within(rt: HostRuntime) -> Result<(), Fail> {
    let alloc = rt.alloc();
    let formula = read_cnf(alloc, b"p cnf 2 2\n1 2 0\n1 -2 0\n")?;
    let replay = Replay::new(alloc, formula).ok().ok_or("memory")?;
    let tally = Tally::new(replay);
    assert_eq!(rt; tally.count(), 0);
    assert_eq!(rt; tally.last_id(), 2);
    assert_eq!(rt; tally.formula().vars(), 2);
    let replay = tally.into_inner();
    assert_eq!(rt; Ledger::last_id(&replay), 2);
    assert_eq!(rt; Ledger::formula(&replay).count(), 2);
    Ok(())
}

#[test]
fn lines_are_read(rt: HostRuntime) -> Result<(), Fail> {
    let alloc = rt.alloc();
    let lines = read_lrat(alloc, b"c\n3 -1 0 1 2 0\n3 d 1 0")?;
    assert_eq!(rt; lines.len(), 2);
    let form = read_lrat(alloc, b"3 0 1 2\n").err();
    assert_eq!(rt; form, Some(LratRefusal::Form { line: 1 }));
    let word = read_lrat(alloc, b"\n3 0 +1 0\n").err();
    assert_eq!(rt; word, Some(LratRefusal::Word { line: 2 }));
    Ok(())
}

#[test]
fn a_written_step_is_read_back(rt: HostRuntime) -> Result<(), Fail> {
    let alloc = rt.alloc();
    let mut sink = FirmSink::new(alloc, 64, 3).ok().ok_or("memory")?;
    let clause = [Lit::new(1, false), Lit::new(2, true)];
    assert!(rt; write_step(&mut sink, 3, &clause, &[1, 20]).is_ok());
    assert_eq!(rt; sink.bytes(), b"3 1 -2 0 1 20 0\n".as_slice());
    let step = read_step(alloc, b"3 1 -2 0 1 20 0").ok().ok_or("memory")?;
    let step = step.ok_or("no step")?;
    assert_eq!(rt; step.hints.as_slice(), [1, 20].as_slice());
    let other = read_step(alloc, b"3 1  -2 0 1 20 0").ok().ok_or("memory")?;
    assert!(rt; other.is_none());
    Ok(())
}

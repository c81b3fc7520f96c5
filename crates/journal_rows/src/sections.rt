use clause_core::read::read_cnf;
use clause_solver::solver::Solver;
use clause_solver::verdict::{SolveFault, Verdict};
use journal_text::target::Target;
use journal_text::writer::JournalWriter;
use lattice_grid::rails::Rails;
use lattice_grid::shape::Shape;
use lrat_replay::ledger::Ledger;
use std::test::*;
use wire_io::firm::FirmSink;
use wire_io::memory::MemorySink;

/// The four clauses of two literals over two variables.
const FOUR: &[u8] = b"p cnf 2 4\n1 2 0\n1 -2 0\n-1 2 0\n-1 -2 0\n";

#[test]
fn a_step_that_the_sink_does_not_take(rt: HostRuntime) -> Result<(), Fail> {
    let alloc = rt.alloc();
    let formula = read_cnf(alloc, FOUR)?;
    let fails = vec![in alloc; 5]?;
    let sink = MemorySink::new(alloc, 200, 200, fails)
        .ok()
        .ok_or("memory")?;
    let Ok(writer) = JournalWriter::begin(sink, Rails::all()) else {
        return Err(Fail::from("the sink failed"));
    };
    let shape = Shape::new(1, 1).ok_or("a shape")?;
    assert!(rt; shape.area() <= 32_768);
    let Ok(section) = writer.question(alloc, 0, &Target::Whole(shape), formula) else {
        return Err(Fail::from("the sink failed"));
    };
    let Ok(mut solver) = Solver::new(alloc, section) else {
        return Err(Fail::from("memory"));
    };
    assert!(rt; solver.ledger().last_id() == 4);
    assert!(rt; matches!(solver.solve(5), Err(SolveFault::Ledger)));
    assert!(rt; solver.ledger().last_id() <= 9);
    assert!(rt; matches!(solver.solve(5), Err(SolveFault::Over)));
    let sink = solver.into_ledger().into_sink();
    assert_eq!(rt;
        sink.bytes(),
        b"lattice journal 2\nrails 1048575\nquestion 0 1x1\n".as_slice()
    );
    Ok(())
}

#[test]
fn a_refuted_section(rt: HostRuntime) -> Result<(), Fail> {
    let alloc = rt.alloc();
    let formula = read_cnf(alloc, FOUR)?;
    let sink = FirmSink::new(alloc, 200, 3).ok().ok_or("memory")?;
    let Ok(writer) = JournalWriter::begin(sink, Rails::all()) else {
        return Err(Fail::from("the sink failed"));
    };
    let shape = Shape::new(1, 1).ok_or("a shape")?;
    assert!(rt; shape.area() <= 32_768);
    let Ok(section) = writer.question(alloc, 0, &Target::Whole(shape), formula) else {
        return Err(Fail::from("the sink failed"));
    };
    let Ok(mut solver) = Solver::new(alloc, section) else {
        return Err(Fail::from("memory"));
    };
    assert!(rt; solver.ledger().last_id() == 4);
    let Ok(verdict) = solver.solve(5) else {
        return Err(Fail::from("the solver failed"));
    };
    assert!(rt; matches!(verdict, Verdict::Refuted));
    let section = solver.into_ledger();
    assert!(rt; section.reached());
    let steps = section.steps();
    let Ok((writer, refutation)) = section.refuted() else {
        return Err(Fail::from("the sink failed"));
    };
    assert_eq!(rt; refutation.formula().count(), 4);
    assert_eq!(rt; writer.steps(), u64::from(steps));
    let sink = writer.finish().ok().ok_or("the sink failed")?;
    assert!(rt; sink.bytes().ends_with(b" 0\nrefuted\nend\n"));
    Ok(())
}

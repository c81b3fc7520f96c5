use clause_core::read::read_cnf;
use clause_core::refusal::CnfRefusal;
use clause_core::valuation::Valuation;
use clause_core::write::write_cnf;
use std::test::Fail;
use wire_io::firm::FirmSink;

#[test]
fn texts_are_read(rt: HostRuntime) -> Result<(), Fail> {
    let alloc = rt.alloc();
    let text = b"c units\np  cnf 01 2\n1\t0 -1\r\n0";
    let formula = read_cnf(alloc, text)?;
    assert_eq!(rt; formula.vars(), 1);
    assert_eq!(rt; formula.count(), 2);
    let valuation = Valuation::new(vec![in alloc; true]?);
    assert!(rt; valuation.vars() == 1);
    assert!(rt; !formula.satisfied_by(&valuation));
    Ok(())
}

#[test]
fn texts_are_refused(rt: HostRuntime) {
    let alloc = rt.alloc();
    let count = read_cnf(alloc, b"p cnf 1 2\n1 0\n").err();
    assert_eq!(rt; count, Some(CnfRefusal::Count { line: 3 }));
    let literal = read_cnf(alloc, b"p cnf 1 1\n2 0\n").err();
    assert_eq!(rt; literal, Some(CnfRefusal::Literal { line: 2 }));
    let unended = read_cnf(alloc, b"p cnf 1 1\n1\n").err();
    assert_eq!(rt; unended, Some(CnfRefusal::Unended { line: 3 }));
    let header = read_cnf(alloc, b"1 0\n").err();
    assert_eq!(rt; header, Some(CnfRefusal::Header { line: 1 }));
}

#[test]
fn what_is_written_is_what_was_read(rt: HostRuntime) -> Result<(), Fail> {
    let alloc = rt.alloc();
    let text = b"p cnf 12 2\n1 -12 0\n0\n";
    let formula = read_cnf(alloc, text)?;
    let mut sink = FirmSink::new(alloc, 64, 3).ok().ok_or("memory")?;
    assert!(rt; write_cnf(&formula, &mut sink).is_ok());
    assert_eq!(rt; sink.bytes(), text.as_slice());
    Ok(())
}

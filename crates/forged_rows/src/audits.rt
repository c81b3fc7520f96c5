use audit_core::audit::{Confirmed, audit};
use audit_core::refusal::{AuditRefusal, TextRefusal};
use audit_core::text;
use cube_core::assign::Assign;
use journal_text::read::read_journal;
use journal_text::refusal::JournalRefusal;
use lrat_replay::fault::StepFault;
use pla_reader::pla::read_pla;
use std::alloc::Global;
use std::test::*;

/// `x0` and `x1`.
const BOTH: &[u8] = b".i 2\n.o 1\n11 1\n.e\n";

/// `x0`.
const ONE: &[u8] = b".i 1\n.o 1\n1 1\n.e\n";

/// The first lines of a journal that allows all literals.
const HEAD: &str = "lattice journal 2\nrails 1048575\n";

/// One cell is refuted.
const ONE_CELL: &str =
    "question 0 1x1\n34 0 27 26 29 28 31 30 33 32 5 6 11 14 20 22 1 0\nrefuted\n";

/// What an audit of a journal gives.
fn audit_text(
    alloc: Global,
    pla: &[u8],
    journal: &[u8],
) -> Result<Result<Vec<Confirmed>, AuditRefusal>, Fail> {
    let Ok(pla) = read_pla(alloc, pla) else {
        return Err(Fail::from("the text is no PLA"));
    };
    if journal.len() > 536_870_912 {
        return Err(Fail::from("the journal is too long"));
    }
    let Ok(journal) = read_journal(alloc, journal) else {
        return Err(Fail::from("the text is no journal"));
    };
    Ok(audit(alloc, &pla, &journal))
}

/// What an audit of a journal of these parts gives.
fn audited(
    rt: HostRuntime,
    pla: &[u8],
    parts: &[&str],
) -> Result<Result<Vec<Confirmed>, AuditRefusal>, Fail> {
    let alloc = rt.alloc();
    let mut text = String::new(alloc);
    for part in parts {
        text.push_str(part)?;
    }
    text.push_str("end\n")?;
    audit_text(alloc, pla, text.as_bytes())
}

/// The one answer that an audit of these parts confirms.
fn only_answer(rt: HostRuntime, pla: &[u8], parts: &[&str]) -> Result<Confirmed, Fail> {
    let found = audited(rt, pla, parts)?.ok().ok_or("it is refused")?;
    if found.len() != 1 {
        return Err(Fail::from("there is not one answer"));
    }
    Ok(found[0])
}

/// The refusal that an audit of these parts gives.
fn refusal(rt: HostRuntime, pla: &[u8], parts: &[&str]) -> Result<AuditRefusal, Fail> {
    let refusal = audited(rt, pla, parts)?.err().ok_or("it is right")?;
    Ok(refusal)
}

#[test]
fn a_minimum(rt: HostRuntime) -> Result<(), Fail> {
    let parts = [
        HEAD,
        ONE_CELL,
        "output 0 f0 minimum 2x1\nx0\nx1\nrefuted 1x1:1\n",
    ];
    let answer = only_answer(rt, BOTH, &parts)?;
    assert_eq!(rt; answer, Confirmed { output: 0, part: 1 });
    Ok(())
}

#[test]
fn sections_that_are_not_right(rt: HostRuntime) -> Result<(), Fail> {
    let output = refusal(rt, BOTH, &[HEAD, "question 1 1x1\nsatisfied\n"])?;
    assert_eq!(rt; output, AuditRefusal::Output { line: 3 });
    let step = refusal(
        rt,
        BOTH,
        &[HEAD, ONE_CELL, "question 0 1x1\n34 0 27 26 0\nrefuted\n"],
    )?;
    let fault = StepFault::NoConflict;
    assert_eq!(rt; step, AuditRefusal::Step { line: 7, fault });
    let unfinished = refusal(
        rt,
        BOTH,
        &[HEAD, "question 0 1x1\n34 -7 0 27 26 0\nrefuted\n"],
    )?;
    assert_eq!(rt; unfinished, AuditRefusal::Unfinished { line: 5 });
    let count = refusal(
        rt,
        BOTH,
        &[HEAD, "question 0 1x1\n34 -7 0 27 26 0\nspent 2\n"],
    )?;
    assert_eq!(rt; count, AuditRefusal::Count { line: 5 });
    let again = "question 0 1x1\n34 -7 0 27 26 0\n35 -7 0 34 0\nspent 2\n";
    let known = refusal(rt, BOTH, &[HEAD, again])?;
    assert_eq!(rt; known, AuditRefusal::Count { line: 6 });
    Ok(())
}

#[test]
fn lattices_that_are_not_right(rt: HostRuntime) -> Result<(), Fail> {
    let name = refusal(
        rt,
        BOTH,
        &[HEAD, "output 0 f1 minimum 2x1\nx0\nx1\nrefuted\n"],
    )?;
    assert_eq!(rt; name, AuditRefusal::Output { line: 3 });
    let literal = refusal(
        rt,
        BOTH,
        &[HEAD, "output 0 f0 minimum 2x1\nx0\nx2\nrefuted\n"],
    )?;
    assert_eq!(rt; literal, AuditRefusal::Literal { line: 3 });
    let wrong = refusal(rt, BOTH, &[HEAD, "output 0 f0 minimum 1x1\nx1\nrefuted\n"])?;
    let assign = Assign::new(2).ok_or("an assignment")?;
    assert_eq!(rt; wrong, AuditRefusal::Wrong { line: 3, assign });
    let large = refusal(
        rt,
        BOTH,
        &[HEAD, "output 0 f0 minimum 3x1\nx0\nx1\nx1\nrefuted\n"],
    )?;
    assert_eq!(rt; large, AuditRefusal::Large { line: 3 });
    let pair = refusal(rt, BOTH, &[HEAD, "output 0 f0 norails 3 0\n"])?;
    assert_eq!(rt; pair, AuditRefusal::NoRails { line: 3 });
    Ok(())
}

#[test]
fn answers_that_nothing_shows(rt: HostRuntime) -> Result<(), Fail> {
    let least = "output 0 f0 minimum 2x1\nx0\nx1\nrefuted\n";
    let satisfied = "question 0 1x1\nsatisfied\n";
    let uncovered = refusal(rt, BOTH, &[HEAD, satisfied, least, ONE_CELL])?;
    assert_eq!(rt; uncovered, AuditRefusal::Uncovered { line: 5 });
    let unlisted = refusal(rt, BOTH, &[HEAD, ONE_CELL, least])?;
    assert_eq!(rt; unlisted, AuditRefusal::Proofs { line: 6 });
    let none = "output 0 f0 none 1x1 .\nrefuted 1x1:1\n";
    let other = refusal(rt, BOTH, &[HEAD, ONE_CELL, none])?;
    assert_eq!(rt; other, AuditRefusal::NoSection { line: 6 });
    Ok(())
}

#[test]
fn an_undecided_answer(rt: HostRuntime) -> Result<(), Fail> {
    let undecided = "output 0 f0 undecided 2x1 least 1 at 1x1 after 1\nx0\nx1\nrefuted\n";
    let alone = refusal(rt, BOTH, &[HEAD, undecided])?;
    assert_eq!(rt; alone, AuditRefusal::NoSection { line: 3 });
    let spent = "question 0 1x1\n34 -7 0 27 26 0\nspent 1\n";
    let answer = only_answer(rt, BOTH, &[HEAD, spent, undecided])?;
    assert_eq!(rt; answer, Confirmed { output: 0, part: 1 });
    Ok(())
}

#[test]
fn an_array(rt: HostRuntime) -> Result<(), Fail> {
    let open = "question 0 1x1 o\n8 0 3 7 6 0\nrefuted\n";
    let none = "output 0 f0 none 1x1 o\nrefuted 1x1:1\n";
    let answer = only_answer(rt, ONE, &[HEAD, open, none])?;
    assert_eq!(rt; answer, Confirmed { output: 0, part: 1 });
    Ok(())
}

#[test]
fn no_rails(rt: HostRuntime) -> Result<(), Fail> {
    let rails = "lattice journal 2\nrails 0\noutput 0 f0 norails 1 0\n";
    let answer = only_answer(rt, ONE, &[rails])?;
    assert_eq!(rt; answer, Confirmed { output: 0, part: 0 });
    Ok(())
}

#[test]
fn the_first_version(rt: HostRuntime) -> Result<(), Fail> {
    let least = "output 0 f0 minimum 2x1\nx0\nx1\n";
    let answer = only_answer(rt, BOTH, &["lattice journal 1\n", ONE_CELL, least])?;
    assert_eq!(rt; answer, Confirmed { output: 0, part: 1 });
    Ok(())
}

/// What an audit of a text comes to as it is read.
fn as_it_is_read(
    alloc: Global,
    pla: &[u8],
    text: &[u8],
) -> Result<Result<Vec<Confirmed>, TextRefusal>, Fail> {
    let Ok(pla) = read_pla(alloc, pla) else {
        return Err(Fail::from("the text is no PLA"));
    };
    if text.len() > 536_870_912 {
        return Err(Fail::from("the journal is too long"));
    }
    Ok(text::audit_text(alloc, &pla, text))
}

#[test]
fn a_text_that_is_right(rt: HostRuntime) -> Result<(), Fail> {
    let text = b"lattice journal 2\nrails 0\noutput 0 f0 norails 1 0\nend\n";
    let found = as_it_is_read(rt.alloc(), ONE, text)?
        .ok()
        .ok_or("it is refused")?;
    assert_eq!(rt; found.len(), 1);
    assert_eq!(rt; found[0], Confirmed { output: 0, part: 0 });
    Ok(())
}

#[test]
fn a_text_with_a_part_that_is_not_right(rt: HostRuntime) -> Result<(), Fail> {
    let text =
        b"lattice journal 2\nrails 0\noutput 0 f0 norails 0 1\nquestion 0 1x1\nsatisfied\nend\n";
    let refusal = as_it_is_read(rt.alloc(), ONE, text)?
        .err()
        .ok_or("it is right")?;
    assert_eq!(rt;
        refusal,
        TextRefusal::Audit(AuditRefusal::NoRails { line: 3 })
    );
    Ok(())
}

#[test]
fn a_fault_of_form_behind_a_part_that_is_not_right(rt: HostRuntime) -> Result<(), Fail> {
    let text = b"lattice journal 2\nrails 0\noutput 0 f0 norails 0 1\nquestion 0 1x1\nend\n";
    let refusal = as_it_is_read(rt.alloc(), ONE, text)?
        .err()
        .ok_or("it is right")?;
    assert_eq!(rt;
        refusal,
        TextRefusal::Form(JournalRefusal::Order { line: 5 })
    );
    Ok(())
}

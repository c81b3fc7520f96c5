ghost use Rattle.std.specs.Prelude.{IsTrue};
ghost use Rattle.journal_text.specs.Bounds.{MayStand};

use clause_core::read::read_cnf;
use clause_core::valuation::Valuation;
use journal_text::fault::JournalFault;
use journal_text::journal::{Part, PartKind, SectionText};
use journal_text::read::read_journal;
use journal_text::refusal::JournalRefusal;
use journal_text::target::{Close, Target};
use journal_text::writer::JournalWriter;
use lattice_grid::array::{Array, Defect};
use lattice_grid::rails::Rails;
use lattice_grid::shape::Shape;
use lrat_replay::ledger::Ledger;
use report_text::answer::{Answer, Version};
use report_text::block::read_block;
use std::test::*;
use wire_io::firm::FirmSink;
use wire_io::memory::MemorySink;

/// Whether an answer may stand in a journal.
fn may_stand(answer: &Answer) -> bool
    ensures { IsTrue result → MayStand answer.now }
{
    match answer {
        Answer::Found(_) => false,
        Answer::Minimum(_) | Answer::Undecided { .. } | Answer::Mapped { .. } => true,
        Answer::NoneMapped { .. } | Answer::MapUndecided { .. } | Answer::NoRails { .. } => true,
    }
}

#[test]
fn an_answer_alone(rt: HostRuntime) -> Result<(), Fail> {
    let alloc = rt.alloc();
    let text = b"output 0 f0 minimum 1x1\n0\nrefuted\n";
    let Ok((block, _)) = read_block(alloc, text, 0, 1, Version::Two) else {
        return Err(Fail::from("the text spells a block"));
    };
    assert!(rt; may_stand(&block.answer));
    let sink = FirmSink::new(alloc, 200, 5).ok().ok_or("memory")?;
    let mut writer = JournalWriter::begin(sink, Rails::all())
        .ok()
        .ok_or("the sink failed")?;
    assert!(rt; writer.answer(&block).is_ok());
    assert_eq!(rt; writer.steps(), 0);
    let sink = writer.finish().ok().ok_or("the sink failed")?;
    assert_eq!(rt;
        sink.bytes(),
        b"lattice journal 2\nrails 1048575\noutput 0 f0 minimum 1x1\n0\nrefuted\nend\n".as_slice()
    );
    Ok(())
}

#[test]
fn a_question_that_is_satisfied(rt: HostRuntime) -> Result<(), Fail> {
    let alloc = rt.alloc();
    let formula = read_cnf(alloc, b"p cnf 1 1\n1 0\n")?;
    let sink = FirmSink::new(alloc, 200, 200).ok().ok_or("memory")?;
    let rails = Rails::new(15).ok_or("rails")?;
    let writer = JournalWriter::begin(sink, rails)
        .ok()
        .ok_or("the sink failed")?;
    let shape = Shape::new(1, 2).ok_or("a shape")?;
    assert!(rt; shape.area() <= 32_768);
    let Ok(section) = writer.question(alloc, 63, &Target::Whole(shape), formula) else {
        return Err(Fail::from("the sink failed"));
    };
    assert_eq!(rt; section.last_id(), 1);
    assert_eq!(rt; section.formula().vars(), 1);
    assert_eq!(rt; section.steps(), 0);
    assert!(rt; !section.reached());
    let values = Valuation::new(vec![in alloc; true]?);
    assert!(rt; section.formula().vars() <= values.vars());
    assert!(rt; section.formula().satisfied_by(&values));
    let writer = section.satisfied(&values).ok().ok_or("the sink failed")?;
    let sink = writer.finish().ok().ok_or("the sink failed")?;
    assert_eq!(rt;
        sink.bytes(),
        b"lattice journal 2\nrails 15\nquestion 63 1x2\nsatisfied\nend\n".as_slice()
    );
    Ok(())
}

#[test]
fn a_question_of_an_array(rt: HostRuntime) -> Result<(), Fail> {
    let alloc = rt.alloc();
    let formula = read_cnf(alloc, b"p cnf 1 1\n1 0\n")?;
    let sink = FirmSink::new(alloc, 200, 1).ok().ok_or("memory")?;
    let writer = JournalWriter::begin(sink, Rails::all())
        .ok()
        .ok_or("the sink failed")?;
    let shape = Shape::new(2, 2).ok_or("a shape")?;
    let defects = vec![in alloc;
        Defect::Sound,
        Defect::Sound,
        Defect::StuckClosed,
        Defect::StuckOpen,
    ]?;
    let array = Array::new(shape, defects).ok_or("an array")?;
    let section = writer
        .question(alloc, 0, &Target::Marked(array), formula)
        .ok()
        .ok_or("the sink failed")?;
    let sink = section.into_sink();
    assert_eq!(rt;
        sink.bytes(),
        b"lattice journal 2\nrails 1048575\nquestion 0 2x2 ../co\n".as_slice()
    );
    Ok(())
}

#[test]
fn a_sink_that_fails(rt: HostRuntime) -> Result<(), Fail> {
    let alloc = rt.alloc();
    let formula = read_cnf(alloc, b"p cnf 1 1\n1 0\n")?;
    let fails = vec![in alloc; 7]?;
    let sink = MemorySink::new(alloc, 200, 10, fails).ok().ok_or("memory")?;
    let writer = JournalWriter::begin(sink, Rails::all())
        .ok()
        .ok_or("the sink failed")?;
    let shape = Shape::new(1, 2).ok_or("a shape")?;
    assert!(rt; shape.area() <= 32_768);
    let stopped = writer
        .question(alloc, 0, &Target::Whole(shape), formula)
        .err()
        .ok_or("it wrote")?;
    assert_eq!(rt; stopped.fault, JournalFault::Sink);
    assert_eq!(rt;
        stopped.held.bytes(),
        b"lattice journal 2\nrails 1048575\nquestion 0".as_slice()
    );
    Ok(())
}

/// The journal of exclusive or, where the search asks for one size, and for an array that it gives up.
const EXCLUSIVE_OR: &[u8] =
    b"lattice journal 2\nrails 1048575\nquestion 0 1x2\n12 1 -2 0 3 5 0\n13 0 12 1 0\nrefuted\nquestion 63 2x2 ../co\nspent 200000\noutput 0 f0 minimum 2x2\nx0 x1\nx1' x0'\nrefuted 1x2:1 2x1:1 1x3:1 3x1:1\nend\n";

/// The question that a part is.
fn question(part: &Part) -> Option<&SectionText> {
    match &part.what {
        PartKind::Question(section) => Some(section),
        PartKind::Answer(_) => None,
    }
}

#[test]
fn a_journal_is_read(rt: HostRuntime) -> Result<(), Fail> {
    let journal = read_journal(rt.alloc(), EXCLUSIVE_OR)
        .ok()
        .ok_or("the text spells a journal")?;
    assert_eq!(rt; journal.version, Version::Two);
    assert_eq!(rt; journal.rails, 1_048_575);
    let [first, second, third] = journal.parts.as_slice() else {
        return Err(Fail::from("three parts"));
    };
    assert_eq!(rt; first.line, 3);
    assert_eq!(rt; second.line, 7);
    assert_eq!(rt; third.line, 9);
    let section = question(first).ok_or("a question")?;
    assert_eq!(rt; section.output, 0);
    assert_eq!(rt; section.close, Close::Refuted);
    assert_eq!(rt; section.close_line, 6);
    let [one, other] = section.steps.as_slice() else {
        return Err(Fail::from("two steps"));
    };
    assert_eq!(rt; one.line, 4);
    assert_eq!(rt; one.step.id, 12);
    assert_eq!(rt; one.step.hints.as_slice().len(), 2);
    assert_eq!(rt; other.line, 5);
    let section = question(second).ok_or("a question")?;
    assert_eq!(rt; section.output, 63);
    assert_eq!(rt; section.steps.len(), 0);
    assert_eq!(rt; section.close, Close::Spent(200_000));
    assert_eq!(rt; section.close_line, 8);
    assert!(rt; question(third).is_none());
    Ok(())
}

#[test]
fn a_journal_of_the_first_version(rt: HostRuntime) -> Result<(), Fail> {
    let text = b"lattice journal 1\noutput 0 f0 none 1x1 c\nquestion 0 128x256\nsatisfied\nend\n";
    let journal = read_journal(rt.alloc(), text)
        .ok()
        .ok_or("the text spells a journal")?;
    assert_eq!(rt; journal.version, Version::One);
    assert_eq!(rt; journal.rails, 1_048_575);
    let [first, second] = journal.parts.as_slice() else {
        return Err(Fail::from("two parts"));
    };
    assert_eq!(rt; first.line, 2);
    assert!(rt; question(first).is_none());
    let section = question(second).ok_or("a question")?;
    assert_eq!(rt; section.close, Close::Satisfied);
    assert_eq!(rt; section.close_line, 4);
    Ok(())
}

/// What a short text is refused for.
fn refusal(rt: &HostRuntime, text: &[u8]) -> Option<JournalRefusal> {
    if text.len() > 200 {
        return None;
    }
    read_journal(rt.alloc(), text).err()
}

#[test]
fn refusals_of_heads_and_ends(rt: HostRuntime) {
    assert_eq!(rt;
        refusal(&rt, b""),
        Some(JournalRefusal::Truncated { line: 1 })
    );
    assert_eq!(rt;
        refusal(&rt, b"lattice journal 2"),
        Some(JournalRefusal::Truncated { line: 1 })
    );
    assert_eq!(rt;
        refusal(&rt, b"lattice journal 3\n"),
        Some(JournalRefusal::Header { line: 1 })
    );
    assert_eq!(rt;
        refusal(&rt, b"lattice journal 2\nrails 1048576\n"),
        Some(JournalRefusal::Rails { line: 2 })
    );
    assert_eq!(rt;
        refusal(&rt, b"lattice journal 2\nend\n"),
        Some(JournalRefusal::Rails { line: 2 })
    );
    assert_eq!(rt;
        refusal(&rt, b"lattice journal 1\nend\n\n"),
        Some(JournalRefusal::Trailing { line: 3 })
    );
    assert_eq!(rt;
        refusal(&rt, b"lattice journal 1\nend"),
        Some(JournalRefusal::Truncated { line: 2 })
    );
}

#[test]
fn refusals_outside_of_sections(rt: HostRuntime) {
    let unknown: [&[u8]; 4] = [
        b"lattice journal 1\n\n",
        b"lattice journal 1\n03 0 0\n",
        b"lattice journal 1\n-3 0 0\n",
        b"lattice journal 1\nend\t\n",
    ];
    for text in unknown {
        assert_eq!(rt; refusal(&rt, text), Some(JournalRefusal::Word { line: 2 }));
    }
    let astray: [&[u8]; 4] = [
        b"lattice journal 1\n0 0 0\n",
        b"lattice journal 1\n99999999999 0 0\n",
        b"lattice journal 1\nrefuted x\n",
        b"lattice journal 1\nsatisfied\n",
    ];
    for text in astray {
        assert_eq!(rt; refusal(&rt, text), Some(JournalRefusal::Order { line: 2 }));
    }
    let questions: [&[u8]; 5] = [
        b"lattice journal 1\nend x\n",
        b"lattice journal 1\nquestion 64 1x1\n",
        b"lattice journal 1\nquestion 0 128x257\n",
        b"lattice journal 1\nquestion 0 1x2 .\n",
        b"lattice journal 1\nquestion 0 1x2 .. \n",
    ];
    for text in questions {
        assert_eq!(rt;
            refusal(&rt, text),
            Some(JournalRefusal::Question { line: 2 })
        );
    }
}

#[test]
fn refusals_in_sections(rt: HostRuntime) {
    assert_eq!(rt;
        refusal(&rt, b"lattice journal 1\nquestion 0 1x1\n03 0 0\n"),
        Some(JournalRefusal::Word { line: 3 })
    );
    let astray: [&[u8]; 3] = [
        b"lattice journal 1\nquestion 0 1x1\nend x\n",
        b"lattice journal 1\nquestion 0 1x1\nquestion\n",
        b"lattice journal 1\nquestion 0 1x1\noutput\n",
    ];
    for text in astray {
        assert_eq!(rt; refusal(&rt, text), Some(JournalRefusal::Order { line: 3 }));
    }
    let closings: [&[u8]; 3] = [
        b"lattice journal 1\nquestion 0 1x1\nrefuted x\n",
        b"lattice journal 1\nquestion 0 1x1\nspent 200001\n",
        b"lattice journal 1\nquestion 0 1x1\nspent\n",
    ];
    for text in closings {
        assert_eq!(rt;
            refusal(&rt, text),
            Some(JournalRefusal::Question { line: 3 })
        );
    }
    let steps: [&[u8]; 4] = [
        b"lattice journal 1\nquestion 0 1x1\n0 0 0\n",
        b"lattice journal 1\nquestion 0 1x1\n99999999999 0 0\n",
        b"lattice journal 1\nquestion 0 1x1\n3 1 0 -1 0\n",
        b"lattice journal 1\nquestion 0 1x1\n3 1  0 1 0\n",
    ];
    for text in steps {
        assert_eq!(rt; refusal(&rt, text), Some(JournalRefusal::Step { line: 3 }));
    }
    assert_eq!(rt;
        refusal(&rt, b"lattice journal 1\nquestion 0 1x1\n3 0 1 0"),
        Some(JournalRefusal::Truncated { line: 3 })
    );
}

#[test]
fn refusals_of_answers(rt: HostRuntime) {
    let headings: [&[u8]; 4] = [
        b"lattice journal 1\noutput 0 f found 1x1\nx10\n",
        b"lattice journal 1\noutput 0 f found 1x1\n",
        b"lattice journal 1\noutput 64 f found 1x1\n",
        b"lattice journal 1\noutput 0 f norails 0 1\n",
    ];
    for text in headings {
        assert_eq!(rt; refusal(&rt, text), Some(JournalRefusal::Block { line: 2 }));
    }
    assert_eq!(rt;
        refusal(&rt, b"lattice journal 1\noutput 0 f minimum 1x1\nend\n"),
        Some(JournalRefusal::Block { line: 3 })
    );
    assert_eq!(rt;
        refusal(
            &rt,
            b"lattice journal 2\nrails 0\noutput 0 f minimum 1x1\n0\nend\n"
        ),
        Some(JournalRefusal::Proofs { line: 5 })
    );
    assert_eq!(rt;
        refusal(&rt, b"lattice journal 2\nrails 0\noutput 0 f none 1x1 c\n"),
        Some(JournalRefusal::Truncated { line: 4 })
    );
}

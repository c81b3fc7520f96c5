ghost use Rattle.std.specs.Prelude.{◌≤◌, length, IfSome};
ghost use Rattle.report_text.specs.Bounds.{IsReport};
ghost use Rattle.report_text.specs.Report.{parts_of_report};

use lattice_grid::shape::Shape;
use report_text::answer::{Report, Version};
use report_text::array::read_rows;
use report_text::block::{BlockFault, read_block};
use report_text::report::{ReportRefusal, read_report};
use report_text::shape::read_shape;
use report_text::write::write_report;
use std::alloc::Global;
use std::test::*;
use wire_io::memory::MemorySink;

/// A report of version 1.
const FIRST: &[u8] =
    b"lattice report 1\ninputs x0 x1\noutput 0 f0 undecided 2x2 least 2 at 1x2 after 0\nx0 x1\nx1' x0'\nend\n";

/// One of version 2 in which each form stands once.
const SECOND: &[u8] =
    b"lattice report 2\ninputs x0 x1\nrails 15\noutput 0 a found 1x2\nx0 x1'\noutput 1 b minimum 1x1\n0\nrefuted\noutput 2 c undecided 2x1 least 1 at 1x1 after 200000\nx0\n1\nrefuted 1x1:1 2x3:2147483647\noutput 3 d mapped 1x2 .o\nx1 x0\noutput 4 e none 2x2 ../.o\nrefuted 2x2:7\noutput 5 f stopped 1x1 c after 3\noutput 63 g norails 3 1023\nend\n";

/// The report that a text spells.
fn spelled(alloc: Global, text: &[u8]) -> Option<Report>
    requires { length text.now ≤ 536870912 }
    ensures { IfSome result (λ report. IsReport (parts_of_report report)) }
{
    match read_report(alloc, text) {
        Ok(report) => Some(report),
        Err(_) => None,
    }
}

#[test]
fn first_version(rt: HostRuntime) -> Result<(), Fail> {
    let report = spelled(rt.alloc(), FIRST).ok_or("the text spells a report")?;
    assert_eq!(rt; report.version, Version::One);
    assert_eq!(rt; report.rails, 1_048_575);
    assert_eq!(rt; report.blocks.len(), 1);
    let mut sink = MemorySink::new(rt.alloc(), 500, 7, Vec::new(rt.alloc()))
        .ok()
        .ok_or("memory")?;
    assert!(rt; write_report(&mut sink, &report).is_ok());
    assert_eq!(rt; sink.bytes(), FIRST);
    Ok(())
}

#[test]
fn second_version(rt: HostRuntime) -> Result<(), Fail> {
    let report = spelled(rt.alloc(), SECOND).ok_or("the text spells a report")?;
    assert_eq!(rt; report.version, Version::Two);
    assert_eq!(rt; report.rails, 15);
    assert_eq!(rt; report.blocks.len(), 7);
    let mut sink = MemorySink::new(rt.alloc(), 500, 7, Vec::new(rt.alloc()))
        .ok()
        .ok_or("memory")?;
    assert!(rt; write_report(&mut sink, &report).is_ok());
    assert_eq!(rt; sink.bytes(), SECOND);
    Ok(())
}

/// What a text is refused for.
fn refusal(rt: &HostRuntime, text: &[u8]) -> Option<ReportRefusal>
    requires { length text.now ≤ 536870912 }
{
    read_report(rt.alloc(), text).err()
}

#[test]
fn refusals(rt: HostRuntime) {
    assert_eq!(rt;
        refusal(&rt, b""),
        Some(ReportRefusal::Truncated { line: 1 })
    );
    assert_eq!(rt;
        refusal(&rt, b"lattice report 3\n"),
        Some(ReportRefusal::Header { line: 1 })
    );
    assert_eq!(rt;
        refusal(&rt, b"lattice report 2\ninputs\n"),
        Some(ReportRefusal::Inputs { line: 2 })
    );
    assert_eq!(rt;
        refusal(&rt, b"lattice report 2\ninputs a\nrails 1048576\n"),
        Some(ReportRefusal::Rails { line: 3 })
    );
    assert_eq!(rt;
        refusal(&rt, b"lattice report 2\ninputs a\nend\n"),
        Some(ReportRefusal::Rails { line: 3 })
    );
    assert_eq!(rt;
        refusal(&rt, b"lattice report 1\ninputs a\nend\n\n"),
        Some(ReportRefusal::Trailing { line: 4 })
    );
    assert_eq!(rt;
        refusal(&rt, b"lattice report 1\ninputs a\nend"),
        Some(ReportRefusal::Truncated { line: 3 })
    );
}

/// The fault of a block's lines.
fn fault(rt: &HostRuntime, text: &[u8], version: Version) -> Option<BlockFault> {
    read_block(rt.alloc(), text, 0, 1, version).err()
}

#[test]
fn forms(rt: HostRuntime) {
    let wrong: [&[u8]; 15] = [
        b"output 64 f found 1x1\n",
        b"output 0 f found 01x1\n",
        b"output 0 f found 1x1 \n",
        b"output 0 f undecided 1x1 least 2 at 1x1 after 0\n",
        b"output 0 f undecided 1x1 least 1 at 1x1 after 200001\n",
        b"output 0 f mapped 1x2 .\n",
        b"output 0 f mapped 1x1 x\n",
        b"output 0 f mapped 17x1 ./././././././././././././././.\n",
        b"output 0 f none 1x1 ./.\n",
        b"output 0 f none 1x1\n",
        b"output 0 f stopped 1x1 . after 200001\n",
        b"output 0 f stopped 1x1 .\n",
        b"output 0 f norails 1024 0\n",
        b"output 0 f norails 0 1024\n",
        b"output 0 f minimal 1x1\n",
    ];
    for text in wrong {
        assert_eq!(rt;
            fault(&rt, text, Version::Two),
            Some(BlockFault::Block { line: 1 })
        );
    }
    assert_eq!(rt;
        fault(&rt, b"output 0 f norails 0 1\n", Version::One),
        Some(BlockFault::Block { line: 1 })
    );
    assert_eq!(rt;
        fault(&rt, b"output 0 f found 1x1\nx10\n", Version::Two),
        Some(BlockFault::Grid { line: 2 })
    );
    assert_eq!(rt;
        fault(&rt, b"output 0 f minimum 1x1\n0\nrefuted \n", Version::Two),
        Some(BlockFault::Proofs { line: 3 })
    );
    assert_eq!(rt;
        fault(&rt, b"output 0 f none 1x1 c\nrefuted 1x1:0\n", Version::Two),
        Some(BlockFault::Proofs { line: 2 })
    );
    assert_eq!(rt;
        fault(&rt, b"output 0 f minimum 1x1\n0\n", Version::Two),
        Some(BlockFault::Truncated { line: 3 })
    );
}

#[test]
fn blocks_and_words(rt: HostRuntime) -> Result<(), Fail> {
    let (block, after) = read_block(rt.alloc(), FIRST, 30, 3, Version::One)
        .ok()
        .ok_or("a block begins there")?;
    assert_eq!(rt; block.output, 0);
    assert_eq!(rt; block.name.bytes(), b"f0".as_slice());
    assert_eq!(rt; after, FIRST.len() - 4);
    assert!(rt; read_shape(b"1048576x1").is_some());
    assert!(rt; read_shape(b"1048577x1").is_none());
    assert!(rt; read_shape(b"2x+1").is_none());
    let shape = Shape::new(2, 2).ok_or("a shape")?;
    let array = read_rows(rt.alloc(), shape, b"../.o").ok().ok_or("memory")?;
    assert!(rt; array.is_some());
    let none = read_rows(rt.alloc(), shape, b"..../").ok().ok_or("memory")?;
    assert!(rt; none.is_none());
    Ok(())
}

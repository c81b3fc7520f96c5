use crate::functions::function;
use area_search::least::search;
use journal_text::writer::JournalWriter;
use lattice_grid::rails::Rails;
use report_text::answer::Answer;
use std::test::*;
use wire_io::firm::FirmSink;

#[test]
fn exclusive_or_without_conflicts(rt: HostRuntime) -> Result<(), Fail> {
    let alloc = rt.alloc();
    let spec = function(2, &[1, 2]).ok_or("a function")?;
    let sink = FirmSink::new(alloc, 4_000, 7).ok().ok_or("memory")?;
    let Ok(writer) = JournalWriter::begin(sink, Rails::all()) else {
        return Err(Fail::from("the sink failed"));
    };
    let mut finders = Vec::new(alloc);
    let Ok((answer, dropped, proofs, writer)) = search(
        alloc,
        0,
        &spec,
        Rails::all(),
        0,
        &mut finders,
        writer,
    ) else {
        return Err(Fail::from("the search stopped"));
    };
    let Answer::Minimum(grid) = &answer else {
        return Err(Fail::from("it is no minimum"));
    };
    assert_eq!(rt; (grid.shape().rows(), grid.shape().cols()), (2, 2));
    assert!(rt; dropped.is_empty());
    let steps = proofs.iter().all(|proof| proof.steps == 1);
    assert!(rt; steps);
    let mut shapes = proofs
        .iter()
        .map(|proof| (proof.shape.rows(), proof.shape.cols()));
    assert_eq!(rt; shapes.next(), Some((1, 2)));
    assert_eq!(rt; shapes.next(), Some((2, 1)));
    assert_eq!(rt; shapes.next(), Some((1, 3)));
    assert_eq!(rt; shapes.next(), Some((3, 1)));
    assert_eq!(rt; shapes.next(), None);
    assert_eq!(rt; writer.steps(), 4);
    Ok(())
}

#[test]
fn odd_parity_of_three_without_conflicts(rt: HostRuntime) -> Result<(), Fail> {
    let alloc = rt.alloc();
    let spec = function(3, &[1, 2, 4, 7]).ok_or("a function")?;
    let sink = FirmSink::new(alloc, 100_000, 4_096).ok().ok_or("memory")?;
    let Ok(writer) = JournalWriter::begin(sink, Rails::all()) else {
        return Err(Fail::from("the sink failed"));
    };
    let mut finders = Vec::new(alloc);
    let Ok((answer, _, _, _)) = search(alloc, 0, &spec, Rails::all(), 0, &mut finders, writer)
    else {
        return Err(Fail::from("the search stopped"));
    };
    let Answer::Undecided {
        grid,
        least,
        at,
        after,
    } = &answer
    else {
        return Err(Fail::from("it is decided"));
    };
    assert_eq!(rt; (grid.shape().rows(), grid.shape().cols()), (4, 4));
    assert_eq!(rt; (*least, *after), (4, 0));
    assert_eq!(rt; (at.rows(), at.cols()), (2, 2));
    Ok(())
}

#[test]
fn literals_that_are_not_allowed(rt: HostRuntime) -> Result<(), Fail> {
    let alloc = rt.alloc();
    let spec = function(2, &[3]).ok_or("a function")?;
    let sink = FirmSink::new(alloc, 4_000, 7).ok().ok_or("memory")?;
    let rails = Rails::new(1).ok_or("rails")?;
    let Ok(writer) = JournalWriter::begin(sink, rails) else {
        return Err(Fail::from("the sink failed"));
    };
    let mut finders = Vec::new(alloc);
    let Ok((answer, _, proofs, writer)) = search(
        alloc,
        0,
        &spec,
        rails,
        20_000,
        &mut finders,
        writer,
    ) else {
        return Err(Fail::from("the search stopped"));
    };
    let Answer::NoRails { on, off } = &answer else {
        return Err(Fail::from("some lattice is right"));
    };
    assert_eq!(rt; (on.number(), off.number()), (3, 1));
    assert!(rt; proofs.is_empty());
    let sink = writer.finish().ok().ok_or("the sink failed")?;
    assert_eq!(rt;
        sink.bytes(),
        b"lattice journal 2\nrails 1\nend\n".as_slice()
    );
    Ok(())
}

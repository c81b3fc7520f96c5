use crate::functions::function;
use journal_text::target::Target;
use journal_text::writer::JournalWriter;
use lattice_grid::array::{Array, Defect};
use lattice_grid::rails::Rails;
use lattice_grid::shape::Shape;
use lattice_question::question::{Asked, Outcome, ask};
use std::test::*;
use wire_io::firm::FirmSink;

#[test]
fn exclusive_or_on_two_switches_side_by_side(rt: HostRuntime) -> Result<(), Fail> {
    let alloc = rt.alloc();
    let spec = function(2, &[1, 2]).ok_or("a function")?;
    let target = Target::Whole(Shape::new(1, 2).ok_or("a shape")?);
    let sink = FirmSink::new(alloc, 4_000, 7).ok().ok_or("memory")?;
    let Ok(writer) = JournalWriter::begin(sink, Rails::all()) else {
        return Err(Fail::from("the sink failed"));
    };
    let Ok(asked) = ask(alloc, 0, &spec, Rails::all(), 0, &target, writer) else {
        return Err(Fail::from("the question stopped"));
    };
    let Asked { outcome, writer } = asked;
    let refuted = matches!(&outcome, Outcome::Refuted(1));
    assert!(rt; refuted);
    assert_eq!(rt; writer.steps(), 1);
    Ok(())
}

#[test]
fn a_conjunction_on_an_array_of_four(rt: HostRuntime) -> Result<(), Fail> {
    let alloc = rt.alloc();
    let spec = function(2, &[3]).ok_or("a function")?;
    let shape = Shape::new(2, 2).ok_or("a shape")?;
    let mut cells = Vec::new(alloc);
    cells.push(Defect::Sound)?;
    cells.push(Defect::StuckOpen)?;
    cells.push(Defect::Sound)?;
    cells.push(Defect::StuckOpen)?;
    let target = Target::Marked(Array::new(shape, cells).ok_or("an array")?);
    let sink = FirmSink::new(alloc, 4_000, 7).ok().ok_or("memory")?;
    let Ok(writer) = JournalWriter::begin(sink, Rails::all()) else {
        return Err(Fail::from("the sink failed"));
    };
    let Ok(asked) = ask(alloc, 0, &spec, Rails::all(), 20_000, &target, writer) else {
        return Err(Fail::from("the question stopped"));
    };
    let Asked { outcome, writer: _ } = asked;
    let Outcome::Satisfied(grid) = &outcome else {
        return Err(Fail::from("nothing was found"));
    };
    assert_eq!(rt; Some(grid.shape()), Shape::new(2, 2));
    Ok(())
}

use cube_core::assign::Assign;
use cube_core::spec::Spec;
use cube_core::table::Table;
use defect_array::place::place;
use defect_array::read::{ArrayRefusal, read_array};
use journal_text::writer::JournalWriter;
use lattice_grid::array::Defect;
use lattice_grid::control::Control;
use lattice_grid::rails::Rails;
use lattice_grid::shape::{Place, Shape};
use report_text::answer::Answer;
use std::test::*;
use wire_io::firm::FirmSink;

/// The function of so many inputs that is 1 at these assignments.
fn function(inputs: u8, ons: &[u16]) -> Option<Spec> {
    let mut on = Table::empty();
    for number in ons {
        on.add(Assign::new(*number)?);
    }
    if inputs < 1 || inputs > 10 {
        return None;
    }
    let off = Table::full(inputs).minus(&on);
    Spec::new(inputs, on, off)
}

#[test]
fn an_array_is_read(rt: HostRuntime) -> Result<(), Fail> {
    let alloc = rt.alloc();
    let text = b"# three switches a row\r\n \t\r\n. o\tc # o\r\n\nc..";
    let Ok(array) = read_array(alloc, text) else {
        return Err(Fail::from("the text is refused"));
    };
    assert_eq!(rt; Some(array.shape()), Shape::new(2, 3));
    let shape = array.shape();
    if shape.rows() == 2 && shape.cols() == 3 {
        assert_eq!(rt; array.at(Place { row: 0, col: 0 }), Defect::Sound);
        assert_eq!(rt; array.at(Place { row: 0, col: 1 }), Defect::StuckOpen);
        assert_eq!(rt; array.at(Place { row: 0, col: 2 }), Defect::StuckClosed);
        assert_eq!(rt; array.at(Place { row: 1, col: 0 }), Defect::StuckClosed);
    }
    Ok(())
}

#[test]
fn texts_are_refused(rt: HostRuntime) -> Result<(), Fail> {
    let alloc = rt.alloc();
    assert_eq!(rt; read_array(alloc, b"").err(), Some(ArrayRefusal::Empty));
    assert_eq!(rt;
        read_array(alloc, b"# ..\n \r\n").err(),
        Some(ArrayRefusal::Empty)
    );
    assert_eq!(rt;
        read_array(alloc, b"..\n.\n").err(),
        Some(ArrayRefusal::Ragged { line: 2 })
    );
    assert_eq!(rt;
        read_array(alloc, b"..\n\n.z.\n").err(),
        Some(ArrayRefusal::Ragged { line: 3 })
    );
    assert_eq!(rt;
        read_array(alloc, b".z\n").err(),
        Some(ArrayRefusal::Byte { line: 1 })
    );
    assert_eq!(rt;
        read_array(alloc, b".................\n").err(),
        Some(ArrayRefusal::TooLarge { line: 1 })
    );
    assert_eq!(rt;
        read_array(
            alloc,
            b"\n.\n.\n.\n.\n.\n.\n.\n.\n.\n.\n.\n.\n.\n.\n.\n.\n\no\n"
        )
        .err(),
        Some(ArrayRefusal::TooLarge { line: 19 })
    );
    Ok(())
}

#[test]
fn exclusive_or_on_four_switches_of_which_one_is_stuck_open(rt: HostRuntime) -> Result<(), Fail> {
    let alloc = rt.alloc();
    let spec = function(2, &[1, 2]).ok_or("a function")?;
    let Ok(array) = read_array(alloc, b"..\n.o\n") else {
        return Err(Fail::from("the text is refused"));
    };
    let sink = FirmSink::new(alloc, 4_000, 7).ok().ok_or("memory")?;
    let Ok(writer) = JournalWriter::begin(sink, Rails::all()) else {
        return Err(Fail::from("the sink failed"));
    };
    let Ok((answer, proofs, _)) = place(alloc, 0, &spec, array, 20_000, writer) else {
        return Err(Fail::from("the placing stopped"));
    };
    let none = matches!(&answer, Answer::NoneMapped { .. });
    assert!(rt; none);
    assert_eq!(rt; proofs.len(), 1);
    let mut shapes = proofs.iter().map(|proof| Some(proof.shape));
    assert_eq!(rt; shapes.next(), Some(Shape::new(2, 2)));
    Ok(())
}

#[test]
fn a_conjunction_beside_a_column_that_is_stuck_open(rt: HostRuntime) -> Result<(), Fail> {
    let alloc = rt.alloc();
    let spec = function(2, &[3]).ok_or("a function")?;
    let Ok(array) = read_array(alloc, b".o\n.o\n") else {
        return Err(Fail::from("the text is refused"));
    };
    let sink = FirmSink::new(alloc, 4_000, 7).ok().ok_or("memory")?;
    let Ok(writer) = JournalWriter::begin(sink, Rails::all()) else {
        return Err(Fail::from("the sink failed"));
    };
    let Ok((answer, proofs, _)) = place(alloc, 0, &spec, array, 20_000, writer) else {
        return Err(Fail::from("the placing stopped"));
    };
    let Answer::Mapped { grid, .. } = &answer else {
        return Err(Fail::from("nothing is mapped"));
    };
    assert!(rt; proofs.is_empty());
    let shape = grid.shape();
    assert_eq!(rt; Some(shape), Shape::new(2, 2));
    if shape.rows() == 2 && shape.cols() == 2 {
        let upper = grid.at(Place { row: 0, col: 0 });
        let lower = grid.at(Place { row: 1, col: 0 });
        let one = upper == Control::Plain(0) && lower == Control::Plain(1);
        let other = upper == Control::Plain(1) && lower == Control::Plain(0);
        assert!(rt; one || other);
    }
    Ok(())
}

#[test]
fn a_conjunction_under_a_switch_that_is_stuck_closed(rt: HostRuntime) -> Result<(), Fail> {
    let alloc = rt.alloc();
    let spec = function(2, &[3]).ok_or("a function")?;
    let Ok(array) = read_array(alloc, b"c\n.\n") else {
        return Err(Fail::from("the text is refused"));
    };
    let sink = FirmSink::new(alloc, 4_000, 7).ok().ok_or("memory")?;
    let Ok(writer) = JournalWriter::begin(sink, Rails::all()) else {
        return Err(Fail::from("the sink failed"));
    };
    let Ok((answer, _, _)) = place(alloc, 0, &spec, array, 20_000, writer) else {
        return Err(Fail::from("the placing stopped"));
    };
    let none = matches!(&answer, Answer::NoneMapped { .. });
    assert!(rt; none);
    Ok(())
}

#[test]
fn odd_parity_of_three_on_four_sound_switches_without_conflicts(
    rt: HostRuntime,
) -> Result<(), Fail> {
    let alloc = rt.alloc();
    let spec = function(3, &[1, 2, 4, 7]).ok_or("a function")?;
    let Ok(array) = read_array(alloc, b"..\n..\n") else {
        return Err(Fail::from("the text is refused"));
    };
    let sink = FirmSink::new(alloc, 100_000, 4_096).ok().ok_or("memory")?;
    let Ok(writer) = JournalWriter::begin(sink, Rails::all()) else {
        return Err(Fail::from("the sink failed"));
    };
    let Ok((answer, proofs, writer)) = place(alloc, 0, &spec, array, 0, writer) else {
        return Err(Fail::from("the placing stopped"));
    };
    let stopped = matches!(&answer, Answer::MapUndecided { after: 0, .. });
    assert!(rt; stopped);
    assert!(rt; proofs.is_empty());
    let sink = writer.into_sink();
    assert_eq!(rt;
        sink.bytes(),
        b"lattice journal 2\nrails 1048575\nquestion 0 2x2 ../..\nspent 0\n".as_slice()
    );
    Ok(())
}

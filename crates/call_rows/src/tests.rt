use clause_core::formula::Formula;
use clause_core::lit::Lit;
use cover_make::cover::{cover, off_cover};
use cube_core::assign::Assign;
use cube_core::cube::Cube;
use cube_core::spec::Spec;
use cube_core::table::Table;
use dual_product::dual::dual_product;
use lattice_grid::control::Control;
use lattice_grid::shape::Shape;
use pla_reader::pla::{PlaRefusal, read_pla};
use std::test::*;

/// The assignments with these numbers.
fn table_of(numbers: &[u16]) -> Option<Table> {
    let mut table = Table::empty();
    for number in numbers {
        table.add(Assign::new(*number)?);
    }
    Some(table)
}

#[test]
fn a_pla_is_read(rt: HostRuntime) -> Result<(), Fail> {
    let alloc = rt.alloc();
    let text = b".i 2\n.o 2\n.ilb a b\n.ob f g\n1- 10\n11 01\n.e\nrest";
    let Ok(pla) = read_pla(alloc, text) else {
        return Err(Fail::from("a PLA was refused"));
    };
    assert_eq!(rt; pla.inputs, 2);
    assert_eq!(rt; pla.outputs, 2);
    assert_eq!(rt; pla.rest, 42);
    assert_eq!(rt; pla.specs[0].on().count(), 2);
    assert_eq!(rt; pla.specs[0].off().count(), 2);
    assert_eq!(rt; pla.specs[1].on().count(), 1);
    assert_eq!(rt; pla.specs[1].off().count(), 3);
    let name = pla.output_names.as_slice()[1].copy(alloc)?;
    assert_eq!(rt; name.bytes(), b"g".as_slice());
    Ok(())
}

#[test]
fn a_pla_is_refused(rt: HostRuntime) -> Result<(), Fail> {
    let refusal = read_pla(rt.alloc(), b".i 2\n.o 1\n1- 1 1\n.e\n").err();
    assert_eq!(rt; refusal, Some(PlaRefusal::RowLength { line: 3 }));
    Ok(())
}

#[test]
fn covers_of_a_majority(rt: HostRuntime) -> Result<(), Fail> {
    let alloc = rt.alloc();
    let on = table_of(&[3, 5, 6, 7]).ok_or("a table")?;
    if !on.is_below(3) {
        return Err(Fail::from("an assignment of more inputs"));
    }
    let first = cover(alloc, 3, &on, &on)?;
    assert_eq!(rt; first.cubes().len(), 3);
    assert!(rt;
        first
            .cubes()
            .iter()
            .all(|cube| cube.care().count_ones() == 2)
    );
    let off = off_cover(alloc, &first)?;
    assert_eq!(rt; off.inputs(), 3);
    assert_eq!(rt; off.cubes().len(), 3);
    let none = Cube::new(3, 0).ok_or("a cube")?;
    assert!(rt; off.cubes().contains(&none));
    Ok(())
}

#[test]
fn the_dual_product_of_a_conjunction(rt: HostRuntime) -> Result<(), Fail> {
    let on = table_of(&[3]).ok_or("a table")?;
    let off = on.complement(2);
    let spec = Spec::new(2, on, off).ok_or("a function")?;
    let grid = dual_product(rt.alloc(), &spec)?;
    assert_eq!(rt; grid.shape(), Shape::new(2, 1).ok_or("a shape")?);
    let column = [grid.row(0)[0], grid.row(1)[0]];
    assert!(rt; column.contains(&Control::Plain(0)));
    assert!(rt; column.contains(&Control::Plain(1)));
    Ok(())
}

#[test]
fn clauses_are_added(rt: HostRuntime) -> Result<(), Fail> {
    let mut formula = Formula::new(rt.alloc(), 2);
    let (first, second) = (Lit::new(1, false), Lit::new(2, true));
    formula.push(&[first, second])?;
    formula.push(&[])?;
    assert_eq!(rt; formula.count(), 2);
    assert_eq!(rt; formula.clause(0).len(), 2);
    assert!(rt; formula.clause(0)[1].is(second));
    assert_eq!(rt; formula.clause(1).len(), 0);
    Ok(())
}

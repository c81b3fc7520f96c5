//! The sets of assignments that rows name, and the functions that they make.
ghost use Rattle.std.specs.Prelude.{◌≡◌, ℕ, ◌+◌, ◌≤◌, ◌<◌, ◌^◌, length, All, IfOk, IfErr, ◌≢◌, List, if◌then◌else◌};
ghost use Rattle.std.specs.FinSet as set;
ghost use Rattle.pla_reader.specs.Sets.{marks_on, marks_off, marks_free, off_of};
ghost use Rattle.pla_reader.specs.Marking.{sets_after, Adds, AreSets, AreFunctions, AreBelow, IsClash, are_empty};

use crate::kind::Kind;
use crate::pla::PlaRefusal;
use crate::row::cube_of;
use cube_core::spec::Spec;
use cube_core::table::Table;
use std::alloc::Global;
use wire_io::fault::NoMemory;

/// The assignments that rows name on, off and don't-care for an output.
#[derive(Drop)]
pub struct Marked {
    pub on: Table,
    pub off: Table,
    pub free: Table,
}

/// Whether a digit names assignments on.
fn names_on(mark: u8) -> bool
    ensures { result ≡ marks_on mark }
{
    mark == b'1' || mark == b'4'
}

/// Whether a digit names assignments off.
fn names_off(kind: Kind, mark: u8) -> bool
    ensures { result ≡ marks_off kind mark }
{
    match kind {
        Kind::F | Kind::Fd => false,
        Kind::Fr | Kind::Fdr => mark == b'0',
    }
}

/// Whether a digit names assignments don't-care.
fn names_free(kind: Kind, mark: u8) -> bool
    ensures { result ≡ marks_free kind mark }
{
    match kind {
        Kind::F | Kind::Fr => false,
        Kind::Fd | Kind::Fdr => mark == b'-' || mark == b'2',
    }
}

/// Adds the assignments to a set, if they are wanted there.
fn add_if(table: &mut Table, covered: &Table, wanted: bool)
    ensures { table.new ≡ (if wanted then set.union table.old covered.now else table.old) }
{
    if wanted {
        *table = table.or(covered);
    }
}

/// Adds what a row covers to the set that its digit for the output names.
fn add_marked(marked: &mut Marked, covered: &Table, kind: Kind, mark: u8)
    ensures { marked.new ≡ sets_after kind mark covered.now marked.old }
{
    add_if(&mut marked.on, covered, names_on(mark));
    add_if(&mut marked.off, covered, names_off(kind, mark));
    add_if(&mut marked.free, covered, names_free(kind, mark));
}

/// So many outputs whose sets are empty.
pub fn empty_sets(alloc: Global, many: u8) -> Result<Vec<Marked>, NoMemory>
    ensures many { IfOk result (λ sets. length sets.items ≡ many) }
    ensures empty { IfOk result (λ sets. All are_empty sets.items) }
{
    let mut sets = Vec::new(alloc);
    for _made in 0..many {
        sets.push(Marked {
            on: Table::empty(),
            off: Table::empty(),
            free: Table::empty(),
        })?;
    }
    Ok(sets)
}

/// Adds what a row covers to the sets that its digits name: those of so many inputs first, and then one for each output.
pub fn add_row(sets: &mut [Marked], kind: Kind, inputs: u8, digits: &[u8])
    requires few { inputs ≤ 10 }
    requires digits { length digits.now ≡ inputs + length sets.old }
    ensures { Adds kind inputs digits.now sets.old sets.new }
{
    let (ours, marks) = digits.split_at(inputs as usize);
    let covered = Table::of_cube(inputs, &cube_of(ours));
    for output in 0..sets.len() {
        add_marked(&mut sets[output], &covered, kind, marks[output]);
    }
}

/// The assignments at which the function is 0.
fn off_set(kind: Kind, inputs: u8, sets: &Marked) -> Table
    requires { inputs ≤ 10 }
    ensures { result ≡ off_of kind inputs sets.now }
{
    match kind {
        Kind::F => sets.on.complement(inputs),
        Kind::Fd => sets.on.or(&sets.free).complement(inputs),
        Kind::Fr => sets.off.copy(),
        Kind::Fdr => sets.off.minus(&sets.free),
    }
}

/// The functions of all outputs, in order. The refusal is the conflict of the least output that has one.
pub fn functions(
    alloc: Global,
    sets: &[Marked],
    kind: Kind,
    inputs: u8,
) -> Result<Vec<Spec>, PlaRefusal>
    requires some_inputs { 1 ≤ inputs }
    requires few_inputs { inputs ≤ 10 }
    requires few_outputs { length sets.now ≤ 64 }
    requires below { All (AreBelow inputs) sets.now }
    ensures found { IfOk result (λ specs. (rows : List (List ℕ)) → AreSets kind inputs (length sets.now) rows sets.now →
        AreFunctions kind inputs (length sets.now) rows specs.items) }
    ensures clash { IfErr result (λ refusal. refusal ≢ PlaRefusal.NoMemory → (rows : List (List ℕ)) →
        AreSets kind inputs (length sets.now) rows sets.now → IsClash kind inputs (length sets.now) rows refusal) }
{
    let mut specs = Vec::new(alloc);
    for output in 0..sets.len() {
        let marked = &sets[output];
        if let Some(assign) = marked.on.and(&marked.off).first() {
            return Err(PlaRefusal::Conflict {
                output: output as u8,
                assign,
            });
        }
        let on = marked.on.minus(&marked.free);
        let off = off_set(kind, inputs, marked);
        specs.push(Spec::new(inputs, on, off).unwrap())?;
    }
    Ok(specs)
}

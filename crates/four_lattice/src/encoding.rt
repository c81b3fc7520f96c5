//! The command `cnf`.
ghost use Rattle.std.specs.Prelude.{◌≡◌, ◌⊎◌, ℕ, ◌≤◌, ◌*◌, OnOk, IfErr, IfSome};
ghost use Rattle.clause_core.specs.Cnf.{cnf_text};
ghost use Rattle.reach_encoding.specs.Encoding.{encoding};
ghost use Rattle.wire_io.specs.Told.{Gains, GainsFront};
ghost use Rattle.four_lattice.specs.Devices.{change};
ghost use Rattle.four_lattice.specs.Judge.{EncodingComes, IsGranted};
ghost use Rattle.four_lattice.specs.Lattices.{IsWriteCause};
ghost use Rattle.four_lattice.specs.Run.{FinishesQuiet};
ghost use Rattle.four_lattice.specs.Uses.{pla_alone, most_pla_bytes};
ghost use Rattle.four_lattice.specs.Work.{question_of};

use crate::ending::{Ending, InputRefusal, Refusal};
use crate::inputs::input_pla;
use crate::lattices::WorkFault;
use clause_core::write::write_cnf;
use cube_core::spec::Spec;
use lattice_grid::rails::Rails;
use lattice_grid::shape::Shape;
use reach_encoding::encode::encode;
use std::alloc::Global;
use wire_io::sink::Sink;
use wire_io::source::Source;

/// Writes the formula of a shape for a function.
fn write_encoding<K: Sink>(
    alloc: Global,
    out: &mut K,
    spec: &Spec,
    shape: Shape,
) -> Result<(), WorkFault>
    requires { shape.rows * shape.cols ≤ 32768 }
    ensures ok { OnOk result (Gains (K.got out.old) (K.got out.new) (cnf_text (encoding (question_of shape spec.now)))) }
    ensures front { GainsFront (K.got out.old) (K.got out.new) (cnf_text (encoding (question_of shape spec.now))) }
    ensures later { K.faults out.old ≤ K.faults out.new }
    ensures cause { IfErr result (IsWriteCause (K.faults out.old) (K.faults out.new)) }
{
    let formula = encode(alloc, spec, Rails::all(), shape, None)?;
    write_cnf(&formula, out)?;
    Ok(())
}

/// How the command `cnf` ends.
pub(crate) fn end_of_cnf<S: Source, K: Sink>(
    alloc: Global,
    output: u32,
    shape: Shape,
    pla: &mut S,
    side: &mut S,
    out: &mut K,
) -> Ending
    requires { shape.rows * shape.cols ≤ 32768 }
    ensures finishes { FinishesQuiet (EncodingComes IfSome output shape) pla_alone most_pla_bytes result
        (change (S.left pla.old) (S.faults pla.old) (S.left pla.new) (S.faults pla.new))
        (change (S.left side.old) (S.faults side.old) (S.left side.new) (S.faults side.new))
        (change (K.got out.old) (K.faults out.old) (K.got out.new) (K.faults out.new)) }
    ensures side_same { side.new ≡ side.old }
    ensures out_last { (out.new ≡ out.old) ⊎ IsGranted (EncodingComes IfSome output shape (record { pla = S.left pla.old; side = S.left side.old })) }
{
    let _ = &side;
    let text = match input_pla(alloc, pla) {
        Ok(text) => text,
        Err(ending) => return ending,
    };
    let Some(spec) = text.specs.get(output as usize) else {
        return Ending::Refused(Refusal::Input(InputRefusal::NoSuchOutput));
    };
    match write_encoding(alloc, out, spec, shape) {
        Ok(()) => Ending::Done,
        Err(fault) => fault.ending(),
    }
}

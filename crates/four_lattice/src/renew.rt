//! The command `renew`.
ghost use Rattle.std.specs.Prelude.{◌⊎◌, ◌≡◌, IfSome};
ghost use Rattle.pla_reader.specs.Parts.{Parts};
ghost use Rattle.four_lattice.specs.Devices.{change};
ghost use Rattle.four_lattice.specs.Judge.{PlaGives, RenewComes, IsGranted};
ghost use Rattle.four_lattice.specs.Run.{FinishesQuiet};
ghost use Rattle.four_lattice.specs.Uses.{pla_and_side, most_pla_bytes};

use crate::audit::confirm;
use crate::ending::Ending;
use crate::inputs::{input_journal, input_pla};
use audit_core::renew::renewed;
use journal_text::write::write_journal;
use std::alloc::Global;
use wire_io::fault::{Failed, NoMemory};
use wire_io::sink::Sink;
use wire_io::source::Source;

/// How the command `renew` ends.
pub(crate) fn end_of_renew<S: Source, K: Sink>(
    alloc: Global,
    pla: &mut S,
    side: &mut S,
    out: &mut K,
) -> Ending
    ensures finishes { FinishesQuiet (RenewComes IfSome) pla_and_side most_pla_bytes result
        (change (S.left pla.old) (S.faults pla.old) (S.left pla.new) (S.faults pla.new))
        (change (S.left side.old) (S.faults side.old) (S.left side.new) (S.faults side.new))
        (change (K.got out.old) (K.faults out.old) (K.got out.new) (K.faults out.new)) }
    ensures side_last { (side.new ≡ side.old) ⊎ ((parts : Parts) × PlaGives IfSome (record { pla = S.left pla.old; side = S.left side.old }) parts) }
    ensures out_last { (out.new ≡ out.old) ⊎ IsGranted (RenewComes IfSome (record { pla = S.left pla.old; side = S.left side.old })) }
{
    let text = match input_pla(alloc, pla) {
        Ok(text) => text,
        Err(ending) => return ending,
    };
    let journal = match input_journal(alloc, side) {
        Ok(journal) => journal,
        Err(ending) => return ending,
    };
    match confirm(alloc, &text, &journal) {
        Ok(_) => {}
        Err(ending) => return ending,
    }
    let made = match renewed(alloc, journal) {
        Ok(made) => made,
        Err(NoMemory) => return Ending::NoMemory,
    };
    match write_journal(&made, out) {
        Ok(()) => Ending::Done,
        Err(Failed) => Ending::WriteFault,
    }
}

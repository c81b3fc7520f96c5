//! The audit of the text of a journal, part by part as it is read.
ghost use Rattle.std.specs.Prelude.{◌≡◌, ◌≢◌, ℕ, ◌+◌, ◌<◌, ◌≤◌, ◌^◌, List, [], ◌∷◌, ◌++◌, length, IfOk, IfErr, OnOk, vec_len};
ghost use Rattle.pla_reader.specs.Parts.{parts_of, IsPla};
ghost use Rattle.journal_text.specs.Bounds.{IsPart};
ghost use Rattle.journal_text.specs.Parts.{Part as Told, part_of};
ghost use Rattle.audit_core.specs.Audit.{IsKindRefused};
ghost use Rattle.audit_core.specs.Seen.{IsSeen};
ghost use Rattle.audit_core.specs.Streamed.{IsTextConfirmed, IsTextRefused, StopsBehind};
ghost use Rattle.audit_core.specs.Tested.{basis_in};
ghost use Rattle.audit_core.specs.declared.refusal.AuditRefusal.{AuditRefusal};

use crate::answer::Basis;
use crate::audit::Confirmed;
use crate::part::Seen;
use crate::refusal::{AuditRefusal, TextRefusal};
use journal_text::journal::Part;
use journal_text::reader::Reader;
use lattice_grid::rails::Rails;
use pla_reader::pla::Pla;
use std::alloc::Global;

/// Tests the part that follows some parts, and lets its steps go.
fn pass(seen: &mut Seen, alloc: Global, basis: &Basis<'_>, part: Part) -> Result<(), AuditRefusal>
    requires pla { IsPla (parts_of basis.now.pla.now) }
    requires bounds { IsPart basis.now.version (part_of part) }
    requires lists { vec_len seen.old.refuted ≡ basis.now.pla.now.outputs }
    requires few { seen.old.many + 1 < 2 ^ 32 }
    ensures ok { OnOk result ((before : List Told) → IsSeen (basis_in basis.now) before seen.old → IsSeen (basis_in basis.now) (before ++ part_of part ∷ []) seen.new) }
    ensures refused { IfErr result (λ refusal. refusal ≢ AuditRefusal.NoMemory → (before : List Told) → IsSeen (basis_in basis.now) before seen.old → IsKindRefused (basis_in basis.now) before part.line part.what refusal) }
{
    seen.take(alloc, basis, &part)
}

/// Why a text is refused of which a part is not right: where what follows is not as in a journal, for that.
fn refused_behind(alloc: Global, reader: &Reader<'_>, refusal: AuditRefusal) -> TextRefusal
    requires { reader.now.line + length reader.now.rest.now ≤ 536870913 }
    ensures { StopsBehind reader.now refusal result }
{
    match reader.finish(alloc) {
        Ok(()) => TextRefusal::Audit(refusal),
        Err(fault) => TextRefusal::Form(fault),
    }
}

/// The answers of the journal that a text is, in order, where it is right for a PLA; or why it is not: it is no journal,
/// or a part of it is not right. Each section is replayed as it is read, and its steps are not kept.
pub fn audit_text(alloc: Global, pla: &Pla, text: &[u8]) -> Result<Vec<Confirmed>, TextRefusal>
    requires pla { IsPla (parts_of pla.now) }
    requires few { length text.now ≤ 536870912 }
    ensures confirmed { IfOk result (λ found. IsTextConfirmed (parts_of pla.now) text.now found.items) }
    ensures refused { IfErr result (IsTextRefused (parts_of pla.now) text.now) }
{
    let mut reader = match Reader::new(text) {
        Ok(reader) => reader,
        Err(refusal) => return Err(TextRefusal::Form(refusal)),
    };
    let rails = Rails::new(reader.rails).unwrap();
    let basis = Basis {
        pla,
        version: reader.version,
        rails,
    };
    let mut seen = match Seen::new(alloc, pla.specs.len()) {
        Ok(seen) => seen,
        Err(_) => return Err(TextRefusal::Audit(AuditRefusal::NoMemory)),
    };
    loop {
        let ahead = match reader.next(alloc) {
            Ok(ahead) => ahead,
            Err(refusal) => return Err(TextRefusal::Form(refusal)),
        };
        let Some(part) = ahead else {
            return Ok(seen.confirmed);
        };
        if let Err(refusal) = pass(&mut seen, alloc, &basis, part) {
            return Err(refused_behind(alloc, &reader, refusal));
        }
    }
}

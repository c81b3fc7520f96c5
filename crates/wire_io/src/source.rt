//! Where bytes come from.
ghost use Rattle.std.specs.Prelude.{◌≡◌, ℕ, ◌+◌, ◌≤◌, ◌<◌, List, [], length, take, IfOk, OnOk, OnErr, IfErr, Option, vec_len};
ghost use Rattle.wire_io.specs.Causes.{HasCause, IsReadRefusal};
ghost use Rattle.wire_io.specs.Told.{Loses, IsSpent};

use crate::fault::{Failed, ReadFault};
use std::alloc::Global;

/// A device that bytes are taken from.
pub trait Source {
    /// The bytes not yet taken, where the source tells them.
    ghost left: { Self → Option (List ℕ) };

    /// How often a call failed, up to the greatest `u64`.
    ghost faults: { Self → ℕ };

    /// Moves some bytes into the front of `buf`, and says how many: none exactly at the end.
    fn read(&mut self, buf: &mut [u8]) -> Result<usize, Failed>
        requires { 0 < length buf.old }
        ensures bound { IfOk result (λ count. count ≤ length buf.new) }
        ensures taken { IfOk result (λ count. Loses (left self.old) (left self.new) (take count buf.new)) }
        ensures end { IfOk result (λ count. count ≡ 0 → IsSpent (left self.new)) }
        ensures kept { OnErr result (left self.new ≡ left self.old) }
        ensures cause { HasCause (faults self.old) (faults self.new) result };
}

/// How many bytes are asked of a source at once.
const PIECE: usize = 16_384;

/// All the bytes that are left, of which there may be `limit`. A refusal says how many were taken:
/// one more than the limit exactly where there are too many.
pub fn read_all<S: Source>(
    alloc: Global,
    source: &mut S,
    limit: usize,
) -> Result<Vec<u8>, ReadFault>
    requires { limit ≤ 536870912 }
    ensures all { IfOk result (λ bytes. Loses (S.left source.old) (S.left source.new) bytes.items) }
    ensures end { OnOk result (IsSpent (S.left source.new)) }
    ensures within { IfOk result (λ bytes. vec_len bytes ≤ limit) }
    ensures refused { IfErr result (IsReadRefusal limit
        (record { told = S.left source.old; faults = S.faults source.old })
        (record { told = S.left source.new; faults = S.faults source.new })) }
    ensures later { S.faults source.old ≤ S.faults source.new }
    ensures still { OnOk result (S.faults source.new ≡ S.faults source.old) }
{
    let mut bytes = Vec::new(alloc);
    let mut buf = [0u8; PIECE];
    loop {
        let room = (limit - bytes.len() + 1).min(PIECE);
        let count = match source.read(&mut buf[..room]) {
            Ok(count) => count,
            Err(Failed) => return Err(ReadFault::Fault),
        };
        if count == 0 {
            return Ok(bytes);
        }
        if count > limit - bytes.len() {
            return Err(ReadFault::TooLong);
        }
        if bytes.extend_from_slice(&buf[..count]).is_err() {
            return Err(ReadFault::NoMemory);
        }
    }
}

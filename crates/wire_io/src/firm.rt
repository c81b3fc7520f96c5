//! A source and a sink in memory that never fail.
ghost use Rattle.std.specs.Prelude.{◌≡◌, ℕ, ◌+◌, ◌-◌, ◌^◌, ◌<◌, ◌≤◌, List, [], ◌++◌, length, drop, take, min, IfOk, IfSome, IsOk, OnErr, Some, None, vec_len, vec_capacity};

use crate::fault::{Failed, NoMemory};
use crate::sink::Sink;
use crate::source::Source;
use std::alloc::Global;

/// A source over bytes in memory that gives at most `step` of them at a time.
#[derive(Drop)]
pub struct FirmSource {
    bytes: Vec<u8>,
    taken: usize,
    step: usize,
    ghost within: { taken ≤ length bytes.items },
    ghost moves: { 0 < step },
}

impl FirmSource {
    ghost use Rattle.wire_io.specs.Firm.{left_of, source_step};

    /// A source of these bytes that gives at most `step` of them per call.
    pub fn new(bytes: Vec<u8>, step: usize) -> FirmSource
        requires { 0 < step }
        ensures bytes { left_of result ≡ bytes.items }
        ensures step { source_step result ≡ step }
    {
        FirmSource {
            bytes,
            taken: 0,
            step,
        }
    }
}

impl Source for FirmSource {
    ghost use Rattle.wire_io.specs.Causes.{HasCause};
    ghost use Rattle.wire_io.specs.Firm.{left_of, source_step};
    ghost use Rattle.wire_io.specs.Told.{Loses, IsSpent};

    ghost left = { λ source. Some (left_of source) };

    ghost faults = { λ _. 0 };

    fn read(&mut self, buf: &mut [u8]) -> Result<usize, Failed>
        requires { 0 < length buf.old }
        ensures bound { IfOk result (λ count. count ≤ length buf.new) }
        ensures taken { IfOk result (λ count. Loses (Some (left_of self.old)) (Some (left_of self.new)) (take count buf.new)) }
        ensures end { IfOk result (λ count. count ≡ 0 → IsSpent (Some (left_of self.new))) }
        ensures kept { OnErr result (Some (left_of self.new) ≡ Some (left_of self.old)) }
        ensures cause { HasCause 0 0 result }
        // It never fails, and gives as many bytes as the step, the buffer and what is left allow.
        ensures ok { IsOk result }
        ensures many { IfOk result (λ count. count ≡ min (min (length (left_of self.old)) (source_step self.old)) (length buf.new)) }
        ensures step { source_step self.new ≡ source_step self.old }
    {
        let left = self.bytes.len() - self.taken;
        let count = left.min(self.step).min(buf.len());
        let end = self.taken + count;
        buf[..count].copy_from_slice(&self.bytes[self.taken..end]);
        self.taken = end;
        Ok(count)
    }
}

/// A sink in memory that keeps the first `room` bytes, counts all, and takes at most `step` of them at a time.
#[derive(Drop)]
pub struct FirmSink {
    kept: Vec<u8>,
    room: usize,
    step: usize,
    total: u64,
    ghost fits: { room ≤ vec_capacity kept },
    ghost within: { vec_len kept ≤ room },
    ghost counted: { vec_len kept ≤ total },
    ghost full: { vec_len kept < total → vec_len kept ≡ room },
    ghost moves: { 0 < step },
}

impl FirmSink {
    ghost use Rattle.wire_io.specs.Firm.{got_of, kept_of, total_of, room_of, sink_step};

    /// A sink with room for so many bytes, taken here, that takes at most `step` of them per call.
    pub fn new(alloc: Global, room: usize, step: usize) -> Result<FirmSink, NoMemory>
        requires { 0 < step }
        ensures empty { IfOk result (λ sink. got_of sink ≡ Some []) }
        ensures room { IfOk result (λ sink. room_of sink ≡ room) }
        ensures step { IfOk result (λ sink. sink_step sink ≡ step) }
        ensures total { IfOk result (λ sink. total_of sink ≡ 0) }
    {
        Ok(FirmSink {
            kept: Vec::with_capacity(alloc, room)?,
            room,
            step,
            total: 0,
        })
    }

    /// What was kept: all that came, where there was room for it.
    pub fn bytes(&self) -> &[u8]
        ensures kept { result.now ≡ kept_of self.now }
        ensures got { IfSome (got_of self.now) (λ bytes. result.now ≡ bytes) }
    {
        &self.kept
    }

    /// How many bytes came, up to the greatest `u64`.
    pub fn total(&self) -> u64
        ensures { result ≡ total_of self.now }
    {
        self.total
    }
}

impl Sink for FirmSink {
    ghost use Rattle.wire_io.specs.Causes.{HasCause};
    ghost use Rattle.wire_io.specs.Firm.{got_of, sink_step, Keeps};
    ghost use Rattle.wire_io.specs.Told.{Gains};

    ghost got = { got_of };

    ghost faults = { λ _. 0 };

    fn write(&mut self, piece: &[u8]) -> Result<usize, Failed>
        requires { 0 < length piece.now }
        ensures some { IfOk result (λ count. 0 < count) }
        ensures bound { IfOk result (λ count. count ≤ length piece.now) }
        ensures gained { IfOk result (λ count. Gains (got_of self.old) (got_of self.new) (take count piece.now)) }
        ensures kept { OnErr result (got_of self.new ≡ got_of self.old) }
        ensures cause { HasCause 0 0 result }
        // It never fails, takes as many bytes as the step allows, keeps those that it has room for, and counts all.
        ensures ok { IsOk result }
        ensures many { IfOk result (λ count. count ≡ min (length piece.now) (sink_step self.old)) }
        ensures keeps { IfOk result (λ count. Keeps self.old self.new (take count piece.now)) }
    {
        let count = piece.len().min(self.step);
        let keep = count.min(self.room - self.kept.len());
        self.kept.extend_from_slice(&piece[..keep]).unwrap();
        self.total = self.total.saturating_add(count as u64);
        Ok(count)
    }
}

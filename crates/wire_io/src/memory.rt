//! A source and a sink in memory that fail when they are told to.
ghost use Rattle.std.specs.Prelude.{◌≡◌, ℕ, ◌+◌, ◌-◌, ◌^◌, ◌<◌, ◌≤◌, ◌⊎◌, ◌↔◌, [], List, length, take, min, Contains, IfOk, OnErr, IsErr, IsTrue, Some, vec_len, vec_capacity};

use crate::fault::{Failed, NoMemory};
use crate::firm::FirmSource;
use crate::sink::Sink;
use crate::source::Source;
use std::alloc::Global;

/// Whether the call of this number is to fail.
fn is_listed(fails: &[u64], call: u64) -> bool
    ensures { IsTrue result ↔ Contains fails.now call }
{
    fails.contains(&call)
}

/// A source over bytes in memory, of which the calls with certain numbers, from 1 on, fail.
#[derive(Drop)]
pub struct MemorySource {
    inner: FirmSource,
    fails: Vec<u64>,
    calls: u64,
    faults: u64,
}

impl MemorySource {
    ghost use Rattle.wire_io.specs.Memory.{left_of, source_step, source_calls, source_fails};

    /// A source that gives at most `step` bytes per call; the calls whose numbers are in `fails` fail and take nothing.
    pub fn new(bytes: Vec<u8>, step: usize, fails: Vec<u64>) -> MemorySource
        requires { 0 < step }
        ensures bytes { left_of result ≡ bytes.items }
        ensures step { source_step result ≡ step }
        ensures fails { source_fails result ≡ fails.items }
        ensures calls { source_calls result ≡ 0 }
        ensures faults { result.faults ≡ 0 }
    {
        MemorySource {
            inner: FirmSource::new(bytes, step),
            fails,
            calls: 0,
            faults: 0,
        }
    }
}

impl Source for MemorySource {
    ghost use Rattle.wire_io.specs.Causes.{HasCause};
    ghost use Rattle.wire_io.specs.Memory.{left_of, source_step, source_calls, source_fails, CountsRead};
    ghost use Rattle.wire_io.specs.Told.{Loses, IsSpent};

    ghost left = { λ source. Some (left_of source) };

    ghost faults = { λ source. source.faults };

    fn read(&mut self, buf: &mut [u8]) -> Result<usize, Failed>
        requires { 0 < length buf.old }
        ensures bound { IfOk result (λ count. count ≤ length buf.new) }
        ensures taken { IfOk result (λ count. Loses (Some (left_of self.old)) (Some (left_of self.new)) (take count buf.new)) }
        ensures end { IfOk result (λ count. count ≡ 0 → IsSpent (Some (left_of self.new))) }
        ensures kept { OnErr result (Some (left_of self.new) ≡ Some (left_of self.old)) }
        ensures cause { HasCause self.old.faults self.new.faults result }
        // It fails exactly where its number is listed, and else gives as many bytes as the step, the buffer and what is left allow.
        ensures fails { IsErr result ↔ Contains (source_fails self.old) (source_calls self.new) }
        ensures many { IfOk result (λ count. count ≡ min (min (length (left_of self.old)) (source_step self.old)) (length buf.new)) }
        ensures counts { CountsRead self.old self.new }
        ensures raised { OnErr result (self.new.faults ≡ min (self.old.faults + 1) (2 ^ 64 - 1)) }
    {
        self.calls = self.calls.saturating_add(1);
        if is_listed(&self.fails, self.calls) {
            self.faults = self.faults.saturating_add(1);
            return Err(Failed);
        }
        self.inner.read(buf)
    }
}

/// A sink in memory, of which the calls with certain numbers, from 1 on, fail, and each call when it is full.
#[derive(Drop)]
pub struct MemorySink {
    kept: Vec<u8>,
    room: usize,
    step: usize,
    fails: Vec<u64>,
    calls: u64,
    faults: u64,
    ghost fits: { room ≤ vec_capacity kept },
    ghost within: { vec_len kept ≤ room },
    ghost moves: { 0 < step },
}

impl MemorySink {
    ghost use Rattle.wire_io.specs.Memory.{got_of, room_of, sink_step, sink_calls, sink_fails};

    /// A sink with room for so many bytes, taken here, that takes at most `step` of them per call.
    pub fn new(
        alloc: Global,
        room: usize,
        step: usize,
        fails: Vec<u64>,
    ) -> Result<MemorySink, NoMemory>
        requires { 0 < step }
        ensures empty { IfOk result (λ sink. got_of sink ≡ []) }
        ensures room { IfOk result (λ sink. room_of sink ≡ room) }
        ensures step { IfOk result (λ sink. sink_step sink ≡ step) }
        ensures fails { IfOk result (λ sink. sink_fails sink ≡ fails.items) }
        ensures calls { IfOk result (λ sink. sink_calls sink ≡ 0) }
        ensures faults { IfOk result (λ sink. sink.faults ≡ 0) }
    {
        Ok(MemorySink {
            kept: Vec::with_capacity(alloc, room)?,
            room,
            step,
            fails,
            calls: 0,
            faults: 0,
        })
    }

    /// The bytes that the sink got.
    pub fn bytes(&self) -> &[u8]
        ensures { result.now ≡ got_of self.now }
    {
        &self.kept
    }
}

impl Sink for MemorySink {
    ghost use Rattle.wire_io.specs.Causes.{HasCause};
    ghost use Rattle.wire_io.specs.Memory.{got_of, room_of, sink_step, sink_calls, sink_fails, CountsWrite};
    ghost use Rattle.wire_io.specs.Told.{Gains};

    ghost got = { λ sink. Some (got_of sink) };

    ghost faults = { λ sink. sink.faults };

    fn write(&mut self, piece: &[u8]) -> Result<usize, Failed>
        requires { 0 < length piece.now }
        ensures some { IfOk result (λ count. 0 < count) }
        ensures bound { IfOk result (λ count. count ≤ length piece.now) }
        ensures gained { IfOk result (λ count. Gains (Some (got_of self.old)) (Some (got_of self.new)) (take count piece.now)) }
        ensures kept { OnErr result (Some (got_of self.new) ≡ Some (got_of self.old)) }
        ensures cause { HasCause self.old.faults self.new.faults result }
        // It fails exactly where it is full or its number is listed, and else takes as many bytes as the step and the room allow.
        ensures fails { IsErr result ↔ ((length (got_of self.old) ≡ room_of self.old) ⊎ Contains (sink_fails self.old) (sink_calls self.new)) }
        ensures many { IfOk result (λ count. count ≡ min (min (length piece.now) (sink_step self.old)) (room_of self.old - length (got_of self.old))) }
        ensures counts { CountsWrite self.old self.new }
        ensures raised { OnErr result (self.new.faults ≡ min (self.old.faults + 1) (2 ^ 64 - 1)) }
    {
        self.calls = self.calls.saturating_add(1);
        if self.kept.len() == self.room {
            self.faults = self.faults.saturating_add(1);
            return Err(Failed);
        }
        if is_listed(&self.fails, self.calls) {
            self.faults = self.faults.saturating_add(1);
            return Err(Failed);
        }
        let count = piece.len().min(self.step).min(self.room - self.kept.len());
        self.kept.extend_from_slice(&piece[..count]).unwrap();
        Ok(count)
    }
}

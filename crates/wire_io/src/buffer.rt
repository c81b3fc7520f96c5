//! Bytes that wait, so that a sink gets them in large pieces.
ghost use Rattle.std.specs.Prelude.{◌≡◌, ℕ, ◌+◌, ◌-◌, ◌≤◌, List, [], ◌++◌, length, take, OnOk, OnErr};
ghost use Rattle.wire_io.specs.Causes.{HasCause};
ghost use Rattle.wire_io.specs.Told.{Gains, GainsFront};
ghost use Rattle.wire_io.specs.Passing.{Passes, IsHeld, IsStopped};
ghost use Rattle.wire_io.specs.Pieces.{joined};

use crate::fault::Failed;
use crate::sink::{Sink, write_all};
use std::marker::Model;

/// How many bytes may wait.
const ROOM: usize = 8192;

/// Bytes that wait to be given to a sink, of which there is room for 8,192.
#[derive(Drop)]
pub struct Buffer {
    bytes: [u8; ROOM],
    len: usize,
}

impl Model for Buffer {
    ghost Value = { List ℕ };

    ghost view = { λ buffer. take buffer.len buffer.bytes };

    ghost invariant = { λ buffer. buffer.len ≤ 8192 };
}

impl Buffer {
    /// A buffer in which nothing waits.
    pub fn new() -> Buffer
        ensures { result ≡ [] }
    {
        Buffer {
            bytes: [0; ROOM],
            len: 0,
        }
    }

    /// The bytes that wait.
    fn waiting(&self) -> &[u8]
        ensures { result.now ≡ self.now }
    {
        &self.bytes[..self.len]
    }

    /// How many bytes there is room for.
    fn room(&self) -> usize
        ensures { result + length self.now ≡ 8192 }
    {
        ROOM - self.len
    }

    /// Lets nothing wait.
    fn clear(&mut self)
        ensures { self.new ≡ [] }
    {
        self.len = 0;
    }

    /// Lets these bytes wait behind the others.
    fn keep(&mut self, piece: &[u8])
        requires { length self.old + length piece.now ≤ 8192 }
        ensures { self.new ≡ self.old ++ piece.now }
    {
        let end = self.len + piece.len();
        self.bytes[self.len..end].copy_from_slice(piece);
        self.len = end;
    }

    /// Gives all that waits to the sink. After a fault it all waits still.
    pub fn flush<K: Sink>(&mut self, sink: &mut K) -> Result<(), Failed>
        ensures ok { OnOk result (Gains (K.got sink.old) (K.got sink.new) self.old) }
        ensures empty { OnOk result (self.new ≡ []) }
        ensures kept { OnErr result (self.new ≡ self.old) }
        ensures front { GainsFront (K.got sink.old) (K.got sink.new) self.old }
        ensures cause { HasCause (K.faults sink.old) (K.faults sink.new) result }
    {
        write_all(sink, self.waiting())?;
        self.clear();
        Ok(())
    }

    /// Lets the bytes wait, or gives what waits, and them where they are many, to the sink.
    pub fn put<K: Sink>(&mut self, sink: &mut K, piece: &[u8]) -> Result<(), Failed>
        ensures ok { OnOk result (Passes (K.got sink.old) (K.got sink.new) self.old self.new piece.now) }
        ensures front { GainsFront (K.got sink.old) (K.got sink.new) (self.old ++ piece.now) }
        ensures held { OnErr result (IsHeld (K.got sink.old) (K.got sink.new) self.old self.new piece.now) }
        // Where there is room for them the bytes only wait.
        ensures gathers { length self.old + length piece.now ≤ 8192 → (self.new ≡ self.old ++ piece.now) × (sink.new ≡ sink.old) }
        ensures cause { HasCause (K.faults sink.old) (K.faults sink.new) result }
    {
        if piece.len() <= self.room() {
            self.keep(piece);
            return Ok(());
        }
        self.flush(sink)?;
        if piece.len() <= ROOM {
            self.keep(piece);
            return Ok(());
        }
        write_all(sink, piece)?;
        Ok(())
    }

    /// Lets all the bytes of all the pieces pass, one after another.
    pub fn put_all<K: Sink>(&mut self, sink: &mut K, pieces: &[&[u8]]) -> Result<(), Failed>
        ensures ok { OnOk result (Passes (K.got sink.old) (K.got sink.new) self.old self.new (joined pieces.now)) }
        ensures front { GainsFront (K.got sink.old) (K.got sink.new) (self.old ++ joined pieces.now) }
        ensures stopped { OnErr result (IsStopped (K.got sink.old) (K.got sink.new) self.old self.new (joined pieces.now)) }
        ensures cause { HasCause (K.faults sink.old) (K.faults sink.new) result }
    {
        for piece in pieces {
            self.put(sink, piece)?;
        }
        Ok(())
    }
}

//! The standard input, output and error of the process, and files. They tell no content.
ghost use Rattle.std.specs.Prelude.{◌<◌, ◌≤◌, length, None, IfSome, ◌≡◌};

use crate::fault::Failed;
use crate::sink::Sink;
use crate::source::Source;
use std::fs;
use std::io::{ErrorKind, Read, Write};
use std::rt::Files;

/// Where the bytes of a host source come from: a file is opened at the first call.
#[derive(Drop)]
enum Origin<F: Drop> {
    Standard,
    Named(String),
    Opened(F),
}

/// The standard input, or a file.
#[derive(Drop)]
pub struct HostSource<'r, R: Input + Files> {
    rt: &'r R,
    origin: Origin<R::File>,
    faults: u64,
}

impl<'r, R: Input + Files> HostSource<'r, R> {
    /// The standard input. No call of it has failed yet.
    pub fn standard(rt: &'r R) -> HostSource<'r, R>
        ensures { result.faults ≡ 0 }
    {
        HostSource {
            rt,
            origin: Origin::Standard,
            faults: 0,
        }
    }

    /// The file of this path. It is opened at the first call; no call of it has failed yet.
    pub fn file(rt: &'r R, path: String) -> HostSource<'r, R>
        ensures { result.faults ≡ 0 }
    {
        HostSource {
            rt,
            origin: Origin::Named(path),
            faults: 0,
        }
    }
}

/// Reads some bytes, and says how many. A call that a signal broke off is made again.
fn read_some<R: Read>(reader: &mut R, buf: &mut [u8]) -> Option<usize>
    ensures { IfSome result (λ count. count ≤ length buf.new) }
{
    for _ in 0..u64::MAX {
        match reader.read(buf) {
            Ok(count) => return Some(count),
            Err(fault) => {
                if fault.kind() != ErrorKind::Interrupted {
                    return None;
                }
            }
        }
    }
    None
}

impl<'r, R: Input + Files> Source for HostSource<'r, R> {
    ghost left = { λ _. None };

    ghost faults = { λ source. source.faults };

    fn read(&mut self, buf: &mut [u8]) -> Result<usize, Failed> {
        let taken = match &mut self.origin {
            Origin::Standard => read_some(&mut self.rt.reader(), buf),
            Origin::Opened(file) => read_some(file, buf),
            Origin::Named(path) => match fs::open(self.rt, path.as_str()) {
                Err(_) => None,
                Ok(file) => {
                    let mut file = file;
                    let taken = read_some(&mut file, buf);
                    self.origin = Origin::Opened(file);
                    taken
                }
            },
        };
        if taken.is_none() {
            self.faults = self.faults.saturating_add(1);
        }
        taken.ok_or(Failed)
    }
}

/// Where the bytes of a host sink go: a file is made anew, and empty, at the first call.
#[derive(Drop)]
enum Target<F: Drop> {
    Output,
    Errors,
    Named(String),
    Opened(F),
}

/// The standard output or error, or a file. The standard error takes text alone.
#[derive(Drop)]
pub struct HostSink<'r, R: Print + Eprint + Files> {
    rt: &'r R,
    target: Target<R::File>,
    faults: u64,
}

impl<'r, R: Print + Eprint + Files> HostSink<'r, R> {
    /// The standard output. No call of it has failed yet.
    pub fn standard(rt: &'r R) -> HostSink<'r, R>
        ensures { result.faults ≡ 0 }
    {
        HostSink {
            rt,
            target: Target::Output,
            faults: 0,
        }
    }

    /// The standard error. No call of it has failed yet.
    pub fn errors(rt: &'r R) -> HostSink<'r, R>
        ensures { result.faults ≡ 0 }
    {
        HostSink {
            rt,
            target: Target::Errors,
            faults: 0,
        }
    }

    /// The file of this path. It is made anew, and empty, at the first call; no call of it has failed yet.
    pub fn file(rt: &'r R, path: String) -> HostSink<'r, R>
        ensures { result.faults ≡ 0 }
    {
        HostSink {
            rt,
            target: Target::Named(path),
            faults: 0,
        }
    }
}

/// Prints text on the standard error, and says how many bytes.
fn print_error<R: Eprint>(rt: &R, piece: &[u8]) -> Option<usize>
    ensures { IfSome result (λ count. count ≡ length piece.now) }
{
    let text = str::from_utf8(piece).ok()?;
    rt.eprint(text).ok()?;
    Some(piece.len())
}

/// Gives some bytes to the standard output, and says how many. A call that a signal broke off is made again.
fn print_some<R: Print>(rt: &R, piece: &[u8]) -> Option<usize>
    ensures { IfSome result (λ count. (0 < count) × (count ≤ length piece.now)) }
{
    for _ in 0..u64::MAX {
        match rt.write_some(piece) {
            Ok(count) => return if count > 0 { Some(count) } else { None },
            Err(fault) => {
                if fault.kind() != ErrorKind::Interrupted {
                    return None;
                }
            }
        }
    }
    None
}

/// Gives some bytes to a file, and says how many. A call that a signal broke off is made again.
fn write_some<W: Write>(writer: &mut W, piece: &[u8]) -> Option<usize>
    ensures { IfSome result (λ count. (0 < count) × (count ≤ length piece.now)) }
{
    for _ in 0..u64::MAX {
        match writer.write(piece) {
            Ok(count) => return if count > 0 { Some(count) } else { None },
            Err(fault) => {
                if fault.kind() != ErrorKind::Interrupted {
                    return None;
                }
            }
        }
    }
    None
}

impl<'r, R: Print + Eprint + Files> Sink for HostSink<'r, R> {
    ghost got = { λ _. None };

    ghost faults = { λ sink. sink.faults };

    fn write(&mut self, piece: &[u8]) -> Result<usize, Failed> {
        let taken = match &mut self.target {
            Target::Output => print_some(self.rt, piece),
            Target::Errors => print_error(self.rt, piece),
            Target::Opened(file) => write_some(file, piece),
            Target::Named(path) => match fs::create(self.rt, path.as_str()) {
                Err(_) => None,
                Ok(file) => {
                    let mut file = file;
                    let taken = write_some(&mut file, piece);
                    self.target = Target::Opened(file);
                    taken
                }
            },
        };
        if taken.is_none() {
            self.faults = self.faults.saturating_add(1);
        }
        taken.ok_or(Failed)
    }
}

//! The words of the process.
ghost use Rattle.std.specs.Prelude.{◌≡◌, IfOk, map, string_bytes};
ghost use Rattle.lattice_process.specs.Words.{last_of, status_without_words};

use four_lattice::status::Status;
use std::alloc::{AllocError, Global};
use std::env;
use std::io::ErrorKind;

/// Why a process has no words.
#[derive(Clone, Copy, Debug, PartialEq, Eq)]
pub(crate) enum Wordless {
    /// There was no memory for them.
    NoMemory,
    /// A word is not text.
    NotText,
}

impl Wordless {
    /// Why the words could not be had, by the kind of the fault.
    pub(crate) fn of_kind(kind: ErrorKind) -> Wordless {
        if kind == ErrorKind::OutOfMemory {
            Wordless::NoMemory
        } else {
            Wordless::NotText
        }
    }

    /// The status with which the process ends.
    pub(crate) fn status(self) -> Status
        ensures { result ≡ status_without_words self }
    {
        match self {
            Wordless::NoMemory => Status::NoMemory,
            Wordless::NotText => Status::Words,
        }
    }
}

/// The words after the program's name. Of words that are not text the standard error says so.
pub(crate) fn words_of_process(rt: &HostRuntime) -> Result<Vec<String>, Wordless> {
    match env::args(rt) {
        Ok(words) => match words.skip(1).collect::<Vec<String>>(rt.alloc()) {
            Ok(words) => Ok(words),
            Err(_) => Err(Wordless::NoMemory),
        },
        Err(fault) => {
            let why = Wordless::of_kind(fault.kind());
            if why == Wordless::NotText {
                let _ = rt.eprintln("words refused");
            }
            Err(why)
        }
    }
}

/// The file that the last word names; with no words it has no name.
pub(crate) fn last_word(alloc: Global, words: &[String]) -> Result<String, AllocError>
    ensures { IfOk result (λ path. string_bytes path ≡ last_of (map string_bytes words.now)) }
{
    match words.last() {
        Some(word) => word.clone(),
        None => Ok(String::new(alloc)),
    }
}

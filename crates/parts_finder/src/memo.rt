//! Lattices of functions of few inputs that were looked for before.
use crate::anneal::INPUTS;
use crate::front::Front;
use crate::part::Part;
use std::alloc::Global;
use wire_io::fault::NoMemory;

/// The most functions that are kept.
const MOST: usize = 400;

/// A function whose assignments are in one word, and its lattices.
#[derive(Drop)]
struct Known {
    inputs: u8,
    on: u64,
    off: u64,
    front: Front,
}

/// Functions of few inputs and their lattices.
#[derive(Drop)]
pub(crate) struct Memo {
    known: Vec<Known>,
}

impl Known {
    /// Whether these are the lattices of a function.
    fn is_of(&self, part: &Part) -> bool {
        self.inputs == part.inputs && self.on == part.on.word(0) && self.off == part.off.word(0)
    }
}

impl Memo {
    /// No function yet.
    pub(crate) fn new(alloc: Global) -> Memo {
        Memo {
            known: Vec::new(alloc),
        }
    }

    /// The lattices of a function, if they are known.
    pub(crate) fn find(&self, alloc: Global, part: &Part) -> Result<Option<Front>, NoMemory> {
        if part.inputs > INPUTS {
            return Ok(None);
        }
        for known in &self.known {
            if known.is_of(part) {
                return Ok(Some(known.front.copy(alloc)?));
            }
        }
        Ok(None)
    }

    /// Keeps the lattices of a function, if it has few inputs.
    pub(crate) fn keep(
        &mut self,
        alloc: Global,
        part: &Part,
        front: &Front,
    ) -> Result<(), NoMemory> {
        if part.inputs > INPUTS || self.known.len() >= MOST {
            return Ok(());
        }
        self.known.push(Known {
            inputs: part.inputs,
            on: part.on.word(0),
            off: part.off.word(0),
            front: front.copy(alloc)?,
        })?;
        Ok(())
    }
}

//! Lists of clauses, one after the other in one vector.
ghost use Rattle.std.specs.Prelude.{◌≡◌, ℕ, ◌+◌, ◌<◌, ◌≤◌, ◌++◌, ◌∷◌, List, [], length, OnOk, OnErr, slice_get, slice_range, Some};
ghost use Rattle.clause_core.specs.Pieces.{pieces, start_at, AreCut};

use crate::lit::Lit;
use std::alloc::Global;
use std::marker::Model;
use wire_io::fault::NoMemory;

/// Where a piece starts.
fn start_of(ends: &[usize], index: usize) -> usize
    requires { index < length ends.now }
    ensures { result ≡ start_at 0 ends.now index }
{
    if index == 0 { 0 } else { ends[index - 1] }
}

/// The literals from one place to another.
fn part(lits: &[Lit], start: usize, end: usize) -> &[Lit]
    requires order { start ≤ end }
    requires within { end ≤ length lits.now }
    ensures { result.now ≡ slice_range lits.now start end }
{
    &lits[start..end]
}

/// One of the pieces that a slice is cut into.
fn piece<'a>(lits: &'a [Lit], ends: &[usize], index: usize) -> &'a [Lit]
    requires cut { AreCut 0 ends.now (length lits.now) }
    requires inside { index < length ends.now }
    ensures { slice_get (pieces lits.now 0 ends.now) index ≡ Some result.now }
{
    let start = start_of(ends, index);
    part(lits, start, ends[index])
}

/// A list of clauses.
#[derive(Drop)]
pub struct Clauses {
    lits: Vec<Lit>,
    ends: Vec<usize>,
}

impl Model for Clauses {
    ghost use Rattle.std.specs.Prelude.{List, length};
    ghost use Rattle.clause_core.specs.Literal.{Literal};
    ghost use Rattle.clause_core.specs.Pieces.{pieces, AreCut};

    ghost Value = { List (List Literal) };

    ghost view = { λ clauses. pieces clauses.lits.items 0 clauses.ends.items };

    ghost invariant = { λ clauses. AreCut 0 clauses.ends.items (length clauses.lits.items) };
}

impl Clauses {
    /// No clauses.
    pub fn new(alloc: Global) -> Clauses
        ensures { result ≡ [] }
    {
        Clauses {
            lits: Vec::new(alloc),
            ends: Vec::new(alloc),
        }
    }

    /// Adds a clause at the end.
    pub fn push(&mut self, clause: &[Lit]) -> Result<(), NoMemory>
        ensures ok { OnOk result (self.new ≡ self.old ++ clause.now ∷ []) }
        ensures err { OnErr result (self.new ≡ self.old) }
    {
        self.ends.reserve(1)?;
        self.lits.extend_from_slice(clause)?;
        self.ends.push(self.lits.len()).unwrap();
        Ok(())
    }

    /// How many clauses there are.
    pub fn len(&self) -> usize
        ensures { result ≡ length self.now }
    {
        self.ends.len()
    }

    /// The clause at an index, from 0 on.
    pub fn clause(&self, index: usize) -> &[Lit]
        requires { index < length self.now }
        ensures { slice_get self.now index ≡ Some result.now }
    {
        piece(&self.lits, &self.ends, index)
    }
}

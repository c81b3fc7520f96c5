//! Lists of clauses by their first literals.
ghost use Rattle.std.specs.Prelude.{◌≡◌, ◌+◌, ◌*◌, ◌<◌, ◌≤◌, ◌^◌, ◌++◌, ◌∷◌, [], List, length, OnOk, OnErr, IfOk, slice_index_or, vec_len, vec_capacity};
ghost use Rattle.clause_core.specs.Literal.{Literal};
ghost use Rattle.lrat_replay.specs.Lists.{lead, AreListed};

use clause_core::formula::Formula;
use clause_core::lit::Lit;
use std::alloc::Global;
use wire_io::fault::NoMemory;

/// The number of a clause's list: that of its first literal, or 0 for the empty clause.
fn code_of(clause: &[Lit]) -> u32
    ensures { result ≡ lead clause.now }
{
    match clause {
        [] => 0,
        [first, ..] => first.code(),
    }
}

/// A list of clauses for each number, newest first. A link is 0, or one more than the place of a clause.
#[derive(Drop)]
pub struct Lists {
    /// The link to the newest clause of each list.
    first: Vec<u32>,
    /// The link from each clause to the next older one of its list.
    next: Vec<u32>,
}

impl Lists {
    /// So many lists of no clauses.
    fn new(alloc: Global, count: usize) -> Result<Lists, NoMemory>
        ensures listed { IfOk result (λ lists. AreListed [] lists.first.items lists.next.items) }
        ensures width { IfOk result (λ lists. length lists.first.items ≡ count) }
    {
        Ok(Lists {
            first: vec![in alloc; 0; count]?,
            next: Vec::new(alloc),
        })
    }

    /// The lists of a formula's clauses.
    pub fn of(alloc: Global, formula: &Formula) -> Result<Lists, NoMemory>
        ensures listed { IfOk result (λ lists. AreListed formula.now.clauses lists.first.items lists.next.items) }
        ensures width { IfOk result (λ lists. length lists.first.items ≡ 2 * formula.now.vars + 2) }
    {
        let mut lists = Lists::new(alloc, 2 * formula.vars() as usize + 2)?;
        for index in 0..formula.count() {
            lists.push(formula.clause(index))?;
        }
        Ok(lists)
    }

    /// Makes room for one more clause.
    pub fn reserve(&mut self) -> Result<(), NoMemory>
        ensures first { self.new.first.items ≡ self.old.first.items }
        ensures next { self.new.next.items ≡ self.old.next.items }
        ensures spare { OnOk result (vec_len self.new.next < vec_capacity self.new.next) }
    {
        self.next.reserve(1)?;
        Ok(())
    }

    /// Puts one more clause in front of its list.
    pub fn push(&mut self, clause: &[Lit]) -> Result<(), NoMemory>
        requires within { lead clause.now < length self.old.first.items }
        requires few { length self.old.next.items + 1 < 2 ^ 32 }
        ensures listed { OnOk result ((clauses : List (List Literal)) → AreListed clauses self.old.first.items self.old.next.items → AreListed (clauses ++ clause.now ∷ []) self.new.first.items self.new.next.items) }
        ensures width { length self.new.first.items ≡ length self.old.first.items }
        ensures full { OnErr result (vec_capacity self.old.next ≤ vec_len self.old.next) }
    {
        let code = code_of(clause) as usize;
        let link = self.next.len() as u32 + 1;
        self.next.push(self.first[code])?;
        self.first[code] = link;
        Ok(())
    }

    /// The link to the newest clause of a list.
    pub fn newest(&self, code: u32) -> u32
        requires { code < length self.now.first.items }
        ensures { result ≡ slice_index_or self.now.first.items code 0 }
    {
        self.first[code as usize]
    }

    /// The link from the clause at a place to the next older one of its list.
    pub fn older(&self, place: usize) -> u32
        requires { place < length self.now.next.items }
        ensures { result ≡ slice_index_or self.now.next.items place 0 }
    {
        self.next[place]
    }
}

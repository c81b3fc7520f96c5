//! Which clauses watch which literals.
ghost use Rattle.std.specs.Prelude.{◌≡◌, ◌+◌, ◌<◌, length, slice_get, slice_index_or, IfOk, OnOk, None, Some, true, false};
ghost use Rattle.clause_core.specs.Literal.{number};

use clause_core::clauses::Clauses;
use clause_core::lit::Lit;
use std::alloc::Global;
use wire_io::fault::NoMemory;

/// Two different literals of a clause; it may be known that it has no others.
#[derive(Clone, Copy, Debug)]
pub struct Pair {
    pub one: Lit,
    pub two: Lit,
    pub is_whole: bool,
}

/// The place of a clause, and a literal of it: where that one is true, the clause needs no visit.
#[derive(Clone, Copy, Debug)]
pub struct Entry {
    pub place: u32,
    pub blocker: Lit,
}

/// Whether a clause has two literals.
pub fn is_short(clause: &[Lit]) -> bool
    ensures { result ≡ true → length clause.now ≡ 2 }
{
    clause.len() == 2
}

/// Counts the first two literals of a clause.
fn count_first(counts: &mut Vec<u32>, clause: &[Lit]) {
    for lit in clause.iter().take(2) {
        if let Some(count) = counts.get_mut(lit.code() as usize) {
            *count = count.saturating_add(1);
        }
    }
}

/// How many clauses have each literal, by its number, as one of their first two, which most of them watch at first.
fn counts_of(alloc: Global, width: usize, clauses: &Clauses) -> Result<Vec<u32>, NoMemory> {
    let mut counts = vec![in alloc; 0; width]?;
    for index in 0..clauses.len() {
        count_first(&mut counts, clauses.clause(index));
    }
    Ok(counts)
}

/// For each literal entries for the clauses that watch it, and for each clause the two literals that it watches, if it watches any.
#[derive(Drop)]
pub struct Watches {
    lists: Vec<Vec<Entry>>,
    pairs: Vec<Option<Pair>>,
}

impl Watches {
    ghost use Rattle.clause_solver.specs.declared.watch.Entry.{Entry};
    ghost use Rattle.clause_solver.specs.Watch.{width_of, count, pair_at, entries_of, list_of, IsEntry, HasMore, HasLess, HasNoted, HasTurned, HasSettled};

    /// No clauses, and lists for the literals of so many numbers, each with room for so many entries as its number is said to have.
    pub fn new(alloc: Global, width: usize, counts: &[u32]) -> Result<Watches, NoMemory>
        ensures width { IfOk result (λ watches. width_of watches ≡ width) }
        ensures none { IfOk result (λ watches. count watches ≡ 0) }
        ensures empty { IfOk result (λ watches. (entry : Entry) → IsEntry watches entry → ⊥) }
    {
        let mut lists = Vec::with_capacity(alloc, width)?;
        for number in 0..width {
            let count = counts.get(number).copied().unwrap_or(0);
            lists.push(Vec::with_capacity(alloc, count as usize)?)?;
        }
        Ok(Watches {
            lists,
            pairs: Vec::new(alloc),
        })
    }

    /// No clauses, and lists for the literals of so many numbers, with room for most of what these clauses put there.
    pub fn for_clauses(alloc: Global, width: usize, clauses: &Clauses) -> Result<Watches, NoMemory>
        ensures width { IfOk result (λ watches. width_of watches ≡ width) }
        ensures none { IfOk result (λ watches. count watches ≡ 0) }
        ensures empty { IfOk result (λ watches. (entry : Entry) → IsEntry watches entry → ⊥) }
    {
        let counts = counts_of(alloc, width, clauses)?;
        Watches::new(alloc, width, &counts)
    }

    /// How many clauses are settled: the first ones.
    pub fn len(&self) -> usize
        ensures { result ≡ count self.now }
    {
        self.pairs.len()
    }

    /// The two literals that a clause watches.
    pub fn pair(&self, place: usize) -> Option<Pair>
        ensures { result ≡ pair_at self.now place }
    {
        if place < self.pairs.len() {
            self.pairs[place]
        } else {
            None
        }
    }

    /// How many clauses stand in the list of a literal.
    pub fn list_len(&self, lit: Lit) -> usize
        requires { number lit < width_of self.now }
        ensures { result ≡ length (list_of self.now lit) }
    {
        self.lists[lit.code() as usize].len()
    }

    /// The entry at an index of the list of a literal.
    pub fn listed(&self, lit: Lit, index: usize) -> Entry
        requires lists { number lit < width_of self.now }
        requires inside { index < length (list_of self.now lit) }
        ensures entry { slice_get (entries_of self.now lit) index ≡ Some result }
        ensures place { result.place ≡ slice_index_or (list_of self.now lit) index 0 }
    {
        self.lists[lit.code() as usize][index]
    }

    /// Puts an entry into the list of a literal.
    fn add(&mut self, lit: Lit, entry: Entry) -> Result<(), NoMemory>
        requires { number lit < width_of self.old }
        ensures { OnOk result (HasMore self.old self.new lit entry) }
    {
        self.lists[lit.code() as usize].push(entry)?;
        Ok(())
    }

    /// Takes the entry at an index out of the list of a literal.
    fn remove(&mut self, lit: Lit, index: usize)
        requires lists { number lit < width_of self.old }
        requires inside { index < length (list_of self.old lit) }
        ensures { HasLess self.old self.new lit index }
    {
        self.lists[lit.code() as usize].swap_remove(index);
    }

    /// Notes another literal of the clause at an index of the list of a literal.
    pub fn note(&mut self, lit: Lit, index: usize, entry: Entry)
        requires lists { number lit < width_of self.old }
        requires inside { index < length (list_of self.old lit) }
        requires same { entry.place ≡ slice_index_or (list_of self.old lit) index 0 }
        ensures { HasNoted self.old self.new entry }
    {
        self.lists[lit.code() as usize][index] = entry;
    }

    /// Settles the next clause, which watches no literals.
    pub fn pass_over(&mut self) -> Result<(), NoMemory>
        ensures { OnOk result (HasSettled self.old self.new None) }
    {
        self.pairs.push(None)?;
        Ok(())
    }

    /// Settles the next clause, which watches these literals.
    pub fn watch(&mut self, one: Lit, two: Lit, is_whole: bool) -> Result<(), NoMemory>
        requires one { number one < width_of self.old }
        requires two { number two < width_of self.old }
        requires few { count self.old < 2147483647 }
        ensures { OnOk result (HasSettled self.old self.new (Some (record { one = one; two = two; is_whole = is_whole }))) }
    {
        let place = self.pairs.len() as u32;
        self.pairs.push(Some(Pair { one, two, is_whole }))?;
        self.add(
            one,
            Entry {
                place,
                blocker: two,
            },
        )?;
        self.add(
            two,
            Entry {
                place,
                blocker: one,
            },
        )?;
        Ok(())
    }

    /// The clause at an index of the list of a literal watches these two from now on, the first in place of that literal.
    pub fn turn(
        &mut self,
        lost: Lit,
        index: usize,
        place: u32,
        one: Lit,
        two: Lit,
    ) -> Result<(), NoMemory>
        requires lists { number lost < width_of self.old }
        requires one { number one < width_of self.old }
        requires inside { index < length (list_of self.old lost) }
        requires at { place ≡ slice_index_or (list_of self.old lost) index 0 }
        requires settled { place < count self.old }
        requires apart { number lost ≡ number one → ⊥ }
        ensures { OnOk result (HasTurned self.old self.new lost index (record { one = one; two = two; is_whole = false })) }
    {
        self.add(
            one,
            Entry {
                place,
                blocker: two,
            },
        )?;
        self.remove(lost, index);
        self.pairs[place as usize] = Some(Pair {
            one,
            two,
            is_whole: false,
        });
        Ok(())
    }
}

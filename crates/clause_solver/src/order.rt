//! In which order variables are decided, and to which values. Nothing is promised of it: any variable without value serves.
use crate::restart::Restarts;
use clause_core::formula::Formula;
use clause_core::lit::Lit;
use std::alloc::Global;
use wire_io::fault::NoMemory;

/// What an activity grows by at first.
const FIRST_INCREMENT: u64 = 1_048_576;

/// A clause with so many literals is a choice, whose variables gain no activity.
const LONG: usize = 4;

/// What is known of a variable that may be decided.
#[derive(Clone, Copy, Debug)]
struct Candidate {
    activity: u64,
    /// Where it stands in the heap, if it stands there.
    place: Option<usize>,
    /// Whether it stands in a long clause of the formula.
    chosen: bool,
    /// Its last value.
    negated: bool,
}

/// A heap of variables, the one of greatest activity first and of these the least, beside what is known of each; when the
/// next restart is due; and how many of the oldest values are known to stay.
#[derive(Drop)]
pub struct Order {
    candidates: Vec<Candidate>,
    heap: Vec<u32>,
    increment: u64,
    restarts: Restarts,
    fixed: usize,
    is_undecided: bool,
}

impl Order {
    /// All variables of a formula, none of which has any activity.
    pub fn new(alloc: Global, formula: &Formula) -> Result<Order, NoMemory> {
        let vars = formula.vars();
        let first = Candidate {
            activity: 0,
            place: None,
            chosen: false,
            negated: false,
        };
        let mut order = Order {
            candidates: vec![in alloc; first; vars as usize + 1]?,
            heap: Vec::with_capacity(alloc, vars as usize)?,
            increment: FIRST_INCREMENT,
            restarts: Restarts::new(),
            fixed: 0,
            is_undecided: true,
        };
        order.note_choices(formula);
        for before in 0..vars {
            order.put(before + 1)?;
        }
        Ok(order)
    }

    /// Notes the variables of long clauses.
    fn note_choices(&mut self, formula: &Formula) {
        for index in 0..formula.count() {
            self.note_choice(formula.clause(index));
        }
    }

    /// Notes the variables of a clause where it is long.
    fn note_choice(&mut self, clause: &[Lit]) {
        if clause.len() < LONG {
            return;
        }
        for lit in clause {
            if let Some(candidate) = self.candidates.get_mut(lit.var() as usize) {
                candidate.chosen = true;
            }
        }
    }

    /// What is known of a variable.
    fn candidate(&self, var: u32) -> Option<&Candidate> {
        self.candidates.get(var as usize)
    }

    /// Whether one variable comes before another.
    fn precedes(&self, one: u32, two: u32) -> bool {
        match (self.candidate(one), self.candidate(two)) {
            (Some(a), Some(b)) => a.activity > b.activity
                || (a.activity == b.activity && one < two),
            (_, None) => true,
            (None, Some(_)) => false,
        }
    }

    /// Writes a variable at a place of the heap.
    fn write(&mut self, place: usize, var: u32) {
        if let Some(slot) = self.heap.get_mut(place) {
            *slot = var;
        }
        if let Some(candidate) = self.candidates.get_mut(var as usize) {
            candidate.place = Some(place);
        }
    }

    /// Moves a variable from a place of the heap towards the first one.
    fn rise(&mut self, from: usize, var: u32) {
        let mut place = from;
        while place > 0 {
            let above = (place - 1) / 2;
            let Some(other) = self.heap.get(above).copied() else {
                return;
            };
            if !self.precedes(var, other) {
                break;
            }
            self.write(place, other);
            place = above;
        }
        self.write(place, var);
    }

    /// The one of two places below a place whose variable comes first.
    fn first_below(&self, place: usize) -> Option<(usize, u32)> {
        let left = place.saturating_mul(2).saturating_add(1);
        let right = left.saturating_add(1);
        match (self.heap.get(left), self.heap.get(right)) {
            (Some(one), Some(two)) if self.precedes(*two, *one) => Some((right, *two)),
            (Some(one), _) => Some((left, *one)),
            (None, _) => None,
        }
    }

    /// Moves a variable from the first place of the heap away from it.
    fn sink(&mut self, var: u32) {
        let mut place = 0;
        for _ in 0..self.heap.len() {
            let Some((below, other)) = self.first_below(place) else {
                break;
            };
            if !self.precedes(other, var) {
                break;
            }
            self.write(place, other);
            place = below;
        }
        self.write(place, var);
    }

    /// Puts a variable into the heap, unless it stands there.
    fn put(&mut self, var: u32) -> Result<(), NoMemory> {
        let stands = match self.candidate(var) {
            Some(candidate) => candidate.place.is_some(),
            None => true,
        };
        if stands {
            return Ok(());
        }
        let place = self.heap.len();
        self.heap.push(var)?;
        self.rise(place, var);
        Ok(())
    }

    /// Takes the first variable out of the heap.
    pub fn take(&mut self) -> Option<u32> {
        let first = self.heap.get(0).copied()?;
        if let Some(candidate) = self.candidates.get_mut(first as usize) {
            candidate.place = None;
        }
        let last = self.heap.pop()?;
        if last != first {
            self.sink(last);
        }
        Some(first)
    }

    /// How many variables stand in the heap.
    pub fn len(&self) -> usize {
        self.heap.len()
    }

    /// The literal to which a variable is decided: its last value.
    pub fn negated(&self, var: u32) -> bool {
        match self.candidate(var) {
            Some(candidate) => candidate.negated,
            None => false,
        }
    }

    /// Keeps a value that is taken back, and puts its variable into the heap.
    pub fn release(&mut self, lit: Lit) -> Result<(), NoMemory> {
        if let Some(candidate) = self.candidates.get_mut(lit.var() as usize) {
            candidate.negated = lit.negated();
        }
        self.put(lit.var())
    }

    /// A search begins, with no values.
    pub fn begin(&mut self) {
        self.restarts = Restarts::new();
        self.fixed = 0;
        self.is_undecided = true;
    }

    /// Only so many values are left.
    pub fn go_back(&mut self, keep: usize) {
        if keep <= self.fixed {
            self.is_undecided = true;
        }
    }

    /// A variable is decided after so many values.
    pub fn decide(&mut self, count: usize) {
        if self.is_undecided {
            self.fixed = count;
            self.is_undecided = false;
        }
    }

    /// How many of the oldest values stay for good.
    pub fn fixed(&self) -> usize {
        self.fixed
    }

    /// A clause was learned: what is met later weighs more. The answer is whether a restart is due.
    pub fn count(&mut self) -> bool {
        self.increment = self
            .increment
            .saturating_add(self.increment / 16)
            .min(u64::MAX / 2);
        self.restarts.count()
    }

    /// A variable was met in an analysis.
    pub fn bump(&mut self, var: u32) {
        let Some(candidate) = self.candidate(var).copied() else {
            return;
        };
        if candidate.chosen {
            return;
        }
        if candidate.activity > u64::MAX - self.increment {
            self.halve();
        }
        self.raise(var);
    }

    /// Adds the increment to a variable's activity.
    fn raise(&mut self, var: u32) {
        let Some(candidate) = self.candidates.get_mut(var as usize) else {
            return;
        };
        candidate.activity = candidate.activity.saturating_add(self.increment);
        if let Some(place) = candidate.place {
            self.rise(place, var);
        }
    }

    /// Halves all activities and the increment; equal ones come in the order of their variables then.
    fn halve(&mut self) {
        self.increment = (self.increment / 2).max(1);
        for candidate in &mut self.candidates {
            candidate.activity /= 2;
        }
        for place in 0..self.heap.len() {
            if let Some(var) = self.heap.get(place).copied() {
                self.rise(place, var);
            }
        }
    }
}

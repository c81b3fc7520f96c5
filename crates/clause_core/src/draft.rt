//! A formula that is being read.
ghost use Rattle.std.specs.Prelude.{◌≡◌, ◌⊎◌, ℕ, ◌+◌, ◌<◌, ◌≤◌, ◌==◌, ◌++◌, ◌∷◌, [], List, true, false, length, OnOk, IfErr, IfOk, Some, None};
ghost use Rattle.std.specs.List.{list_all};
ghost use Rattle.clause_core.specs.Literal.{Literal};
ghost use Rattle.clause_core.specs.Formula.{IsOver, most_clauses};
ghost use Rattle.clause_core.specs.Number.{is_zero};
ghost use Rattle.clause_core.specs.Text.{words_of, Row};
ghost use Rattle.clause_core.specs.CnfRead.{is_in_range, numbers_of, literal_from, pieces_of, joined, row_fault, formula_of};
ghost use Rattle.clause_core.specs.declared.number.Number.{Number};

use crate::formula::Formula;
use crate::lit::Lit;
use crate::number::{Number, signed_value};
use crate::refusal::CnfRefusal;
use crate::text::next_word;
use std::alloc::Global;

/// The clauses so far, and the literals of a clause that is begun.
#[derive(Drop)]
pub struct Draft {
    formula: Formula,
    begun: Vec<Lit>,
    ghost over: { IsOver formula.vars begun.items },
}

impl Draft {
    ghost use Rattle.clause_core.specs.Draft.{Takes};

    /// A draft with no clause.
    pub fn new(alloc: Global, vars: u32) -> Draft
        requires { vars < 2147483648 }
        ensures vars { result.formula.vars ≡ vars }
        ensures empty { result.formula.clauses ≡ [] }
        ensures none { result.begun.items ≡ [] }
    {
        Draft {
            formula: Formula::new(alloc, vars),
            begun: Vec::new(alloc),
        }
    }

    /// Ends the clause that is begun.
    fn end_clause(&mut self) -> Result<(), CnfRefusal>
        requires { length self.old.formula.clauses < most_clauses }
        ensures done { OnOk result (self.new.formula.clauses ≡ self.old.formula.clauses ++ self.old.begun.items ∷ []) }
        ensures begun { OnOk result (self.new.begun.items ≡ []) }
        ensures vars { OnOk result (self.new.formula.vars ≡ self.old.formula.vars) }
        ensures no_memory { IfErr result (λ refusal. refusal ≡ CnfRefusal.NoMemory) }
    {
        if self.formula.push(&self.begun).is_err() {
            return Err(CnfRefusal::NoMemory);
        }
        self.begun.clear();
        Ok(())
    }

    /// Adds a literal to the clause that is begun.
    fn add(&mut self, var: u32, negated: bool) -> Result<(), CnfRefusal>
        requires counted { 1 ≤ var }
        requires within { var ≤ self.old.formula.vars }
        ensures begun { OnOk result (self.new.begun.items ≡ self.old.begun.items ++ record { var = var; negated = negated } ∷ []) }
        ensures formula { OnOk result (self.new.formula ≡ self.old.formula) }
        ensures no_memory { IfErr result (λ refusal. refusal ≡ CnfRefusal.NoMemory) }
    {
        let _vars = self.formula.vars();
        let lit = Lit::new(var, negated);
        if self.begun.push(lit).is_err() {
            return Err(CnfRefusal::NoMemory);
        }
        Ok(())
    }

    /// Takes a number: 0 ends a clause, another one is a literal.
    fn take_number(&mut self, number: Number) -> Result<(), CnfRefusal>
        requires within { number.magnitude ≤ self.old.formula.vars }
        requires room { length self.old.formula.clauses < most_clauses }
        ensures taken { OnOk result (Takes self.old self.new (number ∷ [])) }
        ensures vars { OnOk result (self.new.formula.vars ≡ self.old.formula.vars) }
        ensures count { OnOk result (length self.new.formula.clauses ≤ length self.old.formula.clauses + 1) }
        ensures no_memory { IfErr result (λ refusal. refusal ≡ CnfRefusal.NoMemory) }
    {
        let _vars = self.formula.vars();
        if number.magnitude == 0 {
            self.end_clause()
        } else {
            self.add(number.magnitude as u32, number.negative)
        }
    }

    /// Takes a word, which is to be a signed number of a variable that there is, or 0.
    fn read_word(&mut self, line: u32, word: &[u8]) -> Result<(), CnfRefusal>
        requires { length self.old.formula.clauses < most_clauses }
        ensures good { OnOk result (is_in_range self.old.formula.vars word.now ≡ true) }
        ensures taken { OnOk result (Takes self.old self.new (numbers_of (word.now ∷ []))) }
        ensures vars { OnOk result (self.new.formula.vars ≡ self.old.formula.vars) }
        ensures count { OnOk result (length self.new.formula.clauses ≤ length self.old.formula.clauses + 1) }
        ensures bad { IfErr result (λ refusal. (refusal ≡ CnfRefusal.NoMemory) ⊎ ((refusal ≡ CnfRefusal.Literal line) × (is_in_range self.old.formula.vars word.now ≡ false))) }
    {
        let Some(number) = signed_value(word) else {
            return Err(CnfRefusal::Literal { line });
        };
        if number.magnitude > u64::from(self.formula.vars()) {
            return Err(CnfRefusal::Literal { line });
        }
        self.take_number(number)
    }

    /// Takes the words of a line.
    fn read_words(&mut self, line: u32, bytes: &[u8]) -> Result<(), CnfRefusal>
        requires { length self.old.formula.clauses + length bytes.now < most_clauses }
        ensures good { OnOk result (list_all (is_in_range self.old.formula.vars) (words_of bytes.now) ≡ true) }
        ensures taken { OnOk result (Takes self.old self.new (numbers_of (words_of bytes.now))) }
        ensures vars { OnOk result (self.new.formula.vars ≡ self.old.formula.vars) }
        ensures count { OnOk result (length self.new.formula.clauses ≤ length self.old.formula.clauses + length bytes.now) }
        ensures bad { IfErr result (λ refusal. (refusal ≡ CnfRefusal.NoMemory) ⊎ ((refusal ≡ CnfRefusal.Literal line) × (list_all (is_in_range self.old.formula.vars) (words_of bytes.now) ≡ false))) }
    {
        let mut rest = bytes;
        while let Some(word) = next_word(rest) {
            rest = word.rest;
            self.read_word(line, word.bytes)?;
        }
        Ok(())
    }

    /// Takes a line behind the header.
    pub fn read_row(&mut self, line: u32, bytes: &[u8]) -> Result<(), CnfRefusal>
        requires { length self.old.formula.clauses + length bytes.now < most_clauses }
        ensures good { OnOk result (row_fault self.old.formula.vars (record { number = line; bytes = bytes.now }) ≡ None) }
        ensures taken { OnOk result (Takes self.old self.new (numbers_of (words_of bytes.now))) }
        ensures vars { OnOk result (self.new.formula.vars ≡ self.old.formula.vars) }
        ensures count { OnOk result (length self.new.formula.clauses ≤ length self.old.formula.clauses + length bytes.now) }
        ensures bad { IfErr result (λ refusal. (refusal ≡ CnfRefusal.NoMemory) ⊎ (row_fault self.old.formula.vars (record { number = line; bytes = bytes.now }) ≡ Some refusal)) }
    {
        if bytes.first() == Some(&b'p') {
            return Err(CnfRefusal::Header { line });
        }
        self.read_words(line, bytes)
    }

    /// The formula, where no clause is begun and there are as many as the header tells.
    pub fn finish(self, clauses: u32, line: u32) -> Result<Formula, CnfRefusal>
        ensures { result ≡ formula_of line (record { vars = self.formula.vars; clauses = clauses }) (self.formula.clauses ++ self.begun.items ∷ []) }
    {
        if !self.begun.is_empty() {
            return Err(CnfRefusal::Unended { line });
        }
        if self.formula.count() != clauses {
            return Err(CnfRefusal::Count { line });
        }
        Ok(self.formula)
    }
}

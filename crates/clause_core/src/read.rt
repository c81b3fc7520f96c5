//! CNF text, read.
ghost use Rattle.std.specs.Prelude.{◌≡◌, ◌⊎◌, ℕ, ◌+◌, ◌<◌, ◌≤◌, [], length, MatchResult, MatchOption, IfSome, IfOk, IfErr, Ok, Err, Some, None};
ghost use Rattle.clause_core.specs.Text.{words_of, lines_of, rows_in};
ghost use Rattle.clause_core.specs.CnfRead.{count_of, header_of, body_of, is_too_large, cnf_of};

use crate::draft::Draft;
use crate::formula::Formula;
use crate::number::digits_value;
use crate::refusal::CnfRefusal;
use crate::rows::next_row;
use crate::text::next_word;
use std::alloc::Global;

/// How many bytes a text has at most.
const MOST_BYTES: usize = 67_108_864;

/// How many variables a header tells at most.
const MOST_VARS: u32 = 16_777_216;

/// How many clauses a header tells at most.
const MOST_CLAUSES: u32 = 1_073_741_824;

/// How many variables and clauses there are.
#[derive(Clone, Copy)]
pub struct Head {
    pub vars: u32,
    pub clauses: u32,
}

impl Head {
    fn is_too_large(self) -> bool
        ensures { result ≡ is_too_large self }
    {
        self.vars > MOST_VARS || self.clauses > MOST_CLAUSES
    }
}

/// A count below 2 to the power of 31.
fn count(word: &[u8]) -> Option<u32>
    ensures { result ≡ count_of word.now }
{
    let value = digits_value(word)?;
    if value < 2_147_483_648 {
        Some(value as u32)
    } else {
        None
    }
}

/// The header that a line is.
fn read_head(line: &[u8]) -> Option<Head>
    ensures value { MatchOption result (header_of (words_of line.now) ≡ None) (λ head. header_of (words_of line.now) ≡ Some head) }
    ensures within { IfSome result (λ head. head.vars < 2147483648) }
{
    let problem = next_word(line)?;
    let format = next_word(problem.rest)?;
    let vars = next_word(format.rest)?;
    let clauses = next_word(vars.rest)?;
    if problem.bytes != b"p".as_slice() {
        return None;
    }
    if format.bytes != b"cnf".as_slice() {
        return None;
    }
    if next_word(clauses.rest).is_some() {
        return None;
    }
    Some(Head {
        vars: count(vars.bytes)?,
        clauses: count(clauses.bytes)?,
    })
}

/// The formula of the lines behind the header.
fn read_body(alloc: Global, head: Head, text: &[u8], number: u32) -> Result<Formula, CnfRefusal>
    requires vars { head.vars < 2147483648 }
    requires short { length text.now ≤ 67108864 }
    requires counted { number + length text.now ≤ 67108865 }
    ensures ok { IfOk result (λ formula. (end : ℕ) → end + 1 ≡ number + length (lines_of text.now) → body_of end head (rows_in number text.now) ≡ Ok formula) }
    ensures err { IfErr result (λ refusal. (refusal ≡ CnfRefusal.NoMemory) ⊎ ((end : ℕ) → end + 1 ≡ number + length (lines_of text.now) → body_of end head (rows_in number text.now) ≡ Err refusal)) }
{
    let mut draft = Draft::new(alloc, head.vars);
    let mut rest = text;
    let mut next = number;
    loop {
        match next_row(rest, next) {
            Ok(row) => {
                draft.read_row(row.number, row.bytes)?;
                rest = row.rest;
                next = row.next;
            }
            Err(last) => return draft.finish(head.clauses, last),
        }
    }
}

/// The formula that a CNF text says, or its first refusal.
pub fn read_cnf(alloc: Global, bytes: &[u8]) -> Result<Formula, CnfRefusal>
    ensures ok { IfOk result (λ formula. cnf_of bytes.now ≡ Ok formula) }
    ensures err { IfErr result (λ refusal. (refusal ≡ CnfRefusal.NoMemory) ⊎ (cnf_of bytes.now ≡ Err refusal)) }
{
    if bytes.len() > MOST_BYTES {
        return Err(CnfRefusal::TooLong);
    }
    let first = match next_row(bytes, 1) {
        Ok(first) => first,
        Err(line) => return Err(CnfRefusal::Header { line }),
    };
    let line = first.number;
    let Some(head) = read_head(first.bytes) else {
        return Err(CnfRefusal::Header { line });
    };
    if head.is_too_large() {
        return Err(CnfRefusal::TooLarge { line });
    }
    read_body(alloc, head, first.rest, first.next)
}

//! The names of inputs and outputs: those that a line gives, and those that they have where none does.
ghost use Rattle.std.specs.Prelude.{◌≡◌, ℕ, ◌≤◌, ◌∷◌, decimal, IfOk, map, false, true, MatchOption};
ghost use Rattle.std.specs.List.{AllByRecursion};
ghost use Rattle.pla_reader.specs.Name.{IsName};
ghost use Rattle.pla_reader.specs.Lines.{words_of};
ghost use Rattle.pla_reader.specs.Faults.{are_different};
ghost use Rattle.pla_reader.specs.Names.{bytes_of, default_names};

use crate::name::Name;
use crate::word::next_word;
use indexmap::IndexSet;
use itoa::Buffer;
use std::alloc::Global;
use wire_io::fault::NoMemory;

/// A letter from `!` to `~` and a number.
fn default_name(alloc: Global, letter: u8, number: u8) -> Result<Name, NoMemory>
    requires low { 33 ≤ letter }
    requires high { letter ≤ 126 }
    ensures { IfOk result (λ name. bytes_of name ≡ letter ∷ decimal number) }
{
    let mut digits = Buffer::new();
    let mut bytes = vec![in alloc; letter]?;
    bytes.extend_from_slice(digits.format(number).as_bytes())?;
    Ok(Name::new(bytes).unwrap())
}

/// The default names of so many: a letter from `!` to `~` and the numbers from 0 on.
pub fn default_names_of(alloc: Global, letter: u8, many: u8) -> Result<IndexSet<Name>, NoMemory>
    requires low { 33 ≤ letter }
    requires high { letter ≤ 126 }
    ensures { IfOk result (λ names. map bytes_of names.keys ≡ default_names letter many) }
{
    let mut names = IndexSet::new(alloc);
    for number in 0..many {
        names.insert(default_name(alloc, letter, number)?)?;
    }
    Ok(names)
}

/// The name with these bytes.
fn name_of(alloc: Global, word: &[u8]) -> Result<Name, NoMemory>
    requires { IsName word.now }
    ensures { IfOk result (λ name. bytes_of name ≡ word.now) }
{
    let bytes = word.to_vec(alloc)?;
    Ok(Name::new(bytes).unwrap())
}

/// The words of a text as names: None exactly where two of them are equal.
pub fn names_at(alloc: Global, text: &[u8]) -> Result<Option<IndexSet<Name>>, NoMemory>
    requires { AllByRecursion IsName (words_of text.now) }
    ensures { IfOk result (λ found. MatchOption found (are_different (words_of text.now) ≡ false)
        (λ names. (are_different (words_of text.now) ≡ true) × (map bytes_of names.keys ≡ words_of text.now))) }
{
    let mut names = IndexSet::new(alloc);
    let mut rest = text;
    while let Some((word, after)) = next_word(rest) {
        let is_new = names.insert(name_of(alloc, word)?)?;
        if !is_new {
            return Ok(None);
        }
        rest = after;
    }
    Ok(Some(names))
}

//! The words of the command line.
ghost use Rattle.std.specs.Prelude.{◌≡◌, ◌≤◌, ℕ, [], List, true, false, map, string_bytes, codes, Some, None, Err, IfOk, IfSome, IsSomeAnd, option_and_then, if◌then◌else◌};
ghost use Rattle.std.specs.Str.{bytes_eq};
ghost use Rattle.std.specs.Str.Parse.{digits_value};
ghost use Rattle.std.specs.List.{list_all};
ghost use Rattle.std.specs.Char.{is_ascii_digit};
ghost use Rattle.clap.specs.Words.{app_of, kind_of, rule_of};
ghost use Rattle.clap.specs.declared.error.kind.ErrorKind.TheVariants.{OutOfMemory};
ghost use Rattle.four_lattice.specs.Words.{Given, given_of, is_number, is_plain, job_from, job_of, number_given, cols_setting, conflicts_setting, output_setting, rails_setting, rows_setting, row_of, size_given, synth_given, map_given, trial_given, numbered_of, asked_by, is_small, verb_of, IsWithinBounds};
ghost use Rattle.four_lattice.specs.WordsParts.{Shows, bare_app, file_rule, is_option, is_spelled, number_rule, row_app, verb_name};

use clap::error::ErrorKind;
use clap::{Arg, ArgMatches, Command, value_parser};
use lattice_grid::rails::{ALL_RAILS, Rails};
use lattice_grid::shape::Shape;
use std::alloc::{AllocError, Global};

/// What the words ask for.
#[derive(Clone, Copy, Debug, PartialEq, Eq)]
pub enum Job {
    /// `pairs`: the pairs lattices of a PLA, of one output or of all.
    Pairs {
        output: Option<u32>,
    },
    /// `dual`: the dual lattices of a PLA, of one output or of all.
    Dual {
        output: Option<u32>,
    },
    /// `cnf`: the formula of a shape for one output of a PLA.
    Cnf {
        output: u32,
        shape: Shape,
    },
    /// `verify FILE`: whether the lattices of the report in a file realise the outputs of a PLA.
    Verify,
    /// `check FILE`: whether the steps of a file refute a CNF.
    Check,
    /// `audit FILE`: whether the journal in a file is right for a PLA.
    Audit,
    /// `renew FILE`: the journal in a file, where it is right for a PLA, in version 2 with its lists of proofs.
    Renew,
    /// `synth FILE`: lattices of least area of a PLA, of one output or of all, over the literals that rails allow, and a
    /// journal in a file that shows it; at most so many conflicts for each question.
    Synth {
        conflicts: u32,
        output: Option<u32>,
        rails: Rails,
    },
    /// `map FILE`: a lattice for one output of a PLA on the array with stuck switches that follows the PLA, and a journal in a file
    /// that shows what is answered; at most so many conflicts.
    Map {
        conflicts: u32,
        output: u32,
    },
    /// `trial N FILE`: lattices of least area of all outputs of the PLA that a number makes, a journal in a file that shows it, and
    /// a line that sums them up; at most so many conflicts for each question.
    Trial {
        conflicts: u32,
        number: u32,
    },
}

/// A command, as its word names it.
#[derive(Clone, Copy, Debug, PartialEq, Eq)]
pub(crate) enum Verb {
    Pairs,
    Dual,
    Cnf,
    Verify,
    Check,
    Audit,
    Renew,
    Synth,
    Map,
    Trial,
}

/// Why the words give no job.
#[derive(Clone, Copy, Debug, PartialEq, Eq)]
pub enum WordsFault {
    /// They are not settings of a command.
    Refused,
    /// Memory was wanting.
    NoMemory,
}

impl From<clap::Error> for WordsFault {
    ghost use Rattle.four_lattice.specs.declared.words.WordsFault.{WordsFault};

    ghost from_gives = { λ e fault. fault ≡ WordsFault.Refused → kind_of e ≡ OutOfMemory → ⊥ };

    fn from(error: clap::Error) -> WordsFault {
        if error.kind() == ErrorKind::OutOfMemory {
            WordsFault::NoMemory
        } else {
            WordsFault::Refused
        }
    }
}

impl From<AllocError> for WordsFault {
    ghost use Rattle.four_lattice.specs.declared.words.WordsFault.{WordsFault};

    ghost from_gives = { λ _ fault. fault ≡ WordsFault.NoMemory };

    fn from(_error: AllocError) -> WordsFault {
        WordsFault::NoMemory
    }
}

/// The command that a word names.
pub(crate) fn verb_of(word: &str) -> Option<Verb>
    ensures { result ≡ verb_of word.now }
{
    match word {
        "pairs" => Some(Verb::Pairs),
        "dual" => Some(Verb::Dual),
        "cnf" => Some(Verb::Cnf),
        "verify" => Some(Verb::Verify),
        "check" => Some(Verb::Check),
        "audit" => Some(Verb::Audit),
        "renew" => Some(Verb::Renew),
        "synth" => Some(Verb::Synth),
        "map" => Some(Verb::Map),
        "trial" => Some(Verb::Trial),
        _ => None,
    }
}

/// Whether a word is plain: not empty, and without a `-` in front.
fn is_plain_word(word: &str) -> bool
    ensures { result ≡ is_plain word.now }
{
    match word.as_bytes() {
        [] => false,
        [first, ..] => *first != b'-',
    }
}

/// Whether bytes are decimal digits.
fn are_digits(bytes: &[u8]) -> bool
    ensures { result ≡ list_all is_ascii_digit bytes.now }
{
    bytes.iter().all(|byte| byte.is_ascii_digit())
}

/// Whether a word is a number: at most ten decimal digits, the first of them no zero but in `0` itself.
fn is_number_word(word: &str) -> bool
    ensures { result ≡ is_number word.now }
{
    let digits = word.as_bytes();
    match digits {
        [] => false,
        [first, rest @ ..] => {
            are_digits(digits) && digits.len() <= 10 && (*first != b'0' || rest.is_empty())
        }
    }
}

/// Whether a word is an option of some command.
fn is_option_word(word: &str) -> bool
    ensures { result ≡ is_option word.now }
{
    matches!(
        word,
        "--output" | "--rows" | "--cols" | "--conflicts" | "--rails"
    )
}

/// Whether words are all plain.
fn are_plain_words(words: &[String]) -> bool
    ensures { result ≡ list_all is_plain (map string_bytes words.now) }
{
    words.iter().all(|word| is_plain_word(word.as_str()))
}

/// Whether words are options, each before its number, and then plain words.
fn are_spelled(words: &[String]) -> bool
    ensures { result ≡ is_spelled (map string_bytes words.now) }
{
    let mut rest = words;
    while let [name, value, after @ ..] = rest {
        if !is_option_word(name.as_str()) {
            return are_plain_words(rest);
        }
        if !is_number_word(value.as_str()) {
            return false;
        }
        rest = after;
    }
    are_plain_words(rest)
}

/// A command that has no flags of its own and reads words from the first on.
fn bare_command<'a>(alloc: Global, name: &'a str) -> Command<'a>
    ensures { app_of result ≡ bare_app name.entry.now }
{
    Command::new(alloc, name)
        .no_binary_name(true)
        .disable_help_flag(true)
        .disable_version_flag(true)
}

/// An option with a number from `least` to `most`.
fn number_option<'a>(alloc: Global, name: &'a str, least: u32, most: u32) -> Arg<'a>
    ensures rule { rule_of result ≡ number_rule (record { name = name.entry.now; least = least; most = most }) }
    ensures local { result.global ≡ false }
{
    Arg::new(alloc, name).long(name).value_parser(value_parser!(u32).range(
        i64::from(least)..=i64::from(most),
    ))
}

/// `--output`, of 0 to 63.
fn output_option<'a>(alloc: Global) -> Arg<'a>
    ensures rule { rule_of result ≡ number_rule output_setting }
    ensures local { result.global ≡ false }
{
    number_option(alloc, "output", 0, 63)
}

/// `--rows`, of 1 to 16.
fn rows_option<'a>(alloc: Global) -> Arg<'a>
    ensures rule { rule_of result ≡ number_rule rows_setting }
    ensures local { result.global ≡ false }
{
    number_option(alloc, "rows", 1, 16)
}

/// `--cols`, of 1 to 16.
fn cols_option<'a>(alloc: Global) -> Arg<'a>
    ensures rule { rule_of result ≡ number_rule cols_setting }
    ensures local { result.global ≡ false }
{
    number_option(alloc, "cols", 1, 16)
}

/// The most conflicts for a question that may be asked for.
const MOST_CONFLICTS: u32 = 200_000;

/// The conflicts for a question where none are asked for.
const USUAL_CONFLICTS: u32 = 20_000;

/// `--conflicts`, of 0 to 200,000.
fn conflicts_option<'a>(alloc: Global) -> Arg<'a>
    ensures rule { rule_of result ≡ number_rule conflicts_setting }
    ensures local { result.global ≡ false }
{
    number_option(alloc, "conflicts", 0, MOST_CONFLICTS)
}

/// `--rails`, of 0 to 1,048,575.
fn rails_option<'a>(alloc: Global) -> Arg<'a>
    ensures rule { rule_of result ≡ number_rule rails_setting }
    ensures local { result.global ≡ false }
{
    number_option(alloc, "rails", 0, ALL_RAILS)
}

/// The file that a command wants.
fn file_argument<'a>(alloc: Global) -> Arg<'a>
    ensures rule { rule_of result ≡ file_rule }
    ensures local { result.global ≡ false }
{
    Arg::new(alloc, "FILE").required(true)
}

/// The command that `clap` is to read the words by.
fn command_of<'a>(alloc: Global, verb: Verb) -> Result<Command<'a>, AllocError>
    ensures { IfOk result (λ command. app_of command ≡ row_app (verb_name verb) (row_of verb)) }
{
    match verb {
        Verb::Pairs => bare_command(alloc, "pairs").arg(output_option(alloc)),
        Verb::Dual => bare_command(alloc, "dual").arg(output_option(alloc)),
        Verb::Cnf => bare_command(alloc, "cnf")
            .arg(rows_option(alloc))?
            .arg(cols_option(alloc))?
            .arg(output_option(alloc)),
        Verb::Verify => bare_command(alloc, "verify").arg(file_argument(alloc)),
        Verb::Check => bare_command(alloc, "check").arg(file_argument(alloc)),
        Verb::Audit => bare_command(alloc, "audit").arg(file_argument(alloc)),
        Verb::Renew => bare_command(alloc, "renew").arg(file_argument(alloc)),
        Verb::Synth => bare_command(alloc, "synth")
            .arg(conflicts_option(alloc))?
            .arg(output_option(alloc))?
            .arg(rails_option(alloc))?
            .arg(file_argument(alloc)),
        Verb::Map => bare_command(alloc, "map")
            .arg(conflicts_option(alloc))?
            .arg(output_option(alloc))?
            .arg(file_argument(alloc)),
        // The word before the file, which is the number, stands in its place.
        Verb::Trial => bare_command(alloc, "trial")
            .arg(conflicts_option(alloc))?
            .arg(file_argument(alloc)),
    }
}

/// What `clap` finds in words that are spelled as they are to be.
fn matches_of<'a>(
    alloc: Global,
    verb: Verb,
    words: &'a [String],
) -> Result<ArgMatches<'a>, WordsFault>
    requires { is_spelled (map string_bytes words.now) ≡ true }
    ensures ok { IfOk result (λ matches. IsSomeAnd (given_of (row_of verb) [] (map string_bytes words.entry.now)) (λ given. Shows given matches)) }
    ensures refused { result ≡ Err WordsFault.Refused → given_of (row_of verb) [] (map string_bytes words.entry.now) ≡ None }
{
    let command = command_of(alloc, verb)?;
    Ok(command.try_get_matches_from(words)?)
}

/// The number that was given for a name.
fn number_found(matches: &ArgMatches<'_>, name: &str) -> Option<u32>
    ensures { (given : Given) → Shows given matches.now → bytes_eq (codes "FILE") name.now ≡ false → result ≡ number_given name.now given }
{
    matches.get_one::<u32>(name)
}

/// The most rows and the most columns of a shape that is asked for.
const MOST_SIDE: u32 = 16;

/// The shape of so many rows and columns, where both are given, each from 1 to 16.
fn shape_found(rows: Option<u32>, cols: Option<u32>) -> Option<Shape>
    ensures same { result ≡ size_given rows cols }
    ensures small { IfSome result (λ size. (size.rows ≤ 16) × (size.cols ≤ 16)) }
{
    let (rows, cols) = (rows?, cols?);
    if rows > MOST_SIDE || cols > MOST_SIDE {
        return None;
    }
    Shape::new(rows, cols)
}

/// The job `synth` of so many conflicts and of rails by their number, where neither is above what may be asked for.
fn synth_found(conflicts: u32, output: Option<u32>, rails: u32) -> Option<Job>
    ensures same { result ≡ synth_given conflicts output rails }
    ensures within { IfSome result IsWithinBounds }
{
    if conflicts > MOST_CONFLICTS {
        return None;
    }
    let rails = Rails::new(rails)?;
    Some(Job::Synth {
        conflicts,
        output,
        rails,
    })
}

/// The job `map` of so many conflicts, where these are not above what may be asked for.
fn map_found(conflicts: u32, output: u32) -> Option<Job>
    ensures same { result ≡ map_given conflicts output }
    ensures within { IfSome result IsWithinBounds }
{
    if conflicts > MOST_CONFLICTS {
        return None;
    }
    Some(Job::Map { conflicts, output })
}

/// The job `trial` of so many conflicts and of a number, where there is one and the conflicts are not above what may be asked for.
fn trial_found(conflicts: u32, number: Option<u32>) -> Option<Job>
    ensures same { result ≡ trial_given conflicts number }
    ensures within { IfSome result IsWithinBounds }
{
    let number = number?;
    if conflicts > MOST_CONFLICTS {
        return None;
    }
    Some(Job::Trial { conflicts, number })
}

/// The job of a command for which this was found, with the number before its file where it has one.
fn job_found(verb: Verb, number: Option<u32>, matches: &ArgMatches<'_>) -> Option<Job>
    ensures job { (given : Given) → Shows given matches.now → result ≡ job_from verb number given }
    ensures small { IfSome result IsWithinBounds }
{
    match verb {
        Verb::Pairs => Some(Job::Pairs {
            output: number_found(matches, "output"),
        }),
        Verb::Dual => Some(Job::Dual {
            output: number_found(matches, "output"),
        }),
        Verb::Cnf => {
            let shape = shape_found(number_found(matches, "rows"), number_found(matches, "cols"))?;
            Some(Job::Cnf {
                output: number_found(matches, "output").unwrap_or(0),
                shape,
            })
        }
        Verb::Verify => Some(Job::Verify),
        Verb::Check => Some(Job::Check),
        Verb::Audit => Some(Job::Audit),
        Verb::Renew => Some(Job::Renew),
        Verb::Synth => synth_found(
            number_found(matches, "conflicts").unwrap_or(USUAL_CONFLICTS),
            number_found(matches, "output"),
            number_found(matches, "rails").unwrap_or(ALL_RAILS),
        ),
        Verb::Map => map_found(
            number_found(matches, "conflicts").unwrap_or(USUAL_CONFLICTS),
            number_found(matches, "output").unwrap_or(0),
        ),
        Verb::Trial => trial_found(
            number_found(matches, "conflicts").unwrap_or(USUAL_CONFLICTS),
            number,
        ),
    }
}

/// The job that a command, the number before its file where it has one, and the other words after it ask for.
fn job_given(
    alloc: Global,
    verb: Verb,
    number: Option<u32>,
    words: &[String],
) -> Result<Job, WordsFault>
    ensures ok { IfOk result (λ job. option_and_then (job_from verb number) (given_of (row_of verb) [] (map string_bytes words.now)) ≡ Some job) }
    ensures refused { result ≡ Err WordsFault.Refused → option_and_then (job_from verb number) (given_of (row_of verb) [] (map string_bytes words.now)) ≡ None }
    ensures small { IfOk result IsWithinBounds }
{
    if !are_spelled(words) {
        return Err(WordsFault::Refused);
    }
    let matches = matches_of(alloc, verb, words)?;
    match job_found(verb, number, &matches) {
        Some(job) => Ok(job),
        None => Err(WordsFault::Refused),
    }
}

/// The number that a word is, where it is one below 4,294,967,296.
fn small_number(word: &str) -> Option<u32>
    ensures { result ≡ if is_small word.now then Some (digits_value 10 word.now) else None }
{
    if !is_number_word(word) {
        return None;
    }
    match word.parse::<u32>() {
        Ok(number) => Some(number),
        Err(_) => None,
    }
}

/// The job that a command asks for that has a number before its file.
fn job_numbered(alloc: Global, verb: Verb, words: &[String]) -> Result<Job, WordsFault>
    ensures ok { IfOk result (λ job. option_and_then (λ found. job_from verb found.0 found.1) (numbered_of (row_of verb) (map string_bytes words.now)) ≡ Some job) }
    ensures refused { result ≡ Err WordsFault.Refused → option_and_then (λ found. job_from verb found.0 found.1) (numbered_of (row_of verb) (map string_bytes words.now)) ≡ None }
    ensures small { IfOk result IsWithinBounds }
{
    let [before @ .., file] = words else {
        return Err(WordsFault::Refused);
    };
    let [.., word] = before else {
        return Err(WordsFault::Refused);
    };
    if !is_plain_word(file.as_str()) {
        return Err(WordsFault::Refused);
    }
    match small_number(word.as_str()) {
        Some(number) => job_given(alloc, verb, Some(number), before),
        None => Err(WordsFault::Refused),
    }
}

/// Whether a command wants a number before its file.
fn wants_number(verb: Verb) -> bool
    ensures { result ≡ (row_of verb).wants_number }
{
    match verb {
        Verb::Trial => true,
        Verb::Pairs
        | Verb::Dual
        | Verb::Cnf
        | Verb::Verify
        | Verb::Check
        | Verb::Audit
        | Verb::Renew
        | Verb::Synth
        | Verb::Map => false,
    }
}

/// The job that a command and the words after it ask for.
fn job_asked(alloc: Global, verb: Verb, words: &[String]) -> Result<Job, WordsFault>
    ensures ok { IfOk result (λ job. option_and_then (λ found. job_from verb found.0 found.1) (asked_by (row_of verb) (map string_bytes words.now)) ≡ Some job) }
    ensures refused { result ≡ Err WordsFault.Refused → option_and_then (λ found. job_from verb found.0 found.1) (asked_by (row_of verb) (map string_bytes words.now)) ≡ None }
    ensures small { IfOk result IsWithinBounds }
{
    if wants_number(verb) {
        job_numbered(alloc, verb, words)
    } else {
        job_given(alloc, verb, None, words)
    }
}

/// The job that the words after the program's name ask for: refused exactly where they are no command's.
pub fn settings(alloc: Global, words: &[String]) -> Result<Job, WordsFault>
    ensures ok { IfOk result (λ job. job_of (map string_bytes words.now) ≡ Some job) }
    ensures refused { result ≡ Err WordsFault.Refused → job_of (map string_bytes words.now) ≡ None }
    ensures small { IfOk result IsWithinBounds }
{
    let [name, rest @ ..] = words else {
        return Err(WordsFault::Refused);
    };
    match verb_of(name.as_str()) {
        Some(verb) => job_asked(alloc, verb, rest),
        None => Err(WordsFault::Refused),
    }
}

//! The values of the arguments of a command.
ghost use Rattle.std.specs.Prelude.{◌≡◌, ◌≤◌, ◌++◌, ℕ, map, Option, IfOk, IfErr, IfSome, MatchOption, codes, string_bytes};
ghost use Rattle.clap.specs.Words.{found_of, rows_of};
ghost use Rattle.asl_command_line.specs.Words.{AreDebugWords, AreEntriesAt, IsFlagAt, IsLengthAt, IsLimitAt, IsNumberAt, value_at, words_at};
ghost use Rattle.asl_command_line.specs.Externs.{AreExterns, IsExternsFault};
ghost use Rattle.asl_command_line.specs.Number.{AreNumbers, IsNumber};
ghost use Rattle.asl_command_line.specs.Reading.{IsDebugWordsFault, IsEntriesFault, IsLimit, IsNamedNumber, IsNamedWord, IsNumbersFault, IsUsage};
ghost use Rattle.asl_command_line.specs.Usage.{SaysWhereHelpIs, help_is_there, invalid_text, usage_text};

use crate::command::{Invocation, Replacement};
use crate::debug_word::DebugWord;
use crate::debug_words::{DebugWordsFault, debug_words};
use crate::entry_words::{EntriesFault, entries};
use crate::extern_words::{ExternsFault, externs};
use crate::number_words::{NumbersFault, number, numbers};
use crate::path_limit::PathLimit;
use clap::ArgMatches;
use std::alloc::{AllocError, Global};

/// What a number must be.
pub(crate) const A_NUMBER: &str = "not a number from 0 to 4294967295";

/// What a length of paths must be.
pub(crate) const A_PATH_LIMIT: &str = "not a number from 0 to 8";

/// What a length of paths must be where there is a longest one, too.
pub(crate) const A_PATH_LIMIT_OR_AUTO: &str = "neither a number from 0 to 8 nor auto";

/// What an entry must be.
pub(crate) const A_NAME: &str = "not the name of a function";

/// Where usage is explained.
pub(crate) const HELP_IS_THERE: &str = "For more information, try '--help'.\n";

/// What a word of the debugger must be.
pub(crate) const A_WORD: &str =
    "not one of goto, forward, back, next, prev, break, clear, view, asks, stack, objects";

/// Whether the flag was given.
pub(crate) fn flag_at(values: &ArgMatches<'_>, name: &str) -> bool
    ensures { IsFlagAt name.now (rows_of (found_of values.now)) result }
{
    values.get_flag(name)
}

/// The number that is the argument's value, or the value that is none.
pub(crate) fn number_at<'a>(values: &ArgMatches<'a>, name: &str) -> Result<u32, &'a str>
    ensures ok { IfOk result (IsNumberAt name.now (rows_of (found_of values.now))) }
    ensures err { IfErr result (λ _. (number : ℕ) → IsNumberAt name.now (rows_of (found_of values.now)) number → ⊥) }
    ensures named { IfErr result (λ word. word.now ≡ value_at name.now (rows_of (found_of values.now))) }
{
    match values.get_str(name) {
        Some(word) => match number(word) {
            Some(number) => Ok(number),
            None => Err(word),
        },
        None => Err(""),
    }
}

/// The value of `--k`, or the value that is none.
pub(crate) fn k_limit_at<'a>(values: &ArgMatches<'a>) -> Result<PathLimit, &'a str>
    ensures ok { IfOk result (λ k_limit. IsLengthAt (rows_of (found_of values.now)) k_limit) }
    ensures err { IfErr result (λ _. (k_limit : ℕ) → k_limit ≤ 8 → IsLengthAt (rows_of (found_of values.now)) k_limit → ⊥) }
    ensures named { IfErr result (λ word. word.now ≡ value_at (codes "k") (rows_of (found_of values.now))) }
{
    match values.get_str("k") {
        Some(word) => match length(word) {
            Some(k_limit) => Ok(k_limit),
            None => Err(word),
        },
        None => Ok(PathLimit::usual()),
    }
}

/// The value of `--k`, or the value that is none; none where it is `auto`.
pub(crate) fn some_k_limit_at<'a>(values: &ArgMatches<'a>) -> Result<Option<PathLimit>, &'a str>
    ensures ok { IfOk result (IsLimitAt (rows_of (found_of values.now))) }
    ensures err { IfErr result (λ _. (k_limit : Option ℕ) → IfSome k_limit (λ k. k ≤ 8) → IsLimitAt (rows_of (found_of values.now)) k_limit → ⊥) }
    ensures named { IfErr result (λ word. word.now ≡ value_at (codes "k") (rows_of (found_of values.now))) }
{
    match values.get_str("k") {
        Some(word) => match limit(word) {
            Some(k_limit) => Ok(k_limit),
            None => Err(word),
        },
        None => Ok(Some(PathLimit::usual())),
    }
}

/// The limit that the word is, if it is one; none where it is `auto`.
fn limit(word: &str) -> Option<Option<PathLimit>>
    ensures { MatchOption result ((k : Option ℕ) → IfSome k (λ n. n ≤ 8) → IsLimit word.now k → ⊥) (IsLimit word.now) }
{
    if word == "auto" {
        return Some(None);
    }
    match length(word) {
        Some(k_limit) => Some(Some(k_limit)),
        None => None,
    }
}

/// The length of paths that the word is, if it is one.
fn length(word: &str) -> Option<PathLimit>
    ensures { MatchOption result ((n : ℕ) → n ≤ 8 → IsNumber word.now n → ⊥) (λ k_limit. IsNumber word.now k_limit) }
{
    match number(word) {
        Some(number) => PathLimit::of(number),
        None => None,
    }
}

/// The numbers that are the argument's words.
pub(crate) fn numbers_at<'a>(
    alloc: Global,
    values: &ArgMatches<'a>,
    name: &str,
) -> Result<Vec<u32>, NumbersFault<'a>>
    ensures ok { IfOk result (λ numbers. AreNumbers (words_at name.now (rows_of (found_of values.now))) numbers.items) }
    ensures err { IfErr result (IsNumbersFault (words_at name.now (rows_of (found_of values.now)))) }
    ensures named { IfErr result (IsNamedNumber (words_at name.now (rows_of (found_of values.now)))) }
{
    match values.get_strs(name) {
        Some(words) => numbers(alloc, words),
        None => Ok(Vec::new(alloc)),
    }
}

/// The values of `--entry`.
pub(crate) fn entries_at<'a>(
    alloc: Global,
    values: &ArgMatches<'a>,
) -> Result<Vec<String>, EntriesFault<'a>>
    ensures ok { IfOk result (λ entries. AreEntriesAt (rows_of (found_of values.now)) (map string_bytes entries.items)) }
    ensures err { IfErr result (IsEntriesFault (words_at (codes "entry") (rows_of (found_of values.now)))) }
{
    match values.get_strs("entry") {
        Some(words) => entries(alloc, words),
        None => Ok(Vec::new(alloc)),
    }
}

/// The values of `--extern`.
pub(crate) fn externs_at<'a>(
    alloc: Global,
    values: &ArgMatches<'a>,
) -> Result<Vec<Replacement>, ExternsFault<'a>>
    ensures ok { IfOk result (λ pairs. AreExterns (words_at (codes "extern") (rows_of (found_of values.now))) pairs.items) }
    ensures err { IfErr result (IsExternsFault (words_at (codes "extern") (rows_of (found_of values.now)))) }
{
    match values.get_strs("extern") {
        Some(words) => externs(alloc, words),
        None => Ok(Vec::new(alloc)),
    }
}

/// What the words ask the debugger for.
pub(crate) fn debug_words_at<'a>(
    alloc: Global,
    values: &ArgMatches<'a>,
) -> Result<Vec<DebugWord>, DebugWordsFault<'a>>
    ensures ok { IfOk result (λ words. AreDebugWords (words_at (codes "words") (rows_of (found_of values.now))) words.items) }
    ensures err { IfErr result (IsDebugWordsFault (words_at (codes "words") (rows_of (found_of values.now)))) }
    ensures named { IfErr result (IsNamedWord (words_at (codes "words") (rows_of (found_of values.now)))) }
{
    match values.get_strs("words") {
        Some(words) => debug_words(alloc, words),
        None => Ok(Vec::new(alloc)),
    }
}

/// Says that the argument's value is none.
pub(crate) fn invalid(
    alloc: Global,
    word: &str,
    argument: &str,
    why: &str,
) -> Result<Invocation, AllocError>
    ensures { IfOk result (IsUsage (invalid_text word.now argument.now why.now)) }
{
    let mut text = String::from_str(alloc, "error: invalid value '")?;
    text.push_str(word)?;
    text.push_str("' for '")?;
    text.push_str(argument)?;
    text.push_str("': ")?;
    text.push_str(why)?;
    let text = with_help(text)?;
    Ok(Invocation::WrongUsage(text))
}

/// Says why the words are no legal use.
pub(crate) fn wrong_usage(alloc: Global, why: &str) -> Result<Invocation, AllocError>
    ensures { IfOk result (IsUsage (usage_text why.now)) }
{
    let text = format!(in alloc; "error: {why}\n\n{HELP_IS_THERE}")?;
    Ok(Invocation::WrongUsage(text))
}

/// The text, and after an empty line where help is.
pub(crate) fn with_help(text: String) -> Result<String, AllocError>
    ensures whole { IfOk result (λ all. string_bytes all ≡ string_bytes text ++ codes "\n\n" ++ help_is_there) }
    ensures says { IfOk result (λ all. SaysWhereHelpIs (string_bytes all)) }
{
    let mut text = text;
    text.push_str("\n\n")?;
    text.push_str(HELP_IS_THERE)?;
    Ok(text)
}

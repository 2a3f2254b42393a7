//! Reads the words of a command line.
ghost use Rattle.std.specs.Prelude.{◌≡◌, ◌≢◌, true, map, IfOk, string_bytes, codes};
ghost use Rattle.clap.specs.Words.{found_of, kind_of, rows_of, subcommand_rows_of};
ghost use Rattle.asl_command_line.specs.Externs.{why_text};
ghost use Rattle.asl_command_line.specs.Words.{AreEntriesAt, AsksFor, IsLengthAt, IsLimitAt, IsReading, IsTaken};
ghost use Rattle.asl_command_line.specs.Reading.{IsRefusal, IsUsage};
ghost use Rattle.asl_command_line.specs.Usage.{SaysWhereHelpIs, a_name, invalid_text};

use crate::apart::read_apart;
use crate::argument_values::{
    A_NAME, A_NUMBER, A_PATH_LIMIT, A_PATH_LIMIT_OR_AUTO, A_WORD, HELP_IS_THERE, debug_words_at,
    entries_at, externs_at, flag_at, invalid, k_limit_at, number_at, numbers_at, some_k_limit_at,
    with_help, wrong_usage,
};
use crate::arguments::program;
use crate::command::{Command, Invocation, RunArguments};
use crate::debug_words::DebugWordsFault;
use crate::entry_words::EntriesFault;
use crate::extern_words::{ExternsFault, WhyNot, why_text};
use crate::help::page_of;
use crate::number_words::{NumbersFault, number};
use crate::path_limit::PathLimit;
use clap::error::ErrorKind;
use clap::{ArgMatches, Error};
use std::alloc::{AllocError, Global};

/// Judges the words, which are those after the program's name.
///
/// # Errors
///
/// An allocation failed.
pub fn read_words(alloc: Global, words: &[String]) -> Result<Invocation, AllocError>
    ensures { IfOk result (AsksFor (map string_bytes words.now)) }
{
    match read_apart(alloc, words)? {
        Some(command) => Ok(Invocation::Alone(command)),
        None => read_all(alloc, words),
    }
}

/// The same by `clap` alone.
pub fn read_all(alloc: Global, words: &[String]) -> Result<Invocation, AllocError>
    ensures { IfOk result (AsksFor (map string_bytes words.now)) }
{
    match program(alloc)?.try_get_matches_from(words) {
        Ok(matches) => read_matches(alloc, &matches),
        Err(error) => refused(alloc, words, &error),
    }
}

/// What words ask for that were taken.
fn read_matches(alloc: Global, matches: &ArgMatches<'_>) -> Result<Invocation, AllocError>
    ensures { IfOk result (IsTaken (subcommand_rows_of matches.now)) }
{
    match matches.subcommand() {
        Some((name, values)) => read_command(alloc, name, values),
        None => wrong_usage(alloc, "'asl' requires a command but one was not provided"),
    }
}

/// What a command asks for.
fn read_command(
    alloc: Global,
    name: &str,
    values: &ArgMatches<'_>,
) -> Result<Invocation, AllocError>
    ensures { IfOk result (IsReading name.now (rows_of (found_of values.now))) }
{
    match name {
        "step" => read_step(alloc, values),
        "asm" => Ok(Invocation::Alone(Command::Assemble)),
        "dis" => Ok(Invocation::Alone(Command::Disassemble)),
        "compile" => read_compile(alloc, values),
        "check" => read_check(alloc, values),
        "map" => Ok(Invocation::Alone(Command::Map)),
        "explain" => read_explain(alloc, values),
        "lists" => read_lists(alloc, values),
        "diagnose" => read_diagnose(alloc, values),
        "c" => read_c(alloc, values),
        "replay" => Ok(Invocation::Alone(Command::Replay)),
        "log" => Ok(read_log(values)),
        "debug" => read_debug(alloc, values),
        "run" => read_run(alloc, values),
        _ => wrong_usage(alloc, "the command is unknown"),
    }
}

/// The words of `asl step` as a command, or why they are none.
fn read_step(alloc: Global, values: &ArgMatches<'_>) -> Result<Invocation, AllocError>
    ensures { IfOk result (IsReading (codes "step") (rows_of (found_of values.now))) }
{
    let threads = match number_at(values, "threads") {
        Ok(threads) => threads,
        Err(word) => return invalid(alloc, word, "--threads <N>", A_NUMBER),
    };
    let record = flag_at(values, "record");
    match numbers_at(alloc, values, "schedule") {
        Ok(schedule) => Ok(Invocation::Alone(Command::Step {
            threads,
            schedule,
            record,
        })),
        Err(NumbersFault::NoNumber(word)) => invalid(alloc, word, "<T>...", A_NUMBER),
        Err(NumbersFault::OutOfMemory) => Err(AllocError),
    }
}

/// The words of `asl run` as a command, or why they are none.
fn read_run(alloc: Global, values: &ArgMatches<'_>) -> Result<Invocation, AllocError>
    ensures { IfOk result (IsReading (codes "run") (rows_of (found_of values.now))) }
{
    let threads = match number_at(values, "threads") {
        Ok(threads) => threads,
        Err(word) => return invalid(alloc, word, "--threads <N>", A_NUMBER),
    };
    let workers = match number_at(values, "workers") {
        Ok(workers) => workers,
        Err(word) => return invalid(alloc, word, "--workers <W>", A_NUMBER),
    };
    let limit = match number_at(values, "limit") {
        Ok(limit) => limit,
        Err(word) => return invalid(alloc, word, "--limit <L>", A_NUMBER),
    };
    let record = flag_at(values, "record");
    Ok(Invocation::Run(RunArguments {
        threads,
        workers,
        limit,
        record,
    }))
}

/// The words of `asl compile` as a command, or why they are none.
fn read_compile(alloc: Global, values: &ArgMatches<'_>) -> Result<Invocation, AllocError>
    ensures { IfOk result (IsReading (codes "compile") (rows_of (found_of values.now))) }
{
    match k_limit_at(values) {
        Ok(k_limit) => {
            let text = flag_at(values, "text");
            Ok(Invocation::Alone(Command::Compile { k_limit, text }))
        }
        Err(word) => invalid(alloc, word, "--k <K>", A_PATH_LIMIT),
    }
}

/// The words of `asl check` as a command, or why they are none.
fn read_check(alloc: Global, values: &ArgMatches<'_>) -> Result<Invocation, AllocError>
    ensures { IfOk result (IsReading (codes "check") (rows_of (found_of values.now))) }
{
    match k_limit_at(values) {
        Ok(k_limit) => {
            let all = flag_at(values, "all");
            Ok(Invocation::Alone(Command::Check { k_limit, all }))
        }
        Err(word) => invalid(alloc, word, "--k <K>", A_PATH_LIMIT),
    }
}

/// The words of `asl explain` as a command, or why they are none.
fn read_explain(alloc: Global, values: &ArgMatches<'_>) -> Result<Invocation, AllocError>
    ensures { IfOk result (IsReading (codes "explain") (rows_of (found_of values.now))) }
{
    match k_limit_at(values) {
        Ok(k_limit) => {
            let all = flag_at(values, "all");
            let classes = flag_at(values, "classes");
            Ok(Invocation::Alone(Command::Explain {
                k_limit,
                all,
                classes,
            }))
        }
        Err(word) => invalid(alloc, word, "--k <K>", A_PATH_LIMIT),
    }
}

/// The words of `asl lists` as a command, or why they are none.
fn read_lists(alloc: Global, values: &ArgMatches<'_>) -> Result<Invocation, AllocError>
    ensures { IfOk result (IsReading (codes "lists") (rows_of (found_of values.now))) }
{
    let k_limit = match some_k_limit_at(values) {
        Ok(k_limit) => k_limit,
        Err(word) => return invalid(alloc, word, "--k <K>", A_PATH_LIMIT_OR_AUTO),
    };
    read_entries(alloc, values, k_limit)
}

/// Says that the word is no entry.
fn no_entry(alloc: Global, word: &str) -> Result<Invocation, AllocError>
    ensures { IfOk result (IsUsage (invalid_text word.now (codes "--entry <F>") a_name)) }
{
    invalid(alloc, word, "--entry <F>", A_NAME)
}

/// What `lists` is asked for, with paths of this length.
fn read_entries(
    alloc: Global,
    values: &ArgMatches<'_>,
    k_limit: Option<PathLimit>,
) -> Result<Invocation, AllocError>
    requires { IsLimitAt (rows_of (found_of values.now)) k_limit }
    ensures { IfOk result (IsReading (codes "lists") (rows_of (found_of values.now))) }
{
    match entries_at(alloc, values) {
        Ok(entries) => Ok(Invocation::Alone(Command::Lists { k_limit, entries })),
        Err(EntriesFault::NoName(word)) => no_entry(alloc, word),
        Err(EntriesFault::OutOfMemory) => Err(AllocError),
    }
}

/// The words of `asl diagnose` as a command, or why they are none.
fn read_diagnose(alloc: Global, values: &ArgMatches<'_>) -> Result<Invocation, AllocError>
    ensures { IfOk result (IsReading (codes "diagnose") (rows_of (found_of values.now))) }
{
    match k_limit_at(values) {
        Ok(k_limit) => read_diagnose_flags(alloc, values, k_limit),
        Err(word) => invalid(alloc, word, "--k <K>", A_PATH_LIMIT),
    }
}

/// What `diagnose` is asked for, with paths of this length.
fn read_diagnose_flags(
    alloc: Global,
    values: &ArgMatches<'_>,
    k_limit: PathLimit,
) -> Result<Invocation, AllocError>
    requires { IsLengthAt (rows_of (found_of values.now)) k_limit }
    ensures { IfOk result (IsReading (codes "diagnose") (rows_of (found_of values.now))) }
{
    let assembly = flag_at(values, "asm");
    let all = flag_at(values, "all");
    if assembly && all {
        return wrong_usage(alloc, "the argument '--all' cannot be used with '--asm'");
    }
    Ok(Invocation::Alone(Command::Diagnose {
        assembly,
        k_limit,
        all,
    }))
}

/// The words of `asl c` as a command, or why they are none.
fn read_c(alloc: Global, values: &ArgMatches<'_>) -> Result<Invocation, AllocError>
    ensures { IfOk result (IsReading (codes "c") (rows_of (found_of values.now))) }
{
    let k_limit = match some_k_limit_at(values) {
        Ok(k_limit) => k_limit,
        Err(word) => return invalid(alloc, word, "--k <K>", A_PATH_LIMIT_OR_AUTO),
    };
    read_c_entries(alloc, values, k_limit)
}

/// What `c` is asked for, with paths of this length.
fn read_c_entries(
    alloc: Global,
    values: &ArgMatches<'_>,
    k_limit: Option<PathLimit>,
) -> Result<Invocation, AllocError>
    requires { IsLimitAt (rows_of (found_of values.now)) k_limit }
    ensures { IfOk result (IsReading (codes "c") (rows_of (found_of values.now))) }
{
    match entries_at(alloc, values) {
        Ok(entries) => read_c_externs(alloc, values, k_limit, entries),
        Err(EntriesFault::NoName(word)) => no_entry(alloc, word),
        Err(EntriesFault::OutOfMemory) => Err(AllocError),
    }
}

/// What `c` is asked for, with paths of this length and these entries.
fn read_c_externs(
    alloc: Global,
    values: &ArgMatches<'_>,
    k_limit: Option<PathLimit>,
    entries: Vec<String>,
) -> Result<Invocation, AllocError>
    requires length { IsLimitAt (rows_of (found_of values.now)) k_limit }
    requires entries { AreEntriesAt (rows_of (found_of values.now)) (map string_bytes entries.items) }
    ensures { IfOk result (IsReading (codes "c") (rows_of (found_of values.now))) }
{
    match externs_at(alloc, values) {
        Ok(externs) => {
            let checks = flag_at(values, "check");
            Ok(Invocation::Alone(Command::PrintC {
                k_limit,
                checks,
                entries,
                externs,
            }))
        }
        Err(ExternsFault::NoExtern(word, why)) => no_extern(alloc, word, why),
        Err(ExternsFault::OutOfMemory) => Err(AllocError),
    }
}

/// Says why the word is no pair of a function and a C function.
fn no_extern(alloc: Global, word: &str, why: WhyNot) -> Result<Invocation, AllocError>
    ensures { IfOk result (IsUsage (invalid_text word.now (codes "--extern <F=NAME>") (why_text why))) }
{
    invalid(alloc, word, "--extern <F=NAME>", why_text(why))
}

/// What the words of `asl log` ask for.
fn read_log(values: &ArgMatches<'_>) -> Invocation
    ensures { IsReading (codes "log") (rows_of (found_of values.now)) result }
{
    let trace = flag_at(values, "trace");
    Invocation::Alone(Command::Log { trace })
}

/// The words of `asl debug` as a command, or why they are none.
fn read_debug(alloc: Global, values: &ArgMatches<'_>) -> Result<Invocation, AllocError>
    ensures { IfOk result (IsReading (codes "debug") (rows_of (found_of values.now))) }
{
    match debug_words_at(alloc, values) {
        Ok(words) => Ok(Invocation::Alone(Command::Debug { words })),
        Err(DebugWordsFault::NoWord(word)) => invalid(alloc, word, "<WORD>...", A_WORD),
        Err(DebugWordsFault::NoNumber(word)) => invalid(alloc, word, "<WORD>...", A_NUMBER),
        Err(DebugWordsFault::NumberMissing) => {
            wrong_usage(alloc, "a number is required after the last '<WORD>...'")
        }
        Err(DebugWordsFault::OutOfMemory) => Err(AllocError),
    }
}

/// What words ask for that were not taken.
fn refused(alloc: Global, words: &[String], error: &Error) -> Result<Invocation, AllocError>
    ensures { IfOk result (λ invocation. (kind_of error.now ≢ ErrorKind.OutOfMemory)
        × IsRefusal (kind_of error.now) (map string_bytes words.now) invocation) }
{
    match error.kind() {
        ErrorKind::OutOfMemory => Err(AllocError),
        ErrorKind::DisplayHelp => Ok(Invocation::Help(page_of(words))),
        ErrorKind::DisplayVersion => Ok(Invocation::Version),
        _ => Ok(Invocation::WrongUsage(usage_of(alloc, error)?)),
    }
}

/// The text of an error. That it ends by saying where help is, is seen to here, since `clap` promises nothing of its texts.
fn usage_of(alloc: Global, error: &Error) -> Result<String, AllocError>
    ensures { IfOk result (λ text. SaysWhereHelpIs (string_bytes text)) }
{
    let text = error.to_string(alloc)?;
    if says_where_help_is(text.as_str()) {
        Ok(text)
    } else {
        with_help(text)
    }
}

/// Whether the text ends by saying where help is.
fn says_where_help_is(text: &str) -> bool
    ensures { result ≡ true → SaysWhereHelpIs text.now }
{
    text.ends_with(HELP_IS_THERE)
}

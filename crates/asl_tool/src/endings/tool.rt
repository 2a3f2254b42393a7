//! A run of the program: words, a reader and two writers in, the exit status out.
ghost use Rattle.std.specs.Prelude.{◌≡◌, ◌≤◌, length, map, Some, OnOk, IfErr, IfNone, IfSome, MatchOption, MatchResult, string_bytes};
ghost use Rattle.asl_tool.specs.Ending.{ending_status, ending_text};
ghost use Rattle.asl_tool.specs.Streams.{Tells, most_input};
ghost use Rattle.asl_tool.specs.Tool.{AsksForWork, EndsAlone, EndsWith, IsCommandStatus, IsTextStatus, Refuses, WritesOutput, of_command, of_team};

use super::ending::Ending;
use crate::byte_streams::{ByteSink, ByteSource};
use crate::commands::output_of;
use crate::commands::run::run_output;
use crate::streams::{read_whole, write_whole};
use crate::tool_fault::ToolFault;
use asl_command_line::{Command, Invocation, RunArguments, read_words};
use std::alloc::Global;
use std::sync::Wait;
use std::thread::Threads;

/// Which version of the program this is, and in which logic it is proved.
pub(crate) const VERSION: &str = "asl 2, logic dac8208d650f15bf\n";

/// Does what the words ask for: reads from `reader`, writes to `writer`, says on `errors` what went wrong, and answers
/// the exit status: 0 done, 1 refused, 2 wrong usage. Faults of `errors` count for nothing. Only the command `run` waits.
/// Status 2, and a refusal unless its fault is `Write`, leave the value of `writer` as it was, status 0 that of `errors`.
pub fn tool<H: Threads + Wait + Sync, R: ByteSource, W: ByteSink, E: ByteSink>(
    rt: &H,
    alloc: Global,
    words: &[String],
    reader: &mut R,
    writer: &mut W,
    errors: &mut E,
) -> u8
    ensures status { EndsWith (map string_bytes words.now) (reader.new ≡ reader.old) (writer.new ≡ writer.old)
        (Tells (E.room errors.old) (E.contents errors.old) (E.contents errors.new)) (R.remaining reader.old) (W.room writer.old) (W.contents writer.old) (W.contents writer.new) result }
    ensures quiet { result ≡ 0 → errors.new ≡ errors.old }
{
    let ending = ended(rt, alloc, words, reader, writer);
    ending.say(errors);
    ending.status()
}

/// Does the same without waiting, unless the words ask for `run`: then it answers None, and nothing is read or written.
pub fn tool_alone<R: ByteSource, W: ByteSink, E: ByteSink>(
    alloc: Global,
    words: &[String],
    reader: &mut R,
    writer: &mut W,
    errors: &mut E,
) -> Option<u8>
    ensures status { MatchOption result (AsksForWork (map string_bytes words.now))
        (EndsAlone (map string_bytes words.now) (reader.new ≡ reader.old) (writer.new ≡ writer.old)
        (Tells (E.room errors.old) (E.contents errors.old) (E.contents errors.new)) (R.remaining reader.old) (W.room writer.old) (W.contents writer.old) (W.contents writer.new)) }
    ensures untouched { IfNone result ((reader.new ≡ reader.old) × (writer.new ≡ writer.old) × (errors.new ≡ errors.old)) }
    ensures quiet { IfSome result (λ status. status ≡ 0 → errors.new ≡ errors.old) }
{
    let ending = ended_alone(alloc, words, reader, writer)?;
    ending.say(errors);
    Some(ending.status())
}

/// Does what the words ask for, and answers how that ended; nothing is said yet.
fn ended<H: Threads + Wait + Sync, R: ByteSource, W: ByteSink>(
    rt: &H,
    alloc: Global,
    words: &[String],
    reader: &mut R,
    writer: &mut W,
) -> Ending
    ensures { EndsWith (map string_bytes words.now) (reader.new ≡ reader.old) (writer.new ≡ writer.old)
        (λ text. ending_text result ≡ text) (R.remaining reader.old) (W.room writer.old) (W.contents writer.old) (W.contents writer.new) (ending_status result) }
{
    match read_words(alloc, words) {
        Ok(Invocation::Alone(command)) => command_ending(alloc, &command, reader, writer),
        Ok(Invocation::Run(team)) => run_ending(rt, alloc, team, reader, writer),
        Ok(Invocation::Help(page)) => shown(page, writer),
        Ok(Invocation::Version) => shown(VERSION, writer),
        Ok(Invocation::WrongUsage(text)) => Ending::WrongUsage(text),
        Err(_) => Ending::Refused(ToolFault::OutOfMemory),
    }
}

/// Does the same without waiting, unless the words ask for `run`: then it answers None, and nothing is read or written.
pub fn ended_alone<R: ByteSource, W: ByteSink>(
    alloc: Global,
    words: &[String],
    reader: &mut R,
    writer: &mut W,
) -> Option<Ending>
    ensures status { MatchOption result (AsksForWork (map string_bytes words.now))
        (λ ending. EndsAlone (map string_bytes words.now) (reader.new ≡ reader.old) (writer.new ≡ writer.old)
        (λ text. ending_text ending ≡ text) (R.remaining reader.old) (W.room writer.old) (W.contents writer.old) (W.contents writer.new) (ending_status ending)) }
    ensures untouched { IfNone result ((reader.new ≡ reader.old) × (writer.new ≡ writer.old)) }
{
    match read_words(alloc, words) {
        Ok(Invocation::Alone(command)) => Some(command_ending(alloc, &command, reader, writer)),
        Ok(Invocation::Run(_)) => None,
        Ok(Invocation::Help(page)) => Some(shown(page, writer)),
        Ok(Invocation::Version) => Some(shown(VERSION, writer)),
        Ok(Invocation::WrongUsage(text)) => Some(Ending::WrongUsage(text)),
        Err(_) => Some(Ending::Refused(ToolFault::OutOfMemory)),
    }
}

/// Performs a command, and answers how that ended.
fn command_ending<R: ByteSource, W: ByteSink>(
    alloc: Global,
    command: &Command,
    reader: &mut R,
    writer: &mut W,
) -> Ending
    ensures { IsCommandStatus (writer.new ≡ writer.old) (λ text. ending_text result ≡ text) (R.remaining reader.old) (W.room writer.old)
        (W.contents writer.old) (W.contents writer.new) (of_command command.now) (ending_status result) }
{
    let done = perform(alloc, command, reader, writer);
    ending_of(done)
}

/// Performs `run`, and answers how that ended.
fn run_ending<H: Threads + Wait + Sync, R: ByteSource, W: ByteSink>(
    rt: &H,
    alloc: Global,
    team: RunArguments,
    reader: &mut R,
    writer: &mut W,
) -> Ending
    ensures { IsCommandStatus (writer.new ≡ writer.old) (λ text. ending_text result ≡ text) (R.remaining reader.old) (W.room writer.old)
        (W.contents writer.old) (W.contents writer.new) (of_team team) (ending_status result) }
{
    let done = perform_run(rt, alloc, team, reader, writer);
    ending_of(done)
}

/// Shows a text, and answers how that ended.
fn shown<W: ByteSink>(text: &str, writer: &mut W) -> Ending
    ensures { IsTextStatus (λ line. ending_text result ≡ line) (W.room writer.old) (W.contents writer.old) (W.contents writer.new) text.now (ending_status result) }
{
    match write_whole(writer, text.as_bytes()) {
        Ok(()) => Ending::Done,
        Err(fault) => Ending::Refused(ToolFault::Write(fault)),
    }
}

/// How a run ends in which this was done.
fn ending_of(done: Result<(), ToolFault>) -> Ending
    ensures { MatchResult done (λ _. result ≡ Ending.Done) (λ fault. result ≡ Ending.Refused fault) }
{
    match done {
        Ok(()) => Ending::Done,
        Err(fault) => Ending::Refused(fault),
    }
}

/// Performs a command: reads the input to its end, and writes the command's output for it.
pub fn perform<R: ByteSource, W: ByteSink>(
    alloc: Global,
    command: &Command,
    reader: &mut R,
    writer: &mut W,
) -> Result<(), ToolFault>
    ensures ok { OnOk result
        (WritesOutput (R.remaining reader.old) (W.contents writer.old) (W.contents writer.new) (of_command command.now)) }
    ensures err { IfErr result
        (Refuses (writer.new ≡ writer.old) (R.remaining reader.old) (W.room writer.old) (W.contents writer.old) (W.contents writer.new)
        (of_command command.now)) }
{
    match read_whole(alloc, reader) {
        Ok(input) => answer(alloc, command, input.as_slice(), writer),
        Err(fault) => Err(ToolFault::Read(fault)),
    }
}

/// Performs `run`: reads the input to its end, lets workers step its program, and writes what is asked for of their journal.
pub fn perform_run<H: Threads + Wait + Sync, R: ByteSource, W: ByteSink>(
    rt: &H,
    alloc: Global,
    team: RunArguments,
    reader: &mut R,
    writer: &mut W,
) -> Result<(), ToolFault>
    ensures ok { OnOk result
        (WritesOutput (R.remaining reader.old) (W.contents writer.old) (W.contents writer.new) (of_team team)) }
    ensures err { IfErr result
        (Refuses (writer.new ≡ writer.old) (R.remaining reader.old) (W.room writer.old) (W.contents writer.old) (W.contents writer.new)
        (of_team team)) }
{
    match read_whole(alloc, reader) {
        Ok(input) => answer_run(rt, alloc, team, input.as_slice(), writer),
        Err(fault) => Err(ToolFault::Read(fault)),
    }
}

/// Writes the command's output for the input, which is not too long.
fn answer<W: ByteSink>(
    alloc: Global,
    command: &Command,
    input: &[u8],
    writer: &mut W,
) -> Result<(), ToolFault>
    requires { length input.now ≤ most_input }
    ensures ok { OnOk result
        (WritesOutput (Some input.now) (W.contents writer.old) (W.contents writer.new) (of_command command.now)) }
    ensures err { IfErr result
        (Refuses (writer.new ≡ writer.old) (Some input.now) (W.room writer.old) (W.contents writer.old) (W.contents writer.new)
        (of_command command.now)) }
{
    match output_of(alloc, command, input) {
        Ok(output) => match write_whole(writer, output.as_slice()) {
            Ok(()) => Ok(()),
            Err(fault) => Err(ToolFault::Write(fault)),
        },
        Err(fault) => Err(ToolFault::Command(fault)),
    }
}

/// Writes the output of `run` for the input, which is not too long.
fn answer_run<H: Threads + Wait + Sync, W: ByteSink>(
    rt: &H,
    alloc: Global,
    team: RunArguments,
    input: &[u8],
    writer: &mut W,
) -> Result<(), ToolFault>
    requires { length input.now ≤ most_input }
    ensures ok { OnOk result
        (WritesOutput (Some input.now) (W.contents writer.old) (W.contents writer.new) (of_team team)) }
    ensures err { IfErr result
        (Refuses (writer.new ≡ writer.old) (Some input.now) (W.room writer.old) (W.contents writer.old) (W.contents writer.new)
        (of_team team)) }
{
    match run_output(rt, alloc, team, input) {
        Ok(output) => match write_whole(writer, output.as_slice()) {
            Ok(()) => Ok(()),
            Err(fault) => Err(ToolFault::Write(fault)),
        },
        Err(fault) => Err(ToolFault::Command(fault)),
    }
}

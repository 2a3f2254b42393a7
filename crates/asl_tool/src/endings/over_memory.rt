//! What words come to over memory: an input that is there, and an output that is kept.
ghost use Rattle.std.specs.Prelude.{◌≡◌, ◌⊎◌, [], map, MatchOption, string_bytes};
ghost use Rattle.asl_tool.specs.Tool.{AsksForWork};
ghost use Rattle.asl_tool.specs.Memory.{EndsOver, IsCommandEnding};

use super::ending::Ending;
use super::tool::VERSION;
use crate::commands::output_of;
use crate::streams::{MAX_INPUT, ReadFault};
use crate::tool_fault::ToolFault;
use asl_command_line::{Command, Invocation, read_words};
use std::alloc::Global;

/// How words end over memory, and their output.
#[derive(Drop)]
pub struct Ended {
    pub ending: Ending,
    pub output: Vec<u8>,
}

/// Does what the words ask for over the input, unless they ask for `run`: then it answers None. Neither the input nor the output is
/// copied, and neither can fail.
pub fn ended_over(alloc: Global, words: &[String], input: &[u8]) -> Option<Ended>
    ensures { MatchOption result (AsksForWork (map string_bytes words.now))
        (λ ended. EndsOver (map string_bytes words.now) input.now ended.output.items ended.ending) }
{
    match read_words(alloc, words) {
        Ok(Invocation::Alone(command)) => Some(command_over(alloc, &command, input)),
        Ok(Invocation::Run(_)) => None,
        Ok(Invocation::Help(page)) => Some(shown_over(alloc, page)),
        Ok(Invocation::Version) => Some(shown_over(alloc, VERSION)),
        Ok(Invocation::WrongUsage(text)) => Some(undone(alloc, Ending::WrongUsage(text))),
        Err(_) => Some(undone(alloc, Ending::Refused(ToolFault::OutOfMemory))),
    }
}

/// Shows a text, where there is memory for it.
fn shown_over(alloc: Global, text: &str) -> Ended
    ensures { ((result.ending ≡ Ending.Done) × (result.output.items ≡ text.now))
        ⊎ ((result.ending ≡ Ending.Refused ToolFault.OutOfMemory) × (result.output.items ≡ [])) }
{
    match Vec::from_slice(alloc, text.as_bytes()) {
        Ok(output) => done(output),
        Err(_) => undone(alloc, Ending::Refused(ToolFault::OutOfMemory)),
    }
}

/// Performs a command over the input.
fn command_over(alloc: Global, command: &Command, input: &[u8]) -> Ended
    ensures { IsCommandEnding command.now input.now result.output.items result.ending }
{
    if input.len() > MAX_INPUT {
        return undone(alloc, Ending::Refused(ToolFault::Read(ReadFault::TooLong)));
    }
    match output_of(alloc, command, input) {
        Ok(output) => done(output),
        Err(fault) => undone(alloc, Ending::Refused(ToolFault::Command(fault))),
    }
}

/// The end of what was done, with its output.
fn done(output: Vec<u8>) -> Ended
    ensures ending { result.ending ≡ Ending.Done }
    ensures output { result.output ≡ output }
{
    Ended {
        ending: Ending::Done,
        output,
    }
}

/// The end of what was not done, which has no output.
fn undone(alloc: Global, ending: Ending) -> Ended
    ensures ending { result.ending ≡ ending }
    ensures output { result.output.items ≡ [] }
{
    Ended {
        ending,
        output: Vec::new(alloc),
    }
}

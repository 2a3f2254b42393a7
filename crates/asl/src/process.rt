//! What a process does: its words in, its streams used, its exit status out.
ghost use Rattle.std.specs.Prelude.{◌≡◌};
ghost use Rattle.std.specs.Process.{exit_status};
ghost use Rattle.asl_tool.specs.FaultLine.{fault_line};
ghost use Rattle.asl_tool.specs.Streams.{Tells};
ghost use Rattle.asl_tool.specs.declared.tool_fault.ToolFault.TheVariants.{OutOfMemory};
ghost use Rattle.asl.specs.Process.{EndsProcess, no_text};

use crate::command_line::CommandLine;
use crate::process_words::{WordsFault, process_words};
use asl_tool::{ByteSink, ByteSource, tool, write_whole};
use std::alloc::Global;
use std::process::ExitCode;
use std::sync::Wait;
use std::thread::Threads;

/// Does what the process's words ask for, and answers its exit status. The program's own name counts for nothing.
pub fn run_process<
    H: Threads + Wait + Sync,
    L: CommandLine,
    R: ByteSource,
    W: ByteSink,
    E: ByteSink,
>(rt: &H, line: &L, alloc: Global, input: &mut R, output: &mut W, errors: &mut E) -> ExitCode
    ensures ends { EndsProcess (L.known line.now) (input.new ≡ input.old) (output.new ≡ output.old)
        (Tells (E.room errors.old) (E.contents errors.old) (E.contents errors.new)) (R.remaining input.old) (W.room output.old) (W.contents output.old) (W.contents output.new) (exit_status result) }
    ensures quiet { exit_status result ≡ 0 → errors.new ≡ errors.old }
{
    let status = words_status(rt, line, alloc, input, output, errors);
    ExitCode::from(status)
}

/// Does what the words ask for, or says why there are none, and answers the status.
fn words_status<H: Threads + Wait + Sync, L: CommandLine, R: ByteSource, W: ByteSink, E: ByteSink>(
    rt: &H,
    line: &L,
    alloc: Global,
    input: &mut R,
    output: &mut W,
    errors: &mut E,
) -> u8
    ensures ends { EndsProcess (L.known line.now) (input.new ≡ input.old) (output.new ≡ output.old)
        (Tells (E.room errors.old) (E.contents errors.old) (E.contents errors.new)) (R.remaining input.old) (W.room output.old) (W.contents output.old) (W.contents output.new) result }
    ensures quiet { result ≡ 0 → errors.new ≡ errors.old }
{
    match process_words(line, alloc) {
        Ok(words) => tool(rt, alloc, words.as_slice(), input, output, errors),
        Err(WordsFault::NotText) => say_not_text(errors),
        Err(WordsFault::OutOfMemory) => say_no_memory(errors),
    }
}

/// Says that a word is not a text, which is wrong usage, and answers the status.
fn say_not_text<E: ByteSink>(errors: &mut E) -> u8
    ensures status { result ≡ 2 }
    ensures told { Tells (E.room errors.old) (E.contents errors.old) (E.contents errors.new) no_text }
{
    let text =
        "error: a word of the command line is not UTF-8\n\nFor more information, try '--help'.\n";
    let _ = write_whole(errors, text.as_bytes());
    2
}

/// Says that memory ran out for the words, and answers the status.
fn say_no_memory<E: ByteSink>(errors: &mut E) -> u8
    ensures status { result ≡ 1 }
    ensures told { Tells (E.room errors.old) (E.contents errors.old) (E.contents errors.new) (fault_line OutOfMemory) }
{
    let _ = write_whole(errors, "asl: OutOfMemory\n".as_bytes());
    1
}

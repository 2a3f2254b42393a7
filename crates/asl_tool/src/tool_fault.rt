//! Why the program did not do what its words ask for, and the line that standard error gets of it.
ghost use Rattle.std.specs.Prelude.{◌≡◌, ◌+◌, ◌<◌, ◌≤◌, ◌++◌, length, MatchOption, OnOk, OnErr};
ghost use Rattle.std.specs.Io.KnownBytes.{Appends};
ghost use Rattle.asl_tool.specs.FaultLine.{read_text, program_text, command_text, fault_text, fault_line, fault_lines};
ghost use Rattle.asl_tool.specs.Streams.{Tells};

use crate::byte_streams::ByteSink;
use crate::command_fault::CommandFault;
use crate::input_program::ProgramFault;
use crate::streams::{ReadFault, WriteFault, write_whole};
use arrayvec::{ArrayVec, CapacityError};
use asl_refusal_text::{
    Line, push, push_assembly, push_check, push_file, push_image, push_infer, push_journal,
    push_map, push_run, push_source,
};

/// Why the program did not do what its words ask for. The name is what standard error gets.
#[derive(Debug, Drop)]
pub enum ToolFault {
    /// The input was not read to its end.
    Read(ReadFault),
    /// The input is not what the command takes, or its program is not run.
    Command(CommandFault),
    /// The output was not written to its end.
    Write(WriteFault),
    /// There was no memory to judge the words.
    OutOfMemory,
}

/// Adds why the input was not read to its end.
fn push_read(line: &mut Line, fault: ReadFault) -> Result<(), CapacityError>
    ensures text { OnOk result (line.new.items ≡ line.old.items ++ read_text fault) }
    ensures adds { length line.new.items ≤ length line.old.items + 11 }
    ensures room { OnErr result (256 < length line.old.items + 11) }
{
    match fault {
        ReadFault::Read => push(line, "Read"),
        ReadFault::TooLong => push(line, "TooLong"),
        ReadFault::OutOfMemory => push(line, "OutOfMemory"),
    }
}

/// Adds why an input is no program.
fn push_program(line: &mut Line, fault: &ProgramFault) -> Result<(), CapacityError>
    ensures text { OnOk result (line.new.items ≡ line.old.items ++ program_text fault.now) }
    ensures adds { length line.new.items ≤ length line.old.items + 38 }
    ensures room { OnErr result (256 < length line.old.items + 38) }
{
    match fault {
        ProgramFault::Text(cause) => push_assembly(line, *cause),
        ProgramFault::Image(cause) => push_image(line, *cause),
    }
}

/// Adds why a command gives no output.
fn push_command(line: &mut Line, fault: &CommandFault) -> Result<(), CapacityError>
    ensures text { OnOk result (line.new.items ≡ line.old.items ++ command_text fault.now) }
    ensures adds { length line.new.items ≤ length line.old.items + 241 }
    ensures room { OnErr result (256 < length line.old.items + 241) }
{
    match fault {
        CommandFault::Program(cause) => push_program(line, cause),
        CommandFault::Source(cause) => push_source(line, cause),
        CommandFault::Infer(cause) => push_infer(line, *cause),
        CommandFault::NoProgram => push(line, "NoProgram"),
        CommandFault::Check(cause) | CommandFault::Missing(cause, _) => push_check(line, cause),
        CommandFault::Map(cause) => push_map(line, cause),
        CommandFault::File(cause) => push_file(line, cause),
        CommandFault::Journal(cause) => push_journal(line, *cause),
        CommandFault::Run(cause) => push_run(line, *cause),
        CommandFault::OutOfMemory => push(line, "OutOfMemory"),
    }
}

/// Adds the name of a fault.
fn push_fault(line: &mut Line, fault: &ToolFault) -> Result<(), CapacityError>
    ensures text { OnOk result (line.new.items ≡ line.old.items ++ fault_text fault.now) }
    ensures adds { length line.new.items ≤ length line.old.items + 241 }
    ensures room { OnErr result (256 < length line.old.items + 241) }
{
    match fault {
        ToolFault::Read(cause) => push_read(line, *cause),
        ToolFault::Command(cause) => push_command(line, cause),
        ToolFault::Write(_) => push(line, "Write"),
        ToolFault::OutOfMemory => push(line, "OutOfMemory"),
    }
}

/// Adds the line of a fault.
fn push_line(line: &mut Line, fault: &ToolFault) -> Result<(), CapacityError>
    ensures text { OnOk result (line.new.items ≡ line.old.items ++ fault_line fault.now) }
    ensures room { OnErr result (256 < length line.old.items + 247) }
{
    push(line, "asl: ")?;
    push_fault(line, fault)?;
    push(line, "\n")
}

/// The line of a fault, made without memory. There is room for each.
pub fn line_of(fault: &ToolFault) -> Line
    ensures { result.items ≡ fault_line fault.now }
{
    let mut line = ArrayVec::new();
    push_line(&mut line, fault).unwrap();
    line
}

/// The lines that a fault carries, of which the first is its line; none where it has that alone.
pub fn lines_of(fault: &ToolFault) -> Option<&[u8]>
    ensures { MatchOption result (fault_lines fault.now ≡ fault_line fault.now) (λ lines. lines.now ≡ fault_lines fault.now) }
{
    match fault {
        ToolFault::Command(CommandFault::Missing(_, lines)) => Some(lines.as_slice()),
        _ => None,
    }
}

/// Writes the line of a fault, or its lines, which are always made: only the writer may fail.
///
/// # Errors
///
/// The writer failed, or took no byte; it holds a first part of the text then.
pub fn tell<E: ByteSink>(errors: &mut E, fault: &ToolFault) -> Result<(), WriteFault>
    ensures ok { OnOk result (Appends (E.contents errors.old) (E.contents errors.new) (fault_lines fault.now)) }
    ensures told { Tells (E.room errors.old) (E.contents errors.old) (E.contents errors.new) (fault_lines fault.now) }
{
    match lines_of(fault) {
        Some(lines) => write_whole(errors, lines),
        None => {
            let line = line_of(fault);
            write_whole(errors, line.as_slice())
        }
    }
}

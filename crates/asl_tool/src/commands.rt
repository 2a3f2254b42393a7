//! The commands, each in a file that is named after it: from the bytes of an input to those of the output.
ghost use Rattle.std.specs.Prelude.{IfOk, IfErr};
ghost use Rattle.asl_tool.specs.Command.{IsOutput, IsRunFile, IsRefusedCommand};

mod asm;
mod c;
mod c_names;
mod check;
mod compile;
mod debug;
mod diagnose;
mod dis;
mod explain;
mod greatest;
mod lists;
mod log;
mod map;
mod replay;
pub(crate) mod run;
mod step;

use crate::command_fault::CommandFault;
use asl_command_line::Command;
use std::alloc::Global;

/// The output of the command for the input.
///
/// # Errors
///
/// The command's refusal of the input (`docs/CLI.md`, "Refusals"); `OutOfMemory` where an allocation failed.
pub fn output_of(alloc: Global, command: &Command, input: &[u8]) -> Result<Vec<u8>, CommandFault>
    ensures ok { IfOk result (λ bytes. IsOutput command.now input.now bytes.items) }
    ensures run_file { IfOk result (λ bytes. IsRunFile command.now input.now bytes.items) }
    ensures err { IfErr result (λ fault. IsRefusedCommand command.now input.now fault) }
{
    match command {
        Command::Step {
            threads,
            schedule,
            record,
        } => step::stepped(alloc, *threads, schedule.as_slice(), *record, input),
        Command::Assemble => asm::assembled(alloc, input),
        Command::Disassemble => dis::disassembled(alloc, input),
        Command::Compile { k_limit, text } => compile::compiled(alloc, k_limit, *text, input),
        Command::Check { k_limit, all } => check::checked(alloc, k_limit, *all, input),
        Command::Map => map::mapped_source(alloc, input),
        Command::Explain {
            k_limit,
            all,
            classes,
        } => explain::explained_source(alloc, k_limit, *all, *classes, input),
        Command::Lists { k_limit, entries } => lists::listed_source(
            alloc,
            k_limit,
            entries.as_slice(),
            input,
        ),
        Command::Diagnose {
            assembly,
            k_limit,
            all,
        } => diagnose::diagnosed_input(alloc, *assembly, k_limit, *all, input),
        Command::PrintC {
            k_limit,
            checks,
            entries,
            externs,
        } => c::printed(
            alloc,
            k_limit,
            *checks,
            entries.as_slice(),
            externs.as_slice(),
            input,
        ),
        Command::Replay => replay::replayed(alloc, input),
        Command::Log { trace } => log::logged(alloc, *trace, input),
        Command::Debug { words } => debug::debugged(alloc, words.as_slice(), input),
    }
}

//! The command `compile`: from a source to the program that is inferred for it.
ghost use Rattle.std.specs.Prelude.{◌≤◌, IfOk, IfErr};
ghost use Rattle.asl_tool.specs.Compile.{IsCompiled, IsProgramFor, IsProgramWritten, IsRefusedSource};

use crate::command_fault::CommandFault;
use asl_assembler::disassemble;
use asl_code::Program;
use asl_command_line::PathLimit;
use asl_compile::{CompileFault, compile};
use asl_loader::store;
use std::alloc::{AllocError, Global};

/// The program that is inferred for the source, as its image or as its text.
pub fn compiled(
    alloc: Global,
    k_limit: &PathLimit,
    as_text: bool,
    source: &[u8],
) -> Result<Vec<u8>, CommandFault>
    ensures ok { IfOk result (λ bytes. IsCompiled source.now k_limit.now as_text bytes.items) }
    ensures err { IfErr result (λ fault. IsRefusedSource source.now k_limit.now fault) }
{
    let program = program_of(alloc, k_limit.operations(), source)?;
    match program_bytes(alloc, &program, as_text) {
        Ok(bytes) => Ok(bytes),
        Err(_) => Err(CommandFault::OutOfMemory),
    }
}

/// The program that is inferred for the source, with paths of at most `k` operations.
pub(super) fn program_of(alloc: Global, k: u32, source: &[u8]) -> Result<Program, CommandFault>
    requires { k ≤ 8 }
    ensures ok { IfOk result (λ program. IsProgramFor source.now k program) }
    ensures err { IfErr result (λ fault. IsRefusedSource source.now k fault) }
{
    match compile(alloc, source, k) {
        Ok(program) => Ok(program),
        Err(CompileFault::Source(fault)) => Err(CommandFault::Source(fault)),
        Err(CompileFault::Infer(fault)) => Err(CommandFault::Infer(fault)),
    }
}

/// The program's canonical text, or its image.
fn program_bytes(alloc: Global, program: &Program, as_text: bool) -> Result<Vec<u8>, AllocError>
    ensures { IfOk result (λ bytes. IsProgramWritten as_text program.now bytes.items) }
{
    let _verified = program.image();
    if as_text {
        disassemble(alloc, program)
    } else {
        store(alloc, program)
    }
}

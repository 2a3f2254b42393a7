//! The command `asm`: from an assembly text to the image of its program.
ghost use Rattle.std.specs.Prelude.{IfOk, IfErr};
ghost use Rattle.asl_tool.specs.Command.{IsAssembled, IsRefusedText};

use crate::command_fault::CommandFault;
use crate::input_program::ProgramFault;
use asl_assembler::assemble;
use asl_loader::store;
use std::alloc::Global;

/// The image of the text.
pub fn assembled(alloc: Global, text: &[u8]) -> Result<Vec<u8>, CommandFault>
    ensures ok { IfOk result (λ bytes. IsAssembled text.now bytes.items) }
    ensures err { IfErr result (λ fault. IsRefusedText text.now fault) }
{
    let program = match assemble(alloc, text) {
        Ok(program) => program,
        Err(fault) => return Err(CommandFault::Program(ProgramFault::Text(fault))),
    };
    match store(alloc, &program) {
        Ok(image) => Ok(image),
        Err(_) => Err(CommandFault::OutOfMemory),
    }
}

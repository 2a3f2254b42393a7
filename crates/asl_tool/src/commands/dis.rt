//! The command `dis`: from an image to the canonical text of its program.
ghost use Rattle.std.specs.Prelude.{IfOk, IfErr};
ghost use Rattle.asl_tool.specs.Command.{IsDisassembled, IsRefusedImage};

use crate::command_fault::CommandFault;
use crate::input_program::ProgramFault;
use asl_assembler::disassemble;
use asl_loader::load;
use std::alloc::Global;

/// The canonical text of the image.
pub fn disassembled(alloc: Global, image: &[u8]) -> Result<Vec<u8>, CommandFault>
    ensures ok { IfOk result (λ text. IsDisassembled image.now text.items) }
    ensures err { IfErr result (λ fault. IsRefusedImage image.now fault) }
{
    let program = match load(alloc, image) {
        Ok(program) => program,
        Err(fault) => return Err(CommandFault::Program(ProgramFault::Image(fault))),
    };
    match disassemble(alloc, &program) {
        Ok(text) => Ok(text),
        Err(_) => Err(CommandFault::OutOfMemory),
    }
}

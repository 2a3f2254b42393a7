//! The program of an input: an image where the input begins as one does, else assembly text.
ghost use Rattle.std.specs.Prelude.{◌↔◌, IsTrue, IfOk, IfErr};
ghost use Rattle.asl_tool.specs.Program.{BeginsAsImage, IsProgram, IsNoProgram};

use asl_assembler::{AsmFault, assemble};
use asl_code::Program;
use asl_loader::{LoadFault, load};
use std::alloc::Global;
use thiserror::Error;

/// Why an input is no program.
#[derive(Debug, Drop, Error)]
pub enum ProgramFault {
    /// It is read as text, and is refused.
    #[error(transparent)]
    Text(AsmFault),
    /// It is read as an image, and is refused.
    #[error(transparent)]
    Image(LoadFault),
}

/// The program of the input.
pub fn read_program(alloc: Global, input: &[u8]) -> Result<Program, ProgramFault>
    ensures ok { IfOk result (λ program. IsProgram input.now program) }
    ensures err { IfErr result (λ fault. IsNoProgram input.now fault) }
{
    if begins_as_image(input) {
        match load(alloc, input) {
            Ok(program) => Ok(program),
            Err(fault) => Err(ProgramFault::Image(fault)),
        }
    } else {
        match assemble(alloc, input) {
            Ok(program) => Ok(program),
            Err(fault) => Err(ProgramFault::Text(fault)),
        }
    }
}

/// Whether the input begins with the four letters of an image.
fn begins_as_image(input: &[u8]) -> bool
    ensures { IsTrue result ↔ BeginsAsImage input.now }
{
    input.starts_with(b"ASLM")
}

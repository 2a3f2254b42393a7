//! The program of bytes.
ghost use Rattle.std.specs.Prelude.{◌≡◌, ◌≢◌, ◌⊎◌, ◌↔◌, IsTrue, IfOk, IfErr};
ghost use Rattle.asl_opening.specs.Opening.{BeginsAsImage, IsProgram, WhyNotProgram};

use asl_assembler::{AsmFault, assemble};
use asl_code::Program;
use asl_loader::{LoadFault, load};
use std::alloc::Global;

/// The status where an allocation failed.
pub const NO_MEMORY: u32 = 2;
/// The status where the bytes are no program.
pub const NO_PROGRAM: u32 = 12;

/// The program of the bytes, an image where they begin as one, else assembly text; or why there is none.
pub fn program_of(alloc: Global, bytes: &[u8]) -> Result<Program, u32>
    ensures program { IfOk result (λ program. IsProgram bytes.now program) }
    ensures refused { IfErr result (WhyNotProgram bytes.now) }
{
    if begins_as_image(bytes) {
        match load(alloc, bytes) {
            Ok(program) => Ok(program),
            Err(fault) => Err(load_status(fault)),
        }
    } else {
        match assemble(alloc, bytes) {
            Ok(program) => Ok(program),
            Err(fault) => Err(asm_status(fault)),
        }
    }
}

/// Whether the bytes begin with the four letters of an image.
fn begins_as_image(bytes: &[u8]) -> bool
    ensures { IsTrue result ↔ BeginsAsImage bytes.now }
{
    bytes.starts_with(b"ASLM")
}

/// That of the refusal of an image.
fn load_status(fault: LoadFault) -> u32
    ensures { ((result ≡ 2) × (fault ≡ LoadFault.OutOfMemory)) ⊎ ((result ≡ 12) × (fault ≢ LoadFault.OutOfMemory)) }
{
    match fault {
        LoadFault::OutOfMemory => NO_MEMORY,
        _ => NO_PROGRAM,
    }
}

/// That of the refusal of an assembly text.
fn asm_status(fault: AsmFault) -> u32
    ensures { ((result ≡ 2) × (fault ≡ AsmFault.OutOfMemory)) ⊎ ((result ≡ 12) × (fault ≢ AsmFault.OutOfMemory)) }
{
    match fault {
        AsmFault::OutOfMemory => NO_MEMORY,
        _ => NO_PROGRAM,
    }
}

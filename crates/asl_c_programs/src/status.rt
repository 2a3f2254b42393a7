//! The numbers that C gets for answers.
ghost use Rattle.std.specs.Prelude.{◌≡◌, ◌≢◌, ◌⊎◌};
ghost use Rattle.asl_c_programs.specs.Opening.{IsWantOfMemory};

use asl_compile::CompileFault;
use asl_emitter::InferFault;
pub use asl_opening::NO_MEMORY;
use asl_syntax::SyntaxFault;

/// Done.
pub const DONE: u32 = 0;
/// The handle has no program, or for what opens one it has one.
pub const BAD_HANDLE: u32 = 3;
/// The source is refused.
pub const NO_SOURCE: u32 = 22;
/// The paths are asked to be longer than 8 operations.
pub const BAD_LENGTH: u32 = 23;
/// There is nothing of this number.
pub const NO_SUCH_NUMBER: u32 = 24;
/// The program was not opened from a source.
pub const NO_NAMES: u32 = 25;
/// A cell must be told.
pub const NEEDS_CELL: u32 = 26;
/// There is room for less than three words for each lock.
pub const NO_ROOM: u32 = 27;

/// That of the refusal of a source.
pub fn compile_status(fault: &CompileFault) -> u32
    ensures told { ((result ≡ 2) × IsWantOfMemory fault.now) ⊎ ((result ≡ 22) × (IsWantOfMemory fault.now → ⊥)) }
    ensures some { result ≢ 0 }
{
    match fault {
        CompileFault::Source(cause) => source_status(cause),
        CompileFault::Infer(cause) => infer_status(cause),
    }
}

/// That of the refusal of a source's text.
fn source_status(fault: &SyntaxFault) -> u32
    ensures told { ((result ≡ 2) × (fault.now ≡ SyntaxFault.OutOfMemory)) ⊎ ((result ≡ 22) × (fault.now ≢ SyntaxFault.OutOfMemory)) }
    ensures some { result ≢ 0 }
{
    match fault {
        SyntaxFault::OutOfMemory => NO_MEMORY,
        _ => NO_SOURCE,
    }
}

/// That of the refusal of the inference.
fn infer_status(fault: &InferFault) -> u32
    ensures told { ((result ≡ 2) × (fault.now ≡ InferFault.OutOfMemory)) ⊎ ((result ≡ 22) × (fault.now ≢ InferFault.OutOfMemory)) }
    ensures some { result ≢ 0 }
{
    match fault {
        InferFault::OutOfMemory => NO_MEMORY,
        _ => NO_SOURCE,
    }
}

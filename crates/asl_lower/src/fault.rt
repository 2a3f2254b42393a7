//! Why a program is not lowered.

use std::alloc::AllocError;
use thiserror::Error;

/// Why a program is not lowered. The first that applies is answered.
#[derive(Clone, Copy, Debug, PartialEq, Eq, Error)]
pub enum LowerFault {
    /// The function of this number has more than 64 registers; it is the first.
    #[error("Registers({0})")]
    Registers(u16),
    /// The code has more than 65,535 instructions.
    #[error("CodeSize")]
    CodeSize,
    /// The bare function of the first number has a `load` or `store` outside its sections at the pc of the second, the lowest
    /// such pc.
    #[error("AccessOutsideSection({0}, {1})")]
    AccessOutsideSection(u16, u16),
    /// The memory ran out.
    #[error("OutOfMemory")]
    OutOfMemory,
}

impl From<AllocError> for LowerFault {
    ghost use Rattle.std.specs.Prelude.{◌≡◌};
    ghost use Rattle.asl_lower.specs.declared.fault.LowerFault.TheVariants.{OutOfMemory};

    ghost from_gives = { λ _ e. e ≡ OutOfMemory };

    fn from(_failed: AllocError) -> LowerFault {
        LowerFault::OutOfMemory
    }
}

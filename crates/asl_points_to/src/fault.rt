//! Why a program has no classes.

use std::alloc::AllocError;
use thiserror::Error;

/// Why a program has no classes. The first that applies is answered; running out of memory may come before
/// too many classes are found, and is answered then.
#[derive(Clone, Copy, Debug, PartialEq, Eq, Error)]
pub enum ClassesFault {
    /// There are more than 1,024 classes.
    #[error("TooManyClasses")]
    TooManyClasses,
    /// The memory ran out.
    #[error("OutOfMemory")]
    OutOfMemory,
}

impl From<AllocError> for ClassesFault {
    ghost use Rattle.std.specs.Prelude.{◌≡◌};
    ghost use Rattle.asl_points_to.specs.declared.fault.ClassesFault.TheVariants.{OutOfMemory};

    ghost from_gives = { λ _ e. e ≡ OutOfMemory };

    fn from(_failed: AllocError) -> ClassesFault {
        ClassesFault::OutOfMemory
    }
}

//! Why a run by workers has no good end.
use std::alloc::AllocError;
use thiserror::Error;

/// Why `run` was refused (`docs/WORKERS.md`, "Refusals").
#[derive(Clone, Copy, Debug, PartialEq, Eq, Error)]
pub enum RunFault {
    /// A run has 1 to as many threads as its program's version sets, 1 to 8 workers, and at most 16,777,216 events.
    #[error("BadCount")]
    BadCount,
    /// The receipts of this worker are not the journal's entries of its threads, or one says that a thread has ended that has
    /// not.
    #[error("Receipt({0})")]
    Receipt(u8),
    /// A worker's thread was not started.
    #[error("Spawn")]
    Spawn,
    /// An allocation failed.
    #[error("OutOfMemory")]
    OutOfMemory,
}

impl From<AllocError> for RunFault {
    ghost use Rattle.std.specs.Prelude.{◌≡◌};
    ghost use Rattle.asl_runner.specs.declared.fault.RunFault.TheVariants.{OutOfMemory};

    ghost from_gives = { λ _ fault. fault ≡ OutOfMemory };

    fn from(_: AllocError) -> Self {
        RunFault::OutOfMemory
    }
}

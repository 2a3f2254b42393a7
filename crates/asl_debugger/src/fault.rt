//! Why a debugger refused a call.

use asl_machine::MachineFault;
use std::alloc::{AllocError, AllocFailed};
use thiserror::Error;

/// Why a debugger refused a call. Where several apply, the first is answered, but `BadCount` before `Differs`.
#[derive(Clone, Copy, Debug, PartialEq, Eq, Error)]
pub enum DebugFault {
    /// There is no event after this position.
    #[error("AtEnd")]
    AtEnd,
    /// There is no event before this position.
    #[error("AtStart")]
    AtStart,
    /// The journal has no such position.
    #[error("NoSuchStep")]
    NoSuchStep,
    /// The program's run replies something else at this event, counted from 0.
    #[error("Differs({0})")]
    Differs(u32),
    /// An allocation failed.
    #[error("OutOfMemory")]
    OutOfMemory,
    /// The program cannot start so many threads as the journal has.
    #[error("BadCount")]
    BadCount,
}

impl From<AllocError> for DebugFault {
    ghost use Rattle.std.specs.Prelude.{◌≡◌};
    ghost use Rattle.asl_debugger.specs.declared.fault.DebugFault.TheVariants.{OutOfMemory};

    ghost from_gives = { λ _ fault. fault ≡ OutOfMemory };

    fn from(_: AllocError) -> Self {
        DebugFault::OutOfMemory
    }
}

impl From<MachineFault> for DebugFault {
    ghost use Rattle.std.specs.Prelude.{◌≡◌};
    ghost use Rattle.asl_debugger.specs.Fault.{debug_fault};

    ghost from_gives = { λ machine fault. fault ≡ debug_fault machine };

    fn from(fault: MachineFault) -> Self {
        match fault {
            MachineFault::BadCount => DebugFault::BadCount,
            // A debugger steps the threads of its journal alone, which are there: `BadThread` never comes here.
            MachineFault::BadThread | MachineFault::OutOfMemory => DebugFault::OutOfMemory,
        }
    }
}

impl<T: Drop> From<AllocFailed<T>> for DebugFault {
    ghost use Rattle.std.specs.Prelude.{◌≡◌};
    ghost use Rattle.asl_debugger.specs.declared.fault.DebugFault.TheVariants.{OutOfMemory};

    ghost from_gives = { λ _ fault. fault ≡ OutOfMemory };

    fn from(_: AllocFailed<T>) -> Self {
        DebugFault::OutOfMemory
    }
}

/// Why a debugger records no step. The first that applies is answered.
#[derive(Clone, Copy, Debug, PartialEq, Eq, Error)]
pub enum StepFault {
    /// Events follow the position.
    #[error("NotAtEnd")]
    NotAtEnd,
    /// A journal has at most 16,777,216 events.
    #[error("JournalFull")]
    JournalFull,
    /// There is no such thread.
    #[error("BadThread")]
    BadThread,
    /// An allocation failed.
    #[error("OutOfMemory")]
    OutOfMemory,
}

impl From<AllocError> for StepFault {
    ghost use Rattle.std.specs.Prelude.{◌≡◌};
    ghost use Rattle.asl_debugger.specs.declared.fault.StepFault.TheVariants.{OutOfMemory};

    ghost from_gives = { λ _ fault. fault ≡ OutOfMemory };

    fn from(_: AllocError) -> Self {
        StepFault::OutOfMemory
    }
}

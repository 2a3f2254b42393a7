//! Why a call on journals, or the reading of one, was refused.

use asl_machine::MachineFault;
use std::alloc::AllocError;
use thiserror::Error;

/// Why a call on journals was refused. Where several apply, the first is answered.
#[derive(Clone, Copy, Debug, PartialEq, Eq, Error)]
pub enum JournalFault {
    /// A journal has at most 16,777,216 events.
    #[error("JournalFull")]
    JournalFull,
    /// A journal has 1 to 128 threads, and a program's as many at the most as its version sets.
    #[error("BadCount")]
    BadCount,
    /// There is no such thread.
    #[error("BadThread")]
    BadThread,
    /// The program's run replies something else at this event, counted from 0.
    #[error("Differs({0})")]
    Differs(u32),
    /// The first field of the bytes is not `ASLJ`.
    #[error("Magic")]
    Magic,
    /// The version is not 1 or 2.
    #[error("Version")]
    Version,
    /// The bytes, so many, end within a field.
    #[error("Truncated({0})")]
    Truncated(usize),
    /// No journal has the field whose first byte is here.
    #[error("BadField({0})")]
    BadField(usize),
    /// A journal ends before this byte.
    #[error("Trailing({0})")]
    Trailing(usize),
    /// An allocation failed.
    #[error("OutOfMemory")]
    OutOfMemory,
}

impl From<AllocError> for JournalFault {
    ghost use Rattle.std.specs.Prelude.{◌≡◌};
    ghost use Rattle.asl_journal.specs.declared.fault.JournalFault.TheVariants.{OutOfMemory};

    ghost from_gives = { λ _ fault. fault ≡ OutOfMemory };

    fn from(_: AllocError) -> Self {
        JournalFault::OutOfMemory
    }
}

impl From<MachineFault> for JournalFault {
    ghost use Rattle.std.specs.Prelude.{◌≡◌};
    ghost use Rattle.asl_journal.specs.Fault.{journal_fault};

    ghost from_gives = { λ machine fault. fault ≡ journal_fault machine };

    fn from(fault: MachineFault) -> Self {
        match fault {
            MachineFault::BadCount => JournalFault::BadCount,
            MachineFault::BadThread => JournalFault::BadThread,
            MachineFault::OutOfMemory => JournalFault::OutOfMemory,
        }
    }
}

//! Why a thread failed, and why a machine refused a call.

use asl_code::{Cell, Effect};
use std::alloc::AllocError;

/// Why a thread failed.
#[derive(Clone, Copy, Debug, PartialEq, Eq)]
pub enum Fault {
    /// An operand is of another kind than the instruction takes.
    BadType,
    /// An address is null.
    Null,
    /// An address would leave its object.
    Bounds,
    /// An access outside all sections, or to a cell that neither the thread's locks nor its fresh objects cover for this
    /// effect.
    Unprotected(Cell, Effect),
    /// There are as many objects as there may be.
    Full,
    /// The thread has as many frames as it may have.
    Stack,
    /// The thread returned from its last frame inside a section.
    Open,
    /// The thread is in as many sections as it may be.
    Deep,
    /// The thread left a section where it was in none.
    NoSection,
}

/// Why a machine refused a call. Where several apply, the first is answered.
#[derive(Debug, Drop, PartialEq, Eq, thiserror::Error)]
pub enum MachineFault {
    /// A machine has 1 to as many threads as its program's version sets.
    #[error("BadCount")]
    BadCount,
    /// There is no such thread. Judged by `Machine::step`; of journals again by `asl_journal`, of the words of `asl step` by `asl_tool`
    /// (`commands/step.rt`).
    #[error("BadThread")]
    BadThread,
    /// An allocation failed.
    #[error("OutOfMemory")]
    OutOfMemory,
}

impl From<AllocError> for MachineFault {
    ghost use Rattle.std.specs.Prelude.{◌≡◌};
    ghost use Rattle.asl_machine.specs.declared.fault.MachineFault.TheVariants.{OutOfMemory};

    ghost from_gives = { λ _ fault. fault ≡ OutOfMemory };

    fn from(_: AllocError) -> Self {
        MachineFault::OutOfMemory
    }
}

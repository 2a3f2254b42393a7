//! Why the lists of a source are not told.

use asl_explain::ExplainFault;
use std::alloc::AllocError;

/// Why the lists of a source are not told.
#[derive(Drop)]
pub enum ListsFault {
    /// The source is refused, as `compile` refuses it.
    Refused(ExplainFault),
    /// The memory ran out.
    OutOfMemory,
}

impl From<AllocError> for ListsFault {
    ghost use Rattle.std.specs.Prelude.{◌≡◌};
    ghost use Rattle.asl_lists.specs.declared.fault.ListsFault.TheVariants.{OutOfMemory};

    ghost from_gives = { λ _ fault. fault ≡ OutOfMemory };

    fn from(_failed: AllocError) -> ListsFault {
        ListsFault::OutOfMemory
    }
}

//! Why a program has no flow.

use crate::region::Region;
use std::alloc::AllocError;
use thiserror::Error;

/// Why a program has no flow. The first that applies is answered; `OutOfMemory` may come before
/// too many locks are found, and is answered then.
#[derive(Clone, Copy, Debug, PartialEq, Eq, Error)]
pub enum FlowFault {
    /// The region needs more than 4,096 locks; where several do, any of them is named.
    #[error("TooManyLocks({0})")]
    TooManyLocks(Region),
    /// The memory ran out.
    #[error("OutOfMemory")]
    OutOfMemory,
}

impl From<AllocError> for FlowFault {
    ghost use Rattle.std.specs.Prelude.{◌≡◌};
    ghost use Rattle.asl_backward_flow.specs.declared.fault.FlowFault.TheVariants.{OutOfMemory};

    ghost from_gives = { λ _ fault. fault ≡ OutOfMemory };

    fn from(_failed: AllocError) -> FlowFault {
        FlowFault::OutOfMemory
    }
}

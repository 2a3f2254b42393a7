//! Why no image is inferred for a program.

use asl_backward_flow::{FlowFault, Region};
use asl_lower::LowerFault;
use asl_points_to::ClassesFault;
use std::alloc::AllocError;
use thiserror::Error;

/// Why no image is inferred for a program. The first that applies is answered; `OutOfMemory` may come before
/// too many classes or locks are found, and is answered then.
#[derive(Clone, Copy, Debug, PartialEq, Eq, Error)]
pub enum InferFault {
    /// The function of this number has more than 64 registers; it is the first.
    #[error("Registers({0})")]
    Registers(u16),
    /// The code has more than 65,535 instructions.
    #[error("CodeSize")]
    CodeSize,
    /// The bare function of the first number has a `load` or `store` outside its sections at the pc of the second, the lowest
    /// such pc.
    #[error("AccessOutsideSection({0}, {1})")]
    AccessOutsideSection(u16, u16),
    /// There are more than 1,024 classes.
    #[error("TooManyClasses")]
    TooManyClasses,
    /// The region needs more than 4,096 locks; where several do, any of them is named.
    #[error("TooManyLocks({0})")]
    TooManyLocks(Region),
    /// The memory ran out.
    #[error("OutOfMemory")]
    OutOfMemory,
}

impl From<LowerFault> for InferFault {
    ghost use Rattle.std.specs.Prelude.{◌≡◌};
    ghost use Rattle.asl_emitter.specs.Faults.{of_lower};

    ghost from_gives = { λ lower fault. fault ≡ of_lower lower };

    fn from(fault: LowerFault) -> InferFault {
        match fault {
            LowerFault::Registers(function) => InferFault::Registers(function),
            LowerFault::CodeSize => InferFault::CodeSize,
            LowerFault::AccessOutsideSection(function, pc) => {
                InferFault::AccessOutsideSection(function, pc)
            }
            LowerFault::OutOfMemory => InferFault::OutOfMemory,
        }
    }
}

impl From<ClassesFault> for InferFault {
    ghost use Rattle.std.specs.Prelude.{◌≡◌};
    ghost use Rattle.asl_emitter.specs.Faults.{of_classes};

    ghost from_gives = { λ classes fault. fault ≡ of_classes classes };

    fn from(fault: ClassesFault) -> InferFault {
        match fault {
            ClassesFault::TooManyClasses => InferFault::TooManyClasses,
            ClassesFault::OutOfMemory => InferFault::OutOfMemory,
        }
    }
}

impl From<FlowFault> for InferFault {
    ghost use Rattle.std.specs.Prelude.{◌≡◌};
    ghost use Rattle.asl_emitter.specs.Faults.{of_flow};

    ghost from_gives = { λ flow fault. fault ≡ of_flow flow };

    fn from(fault: FlowFault) -> InferFault {
        match fault {
            FlowFault::TooManyLocks(region) => InferFault::TooManyLocks(region),
            FlowFault::OutOfMemory => InferFault::OutOfMemory,
        }
    }
}

impl From<AllocError> for InferFault {
    ghost use Rattle.std.specs.Prelude.{◌≡◌};
    ghost use Rattle.asl_emitter.specs.declared.fault.InferFault.TheVariants.{OutOfMemory};

    ghost from_gives = { λ _ fault. fault ≡ OutOfMemory };

    fn from(_failed: AllocError) -> InferFault {
        InferFault::OutOfMemory
    }
}

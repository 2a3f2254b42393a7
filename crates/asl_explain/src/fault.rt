//! Why a source is not explained.

use asl_backward_flow::FlowFault;
use asl_emitter::InferFault;
use asl_lower::LowerFault;
use asl_points_to::ClassesFault;
use asl_syntax::SyntaxFault;
use std::alloc::AllocError;

/// Why a source is not explained: the first that applies, as `compile` answers it.
#[derive(Drop)]
pub enum ExplainFault {
    /// The bytes are not a program's source.
    Source(SyntaxFault),
    /// No lists are inferred for the source.
    Infer(InferFault),
}

impl From<SyntaxFault> for ExplainFault {
    ghost use Rattle.std.specs.Prelude.{◌≡◌};
    ghost use Rattle.asl_explain.specs.declared.fault.ExplainFault.TheVariants.{Source};

    ghost from_gives = { λ syntax fault. fault ≡ Source syntax };

    fn from(fault: SyntaxFault) -> ExplainFault {
        ExplainFault::Source(fault)
    }
}

impl From<InferFault> for ExplainFault {
    ghost use Rattle.std.specs.Prelude.{◌≡◌};
    ghost use Rattle.asl_explain.specs.declared.fault.ExplainFault.TheVariants.{Infer};

    ghost from_gives = { λ infer fault. fault ≡ Infer infer };

    fn from(fault: InferFault) -> ExplainFault {
        ExplainFault::Infer(fault)
    }
}

impl From<AllocError> for ExplainFault {
    ghost use Rattle.std.specs.Prelude.{◌≡◌};
    ghost use Rattle.asl_explain.specs.declared.fault.ExplainFault.TheVariants.{Infer};
    ghost use Rattle.asl_emitter.specs.declared.fault.InferFault.TheVariants.{OutOfMemory};

    ghost from_gives = { λ _ fault. fault ≡ Infer OutOfMemory };

    fn from(_failed: AllocError) -> ExplainFault {
        ExplainFault::Infer(InferFault::OutOfMemory)
    }
}

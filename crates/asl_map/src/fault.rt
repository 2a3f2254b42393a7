//! Why a text has no map.

use asl_lower::LowerFault;
use asl_points_to::ClassesFault;
use asl_syntax::SyntaxFault;
use std::alloc::AllocError;
use thiserror::Error;

/// Why a text has no map. The first that applies is answered.
#[derive(Debug, Drop, Error)]
pub enum MapFault {
    /// The text is no source.
    #[error(transparent)]
    Source(SyntaxFault),
    /// The source has no code.
    #[error(transparent)]
    Lower(LowerFault),
    /// The source has no classes.
    #[error(transparent)]
    Classes(ClassesFault),
    /// The memory ran out.
    #[error("OutOfMemory")]
    OutOfMemory,
}

impl From<AllocError> for MapFault {
    ghost use Rattle.std.specs.Prelude.{◌≡◌};
    ghost use Rattle.asl_map.specs.declared.fault.MapFault.TheVariants.{OutOfMemory};

    ghost from_gives = { λ _ fault. fault ≡ OutOfMemory };

    fn from(_failed: AllocError) -> MapFault {
        MapFault::OutOfMemory
    }
}

//! Why a source has no program.

use asl_emitter::InferFault;
use asl_syntax::SyntaxFault;
use thiserror::Error;

/// Why a source has no program: the first that applies. Lack of memory may hide what `parse` and `infer` say that it hides.
#[derive(Debug, Drop, Error)]
pub enum CompileFault {
    /// The bytes are not a program's source.
    #[error(transparent)]
    Source(SyntaxFault),
    /// No program is inferred for the source.
    #[error(transparent)]
    Infer(InferFault),
}

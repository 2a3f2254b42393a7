//! Why a text is not a program.

use crate::name::Name;
use std::alloc::AllocError;
use thiserror::Error;

/// Why a text is not a program, in the order in which faults are judged; each names its first place, or its first name.
#[derive(Debug, Drop, PartialEq, Eq, Error)]
pub enum SyntaxFault {
    /// A byte is not ASCII.
    #[error("NotAscii({0})")]
    NotAscii(usize),
    /// Neither a blank nor a token stands there.
    #[error("Token({0})")]
    Token(usize),
    /// No program continues with the token there, or the text ends too early, at its length.
    #[error("Grammar({0})")]
    Grammar(usize),
    /// A limit is passed.
    #[error("Limit({0})")]
    Limit(usize),
    /// A global, a function or a parameter is declared a second time.
    #[error("Twice({0})")]
    Twice(Name),
    /// A name is used and nowhere declared.
    #[error("Unknown({0})")]
    Unknown(Name),
    /// A call has too many or too few arguments; the place is that of the callee's name.
    #[error("Arity({0})")]
    Arity(usize),
    /// There is no function `main` of one parameter.
    #[error("NoMain")]
    NoMain,
    /// Memory for the tree ran out, of a text that has no fault.
    #[error("OutOfMemory")]
    OutOfMemory,
}

impl From<AllocError> for SyntaxFault {
    ghost use Rattle.std.specs.Prelude.{◌≡◌};
    ghost use Rattle.asl_syntax.specs.declared.fault.SyntaxFault.TheVariants.{OutOfMemory};

    ghost from_gives = { λ _ e. e ≡ OutOfMemory };

    fn from(_error: AllocError) -> SyntaxFault {
        SyntaxFault::OutOfMemory
    }
}

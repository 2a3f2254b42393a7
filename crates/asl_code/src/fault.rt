//! Why an image is not a program.

use thiserror::Error;

/// Why an image is not a program, in the order in which the verifier looks (`docs/FORMATS.md`, "Rules of an image").
/// The last four name a place of the code.
#[derive(Clone, Copy, Debug, PartialEq, Eq, Error)]
pub enum VerifyFault {
    /// The version is not 1 or 2, or a count is over its limit.
    #[error("Limit")]
    Limit,
    /// The class of a global or of a lock, or the global of a lock, is not there.
    #[error("Table")]
    Table,
    /// The entry function is not there, or does not have exactly one parameter.
    #[error("NoEntry")]
    NoEntry,
    /// A function has no instruction or more parameters than registers, or the lengths do not add up to the code.
    #[error("FunctionRange")]
    FunctionRange,
    /// The last instruction of a function neither returns nor jumps.
    #[error("FallsOut")]
    FallsOut,
    /// A jump leaves its function, or the function that is called is not there.
    #[error("Target({0})")]
    Target(u32),
    /// The function has too few registers for the instruction.
    #[error("Register({0})")]
    Register(u32),
    /// A global, class or list is not there, or a new object would have no cell.
    #[error("Operand({0})")]
    Operand(u32),
    /// A lock of the list that a section asks for is based on a register that its function does not have.
    #[error("ListBase({0})")]
    ListBase(u32),
}

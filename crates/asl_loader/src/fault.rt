//! Why bytes are no program.

use asl_code::VerifyFault;
use thiserror::Error;

/// Why bytes are those of no program: the first thing that is wrong, from front to back (`docs/FORMATS.md`, "Images").
#[derive(Clone, Copy, Debug, PartialEq, Eq, Error)]
pub enum LoadFault {
    /// The first field is not `ASLM`.
    #[error("Magic")]
    Magic,
    /// The version is not 1 or 2.
    #[error("Version")]
    Version,
    /// The input, of so many bytes, ends within a field.
    #[error("Truncated({0})")]
    Truncated(usize),
    /// No image has the field whose first bad byte is here.
    #[error("BadField({0})")]
    BadField(usize),
    /// An image ends before this byte.
    #[error("Trailing({0})")]
    Trailing(usize),
    /// The bytes spell an image that is not a program.
    #[error("Verify({0})")]
    Verify(VerifyFault),
    /// The bytes spell an image, and memory was refused.
    #[error("OutOfMemory")]
    OutOfMemory,
}

/// What stops the reading of an image, or of a journal.
#[derive(Clone, Copy)]
pub enum Stop {
    /// The bytes end within a field.
    Short,
    /// A field is bad, with so many bytes left from its first bad byte on.
    Bad(usize),
}

/// Why what was read of lists of locks was not kept.
#[derive(Clone, Copy)]
pub(crate) enum Lost {
    /// There are more lists, or more locks in one, than a program of any version has.
    Long,
    /// Memory was refused.
    Memory,
}

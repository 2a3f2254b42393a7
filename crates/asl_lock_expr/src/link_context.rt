//! What links are read against.

use crate::written::Writes;
use asl_points_to::Classes;

/// What links are read against.
#[derive(Clone, Copy)]
pub struct LinkContext<'a> {
    /// The classes of the program.
    pub classes: &'a Classes,
    /// The classes that its functions may store to.
    pub writes: &'a Writes,
    /// The most operations that a path keeps, at most eight.
    pub k_limit: usize,
    /// The function of the instruction.
    pub function: u16,
}

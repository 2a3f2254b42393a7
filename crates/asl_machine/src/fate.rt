//! What an instruction makes of its thread.

use crate::fault::Fault;
use asl_code::Value;

/// What becomes of a thread by an instruction of its own.
#[derive(Clone, Copy)]
pub enum Fate {
    /// It continues.
    Continues,
    /// It continues, and shows this value.
    Shows(Value),
    /// It has ended with this value.
    Ends(Value),
    /// It fails.
    Fails(Fault),
    /// It waits for locks, and has changed nothing.
    Waits,
}

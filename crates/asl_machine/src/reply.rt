//! What a step answers, and how a thread stands.

use crate::fault::Fault;
use asl_code::Value;

/// What a step answers.
#[derive(Clone, Copy, Debug, PartialEq, Eq)]
pub enum Reply {
    /// The instruction was run.
    Ran,
    /// The instruction was run, and shows this value.
    Out(Value),
    /// Another thread holds a node in a mode that does not go with what the section asks there; nothing has changed.
    Blocked,
    /// The thread had ended; nothing has changed.
    Ended,
    /// The thread has failed.
    Fault(Fault),
}

/// Whether a thread runs, and else how it ended.
#[derive(Clone, Copy, Debug, PartialEq, Eq)]
pub enum Status {
    /// The thread has not ended.
    Running,
    /// The thread has returned this value.
    Done(Value),
    /// The thread has failed with this fault.
    Failed(Fault),
}

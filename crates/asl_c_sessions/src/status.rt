//! The numbers that C gets for answers.
ghost use Rattle.std.specs.Prelude.{◌≡◌};
ghost use Rattle.asl_c_sessions.specs.Status.{move_status, step_status};

use asl_debugger::{DebugFault, StepFault};
use asl_machine::Reply;
pub use asl_opening::NO_MEMORY;

/// Done.
pub const DONE: u32 = 0;
/// The handle has no session, or for `asl_session_open` has one.
pub const BAD_HANDLE: u32 = 3;
/// There is no such thread.
pub const BAD_THREAD: u32 = 4;
/// The program cannot start so many threads.
pub const BAD_COUNT: u32 = 11;
/// The journal has no such position.
pub const NO_SUCH_STEP: u32 = 13;
/// Events follow the position.
pub const NOT_AT_END: u32 = 14;
/// The journal has 16,777,216 events.
pub const JOURNAL_FULL: u32 = 15;

/// That of a step.
pub fn step_status(answer: Result<Reply, StepFault>) -> u32
    ensures { result ≡ step_status answer }
{
    match answer {
        Ok(_) => DONE,
        Err(StepFault::OutOfMemory) => NO_MEMORY,
        Err(StepFault::BadThread) => BAD_THREAD,
        Err(StepFault::NotAtEnd) => NOT_AT_END,
        Err(StepFault::JournalFull) => JOURNAL_FULL,
    }
}

/// That of a move to a position, which fails only where there is none, or for memory.
pub fn move_status(answer: Result<(), DebugFault>) -> u32
    ensures { result ≡ move_status answer }
{
    match answer {
        Ok(()) => DONE,
        Err(DebugFault::NoSuchStep) => NO_SUCH_STEP,
        Err(_) => NO_MEMORY,
    }
}

//! From the bytes of a program to a session on the heap.
ghost use Rattle.std.specs.Prelude.{◌≡◌, [], IfOk, IfErr, OnOk};
ghost use Rattle.asl_machine.specs.Run.{IsThreadCount};
ghost use Rattle.asl_c_sessions.specs.Opening.{IsOpened, WhyNot, WhyNotStarted};

use crate::session::Session;
use crate::status::{BAD_COUNT, NO_MEMORY};
use asl_code::Program;
use asl_debugger::DebugFault;
use asl_opening::program_of;
use std::alloc::Global;

/// The session of so many threads of the program of the bytes, on the heap; or the status that says why there is none.
pub fn open(alloc: Global, bytes: &[u8], threads: u32) -> Result<Box<Session>, u32>
    ensures opened { IfOk result (λ b. IsOpened bytes.now threads b.value) }
    ensures refused { IfErr result (WhyNot bytes.now threads) }
{
    let program = program_of(alloc, bytes)?;
    start(alloc, program, threads)
}

/// The session of so many threads of the program, on the heap; or the status that says why there is none.
fn start(alloc: Global, program: Program, threads: u32) -> Result<Box<Session>, u32>
    ensures start { IfOk result (λ b. b.value ≡ record {
      image = program;
      log = record { threads = threads; events = [] };
      position = 0;
      breakpoints = [];
    }) }
    ensures counted { OnOk result (IsThreadCount program threads) }
    ensures refused { IfErr result (WhyNotStarted program threads) }
{
    let session = match Session::open(alloc, program, threads) {
        Ok(session) => session,
        Err(DebugFault::BadCount) => return Err(BAD_COUNT),
        Err(_) => return Err(NO_MEMORY),
    };
    match Box::new(alloc, session) {
        Ok(kept) => Ok(kept),
        Err(_) => Err(NO_MEMORY),
    }
}

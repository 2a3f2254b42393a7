//! Refused memory. A run answers that an allocation or a thread's start failed, without a report, and the same call with a
//! new gate then answers as with ample memory. So the test passes whichever one allocation fails: `tools/refused` refuses
//! each in turn.
//!
//! The first run has a gate that never waits, since a refused run has workers that are never started, and whoever waited for
//! them would do so for minutes on a busy machine. Its threads are in nobody's way, since one that is let in by the system alone for
//! long would spend all steps of the run on tries at a lock that the other holds.
use crate::runs::{LOOKS, Open, Relay, TWO_APART, Told, apart, outcome};
use asl_code::Program;
use asl_runner::{Gate, RunFault};
use std::alloc::Global;
use std::sync::Wait;
use std::thread::Threads;

/// A run of two workers.
fn run_once<R: Threads + Wait + Sync, G: Gate>(
    rt: &R,
    alloc: Global,
    program: &Program,
    gate: &G,
) -> Option<Result<Told, RunFault>> {
    outcome(rt, alloc, program, (2, 2, 10_000), gate)
}

#[test]
fn want_of_memory_is_answered_by_a_run(rt: HostRuntime) {
    if let Some(program) = apart(rt.alloc()) {
        match run_once(&rt, rt.alloc(), &program, &Open) {
            Some(Ok(told)) => assert!(rt; told == TWO_APART),
            Some(Err(RunFault::OutOfMemory)) | Some(Err(RunFault::Spawn)) => {
                let again = run_once(&rt, rt.alloc(), &program, &Relay::new(2, LOOKS));
                assert!(rt; again == Some(Ok(TWO_APART)));
            }
            _ => assert!(rt; false),
        }
    } else {
        assert!(rt; false);
    }
}

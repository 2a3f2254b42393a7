//! Calls that may be refused memory, for machines that write down their steps and for debuggers. Where memory was refused, everything
//! told must be as before, and the same call is made again: so the answers are those of ample memory, whichever request is refused.
use asl_assembler::{AsmFault, assemble};
use asl_code::Program;
use asl_debugger::{DebugFault, Debugger};
use asl_journal::{JournalFault, Journaled, Receipt};
use asl_machine::Machine;
use asl_probe_text::put_word;
use asl_show::push_view;
use std::alloc::{AllocError, Global};

/// Room for what a machine shows: the probe itself is refused no memory between two calls.
const VIEW: usize = 65_536;

pub fn assembled(alloc: Global, given: &str) -> Result<Program, AsmFault> {
    match assemble(alloc, given.as_bytes()) {
        Err(AsmFault::OutOfMemory) => assemble(alloc, given.as_bytes()),
        answer => answer,
    }
}

fn told(alloc: Global, machine: &Machine<'_>) -> Result<String, AllocError> {
    let mut out = String::with_capacity(alloc, VIEW)?;
    push_view(&mut out, machine)?;
    Ok(out)
}

/// A step, with a word before it where a refused one has changed what is told.
pub fn step(
    alloc: Global,
    journaled: &mut Journaled<'_>,
    thread: u32,
    out: &mut String,
) -> Result<Result<Receipt, JournalFault>, AllocError> {
    let before = told(alloc, journaled.machine())?;
    let events = journaled.events().len();
    let answer = journaled.step(alloc, thread);
    if answer != Err(JournalFault::OutOfMemory) {
        return Ok(answer);
    }
    let after = told(alloc, journaled.machine())?;
    if after.as_str() != before.as_str() || journaled.events().len() != events {
        put_word("changed!", out)?;
    }
    Ok(journaled.step(alloc, thread))
}

/// A move of the debugger, likewise. None where there is no such move.
pub fn moved(
    alloc: Global,
    debugger: &mut Debugger<'_>,
    call: &str,
    number: u32,
    out: &mut String,
) -> Result<Option<Result<(), DebugFault>>, AllocError> {
    let before = told(alloc, debugger.view())?;
    let place = placed(debugger);
    let answer = once(alloc, debugger, call, number);
    if answer != Some(Err(DebugFault::OutOfMemory)) {
        return Ok(answer);
    }
    let after = told(alloc, debugger.view())?;
    if after.as_str() != before.as_str() || placed(debugger) != place {
        put_word("changed!", out)?;
    }
    Ok(once(alloc, debugger, call, number))
}

/// The position, and how many events there are.
fn placed(debugger: &Debugger<'_>) -> (u32, usize) {
    (debugger.position(), debugger.journal().events().len())
}

fn once(
    alloc: Global,
    debugger: &mut Debugger<'_>,
    call: &str,
    number: u32,
) -> Option<Result<(), DebugFault>> {
    match call {
        "goto" => Some(debugger.goto(alloc, number)),
        "forward" => Some(debugger.forward(alloc)),
        "back" => Some(debugger.back(alloc)),
        "next" => Some(debugger.forward_to_break(alloc)),
        "previous" => Some(debugger.back_to_break(alloc)),
        "break" => Some(debugger.break_at(alloc, number)),
        _ => None,
    }
}

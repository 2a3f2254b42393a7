//! Where a run stops for breakpoints.
ghost use Rattle.std.specs.Prelude.{◌<◌, length, MatchBool};
ghost use Rattle.asl_debugger.specs.Session.{IsAtBreak};

use crate::breakpoints::has_break;
use asl_machine::Machine;

/// Whether the thread runs and is at a breakpoint.
pub fn is_at_break(machine: &Machine<'_>, thread: u8, breakpoints: &[u32]) -> bool
    requires { thread < length machine.now.state.threads }
    ensures { MatchBool result (IsAtBreak breakpoints.now machine.now.state thread)
        (¬ IsAtBreak breakpoints.now machine.now.state thread) }
{
    match machine.pc(u32::from(thread)) {
        Some(pc) => has_break(breakpoints, pc),
        None => false,
    }
}

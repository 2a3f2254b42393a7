//! The lines of a trace: each step with the place where its thread was before it.
ghost use Rattle.std.specs.Prelude.{◌≡◌, ◌<◌, ◌++◌, length, OnOk, string_bytes};
ghost use Rattle.asl_machine.specs.State.{activity_at};
ghost use Rattle.asl_show.specs.Trace.{before_text, trace_line};

use crate::replies::{push_numbers, push_reply};
use asl_machine::{Machine, Reply};
use std::alloc::AllocError;

/// Adds the line of a step that the thread makes of the machine: its number, its thread, the thread's pc and depth before
/// it, and the reply.
pub fn push_trace_line(
    text: &mut String,
    number: usize,
    machine: &Machine<'_>,
    thread: u8,
    reply: Reply,
) -> Result<(), AllocError>
    requires { thread < length machine.now.state.threads }
    ensures { OnOk result (string_bytes text.new ≡ string_bytes text.old ++ trace_line machine.now.state number thread reply) }
{
    push_numbers(text, number, thread)?;
    push_before(text, machine, u32::from(thread))?;
    text.push_str(" ")?;
    push_reply(text, reply)?;
    text.push_str("\n")
}

/// Adds the thread's pc and depth, `-` for both where it has ended.
fn push_before(text: &mut String, machine: &Machine<'_>, t: u32) -> Result<(), AllocError>
    requires { t < length machine.now.state.threads }
    ensures { OnOk result (string_bytes text.new ≡ string_bytes text.old ++ before_text (activity_at machine.now.state.threads t)) }
{
    match machine.pc(t) {
        Some(pc) => {
            let depth = machine.depth(t);
            write!(text, "{pc} {depth}")
        }
        None => text.push_str("- -"),
    }
}

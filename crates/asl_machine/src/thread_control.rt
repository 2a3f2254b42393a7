//! How a thread continues in the code: by jumps, calls, returns, and what it shows on its way.
ghost use Rattle.std.specs.Prelude.{◌≡◌, ◌<◌, ◌≤◌, ◌+◌, ◌^◌, IfOk, OnOk, OnErr, if◌then◌else◌, length};
ghost use Rattle.asl_code.specs.Fits.{FitsImage};
ghost use Rattle.asl_machine.specs.Calls.{function_of, frame_count, IsAwaited};
ghost use Rattle.asl_machine.specs.Step.{placed_at, advanced, going_on, is_zero};
ghost use Rattle.asl_machine.specs.StepFunction.{register_of, call_fate, activity_called, fate_returned, activity_returned};

use crate::activity::Activity;
use crate::fate::Fate;
use crate::fault::Fault;
use crate::packed_value::PackedValue;
use crate::program_code::Code;
use crate::values::is_zero;
use asl_code::Value;
use std::alloc::{AllocError, Global};

/// How deep the stack of calls of a thread may be: the most frames. One more is the fault `Stack`.
pub const MAX_FRAMES: usize = 256;

/// Goes to this place of the code.
pub fn jump(activity: &mut Activity, target: u16) -> Fate
    ensures fate { result ≡ Fate.Continues }
    ensures activity { activity.new ≡ going_on activity.old activity.old.depth (placed_at target activity.old.top) }
{
    activity.jump(target);
    Fate::Continues
}

/// Goes to this place of the code where the register has the integer 0 or null, else to the next instruction.
pub fn jump_if_zero(activity: &mut Activity, test: u8, target: u16) -> Fate
    requires there { test < length activity.old.top.regs }
    requires room { activity.old.top.pc + 1 < 2 ^ 16 }
    ensures fate { result ≡ Fate.Continues }
    ensures activity { activity.new ≡ going_on activity.old activity.old.depth
        (placed_at (if is_zero (register_of activity.old.top test) then target else activity.old.top.pc + 1) activity.old.top) }
{
    if is_zero(activity.read(test)) {
        activity.jump(target);
    } else {
        activity.advance();
    }
    Fate::Continues
}

/// Shows the value.
pub fn show(activity: &mut Activity, value: Value) -> Fate
    requires room { activity.old.top.pc + 1 < 2 ^ 16 }
    ensures fate { result ≡ Fate.Shows value }
    ensures activity { activity.new ≡ going_on activity.old activity.old.depth (advanced activity.old.top) }
{
    activity.advance();
    Fate::Shows(value)
}

/// Calls the function, unless there are as many frames as there may be.
pub fn call(
    alloc: Global,
    code: &Code<'_>,
    activity: &mut Activity,
    to: u8,
    first: u8,
    function: u16,
) -> Result<Fate, AllocError>
    requires fits { FitsImage code.now }
    requires there { function < length code.now.functions }
    requires arguments { first + (function_of code.now function).params ≤ length activity.old.top.regs }
    requires room { activity.old.top.pc + 1 < 2 ^ 16 }
    requires few { frame_count activity.old ≤ 256 }
    ensures fate { IfOk result (λ fate. fate ≡ call_fate activity.old) }
    ensures activity { OnOk result (activity.new ≡ activity_called code.now activity.old to first function) }
    ensures memory { OnErr result (frame_count activity.old < 256) }
    ensures err { OnErr result (activity.new ≡ activity.old) }
{
    if activity.frames() == MAX_FRAMES {
        return Ok(Fate::Fails(Fault::Stack));
    }
    activity.call(alloc, code, to, first, function)?;
    Ok(Fate::Continues)
}

/// Returns the value to the frame below. The last frame ends the thread with it, or fails inside a section.
#[inline(always)]
pub fn give(activity: &mut Activity, value: PackedValue) -> Fate
    requires { IsAwaited activity.old.top.result activity.old.below }
    ensures fate { result ≡ fate_returned activity.old value activity.old.below }
    ensures activity { activity.new ≡ activity_returned activity.old value activity.old.below }
{
    if activity.give(value) {
        Fate::Continues
    } else if activity.depth() == 0 {
        Fate::Ends(value.value())
    } else {
        Fate::Fails(Fault::Open)
    }
}

//! The frames of the threads as text.
ghost use Rattle.std.specs.Prelude.{◌≡◌, ◌<◌, ◌++◌, length, OnOk, string_bytes};
ghost use Rattle.asl_show.specs.Lines.{lines_from};
ghost use Rattle.asl_show.specs.Stack.{frame_text, local_at, stack_of, stack_text};

use crate::replies::push_value;
use asl_code::image_limits::REGS;
use asl_machine::{MAX_FRAMES, Machine};
use std::alloc::AllocError;

/// How many registers a frame has at most.
const MAX_REGISTERS: u32 = REGS as u32;

/// Adds the frames of each running thread, the top one first.
pub fn push_stack(text: &mut String, machine: &Machine<'_>) -> Result<(), AllocError>
    ensures { OnOk result (string_bytes text.new ≡ string_bytes text.old ++ stack_text machine.now.state) }
{
    for t in 0..machine.threads() {
        push_frames(text, machine, t)?;
    }
    Ok(())
}

/// Adds the frames of a thread, the top one, which was called last, first.
fn push_frames(text: &mut String, machine: &Machine<'_>, t: u32) -> Result<(), AllocError>
    requires { t < length machine.now.state.threads }
    ensures { OnOk result (string_bytes text.new ≡ string_bytes text.old ++ stack_of machine.now.state t) }
{
    for index in 0..MAX_FRAMES as u32 {
        push_frame(text, machine, t, index)?;
    }
    Ok(())
}

/// Adds the frame of this number, if it is there: its line and its registers.
fn push_frame(
    text: &mut String,
    machine: &Machine<'_>,
    t: u32,
    index: u32,
) -> Result<(), AllocError>
    requires { t < length machine.now.state.threads }
    ensures { OnOk result (string_bytes text.new ≡ string_bytes text.old ++ frame_text machine.now.state t index) }
{
    match machine.frame(t, index) {
        Some(frame) => {
            let function = frame.function;
            let pc = frame.pc;
            write!(text, "frame {t} {index} fn {function} pc {pc}\n")?;
            push_locals(text, machine, t, index)
        }
        None => Ok(()),
    }
}

/// Adds the registers of a frame.
fn push_locals(
    text: &mut String,
    machine: &Machine<'_>,
    t: u32,
    index: u32,
) -> Result<(), AllocError>
    requires { t < length machine.now.state.threads }
    ensures { OnOk result (string_bytes text.new ≡ string_bytes text.old
        ++ lines_from (local_at machine.now.state t index) 0 64) }
{
    for register in 0..MAX_REGISTERS {
        push_local(text, machine, t, index, register)?;
    }
    Ok(())
}

/// Adds the register of the frame, if it is there.
fn push_local(
    text: &mut String,
    machine: &Machine<'_>,
    t: u32,
    index: u32,
    register: u32,
) -> Result<(), AllocError>
    requires { t < length machine.now.state.threads }
    ensures { OnOk result (string_bytes text.new ≡ string_bytes text.old ++ local_at machine.now.state t index register) }
{
    match machine.frame_reg(t, index, register) {
        Some(value) => {
            write!(text, "local {t} {index} {register} ")?;
            push_value(text, value)?;
            text.push_str("\n")
        }
        None => Ok(()),
    }
}

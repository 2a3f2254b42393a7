//! The view of a machine as text.
ghost use Rattle.std.specs.Prelude.{◌≡◌, ◌<◌, ◌≤◌, ◌++◌, length, OnOk, string_bytes};
ghost use Rattle.asl_show.specs.Lines.{lines_from};
ghost use Rattle.asl_show.specs.Objects.{object_text};
ghost use Rattle.asl_show.specs.View.{fresh_line, fresh_text, holding_text, place_at, register_at, thread_text, view_text};

use crate::nodes::{About, push_nodes};
use crate::objects::push_cells;
use crate::replies::{push_fault, push_value};
use asl_code::image_limits::REGS;
use asl_machine::{Machine, Status};
use std::alloc::AllocError;

/// How many registers a frame has at most.
const MAX_REGISTERS: u32 = REGS as u32;

/// Adds the view of the machine: its threads, its cells, what each thread holds, and what is fresh for each.
pub fn push_view(text: &mut String, machine: &Machine<'_>) -> Result<(), AllocError>
    ensures { OnOk result (string_bytes text.new ≡ string_bytes text.old ++ view_text machine.now) }
{
    push_threads(text, machine)?;
    push_cells(text, machine)?;
    push_holdings(text, machine.program().classes(), machine)?;
    push_all_fresh(text, machine)
}

/// Adds where each thread stands, and its registers.
fn push_threads(text: &mut String, machine: &Machine<'_>) -> Result<(), AllocError>
    ensures { OnOk result (string_bytes text.new ≡ string_bytes text.old
        ++ lines_from (thread_text machine.now.state) 0 (length machine.now.state.threads)) }
{
    for t in 0..machine.threads() {
        push_thread(text, machine, t)?;
    }
    Ok(())
}

/// Adds where a thread stands, and its registers.
fn push_thread(text: &mut String, machine: &Machine<'_>, t: u32) -> Result<(), AllocError>
    requires { t < length machine.now.state.threads }
    ensures { OnOk result (string_bytes text.new ≡ string_bytes text.old ++ thread_text machine.now.state t) }
{
    push_place(text, machine, t)?;
    push_registers(text, machine, t)
}

/// Adds where the thread is.
fn push_place(text: &mut String, machine: &Machine<'_>, t: u32) -> Result<(), AllocError>
    requires { t < length machine.now.state.threads }
    ensures { OnOk result (string_bytes text.new ≡ string_bytes text.old ++ place_at machine.now.state t) }
{
    write!(text, "thread {t} ")?;
    match machine.status(t) {
        Status::Running => {
            let pc = machine.pc(t).unwrap_or(0);
            let depth = machine.depth(t);
            write!(text, "pc {pc} depth {depth}\n")
        }
        Status::Done(value) => {
            text.push_str("done ")?;
            push_value(text, value)?;
            text.push_str("\n")
        }
        Status::Failed(fault) => {
            text.push_str("failed ")?;
            push_fault(text, fault)?;
            text.push_str("\n")
        }
    }
}

/// Adds a line for each register of a thread's last frame.
fn push_registers(text: &mut String, machine: &Machine<'_>, t: u32) -> Result<(), AllocError>
    requires { t < length machine.now.state.threads }
    ensures { OnOk result (string_bytes text.new ≡ string_bytes text.old
        ++ lines_from (register_at machine.now.state t) 0 64) }
{
    for register in 0..MAX_REGISTERS {
        push_register(text, machine, t, register)?;
    }
    Ok(())
}

/// Adds the register of the thread's top frame, if it is there.
fn push_register(
    text: &mut String,
    machine: &Machine<'_>,
    t: u32,
    register: u32,
) -> Result<(), AllocError>
    requires { t < length machine.now.state.threads }
    ensures { OnOk result (string_bytes text.new ≡ string_bytes text.old ++ register_at machine.now.state t register) }
{
    match machine.reg(t, register) {
        Some(value) => {
            write!(text, "reg {t} {register} ")?;
            push_value(text, value)?;
            text.push_str("\n")
        }
        None => Ok(()),
    }
}

/// Adds what each thread holds.
fn push_holdings(text: &mut String, classes: u32, machine: &Machine<'_>) -> Result<(), AllocError>
    requires { classes ≤ 65536 }
    ensures { OnOk result (string_bytes text.new ≡ string_bytes text.old
        ++ lines_from (holding_text classes machine.now.state) 0 (length machine.now.state.threads)) }
{
    for t in 0..machine.threads() {
        push_holding(text, classes, machine, t)?;
    }
    Ok(())
}

/// Adds what the thread holds.
fn push_holding(
    text: &mut String,
    classes: u32,
    machine: &Machine<'_>,
    t: u32,
) -> Result<(), AllocError>
    requires thread { t < length machine.now.state.threads }
    requires few { classes ≤ 65536 }
    ensures { OnOk result (string_bytes text.new ≡ string_bytes text.old ++ holding_text classes machine.now.state t) }
{
    push_nodes(text, classes, machine, t, &About::Held)
}

/// Adds which new objects each thread needs no lock for.
fn push_all_fresh(text: &mut String, machine: &Machine<'_>) -> Result<(), AllocError>
    ensures { OnOk result (string_bytes text.new ≡ string_bytes text.old
        ++ lines_from (fresh_text machine.now.state) 0 (length machine.now.state.threads)) }
{
    for t in 0..machine.threads() {
        push_fresh_of(text, machine, t)?;
    }
    Ok(())
}

/// Adds the objects that are fresh for the thread.
fn push_fresh_of(text: &mut String, machine: &Machine<'_>, t: u32) -> Result<(), AllocError>
    requires { t < length machine.now.state.threads }
    ensures { OnOk result (string_bytes text.new ≡ string_bytes text.old ++ fresh_text machine.now.state t) }
{
    for object in 0..machine.objects() {
        push_fresh(text, machine, t, object)?;
    }
    Ok(())
}

/// Adds the object, if it is fresh for the thread.
fn push_fresh(
    text: &mut String,
    machine: &Machine<'_>,
    t: u32,
    object: u32,
) -> Result<(), AllocError>
    requires { t < length machine.now.state.threads }
    ensures { OnOk result (string_bytes text.new ≡ string_bytes text.old ++ fresh_line machine.now.state t object) }
{
    if machine.fresh(t, object) {
        write!(text, "fresh {t} {object}\n")
    } else {
        Ok(())
    }
}

//! Machines of one assembly text. `new N` makes one of N threads, `copy` a copy of the last one used, which has let its program go and
//! is taken up again, and `use I` goes to the
//! I-th. On that: `step T..`, `see T`, `object I`, `objects`, `threads`, `globals`, `held T NODE`, `fresh T I`, `cell O.P`. What `pace`
//! has counts the steps that are blocked.
//! Where an allocation fails, everything told must be as before, and the same call is made again.
use crate::pace;
use asl_assembler::{AsmFault, assemble};
use asl_code::{Cell, Program};
use asl_lock_forest::Node;
use asl_machine::{Machine, MachineFault};
use asl_mode_lanes::Mode;
use asl_probe_text::{cell, mode_name, node, put_bad, put_bool, put_line, put_value, put_word};
use std::alloc::{AllocError, Global};

pub fn answer(alloc: Global, given: &str, calls: &str, out: &mut String) -> Result<(), AllocError> {
    let assembled = match assemble(alloc, given.as_bytes()) {
        Err(AsmFault::OutOfMemory) => assemble(alloc, given.as_bytes()),
        assembled => assembled,
    };
    match assembled {
        Ok(program) => answer_calls(alloc, &program, calls, out),
        Err(fault) => write!(out, "{fault}\n"),
    }
}

fn answer_calls(
    alloc: Global,
    program: &Program,
    calls: &str,
    out: &mut String,
) -> Result<(), AllocError> {
    let mut machines = Vec::new(alloc);
    let mut used = 0usize;
    for line in calls.lines() {
        let (call, rest) = line.split_once(' ').unwrap_or((line, ""));
        match call {
            "new" => {
                used = machines.len();
                make(alloc, program, rest, &mut machines, out)?;
            }
            "use" => used = rest.parse::<usize>().unwrap_or(0),
            "copy" => copy(alloc, used, &mut machines, out)?,
            "pace" => pace::answer(alloc, program, rest, out)?,
            _ => match machines.get_mut(used) {
                Some(machine) => answer_call(alloc, machine, call, rest, out)?,
                None => put_bad(line, out)?,
            },
        }
    }
    Ok(())
}

fn make<'p>(
    alloc: Global,
    program: &'p Program,
    word: &str,
    machines: &mut Vec<Machine<'p>>,
    out: &mut String,
) -> Result<(), AllocError> {
    let count = word.parse::<u32>().unwrap_or(0);
    let made = match Machine::new(alloc, program, count) {
        Err(MachineFault::OutOfMemory) => Machine::new(alloc, program, count),
        made => made,
    };
    match made {
        Ok(machine) => Ok(machines.push(machine)?),
        Err(fault) => write!(out, "{fault}\n"),
    }
}

fn copy(
    alloc: Global,
    used: usize,
    machines: &mut Vec<Machine<'_>>,
    out: &mut String,
) -> Result<(), AllocError> {
    let Some(machine) = machines.get(used) else {
        return put_bad("copy", out);
    };
    let copied = match machine.try_copy(alloc) {
        Err(_refused) => machine.try_copy(alloc),
        copied => copied,
    };
    match copied {
        Ok(machine) => Ok(machines.push(rested(machine))?),
        Err(fault) => write!(out, "{fault}\n"),
    }
}

/// The machine, its program let go and taken up again.
fn rested(machine: Machine<'_>) -> Machine<'_> {
    let program = machine.program();
    Machine::resume(program, machine.pause())
}

fn answer_call(
    alloc: Global,
    machine: &mut Machine<'_>,
    call: &str,
    rest: &str,
    out: &mut String,
) -> Result<(), AllocError> {
    match call {
        "step" => put_steps(alloc, machine, rest, out),
        "see" => put_thread(machine, rest.parse::<u32>().unwrap_or(128), out),
        "object" => put_object(machine, rest.parse::<u16>().unwrap_or(0), out),
        "objects" => write!(out, "{}\n", machine.objects()),
        "threads" => write!(out, "{}\n", machine.threads()),
        "globals" => write!(out, "{}\n", machine.program().globals().len()),
        "held" | "fresh" => put_of_thread(machine, call, rest, out),
        "cell" => put_cell(machine, rest, out),
        _ => put_bad(call, out),
    }
}

fn put_steps(
    alloc: Global,
    machine: &mut Machine<'_>,
    threads: &str,
    out: &mut String,
) -> Result<(), AllocError> {
    for word in threads.split_whitespace() {
        match word.parse::<u32>() {
            Ok(thread) => put_step(alloc, machine, thread, out)?,
            Err(_) => put_word("no thread", out)?,
        }
    }
    out.push('\n')
}

fn put_step(
    alloc: Global,
    machine: &mut Machine<'_>,
    thread: u32,
    out: &mut String,
) -> Result<(), AllocError> {
    let before = told(alloc, machine)?;
    let answer = match machine.step(alloc, thread) {
        Err(MachineFault::OutOfMemory) => {
            let after = told(alloc, machine)?;
            if after.as_str() != before.as_str() {
                put_word("changed!", out)?;
            }
            machine.step(alloc, thread)
        }
        answer => answer,
    };
    put_word("", out)?;
    match answer {
        Ok(reply) => write!(out, "{reply:?}"),
        Err(fault) => write!(out, "{fault}"),
    }
}

/// What all readers tell.
fn told(alloc: Global, machine: &Machine<'_>) -> Result<String, AllocError> {
    let mut out = String::with_capacity(alloc, 65_536)?;
    for thread in 0..machine.threads() {
        put_thread(machine, thread, &mut out)?;
    }
    for object in 0..machine.objects() {
        put_object(machine, u16::try_from(object).unwrap_or(0), &mut out)?;
    }
    Ok(out)
}

/// How a thread stands, its registers, and what it holds.
fn put_thread(machine: &Machine<'_>, thread: u32, out: &mut String) -> Result<(), AllocError> {
    if thread >= machine.threads() {
        return put_bad("see", out);
    }
    let status = machine.status(thread);
    let depth = machine.depth(thread);
    write!(out, "{status:?} depth {depth}")?;
    if let Some(pc) = machine.pc(thread) {
        write!(out, " pc {pc} regs")?;
    }
    put_registers(machine, thread, out)?;
    out.push_str(" holds")?;
    put_holdings(machine, thread, out)?;
    out.push('\n')
}

fn put_registers(machine: &Machine<'_>, thread: u32, out: &mut String) -> Result<(), AllocError> {
    if thread < machine.threads() {
        for register in 0..256u32 {
            if let Some(value) = machine.reg(thread, register) {
                out.push(' ')?;
                put_value(value, out)?;
            }
        }
    }
    Ok(())
}

fn held(machine: &Machine<'_>, thread: u32, node: Node) -> Mode {
    if thread < machine.threads() {
        machine.held(thread, node)
    } else {
        Mode::NL
    }
}

fn put_holdings(machine: &Machine<'_>, thread: u32, out: &mut String) -> Result<(), AllocError> {
    let root = held(machine, thread, Node::Root);
    if root != Mode::NL {
        write!(out, " root {}", mode_name(root))?;
    }
    for number in 0..machine.program().classes() {
        let class = u16::try_from(number).unwrap_or(0);
        let mode = held(machine, thread, Node::Class(class));
        if mode != Mode::NL {
            write!(out, " class{class} {}", mode_name(mode))?;
        }
    }
    for object in 0..machine.objects() {
        put_held_cells(machine, thread, u16::try_from(object).unwrap_or(0), out)?;
    }
    Ok(())
}

fn put_held_cells(
    machine: &Machine<'_>,
    thread: u32,
    object: u16,
    out: &mut String,
) -> Result<(), AllocError> {
    let class = machine.class(u32::from(object)).unwrap_or(0);
    let class = u16::try_from(class).unwrap_or(0);
    for offset in 0..255u8 {
        let mode = held(machine, thread, Node::Leaf(Cell { object, offset }, class));
        if mode != Mode::NL {
            write!(out, " cell{object}.{offset}:{class} {}", mode_name(mode))?;
        }
    }
    Ok(())
}

fn put_object(machine: &Machine<'_>, object: u16, out: &mut String) -> Result<(), AllocError> {
    let (Some(class), Some(size)) = (
        machine.class(u32::from(object)),
        machine.size(u32::from(object)),
    ) else {
        return put_line("no object", out);
    };
    write!(out, "class {class} size {size} cells")?;
    for offset in 0..255u8 {
        if let Some(value) = machine.cell(Cell { object, offset }) {
            out.push(' ')?;
            put_value(value, out)?;
        }
    }
    out.push('\n')
}

fn put_of_thread(
    machine: &Machine<'_>,
    call: &str,
    rest: &str,
    out: &mut String,
) -> Result<(), AllocError> {
    let Some((thread, what)) = rest.split_once(' ') else {
        return put_bad(call, out);
    };
    let thread = thread.parse::<u32>().unwrap_or(128);
    if thread >= machine.threads() {
        return put_bad(call, out);
    }
    if call == "fresh" {
        return put_bool(machine.fresh(thread, what.parse::<u32>().unwrap_or(0)), out);
    }
    match node(what) {
        Some(node) => put_line(mode_name(machine.held(thread, node)), out),
        None => put_bad(call, out),
    }
}

fn put_cell(machine: &Machine<'_>, word: &str, out: &mut String) -> Result<(), AllocError> {
    match cell(word).and_then(|cell| machine.cell(cell)) {
        Some(value) => {
            put_value(value, out)?;
            out.push('\n')
        }
        None => put_line("no cell", out),
    }
}

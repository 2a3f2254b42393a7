//! How far the checkpoints of `debug` are apart: near, but no more of them than a budget of memory allows.
ghost use Rattle.std.specs.Prelude.{◌≡◌, ◌≤◌, ◌+◌, ℕ, List, length};
ghost use Rattle.std.specs.List.{list_any};
ghost use Rattle.asl_code.specs.Verified.{IsVerified};
ghost use Rattle.asl_machine.specs.State.{State};
ghost use Rattle.asl_journal.specs.Journal.{LeadsTo};
ghost use Rattle.asl_journal.specs.declared.event.Event.{Event};
ghost use Rattle.asl_tool.specs.MadeBytes.{made_bytes, most_made};
ghost use Rattle.asl_tool.specs.Spacing.{IsSpacing, heap_bytes, is_call, most_registers, spacing_at, stack_bytes};

use asl_code::{Function, Instr, Program};
use asl_journal::{Journal, Memory, replay};
use asl_machine::{MAX_FRAMES, Machine};

/// How many events lie between two checkpoints at least.
const LEAST: u32 = 1024;

/// How many bytes all checkpoints may take, about.
const BUDGET: u64 = 268_435_456;

/// How many bytes an object, a cell, a register and a frame take, about, the first and the last without what they hold.
const OBJECT: u64 = 48;

const WORD: u64 = 8;

const FRAME: u64 = 64;

/// How many objects there are at most.
const OBJECTS: u64 = 65_536;

/// How many events lie between two checkpoints: 1,024, or as many as keep the checkpoints within the budget. A machine has no fewer
/// objects later than earlier; so where a program makes objects, and might make too many, the run is replayed to count them. Where that is
/// refused, 1,024: then the events are none of the program's, or memory ran out.
pub fn spacing_of<M: Memory>(memory: M, program: &Program, journal: &Journal) -> u32
    ensures least { 1024 ≤ result }
    ensures spacing { IsSpacing (M.refused memory) program.now journal.now.threads journal.now.events result }
{
    let events = journal.events().len() as u64;
    let stacks = stack_bytes(program, journal.threads());
    let most = spacing_for(events, stacks + most_heap_bytes(program, events));
    if most == LEAST {
        return LEAST;
    }
    match replay(memory, program, journal) {
        Ok(machine) => spacing_for(events, stacks + heap_bytes(&machine)),
        Err(_) => LEAST,
    }
}

/// The spacing at which checkpoints of so many bytes each are within the budget, over so many events.
fn spacing_for(events: u64, bytes: u64) -> u32
    ensures least { 1024 ≤ result }
    ensures spacing { result ≡ spacing_at events bytes }
{
    let needed = (events.saturating_mul(bytes) / BUDGET).min(u64::from(u32::MAX));
    (needed as u32).max(LEAST)
}

/// How many bytes the frames of so many threads take at most, about. Whoever has a program has a verified one, which is handed on here.
fn stack_bytes(program: &Program, threads: u32) -> u64
    requires { threads ≤ 128 }
    ensures bytes { result ≡ stack_bytes program.now threads }
    ensures few { result ≤ 68943872 }
    ensures verified { IsVerified program.now }
{
    let frames = if has_call(program.code()) {
        MAX_FRAMES as u64
    } else {
        1
    };
    let registers = most_registers(program.functions());
    u64::from(threads) * frames * (FRAME + u64::from(registers) * WORD)
}

/// Whether some instruction calls.
fn has_call(code: &[Instr]) -> bool
    ensures { result ≡ list_any is_call code.now }
{
    code.iter().any(|instr| is_call(instr))
}

/// Whether the instruction calls.
fn is_call(instr: &Instr) -> bool
    ensures { result ≡ is_call instr.now }
{
    matches!(instr, Instr::Call { .. })
}

/// The most registers that one of the functions has.
fn most_registers(functions: &[Function]) -> u8
    ensures { result ≡ most_registers functions.now }
{
    let mut most = 0;
    for function in functions {
        most = most.max(function.regs);
    }
    most
}

/// How many bytes the objects of a run of so many events take at most, about.
fn most_heap_bytes(program: &Program, events: u64) -> u64
    ensures enough { (threads : ℕ) (log : List Event) (s : State) → length log ≤ events → LeadsTo program.now threads log s → heap_bytes s.objects ≤ result }
    ensures few { result ≤ 136896512 }
{
    let globals = program.globals().len() as u64;
    globals * (OBJECT + WORD) + events.min(OBJECTS) * most_made(program.code())
}

/// The most bytes that one of the instructions makes, about.
fn most_made(code: &[Instr]) -> u64
    ensures made { result ≡ most_made code.now }
    ensures few { result ≤ 2088 }
{
    let mut most = 0;
    for instr in code {
        most = most.max(made_bytes(instr));
    }
    most
}

/// How many bytes the object takes that the instruction makes, about: none where it makes none.
fn made_bytes(instr: &Instr) -> u64
    ensures made { result ≡ made_bytes instr.now }
    ensures few { result ≤ 2088 }
{
    match instr {
        Instr::New { cells, .. } => OBJECT + u64::from(*cells) * WORD,
        _ => 0,
    }
}

/// How many bytes the objects of the machine take, about.
fn heap_bytes(machine: &Machine<'_>) -> u64
    ensures bytes { result ≡ heap_bytes machine.now.state.objects }
    ensures few { result ≤ 136839168 }
{
    let mut bytes = 0;
    for object in 0..machine.objects() {
        let cells = u64::from(machine.size(object).unwrap_or(0));
        bytes += OBJECT + cells * WORD;
    }
    bytes
}

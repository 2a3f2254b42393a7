//! Journals of an assembly text. `start N` starts a machine of N threads that writes its steps down; on it `step T ..` (receipts: the
//! number, the thread, the reply, and `ends` where the thread has ended), `run T N` (N steps without a word), `events`, `reserve N`,
//! `cell`, `all_ran` (whether each event is a step of thread 0 that ran). Of a run of two threads: `put SCHEDULE` (its bytes), `replay SCHEDULE`, `follow K SCHEDULE` (from after K events),
//! `differs K SCHEDULE` (with another reply at K), `last SCHEDULE`. And `empty N`, a journal without events.
use crate::again::{assembled, step};
use crate::runs::{empty_met, is_followed, is_replayed, journal_of, last_event, refused_at};
use asl_code::{Cell, Program};
use asl_journal::{Event, JournalFault, Journaled, Receipt, put};
use asl_machine::Reply;
use asl_probe_text::{numbers, put_bad, put_line, put_same, put_word};
use std::alloc::{AllocError, Global};

pub fn answer(alloc: Global, given: &str, calls: &str, out: &mut String) -> Result<(), AllocError> {
    match assembled(alloc, given) {
        Ok(program) => answer_calls(alloc, &program, calls, out),
        Err(fault) => write!(out, "{fault}\n"),
    }
}

fn answer_calls(
    alloc: Global,
    program: &Program,
    calls: &str,
    out: &mut String,
) -> Result<(), AllocError> {
    let mut started = None;
    for line in calls.lines() {
        let (call, rest) = line.split_once(' ').unwrap_or((line, ""));
        if call == "start" {
            started = started_at(alloc, program, rest.parse::<u32>().unwrap_or(0));
        } else {
            match &mut started {
                Some(journaled) => answer_call(alloc, journaled, call, rest, out)?,
                None => answer_run(alloc, program, call, rest, out)?,
            }
        }
    }
    Ok(())
}

/// A machine that starts; made again where it is refused, for memory or else.
fn started_at<'p>(alloc: Global, program: &'p Program, threads: u32) -> Option<Journaled<'p>> {
    match Journaled::start(alloc, program, threads) {
        Err(_refused) => Journaled::start(alloc, program, threads).ok(),
        Ok(journaled) => Some(journaled),
    }
}

fn answer_call(
    alloc: Global,
    journaled: &mut Journaled<'_>,
    call: &str,
    rest: &str,
    out: &mut String,
) -> Result<(), AllocError> {
    match call {
        "step" => put_steps(alloc, journaled, rest, out),
        "run" => put_run(alloc, journaled, rest, out),
        "events" => write!(out, "{}\n", journaled.events().len()),
        "reserve" => put_reserved(alloc, journaled, rest.parse::<u32>().unwrap_or(0), out),
        "cell" => put_cell(journaled, out),
        "all_ran" => put_same(Some(have_run(journaled.events())), out),
        _ => put_bad(call, out),
    }
}

fn put_steps(
    alloc: Global,
    journaled: &mut Journaled<'_>,
    text: &str,
    out: &mut String,
) -> Result<(), AllocError> {
    for thread in numbers(alloc, text)?.as_slice() {
        let receipt = step(alloc, journaled, u32::from(*thread), out)?;
        put_receipt(receipt, out)?;
    }
    out.push('\n')
}

fn put_receipt(answer: Result<Receipt, JournalFault>, out: &mut String) -> Result<(), AllocError> {
    put_word("", out)?;
    match answer {
        Ok(receipt) => {
            let Receipt {
                index,
                thread,
                reply,
                ended,
            } = receipt;
            let end = if ended { " ends;" } else { ";" };
            write!(out, "{index} {thread} {reply:?}{end}")
        }
        Err(fault) => write!(out, "{fault};"),
    }
}

/// Steps a thread so often, as long as the steps are taken; the answer to the last, and how many events there are.
fn put_run(
    alloc: Global,
    journaled: &mut Journaled<'_>,
    text: &str,
    out: &mut String,
) -> Result<(), AllocError> {
    let (thread, count) = text.split_once(' ').unwrap_or((text, ""));
    let thread = thread.parse::<u32>().unwrap_or(0);
    let fault = first_fault(alloc, journaled, thread, count.parse::<u32>().unwrap_or(0));
    match fault {
        Some(fault) => write!(out, "{fault} events {}\n", journaled.events().len()),
        None => write!(out, "events {}\n", journaled.events().len()),
    }
}

fn first_fault(
    alloc: Global,
    journaled: &mut Journaled<'_>,
    thread: u32,
    count: u32,
) -> Option<JournalFault> {
    for _ in 0..count {
        if let Err(fault) = journaled.step(alloc, thread) {
            return Some(fault);
        }
    }
    None
}

/// Whether each event is a step of thread 0 that ran.
fn have_run(events: &[Event]) -> bool {
    for event in events {
        if event.thread != 0 || event.reply != Reply::Ran {
            return false;
        }
    }
    true
}

/// Whether the capacity that is asked for is there, and one less after a step.
fn put_reserved(
    alloc: Global,
    journaled: &mut Journaled<'_>,
    count: u32,
    out: &mut String,
) -> Result<(), AllocError> {
    let reserved = match journaled.reserve(alloc, count) {
        Err(JournalFault::OutOfMemory) => journaled.reserve(alloc, count),
        answer => answer,
    };
    if let Err(fault) = reserved {
        return write!(out, "{fault}\n");
    }
    let spare = journaled.spare();
    let is_stepped = step(alloc, journaled, 0, out)?.is_ok();
    let left = journaled.spare();
    put_same(
        Some(spare >= count && is_stepped && left.saturating_add(1) >= spare),
        out,
    )
}

/// The first cell of the first global.
fn put_cell(journaled: &Journaled<'_>, out: &mut String) -> Result<(), AllocError> {
    let global = Cell {
        object: 0,
        offset: 0,
    };
    match journaled.machine().cell(global) {
        Some(value) => write!(out, "{value:?}\n"),
        None => put_line("no cell", out),
    }
}

fn answer_run(
    alloc: Global,
    program: &Program,
    call: &str,
    rest: &str,
    out: &mut String,
) -> Result<(), AllocError> {
    let (first, others) = rest.split_once(' ').unwrap_or((rest, ""));
    let all = numbers(alloc, rest)?;
    let behind = numbers(alloc, others)?;
    let place = first.parse::<u32>().unwrap_or(0);
    match call {
        "put" => put_journal(alloc, program, all.as_slice(), out),
        "replay" => put_same(is_replayed(alloc, program, all.as_slice()), out),
        "follow" => put_same(is_followed(alloc, program, behind.as_slice(), place), out),
        "differs" => put_fault(
            refused_at(alloc, program, behind.as_slice(), place as usize),
            out,
        ),
        "last" => put_last(alloc, program, all.as_slice(), out),
        "empty" => put_fault(empty_met(alloc, program, place), out),
        _ => put_bad(call, out),
    }
}

fn put_fault(fault: Option<JournalFault>, out: &mut String) -> Result<(), AllocError> {
    match fault {
        Some(fault) => write!(out, "{fault}\n"),
        None => put_line("none", out),
    }
}

fn put_last(
    alloc: Global,
    program: &Program,
    schedule: &[u8],
    out: &mut String,
) -> Result<(), AllocError> {
    match last_event(alloc, program, schedule) {
        Some(event) => write!(out, "{} {:?}\n", event.thread, event.reply),
        None => put_line("no event", out),
    }
}

fn put_journal(
    alloc: Global,
    program: &Program,
    schedule: &[u8],
    out: &mut String,
) -> Result<(), AllocError> {
    if let Some(journal) = journal_of(alloc, program, schedule) {
        for byte in put(alloc, &journal)?.as_slice() {
            put_word("", out)?;
            write!(out, "{byte}")?;
        }
    }
    out.push('\n')
}

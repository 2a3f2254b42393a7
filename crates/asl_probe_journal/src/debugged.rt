//! A debugger over the journal of two threads of an assembly text. `open SPACING SCHEDULE` opens one: how many events there are.
//! On it `goto K`, `forward`, `back`, `next`, `previous` (the refusal, if there is one, and the position after it), `break PC`,
//! `clear PC`, `fresh` (whether the objects 1 and 2 are so for threads 0 and 1, in the order 1 0, 1 1, 2 0, 2 1), `all` (whether each position shows, after each
//! other, what a new replay leads to), `visit K ..` (whether these do). Without it `differing K SPACING SCHEDULE` (the journal with another reply at
//! K: the refusal, and how many events come back), `crowded N SPACING` (no events, N threads: the refusal, and the threads).
use crate::again::{assembled, moved};
use crate::runs::{journal_of, replayed_from};
use crate::shown::shows_same;
use asl_code::{Program, Value};
use asl_debugger::{DebugFault, Debugger};
use asl_journal::Journal;
use asl_machine::Reply;
use asl_probe_text::{numbers, put_bad, put_line, put_same, put_word};
use std::alloc::{AllocError, Global};

pub fn answer(alloc: Global, given: &str, calls: &str, out: &mut String) -> Result<(), AllocError> {
    match assembled(alloc, given) {
        Ok(program) => answer_calls(alloc, &program, calls, out),
        Err(fault) => write!(out, "{fault}\n"),
    }
}

/// A debugger and the schedule that its journal was made by.
#[derive(Drop)]
struct Session<'p> {
    debugger: Debugger<'p>,
    schedule: Vec<u8>,
}

fn answer_calls(
    alloc: Global,
    program: &Program,
    calls: &str,
    out: &mut String,
) -> Result<(), AllocError> {
    let mut session = None;
    for line in calls.lines() {
        let (call, rest) = line.split_once(' ').unwrap_or((line, ""));
        match call {
            "open" => {
                // (made again where it is refused, for memory or else)
                session = match opened(alloc, program, rest) {
                    None => opened(alloc, program, rest),
                    made => made,
                };
                put_opened(session.as_ref(), out)?;
            }
            "differing" => put_differing(alloc, program, rest, out)?,
            "crowded" => put_crowded(alloc, program, rest, out)?,
            _ => match &mut session {
                Some(session) => answer_call(alloc, program, session, call, rest, out)?,
                None => put_line("no debugger", out)?,
            },
        }
    }
    Ok(())
}

/// The first number of a text, and what follows it.
fn split_number(text: &str) -> (u32, &str) {
    let (number, rest) = text.split_once(' ').unwrap_or((text, ""));
    (number.parse::<u32>().unwrap_or(0), rest)
}

fn opened<'p>(alloc: Global, program: &'p Program, text: &str) -> Option<Session<'p>> {
    let (spacing, rest) = split_number(text);
    let schedule = numbers(alloc, rest).ok()?;
    let journal = journal_of(alloc, program, schedule.as_slice())?;
    let debugger = Debugger::open(alloc, program, journal, spacing.max(1)).ok()?;
    Some(Session { debugger, schedule })
}

fn put_opened(session: Option<&Session<'_>>, out: &mut String) -> Result<(), AllocError> {
    match session {
        Some(session) => write!(out, "{} events\n", session.schedule.len()),
        None => put_line("refused", out),
    }
}

fn answer_call(
    alloc: Global,
    program: &Program,
    session: &mut Session<'_>,
    call: &str,
    rest: &str,
    out: &mut String,
) -> Result<(), AllocError> {
    match call {
        "fresh" => put_fresh(&session.debugger, out),
        "all" => put_same(is_shown_everywhere(alloc, program, session), out),
        "visit" => put_same(is_shown_at(alloc, program, session, rest), out),
        "clear" => {
            session.debugger.clear(split_number(rest).0);
            put_move(Ok(()), session, out)
        }
        _ => match moved(
            alloc,
            &mut session.debugger,
            call,
            split_number(rest).0,
            out,
        )? {
            Some(answer) => put_move(answer, session, out),
            None => put_bad(call, out),
        },
    }
}

fn put_move(
    answer: Result<(), DebugFault>,
    session: &Session<'_>,
    out: &mut String,
) -> Result<(), AllocError> {
    if let Err(fault) = answer {
        write!(out, "{fault} ")?;
    }
    write!(out, "{}\n", session.debugger.position())
}

fn put_fresh(debugger: &Debugger<'_>, out: &mut String) -> Result<(), AllocError> {
    let machine = debugger.view();
    if machine.threads() == 2 {
        for object in [1, 2] {
            for thread in 0..2 {
                put_word(
                    if machine.fresh(thread, object) {
                        "yes"
                    } else {
                        "no"
                    },
                    out,
                )?;
            }
        }
    }
    out.push('\n')
}

/// Whether the debugger goes to the position, and shows there what a new replay leads to.
fn is_shown(
    alloc: Global,
    program: &Program,
    session: &mut Session<'_>,
    position: u32,
) -> Option<bool> {
    session.debugger.goto(alloc, position).ok()?;
    let machine = replayed_from(alloc, program, session.schedule.as_slice(), position)?;
    Some(session.debugger.position() == position && shows_same(session.debugger.view(), &machine))
}

fn is_shown_everywhere(
    alloc: Global,
    program: &Program,
    session: &mut Session<'_>,
) -> Option<bool> {
    let last = u32::try_from(session.schedule.len()).ok()?;
    for from in 0..=last {
        for to in 0..=last {
            if !is_shown(alloc, program, session, from)?
                || !is_shown(alloc, program, session, to)?
            {
                return Some(false);
            }
        }
    }
    Some(true)
}

fn is_shown_at(
    alloc: Global,
    program: &Program,
    session: &mut Session<'_>,
    text: &str,
) -> Option<bool> {
    for word in text.split_whitespace() {
        if !is_shown(alloc, program, session, word.parse::<u32>().ok()?)? {
            return Some(false);
        }
    }
    Some(true)
}

fn put_differing(
    alloc: Global,
    program: &Program,
    text: &str,
    out: &mut String,
) -> Result<(), AllocError> {
    let (place, rest) = split_number(text);
    let (spacing, rest) = split_number(rest);
    let schedule = numbers(alloc, rest)?;
    match differing(alloc, program, schedule.as_slice(), place as usize) {
        Some(journal) => put_returned(alloc, program, journal, spacing, out),
        None => put_line("no journal", out),
    }
}

/// The journal of the schedule with another reply at this place.
fn differing(alloc: Global, program: &Program, schedule: &[u8], place: usize) -> Option<Journal> {
    let mut events = journal_of(alloc, program, schedule)?.into_events();
    events.get_mut(place)?.reply = Reply::Out(Value::Null);
    Journal::of(2, events).ok()
}

fn put_crowded(
    alloc: Global,
    program: &Program,
    text: &str,
    out: &mut String,
) -> Result<(), AllocError> {
    let (threads, rest) = split_number(text);
    match Journal::of(threads, Vec::new(alloc)) {
        Ok(journal) => put_returned(alloc, program, journal, split_number(rest).0, out),
        Err(_) => put_line("no journal", out),
    }
}

/// Why no debugger opens the journal, and what comes back of it.
fn put_returned(
    alloc: Global,
    program: &Program,
    journal: Journal,
    spacing: u32,
    out: &mut String,
) -> Result<(), AllocError> {
    match Debugger::open(alloc, program, journal, spacing.max(1)) {
        Ok(_) => put_line("opened", out),
        Err((fault, journal)) => {
            let (events, threads) = (journal.events().len(), journal.threads());
            write!(out, "{fault} {events} events, {threads} threads\n")
        }
    }
}

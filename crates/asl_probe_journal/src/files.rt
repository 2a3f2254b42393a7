//! Journals as bytes: `bytes B ..` gives them; `get` (what is read is written again, and must be the same), `cuts` (at each place),
//! `at PLACE`: the answers where the byte at this place has each value, those that are equal and side by side once, with their
//! number. And journals of events: `of N T` (N threads, one event of thread T), `too_many` (one event more than may be).
use asl_journal::{Event, Journal, JournalFault, get, put};
use asl_machine::Reply;
use asl_probe_text::{numbers, put_bad, put_line, put_word};
use std::alloc::{AllocError, Global};

pub fn answer(alloc: Global, calls: &str, out: &mut String) -> Result<(), AllocError> {
    let mut bytes = Vec::new(alloc);
    for line in calls.lines() {
        let (call, rest) = line.split_once(' ').unwrap_or((line, ""));
        match call {
            "bytes" => bytes = numbers(alloc, rest)?,
            "get" => {
                put_judged(judged(alloc, bytes.as_slice()), out)?;
                out.push('\n')?;
            }
            "cuts" => put_cuts(alloc, bytes.as_slice(), out)?,
            "at" => put_changes(alloc, &mut bytes, rest.parse::<usize>().unwrap_or(0), out)?,
            "of" => put_of(alloc, rest, out)?,
            "too_many" => put_too_many(alloc, out)?,
            _ => put_bad(line, out)?,
        }
    }
    Ok(())
}

/// Whether the bytes are those of a journal that has these bytes, or the refusal.
fn judged(alloc: Global, bytes: &[u8]) -> Result<bool, JournalFault> {
    let journal = get(alloc, bytes)?;
    match put(alloc, &journal) {
        Ok(again) => Ok(again.as_slice() == bytes),
        Err(_refused) => Err(JournalFault::OutOfMemory),
    }
}

fn put_judged(answer: Result<bool, JournalFault>, out: &mut String) -> Result<(), AllocError> {
    match answer {
        Ok(true) => put_word("same", out),
        Ok(false) => put_word("other", out),
        Err(fault) => {
            put_word("", out)?;
            write!(out, "{fault}")
        }
    }
}

fn put_cuts(alloc: Global, bytes: &[u8], out: &mut String) -> Result<(), AllocError> {
    for len in 0..bytes.len() {
        if let Some(front) = bytes.get(..len) {
            put_judged(judged(alloc, front), out)?;
        }
    }
    out.push('\n')
}

fn put_changes(
    alloc: Global,
    bytes: &mut Vec<u8>,
    place: usize,
    out: &mut String,
) -> Result<(), AllocError> {
    let old = bytes.get(place).copied().unwrap_or(0);
    let mut before = None;
    let mut count = 0u32;
    for value in 0..=255u8 {
        set(place, value, bytes);
        let answer = judged(alloc, bytes.as_slice());
        if let Some(last) = before {
            if last != answer {
                put_counted(last, count, out)?;
                count = 0;
            }
        }
        before = Some(answer);
        count = count.wrapping_add(1);
    }
    set(place, old, bytes);
    if let Some(last) = before {
        put_counted(last, count, out)?;
    }
    out.push('\n')
}

fn set(place: usize, value: u8, bytes: &mut Vec<u8>) {
    if let Some(byte) = bytes.get_mut(place) {
        *byte = value;
    }
}

fn put_counted(
    answer: Result<bool, JournalFault>,
    count: u32,
    out: &mut String,
) -> Result<(), AllocError> {
    put_judged(answer, out)?;
    write!(out, "*{count}")
}

const RAN: Event = Event {
    thread: 0,
    reply: Reply::Ran,
};

fn put_of(alloc: Global, text: &str, out: &mut String) -> Result<(), AllocError> {
    let (n, thread) = text.split_once(' ').unwrap_or((text, ""));
    let thread = thread.parse::<u8>().unwrap_or(0);
    let events = vec![in alloc; Event { thread, ..RAN }]?;
    put_made(Journal::of(n.parse::<u32>().unwrap_or(0), events), out)
}

fn put_made(
    made: Result<Journal, (JournalFault, Vec<Event>)>,
    out: &mut String,
) -> Result<(), AllocError> {
    match made {
        Ok(journal) => write!(
            out,
            "threads {} events {}\n",
            journal.threads(),
            journal.events().len()
        ),
        Err((fault, events)) => write!(out, "{fault} with {} back\n", events.len()),
    }
}

fn put_too_many(alloc: Global, out: &mut String) -> Result<(), AllocError> {
    let events = vec![in alloc; RAN; 16_777_217]?;
    match Journal::of(1, events) {
        Ok(_journal) => put_line("taken", out),
        Err((fault, events)) => {
            let is_same = events.iter().all(|event| *event == RAN);
            write!(
                out,
                "{fault} with {} back, as they were: {is_same}\n",
                events.len()
            )
        }
    }
}

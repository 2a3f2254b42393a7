//! A lock forest with a queue: `new CLASSES THREADS NODES` makes one in which nothing is held and nobody waits, with room for
//! requests of so many nodes, and tells its numbers. On it: `acquire T NODE MODE ..`, `release T`, which names those who go on,
//! `held T NODE`, `covers T O.P CLASS EFFECT`, `waits T`, `idle T`, of two nodes `below NODE NODE`, and of
//! two requests `together NODE MODE .. with NODE MODE ..`.
ghost use Rattle.std.specs.Prelude.{◌≤◌, ◌<◌, length};
ghost use Rattle.std.specs.Prelude.{◌≡◌};

use crate::forest::request;
use crate::request::is_taken;
use asl_lock_queue::{Queue, go_together, has_parents, is_below, is_rising};
use asl_probe_text::{cell, effect, mode_name, node, put_bad, put_bool};
use std::alloc::{AllocError, Global};

pub fn answer(alloc: Global, calls: &str, out: &mut String) -> Result<(), AllocError> {
    let mut queue = Queue::new(alloc, 1, 1)?;
    for line in calls.lines() {
        let (call, rest) = line.split_once(' ').unwrap_or((line, ""));
        match call {
            "new" => {
                queue = made(alloc, rest)?;
                let (classes, threads, room) = (queue.classes(), queue.threads(), queue.room());
                write!(out, "{classes} {threads} {room}\n")?;
            }
            "below" => put_below(rest, out)?,
            "together" => put_together(alloc, rest, out)?,
            _ => answer_call(alloc, &mut queue, call, rest, out)?,
        }
    }
    Ok(())
}

fn made(alloc: Global, text: &str) -> Result<Queue, AllocError> {
    let mut words = text.split_whitespace();
    let classes = words.next().and_then(|word| word.parse::<u16>().ok());
    let threads = words.next().and_then(|word| word.parse::<u8>().ok());
    let nodes = words.next().and_then(|word| word.parse::<u16>().ok());
    let mut queue = Queue::new(
        alloc,
        u32::from(classes.unwrap_or(1)),
        u32::from(threads.unwrap_or(1)),
    )?;
    queue.reserve(usize::from(nodes.unwrap_or(1)))?;
    Ok(queue)
}

fn put_below(text: &str, out: &mut String) -> Result<(), AllocError> {
    let (one, other) = text.split_once(' ').unwrap_or((text, ""));
    match (node(one), node(other)) {
        (Some(one), Some(other)) => put_bool(is_below(one, other), out),
        _ => put_bad(text, out),
    }
}

fn put_together(alloc: Global, text: &str, out: &mut String) -> Result<(), AllocError> {
    let (one, other) = text.split_once(" with ").unwrap_or((text, ""));
    let (Some(one), Some(other)) = (request(alloc, one)?, request(alloc, other)?) else {
        return put_bad(text, out);
    };
    if !is_rising(one.as_slice()) || !is_rising(other.as_slice()) {
        return out.push_str("does not rise\n");
    }
    put_bool(go_together(one.as_slice(), other.as_slice()), out)
}

fn answer_call(
    alloc: Global,
    queue: &mut Queue,
    call: &str,
    rest: &str,
    out: &mut String,
) -> Result<(), AllocError> {
    let (thread, rest) = rest.split_once(' ').unwrap_or((rest, ""));
    let thread = thread.parse::<u32>().unwrap_or(u32::MAX);
    if thread >= queue.threads() {
        return put_bad(call, out);
    }
    match call {
        "acquire" => acquire(alloc, queue, thread, rest, out),
        "release" => release(alloc, queue, thread, out),
        "held" => put_held(queue, thread, rest, out),
        "covers" => put_covers(queue, thread, rest, out),
        "waits" => put_bool(!queue.is_absent(thread), out),
        "idle" => put_bool(queue.holds_nothing(thread), out),
        _ => put_bad(call, out),
    }
}

fn acquire(
    alloc: Global,
    queue: &mut Queue,
    thread: u32,
    text: &str,
    out: &mut String,
) -> Result<(), AllocError>
    requires { thread < queue.old.threads }
{
    let Some(mut asks) = request(alloc, text)? else {
        return put_bad(text, out);
    };
    if !is_rising(asks.as_slice()) {
        return out.push_str("does not rise\n");
    }
    if !has_parents(asks.as_slice()) || !is_taken(asks.as_slice(), queue.classes()) {
        return out.push_str("not a request\n");
    }
    if !queue.holds_nothing(thread) || !queue.is_absent(thread) {
        return out.push_str("not idle\n");
    }
    asks.reserve(queue.room())?;
    if asks.capacity() < queue.room() {
        return out.push_str("no room\n");
    }
    put_bool(queue.acquire(thread, &mut asks), out)
}

fn release(
    alloc: Global,
    queue: &mut Queue,
    thread: u32,
    out: &mut String,
) -> Result<(), AllocError>
    requires { thread < queue.old.threads }
{
    let mut named = Vec::new(alloc);
    for _ in 0..queue.threads() {
        named.push(0u32)?;
    }
    if named.len() < queue.threads() as usize {
        return out.push_str("no room\n");
    }
    let count = queue.release(thread, named.as_mut_slice());
    for (place, other) in named.as_slice().iter().enumerate() {
        if place < count {
            write!(out, "{other} ")?;
        }
    }
    out.push_str("go on\n")
}

fn put_held(queue: &Queue, thread: u32, word: &str, out: &mut String) -> Result<(), AllocError>
    requires { thread < queue.now.threads }
{
    match node(word) {
        Some(node) => {
            out.push_str(mode_name(queue.mode(thread, node)))?;
            out.push('\n')
        }
        None => put_bad(word, out),
    }
}

fn put_covers(queue: &Queue, thread: u32, text: &str, out: &mut String) -> Result<(), AllocError>
    requires { thread < queue.now.threads }
{
    let mut words = text.split_whitespace();
    let cell = words.next().and_then(cell);
    let class = words.next().and_then(|word| word.parse::<u16>().ok());
    let effect = words.next().and_then(effect);
    match (cell, class, effect) {
        (Some(cell), Some(class), Some(effect)) => {
            put_bool(queue.covers(thread, cell, class, effect), out)
        }
        _ => put_bad(text, out),
    }
}

//! A forest of locks: `new CLASSES THREADS` makes one in which nothing is held; `copy` keeps a copy, and `swap` goes to it and
//! back. On the one used: `acquire T NODE MODE ..`, `grant T NODE MODE ..`, `release T`, `held T NODE`, `free T NODE MODE`,
//! `covers T O.P CLASS EFFECT`, and of two nodes `same NODE NODE`. A thread that acquires gives back first what it holds.
//! Where an allocation fails, everything told must be as before, and the same call is made again.
ghost use Rattle.std.specs.Prelude.{◌≡◌, ◌≤◌, ◌<◌, IsTrue};
ghost use Rattle.asl_code.specs.Versions.{newest_threads};
ghost use Rattle.asl_lock_forest.specs.Holding.{HoldsNothing};
ghost use Rattle.asl_lock_forest.specs.Request.{names_once, asks_modes, asks_parents, IsOfClasses};

use crate::request::{is_taken, is_there};
use asl_lock_forest::{Forest, Node};
use asl_mode_lanes::Mode;
use asl_probe_text::{cell, effect, mode, mode_name, node, put_bad, put_bool};
use std::alloc::{AllocError, Global};

/// A forest, with the numbers that it is made with.
#[derive(Drop)]
struct Grove {
    classes: u32,
    threads: u32,
    forest: Forest,
    ghost same_classes: { forest.classes ≡ classes },
    ghost same_threads: { forest.threads ≡ threads },
}

pub fn answer(alloc: Global, calls: &str, out: &mut String) -> Result<(), AllocError> {
    let mut used = make_grove(alloc, 1, 1)?;
    let mut kept = make_grove(alloc, 1, 1)?;
    for line in calls.lines() {
        let (call, rest) = line.split_once(' ').unwrap_or((line, ""));
        match call {
            "same" => put_same(rest, out)?,
            "new" => used = made(alloc, rest)?,
            "copy" => kept = copied(alloc, &used)?,
            "swap" => std::mem::swap(&mut used, &mut kept),
            _ => answer_call(alloc, &mut used, call, rest, out)?,
        }
    }
    Ok(())
}

fn put_same(text: &str, out: &mut String) -> Result<(), AllocError> {
    let (one, other) = text.split_once(' ').unwrap_or((text, ""));
    match (node(one), node(other)) {
        (Some(one), Some(other)) => put_bool(one.is_same(other), out),
        _ => put_bad(text, out),
    }
}

fn made(alloc: Global, text: &str) -> Result<Grove, AllocError> {
    let (classes, threads) = text.split_once(' ').unwrap_or((text, ""));
    let classes = classes.parse::<u16>().unwrap_or(1);
    let threads = threads.parse::<u32>().unwrap_or(1).clamp(1, 128);
    make_grove(alloc, u32::from(classes), threads)
}

fn make_grove(alloc: Global, classes: u32, threads: u32) -> Result<Grove, AllocError>
    requires some { 1 ≤ threads }
    requires few { threads ≤ newest_threads }
{
    let forest = match Forest::new(alloc, classes, threads) {
        Err(_refused) => Forest::new(alloc, classes, threads)?,
        Ok(forest) => forest,
    };
    Ok(Grove {
        classes,
        threads,
        forest,
    })
}

fn copied(alloc: Global, grove: &Grove) -> Result<Grove, AllocError> {
    let forest = match grove.forest.try_copy(alloc) {
        Err(_refused) => grove.forest.try_copy(alloc)?,
        Ok(forest) => forest,
    };
    Ok(Grove {
        classes: grove.classes,
        threads: grove.threads,
        forest,
    })
}

fn answer_call(
    alloc: Global,
    grove: &mut Grove,
    call: &str,
    rest: &str,
    out: &mut String,
) -> Result<(), AllocError> {
    let (thread, rest) = rest.split_once(' ').unwrap_or((rest, ""));
    let thread = thread.parse::<u32>().unwrap_or(128);
    if thread >= grove.threads {
        return put_bad(call, out);
    }
    match call {
        "acquire" => acquire(alloc, grove, thread, rest, false, out),
        "grant" => acquire(alloc, grove, thread, rest, true, out),
        "release" => {
            grove.forest.release(thread);
            Ok(())
        }
        "held" => put_held(grove, thread, rest, out),
        "free" => put_free(grove, thread, rest, out),
        "covers" => put_covers(grove, thread, rest, out),
        _ => put_bad(call, out),
    }
}

/// The locks that a text asks, as `root IX class1 X`.
pub fn request(alloc: Global, text: &str) -> Result<Option<Vec<(Node, Mode)>>, AllocError> {
    let mut asks = Vec::new(alloc);
    let mut words = text.split_whitespace();
    for _ in 0..128u8 {
        let Some(word) = words.next() else {
            return Ok(Some(asks));
        };
        let (Some(node), Some(mode)) = (node(word), words.next().and_then(mode)) else {
            return Ok(None);
        };
        asks.push((node, mode))?;
    }
    Ok(None)
}

fn acquire(
    alloc: Global,
    grove: &mut Grove,
    thread: u32,
    text: &str,
    tried: bool,
    out: &mut String,
) -> Result<(), AllocError>
    requires { thread < grove.old.threads }
{
    let Some(asks) = request(alloc, text)? else {
        return put_bad(text, out);
    };
    let asks = asks.as_slice();
    if !is_taken(asks, grove.classes) {
        return out.push_str("not a request\n");
    }
    grove.forest.release(thread);
    if tried {
        let mut copy = grove.forest.try_copy(alloc)?;
        if copy.try_acquire(thread, asks)? {
            grove.forest.grant(thread, asks)?;
        }
        return Ok(());
    }
    match grove.forest.try_acquire(thread, asks) {
        Ok(granted) => put_bool(granted, out),
        Err(_refused) => acquire_again(grove, thread, asks, out),
    }
}

/// Makes a refused call again, if the thread still holds nothing of what it has asked.
fn acquire_again(
    grove: &mut Grove,
    thread: u32,
    asks: &[(Node, Mode)],
    out: &mut String,
) -> Result<(), AllocError>
    requires there { thread < grove.old.threads }
    requires once { IsTrue (names_once asks.now) }
    requires modes { IsTrue (asks_modes asks.now) }
    requires parents { IsTrue (asks_parents asks.now) }
    requires classes { IsOfClasses grove.old.classes asks.now }
    requires nothing { HoldsNothing grove.old.forest.holding thread }
{
    for ask in asks {
        if is_there(ask.0, grove.classes) && grove.forest.mode(thread, ask.0) != Mode::NL {
            return out.push_str("changed!\n");
        }
    }
    put_bool(grove.forest.try_acquire(thread, asks)?, out)
}

fn put_held(grove: &Grove, thread: u32, word: &str, out: &mut String) -> Result<(), AllocError>
    requires { thread < grove.now.threads }
{
    match node(word) {
        Some(node) if is_there(node, grove.classes) => {
            out.push_str(mode_name(grove.forest.mode(thread, node)))?;
            out.push('\n')
        }
        _ => put_bad(word, out),
    }
}

fn put_free(grove: &Grove, thread: u32, text: &str, out: &mut String) -> Result<(), AllocError> {
    let (word, want) = text.split_once(' ').unwrap_or((text, ""));
    match (node(word), mode(want)) {
        (Some(node), Some(want)) if is_there(node, grove.classes) => {
            put_bool(grove.forest.is_free(thread, node, want), out)
        }
        _ => put_bad(text, out),
    }
}

fn put_covers(grove: &Grove, thread: u32, text: &str, out: &mut String) -> Result<(), AllocError>
    requires { thread < grove.now.threads }
{
    let mut words = text.split_whitespace();
    let cell = words.next().and_then(cell);
    let class = words.next().and_then(|word| word.parse::<u16>().ok());
    let effect = words.next().and_then(effect);
    match (cell, class, effect) {
        (Some(cell), Some(class), Some(effect)) if u32::from(class) < grove.classes => {
            put_bool(grove.forest.covers(thread, cell, class, effect), out)
        }
        _ => put_bad(text, out),
    }
}

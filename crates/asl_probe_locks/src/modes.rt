//! Modes, and rows of what threads hold at one node: `code M`, `of_code N`, `join M`, `compatible M`, `conflicts OWN WANT MODES..`,
//! `join_rows MODES.. with MODES..`.
ghost use Rattle.asl_mode_lanes.specs.Row.{IsRow};
ghost use Rattle.std.specs.Prelude.{IfOk, IfSome};

use asl_mode_lanes::{Mode, compatible, conflicts, join, join_rows};
use asl_probe_text::{mode, mode_name, put_bad, put_line, put_number, put_word};
use std::alloc::{AllocError, Global};

const MODES: [Mode; 6] = [Mode::NL, Mode::IS, Mode::IX, Mode::S, Mode::SIX, Mode::X];

pub fn answer(alloc: Global, calls: &str, out: &mut String) -> Result<(), AllocError> {
    for line in calls.lines() {
        let (call, rest) = line.split_once(' ').unwrap_or((line, ""));
        match call {
            "code" => put_code(rest, out)?,
            "of_code" => put_of_code(rest, out)?,
            "join" => put_joins(rest, out)?,
            "compatible" => put_compatible(rest, out)?,
            "conflicts" => put_conflicts(alloc, rest, out)?,
            "join_rows" => put_joined(alloc, rest, out)?,
            _ => put_bad(line, out)?,
        }
    }
    Ok(())
}

fn put_code(word: &str, out: &mut String) -> Result<(), AllocError> {
    match mode(word) {
        Some(mode) => write!(out, "{}\n", mode.code()),
        None => put_bad(word, out),
    }
}

fn put_of_code(word: &str, out: &mut String) -> Result<(), AllocError> {
    let Ok(code) = word.parse::<u8>() else {
        return put_bad(word, out);
    };
    match Mode::of_code(code) {
        Some(mode) => put_line(mode_name(mode), out),
        None => put_line("none", out),
    }
}

/// The joins with each mode, in the order of the table.
fn put_joins(word: &str, out: &mut String) -> Result<(), AllocError> {
    let Some(mode) = mode(word) else {
        return put_bad(word, out);
    };
    for other in MODES {
        put_word(mode_name(join(mode, other)), out)?;
    }
    out.push('\n')
}

/// The modes that go with this one.
fn put_compatible(word: &str, out: &mut String) -> Result<(), AllocError> {
    let Some(mode) = mode(word) else {
        return put_bad(word, out);
    };
    for other in MODES {
        if compatible(mode, other) {
            put_word(mode_name(other), out)?;
        }
    }
    out.push('\n')
}

/// The codes of the modes that a text names. `NL*17` is 17 times NL.
fn row(alloc: Global, text: &str) -> Result<Option<Vec<u8>>, AllocError>
    ensures { IfOk result (λ found. IfSome found (λ row. IsRow row.items)) }
{
    let mut row = Vec::new(alloc);
    for word in text.split_whitespace() {
        let (name, count) = word.split_once('*').unwrap_or((word, "1"));
        let Some(mode) = mode(name) else {
            return Ok(None);
        };
        let Ok(count) = count.parse::<u8>() else {
            return Ok(None);
        };
        push_mode(mode, count, &mut row)?;
    }
    Ok(Some(row))
}

fn push_mode(mode: Mode, count: u8, row: &mut Vec<u8>) -> Result<(), AllocError>
    requires { IsRow row.old.items }
    ensures { IsRow row.new.items }
{
    let code = mode.code();
    for _ in 0..count {
        row.push(code)?;
    }
    Ok(())
}

fn put_conflicts(alloc: Global, text: &str, out: &mut String) -> Result<(), AllocError> {
    let mut words = text.splitn(3, ' ');
    let own = words.next().and_then(|word| word.parse::<usize>().ok());
    let want = words.next().and_then(mode);
    let row = row(alloc, words.next().unwrap_or(""))?;
    match (own, want, row) {
        (Some(own), Some(want), Some(row)) if row.len() <= 128 => {
            put_threads(conflicts(row.as_slice(), own, want), out)
        }
        _ => put_bad(text, out),
    }
}

/// The threads of a mask.
fn put_threads(mask: u128, out: &mut String) -> Result<(), AllocError> {
    for thread in 0..128usize {
        if mask >> thread & 1 == 1 {
            put_number(thread, out)?;
        }
    }
    out.push('\n')
}

fn put_joined(alloc: Global, text: &str, out: &mut String) -> Result<(), AllocError> {
    let Some((into, from)) = text.split_once(" with ") else {
        return put_bad(text, out);
    };
    let Some(mut into) = row(alloc, into)? else {
        return put_bad(text, out);
    };
    let Some(from) = row(alloc, from)? else {
        return put_bad(text, out);
    };
    if into.len() != from.len() {
        return put_bad(text, out);
    }
    join_rows(&mut into, &from);
    put_row(into.as_slice(), out)
}

fn put_row(row: &[u8], out: &mut String) -> Result<(), AllocError> {
    for code in row {
        match Mode::of_code(*code) {
            Some(mode) => put_word(mode_name(mode), out)?,
            None => put_word("?", out)?,
        }
    }
    out.push('\n')
}

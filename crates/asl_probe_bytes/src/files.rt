//! Images as bytes: `bytes B ..` gives them, and `set PLACE B` changes one or puts one after the last. On what is given: `load` (what is
//! loaded is stored again, and must be the same), `cut N`, `cuts` (at each place), `changes`: of each byte changed to each other
//! value, how often what is answered.
use asl_loader::{LoadFault, load, store};
use asl_probe_text::{numbers, put_bad, put_line, put_word};
use std::alloc::{AllocError, Global};

pub fn answer(alloc: Global, calls: &str, out: &mut String) -> Result<(), AllocError> {
    let mut bytes = Vec::new(alloc);
    for line in calls.lines() {
        let (call, rest) = line.split_once(' ').unwrap_or((line, ""));
        match call {
            "bytes" => bytes = numbers(alloc, rest)?,
            "set" => set(rest, &mut bytes)?,
            "load" => {
                put_loaded(alloc, bytes.as_slice(), out)?;
                out.push('\n')?;
            }
            "cut" => put_cut(alloc, bytes.as_slice(), rest, out)?,
            "cuts" => put_cuts(alloc, bytes.as_slice(), out)?,
            "changes" => put_changes(alloc, &mut bytes, out)?,
            _ => put_bad(line, out)?,
        }
    }
    Ok(())
}

fn set(text: &str, bytes: &mut Vec<u8>) -> Result<(), AllocError> {
    let (place, byte) = text.split_once(' ').unwrap_or((text, ""));
    let place = place.parse::<usize>().unwrap_or(0);
    let byte = byte.parse::<u8>().unwrap_or(0);
    match bytes.get_mut(place) {
        Some(old) => {
            *old = byte;
            Ok(())
        }
        None => Ok(bytes.push(byte)?),
    }
}

/// Whether the bytes are stored again as they are, or the refusal.
fn judged(alloc: Global, bytes: &[u8]) -> Result<bool, LoadFault> {
    let program = match load(alloc, bytes) {
        Err(LoadFault::OutOfMemory) => load(alloc, bytes)?,
        answer => answer?,
    };
    let again = match store(alloc, &program) {
        Err(_refused) => store(alloc, &program),
        again => again,
    };
    match again {
        Ok(again) => Ok(again.as_slice() == bytes),
        Err(_refused) => Err(LoadFault::OutOfMemory),
    }
}

fn put_loaded(alloc: Global, bytes: &[u8], out: &mut String) -> Result<(), AllocError> {
    match judged(alloc, bytes) {
        Ok(true) => put_word("same", out),
        Ok(false) => put_word("other", out),
        Err(fault) => {
            put_word("", out)?;
            write!(out, "{fault}")
        }
    }
}

fn put_cut(alloc: Global, bytes: &[u8], word: &str, out: &mut String) -> Result<(), AllocError> {
    match bytes.get(..word.parse::<usize>().unwrap_or(0)) {
        Some(front) => {
            put_loaded(alloc, front, out)?;
            out.push('\n')
        }
        None => put_line("too short", out),
    }
}

fn put_cuts(alloc: Global, bytes: &[u8], out: &mut String) -> Result<(), AllocError> {
    for len in 0..bytes.len() {
        if let Some(front) = bytes.get(..len) {
            put_loaded(alloc, front, out)?;
        }
    }
    out.push('\n')
}

/// How often each answer comes.
#[derive(Clone, Copy)]
struct Counts {
    same: u32,
    other: u32,
    magic: u32,
    version: u32,
    truncated: u32,
    bad_field: u32,
    trailing: u32,
    verify: u32,
    refused: u32,
}

fn put_changes(alloc: Global, bytes: &mut Vec<u8>, out: &mut String) -> Result<(), AllocError> {
    let mut counts = Counts {
        same: 0,
        other: 0,
        magic: 0,
        version: 0,
        truncated: 0,
        bad_field: 0,
        trailing: 0,
        verify: 0,
        refused: 0,
    };
    for place in 0..bytes.len() {
        let old = bytes.get(place).copied().unwrap_or(0);
        for byte in 0..=255u8 {
            put_at(place, byte, bytes);
            count(judged(alloc, bytes.as_slice()), &mut counts);
        }
        put_at(place, old, bytes);
    }
    put_counts(counts, out)
}

fn put_at(place: usize, byte: u8, bytes: &mut Vec<u8>) {
    if let Some(old) = bytes.get_mut(place) {
        *old = byte;
    }
}

fn count(answer: Result<bool, LoadFault>, counts: &mut Counts) {
    let number = match answer {
        Ok(true) => &mut counts.same,
        Ok(false) => &mut counts.other,
        Err(LoadFault::Magic) => &mut counts.magic,
        Err(LoadFault::Version) => &mut counts.version,
        Err(LoadFault::Truncated(_)) => &mut counts.truncated,
        Err(LoadFault::BadField(_)) => &mut counts.bad_field,
        Err(LoadFault::Trailing(_)) => &mut counts.trailing,
        Err(LoadFault::Verify(_)) => &mut counts.verify,
        Err(LoadFault::OutOfMemory) => &mut counts.refused,
    };
    *number = number.wrapping_add(1);
}

fn put_counts(counts: Counts, out: &mut String) -> Result<(), AllocError> {
    write!(out, "same {} other {}", counts.same, counts.other)?;
    write!(out, " Magic {} Version {}", counts.magic, counts.version)?;
    write!(
        out,
        " Truncated {} BadField {}",
        counts.truncated, counts.bad_field
    )?;
    write!(
        out,
        " Trailing {} Verify {}",
        counts.trailing, counts.verify
    )?;
    write!(out, " OutOfMemory {}\n", counts.refused)
}

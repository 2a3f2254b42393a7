//! Cells, values, effects and instructions by their words.

use asl_code::{Cell, Effect, Instr, Value, get_instr};
use std::alloc::AllocError;

/// A cell, as `5.0`.
pub fn cell(word: &str) -> Option<Cell> {
    let (object, offset) = word.split_once('.')?;
    Some(Cell {
        object: object.parse::<u16>().ok()?,
        offset: offset.parse::<u8>().ok()?,
    })
}

/// What a lock is for, by its name.
pub fn effect(word: &str) -> Option<Effect> {
    match word {
        "read" => Some(Effect::Read),
        "write" => Some(Effect::Write),
        _ => None,
    }
}

/// The name of what a lock is for.
pub fn effect_name(effect: Effect) -> &'static str {
    match effect {
        Effect::Read => "read",
        Effect::Write => "write",
    }
}

/// A value: `7`, `null`, or `@1.0` for an address.
pub fn value(word: &str) -> Option<Value> {
    if word == "null" {
        return Some(Value::Null);
    }
    match word.strip_prefix('@') {
        Some(word) => {
            let cell = cell(word)?;
            Some(Value::Addr(cell.object, cell.offset))
        }
        None => Some(Value::Int(word.parse::<i32>().ok()?)),
    }
}

/// The instruction of the eight bytes that a text begins with, and the rest of the text.
pub fn instr(text: &str) -> Option<(Instr, &str)> {
    let mut bytes = [0u8; 8];
    let mut rest = text;
    for byte in &mut bytes {
        let (word, others) = rest.split_once(' ').unwrap_or((rest, ""));
        *byte = word.parse::<u8>().ok()?;
        rest = others;
    }
    Some((get_instr(&bytes).ok()?, rest))
}

/// A value: `7`, `null`, or `@1.0` for an address.
pub fn put_value(value: Value, out: &mut String) -> Result<(), AllocError> {
    match value {
        Value::Int(number) => write!(out, "{number}"),
        Value::Null => out.push_str("null"),
        Value::Addr(object, offset) => write!(out, "@{object}.{offset}"),
    }
}

//! Texts of several lines, and of numbers, on one line.

use std::alloc::{AllocError, Global};

/// The numbers of a text, up to the first word that is none.
pub fn numbers(alloc: Global, text: &str) -> Result<Vec<u8>, AllocError> {
    let mut numbers = Vec::new(alloc);
    for word in text.split_whitespace() {
        match word.parse::<u8>() {
            Ok(number) => numbers.push(number)?,
            Err(_) => return Ok(numbers),
        }
    }
    Ok(numbers)
}

/// A text on one line, in which `\\n`, `\\r` and `\\t` stand for a line feed, a carriage return and a tab,
/// and `\\v` for a vertical one.
pub fn unescaped(alloc: Global, line: &str) -> Result<String, AllocError> {
    let mut text = String::new(alloc);
    let mut parts = line.split('\\');
    text.push_str(parts.next().unwrap_or(""))?;
    for part in parts {
        match part.split_at_checked(1) {
            Some(("n", rest)) => push_both(&mut text, "\n", rest)?,
            Some(("r", rest)) => push_both(&mut text, "\r", rest)?,
            Some(("t", rest)) => push_both(&mut text, "\t", rest)?,
            Some(("v", rest)) => push_both(&mut text, "\u{b}", rest)?,
            _ => push_both(&mut text, "\\", part)?,
        }
    }
    Ok(text)
}

fn push_both(text: &mut String, one: &str, other: &str) -> Result<(), AllocError> {
    text.push_str(one)?;
    text.push_str(other)
}

/// The text on one line, in which line feeds are written as `\\n`.
pub fn put_escaped(text: &str, out: &mut String) -> Result<(), AllocError> {
    for line in text.split_inclusive('\n') {
        match line.strip_suffix('\n') {
            Some(line) => push_both(out, line, "\\n")?,
            None => out.push_str(line)?,
        }
    }
    out.push('\n')
}

//! Lines of answers, and words in them.

use std::alloc::AllocError;

/// Writes a line for a call that is none.
pub fn put_bad(line: &str, out: &mut String) -> Result<(), AllocError> {
    out.push_str("no such call: ")?;
    put_line(line, out)
}

/// Writes a line.
pub fn put_line(line: &str, out: &mut String) -> Result<(), AllocError> {
    out.push_str(line)?;
    out.push('\n')
}

/// Writes a word after the others of its line.
pub fn put_word(word: &str, out: &mut String) -> Result<(), AllocError> {
    if !out.ends_with('\n') {
        out.push(' ')?;
    }
    out.push_str(word)
}

/// Writes a number after the others of its line.
pub fn put_number(number: usize, out: &mut String) -> Result<(), AllocError> {
    put_word("", out)?;
    write!(out, "{number}")
}

/// Writes `yes` or `no` as a line.
pub fn put_bool(yes: bool, out: &mut String) -> Result<(), AllocError> {
    out.push_str(if yes { "yes\n" } else { "no\n" })
}

/// Writes whether two things are the same as a line, or that there is nothing to compare.
pub fn put_same(is_same: Option<bool>, out: &mut String) -> Result<(), AllocError> {
    match is_same {
        Some(true) => put_line("same", out),
        Some(false) => put_line("other", out),
        None => put_line("refused", out),
    }
}

//! The line of a place as it is shown with a refusal, and a caret below the place.

ghost use Rattle.std.specs.Prelude.{◌≡◌, ◌≤◌, ◌++◌, ℕ, List, length, OnOk, string_bytes};
ghost use Rattle.asl_diagnose_text.specs.Shown.{AreBefore, AreLines, bytes_on, ends_line, is_at_feed, line_len};

use crate::bytes::{push_blanks, push_bytes};
use crate::place::line_start;
use std::alloc::AllocError;

/// The most bytes that are shown of a line, and the most of them before the place.
const SHOWN: usize = 120;

const SHOWN_BEFORE: usize = 80;

/// What is shown of the line of a place before the place.
fn shown_before(text: &[u8], at: usize) -> &[u8]
    requires { at ≤ length text.now }
    ensures { AreBefore text.now at result.now }
{
    let start = line_start(text, at).max(at.saturating_sub(SHOWN_BEFORE));
    let (before, _) = text.split_at(at);
    let (_, shown) = before.split_at(start);
    shown
}

/// Whether a line feed stands in front, or nothing.
fn is_at_feed(text: &[u8]) -> bool
    ensures { result ≡ is_at_feed text.now }
{
    match text {
        [] => true,
        [byte, ..] => *byte == b'\n',
    }
}

/// Whether a line ends in front: with a line feed, with a carriage return right before one, or with the text.
fn ends_line(text: &[u8]) -> bool
    ensures { result ≡ ends_line text.now }
{
    match text {
        [] => true,
        [byte, rest @ ..] => *byte == b'\n' || *byte == b'\r' && is_at_feed(rest),
    }
}

/// How many bytes stand before the end of the first line.
fn rest_len(text: &[u8]) -> usize
    ensures bound { result ≤ length text.now }
    ensures len { result ≡ line_len text.now }
{
    for at in 0..text.len() {
        let (_, rest) = text.split_at(at);
        if ends_line(rest) {
            return at;
        }
    }
    text.len()
}

/// What is shown of the line of a place from the place on.
fn shown_on(text: &[u8], at: usize, room: usize) -> &[u8]
    requires { at ≤ length text.now }
    ensures { result.now ≡ bytes_on text.now at room }
{
    let (_, rest) = text.split_at(at);
    let (shown, _) = rest.split_at(rest_len(rest).min(room));
    shown
}

/// Adds the line of a place, as far as it is shown, and a caret below the place.
pub fn push_line(message: &mut String, text: &[u8], at: usize) -> Result<(), AllocError>
    requires { at ≤ length text.now }
    ensures { OnOk result ((lines : List ℕ) × AreLines text.now at lines × (string_bytes message.new ≡ string_bytes message.old ++ lines)) }
{
    let before = shown_before(text, at);
    let after = shown_on(text, at, SHOWN.saturating_sub(before.len()));
    push_bytes(message, before)?;
    push_bytes(message, after)?;
    message.push_str("\n")?;
    push_blanks(message, before)?;
    message.push_str("^\n")?;
    Ok(())
}

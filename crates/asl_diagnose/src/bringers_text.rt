//! The line that names statements which bring most of the locks of a region.

ghost use Rattle.std.specs.Prelude.{◌≡◌, ◌++◌, OnOk, drop, take, string_bytes};
ghost use Rattle.asl_diagnose.specs.Bringing.{bringers_text, left_text, line_at, more_text, one_text};

use crate::most::Bringers;
use asl_diagnose_text::{line, push_quoted};
use std::alloc::AllocError;

/// The bytes of a text before a place.
fn front(text: &[u8], at: usize) -> &[u8]
    ensures { result.now ≡ take at text.now }
{
    &text[..at.min(text.len())]
}

/// The bytes of a text from a place on.
fn behind(text: &[u8], at: usize) -> &[u8]
    ensures { result.now ≡ drop at text.now }
{
    &text[at.min(text.len())..]
}

/// Adds one statement, without its semicolon.
fn push_one(message: &mut String, text: &[u8], found: &Bringers) -> Result<(), AllocError>
    ensures { OnOk result (string_bytes message.new ≡ string_bytes message.old ++ one_text text.now found.now) }
{
    let first = line(text, found.from);
    write!(message, "line {first} ")?;
    push_quoted(
        message,
        behind(front(text, found.to.saturating_sub(1)), found.from),
    )?;
    message.push_str(" brings most of them: without it ")
}

/// Adds the line of a place.
fn push_line_at(message: &mut String, text: &[u8], at: usize) -> Result<(), AllocError>
    ensures { OnOk result (string_bytes message.new ≡ string_bytes message.old ++ line_at text.now at) }
{
    let line = line(text, at);
    write!(message, "{line}")
}

/// Adds the lines of more statements.
fn push_more(message: &mut String, text: &[u8], found: &Bringers) -> Result<(), AllocError>
    ensures { OnOk result (string_bytes message.new ≡ string_bytes message.old ++ more_text text.now found.now) }
{
    message.push_str("lines ")?;
    push_line_at(message, text, found.from)?;
    message.push_str(" to ")?;
    push_line_at(message, text, found.to)?;
    message.push_str(" bring most of them: without them ")
}

/// Adds how many locks are needed without them.
fn push_left(message: &mut String, left: usize) -> Result<(), AllocError>
    ensures { OnOk result (string_bytes message.new ≡ string_bytes message.old ++ left_text left) }
{
    let word = if left == 1 { "lock is" } else { "locks are" };
    write!(message, "{left} {word} needed\n")
}

/// Adds which statements bring most of the locks of a region, if some do.
pub fn push_bringers(
    message: &mut String,
    text: &[u8],
    found: &Option<Bringers>,
) -> Result<(), AllocError>
    ensures { OnOk result (string_bytes message.new ≡ string_bytes message.old ++ bringers_text text.now found.now) }
{
    let Some(found) = found else {
        return Ok(());
    };
    if found.count == 1 {
        push_one(message, text, found)?;
    } else {
        push_more(message, text, found)?;
    }
    push_left(message, found.left)
}

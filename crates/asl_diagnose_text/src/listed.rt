//! With which kinds of token a program continues, as a line.

ghost use Rattle.std.specs.Prelude.{◌≡◌, ◌++◌, OnOk, string_bytes};
ghost use Rattle.asl_diagnose_text.specs.Listed.{expected_text, kind_text, kinds_text, list_end, list_head};

use crate::kind::{TokenKind, kind_text};
use std::alloc::AllocError;

/// How the line begins, by the kinds after the first.
fn list_head(others: &[TokenKind]) -> &'static str
    ensures { result.now ≡ list_head others.now }
{
    match others {
        [] => "expected",
        [_, ..] => "expected one of:",
    }
}

/// Adds a kind.
fn push_kind(message: &mut String, kind: TokenKind) -> Result<(), AllocError>
    ensures { OnOk result (string_bytes message.new ≡ string_bytes message.old ++ kind_text kind) }
{
    let word = kind_text(kind);
    write!(message, " {word}")
}

/// Adds the kinds.
fn push_kinds(message: &mut String, kinds: &[TokenKind]) -> Result<(), AllocError>
    ensures { OnOk result (string_bytes message.new ≡ string_bytes message.old ++ kinds_text kinds.now) }
{
    for kind in kinds {
        push_kind(message, *kind)?;
    }
    Ok(())
}

/// How the line ends.
fn list_end(may_end: bool) -> &'static str
    ensures { result.now ≡ list_end may_end }
{
    if may_end { ", or the end\n" } else { "\n" }
}

/// Adds the kinds of token with which a program continues, and whether it may end there; nothing where there are none.
pub fn push_expected(
    message: &mut String,
    kinds: &[TokenKind],
    may_end: bool,
) -> Result<(), AllocError>
    ensures { OnOk result (string_bytes message.new ≡ string_bytes message.old ++ expected_text kinds.now may_end) }
{
    match kinds {
        [] => Ok(()),
        [_, others @ ..] => {
            message.push_str(list_head(others))?;
            push_kinds(message, kinds)?;
            message.push_str(list_end(may_end))
        }
    }
}

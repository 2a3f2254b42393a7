//! What helps against a refusal of a source, a line each: what `diagnose_source` of asl_diagnose puts below the shown line. No clause says
//! which hint comes; tests/diagnosed compares the whole messages.

use crate::bytes::{push_bytes, push_quoted};
use crate::expected::stop;
use crate::function_head::head_of;
use crate::grammar_hints::{Stop, grammar_hint};
use crate::limit_hints::limit_hint;
use crate::main_hints::push_main_hints;
use crate::name_role::{Role, role_at};
use crate::near::nearest_name;
use crate::place::{column, line};
use crate::sentence::next_token;
use crate::used::{is_global, is_local_at};
use crate::word_place::name_from;
use asl_grammar::control_step::settled;
use asl_syntax::SyntaxFault;
use std::alloc::{AllocError, Global};

/// Adds a line, unless it is empty.
pub fn push_hint(message: &mut String, hint: &str) -> Result<(), AllocError> {
    if hint.is_empty() {
        return Ok(());
    }
    message.push_str(hint)?;
    message.push_str("\n")
}

/// Adds the line and the column of a place.
pub fn push_place(message: &mut String, text: &[u8], at: usize) -> Result<(), AllocError> {
    let line = line(text, at);
    let column = column(text, at);
    write!(message, "{line}:{column}")
}

/// The places that are told of a text that is no program.
#[derive(Clone, Copy)]
pub struct ToldPlaces {
    /// The place, in bytes from 0.
    pub at: usize,
    /// The place of the first of two declarations.
    pub first: Option<usize>,
}

/// Adds what helps where a text is no program.
pub fn push_syntax_hints(
    alloc: Global,
    message: &mut String,
    text: &[u8],
    fault: &SyntaxFault,
    told: ToldPlaces,
) -> Result<(), AllocError> {
    match fault {
        SyntaxFault::NotAscii(_) => push_hint(
            message,
            "names, numbers and symbols are ASCII alone",
        ),
        SyntaxFault::Token(at) => push_hint(message, token_hint(text, *at)),
        SyntaxFault::Grammar(at) => push_grammar_hint(alloc, message, text, *at),
        SyntaxFault::Twice(name) => push_twice_hints(message, text, told, name.as_slice()),
        SyntaxFault::Unknown(name) => {
            push_unknown_hints(alloc, message, text, told.at, name.as_slice())
        }
        SyntaxFault::Arity(at) => push_head(message, text, name_from(text, *at)),
        SyntaxFault::NoMain => push_main_hints(message, text),
        SyntaxFault::Limit(at) => push_hint(message, limit_hint(text, *at)),
        SyntaxFault::OutOfMemory => Ok(()),
    }
}

/// What to write in place of what begins no token.
fn token_hint(text: &[u8], at: usize) -> &'static str {
    let rest = if at < text.len() {
        &text[at..]
    } else {
        &text[..0]
    };
    if let Some((last, before)) = text[..at.min(text.len())].split_last() {
        if *last == b'-' && rest.starts_with(b">") {
            return arrow_hint(before);
        }
    }
    match rest {
        [b'/', b'/' | b'*', ..] | [b'#', ..] => "there are no comments",
        [b'"' | b'\'', ..] =>
            "there are no strings and no characters: a value is a number, `null` or an address",
        [b'>', ..] => "there is no `>`: `a > b` is `b < a`",
        [b'!', ..] => "there is no `!`: compute `c = x == y;`, and use `else`",
        [b'|', ..] => "there is no `||`: use one `if` after the other",
        [b'/' | b'%' | b'^' | b'~', ..] =>
            "there is no such operator: there are `+`, `-`, `<` and `==`",
        [b'.', ..] => "a cell is read by its address: `a = &x[1]; y = *a;`",
        [b':', ..] => "there are no types and no labels",
        [b'?', ..] => "there is no `?`: use `if x { .. } else { .. }`",
        _ => "",
    }
}

/// What to write in place of an arrow, by what stands before it.
fn arrow_hint(before: &[u8]) -> &'static str {
    if before.trim_ascii_end().ends_with(b")") {
        "a function has no result type: what it returns is said by `return x;`"
    } else {
        "a field is reached by its address: `a = &p[1]; x = *a;`"
    }
}

/// Adds what to write instead.
fn push_grammar_hint(
    alloc: Global,
    message: &mut String,
    text: &[u8],
    at: usize,
) -> Result<(), AllocError> {
    let walk = stop(alloc, text)?;
    let stop = match next_token(text, at) {
        Some(spot) => Stop {
            control: settled(walk.control, spot.token),
            kind: walk.innermost(),
            token: Some(spot.token),
        },
        None => Stop {
            control: walk.control,
            kind: walk.innermost(),
            token: None,
        },
    };
    push_hint(message, grammar_hint(stop))
}

/// Adds where a name is declared first.
fn push_twice_hints(
    message: &mut String,
    text: &[u8],
    told: ToldPlaces,
    name: &[u8],
) -> Result<(), AllocError> {
    let Some(first) = told.first else {
        return Ok(());
    };
    push_quoted(message, name)?;
    message.push_str(" is declared first at ")?;
    push_place(message, text, first)?;
    message.push_str("\n")
}

/// Adds which name may be meant, and what the name is in another name space.
fn push_unknown_hints(
    alloc: Global,
    message: &mut String,
    text: &[u8],
    at: usize,
    name: &[u8],
) -> Result<(), AllocError> {
    let role = role_at(text, at);
    if let Some(near) = nearest_name(alloc, text, at, name, role)? {
        push_quoted(message, near)?;
        return message.push_str(" is spelled nearly so\n");
    }
    push_hint(message, other_hint(text, at, name, role))
}

/// What helps where the name is not in the name space that is asked.
fn other_hint(text: &[u8], at: usize, name: &[u8], role: Role) -> &'static str {
    match role {
        Role::GlobalUse => {
            if is_local_at(text, at, name) {
                "only globals have addresses: a local has none"
            } else {
                "a global is declared by `global g;`"
            }
        }
        Role::Call => call_hint(name),
        _ => local_hint(text, name),
    }
}

/// What helps where a function is not there.
fn call_hint(name: &[u8]) -> &'static str {
    match name {
        b"print" | b"printf" | b"println" => "a value is shown by `out x;`",
        b"malloc" | b"alloc" | b"calloc" => "an object is made by `x = new 2;`",
        b"lock" | b"acquire" | b"unlock" | b"release" => {
            "locks are inferred: mark the statements that belong together by `atomic { .. }`"
        }
        _ => "a function is written `fn f(x) { .. return x; }`, before its call or after it",
    }
}

/// What helps where a local is not set.
fn local_hint(text: &[u8], name: &[u8]) -> &'static str {
    match name {
        b"true" => "`one = 1;` is true: all but the integer 0 and null is",
        b"false" => "`zero = 0;` is false: the integer 0 and null are",
        b"nil" | b"NULL" | b"none" | b"None" => "it is `null`",
        _ => {
            if is_global(text, name) {
                "a global is reached by its address, in a section: `p = &g; x = *p;`"
            } else {
                "a local is set before it is used: `x = 0;`"
            }
        }
    }
}

/// Adds the head of a function.
fn push_head(message: &mut String, text: &[u8], name: &[u8]) -> Result<(), AllocError> {
    let Some(head) = head_of(text, name) else {
        return Ok(());
    };
    message.push_str("fn ")?;
    for byte in head_bytes(text, head.at) {
        if *byte != b'\n' && *byte != b'\r' {
            push_bytes(message, &[*byte])?;
        }
    }
    message.push_str(" stands at ")?;
    push_place(message, text, head.at)?;
    message.push_str("\n")
}

/// From a function's name to the parenthesis after its parameters.
fn head_bytes(text: &[u8], at: usize) -> &[u8] {
    let rest = &text[at.min(text.len())..];
    let len = rest.iter().take_while(|byte| **byte != b')').count();
    &rest[..len.saturating_add(1).min(rest.len())]
}

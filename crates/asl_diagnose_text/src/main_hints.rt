//! What helps where a text has no function `main` with one parameter.

use crate::bytes::push_bytes;
use crate::declared::{Declares, declares_after};
use crate::function_head::head_of;
use crate::sentence::plural;
use crate::source_hints::push_hint;
use asl_grammar::lexer::{Found, Tokens};
use asl_grammar::token::Token;
use std::alloc::AllocError;

/// Adds how a program begins.
pub fn push_main_hints(message: &mut String, text: &[u8]) -> Result<(), AllocError> {
    if let Some(head) = head_of(text, b"main") {
        let parameters = head.parameters;
        write!(message, "`main` has {parameters} ")?;
        message.push_str(plural(parameters, "parameter", "parameters"))?;
        message.push_str("\n")?;
    } else if let Some(name) = first_function(text) {
        push_library_hints(message, name)?;
    }
    push_hint(
        message,
        "each thread runs `fn main(t) { .. return t; }`, where t is the number of the thread",
    )
}

/// The name of the first function.
fn first_function(text: &[u8]) -> Option<&[u8]> {
    let mut tokens = Tokens::new(text);
    let mut next = Declares::Nothing;
    'reading: while let Found::Token(spot) = tokens.next() {
        if let (Declares::Function, Token::Name(name)) = (next, spot.token) {
            return Some(name);
        }
        next = declares_after(next, spot.token);
    }
    None
}

/// Adds how functions are compiled that a program of another language calls, of which the name is one.
fn push_library_hints(message: &mut String, name: &[u8]) -> Result<(), AllocError> {
    push_hint(
        message,
        "functions for another program are compiled with a `main` that calls a function of its own for each, which alone calls that one",
    )?;
    message.push_str("such a `main` is written by `asl lists --entry ")?;
    push_bytes(message, name)?;
    message.push_str("` and `asl c --entry ")?;
    push_bytes(message, name)?;
    message.push_str("`\n")
}

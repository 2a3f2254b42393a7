//! The sentence of a text that is no program.

use crate::bytes::push_quoted;
use crate::declared::{Declares, declares_at};
use crate::function_head::head_of;
use crate::kind::mark_text;
use crate::letter::letter;
use crate::name_role::{Role, role_at};
use crate::passed_limit::limit_text;
use crate::place::{column, line};
use crate::used::function_around;
use crate::word_place::{Word, name_from, numbered};
use asl_grammar::lexer::{Found, Tokens};
use asl_grammar::token::{Mark, Spot, Token};
use asl_syntax::SyntaxFault;
use std::alloc::AllocError;

/// The first token that begins at a place or after it.
pub fn next_token(text: &[u8], at: usize) -> Option<Spot<'_>> {
    let mut tokens = Tokens::new(text);
    'reading: while let Found::Token(spot) = tokens.next() {
        if spot.at >= at {
            return Some(spot);
        }
    }
    None
}

/// How many arguments the call whose function is named at a place has.
fn arguments_at(text: &[u8], at: usize) -> usize {
    let mut tokens = Tokens::new(text);
    let mut count: usize = 0;
    'reading: while let Found::Token(spot) = tokens.next() {
        if spot.at > at {
            match spot.token {
                Token::Name(_) => count = count.saturating_add(1),
                Token::Fixed(Mark::CloseParen) => return count,
                _ => {}
            }
        }
    }
    count
}

/// Adds a token between backticks.
fn push_token(message: &mut String, token: Token<'_>) -> Result<(), AllocError> {
    match token {
        Token::Fixed(mark) => {
            let word = mark_text(mark);
            write!(message, "`{word}`")
        }
        Token::Name(bytes) | Token::Number(bytes) => push_quoted(message, bytes),
    }
}

/// Adds the sentence of a text that is no program; `at` is the place that is told.
pub fn push_syntax_sentence(
    message: &mut String,
    text: &[u8],
    fault: &SyntaxFault,
    at: usize,
) -> Result<(), AllocError> {
    match fault {
        SyntaxFault::NotAscii(at) => push_byte_sentence(message, text, *at),
        SyntaxFault::Token(at) => push_token_sentence(message, text, *at),
        SyntaxFault::Grammar(at) => match next_token(text, *at) {
            None => message.push_str("the text ends here, and no program does"),
            Some(spot) => {
                push_token(message, spot.token)?;
                message.push_str(" does not continue a program here")
            }
        },
        SyntaxFault::Limit(at) => message.push_str(limit_text(text, *at)),
        SyntaxFault::Arity(at) => push_arity_sentence(message, text, *at),
        SyntaxFault::NoMain => message.push_str("there is no function `main` with one parameter"),
        SyntaxFault::Twice(name) => push_twice_sentence(message, text, at, name.as_slice()),
        SyntaxFault::Unknown(name) => push_unknown_sentence(message, text, at, name.as_slice()),
        SyntaxFault::OutOfMemory => message.push_str("memory ran out"),
    }
}

/// Adds the byte with which no token begins.
fn push_token_sentence(message: &mut String, text: &[u8], at: usize) -> Result<(), AllocError> {
    message.push_str("no token begins with ")?;
    match text.get(at) {
        Some(byte) => push_quoted(message, &[*byte]),
        None => Ok(()),
    }
}

/// Adds the sentence of a byte that is not ASCII; before it stands the character that begins there, if that shows.
fn push_byte_sentence(message: &mut String, text: &[u8], at: usize) -> Result<(), AllocError> {
    let rest = &text[at.min(text.len())..];
    match rest.first() {
        Some(_) if letter(rest).is_some() => message.push_str(" is not ASCII"),
        Some(byte) => {
            let byte = *byte;
            write!(message, "the byte `\\x{byte:02x}` is not ASCII")
        }
        None => Ok(()),
    }
}

/// Adds the sentence of a line that does not end; `end` is where `;` is missing, and `at` is the place of the token after it.
pub fn push_missing_end(
    message: &mut String,
    text: &[u8],
    end: usize,
    at: usize,
) -> Result<(), AllocError> {
    let line = line(text, end);
    let column = column(text, end);
    write!(message, "`;` is missing at {line}:{column}, before ")?;
    match next_token(text, at) {
        Some(spot) => push_token(message, spot.token),
        None => message.push_str("the end"),
    }
}

/// Adds which function is called, with how many arguments and how many it has.
fn push_arity_sentence(message: &mut String, text: &[u8], at: usize) -> Result<(), AllocError> {
    let name = name_from(text, at);
    let arguments = arguments_at(text, at);
    push_quoted(message, name)?;
    write!(message, " is called with {arguments} ")?;
    message.push_str(plural(arguments, "argument", "arguments"))?;
    if let Some(head) = head_of(text, name) {
        let parameters = head.parameters;
        write!(message, ", and has {parameters} ")?;
        message.push_str(plural(parameters, "parameter", "parameters"))?;
    }
    Ok(())
}

/// The word for one, or for another number.
pub fn plural(count: usize, one: &'static str, more: &'static str) -> &'static str {
    if count == 1 { one } else { more }
}

/// Adds the sentence of a name that is declared a second time at a place.
fn push_twice_sentence(
    message: &mut String,
    text: &[u8],
    at: usize,
    name: &[u8],
) -> Result<(), AllocError> {
    message.push_str(match declares_at(text, at) {
        Declares::Global => "the global ",
        Declares::Function => "the function ",
        _ => "the parameter ",
    })?;
    push_quoted(message, name)?;
    message.push_str(" is declared a second time")
}

/// Adds the sentence of a name that is used at a place and nowhere declared.
fn push_unknown_sentence(
    message: &mut String,
    text: &[u8],
    at: usize,
    name: &[u8],
) -> Result<(), AllocError> {
    match role_at(text, at) {
        Role::GlobalUse => {
            message.push_str("there is no global ")?;
            push_quoted(message, name)
        }
        Role::Call => {
            message.push_str("there is no function ")?;
            push_quoted(message, name)
        }
        _ => {
            push_quoted(message, name)?;
            message.push_str(" is not set anywhere in ")?;
            push_quoted(message, function_around(text, at))
        }
    }
}

/// The name of the function of a number.
pub fn function_name(text: &[u8], number: usize) -> &[u8] {
    match numbered(text, Word::Fn, number) {
        Some(at) => name_from(text, at),
        None => &text[..0],
    }
}

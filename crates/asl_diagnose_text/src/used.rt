//! What names do where they stand, by the tokens of a program.

use crate::declared::Declares;
use crate::name_role::{Before, Role, sets_local};
use crate::unknown::has_declared;
use crate::word_place::{is_mark, is_named};
use asl_grammar::lexer::{Found, Tokens};
use asl_grammar::token::{Mark, Token};
use std::alloc::{AllocError, Global};
use std::collections::BTreeMap;

/// The name of the function that a place is in, or of the last before it.
pub fn function_around(text: &[u8], at: usize) -> &[u8] {
    let mut tokens = Tokens::new(text);
    let mut before = Before::new();
    let mut found = &text[..0];
    'reading: while let Found::Token(spot) = tokens.next() {
        if spot.at > at {
            return found;
        }
        if let Token::Name(name) = spot.token {
            if before.next == Declares::Function {
                found = name;
            }
        }
        before.pass(spot.token);
    }
    found
}

/// How many different locals the function of a number has, and the most arguments of a call in it.
pub fn registers(
    alloc: Global,
    text: &[u8],
    function: usize,
) -> Result<(usize, usize), AllocError> {
    let mut locals: BTreeMap<&[u8], ()> = BTreeMap::new(alloc);
    let mut tokens = Tokens::new(text);
    let mut before = Before::new();
    let mut heads: usize = 0;
    let mut most = 0;
    let mut arguments: usize = 0;
    'reading: while let Found::Token(spot) = tokens.next() {
        match spot.token {
            Token::Fixed(Mark::Fn) => heads = heads.saturating_add(1),
            Token::Name(name) if heads == function.saturating_add(1) => {
                let role = before.role(tokens);
                if role == Role::Declares(Declares::Parameter) || role == Role::Assigned {
                    locals.insert(name, ())?;
                }
                if role == Role::Call {
                    arguments = 0;
                } else if role == Role::Local {
                    arguments = arguments.saturating_add(1);
                }
            }
            Token::Fixed(Mark::CloseParen) if heads == function.saturating_add(1) => {
                most = arguments.max(most);
            }
            _ => {}
        }
        before.pass(spot.token);
    }
    Ok((locals.len(), most))
}

/// Whether a name is that of a global.
pub fn is_global(text: &[u8], name: &[u8]) -> bool {
    has_declared(text, name, Declares::Global)
}

/// Whether a name is that of a local of the function that a place is in.
pub fn is_local_at(text: &[u8], at: usize, name: &[u8]) -> bool {
    let mut tokens = Tokens::new(text);
    let mut before = Before::new();
    let mut is_local = false;
    'reading: while let Found::Token(spot) = tokens.next() {
        if is_mark(spot.token, Mark::Fn) {
            if spot.at > at {
                return is_local;
            }
            is_local = false;
        }
        if is_named(spot.token, name) && sets_local(before.role(tokens)) {
            is_local = true;
        }
        before.pass(spot.token);
    }
    is_local
}

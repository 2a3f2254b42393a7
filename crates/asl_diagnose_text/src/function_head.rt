//! The head of a function in the tokens of a text.
ghost use Rattle.std.specs.Prelude.{◌≡◌};
ghost use Rattle.asl_grammar.specs.Lex.{tokens_of};
ghost use Rattle.asl_grammar.specs.View.{token_of};
ghost use Rattle.asl_diagnose_text.specs.SeenView.{is_function, first_function};
ghost use Rattle.asl_diagnose_text.specs.declared.declared.Declares.TheVariants.{Nothing};

use crate::declared::{Declares, declares_after};
use crate::word_place::is_named;
use asl_grammar::lexer::{Found, Tokens};
use asl_grammar::token::{Mark, Token};

/// Whether the next name is a function's, and a token is this name.
fn is_function(next: Declares, token: Token<'_>, name: &[u8]) -> bool
    ensures { result ≡ is_function name.now next (token_of token.entry) }
{
    match next {
        Declares::Function => is_named(token, name),
        _ => false,
    }
}

/// The place of the name of the first function of this name.
pub fn function_place(text: &[u8], name: &[u8]) -> Option<usize>
    ensures { result ≡ first_function name.now Nothing (tokens_of text.now) }
{
    let mut tokens = Tokens::new(text);
    let mut next = Declares::Nothing;
    'reading: while let Found::Token(spot) = tokens.next() {
        if is_function(next, spot.token, name) {
            return Some(spot.at);
        }
        next = declares_after(next, spot.token);
    }
    None
}

/// The head of a function: where its name stands, and how many parameters it has.
#[derive(Clone, Copy)]
pub struct Head {
    pub at: usize,
    pub parameters: usize,
}

/// The head of the function of a name; of two of one name that of the first.
pub fn head_of(text: &[u8], name: &[u8]) -> Option<Head> {
    let mut tokens = Tokens::new(text);
    let mut next = Declares::Nothing;
    let mut head = None;
    'reading: while let Found::Token(spot) = tokens.next() {
        head = match head {
            None => match next {
                Declares::Function if is_named(spot.token, name) => Some(Head {
                    at: spot.at,
                    parameters: 0,
                }),
                _ => None,
            },
            Some(found) => match spot.token {
                Token::Name(_) => Some(Head {
                    at: found.at,
                    parameters: found.parameters.saturating_add(1),
                }),
                Token::Fixed(Mark::CloseParen) => return head,
                _ => head,
            },
        };
        next = declares_after(next, spot.token);
    }
    head
}

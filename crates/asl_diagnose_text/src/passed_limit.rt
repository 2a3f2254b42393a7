//! Which limit of a source is passed at a place.

use asl_grammar::lexer::{Found, Tokens};
use asl_grammar::token::{Mark, Token};

/// The most bytes of a source.
const MAX_BYTES: usize = 1_048_576;

/// The limit that a text passes at a place.
pub fn limit_text(text: &[u8], at: usize) -> &'static str {
    let mut tokens = Tokens::new(text);
    let mut last = None;
    'reading: while let Found::Token(spot) = tokens.next() {
        if spot.at >= at {
            return if spot.at == at && at < MAX_BYTES {
                token_limit(spot.token, last)
            } else {
                TOO_LONG
            };
        }
        last = Some(spot.token);
    }
    TOO_LONG
}

const TOO_LONG: &str = "a text has at most 1,048,576 bytes";

/// The limit that a token passes after another.
fn token_limit(token: Token<'_>, last: Option<Token<'_>>) -> &'static str {
    match token {
        Token::Fixed(Mark::Fn) => "a program has at most 256 functions",
        Token::Fixed(Mark::Global) => "a program has at most 1,024 globals",
        Token::Fixed(Mark::Atomic) => "a program has at most 1,024 `atomic`",
        Token::Fixed(_) => "at most 64 braces are open at once, the function's own among them",
        Token::Name(name) => {
            if name.len() > 64 {
                "a name has at most 64 bytes"
            } else {
                "a function has at most 4 parameters"
            }
        }
        Token::Number(_) => number_limit(last),
    }
}

/// The limit of a number after a token.
fn number_limit(last: Option<Token<'_>>) -> &'static str {
    match last {
        Some(Token::Fixed(Mark::OpenBracket)) => "an index is a number from 0 to 255",
        Some(Token::Fixed(Mark::New)) => "`new` makes objects of 1 to 255 cells",
        _ => "a number is from -2147483648 to 2147483647",
    }
}

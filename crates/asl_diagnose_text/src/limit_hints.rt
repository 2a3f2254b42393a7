//! What to write where a limit of a number is passed.

use asl_grammar::lexer::{Found, Tokens};
use asl_grammar::token::{Mark, Token};

/// What to write in place of the number at a place; empty where nothing is known to help.
pub fn limit_hint(text: &[u8], at: usize) -> &'static str {
    let mut tokens = Tokens::new(text);
    let mut last = None;
    'reading: while let Found::Token(spot) = tokens.next() {
        if spot.at >= at {
            return number_hint(last, spot.token);
        }
        last = Some(spot.token);
    }
    ""
}

/// What to write in place of a number after a token.
fn number_hint(last: Option<Token<'_>>, token: Token<'_>) -> &'static str {
    match (last, token) {
        (Some(Token::Fixed(Mark::New)), Token::Number(digits)) => {
            if digits.iter().all(|byte| *byte == b'0') {
                "an object has one cell at least: `x = new 1;`"
            } else {
                "for more cells take several objects: store the address of one in a cell of another"
            }
        }
        (Some(Token::Fixed(Mark::OpenBracket)), Token::Number(_)) => {
            "no object has more than 255 cells: store the address of another object in one of them"
        }
        _ => "",
    }
}

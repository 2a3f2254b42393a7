//! What to write between functions, in the head of a function and in its last line.

use crate::grammar_hints::Stop;
use crate::value_hints::name_hint;
use asl_grammar::control::{Control, Kind};
use asl_grammar::token::{Mark, Token};

/// What is missing where a text ends.
pub(crate) fn end_hint(stop: Stop<'_>) -> &'static str {
    match stop.control {
        Control::StatementStart | Control::AfterThen => match stop.kind {
            Kind::Body => "the function is not at its end: it ends with `return x; }`",
            Kind::Then | Kind::Inner => "a block is still open: `}` ends it",
        },
        Control::AfterHeader(_) | Control::BodyStart => "a block in braces belongs here",
        Control::BodyEnd(_) => "`}` ends the function",
        _ => "the line is not at its end",
    }
}

/// Between functions, and at the beginning of a global or a function.
pub(crate) fn item_hint(control: Control<'_>, token: Token<'_>) -> &'static str {
    match (control, token) {
        (Control::ItemStart, Token::Fixed(Mark::CloseBrace)) => {
            "no brace is open: there is one `}` too many before, or here"
        }
        (Control::ItemStart, Token::Name(word)) => item_word_hint(word),
        (Control::ItemStart, _) => {
            "outside functions stand only `global g;` and `fn f(x) { .. return x; }`"
        }
        (Control::GlobalNamed(_), Token::Fixed(Mark::Becomes)) => {
            "a global begins as the integer 0: `main` sets it by `p = &g; *p = x;` in a section"
        }
        (Control::GlobalNamed(_), Token::Fixed(Mark::Comma)) => "each global has its own `global`",
        (Control::GlobalNamed(_), Token::Fixed(Mark::OpenBracket)) => {
            "a global is one cell: store the address of a `new` in it for more"
        }
        (Control::GlobalNamed(_), _) => "`;` ends the line",
        (Control::FunctionNamed(_), _) => "`(` and the parameters follow the function's name",
        (_, token) => name_hint(token),
    }
}

/// A word that other languages begin an item with.
fn item_word_hint(word: &[u8]) -> &'static str {
    match word {
        b"function" | b"func" | b"def" | b"fun" | b"void" | b"int" => {
            "a function begins with `fn`, without types: `fn f(x) { .. return x; }`"
        }
        b"var" | b"let" | b"const" | b"static" | b"shared" => "a global is declared by `global g;`",
        _ => "outside functions stand only `global g;` and `fn f(x) { .. return x; }`",
    }
}

/// In the head of a function.
pub(crate) fn head_hint(control: Control<'_>, token: Token<'_>) -> &'static str {
    match (control, token) {
        (Control::AfterParameter, Token::Name(_)) => {
            "a parameter is one name without a type; `,` stands between two"
        }
        (Control::AfterParameter, Token::Fixed(Mark::Becomes)) => "a parameter has no default",
        (Control::NextParameter, Token::Fixed(Mark::CloseParen)) => {
            "no `,` stands after the last parameter"
        }
        (Control::BodyStart, Token::Fixed(Mark::Minus)) => {
            "a function has no result type: what it returns is said by `return x;`"
        }
        (Control::BodyStart, Token::Fixed(Mark::Semicolon)) => {
            "functions are not declared ahead: a call may stand before its function"
        }
        (Control::BodyStart, _) => "the body follows in braces",
        (_, token) => name_hint(token),
    }
}

/// In the last line of a function.
pub(crate) fn return_hint(control: Control<'_>, token: Token<'_>) -> &'static str {
    match (control, token) {
        (Control::AfterReturn, Token::Number(_)) => {
            "a function returns a name: `zero = 0; return zero;`"
        }
        (Control::AfterReturn, Token::Fixed(Mark::Semicolon)) => {
            "a function returns a value, by its name: `zero = 0; return zero;`"
        }
        (Control::AfterReturn, _) => {
            "a function returns a name: set a local first, as in `t = x + y; return t;`"
        }
        (
            Control::Returned(_),
            Token::Fixed(Mark::Plus | Mark::Minus | Mark::Less | Mark::Same | Mark::OpenParen),
        ) => "a function returns a name: set a local first, as in `t = x + y; return t;`",
        (Control::Returned(_), _) => "`;` ends the line",
        _ => "`return` is the last line of a function: `}` follows",
    }
}

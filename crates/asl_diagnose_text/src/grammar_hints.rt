//! What to write in place of what no program has there.

use crate::item_hints::{end_hint, head_hint, item_hint, return_hint};
use crate::value_hints::{after_name_hint, inner_hint, name_hint, value_hint};
use asl_grammar::control::{Control, Kind, Line, Opening, Right};
use asl_grammar::token::{Mark, Token};

/// Where a text stops being the beginning of a program: what was read of the line, the innermost block, and the token, or nothing
/// where the text ends.
#[derive(Clone, Copy)]
pub struct Stop<'t> {
    pub control: Control<'t>,
    pub kind: Kind,
    pub token: Option<Token<'t>>,
}

/// What to write instead; empty where nothing is known to help.
pub fn grammar_hint(stop: Stop<'_>) -> &'static str {
    let Some(token) = stop.token else {
        return end_hint(stop);
    };
    match stop.control {
        Control::ItemStart
        | Control::AfterGlobal
        | Control::GlobalNamed(_)
        | Control::AfterFn
        | Control::FunctionNamed(_) => item_hint(stop.control, token),
        Control::FirstParameter
        | Control::AfterParameter
        | Control::NextParameter
        | Control::BodyStart => head_hint(stop.control, token),
        Control::StatementStart | Control::AfterThen => start_hint(stop.kind, token),
        Control::Target(name) => target_hint(name, token),
        Control::AfterBecomes(_) => value_hint(token),
        Control::AfterValue(_, _) => after_name_hint(token),
        Control::LineEnd(line) => line_end_hint(line, token),
        Control::AfterIf | Control::AfterWhile | Control::AfterHeader(_) => {
            header_hint(stop.control, token)
        }
        Control::AfterReturn | Control::Returned(_) | Control::BodyEnd(_) => {
            return_hint(stop.control, token)
        }
        _ => inner_hint(stop.control, token),
    }
}

/// At the beginning of a statement.
fn start_hint(kind: Kind, token: Token<'_>) -> &'static str {
    match token {
        Token::Fixed(Mark::CloseBrace) => match kind {
            Kind::Body => {
                "`return x;` is missing: it is the last line of each function, and x a name"
            }
            _ => "",
        },
        Token::Fixed(Mark::Return) => {
            "`return` stands only as the last line of a function, in no block; or a `}` is missing before it"
        }
        Token::Fixed(Mark::Else) => "`else` stands right after the block of its `if`",
        Token::Fixed(Mark::Fn) =>
            "the function before is not at its end: it ends with `return x; }`",
        Token::Fixed(Mark::Global) => "globals are declared outside functions",
        Token::Fixed(Mark::Semicolon) => "there is no empty statement",
        Token::Fixed(Mark::OpenBrace) => {
            "a block stands after `if x`, `else`, `while x` or `atomic` alone"
        }
        Token::Fixed(Mark::New | Mark::Null) =>
            "that word is the language's own, and stands at the right of `=`: `x = new 2;`",
        Token::Number(_) => "a statement begins with a name, and a name with a letter or `_`",
        _ => "",
    }
}

/// After the name at which a statement begins.
fn target_hint(name: &[u8], token: Token<'_>) -> &'static str {
    match token {
        Token::Fixed(Mark::OpenParen) => call_hint(name),
        Token::Fixed(Mark::OpenBracket) => { "a cell is set by its address: `a = &x[1]; *a = y;`" }
        Token::Fixed(Mark::Same) => "`==` compares: a local is set by one `=`",
        Token::Fixed(Mark::Plus | Mark::Minus) => {
            "there is no `++` and no `+=`: write `x = x + y;`, where y is a name"
        }
        Token::Fixed(Mark::Comma) => "a statement sets one local",
        Token::Fixed(Mark::Semicolon) => match name {
            b"break" | b"continue" => {
                "there is no `break` and no `continue`: let the condition of `while` be false"
            }
            _ => "a name alone is no statement",
        },
        Token::Fixed(Mark::OpenBrace) => {
            "a block stands after `if x`, `else`, `while x` or `atomic` alone"
        }
        Token::Name(_) => declaring_hint(name),
        _ => "a local is set by `x = value;`",
    }
}

/// A name and `(` at the beginning of a statement.
fn call_hint(name: &[u8]) -> &'static str {
    match name {
        b"print" | b"printf" | b"println" | b"echo" => "a value is shown by `out x;`",
        b"lock" | b"acquire" | b"unlock" | b"release" | b"synchronized" => {
            "locks are inferred: mark the statements that belong together by `atomic { .. }`"
        }
        b"for" => "there is no `for`: write `while x { .. }`",
        b"assert" => "there is no `assert`: show the value by `out x;`",
        _ => "a call stands at the right of `=`: `x = f(y);`",
    }
}

/// Two names at the beginning of a statement.
fn declaring_hint(name: &[u8]) -> &'static str {
    match name {
        b"let" | b"var" | b"const" | b"auto" | b"int" | b"mut" | b"local" | b"bool" | b"char" => {
            "a local is not declared: `x = 1;` is enough"
        }
        b"for" | b"foreach" => "there is no `for`: write `while x { .. }`",
        b"goto" => "there is no `goto`",
        b"print" | b"echo" => "a value is shown by `out x;`",
        b"elif" | b"elsif" => "write `else { if x { .. } }`",
        b"synchronized" | b"lock" | b"transaction" => {
            "locks are inferred: mark the statements that belong together by `atomic { .. }`"
        }
        _ => "a local is set by `x = value;`",
    }
}

/// Where only `;`, a semicolon, is missing.
fn line_end_hint(line: Line<'_>, token: Token<'_>) -> &'static str {
    match (line, token) {
        (
            Line::Assigns(_, Right::Literal(_, _)),
            Token::Fixed(Mark::Plus | Mark::Minus | Mark::Less | Mark::Same | Mark::Star),
        ) => "an operand is a name: `one = 1; y = one + x;`",
        (
            Line::Stores(_, _),
            Token::Fixed(
                Mark::Plus
                | Mark::Minus
                | Mark::Less
                | Mark::Same
                | Mark::OpenParen
                | Mark::OpenBracket,
            ),
        ) => "a store takes one name: set a local first, as in `t = x + y; *p = t;`",
        (
            _,
            Token::Fixed(
                Mark::Plus | Mark::Minus | Mark::Less | Mark::Same | Mark::Star | Mark::Ampersand,
            ),
        ) =>
            "a line has one operator, between two names: set a local first, as in `t = a + b; x = t + c;`",
        (_, Token::Fixed(Mark::OpenBracket)) => {
            "a cell is read by its address: `a = &y[1]; x = *a;`"
        }
        (_, Token::Fixed(Mark::OpenParen)) => "a call is the whole right side of a line",
        _ => "`;` ends the line",
    }
}

/// After `if`, `while`, `else` and `atomic`.
fn header_hint(control: Control<'_>, token: Token<'_>) -> &'static str {
    match (control, token) {
        (Control::AfterHeader(Opening::OfElse), Token::Fixed(Mark::If)) => {
            "write `else { if x { .. } }`"
        }
        (
            Control::AfterHeader(Opening::OfIf(_) | Opening::OfWhile(_)),
            Token::Fixed(
                Mark::Becomes
                | Mark::Same
                | Mark::Less
                | Mark::Plus
                | Mark::Minus
                | Mark::OpenParen
                | Mark::OpenBracket,
            ),
        ) => "a condition is one name: set a local first, as in `c = x == y; if c { .. }`",
        (Control::AfterHeader(Opening::OfAtomic), Token::Fixed(Mark::OpenParen)) => {
            "`atomic` takes nothing: its locks are inferred"
        }
        (Control::AfterHeader(_), _) => "statements stand in braces",
        (_, Token::Fixed(Mark::OpenParen)) => {
            "no parentheses stand around a condition: `if x { .. }`"
        }
        (_, Token::Number(_)) => "a condition is a name: `one = 1; while one { .. }`",
        (_, Token::Fixed(Mark::Star | Mark::Ampersand | Mark::Minus | Mark::Null)) => {
            "a condition is one name: set a local first, as in `c = *p; if c { .. }`"
        }
        (_, token) => name_hint(token),
    }
}

//! What to write in a value, where a name or an operand is missing.

use asl_grammar::control::Control;
use asl_grammar::token::{Mark, Token};

/// At the right of `=`.
pub(crate) fn value_hint(token: Token<'_>) -> &'static str {
    match token {
        Token::Fixed(Mark::OpenParen) => {
            "no parentheses stand around a value: one operator a line, as in `t = a + b;`"
        }
        Token::Fixed(Mark::Semicolon) => "a value is missing at the right of `=`",
        Token::Fixed(Mark::OpenBracket) => "an object is made by `new`: `x = new 2;`",
        Token::Fixed(Mark::Becomes | Mark::Same) => "a local is set by one `=`",
        _ => "a value is a number, `null`, a name, or what is made of names by one operator",
    }
}

/// After a name at the right of `=`.
pub(crate) fn after_name_hint(token: Token<'_>) -> &'static str {
    match token {
        Token::Fixed(Mark::OpenBracket) => { "a cell is read by its address: `a = &y[1]; x = *a;`" }
        Token::Fixed(Mark::Becomes) => "`=` sets a local and `==` compares; a line has one `=`",
        Token::Fixed(Mark::Star | Mark::Ampersand) => {
            "there is no such operator between names: there are `+`, `-`, `<` and `==`"
        }
        Token::Fixed(Mark::Comma) => "a line sets one local",
        Token::Number(_) => "an operator is missing, or `;`",
        _ => "`;` ends the line",
    }
}

/// Inside a value, a store, an `out` or the arguments of a call.
pub(crate) fn inner_hint(control: Control<'_>, token: Token<'_>) -> &'static str {
    match control {
        Control::AfterOperator(_, _, _) => operand_hint(token),
        Control::FirstArgument(_, _) | Control::NextArgument(_, _) => {
            "an argument is a name: set a local first, as in `one = 1; x = f(one);`"
        }
        Control::AfterArgument(_, _) => match token {
            Token::Name(_) => "`,` stands between two arguments",
            _ => "an argument is a name: set a local first, as in `t = a + b; x = f(t);`",
        },
        Control::CallEnd(_, _) => match token {
            Token::Fixed(Mark::Plus | Mark::Minus | Mark::Less | Mark::Same | Mark::Star) => {
                "a call is the whole right side of a line: `t = f(y); x = t + z;`"
            }
            _ => "`;` ends the line",
        },
        Control::AfterOut => "`out` shows a name: `one = 1; out one;`",
        Control::StoreStart | Control::StoreTarget(_) => "a store is `*p = x;`, with two names",
        Control::StoreValue(_) =>
            "a store takes one name: set a local first, as in `t = 1; *p = t;`",
        Control::AfterAmpersand(_) => "`&` takes a name: `&g` of a global, `&y[1]` of a cell",
        Control::AfterAddress(_, _) => "`;` ends the line",
        Control::AfterBracket(_, _) => {
            "an index is a number that is written there: choose by `if` among `&p[0]`, `&p[1]`.. before `atomic`, or link objects"
        }
        Control::AfterIndex(_, _, _) => "`]` follows the index",
        Control::AfterStar(_) =>
            "`*` takes one name: `x = *p;`, and `y = *x;` for what that points to",
        Control::AfterNew(_) => "`new` takes the number of cells: `x = new 2;`",
        Control::AfterMinus(_) => {
            "`-` stands before a number, or between two names: `zero = 0; x = zero - y;`"
        }
        _ => "",
    }
}

/// After an operator.
fn operand_hint(token: Token<'_>) -> &'static str {
    match token {
        Token::Number(_) => "an operand is a name: `one = 1; y = x + one;`",
        Token::Fixed(Mark::Becomes | Mark::Same) => {
            "there is no such operator: there are `+`, `-`, `<` and `==`; for `a <= b` compute `b < a`, and use `else`"
        }
        Token::Fixed(Mark::OpenParen) => "no parentheses stand in values: one operator a line",
        Token::Fixed(Mark::Star) => "a cell is read on a line of its own: `t = *p; x = y + t;`",
        _ => "an operand is a name",
    }
}

/// Where a name is missing.
pub(crate) fn name_hint(token: Token<'_>) -> &'static str {
    match token {
        Token::Fixed(
            Mark::Global
            | Mark::Fn
            | Mark::Return
            | Mark::Null
            | Mark::New
            | Mark::Out
            | Mark::If
            | Mark::Else
            | Mark::While
            | Mark::Atomic,
        ) => "that word is the language's own, and no name",
        Token::Number(_) => "a name begins with a letter or `_`",
        _ => "",
    }
}

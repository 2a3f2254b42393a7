//! The value that the right side of an assignment means.
ghost use Rattle.std.specs.Prelude.{◌≡◌, ◌≤◌};
ghost use Rattle.asl_grammar.specs.Written.{Literal};
ghost use Rattle.asl_grammar.specs.Lex.{number_value};
ghost use Rattle.asl_grammar.specs.ControlView.{right_of};
ghost use Rattle.asl_syntax.specs.View.{value_of};
ghost use Rattle.asl_syntax.specs.Spelled.{literal, right_meaning};
ghost use Rattle.asl_syntax.specs.Fits.{RightFits};

use crate::ident::Ident;
use crate::source_limits::capped_value;
use crate::tree::Value;
use asl_grammar::control::Right;
use std::alloc::Global;

/// The number that digits after a minus, or without one, say.
fn number(minus: bool, digits: &[u8]) -> i32
    requires { RightFits (Literal minus (number_value digits.now)) }
    ensures { result ≡ literal minus (number_value digits.now) }
{
    let value = i64::from(capped_value(digits));
    if minus { (-value) as i32 } else { value as i32 }
}

/// The small number that digits say.
fn small_number(digits: &[u8]) -> u8
    requires { number_value digits.now ≤ 255 }
    ensures { result ≡ number_value digits.now }
{
    capped_value(digits) as u8
}

/// The value that a right side means.
pub(crate) fn value<'t>(right: Right<'t>) -> Value<'t>
    requires { RightFits (right_of right) }
    ensures { value_of result ≡ right_meaning (right_of right.entry) }
{
    match right {
        Right::Literal(minus, digits) => Value::Number(number(minus, digits)),
        Right::NullValue => Value::Null,
        Right::Copied(x) => Value::Local(Ident::new(x)),
        Right::Binary(x, operator, y) => Value::Binary(Ident::new(x), operator, Ident::new(y)),
        Right::GlobalAddress(x) => Value::Global(Ident::new(x)),
        Right::FieldAddress(x, digits) => Value::Field(Ident::new(x), small_number(digits)),
        Right::Loaded(x) => Value::Load(Ident::new(x)),
        Right::Created(digits) => Value::New(small_number(digits)),
    }
}

//! The steps of the grammar inside a value: operands, names and the arguments of a call.
ghost use Rattle.std.specs.Prelude.{◌≡◌};
ghost use Rattle.std.specs.Option.{option_map};
ghost use Rattle.asl_grammar.specs.Written.{Assigns};
ghost use Rattle.asl_grammar.specs.Automaton.{Keep, LineEnd, value_step, name_step, operand_step, argument_step};
ghost use Rattle.asl_grammar.specs.View.{token_of};
ghost use Rattle.asl_grammar.specs.ControlView.{control_of, right_of, act_of, transition_of};

use crate::control::{Act, Control, Line, Operator, Right, Transition};
use crate::token::{Mark, Token};

/// A token that completes nothing.
#[inline(always)]
pub(crate) fn keep(control: Control<'_>) -> Option<Transition<'_>>
    ensures { option_map transition_of result ≡ Some (control_of control.entry, Keep) }
{
    Some(Transition {
        control,
        act: Act::Keep,
    })
}

/// A token with which all but the semicolon of an assignment is read.
#[inline(always)]
fn assigned<'t>(target: &'t [u8], right: Right<'t>) -> Option<Transition<'t>>
    ensures { option_map transition_of result ≡ Some (LineEnd (Assigns target.now (right_of right.entry)), Keep) }
{
    keep(Control::LineEnd(Line::Assigns(target, right)))
}

/// A token that completes something.
#[inline(always)]
pub(crate) fn does<'t>(control: Control<'t>, act: Act<'t>) -> Option<Transition<'t>>
    ensures { option_map transition_of result ≡ Some (control_of control.entry, act_of act.entry) }
{
    Some(Transition { control, act })
}

/// The arguments of a call.
#[inline(always)]
fn argument_step<'t>(control: Control<'t>, token: Token<'t>) -> Option<Transition<'t>>
    ensures { option_map transition_of result ≡ argument_step (control_of control.entry) (token_of token.entry) }
{
    match control {
        Control::FirstArgument(x, f) => match token {
            Token::Name(a) => does(Control::AfterArgument(x, f), Act::Argument(a)),
            Token::Fixed(Mark::CloseParen) => keep(Control::CallEnd(x, f)),
            _ => None,
        },
        Control::AfterArgument(x, f) => match token {
            Token::Fixed(Mark::Comma) => keep(Control::NextArgument(x, f)),
            Token::Fixed(Mark::CloseParen) => keep(Control::CallEnd(x, f)),
            _ => None,
        },
        Control::NextArgument(x, f) => match token {
            Token::Name(a) => does(Control::AfterArgument(x, f), Act::Argument(a)),
            _ => None,
        },
        Control::CallEnd(x, f) => match token {
            Token::Fixed(Mark::Semicolon) => does(Control::StatementStart, Act::EmitCall(x, f)),
            _ => None,
        },
        _ => None,
    }
}

/// Inside a value.
#[inline(always)]
fn operand_step<'t>(control: Control<'t>, token: Token<'t>) -> Option<Transition<'t>>
    ensures { option_map transition_of result ≡ operand_step (control_of control.entry) (token_of token.entry) }
{
    match control {
        Control::AfterMinus(x) => match token {
            Token::Number(n) => assigned(x, Right::Literal(true, n)),
            _ => None,
        },
        Control::AfterOperator(x, y, o) => match token {
            Token::Name(z) => assigned(x, Right::Binary(y, o, z)),
            _ => None,
        },
        Control::AfterAmpersand(x) => match token {
            Token::Name(y) => keep(Control::AfterAddress(x, y)),
            _ => None,
        },
        Control::AfterAddress(x, y) => match token {
            Token::Fixed(Mark::Semicolon) => does(
                Control::StatementStart,
                Act::Emit(Line::Assigns(x, Right::GlobalAddress(y))),
            ),
            Token::Fixed(Mark::OpenBracket) => keep(Control::AfterBracket(x, y)),
            _ => None,
        },
        Control::AfterBracket(x, y) => match token {
            Token::Number(n) => keep(Control::AfterIndex(x, y, n)),
            _ => None,
        },
        Control::AfterIndex(x, y, n) => match token {
            Token::Fixed(Mark::CloseBracket) => assigned(x, Right::FieldAddress(y, n)),
            _ => None,
        },
        Control::AfterStar(x) => match token {
            Token::Name(y) => assigned(x, Right::Loaded(y)),
            _ => None,
        },
        Control::AfterNew(x) => match token {
            Token::Number(n) => assigned(x, Right::Created(n)),
            _ => None,
        },
        _ => argument_step(control, token),
    }
}

/// What may follow a name at the beginning of a value.
#[inline(always)]
fn name_step<'t>(control: Control<'t>, token: Token<'t>) -> Option<Transition<'t>>
    ensures { option_map transition_of result ≡ name_step (control_of control.entry) (token_of token.entry) }
{
    match control {
        Control::AfterValue(x, y) => match token {
            Token::Fixed(Mark::Semicolon) => does(
                Control::StatementStart,
                Act::Emit(Line::Assigns(x, Right::Copied(y))),
            ),
            Token::Fixed(Mark::Plus) => keep(Control::AfterOperator(x, y, Operator::Add)),
            Token::Fixed(Mark::Minus) => keep(Control::AfterOperator(x, y, Operator::Subtract)),
            Token::Fixed(Mark::Less) => keep(Control::AfterOperator(x, y, Operator::IsLess)),
            Token::Fixed(Mark::Same) => keep(Control::AfterOperator(x, y, Operator::IsEqual)),
            Token::Fixed(Mark::OpenParen) => keep(Control::FirstArgument(x, y)),
            _ => None,
        },
        _ => operand_step(control, token),
    }
}

/// The beginning of a value.
#[inline(always)]
pub(crate) fn value_step<'t>(control: Control<'t>, token: Token<'t>) -> Option<Transition<'t>>
    ensures { option_map transition_of result ≡ value_step (control_of control.entry) (token_of token.entry) }
{
    match control {
        Control::AfterBecomes(x) => match token {
            Token::Fixed(Mark::Minus) => keep(Control::AfterMinus(x)),
            Token::Fixed(Mark::Null) => assigned(x, Right::NullValue),
            Token::Fixed(Mark::Ampersand) => keep(Control::AfterAmpersand(x)),
            Token::Fixed(Mark::Star) => keep(Control::AfterStar(x)),
            Token::Fixed(Mark::New) => keep(Control::AfterNew(x)),
            Token::Name(y) => keep(Control::AfterValue(x, y)),
            Token::Number(n) => assigned(x, Right::Literal(false, n)),
            Token::Fixed(_) => None,
        },
        _ => name_step(control, token),
    }
}

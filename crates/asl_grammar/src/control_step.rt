//! The step of the grammar at a token: of items, statements and their values.
ghost use Rattle.std.specs.Prelude.{◌≡◌};
ghost use Rattle.std.specs.Option.{option_map};
ghost use Rattle.asl_grammar.specs.Automaton.{ItemStart, FirstParameter, AfterParameter, BodyEnd, StatementStart, AfterThen, Target, step, item_step};
ghost use Rattle.asl_grammar.specs.Seen.{settled, opening_kind, fault_at_end};
ghost use Rattle.asl_grammar.specs.View.{token_of};
ghost use Rattle.asl_grammar.specs.ControlView.{control_of, opening_of, transition_of};

use crate::control::{Act, Control, Kind, Line, Opening, Transition};
use crate::token::{Mark, Token};
use crate::value_step::{does, keep, value_step};

/// The first token of an item.
#[inline(always)]
fn start_step(token: Token<'_>) -> Option<Transition<'_>>
    ensures { option_map transition_of result ≡ item_step ItemStart (token_of token.entry) }
{
    match token {
        Token::Fixed(Mark::Global) => keep(Control::AfterGlobal),
        Token::Fixed(Mark::Fn) => keep(Control::AfterFn),
        _ => None,
    }
}

/// A first parameter, or the end of none.
#[inline(always)]
fn parameter_step(token: Token<'_>) -> Option<Transition<'_>>
    ensures { option_map transition_of result ≡ item_step FirstParameter (token_of token.entry) }
{
    match token {
        Token::Name(x) => does(Control::AfterParameter, Act::Parameter(x)),
        Token::Fixed(Mark::CloseParen) => keep(Control::BodyStart),
        _ => None,
    }
}

/// What follows a parameter.
#[inline(always)]
fn separator_step(token: Token<'_>) -> Option<Transition<'_>>
    ensures { option_map transition_of result ≡ item_step AfterParameter (token_of token.entry) }
{
    match token {
        Token::Fixed(Mark::Comma) => keep(Control::NextParameter),
        Token::Fixed(Mark::CloseParen) => keep(Control::BodyStart),
        _ => None,
    }
}

/// The end of a function that returns `name`.
#[inline(always)]
fn end_step<'t>(name: &'t [u8], token: Token<'t>) -> Option<Transition<'t>>
    ensures { option_map transition_of result ≡ item_step (BodyEnd name.now) (token_of token.entry) }
{
    match token {
        Token::Fixed(Mark::CloseBrace) => does(Control::ItemStart, Act::Finish(name)),
        _ => None,
    }
}

/// Globals, the head of a function and its last line.
#[inline(always)]
fn item_step<'t>(control: Control<'t>, token: Token<'t>) -> Option<Transition<'t>>
    ensures { option_map transition_of result ≡ item_step (control_of control.entry) (token_of token.entry) }
{
    match control {
        Control::ItemStart => start_step(token),
        Control::AfterGlobal => match token {
            Token::Name(x) => keep(Control::GlobalNamed(x)),
            _ => None,
        },
        Control::GlobalNamed(x) => match token {
            Token::Fixed(Mark::Semicolon) => does(Control::ItemStart, Act::Declare(x)),
            _ => None,
        },
        Control::AfterFn => match token {
            Token::Name(x) => keep(Control::FunctionNamed(x)),
            _ => None,
        },
        Control::FunctionNamed(x) => match token {
            Token::Fixed(Mark::OpenParen) => does(Control::FirstParameter, Act::Start(x)),
            _ => None,
        },
        Control::FirstParameter => parameter_step(token),
        Control::AfterParameter => separator_step(token),
        Control::NextParameter => match token {
            Token::Name(x) => does(Control::AfterParameter, Act::Parameter(x)),
            _ => None,
        },
        Control::BodyStart => match token {
            Token::Fixed(Mark::OpenBrace) => keep(Control::StatementStart),
            _ => None,
        },
        Control::AfterReturn => match token {
            Token::Name(x) => keep(Control::Returned(x)),
            _ => None,
        },
        Control::Returned(x) => match token {
            Token::Fixed(Mark::Semicolon) => keep(Control::BodyEnd(x)),
            _ => None,
        },
        Control::BodyEnd(x) => end_step(x, token),
        _ => value_step(control, token),
    }
}

/// The first token of a statement, or of what ends its block.
#[inline(always)]
fn statement_step(kind: Kind, token: Token<'_>) -> Option<Transition<'_>>
    ensures { option_map transition_of result ≡ step StatementStart kind (token_of token.entry) }
{
    match token {
        Token::Name(x) => keep(Control::Target(x)),
        Token::Fixed(Mark::Star) => keep(Control::StoreStart),
        Token::Fixed(Mark::Out) => keep(Control::AfterOut),
        Token::Fixed(Mark::If) => keep(Control::AfterIf),
        Token::Fixed(Mark::While) => keep(Control::AfterWhile),
        Token::Fixed(Mark::Atomic) => keep(Control::AfterHeader(Opening::OfAtomic)),
        Token::Fixed(Mark::Return) => match kind {
            Kind::Body => keep(Control::AfterReturn),
            Kind::Then | Kind::Inner => None,
        },
        Token::Fixed(Mark::CloseBrace) => match kind {
            Kind::Body => None,
            Kind::Then => does(Control::AfterThen, Act::Close),
            Kind::Inner => does(Control::StatementStart, Act::Close),
        },
        _ => None,
    }
}

/// The `else` after the block of an `if`.
#[inline(always)]
fn else_step(token: Token<'_>) -> Option<Transition<'_>>
    ensures { (kind : Kind) → option_map transition_of result ≡ step AfterThen kind (token_of token.entry) }
{
    match token {
        Token::Fixed(Mark::Else) => keep(Control::AfterHeader(Opening::OfElse)),
        _ => None,
    }
}

/// What follows the name at which a line begins.
#[inline(always)]
fn target_step<'t>(name: &'t [u8], token: Token<'t>) -> Option<Transition<'t>>
    ensures { (kind : Kind) → option_map transition_of result ≡ step (Target name.now) kind (token_of token.entry) }
{
    match token {
        Token::Fixed(Mark::Becomes) => keep(Control::AfterBecomes(name)),
        _ => None,
    }
}

/// The step at a token in a block of a kind, or nothing where the token may not stand.
#[inline(always)]
pub fn step<'t>(control: Control<'t>, kind: Kind, token: Token<'t>) -> Option<Transition<'t>>
    ensures { option_map transition_of result ≡ step (control_of control.entry) kind (token_of token.entry) }
{
    match control {
        Control::StatementStart => statement_step(kind, token),
        Control::AfterThen => else_step(token),
        Control::Target(x) => target_step(x, token),
        Control::LineEnd(l) => match token {
            Token::Fixed(Mark::Semicolon) => does(Control::StatementStart, Act::Emit(l)),
            _ => None,
        },
        Control::StoreStart => match token {
            Token::Name(x) => keep(Control::StoreTarget(x)),
            _ => None,
        },
        Control::StoreTarget(x) => match token {
            Token::Fixed(Mark::Becomes) => keep(Control::StoreValue(x)),
            _ => None,
        },
        Control::StoreValue(x) => match token {
            Token::Name(y) => keep(Control::LineEnd(Line::Stores(x, y))),
            _ => None,
        },
        Control::AfterOut => match token {
            Token::Name(x) => keep(Control::LineEnd(Line::Shows(x))),
            _ => None,
        },
        Control::AfterIf => match token {
            Token::Name(x) => keep(Control::AfterHeader(Opening::OfIf(x))),
            _ => None,
        },
        Control::AfterWhile => match token {
            Token::Name(x) => keep(Control::AfterHeader(Opening::OfWhile(x))),
            _ => None,
        },
        Control::AfterHeader(o) => match token {
            Token::Fixed(Mark::OpenBrace) => does(Control::StatementStart, Act::Begin(o)),
            _ => None,
        },
        _ => item_step(control, token),
    }
}

/// The control after the block of an `if`, once the next token is known: only an `else` belongs to the `if`.
#[inline(always)]
pub fn settled<'t>(control: Control<'t>, token: Token<'t>) -> Control<'t>
    ensures { control_of result ≡ settled (control_of control.entry) (token_of token.entry) }
{
    match control {
        Control::AfterThen => match token {
            Token::Fixed(Mark::Else) => control,
            _ => Control::StatementStart,
        },
        _ => control,
    }
}

/// The kind of a block that opens.
#[inline(always)]
pub(crate) fn opening_kind(opening: Opening<'_>) -> Kind
    ensures { result ≡ opening_kind (opening_of opening.entry) }
{
    match opening {
        Opening::OfIf(_) => Kind::Then,
        _ => Kind::Inner,
    }
}

/// The fault of a text that ends at `control`.
pub(crate) fn fault_at_end(control: Control<'_>, end: usize) -> Option<usize>
    ensures { result ≡ fault_at_end (control_of control.entry) end }
{
    match control {
        Control::ItemStart => None,
        _ => Some(end),
    }
}

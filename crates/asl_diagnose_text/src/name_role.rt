//! What a name does where it stands in a text.
ghost use Rattle.std.specs.Prelude.{◌≡◌};
ghost use Rattle.asl_grammar.specs.Grammar.{bare};
ghost use Rattle.asl_grammar.specs.Reader.{spots_left};
ghost use Rattle.asl_grammar.specs.View.{token_of};
ghost use Rattle.asl_diagnose_text.specs.UsesView.{declares_as, first_mark, role_in_body, sets_local, sign_of};

use crate::declared::{Declares, declares_after};
use asl_grammar::lexer::{Found, Tokens};
use asl_grammar::token::{Mark, Token};

/// What a name does where it stands.
#[derive(Clone, Copy, PartialEq, Eq)]
pub enum Role {
    /// A global, a function or a parameter is declared.
    Declares(Declares),
    /// A local is assigned.
    Assigned,
    /// A local is used.
    Local,
    /// The address of a global is taken.
    GlobalUse,
    /// A function is called.
    Call,
}

/// A symbol that says what the name after it does.
#[derive(Clone, Copy, PartialEq, Eq)]
pub enum Sign {
    Ampersand,
    Star,
    Other,
}

/// The sign that a token is.
fn sign_of(token: Token<'_>) -> Sign
    ensures { result ≡ sign_of (token_of token.entry) }
{
    match token {
        Token::Fixed(Mark::Ampersand) => Sign::Ampersand,
        Token::Fixed(Mark::Star) => Sign::Star,
        _ => Sign::Other,
    }
}

/// What a name in a body does after a sign, with this word or symbol after it.
fn role_in_body(sign: Sign, next: Option<Mark>) -> Role
    ensures { result ≡ role_in_body sign next }
{
    match (sign, next) {
        (Sign::Ampersand, Some(Mark::OpenBracket)) => Role::Local,
        (Sign::Ampersand, _) => Role::GlobalUse,
        (Sign::Star | Sign::Other, Some(Mark::OpenParen)) => Role::Call,
        (Sign::Other, Some(Mark::Becomes)) => Role::Assigned,
        (Sign::Star | Sign::Other, _) => Role::Local,
    }
}

/// The word or symbol that is next, if one is.
fn next_mark(tokens: Tokens<'_>) -> Option<Mark>
    ensures { result ≡ first_mark (bare (spots_left tokens.entry)) }
{
    let mut ahead = tokens;
    match ahead.next() {
        Found::Token(spot) => match spot.token {
            Token::Fixed(mark) => Some(mark),
            Token::Name(_) => None,
            Token::Number(_) => None,
        },
        Found::End => None,
        Found::Bad(_) => None,
    }
}

/// Whether a name that does this is declared so.
pub fn declares_as(what: Declares, role: Role) -> bool
    ensures { result ≡ declares_as what role }
{
    matches!(
        (what, role),
        (Declares::Global, Role::Declares(Declares::Global))
            | (Declares::Function, Role::Declares(Declares::Function))
    )
}

/// Whether a name that does this is a local of its function.
pub fn sets_local(role: Role) -> bool
    ensures { result ≡ sets_local role }
{
    matches!(role, Role::Declares(Declares::Parameter) | Role::Assigned)
}

/// What stands before a token.
#[derive(Clone, Copy)]
pub struct Before {
    /// What the next name declares.
    pub next: Declares,
    /// What the last token is.
    pub sign: Sign,
}

impl Before {
    ghost use Rattle.asl_diagnose_text.specs.Places.{declares_after};
    ghost use Rattle.asl_diagnose_text.specs.UsesView.{first_mark, role_of, sign_of};

    /// Nothing.
    pub fn new() -> Before
        ensures { result ≡ record { next = Declares.Nothing; sign = Sign.Other } }
    {
        Before {
            next: Declares::Nothing,
            sign: Sign::Other,
        }
    }

    /// The token too.
    pub fn pass(&mut self, token: Token<'_>)
        ensures { self.new ≡ record { next = declares_after self.old.next (token_of token.entry); sign = sign_of (token_of token.entry) } }
    {
        self.next = declares_after(self.next, token);
        self.sign = sign_of(token);
    }

    /// What a name does here, with these tokens after it.
    pub fn role(self, rest: Tokens<'_>) -> Role
        ensures { result ≡ role_of self.next self.sign (first_mark (bare (spots_left rest.entry))) }
    {
        match self.next {
            Declares::Nothing => role_in_body(self.sign, next_mark(rest)),
            Declares::Global => Role::Declares(Declares::Global),
            Declares::Function => Role::Declares(Declares::Function),
            Declares::Parameter => Role::Declares(Declares::Parameter),
        }
    }
}

/// What the name at a place does.
pub fn role_at(text: &[u8], at: usize) -> Role {
    let mut tokens = Tokens::new(text);
    let mut before = Before::new();
    'reading: while let Found::Token(spot) = tokens.next() {
        if spot.at >= at {
            return before.role(tokens);
        }
        before.pass(spot.token);
    }
    Role::Local
}

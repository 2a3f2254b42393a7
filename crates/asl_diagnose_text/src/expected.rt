//! The kinds of token with which a program continues where a text stops being the beginning of one.

ghost use Rattle.std.specs.Prelude.{◌≡◌, ◌≢◌, ℕ, ◌↔◌, length, true, IfOk, IsTrue};
ghost use Rattle.std.specs.List.{Contains, AllPairs};
ghost use Rattle.asl_grammar.specs.Lex.{tokens_of};
ghost use Rattle.asl_grammar.specs.Grammar.{IsGrammarFault};
ghost use Rattle.asl_grammar.specs.View.{token_of};
ghost use Rattle.asl_diagnose_text.specs.Expected.{IsStop};
ghost use Rattle.asl_diagnose_text.specs.WalkView.{walk_place, sample_of, is_accepted, IsStopped, ListsAccepted, MayEnd};
ghost use Rattle.asl_diagnose_text.specs.declared.kind.TokenKind.{TokenKind};

use crate::kind::{ALL_KINDS, TokenKind};
use crate::token_walk::Walk;
use asl_grammar::control::Control;
use asl_grammar::lexer::{Found, Tokens};
use asl_grammar::token::Token;
use std::alloc::{AllocError, Global};

/// With what a program continues at a place.
#[derive(Drop)]
pub struct Expected {
    /// The kinds of token.
    pub kinds: Vec<TokenKind>,
    /// Whether a program may end there.
    pub may_end: bool,
}

/// After the tokens of a text as far as they begin a program.
///
/// # Errors
///
/// An allocation failed.
pub fn stop(alloc: Global, text: &[u8]) -> Result<Walk<'_>, AllocError>
    ensures { IfOk result (λ walk. IsStopped (tokens_of text.now) (walk_place walk)) }
{
    let mut walk = Walk::new(alloc);
    let mut tokens = Tokens::new(text);
    'reading: while let Found::Token(spot) = tokens.next() {
        if walk.take(spot)?.is_none() {
            return Ok(walk);
        }
    }
    Ok(walk)
}

/// A token of a kind.
fn sample(kind: TokenKind) -> Token<'static>
    ensures { token_of result ≡ sample_of kind }
{
    match kind {
        TokenKind::Fixed(mark) => Token::Fixed(mark),
        TokenKind::Name => Token::Name(b"x"),
        TokenKind::Number => Token::Number(b"1"),
    }
}

/// The kinds of token with which a program continues.
fn accepted(alloc: Global, walk: &Walk<'_>) -> Result<Vec<TokenKind>, AllocError>
    ensures listed { IfOk result (λ kinds. ListsAccepted (walk_place walk.now) kinds.items) }
    ensures once { IfOk result (λ kinds. AllPairs (λ a b. a ≢ b) kinds.items) }
{
    let mut kinds = Vec::new(alloc);
    for kind in ALL_KINDS {
        if walk.accepts(sample(kind)) {
            kinds.push(kind)?;
        }
    }
    Ok(kinds)
}

/// Whether a program may end where a reader is.
fn may_end(walk: &Walk<'_>) -> bool
    ensures { IsTrue result ↔ MayEnd (walk_place walk.now) }
{
    matches!(walk.control, Control::ItemStart)
}

/// With what a program continues where a text stops being the beginning of one.
///
/// # Errors
///
/// An allocation failed.
pub fn expected_at_stop(alloc: Global, text: &[u8]) -> Result<Expected, AllocError>
    ensures { IfOk result (λ e. (at : ℕ) → IsGrammarFault (tokens_of text.now) (length text.now) at
        → IsStop (tokens_of text.now) (length text.now) at e.kinds.items e.may_end) }
{
    let walk = stop(alloc, text)?;
    Ok(Expected {
        kinds: accepted(alloc, &walk)?,
        may_end: may_end(&walk),
    })
}

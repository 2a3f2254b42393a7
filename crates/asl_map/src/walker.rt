//! The tokens of a text, and the pieces of text that they make, one after the other.
ghost use Rattle.std.specs.Prelude.{◌≡◌, ◌+◌, ◌<◌, ◌^◌, drop};
ghost use Rattle.asl_grammar.specs.View.{token_of};
ghost use Rattle.asl_grammar.specs.Reader.{spots_left};
ghost use Rattle.asl_map.specs.Pieces.{first_place};
ghost use Rattle.asl_map.specs.Taken.{is_end, end_place, past_end, piece_of, brace_of, IsTaken, is_else_token, is_else};

use crate::text_piece::{Kind, Piece};
use asl_grammar::lexer::{Found, Tokens};
use asl_grammar::token::{Mark, Spot, Token};

/// The tokens that are left of a text, and the pieces of the instructions so far.
#[derive(Drop)]
pub struct Walker<'t> {
    pub tokens: Tokens<'t>,
    pub pieces: Vec<Piece>,
}

/// Whether a token is the last of a line or of what stands before a block.
fn is_end(token: Token<'_>) -> bool
    ensures { result ≡ is_end (token_of token.entry) }
{
    match token {
        Token::Fixed(Mark::Semicolon) => true,
        Token::Fixed(Mark::OpenBrace) => true,
        _ => false,
    }
}

/// Whether a token is the word `else`.
fn is_else(token: Token<'_>) -> bool
    ensures { result ≡ is_else_token (token_of token.entry) }
{
    match token {
        Token::Fixed(Mark::Else) => true,
        _ => false,
    }
}

/// Passes the next token, if there is one.
fn take<'t>(tokens: &mut Tokens<'t>) -> Option<Spot<'t>>
    ensures { IsTaken tokens.old result tokens.new }
{
    match tokens.next() {
        Found::Token(spot) => Some(spot),
        Found::End => None,
        Found::Bad(_) => None,
    }
}

/// Passes the next token, and tells its place; 0 where there is none.
pub(crate) fn pass(tokens: &mut Tokens<'_>) -> usize
    ensures place { result ≡ first_place (spots_left tokens.old) }
    ensures tokens { spots_left tokens.new ≡ drop 1 (spots_left tokens.old) }
    ensures bound { result + 1 < 2 ^ 64 }
{
    match take(tokens) {
        Some(spot) => spot.at,
        None => 0,
    }
}

/// The place of the next token; 0 where there is none.
pub(crate) fn next_place(tokens: &Tokens<'_>) -> usize
    ensures { result ≡ first_place (spots_left tokens.now) }
{
    let mut ahead = *tokens;
    pass(&mut ahead)
}

/// Whether the next token is `else`.
pub(crate) fn is_at_else(tokens: &Tokens<'_>) -> bool
    ensures { result ≡ is_else (spots_left tokens.now) }
{
    let mut ahead = *tokens;
    match take(&mut ahead) {
        Some(spot) => is_else(spot.token),
        None => false,
    }
}

/// Passes the tokens up to the end of a line or to the brace that opens a block, and tells the place after it; 0 where there is
/// none.
pub(crate) fn pass_end(tokens: &mut Tokens<'_>) -> usize
    ensures place { result ≡ end_place (spots_left tokens.old) }
    ensures tokens { spots_left tokens.new ≡ past_end (spots_left tokens.old) }
{
    'reading: while let Some(spot) = take(tokens) {
        if is_end(spot.token) {
            return spot.at + 1;
        }
    }
    0
}

/// Passes a line, or what stands before a block, and tells the piece of text.
pub(crate) fn pass_piece(tokens: &mut Tokens<'_>, kind: Kind) -> Piece
    ensures piece { result ≡ piece_of kind (spots_left tokens.old) }
    ensures tokens { spots_left tokens.new ≡ past_end (spots_left tokens.old) }
{
    let from = next_place(tokens);
    let to = pass_end(tokens);
    Piece { from, to, kind }
}

/// Passes a brace, and tells the piece of text.
pub(crate) fn pass_brace(tokens: &mut Tokens<'_>, kind: Kind) -> Piece
    ensures piece { result ≡ brace_of kind (spots_left tokens.old) }
    ensures tokens { spots_left tokens.new ≡ drop 1 (spots_left tokens.old) }
{
    let from = pass(tokens);
    Piece {
        from,
        to: from + 1,
        kind,
    }
}

//! The assignments and the stores of a text: where they begin and end, and how many there are between two places.
ghost use Rattle.std.specs.Prelude.{◌≡◌, ◌&&◌, ◌||◌, ◌<◌, ◌^◌, suc, not, nat_le, true, false, count_by};
ghost use Rattle.std.specs.List.{Contains};
ghost use Rattle.asl_grammar.specs.View.{token_of};
ghost use Rattle.asl_diagnose_text.specs.Statements.{beginnings, braces_after, closes, endings, is_between, is_closing, is_edge, is_first, is_opening, is_semicolon, tokens_between, AreStatements};

use asl_grammar::lexer::{Found, Tokens};
use asl_grammar::token::{Mark, Spot, Token};

/// Whether an assignment or a store may begin with a token.
fn is_first(token: Token<'_>) -> bool
    ensures { result ≡ is_first (token_of token.entry) }
{
    matches!(token, Token::Name(_) | Token::Fixed(Mark::Star))
}

/// Whether a token ends a statement.
fn is_semicolon(token: Token<'_>) -> bool
    ensures { result ≡ is_semicolon (token_of token.entry) }
{
    matches!(token, Token::Fixed(Mark::Semicolon))
}

/// Whether a token opens a block.
fn is_opening(token: Token<'_>) -> bool
    ensures { result ≡ is_opening (token_of token.entry) }
{
    matches!(token, Token::Fixed(Mark::OpenBrace))
}

/// Whether a token closes a block.
fn is_closing(token: Token<'_>) -> bool
    ensures { result ≡ is_closing (token_of token.entry) }
{
    matches!(token, Token::Fixed(Mark::CloseBrace))
}

/// Whether a statement may begin after a token.
fn is_edge(token: Token<'_>) -> bool
    ensures { result ≡ is_edge (token_of token.entry) }
{
    is_semicolon(token) || is_opening(token) || is_closing(token)
}

/// Whether an assignment or a store begins with a token, where a statement may begin or may not.
fn begins_with(is_start: bool, token: Token<'_>) -> bool
    ensures { result ≡ (is_start && is_first (token_of token.entry)) }
{
    is_start && is_first(token)
}

/// Whether an assignment or a store is begun and not ended after a token, where one may have been before.
fn is_begun_after(is_begun: bool, is_start: bool, token: Token<'_>) -> bool
    ensures { result ≡ (is_start && is_first (token_of token.entry) || is_begun && not (is_semicolon (token_of token.entry))) }
{
    begins_with(is_start, token) || is_begun && !is_semicolon(token)
}

/// Whether an assignment or a store begins at a place.
fn begins_at(text: &[u8], at: usize) -> bool
    ensures { result ≡ true → Contains (beginnings text.now) at }
{
    let mut tokens = Tokens::new(text);
    let mut is_start = false;
    'reading: while let Found::Token(spot) = tokens.next() {
        if begins_with(is_start, spot.token) && spot.at == at {
            return true;
        }
        is_start = is_edge(spot.token);
    }
    false
}

/// Whether a token is the semicolon right before a place.
fn is_end(spot: Spot<'_>, at: usize) -> bool
    ensures { result ≡ true → (is_semicolon (token_of spot.entry.token) ≡ true) × (suc spot.entry.at ≡ at) }
{
    is_semicolon(spot.token) && spot.at < at && at - spot.at == 1
}

/// Whether an assignment or a store ends right before a place.
fn ends_at(text: &[u8], at: usize) -> bool
    ensures { result ≡ true → Contains (endings text.now) at }
{
    let mut tokens = Tokens::new(text);
    let mut is_start = false;
    let mut is_begun = false;
    'reading: while let Found::Token(spot) = tokens.next() {
        if is_begun && is_end(spot, at) {
            return true;
        }
        is_begun = is_begun_after(is_begun, is_start, spot.token);
        is_start = is_edge(spot.token);
    }
    false
}

/// Whether a place is another one or after it, and before a third.
fn is_between(from: usize, to: usize, at: usize) -> bool
    ensures { result ≡ is_between from to at }
{
    from <= at && at < to
}

/// Whether an assignment or a store begins with a token, and the token stands from one place on and before another.
fn begins_between(is_start: bool, spot: Spot<'_>, from: usize, to: usize) -> bool
    ensures { result ≡ (is_start && is_first (token_of spot.entry.token) && is_between from to spot.entry.at) }
{
    begins_with(is_start, spot.token) && is_between(from, to, spot.at)
}

/// Whether so many assignments and stores begin between two places.
fn are_so_many(text: &[u8], from: usize, to: usize, count: usize) -> bool
    ensures { result ≡ true → count ≡ count_by (is_between from to) (beginnings text.now) }
{
    let mut tokens = Tokens::new(text);
    let mut is_start = false;
    let mut left = count;
    'reading: while let Found::Token(spot) = tokens.next() {
        let is_one = begins_between(is_start, spot, from, to);
        is_start = is_edge(spot.token);
        if is_one {
            if left == 0 {
                return false;
            }
            left -= 1;
        }
    }
    left == 0
}

/// Whether assignments and stores stand from one place to another, and so many.
pub fn are_statements(text: &[u8], from: usize, to: usize, count: usize) -> bool
    ensures { result ≡ true → AreStatements text.now from to count }
{
    from < to && begins_at(text, from) && ends_at(text, to) && are_so_many(text, from, to, count)
}

/// Whether a token closes the last brace that is open.
fn closes_last(depth: usize, token: Token<'_>) -> bool
    ensures { result ≡ (is_closing (token_of token.entry) && nat_le depth 1) }
{
    is_closing(token) && depth <= 1
}

/// How many braces are open after a token.
fn braces_after(depth: usize, token: Token<'_>) -> usize
    requires { suc depth < 2 ^ 64 }
    ensures { result ≡ braces_after depth (token_of token.entry) }
{
    if is_opening(token) {
        depth + 1
    } else if is_closing(token) {
        depth.saturating_sub(1)
    } else {
        depth
    }
}

/// Whether the block that opens first from one place on is open up to another.
pub fn is_open(text: &[u8], from: usize, to: usize) -> bool
    ensures { result ≡ true → closes 0 (tokens_between from to text.now) ≡ false }
{
    let mut tokens = Tokens::new(text);
    let mut depth: usize = 0;
    'reading: while let Found::Token(spot) = tokens.next() {
        if is_between(from, to, spot.at) {
            if closes_last(depth, spot.token) {
                return false;
            }
            depth = braces_after(depth, spot.token);
        }
    }
    true
}

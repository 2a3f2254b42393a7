//! The place of a name, a word or a symbol in the tokens of a text.
ghost use Rattle.std.specs.Prelude.{◌≡◌, ◌≤◌, IfSome, IfNone};
ghost use Rattle.asl_grammar.specs.Lex.{tokens_of};
ghost use Rattle.asl_grammar.specs.View.{token_of};
ghost use Rattle.asl_diagnose_text.specs.Places.{is_named, is_word, words_in, IsWordAt};

use asl_grammar::lexer::{Found, Tokens};
use asl_grammar::token::{Mark, Token};

/// Whether a token is this name.
pub fn is_named(token: Token<'_>, name: &[u8]) -> bool
    ensures { result ≡ is_named name.now (token_of token.entry) }
{
    match token {
        Token::Name(x) => x == name,
        _ => false,
    }
}

/// A word or symbol that is counted.
#[derive(Clone, Copy)]
pub enum Word {
    Fn,
    Atomic,
    Star,
}

/// Whether a token is the word.
pub(crate) fn is_word(word: Word, token: Token<'_>) -> bool
    ensures { result ≡ is_word word (token_of token.entry) }
{
    match token {
        Token::Fixed(Mark::Fn) => matches!(word, Word::Fn),
        Token::Fixed(Mark::Atomic) => matches!(word, Word::Atomic),
        Token::Fixed(Mark::Star) => matches!(word, Word::Star),
        _ => false,
    }
}

/// The place of a word with so many of it before.
pub fn numbered(text: &[u8], word: Word, number: usize) -> Option<usize>
    ensures some { IfSome result (IsWordAt (tokens_of text.now) word number) }
    ensures none { IfNone result (words_in word (tokens_of text.now) ≤ number) }
{
    let mut tokens = Tokens::new(text);
    let mut left = number;
    'reading: while let Found::Token(spot) = tokens.next() {
        if is_word(word, spot.token) {
            if left == 0 {
                return Some(spot.at);
            }
            left -= 1;
        }
    }
    None
}

/// Whether a token is this word or symbol.
pub fn is_mark(token: Token<'_>, word: Mark) -> bool {
    match token {
        Token::Fixed(mark) => mark as u8 == word as u8,
        _ => false,
    }
}

/// The name that stands at a place or first after it.
pub fn name_from(text: &[u8], at: usize) -> &[u8] {
    let mut tokens = Tokens::new(text);
    'reading: while let Found::Token(spot) = tokens.next() {
        if spot.at >= at {
            if let Token::Name(name) = spot.token {
                return name;
            }
        }
    }
    &text[..0]
}

//! The tokens of the source language.

/// A word or a symbol of the language.
#[derive(Clone, Copy)]
pub enum Mark {
    Global,
    Fn,
    Return,
    Null,
    New,
    Out,
    If,
    Else,
    While,
    Atomic,
    OpenParen,
    CloseParen,
    OpenBrace,
    CloseBrace,
    OpenBracket,
    CloseBracket,
    Comma,
    Semicolon,
    Becomes,
    Same,
    Plus,
    Minus,
    Less,
    Ampersand,
    Star,
}

/// A token: a word or symbol, the bytes of a name, or the digits of a number.
#[derive(Clone, Copy)]
pub enum Token<'t> {
    Fixed(Mark),
    Name(&'t [u8]),
    Number(&'t [u8]),
}

/// A token, and the place of its first byte.
#[derive(Clone, Copy)]
pub struct Spot<'t> {
    pub token: Token<'t>,
    pub at: usize,
}

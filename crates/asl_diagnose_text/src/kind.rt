//! Kinds of tokens: what a list of expected tokens is made of (`expected.rt`, `listed.rt`), each told by the words of `kind_word`.
//! tests/diagnosed compares the whole messages.

ghost use Rattle.std.specs.Prelude.{◌≡◌};
ghost use Rattle.asl_grammar.specs.Bytes.{mark_bytes};
ghost use Rattle.asl_diagnose_text.specs.Listed.{kind_word};

use asl_grammar::token::Mark;

/// A kind of token: a word or symbol, any name, or any number.
#[derive(Clone, Copy)]
pub enum TokenKind {
    Fixed(Mark),
    Name,
    Number,
}

/// All kinds, in the order in which they are listed.
pub const ALL_KINDS: [TokenKind; 27] = [
    TokenKind::Fixed(Mark::Global),
    TokenKind::Fixed(Mark::Fn),
    TokenKind::Fixed(Mark::Out),
    TokenKind::Fixed(Mark::If),
    TokenKind::Fixed(Mark::Else),
    TokenKind::Fixed(Mark::While),
    TokenKind::Fixed(Mark::Atomic),
    TokenKind::Fixed(Mark::Return),
    TokenKind::Fixed(Mark::Null),
    TokenKind::Fixed(Mark::New),
    TokenKind::Fixed(Mark::Semicolon),
    TokenKind::Fixed(Mark::Comma),
    TokenKind::Fixed(Mark::Becomes),
    TokenKind::Fixed(Mark::OpenParen),
    TokenKind::Fixed(Mark::CloseParen),
    TokenKind::Fixed(Mark::OpenBrace),
    TokenKind::Fixed(Mark::CloseBrace),
    TokenKind::Fixed(Mark::OpenBracket),
    TokenKind::Fixed(Mark::CloseBracket),
    TokenKind::Fixed(Mark::Plus),
    TokenKind::Fixed(Mark::Minus),
    TokenKind::Fixed(Mark::Less),
    TokenKind::Fixed(Mark::Same),
    TokenKind::Fixed(Mark::Ampersand),
    TokenKind::Fixed(Mark::Star),
    TokenKind::Name,
    TokenKind::Number,
];

/// A word or symbol as it is written.
pub fn mark_text(mark: Mark) -> &'static str
    ensures { result.now ≡ mark_bytes mark }
{
    match mark {
        Mark::Global => "global",
        Mark::Fn => "fn",
        Mark::Return => "return",
        Mark::Null => "null",
        Mark::New => "new",
        Mark::Out => "out",
        Mark::If => "if",
        Mark::Else => "else",
        Mark::While => "while",
        Mark::Atomic => "atomic",
        Mark::OpenParen => "(",
        Mark::CloseParen => ")",
        Mark::OpenBrace => "{",
        Mark::CloseBrace => "}",
        Mark::OpenBracket => "[",
        Mark::CloseBracket => "]",
        Mark::Comma => ",",
        Mark::Semicolon => ";",
        Mark::Becomes => "=",
        Mark::Same => "==",
        Mark::Plus => "+",
        Mark::Minus => "-",
        Mark::Less => "<",
        Mark::Ampersand => "&",
        Mark::Star => "*",
    }
}

/// A kind as it is listed.
pub fn kind_text(kind: TokenKind) -> &'static str
    ensures { result.now ≡ kind_word kind }
{
    match kind {
        TokenKind::Fixed(mark) => mark_text(mark),
        TokenKind::Name => "a name",
        TokenKind::Number => "a number",
    }
}

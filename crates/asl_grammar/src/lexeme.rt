//! The longest token at the front of a text: a name or word, a number or a symbol.
ghost use Rattle.std.specs.Prelude.{◌≡◌, ◌≤◌, length};
ghost use Rattle.std.specs.Option.{option_map};
ghost use Rattle.asl_grammar.specs.Lex.{is_blank, is_digit, is_letter, is_name_byte, leading, word_of, symbol_of_byte, letters_token, digits_token, equals_token, front};
ghost use Rattle.asl_grammar.specs.View.{front_view};

use crate::token::{Mark, Token};

/// Whether the byte parts tokens and is in none.
fn is_blank(b: u8) -> bool
    ensures { result ≡ is_blank b }
{
    b == b' ' || b == b'\t' || b == b'\n' || b == b'\r'
}

/// Whether the byte is a decimal digit.
fn is_digit(b: u8) -> bool
    ensures { result ≡ is_digit b }
{
    b'0' <= b && b <= b'9'
}

/// Whether a name may begin with the byte.
fn is_letter(b: u8) -> bool
    ensures { result ≡ is_letter b }
{
    b'A' <= b && b <= b'Z' || b'a' <= b && b <= b'z' || b == b'_'
}

/// Whether the byte may stand in a name.
fn is_name_byte(b: u8) -> bool
    ensures { result ≡ is_name_byte b }
{
    is_letter(b) || is_digit(b)
}

/// How many bytes of a name `text` begins with.
fn name_len(text: &[u8]) -> usize
    ensures within { result ≤ length text.now }
    ensures count { result ≡ leading is_name_byte text.now }
{
    for (n, b) in text.iter().enumerate() {
        if !is_name_byte(*b) {
            return n;
        }
    }
    text.len()
}

/// How many digits `text` begins with.
fn digits_len(text: &[u8]) -> usize
    ensures within { result ≤ length text.now }
    ensures count { result ≡ leading is_digit text.now }
{
    for (n, b) in text.iter().enumerate() {
        if !is_digit(*b) {
            return n;
        }
    }
    text.len()
}

/// How many blanks `text` begins with.
pub(crate) fn blanks_len(text: &[u8]) -> usize
    ensures within { result ≤ length text.now }
    ensures count { result ≡ leading is_blank text.now }
{
    for (n, b) in text.iter().enumerate() {
        if !is_blank(*b) {
            return n;
        }
    }
    text.len()
}

/// The word of these bytes, if they are one. No word has one byte alone, as many names do.
#[tactic(auto, using(crate::proofs::Words::no_word))]
fn word_of(name: &[u8]) -> Option<Mark>
    ensures { result ≡ word_of name.now }
{
    if name.len() < 2 {
        return None;
    }
    if name == b"global".as_slice() {
        Some(Mark::Global)
    } else if name == b"fn".as_slice() {
        Some(Mark::Fn)
    } else if name == b"return".as_slice() {
        Some(Mark::Return)
    } else if name == b"null".as_slice() {
        Some(Mark::Null)
    } else if name == b"new".as_slice() {
        Some(Mark::New)
    } else if name == b"out".as_slice() {
        Some(Mark::Out)
    } else if name == b"if".as_slice() {
        Some(Mark::If)
    } else if name == b"else".as_slice() {
        Some(Mark::Else)
    } else if name == b"while".as_slice() {
        Some(Mark::While)
    } else if name == b"atomic".as_slice() {
        Some(Mark::Atomic)
    } else {
        None
    }
}

/// The symbol of one byte, but for `=`.
fn symbol_of(b: u8) -> Option<Mark>
    ensures { result ≡ symbol_of_byte b }
{
    match b {
        b'(' => Some(Mark::OpenParen),
        b')' => Some(Mark::CloseParen),
        b'{' => Some(Mark::OpenBrace),
        b'}' => Some(Mark::CloseBrace),
        b'[' => Some(Mark::OpenBracket),
        b']' => Some(Mark::CloseBracket),
        b',' => Some(Mark::Comma),
        b';' => Some(Mark::Semicolon),
        b'+' => Some(Mark::Plus),
        b'-' => Some(Mark::Minus),
        b'<' => Some(Mark::Less),
        b'&' => Some(Mark::Ampersand),
        b'*' => Some(Mark::Star),
        _ => None,
    }
}

/// A token, and how many bytes it takes.
#[derive(Clone, Copy)]
pub(crate) struct Lexeme<'t> {
    pub(crate) token: Token<'t>,
    pub(crate) len: usize,
}

/// The name or word that `text`, which begins with a letter, begins with.
#[inline(always)]
fn letters(text: &[u8]) -> Lexeme<'_>
    ensures { front_view result ≡ letters_token text.now (leading is_name_byte text.now) }
{
    let len = name_len(text);
    let name = &text[..len];
    let token = match word_of(name) {
        Some(word) => Token::Fixed(word),
        None => Token::Name(name),
    };
    Lexeme { token, len }
}

/// The number that `text`, which begins with a digit, begins with.
#[inline(always)]
fn digits(text: &[u8]) -> Lexeme<'_>
    ensures { front_view result ≡ digits_token text.now (leading is_digit text.now) }
{
    let len = digits_len(text);
    Lexeme {
        token: Token::Number(&text[..len]),
        len,
    }
}

/// `=` or `==`, where `rest` are the bytes after the first.
#[inline(always)]
fn equals<'t>(rest: &[u8]) -> Lexeme<'t>
    ensures { front_view result ≡ equals_token rest.now }
{
    if !rest.is_empty() && rest[0] == b'=' {
        Lexeme {
            token: Token::Fixed(Mark::Same),
            len: 2,
        }
    } else {
        Lexeme {
            token: Token::Fixed(Mark::Becomes),
            len: 1,
        }
    }
}

/// The longest token at the front of `text`.
#[inline(always)]
pub(crate) fn longest_token(text: &[u8]) -> Option<Lexeme<'_>>
    ensures { option_map front_view result ≡ front text.now }
{
    if text.is_empty() {
        return None;
    }
    let first = text[0];
    if is_letter(first) {
        Some(letters(text))
    } else if is_digit(first) {
        Some(digits(text))
    } else if first == b'=' {
        Some(equals(&text[1..]))
    } else {
        let mark = symbol_of(first)?;
        Some(Lexeme {
            token: Token::Fixed(mark),
            len: 1,
        })
    }
}

//! The words, names and numbers of a printed program, each after a space.
ghost use Rattle.asl_grammar.specs.declared.token.Mark.TheVariants as mark;
ghost use Rattle.std.specs.Prelude.{◌≡◌, ◌++◌, ◌+◌, IfOk};
ghost use Rattle.asl_grammar.specs.Bytes.{mark_bytes};
ghost use Rattle.asl_syntax.specs.Printed.{piece};
ghost use Rattle.asl_syntax.specs.Pieces.{mark_piece, digit_bytes, number_piece, later_names_bytes, names_bytes, integer_bytes};

use crate::ident::Ident;
use asl_grammar::token::Mark;
use std::alloc::{AllocError, Global};

/// The bytes of a word or symbol.
fn mark_bytes(mark: Mark) -> &'static [u8]
    ensures { result.now ≡ mark_bytes mark }
{
    match mark {
        Mark::Global => b"global",
        Mark::Fn => b"fn",
        Mark::Return => b"return",
        Mark::Null => b"null",
        Mark::New => b"new",
        Mark::Out => b"out",
        Mark::If => b"if",
        Mark::Else => b"else",
        Mark::While => b"while",
        Mark::Atomic => b"atomic",
        Mark::OpenParen => b"(",
        Mark::CloseParen => b")",
        Mark::OpenBrace => b"{",
        Mark::CloseBrace => b"}",
        Mark::OpenBracket => b"[",
        Mark::CloseBracket => b"]",
        Mark::Comma => b",",
        Mark::Semicolon => b";",
        Mark::Becomes => b"=",
        Mark::Same => b"==",
        Mark::Plus => b"+",
        Mark::Minus => b"-",
        Mark::Less => b"<",
        Mark::Ampersand => b"&",
        Mark::Star => b"*",
    }
}

/// Writes a token after a space.
fn push_piece(out: &mut Vec<u8>, bytes: &[u8]) -> Result<(), AllocError>
    ensures { IfOk result (λ _. out.new.items ≡ out.old.items ++ piece bytes.now) }
{
    out.push(b' ')?;
    out.extend_from_slice(bytes)?;
    Ok(())
}

/// Writes a word or symbol.
pub(crate) fn push_mark(out: &mut Vec<u8>, mark: Mark) -> Result<(), AllocError>
    ensures { IfOk result (λ _. out.new.items ≡ out.old.items ++ mark_piece mark) }
{
    push_piece(out, mark_bytes(mark))
}

/// Writes a name.
pub(crate) fn push_name(out: &mut Vec<u8>, name: &Ident<'_>) -> Result<(), AllocError>
    ensures { IfOk result (λ _. out.new.items ≡ out.old.items ++ piece name.now) }
{
    push_piece(out, name.as_slice())
}

/// Writes digits, none for 0.
fn push_digits(out: &mut Vec<u8>, number: u32) -> Result<(), AllocError>
    ensures { IfOk result (λ _. out.new.items ≡ out.old.items ++ digit_bytes number) }
{
    if number > 0 {
        push_digits(out, number / 10)?;
        out.push((number % 10) as u8 + b'0')?;
    }
    Ok(())
}

/// Writes a number without needless zeros.
pub(crate) fn push_number(out: &mut Vec<u8>, number: u32) -> Result<(), AllocError>
    ensures { IfOk result (λ _. out.new.items ≡ out.old.items ++ number_piece number) }
{
    if number == 0 {
        return push_piece(out, b"0");
    }
    out.push(b' ')?;
    push_digits(out, number)
}

/// Writes a number with its sign.
pub(crate) fn push_integer(out: &mut Vec<u8>, number: i32) -> Result<(), AllocError>
    ensures { IfOk result (λ _. out.new.items ≡ out.old.items ++ integer_bytes number) }
{
    if number < 0 {
        push_mark(out, Mark::Minus)?;
    }
    push_number(out, number.unsigned_abs())
}

/// Writes names after a first one.
fn push_later_names(out: &mut Vec<u8>, names: &[Ident<'_>]) -> Result<(), AllocError>
    ensures { IfOk result (λ _. out.new.items ≡ out.old.items ++ later_names_bytes names.now) }
{
    for name in names {
        push_mark(out, Mark::Comma)?;
        push_name(out, name)?;
    }
    Ok(())
}

/// Writes names with commas between.
pub(crate) fn push_names(out: &mut Vec<u8>, names: &[Ident<'_>]) -> Result<(), AllocError>
    ensures { IfOk result (λ _. out.new.items ≡ out.old.items ++ names_bytes names.now) }
{
    match names {
        [] => Ok(()),
        [first, later @ ..] => {
            push_name(out, first)?;
            push_later_names(out, later)
        }
    }
}

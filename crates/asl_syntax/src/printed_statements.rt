//! The statements of a printed program.
ghost use Rattle.asl_grammar.specs.declared.token.Mark.TheVariants as mark;
ghost use Rattle.std.specs.Prelude.{◌≡◌, ◌++◌, ◌+◌, IfOk};
ghost use Rattle.asl_syntax.specs.View.{value_of, statement_of, block_of};
ghost use Rattle.asl_syntax.specs.Pieces.{mark_piece, value_bytes, statement_bytes, block_bytes, assign_bytes, store_bytes, out_bytes, if_head, while_head, else_open, else_close};
ghost use Rattle.asl_grammar.specs.Spelling.{symbol_of};
ghost use Rattle.asl_syntax.specs.Tree.{CallValue};

use crate::ident::Ident;
use crate::printed_words::{push_integer, push_mark, push_name, push_names, push_number};
use crate::printer::print;
use crate::tree::{Statement, Value};
use asl_grammar::control::Operator;
use asl_grammar::token::Mark;
use std::alloc::{AllocError, Global};

/// The symbol of an operator.
fn symbol_of(operator: Operator) -> Mark
    ensures { result ≡ symbol_of operator }
{
    match operator {
        Operator::Add => Mark::Plus,
        Operator::Subtract => Mark::Minus,
        Operator::IsLess => Mark::Less,
        Operator::IsEqual => Mark::Same,
    }
}

/// Writes a call without its end.
fn push_call(
    out: &mut Vec<u8>,
    function: &Ident<'_>,
    arguments: &[Ident<'_>],
) -> Result<(), AllocError>
    ensures { IfOk result (λ _. out.new.items ≡ out.old.items ++ value_bytes (CallValue function.now arguments.now)) }
{
    push_name(out, function)?;
    push_mark(out, Mark::OpenParen)?;
    push_names(out, arguments)?;
    push_mark(out, Mark::CloseParen)
}

/// Writes a value.
fn push_value(out: &mut Vec<u8>, value: &Value<'_>) -> Result<(), AllocError>
    ensures { IfOk result (λ _. out.new.items ≡ out.old.items ++ value_bytes (value_of value.now)) }
{
    match value {
        Value::Number(number) => push_integer(out, *number),
        Value::Null => push_mark(out, Mark::Null),
        Value::Local(x) => push_name(out, x),
        Value::Binary(x, operator, y) => {
            push_name(out, x)?;
            push_mark(out, symbol_of(*operator))?;
            push_name(out, y)
        }
        Value::Global(x) => {
            push_mark(out, Mark::Ampersand)?;
            push_name(out, x)
        }
        Value::Field(x, number) => {
            push_mark(out, Mark::Ampersand)?;
            push_name(out, x)?;
            push_mark(out, Mark::OpenBracket)?;
            push_number(out, u32::from(*number))?;
            push_mark(out, Mark::CloseBracket)
        }
        Value::Load(x) => {
            push_mark(out, Mark::Star)?;
            push_name(out, x)
        }
        Value::New(number) => {
            push_mark(out, Mark::New)?;
            push_number(out, u32::from(*number))
        }
        Value::Call(function, arguments) => push_call(out, function, arguments),
    }
}

/// Writes an assignment.
fn push_assign(out: &mut Vec<u8>, target: &Ident<'_>, value: &Value<'_>) -> Result<(), AllocError>
    ensures { IfOk result (λ _. out.new.items ≡ out.old.items ++ assign_bytes target.now (value_of value.now)) }
{
    push_name(out, target)?;
    push_mark(out, Mark::Becomes)?;
    push_value(out, value)?;
    push_mark(out, Mark::Semicolon)
}

/// Writes a store.
fn push_store(out: &mut Vec<u8>, target: &Ident<'_>, value: &Ident<'_>) -> Result<(), AllocError>
    ensures { IfOk result (λ _. out.new.items ≡ out.old.items ++ store_bytes target.now value.now) }
{
    push_mark(out, Mark::Star)?;
    push_name(out, target)?;
    push_mark(out, Mark::Becomes)?;
    push_name(out, value)?;
    push_mark(out, Mark::Semicolon)
}

/// Writes an output.
fn push_out(out: &mut Vec<u8>, value: &Ident<'_>) -> Result<(), AllocError>
    ensures { IfOk result (λ _. out.new.items ≡ out.old.items ++ out_bytes value.now) }
{
    push_mark(out, Mark::Out)?;
    push_name(out, value)?;
    push_mark(out, Mark::Semicolon)
}

/// Writes what stands before the block of an `if`.
fn open_if(out: &mut Vec<u8>, test: &Ident<'_>) -> Result<(), AllocError>
    ensures { IfOk result (λ _. out.new.items ≡ out.old.items ++ if_head test.now) }
{
    push_mark(out, Mark::If)?;
    push_name(out, test)?;
    push_mark(out, Mark::OpenBrace)
}

/// Writes what stands before the block of a `while`.
fn open_while(out: &mut Vec<u8>, test: &Ident<'_>) -> Result<(), AllocError>
    ensures { IfOk result (λ _. out.new.items ≡ out.old.items ++ while_head test.now) }
{
    push_mark(out, Mark::While)?;
    push_name(out, test)?;
    push_mark(out, Mark::OpenBrace)
}

/// Writes what stands before the block of an `atomic`.
fn open_atomic(out: &mut Vec<u8>) -> Result<(), AllocError>
    ensures { IfOk result (λ _. out.new.items ≡ out.old.items ++ (mark_piece mark.Atomic ++ mark_piece mark.OpenBrace)) }
{
    push_mark(out, Mark::Atomic)?;
    push_mark(out, Mark::OpenBrace)
}

/// Writes what stands between the two blocks of an `if`.
fn open_else(out: &mut Vec<u8>, block: &[Statement<'_>]) -> Result<(), AllocError>
    ensures { IfOk result (λ _. out.new.items ≡ out.old.items ++ else_open (block_of block.now)) }
{
    push_mark(out, Mark::CloseBrace)?;
    match block {
        [] => Ok(()),
        [_first, _later @ ..] => {
            push_mark(out, Mark::Else)?;
            push_mark(out, Mark::OpenBrace)
        }
    }
}

/// Writes what stands after the second block of an `if`.
fn close_else(out: &mut Vec<u8>, block: &[Statement<'_>]) -> Result<(), AllocError>
    ensures { IfOk result (λ _. out.new.items ≡ out.old.items ++ else_close (block_of block.now)) }
{
    match block {
        [] => Ok(()),
        [_first, _later @ ..] => push_mark(out, Mark::CloseBrace),
    }
}

/// Writes the statements of a block.
#[cycle(print)]
pub(crate) fn push_block(out: &mut Vec<u8>, block: &[Statement<'_>]) -> Result<(), AllocError>
    ensures { IfOk result (λ _. out.new.items ≡ out.old.items ++ block_bytes (block_of block.now)) }
{
    for statement in block {
        push_statement(out, statement)?;
    }
    Ok(())
}

/// Writes a statement.
#[cycle(print)]
fn push_statement(out: &mut Vec<u8>, statement: &Statement<'_>) -> Result<(), AllocError>
    ensures { IfOk result (λ _. out.new.items ≡ out.old.items ++ statement_bytes (statement_of statement.now)) }
{
    match statement {
        Statement::Assign(x, value) => push_assign(out, x, value)?,
        Statement::Store(x, y) => push_store(out, x, y)?,
        Statement::Out(x) => push_out(out, x)?,
        Statement::If(x, first, second) => {
            open_if(out, x)?;
            push_block(out, first)?;
            open_else(out, second)?;
            push_block(out, second)?;
            close_else(out, second)?;
        }
        Statement::While(x, body) => {
            open_while(out, x)?;
            push_block(out, body)?;
            push_mark(out, Mark::CloseBrace)?;
        }
        Statement::Atomic(body) => {
            open_atomic(out)?;
            push_block(out, body)?;
            push_mark(out, Mark::CloseBrace)?;
        }
    }
    Ok(())
}

//! How many instructions a program has, counted before any is emitted.

ghost use Rattle.std.specs.Prelude.{◌≡◌, suc, ◌+◌, ◌<◌, ◌≤◌, ◌↔◌, map, IsTrue, IfSome, IfNone};
ghost use Rattle.asl_syntax.specs.View.{item_of, value_of, statement_of, block_of};
ghost use Rattle.asl_syntax.specs.Tree.{functions_of};
ghost use Rattle.asl_lower.specs.Lowered.{end_of};
ghost use Rattle.asl_lower.specs.Size.{value_size, stmt_size, block_size, else_size, functions_size};

use crate::output::Output;
use asl_syntax::tree::{Item, Statement, Value};

/// Whether the code of a program has at most 65,535 instructions.
pub fn has_few_instructions(items: &[Item<'_>]) -> bool
    ensures { IsTrue result ↔ ((end_of (map item_of items.now)).pc ≤ 65535) }
{
    left_after_items(Output::MAX_LEN, items).is_some()
}

/// How many of so many instructions are left after the code of the functions, if there are enough.
fn left_after_items(most: usize, items: &[Item<'_>]) -> Option<usize>
    ensures enough { IfSome result (λ left. functions_size (functions_of (map item_of items.now)) + left ≡ most) }
    ensures short { IfNone result (most < functions_size (functions_of (map item_of items.now))) }
{
    let mut left = most;
    for item in items {
        if let Item::Function(function) = item {
            left = left_after_block(left, &function.body)?.checked_sub(1)?;
        }
    }
    Some(left)
}

/// How many of so many instructions are left after the code of statements, if there are enough.
#[cycle(size)]
fn left_after_block(most: usize, block: &[Statement<'_>]) -> Option<usize>
    ensures enough { IfSome result (λ left. block_size (block_of block.now) + left ≡ most) }
    ensures short { IfNone result (most < block_size (block_of block.now)) }
{
    let mut left = most;
    for statement in block {
        left = left_after_statement(left, statement)?;
    }
    Some(left)
}

/// How many of so many instructions are left after the code of a statement, if there are enough.
#[cycle(size)]
fn left_after_statement(most: usize, statement: &Statement<'_>) -> Option<usize>
    ensures enough { IfSome result (λ left. stmt_size (statement_of statement.now) + left ≡ most) }
    ensures short { IfNone result (most < stmt_size (statement_of statement.now)) }
{
    match statement {
        Statement::Assign(_, value) => most.checked_sub(value_size(value)),
        Statement::Store(_, _) => most.checked_sub(1),
        Statement::Out(_) => most.checked_sub(1),
        Statement::If(_, first, second) => {
            let left = left_after_block(most.checked_sub(jumps_of_if(second))?, first)?;
            left_after_block(left, second)
        }
        Statement::While(_, body) => left_after_block(most.checked_sub(2)?, body),
        Statement::Atomic(body) => left_after_block(most.checked_sub(2)?, body),
    }
}

/// How many jumps an `if` has with this second block: one, and one over the block where it is not empty.
fn jumps_of_if(second: &[Statement<'_>]) -> usize
    ensures { result + block_size (block_of second.now) ≡ suc (else_size (block_of second.now)) }
{
    if second.is_empty() { 1 } else { 2 }
}

/// How many instructions the code of statements has, where there are at most 65,535.
pub fn block_size(block: &[Statement<'_>]) -> usize
    requires { block_size (block_of block.now) ≤ 65535 }
    ensures { result ≡ block_size (block_of block.now) }
{
    Output::MAX_LEN - left_after_block(Output::MAX_LEN, block).unwrap_or(0)
}

/// How many instructions the code of a value has.
pub fn value_size(value: &Value<'_>) -> usize
    ensures { result ≡ value_size (value_of value.now) }
{
    match value {
        Value::Call(_, arguments) => arguments.len() + 1,
        Value::Number(_) => 1,
        Value::Null => 1,
        Value::Local(_) => 1,
        Value::Binary(_, _, _) => 1,
        Value::Global(_) => 1,
        Value::Field(_, _) => 1,
        Value::Load(_) => 1,
        Value::New(_) => 1,
    }
}

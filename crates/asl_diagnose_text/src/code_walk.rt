//! Going over the code of a program part by part, by how many instructions each part has.

ghost use Rattle.std.specs.Prelude.{◌≡◌, ◌+◌, ◌<◌, ◌≤◌, ◌^◌};
ghost use Rattle.asl_syntax.specs.View.{value_of, statement_of, block_of, function_of};
ghost use Rattle.asl_lower.specs.Size.{value_size};
ghost use Rattle.asl_diagnose_text.specs.AccessView.{after, after_access, after_value, after_stmt, after_block, after_else, after_function, room};

use asl_syntax::tree::{Function, Statement, Value};

/// How many instructions are left to go over, and how many loads and stores were among the others.
#[derive(Clone, Copy)]
pub struct Passed {
    pub left: usize,
    pub accesses: usize,
}

/// After the code of a function.
pub fn past_function(passed: Passed, function: &Function<'_>) -> Passed
    requires { room passed < 2 ^ 64 }
    ensures is { result ≡ after_function passed (function_of function.now) }
    ensures room { room result ≤ room passed }
{
    past(past_block(passed, &function.body), 1)
}

/// After that of statements.
#[cycle(past)]
fn past_block(passed: Passed, block: &[Statement<'_>]) -> Passed
    requires { room passed < 2 ^ 64 }
    ensures is { result ≡ after_block passed (block_of block.now) }
    ensures room { room result ≤ room passed }
{
    let mut after = passed;
    for statement in block {
        after = past_statement(after, statement);
    }
    after
}

/// After that of a statement.
#[cycle(past)]
fn past_statement(passed: Passed, statement: &Statement<'_>) -> Passed
    requires { room passed < 2 ^ 64 }
    ensures is { result ≡ after_stmt passed (statement_of statement.now) }
    ensures room { room result ≤ room passed }
{
    match statement {
        Statement::Assign(_, value) => past_value(passed, value),
        Statement::Store(_, _) => past_access(passed),
        Statement::Out(_) => past(passed, 1),
        Statement::If(_, first, second) => {
            let after = past_block(past(passed, 1), first);
            past_block(past_jump(after, second), second)
        }
        Statement::While(_, body) => past(past_block(past(passed, 1), body), 1),
        Statement::Atomic(body) => past(past_block(past(passed, 1), body), 1),
    }
}

/// After the jump over the second block of an `if`, if it has one.
fn past_jump(passed: Passed, second: &[Statement<'_>]) -> Passed
    ensures is { after_block result (block_of second.now) ≡ after_else passed (block_of second.now) }
    ensures room { room result ≤ room passed }
{
    if second.is_empty() {
        passed
    } else {
        past(passed, 1)
    }
}

/// After the code of a value.
fn past_value(passed: Passed, value: &Value<'_>) -> Passed
    requires { room passed < 2 ^ 64 }
    ensures is { result ≡ after_value passed (value_of value.now) }
    ensures room { room result ≤ room passed }
{
    match value {
        Value::Load(_) => past_access(passed),
        _ => past(passed, value_size(value)),
    }
}

/// After a load or a store.
fn past_access(passed: Passed) -> Passed
    requires { room passed < 2 ^ 64 }
    ensures is { result ≡ after_access passed }
    ensures room { room result ≤ room passed }
{
    Passed {
        left: passed.left.saturating_sub(1),
        accesses: passed.accesses + passed.left.min(1),
    }
}

/// After so many other instructions.
fn past(passed: Passed, count: usize) -> Passed
    ensures is { result ≡ after passed count }
    ensures room { room result ≤ room passed }
{
    Passed {
        left: passed.left.saturating_sub(count),
        accesses: passed.accesses,
    }
}

/// How many instructions the code of a value has.
fn value_size(value: &Value<'_>) -> usize
    ensures { result ≡ value_size (value_of value.now) }
{
    match value {
        Value::Call(_, arguments) => arguments.len() + 1,
        Value::Number(_) => 1,
        Value::Null => 1,
        Value::Local(_) => 1,
        Value::Binary(_, _, _) => 1,
        Value::Global(_) => 1,
        Value::Field(_, _) => 1,
        Value::Load(_) => 1,
        Value::New(_) => 1,
    }
}

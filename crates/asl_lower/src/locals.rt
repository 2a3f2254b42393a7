//! The registers of a function: its locals, and its longest call.

ghost use Rattle.std.specs.Prelude.{◌≡◌, ◌<◌, length, IfOk, OnErr};
ghost use Rattle.asl_syntax.specs.View.{value_of, statement_of, block_of};
ghost use Rattle.asl_lower.specs.Names.{with_name, stmt_locals, block_locals, value_arguments, stmt_arguments, block_arguments};
ghost use Rattle.asl_lower.specs.NamesView.{names_of};

use crate::name_numbers::number_of;
use arrayvec::ArrayVec;
use asl_code::image_limits::REGS;
use asl_syntax::Ident;
use asl_syntax::tree::{Statement, Value};

/// The function would have more than 64 registers.
#[derive(Clone, Copy)]
pub struct TooMany;

/// The most registers that a function has.
pub const MAX_REGISTERS: usize = REGS as usize;

/// The bytes of names, in the order of their registers.
pub type Locals<'t> = ArrayVec<&'t [u8], MAX_REGISTERS>;

/// Adds a local, unless it is there.
fn add_local<'t>(locals: &mut Locals<'t>, name: &Ident<'t>) -> Result<(), TooMany>
    ensures ok { IfOk result (λ _. names_of locals.new.items ≡ with_name (names_of locals.old.items) name.now) }
    ensures many { OnErr result (64 < length (with_name (names_of locals.old.items) name.now)) }
{
    if number_of(locals.as_slice(), name) < locals.len() {
        return Ok(());
    }
    if locals.is_full() {
        return Err(TooMany);
    }
    locals.push(name.as_slice());
    Ok(())
}

/// Adds the locals that statements assign.
#[cycle(locals)]
pub fn add_block<'t>(locals: &mut Locals<'t>, block: &[Statement<'t>]) -> Result<(), TooMany>
    ensures ok { IfOk result (λ _. names_of locals.new.items ≡ block_locals (names_of locals.old.items) (block_of block.now)) }
    ensures many { OnErr result (64 < length (block_locals (names_of locals.old.items) (block_of block.now))) }
{
    for statement in block {
        add_statement(locals, statement)?;
    }
    Ok(())
}

/// Adds the locals that a statement assigns.
#[cycle(locals)]
fn add_statement<'t>(locals: &mut Locals<'t>, statement: &Statement<'t>) -> Result<(), TooMany>
    ensures ok { IfOk result (λ _. names_of locals.new.items ≡ stmt_locals (names_of locals.old.items) (statement_of statement.now)) }
    ensures many { OnErr result (64 < length (stmt_locals (names_of locals.old.items) (statement_of statement.now))) }
{
    match statement {
        Statement::Assign(x, _) => add_local(locals, x),
        Statement::Store(_, _) => Ok(()),
        Statement::Out(_) => Ok(()),
        Statement::If(_, first, second) => {
            add_block(locals, first)?;
            add_block(locals, second)
        }
        Statement::While(_, body) => add_block(locals, body),
        Statement::Atomic(body) => add_block(locals, body),
    }
}

/// How many arguments a value passes.
fn value_arguments(value: &Value<'_>) -> usize
    ensures { result ≡ value_arguments (value_of value.now) }
{
    match value {
        Value::Call(_, arguments) => arguments.len(),
        Value::Number(_) => 0,
        Value::Null => 0,
        Value::Local(_) => 0,
        Value::Binary(_, _, _) => 0,
        Value::Global(_) => 0,
        Value::Field(_, _) => 0,
        Value::Load(_) => 0,
        Value::New(_) => 0,
    }
}

/// How many arguments the longest call in statements passes.
#[cycle(arguments)]
pub fn block_arguments(block: &[Statement<'_>]) -> usize
    ensures { result ≡ block_arguments (block_of block.now) }
{
    let mut most = 0;
    for statement in block {
        most = most.max(stmt_arguments(statement));
    }
    most
}

/// How many arguments the longest call in a statement passes.
#[cycle(arguments)]
fn stmt_arguments(statement: &Statement<'_>) -> usize
    ensures { result ≡ stmt_arguments (statement_of statement.now) }
{
    match statement {
        Statement::Assign(_, value) => value_arguments(value),
        Statement::Store(_, _) => 0,
        Statement::Out(_) => 0,
        Statement::If(_, first, second) => block_arguments(first).max(block_arguments(second)),
        Statement::While(_, body) => block_arguments(body),
        Statement::Atomic(body) => block_arguments(body),
    }
}

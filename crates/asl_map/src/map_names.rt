//! The names of a program, in the order of their numbers.

ghost use Rattle.std.specs.Prelude.{◌≡◌, map, bytes_eq, IfOk};
ghost use Rattle.asl_syntax.specs.Tree.{globals_of, functions_of};
ghost use Rattle.asl_syntax.specs.View.{item_of, function_of, statement_of, block_of};
ghost use Rattle.asl_lower.specs.Names.{has_name, with_name, stmt_locals, block_locals, locals_of};

use asl_syntax::tree::{Function, Item, Statement};
use asl_syntax::{Ident, Name};
use std::alloc::{AllocError, Global};

/// Whether two names are the same.
fn is_same(name: &Name, other: &Ident<'_>) -> bool
    ensures { result ≡ bytes_eq name.now other.now }
{
    name.as_slice() == other.as_slice()
}

/// Whether a name is among others.
fn has_name(names: &[Name], name: &Ident<'_>) -> bool
    ensures { result ≡ has_name names.now name.now }
{
    for other in names {
        if is_same(other, name) {
            return true;
        }
    }
    false
}

/// Adds a name, unless it is there.
fn add_name(names: &mut Vec<Name>, name: &Ident<'_>) -> Result<(), AllocError>
    ensures { IfOk result (λ _. names.new.items ≡ with_name names.old.items name.now) }
{
    if has_name(names, name) {
        return Ok(());
    }
    names.push(name.to_name())?;
    Ok(())
}

/// Adds the locals that statements assign.
#[cycle(locals)]
fn add_block(names: &mut Vec<Name>, block: &[Statement<'_>]) -> Result<(), AllocError>
    ensures { IfOk result (λ _. names.new.items ≡ block_locals names.old.items (block_of block.now)) }
{
    for statement in block {
        add_statement(names, statement)?;
    }
    Ok(())
}

/// Adds the locals that a statement assigns.
#[cycle(locals)]
fn add_statement(names: &mut Vec<Name>, statement: &Statement<'_>) -> Result<(), AllocError>
    ensures { IfOk result (λ _. names.new.items ≡ stmt_locals names.old.items (statement_of statement.now)) }
{
    match statement {
        Statement::Assign(x, _) => add_name(names, x),
        Statement::Store(_, _) => Ok(()),
        Statement::Out(_) => Ok(()),
        Statement::If(_, first, second) => {
            add_block(names, first)?;
            add_block(names, second)
        }
        Statement::While(_, body) => add_block(names, body),
        Statement::Atomic(body) => add_block(names, body),
    }
}

/// The same names again.
fn copies(alloc: Global, names: &[Ident<'_>]) -> Result<Vec<Name>, AllocError>
    ensures { IfOk result (λ v. v.items ≡ names.now) }
{
    let mut all = Vec::new(alloc);
    for name in names {
        all.push(name.to_name())?;
    }
    Ok(all)
}

/// The locals of a function in the order of their registers: parameters, then the others by first assignment.
fn locals_of(alloc: Global, function: &Function<'_>) -> Result<Vec<Name>, AllocError>
    ensures { IfOk result (λ v. v.items ≡ locals_of (function_of function.now)) }
{
    let mut names = copies(alloc, &function.parameters)?;
    add_block(&mut names, &function.body)?;
    Ok(names)
}

/// The locals of each function.
pub fn register_names(alloc: Global, items: &[Item<'_>]) -> Result<Vec<Vec<Name>>, AllocError>
    ensures { IfOk result (λ v. map (λ r. r.items) v.items ≡ map locals_of (functions_of (map item_of items.now))) }
{
    let mut registers = Vec::new(alloc);
    for item in items {
        if let Item::Function(function) = item {
            registers.push(locals_of(alloc, function)?)?;
        }
    }
    Ok(registers)
}

/// The names of the globals.
pub fn global_names(alloc: Global, items: &[Item<'_>]) -> Result<Vec<Name>, AllocError>
    ensures { IfOk result (λ v. v.items ≡ globals_of (map item_of items.now)) }
{
    let mut names = Vec::new(alloc);
    for item in items {
        if let Item::Global(name) = item {
            names.push(name.to_name())?;
        }
    }
    Ok(names)
}

//! The names of a program in the order of the text, each with what it does where it stands.

ghost use Rattle.std.specs.Prelude.{◌≡◌, [], ◌∷◌, ◌++◌, map, IfOk};
ghost use Rattle.asl_syntax.specs.Mentions.{UsesLocal, DeclaresParameter, value_mentions, block_mentions, statement_mentions, function_mentions, item_mentions, mentions};
ghost use Rattle.asl_syntax.specs.View.{value_of, statement_of, block_of, function_of, item_of};
ghost use Rattle.asl_syntax.specs.MentionView.{mention_of, mentions_of};
ghost use Rattle.asl_syntax.specs.Declarations.{declarations, item_declarations};

use crate::ident::Ident;
use crate::tree::{Function, Item, Statement, Value};
use std::alloc::{AllocError, Global};

/// A name, and what it does where it stands.
#[derive(Clone, Copy)]
pub enum Mention<'a, 't> {
    Global(&'a Ident<'t>),
    Function(&'a Ident<'t>),
    Parameter(&'a Ident<'t>),
    Assigned(&'a Ident<'t>),
    Local(&'a Ident<'t>),
    GlobalUse(&'a Ident<'t>),
    /// A call, with how many arguments.
    Call(&'a Ident<'t>, usize),
}

/// Adds a name.
fn push<'a, 't>(out: &mut Vec<Mention<'a, 't>>, mention: Mention<'a, 't>) -> Result<(), AllocError>
    ensures { IfOk result (λ _. mentions_of out.new.items ≡ mentions_of out.old.items ++ mention_of mention.entry ∷ []) }
{
    out.push(mention)?;
    Ok(())
}

/// The names of arguments.
fn push_locals<'a, 't>(
    out: &mut Vec<Mention<'a, 't>>,
    names: &'a [Ident<'t>],
) -> Result<(), AllocError>
    ensures { IfOk result (λ _. mentions_of out.new.items ≡ mentions_of out.old.items ++ map UsesLocal names.now) }
{
    for name in names {
        push(out, Mention::Local(name))?;
    }
    Ok(())
}

/// The names of parameters.
fn push_parameters<'a, 't>(
    out: &mut Vec<Mention<'a, 't>>,
    names: &'a [Ident<'t>],
) -> Result<(), AllocError>
    ensures { IfOk result (λ _. mentions_of out.new.items ≡ mentions_of out.old.items ++ map DeclaresParameter names.now) }
{
    for name in names {
        push(out, Mention::Parameter(name))?;
    }
    Ok(())
}

/// The names of a value.
fn push_value<'a, 't>(
    out: &mut Vec<Mention<'a, 't>>,
    value: &'a Value<'t>,
) -> Result<(), AllocError>
    ensures { IfOk result (λ _. mentions_of out.new.items ≡ mentions_of out.old.items ++ value_mentions (value_of value.now)) }
{
    match value {
        Value::Number(_) => {}
        Value::Null => {}
        Value::Local(x) => out.push(Mention::Local(x))?,
        Value::Binary(x, _, y) => {
            out.push(Mention::Local(x))?;
            out.push(Mention::Local(y))?;
        }
        Value::Global(x) => out.push(Mention::GlobalUse(x))?,
        Value::Field(x, _) => out.push(Mention::Local(x))?,
        Value::Load(x) => out.push(Mention::Local(x))?,
        Value::New(_) => {}
        Value::Call(f, arguments) => {
            out.push(Mention::Call(f, arguments.len()))?;
            push_locals(out, arguments)?;
        }
    }
    Ok(())
}

/// The names of statements.
#[cycle(mentions)]
fn push_block<'a, 't>(
    out: &mut Vec<Mention<'a, 't>>,
    block: &'a [Statement<'t>],
) -> Result<(), AllocError>
    ensures { IfOk result (λ _. mentions_of out.new.items ≡ mentions_of out.old.items ++ block_mentions (block_of block.now)) }
{
    for statement in block {
        push_statement(out, statement)?;
    }
    Ok(())
}

/// The names of a statement.
#[cycle(mentions)]
fn push_statement<'a, 't>(
    out: &mut Vec<Mention<'a, 't>>,
    statement: &'a Statement<'t>,
) -> Result<(), AllocError>
    ensures { IfOk result (λ _. mentions_of out.new.items ≡ mentions_of out.old.items ++ statement_mentions (statement_of statement.now)) }
{
    match statement {
        Statement::Assign(x, value) => {
            out.push(Mention::Assigned(x))?;
            push_value(out, value)?;
        }
        Statement::Store(x, y) => {
            out.push(Mention::Local(x))?;
            out.push(Mention::Local(y))?;
        }
        Statement::Out(x) => out.push(Mention::Local(x))?,
        Statement::If(x, first, second) => {
            out.push(Mention::Local(x))?;
            push_block(out, first)?;
            push_block(out, second)?;
        }
        Statement::While(x, body) => {
            out.push(Mention::Local(x))?;
            push_block(out, body)?;
        }
        Statement::Atomic(body) => push_block(out, body)?,
    }
    Ok(())
}

/// The names of a function.
pub fn push_function<'a, 't>(
    out: &mut Vec<Mention<'a, 't>>,
    function: &'a Function<'t>,
) -> Result<(), AllocError>
    ensures { IfOk result (λ _. mentions_of out.new.items ≡ mentions_of out.old.items ++ function_mentions (function_of function.now)) }
{
    out.push(Mention::Function(&function.name))?;
    push_parameters(out, &function.parameters)?;
    push_block(out, &function.body)?;
    out.push(Mention::Local(&function.returned))?;
    Ok(())
}

/// The names of an item.
fn push_item<'a, 't>(out: &mut Vec<Mention<'a, 't>>, item: &'a Item<'t>) -> Result<(), AllocError>
    ensures { IfOk result (λ _. mentions_of out.new.items ≡ mentions_of out.old.items ++ item_mentions (item_of item.now)) }
{
    match item {
        Item::Global(x) => out.push(Mention::Global(x))?,
        Item::Function(function) => push_function(out, function)?,
    }
    Ok(())
}

/// The names of a program.
pub fn mentions<'a, 't>(
    alloc: Global,
    items: &'a [Item<'t>],
) -> Result<Vec<Mention<'a, 't>>, AllocError>
    ensures { IfOk result (λ v. mentions_of v.items ≡ mentions (map item_of items.now)) }
{
    let mut out = Vec::new(alloc);
    for item in items {
        push_item(&mut out, item)?;
    }
    Ok(out)
}

/// The names that an item declares, without those of a function's body.
fn push_declarations<'a, 't>(
    out: &mut Vec<Mention<'a, 't>>,
    item: &'a Item<'t>,
) -> Result<(), AllocError>
    ensures { IfOk result (λ _. mentions_of out.new.items ≡ mentions_of out.old.items ++ item_declarations (item_of item.now)) }
{
    match item {
        Item::Global(x) => out.push(Mention::Global(x))?,
        Item::Function(function) => {
            out.push(Mention::Function(&function.name))?;
            push_parameters(out, &function.parameters)?;
        }
    }
    Ok(())
}

/// The names that the items of a program declare, without those of bodies.
pub fn declarations<'a, 't>(
    alloc: Global,
    items: &'a [Item<'t>],
) -> Result<Vec<Mention<'a, 't>>, AllocError>
    ensures { IfOk result (λ v. mentions_of v.items ≡ declarations (map item_of items.now)) }
{
    let mut out = Vec::new(alloc);
    for item in items {
        push_declarations(&mut out, item)?;
    }
    Ok(out)
}

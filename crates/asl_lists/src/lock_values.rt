//! The locks of lists, as data.
ghost use Rattle.std.specs.Prelude.{◌≡◌, ◌++◌, map, IfOk, OnOk};
ghost use Rattle.std.specs.List.{flat_map};
ghost use Rattle.serde_json.specs.View.{view};
ghost use Rattle.asl_lists.specs.Document.{kind_word, base_data, lock_base, class_or_null, lock_class, op_data, lock_path, statement_data, need_data, lock_data};

use crate::facts::Facts;
use crate::place_values::{area_at, area_value};
use crate::values::add;
use asl_code::{Base, Lock, Op};
use asl_explain::{Chain, Listed, Need};
use asl_lock_expr::class_of;
use asl_lock_words::{assembly_words, base_name, effect_word, lock_words};
use serde_json::{Value, json};
use std::alloc::{AllocError, Global};

/// The word of a lock's kind.
fn kind_word(lock: &Lock) -> &'static str
    ensures { result.now ≡ kind_word lock.now }
{
    match lock {
        Lock::Expr(_, _) => "expr",
        Lock::Class(_, _) => "class",
        Lock::Root(_) => "root",
    }
}

/// A base of a function: its register or its global, and the name of it.
fn base_value(alloc: Global, facts: &Facts, function: u16, base: Base) -> Result<Value, AllocError>
    ensures { IfOk result (λ v. view v ≡ base_data facts.now function base) }
{
    let name = base_name(alloc, &facts.map, function, base)?;
    match base {
        Base::Reg(register) => json!(in alloc; {"register": register, "name": name}),
        Base::Global(global) => json!(in alloc; {"global": global, "name": name}),
    }
}

/// The base of a lock, if it is one on an expression.
fn lock_base(alloc: Global, facts: &Facts, function: u16, lock: &Lock) -> Result<Value, AllocError>
    ensures { IfOk result (λ v. view v ≡ lock_base facts.now function lock.now) }
{
    match lock {
        Lock::Expr(expr, _) => base_value(alloc, facts, function, expr.base),
        Lock::Class(_, _) => Ok(Value::Null),
        Lock::Root(_) => Ok(Value::Null),
    }
}

/// A class, if there is one.
fn class_or_null(class: Option<u16>) -> Value
    ensures { view result ≡ class_or_null class }
{
    match class {
        Some(class) => Value::from(class),
        None => Value::Null,
    }
}

/// The class of a lock: its own, or that of the cell that its expression denotes.
fn lock_class(facts: &Facts, function: u16, lock: &Lock) -> Value
    ensures { view result ≡ lock_class facts.now function lock.now }
{
    match lock {
        Lock::Expr(expr, _) => class_or_null(class_of(&facts.classes, function, expr)),
        Lock::Class(class, _) => Value::from(*class),
        Lock::Root(_) => Value::Null,
    }
}

/// An operation of a path: `*`, or a number of cells.
fn op_value(alloc: Global, op: Op) -> Result<Value, AllocError>
    ensures { IfOk result (λ v. view v ≡ op_data op) }
{
    match op {
        Op::Deref => Value::try_from_str(alloc, "*"),
        Op::Off(cells) => Ok(Value::from(cells)),
    }
}

/// The operations of a path.
fn op_values(alloc: Global, path: &[Op]) -> Result<Vec<Value>, AllocError>
    ensures { IfOk result (λ values. map view values.items ≡ map op_data path.now) }
{
    let mut values = Vec::new(alloc);
    for op in path {
        add(&mut values, op_value(alloc, *op)?)?;
    }
    Ok(values)
}

/// The path of a lock, which is empty for one on a class or on the root.
fn lock_path(alloc: Global, lock: &Lock) -> Result<Value, AllocError>
    ensures { IfOk result (λ v. view v ≡ lock_path lock.now) }
{
    match lock {
        Lock::Expr(expr, _) => Ok(Value::Array(op_values(alloc, expr.path.as_slice())?)),
        Lock::Class(_, _) => Ok(Value::Array(Vec::new(alloc))),
        Lock::Root(_) => Ok(Value::Array(Vec::new(alloc))),
    }
}

/// Adds the statement of a chain: that of its first step.
fn push_statement(
    alloc: Global,
    facts: &Facts,
    values: &mut Vec<Value>,
    chain: &Chain,
) -> Result<(), AllocError>
    ensures { OnOk result (map view values.new.items ≡ map view values.old.items ++ statement_data facts.now chain.now) }
{
    if let Some(step) = chain.steps.as_slice().first() {
        add(values, area_value(alloc, facts, &area_at(facts, step.pc))?)?;
    }
    Ok(())
}

/// The statements of chains.
fn statement_values(
    alloc: Global,
    facts: &Facts,
    chains: &[Chain],
) -> Result<Vec<Value>, AllocError>
    ensures { IfOk result (λ values. map view values.items ≡ flat_map (statement_data facts.now) chains.now) }
{
    let mut values = Vec::new(alloc);
    for chain in chains {
        push_statement(alloc, facts, &mut values, chain)?;
    }
    Ok(values)
}

/// What a section needs at its start, with the statements that need it.
fn need_value(alloc: Global, facts: &Facts, function: u16, need: &Need) -> Result<Value, AllocError>
    ensures { IfOk result (λ v. view v ≡ need_data facts.now function need.now) }
{
    let text = assembly_words(alloc, &need.lock)?;
    let words = lock_words(alloc, &facts.map, function, &need.lock)?;
    let statements = statement_values(alloc, facts, need.chains.as_slice())?;
    json!(in alloc; {"text": text, "words": words, "statements": statements})
}

/// All that a section needs at its start and a lock of its list covers.
fn need_values(
    alloc: Global,
    facts: &Facts,
    function: u16,
    needs: &[Need],
) -> Result<Vec<Value>, AllocError>
    ensures { IfOk result (λ values. map view values.items ≡ map (need_data facts.now function) needs.now) }
{
    let mut values = Vec::new(alloc);
    for need in needs {
        add(&mut values, need_value(alloc, facts, function, need)?)?;
    }
    Ok(values)
}

/// A lock of a list of a function.
fn lock_value(
    alloc: Global,
    facts: &Facts,
    function: u16,
    listed: &Listed,
) -> Result<Value, AllocError>
    ensures { IfOk result (λ v. view v ≡ lock_data facts.now function listed.now) }
{
    let lock = &listed.lock;
    let text = assembly_words(alloc, lock)?;
    let words = lock_words(alloc, &facts.map, function, lock)?;
    let base = lock_base(alloc, facts, function, lock)?;
    let path = lock_path(alloc, lock)?;
    let needs = need_values(alloc, facts, function, listed.needs.as_slice())?;
    json!(in alloc; {
        "kind": kind_word(lock),
        "effect": effect_word(lock.effect()),
        "words": words,
        "text": text,
        "base": base,
        "path": path,
        "class": lock_class(facts, function, lock),
        "needs": needs,
    })
}

/// The locks of a list of a function.
pub fn list_values(
    alloc: Global,
    facts: &Facts,
    function: u16,
    list: &[Listed],
) -> Result<Vec<Value>, AllocError>
    ensures { IfOk result (λ values. map view values.items ≡ map (lock_data facts.now function) list.now) }
{
    let mut values = Vec::new(alloc);
    for listed in list {
        add(&mut values, lock_value(alloc, facts, function, listed)?)?;
    }
    Ok(values)
}

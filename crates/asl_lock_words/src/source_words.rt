//! Locks in the words of the source: `write *p`, `read p[1]`, `write a`.
ghost use Rattle.std.specs.Prelude.{◌≡◌, ◌++◌, bytes_eq, IfOk, OnOk, string_bytes};
ghost use Rattle.std.specs.Option.{option_copied};
ghost use Rattle.asl_lower.specs.Names.{has_name};
ghost use Rattle.asl_lock_words.specs.Assembly.{effect_word, spell};
ghost use Rattle.asl_lock_words.specs.Words.{name_or, base_name, function_words, local_words, unnamed_words, register_words, base_words, pointer_of, base_pointer, cell_of, past, loaded, after_op, after_ops, cell_words, lock_words};

use crate::assembly::{assembly_words, effect_word};
use asl_code::{Base, Lock, Op};
use asl_map::Map;
use asl_syntax::Name;
use std::alloc::{AllocError, Global};
use std::fmt::Write;

/// What the text of a pointer spells.
#[derive(Clone, Copy, Debug, PartialEq, Eq)]
pub enum Shape {
    /// The cell that it points to, as `a` of a global a.
    Cell,
    /// The pointer, by a word, as `p`, or with an index, as `p[1]`.
    Plain,
    /// The pointer, with a sign before it, as `*p`.
    Signed,
}

/// A pointer in the words of the source.
#[derive(Drop)]
pub struct Pointer {
    text: String,
    shape: Shape,
}

/// A name, or a letter and a number where there is none.
fn name_or(
    alloc: Global,
    name: Option<&Name>,
    letter: &str,
    number: u16,
) -> Result<String, AllocError>
    ensures { IfOk result (λ text. string_bytes text ≡ name_or (option_copied name.entry) letter.now number) }
{
    match name {
        Some(name) => format!(in alloc; "{name}"),
        None => format!(in alloc; "{letter}{number}"),
    }
}

/// The name at a base of a function: a local and a global may have the same.
pub fn base_name(alloc: Global, map: &Map, function: u16, base: Base) -> Result<String, AllocError>
    ensures { IfOk result (λ text. string_bytes text ≡ base_name map.now function base) }
{
    match base {
        Base::Reg(register) => name_or(
            alloc,
            map.register_name(function, register),
            "r",
            u16::from(register),
        ),
        Base::Global(global) => name_or(alloc, map.global_name(global), "g", global),
    }
}

/// The name of a function.
fn function_words(alloc: Global, map: &Map, function: u16) -> Result<String, AllocError>
    ensures { IfOk result (λ text. string_bytes text ≡ function_words map.now function) }
{
    name_or(alloc, map.function_name(function), "f", function)
}

/// Whether two names are the same.
fn is_same(name: &Name, other: &Name) -> bool
    ensures { result ≡ bytes_eq name.now other.now }
{
    name.as_slice() == other.as_slice()
}

/// Whether a name is among others.
fn has_name(names: &[Name], name: &Name) -> bool
    ensures { result ≡ has_name names.now name.now }
{
    for other in names {
        if is_same(other, name) {
            return true;
        }
    }
    false
}

/// A local of this name: where a global has the same name, behind the name of its function and a point.
fn local_words(alloc: Global, map: &Map, function: u16, name: &Name) -> Result<String, AllocError>
    ensures { IfOk result (λ text. string_bytes text ≡ local_words map.now function name.now) }
{
    if has_name(&map.globals, name) {
        let of = function_words(alloc, map, function)?;
        format!(in alloc; "{of}.{name}")
    } else {
        format!(in alloc; "{name}")
    }
}

/// A register without a name, which passes an argument: its number behind the name of its function and a point.
fn unnamed_words(
    alloc: Global,
    map: &Map,
    function: u16,
    register: u8,
) -> Result<String, AllocError>
    ensures { IfOk result (λ text. string_bytes text ≡ unnamed_words map.now function register) }
{
    let of = function_words(alloc, map, function)?;
    format!(in alloc; "{of}.{register}")
}

/// A register of a function.
fn register_words(
    alloc: Global,
    map: &Map,
    function: u16,
    register: u8,
) -> Result<String, AllocError>
    ensures { IfOk result (λ text. string_bytes text ≡ register_words map.now function register) }
{
    match map.register_name(function, register) {
        Some(name) => local_words(alloc, map, function, name),
        None => unnamed_words(alloc, map, function, register),
    }
}

/// The words for a base of a function: no two bases have the same.
fn base_words(alloc: Global, map: &Map, function: u16, base: Base) -> Result<String, AllocError>
    ensures { IfOk result (λ text. string_bytes text ≡ base_words map.now function base) }
{
    match base {
        Base::Reg(register) => register_words(alloc, map, function, register),
        Base::Global(global) => name_or(alloc, map.global_name(global), "g", global),
    }
}

/// The pointer at a base of a function.
fn base_pointer(alloc: Global, map: &Map, function: u16, base: Base) -> Result<Pointer, AllocError>
    ensures { IfOk result (λ p. pointer_of p ≡ base_pointer map.now function base) }
{
    let text = base_words(alloc, map, function, base)?;
    let shape = match base {
        Base::Reg(_) => Shape::Plain,
        Base::Global(_) => Shape::Cell,
    };
    Ok(Pointer { text, shape })
}

/// The cell at a pointer.
fn cell_of(alloc: Global, shape: Shape, text: &str) -> Result<String, AllocError>
    ensures { IfOk result (λ cell. string_bytes cell ≡ cell_of shape text.now) }
{
    match shape {
        Shape::Cell => String::from_str(alloc, text),
        Shape::Plain => format!(in alloc; "*{text}"),
        Shape::Signed => format!(in alloc; "*{text}"),
    }
}

/// Adds the cell so many cells after a pointer.
fn push_past(cell: &mut String, shape: Shape, text: &str, cells: u8) -> Result<(), AllocError>
    ensures { OnOk result (string_bytes cell.new ≡ string_bytes cell.old ++ past shape text.now cells) }
{
    match shape {
        Shape::Cell => write!(cell, "(&{text})[{cells}]"),
        Shape::Plain => write!(cell, "{text}[{cells}]"),
        Shape::Signed => write!(cell, "({text})[{cells}]"),
    }
}

/// The cell so many cells after a pointer.
fn past(alloc: Global, shape: Shape, text: &str, cells: u8) -> Result<String, AllocError>
    ensures { IfOk result (λ cell. string_bytes cell ≡ past shape text.now cells) }
{
    let mut cell = String::new(alloc);
    push_past(&mut cell, shape, text, cells)?;
    Ok(cell)
}

/// The pointer after an operation.
fn after_op(alloc: Global, pointer: &Pointer, op: Op) -> Result<Pointer, AllocError>
    ensures { IfOk result (λ p. pointer_of p ≡ after_op (pointer_of pointer.now) op) }
{
    let text = pointer.text.as_str();
    match op {
        Op::Off(cells) => Ok(Pointer {
            text: past(alloc, pointer.shape, text, cells)?,
            shape: Shape::Cell,
        }),
        Op::Deref => Ok(Pointer {
            text: cell_of(alloc, pointer.shape, text)?,
            shape: loaded(pointer.shape),
        }),
    }
}

/// What the text of a pointer spells that is loaded from the cell at another.
fn loaded(shape: Shape) -> Shape
    ensures { result ≡ loaded shape }
{
    match shape {
        Shape::Cell => Shape::Plain,
        Shape::Plain => Shape::Signed,
        Shape::Signed => Shape::Signed,
    }
}

/// The pointer after some operations.
fn after_ops(alloc: Global, start: Pointer, ops: &[Op]) -> Result<Pointer, AllocError>
    ensures { IfOk result (λ p. pointer_of p ≡ after_ops (pointer_of start) ops.now) }
{
    let mut pointer = start;
    for op in ops {
        pointer = after_op(alloc, &pointer, *op)?;
    }
    Ok(pointer)
}

/// The cell that a path leads to from a base of a function: `*p`, `p[1]`, `(*p)[1]`, `a`.
pub fn cell_words(
    alloc: Global,
    map: &Map,
    function: u16,
    base: Base,
    ops: &[Op],
) -> Result<String, AllocError>
    ensures { IfOk result (λ text. string_bytes text ≡ cell_words map.now function base ops.now) }
{
    let base = base_pointer(alloc, map, function, base)?;
    let pointer = after_ops(alloc, base, ops)?;
    cell_of(alloc, pointer.shape, pointer.text.as_str())
}

/// A lock of a function in the words of the source; one on a class or the root as an assembly text has it.
pub fn lock_words(
    alloc: Global,
    map: &Map,
    function: u16,
    lock: &Lock,
) -> Result<String, AllocError>
    ensures { IfOk result (λ text. string_bytes text ≡ lock_words map.now function lock.now) }
{
    match lock {
        Lock::Expr(expr, effect) => {
            let cell = cell_words(alloc, map, function, expr.base, expr.path.as_slice())?;
            let effect = effect_word(*effect);
            format!(in alloc; "{effect} {cell}")
        }
        Lock::Class(_, _) => assembly_words(alloc, lock),
        Lock::Root(_) => assembly_words(alloc, lock),
    }
}

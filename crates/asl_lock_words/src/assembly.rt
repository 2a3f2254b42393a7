//! Locks as an assembly text has them: `expr r1 .1 write`, `class 0 read`.
ghost use Rattle.std.specs.Prelude.{◌≡◌, ◌++◌, IfOk, OnOk, string_bytes};
ghost use Rattle.std.specs.List.{flat_map};
ghost use Rattle.asl_code.specs.declared.lock.Lock.TheVariants as lock;
ghost use Rattle.asl_lock_words.specs.Assembly.{effect_word, base_word, op_word, spell};

use asl_code::{Base, Effect, Expr, Lock, Op};
use std::alloc::{AllocError, Global};
use std::fmt::Write;

/// The word of an effect.
pub fn effect_word(effect: Effect) -> &'static str
    ensures { result.now ≡ effect_word effect }
{
    match effect {
        Effect::Read => "read",
        Effect::Write => "write",
    }
}

/// Adds the base of an expression.
fn push_base(text: &mut String, base: Base) -> Result<(), AllocError>
    ensures { OnOk result (string_bytes text.new ≡ string_bytes text.old ++ base_word base) }
{
    match base {
        Base::Reg(register) => write!(text, "r{register}"),
        Base::Global(global) => write!(text, "g{global}"),
    }
}

/// Adds an operation of a path.
fn push_op(text: &mut String, op: Op) -> Result<(), AllocError>
    ensures { OnOk result (string_bytes text.new ≡ string_bytes text.old ++ op_word op) }
{
    match op {
        Op::Deref => text.push_str(" *"),
        Op::Off(places) => write!(text, " .{places}"),
    }
}

/// Adds the operations of a path.
fn push_path(text: &mut String, path: &[Op]) -> Result<(), AllocError>
    ensures { OnOk result (string_bytes text.new ≡ string_bytes text.old ++ flat_map op_word path.now) }
{
    for op in path {
        push_op(text, *op)?;
    }
    Ok(())
}

/// Adds an expression as an assembly text has it.
fn push_expr(text: &mut String, expr: &Expr, effect: Effect) -> Result<(), AllocError>
    ensures { OnOk result (string_bytes text.new ≡ string_bytes text.old ++ spell (lock.Expr expr.now effect)) }
{
    text.push_str("expr ")?;
    push_base(text, expr.base)?;
    push_path(text, expr.path.as_slice())?;
    let effect = effect_word(effect);
    write!(text, " {effect}")
}

/// Adds a lock as an assembly text has it: `expr r1 .1 write`, `class 0 read`.
pub fn push_assembly(text: &mut String, lock: &Lock) -> Result<(), AllocError>
    ensures { OnOk result (string_bytes text.new ≡ string_bytes text.old ++ spell lock.now) }
{
    match lock {
        Lock::Expr(expr, effect) => push_expr(text, expr, *effect),
        Lock::Root(effect) => {
            let effect = effect_word(*effect);
            write!(text, "root {effect}")
        }
        Lock::Class(class, effect) => {
            let effect = effect_word(*effect);
            write!(text, "class {class} {effect}")
        }
    }
}

/// A lock as an assembly text has it.
pub fn assembly_words(alloc: Global, lock: &Lock) -> Result<String, AllocError>
    ensures { IfOk result (λ text. string_bytes text ≡ spell lock.now) }
{
    let mut text = String::new(alloc);
    push_assembly(&mut text, lock)?;
    Ok(text)
}

//! The lines of locks.
ghost use Rattle.asl_code.specs.declared.lock.Lock.TheVariants as lock;
ghost use Rattle.std.specs.Prelude.{◌≡◌, ◌≤◌, ◌++◌, length, OnErr, OnOk};
ghost use Rattle.asl_parallel_c.specs.Lists.{base_text, lock_text, mode_text, op_text, ops_text, path_text};

use crate::growth::Growth;
use crate::template::fill;
use asl_code::{Base, Effect, Expr, Lock, Op};
use std::alloc::AllocError;

/// The mode of a lock.
fn mode_of(effect: Effect) -> &'static [u8]
    ensures { result.now ≡ mode_text effect }
{
    match effect {
        Effect::Read => b"ASL_S",
        Effect::Write => b"ASL_X",
    }
}

/// Adds where an expression begins.
fn put_base<G: Growth>(growth: G, text: &mut Vec<u8>, base: Base) -> Result<(), AllocError>
    ensures written { OnOk result (text.new.items ≡ text.old.items ++ base_text base) }
    ensures growth { OnErr result (G.refused growth) }
{
    match base {
        Base::Reg(register) => fill(growth, text, b", ASLR_REGISTER, @", &[u32::from(register)]),
        Base::Global(global) => fill(growth, text, b", ASLR_GLOBAL, @", &[u32::from(global)]),
    }
}

/// Adds an operation of a path.
fn put_op<G: Growth>(growth: G, text: &mut Vec<u8>, op: Op) -> Result<(), AllocError>
    ensures written { OnOk result (text.new.items ≡ text.old.items ++ op_text op) }
    ensures growth { OnErr result (G.refused growth) }
{
    match op {
        Op::Deref => growth.append(text, b", ASLR_FOLLOW"),
        Op::Off(offset) => fill(growth, text, b", @", &[u32::from(offset)]),
    }
}

/// Adds the operations of a path.
fn put_ops<G: Growth>(growth: G, text: &mut Vec<u8>, ops: &[Op]) -> Result<(), AllocError>
    ensures written { OnOk result (text.new.items ≡ text.old.items ++ ops_text ops.now) }
    ensures growth { OnErr result (G.refused growth) }
{
    for op in ops {
        put_op(growth, text, *op)?;
    }
    Ok(())
}

/// Adds a path, and the end of the line.
fn put_path<G: Growth>(growth: G, text: &mut Vec<u8>, path: &[Op]) -> Result<(), AllocError>
    requires { length path.now ≤ 8 }
    ensures written { OnOk result (text.new.items ≡ text.old.items ++ path_text path.now) }
    ensures growth { OnErr result (G.refused growth) }
{
    fill(growth, text, b", {@", &[path.len() as u32])?;
    put_ops(growth, text, path)?;
    growth.append(text, b"}},\n")
}

/// Adds the line of the root.
fn put_root<G: Growth>(growth: G, text: &mut Vec<u8>, effect: Effect) -> Result<(), AllocError>
    ensures written { OnOk result (text.new.items ≡ text.old.items ++ lock_text (lock.Root effect)) }
    ensures growth { OnErr result (G.refused growth) }
{
    growth.append(text, b"  {ASL_ROOT, ")?;
    growth.append(text, mode_of(effect))?;
    growth.append(text, b", ASLR_REGISTER, 0, {0}},\n")
}

/// Adds the line of a class.
fn put_class<G: Growth>(
    growth: G,
    text: &mut Vec<u8>,
    class: u16,
    effect: Effect,
) -> Result<(), AllocError>
    ensures written { OnOk result (text.new.items ≡ text.old.items ++ lock_text (lock.Class class effect)) }
    ensures growth { OnErr result (G.refused growth) }
{
    growth.append(text, b"  {ASL_CLASS, ")?;
    growth.append(text, mode_of(effect))?;
    fill(
        growth,
        text,
        b", ASLR_REGISTER, @, {0}},\n",
        &[u32::from(class)],
    )
}

/// Adds the line of an expression.
fn put_expr<G: Growth>(
    growth: G,
    text: &mut Vec<u8>,
    expr: &Expr,
    effect: Effect,
) -> Result<(), AllocError>
    ensures written { OnOk result (text.new.items ≡ text.old.items ++ lock_text (lock.Expr expr.now effect)) }
    ensures growth { OnErr result (G.refused growth) }
{
    growth.append(text, b"  {ASL_LEAF, ")?;
    growth.append(text, mode_of(effect))?;
    put_base(growth, text, expr.base)?;
    put_path(growth, text, expr.path.as_slice())
}

/// Adds the line of a lock.
pub(crate) fn put_lock<G: Growth>(
    growth: G,
    text: &mut Vec<u8>,
    lock: &Lock,
) -> Result<(), AllocError>
    ensures written { OnOk result (text.new.items ≡ text.old.items ++ lock_text lock.now) }
    ensures growth { OnErr result (G.refused growth) }
{
    match lock {
        Lock::Root(effect) => put_root(growth, text, *effect),
        Lock::Class(class, effect) => put_class(growth, text, *class, *effect),
        Lock::Expr(expr, effect) => put_expr(growth, text, expr, *effect),
    }
}

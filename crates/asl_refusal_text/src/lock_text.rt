//! Locks as an assembly text has them.
ghost use Rattle.std.specs.Prelude.{◌≡◌, ◌+◌, ◌*◌, ◌<◌, ◌≤◌, ◌++◌, length, OnOk, OnErr};
ghost use Rattle.asl_refusal_text.specs.FaultText.{effect_text, base_text, op_text, path_text, lock_text};

use crate::line_text::{Line, push, push_number};
use arrayvec::CapacityError;
use asl_code::{Base, Effect, Expr, Lock, Op};

/// Adds an effect.
fn push_effect(line: &mut Line, effect: Effect) -> Result<(), CapacityError>
    ensures text { OnOk result (line.new.items ≡ line.old.items ++ effect_text effect) }
    ensures adds { length line.new.items ≤ length line.old.items + 5 }
    ensures room { OnErr result (256 < length line.old.items + 5) }
{
    match effect {
        Effect::Read => push(line, "read"),
        Effect::Write => push(line, "write"),
    }
}

/// Adds where an expression begins.
fn push_base(line: &mut Line, base: Base) -> Result<(), CapacityError>
    ensures text { OnOk result (line.new.items ≡ line.old.items ++ base_text base) }
    ensures adds { length line.new.items ≤ length line.old.items + 21 }
    ensures room { OnErr result (256 < length line.old.items + 21) }
{
    match base {
        Base::Reg(register) => {
            push(line, "r")?;
            push_number(line, usize::from(register))
        }
        Base::Global(global) => {
            push(line, "g")?;
            push_number(line, usize::from(global))
        }
    }
}

/// Adds one operation of a path.
fn push_op(line: &mut Line, op: Op) -> Result<(), CapacityError>
    ensures text { OnOk result (line.new.items ≡ line.old.items ++ op_text op) }
    ensures adds { length line.new.items ≤ length line.old.items + 22 }
    ensures room { OnErr result (256 < length line.old.items + 22) }
{
    match op {
        Op::Deref => push(line, " *"),
        Op::Off(offset) => {
            push(line, " .")?;
            push_number(line, usize::from(offset))
        }
    }
}

/// Adds the operations of a path.
fn push_path(line: &mut Line, ops: &[Op]) -> Result<(), CapacityError>
    ensures text { OnOk result (line.new.items ≡ line.old.items ++ path_text ops.now) }
    ensures adds { length line.new.items ≤ length line.old.items + 22 * length ops.now }
    ensures room { OnErr result (256 < length line.old.items + 22 * length ops.now) }
{
    for op in ops {
        push_op(line, *op)?;
    }
    Ok(())
}

/// Adds a lock.
pub fn push_lock(line: &mut Line, lock: &Lock) -> Result<(), CapacityError>
    ensures text { OnOk result (line.new.items ≡ line.old.items ++ lock_text lock.now) }
    ensures adds { length line.new.items ≤ length line.old.items + 208 }
    ensures room { OnErr result (256 < length line.old.items + 208) }
{
    match lock {
        Lock::Root(effect) => {
            push(line, "root ")?;
            push_effect(line, *effect)
        }
        Lock::Class(class, effect) => {
            push(line, "class ")?;
            push_number(line, usize::from(*class))?;
            push(line, " ")?;
            push_effect(line, *effect)
        }
        Lock::Expr(expr, effect) => {
            push(line, "expr ")?;
            push_base(line, expr.base)?;
            push_path(line, expr.path.as_slice())?;
            push(line, " ")?;
            push_effect(line, *effect)
        }
    }
}

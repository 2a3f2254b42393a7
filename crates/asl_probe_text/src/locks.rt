//! Locks by their words.

use crate::values::{effect, effect_name};
use asl_code::{Base, Expr, Lock, Op, Path};
use std::alloc::AllocError;

/// The lock of a text such as `expr r5 * .1 read`, if it spells one.
pub fn lock(text: &str) -> Option<Lock> {
    let mut words = text.split_whitespace();
    match words.next()? {
        "root" => Some(Lock::Root(effect(words.next()?)?)),
        "class" => {
            let class = words.next()?.parse::<u16>().ok()?;
            Some(Lock::Class(class, effect(words.next()?)?))
        }
        "expr" => {
            let base = base(words.next()?)?;
            let mut path = Path::new();
            for word in words {
                if let Some(effect) = effect(word) {
                    return Some(Lock::Expr(Expr { base, path }, effect));
                }
                if path.len() == Path::MAX_LEN {
                    return None;
                }
                path.push(op(word)?);
            }
            None
        }
        _ => None,
    }
}

fn base(word: &str) -> Option<Base> {
    if let Some(register) = word.strip_prefix('r') {
        return Some(Base::Reg(register.parse::<u8>().ok()?));
    }
    Some(Base::Global(word.strip_prefix('g')?.parse::<u16>().ok()?))
}

fn op(word: &str) -> Option<Op> {
    if word == "*" {
        return Some(Op::Deref);
    }
    Some(Op::Off(word.strip_prefix('.')?.parse::<u8>().ok()?))
}

/// The locks, with `; ` between, as a line.
pub fn put_locks(locks: &[Lock], out: &mut String) -> Result<(), AllocError> {
    for (i, lock) in locks.iter().enumerate() {
        if i > 0 {
            out.push_str("; ")?;
        }
        put_lock(lock, out)?;
    }
    out.push('\n')
}

fn put_lock(lock: &Lock, out: &mut String) -> Result<(), AllocError> {
    match lock {
        Lock::Root(_) => out.push_str("root ")?,
        Lock::Class(class, _) => write!(out, "class {class} ")?,
        Lock::Expr(expr, _) => put_expr(expr, out)?,
    }
    out.push_str(effect_name(lock.effect()))
}

fn put_expr(expr: &Expr, out: &mut String) -> Result<(), AllocError> {
    match expr.base {
        Base::Reg(register) => write!(out, "expr r{register} ")?,
        Base::Global(global) => write!(out, "expr g{global} ")?,
    }
    for op in expr.path.as_slice() {
        match op {
            Op::Deref => out.push_str("* ")?,
            Op::Off(places) => write!(out, ".{places} ")?,
        }
    }
    Ok(())
}

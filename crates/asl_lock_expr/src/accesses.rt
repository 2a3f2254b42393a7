//! The locks that an access and the evaluation of a lock need.
ghost use Rattle.std.specs.Prelude.{◌≡◌, ◌≤◌, ◌+◌, ◌++◌, [], OnOk, OnErr};
ghost use Rattle.asl_lock_expr.specs.Links.{HasGrown, accesses, prefixes, dereferenced};
ghost use Rattle.asl_lock_expr.specs.LinksView.{seen};

use crate::link_context::LinkContext;
use crate::path_tests::is_star;
use crate::settled::{add_on, lock_on};
use asl_code::{Base, Effect, Expr, Instr, Lock};
use std::alloc::AllocError;

/// Adds the lock that a load or a store itself needs. After a refusal `into` has what it had, perhaps with more after it.
///
/// # Errors
///
/// An allocation failed.
pub fn add_accesses(
    view: &LinkContext,
    instr: &Instr,
    into: &mut Vec<Lock>,
) -> Result<(), AllocError>
    requires { view.now.k_limit ≤ 8 }
    ensures ok { OnOk result (into.new.items ≡ into.old.items ++ accesses (seen view.now) instr.now) }
    ensures err { OnErr result (HasGrown into.old.items into.new.items) }
{
    match *instr {
        Instr::Load { address, .. } => {
            add_on(view, Base::Reg(address), &[], &[], Effect::Read, into)
        }
        Instr::Store { address, .. } => {
            add_on(view, Base::Reg(address), &[], &[], Effect::Write, into)
        }
        _ => Ok(()),
    }
}

/// Adds the expressions before each `*` of the lock's path, with read: evaluating the lock reads their cells. After a
/// refusal `into` has what it had, perhaps with more after it.
///
/// # Errors
///
/// An allocation failed.
pub fn add_dereferenced(lock: &Lock, into: &mut Vec<Lock>) -> Result<(), AllocError>
    ensures ok { OnOk result (into.new.items ≡ into.old.items ++ dereferenced lock.now) }
    ensures err { OnErr result (HasGrown into.old.items into.new.items) }
{
    match lock {
        Lock::Root(_) | Lock::Class(_, _) => Ok(()),
        Lock::Expr(expr, _) => add_prefixes(expr, into),
    }
}

/// Adds a lock to read on each cell that is read on the way to the expression's.
fn add_prefixes(expr: &Expr, into: &mut Vec<Lock>) -> Result<(), AllocError>
    ensures ok { OnOk result (into.new.items ≡ into.old.items ++ prefixes expr.now.base [] expr.now.path) }
    ensures err { OnErr result (HasGrown into.old.items into.new.items) }
{
    let ops = expr.path.as_slice();
    for (i, op) in ops.iter().enumerate() {
        if is_star(*op) {
            into.push(lock_on(expr.base, &[], &ops[..i], Effect::Read))?;
        }
    }
    Ok(())
}

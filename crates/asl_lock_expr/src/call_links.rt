//! What a lock becomes over a call, and at the call from what it is at the entry of the callee.
ghost use Rattle.std.specs.Prelude.{◌≡◌, ◌≤◌, ◌+◌, ◌++◌, ◌∷◌, ◌||◌, [], OnOk, OnErr, if◌then◌else◌};
ghost use Rattle.std.specs.List.{flat_map};
ghost use Rattle.asl_points_to.specs.Classes.{to};
ghost use Rattle.asl_lock_expr.specs.ClassOf.{class_of, base_class};
ghost use Rattle.asl_lock_expr.specs.Links.{HasGrown, settle, class_lock, is_register, goes_through, renamed};
ghost use Rattle.asl_lock_expr.specs.LinksView.{seen};
ghost use Rattle.asl_lock_expr.specs.Stores.{stores};

use crate::link_context::LinkContext;
use crate::path_tests::{goes_through, is_register};
use crate::settled::{add, add_class, add_on};
use asl_code::{Base, Effect, Expr, Lock};
use std::alloc::AllocError;

/// An expression on the register of the result, or one that goes through a class that the callee may store to, becomes
/// its class; every other stays.
pub(crate) fn add_called(
    view: &LinkContext,
    to: u8,
    callee: u16,
    expr: &Expr,
    effect: Effect,
    into: &mut Vec<Lock>,
) -> Result<(), AllocError>
    requires { view.now.k_limit ≤ 8 }
    ensures ok { OnOk result (into.new.items
        ≡ into.old.items ++ flat_map (settle (seen view.now))
        (if is_register to expr.now.base
        || goes_through view.now.classes.now (stores view.now.writes.now callee)
        (base_class view.now.classes.now view.now.function expr.now.base) expr.now.path
        then class_lock effect (class_of view.now.classes.now view.now.function expr.now)
        else Lock.Expr expr.now effect ∷ [])) }
    ensures err { OnErr result (HasGrown into.old.items into.new.items) }
{
    if is_register(to, expr.base) || goes_through(view, callee, expr) {
        add_class(view, expr, effect, into)
    } else {
        add_on(view, expr.base, &[], expr.path.as_slice(), effect, into)
    }
}

/// Adds what a lock at the entry of a callee with so many parameters becomes at its call, whose arguments are in the
/// registers from `first` on. After a refusal `into` has what it had, perhaps with more after it.
///
/// # Errors
///
/// An allocation failed.
pub fn add_entered(
    view: &LinkContext,
    first: u8,
    params: u8,
    lock: &Lock,
    into: &mut Vec<Lock>,
) -> Result<(), AllocError>
    requires short { view.now.k_limit ≤ 8 }
    requires registers { first + params ≤ 256 }
    ensures ok { OnOk result (into.new.items ≡ into.old.items ++ flat_map (settle (seen view.now)) (renamed first params lock.now)) }
    ensures err { OnErr result (HasGrown into.old.items into.new.items) }
{
    match lock {
        Lock::Root(effect) => add(into, Lock::Root(*effect)),
        Lock::Class(class, effect) => add(into, Lock::Class(*class, *effect)),
        Lock::Expr(expr, effect) => {
            let base = match expr.base {
                Base::Reg(n) if n < params => Base::Reg(first + n),
                Base::Reg(_) => return Ok(()),
                global => global,
            };
            add_on(view, base, &[], expr.path.as_slice(), *effect, into)
        }
    }
}

//! The lock on an expression, or on its class where the path is too long.
ghost use Rattle.std.specs.Prelude.{◌≡◌, ◌≤◌, ◌+◌, ◌++◌, ◌∷◌, [], length, OnOk, OnErr};
ghost use Rattle.std.specs.Option.{option_to_list};
ghost use Rattle.asl_lock_expr.specs.ClassOf.{class_of};
ghost use Rattle.asl_lock_expr.specs.Links.{HasGrown, on, settle, class_lock};
ghost use Rattle.asl_lock_expr.specs.LinksView.{seen};

use crate::class::{base_class, class_of, path_class};
use crate::link_context::LinkContext;
use asl_code::{Base, Effect, Expr, Lock, Op, Path};
use std::alloc::AllocError;

/// Adds the class of the expression.
pub(crate) fn add_class(
    view: &LinkContext,
    expr: &Expr,
    effect: Effect,
    into: &mut Vec<Lock>,
) -> Result<(), AllocError>
    ensures ok { OnOk result (into.new.items
        ≡ into.old.items ++ class_lock effect (class_of view.now.classes.now view.now.function expr.now)) }
    ensures err { OnErr result (HasGrown into.old.items into.new.items) }
{
    match class_of(view.classes, view.function, expr) {
        Some(class) => add(into, Lock::Class(class, effect)),
        None => Ok(()),
    }
}

/// Adds what becomes of the expression on the base, with the path of `front` and then `rest`.
pub(crate) fn add_on(
    view: &LinkContext,
    base: Base,
    front: &[Op],
    rest: &[Op],
    effect: Effect,
    into: &mut Vec<Lock>,
) -> Result<(), AllocError>
    requires short { view.now.k_limit ≤ 8 }
    requires room { length front.now + length rest.now ≤ 9 }
    ensures ok { OnOk result (into.new.items
        ≡ into.old.items ++ settle (seen view.now) (on base (front.now ++ rest.now) effect)) }
    ensures err { OnErr result (HasGrown into.old.items into.new.items) }
{
    match settled(view, base, front, rest, effect) {
        Some(lock) => add(into, lock),
        None => Ok(()),
    }
}

/// The lock on the expression; with too long a path that on its class; without a class none.
fn settled(
    view: &LinkContext,
    base: Base,
    front: &[Op],
    rest: &[Op],
    effect: Effect,
) -> Option<Lock>
    requires short { view.now.k_limit ≤ 8 }
    requires room { length front.now + length rest.now ≤ 9 }
    ensures { option_to_list result ≡ settle (seen view.now) (on base (front.now ++ rest.now) effect) }
{
    let start = base_class(view.classes, view.function, base);
    let class = path_class(view.classes, path_class(view.classes, start, front), rest)?;
    if front.len() + rest.len() <= view.k_limit {
        Some(lock_on(base, front, rest, effect))
    } else {
        Some(Lock::Class(class, effect))
    }
}

/// The lock on the expression of a base, with the path of `front` and then `rest`.
pub(crate) fn lock_on(base: Base, front: &[Op], rest: &[Op], effect: Effect) -> Lock
    requires { length front.now + length rest.now ≤ 8 }
    ensures { result ≡ on base (front.now ++ rest.now) effect }
{
    let mut path = Path::new();
    extend(&mut path, front);
    extend(&mut path, rest);
    Lock::Expr(Expr { base, path }, effect)
}

/// Adds the operations at the end of the path.
fn extend(path: &mut Path, ops: &[Op])
    requires { length path.old + length ops.now ≤ 8 }
    ensures { path.new ≡ path.old ++ ops.now }
{
    for op in ops {
        path.push(*op);
    }
}

/// Adds a lock.
pub(crate) fn add(into: &mut Vec<Lock>, lock: Lock) -> Result<(), AllocError>
    ensures ok { OnOk result (into.new.items ≡ into.old.items ++ lock ∷ []) }
    ensures err { OnErr result (HasGrown into.old.items into.new.items) }
{
    into.push(lock)?;
    Ok(())
}

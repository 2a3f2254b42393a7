//! Tests of the base and the path of a lock expression.
ghost use Rattle.std.specs.Prelude.{◌≡◌, ◌&&◌};
ghost use Rattle.asl_lock_expr.specs.ClassOf.{base_class};
ghost use Rattle.asl_lock_expr.specs.Links.{is_register, is_class, is_stored_to, is_star, begins_with_star, goes_through};
ghost use Rattle.asl_lock_expr.specs.LinksView.{seen};
ghost use Rattle.asl_lock_expr.specs.Stores.{stores};

use crate::class::{base_class, next_class};
use crate::link_context::LinkContext;
use crate::written::Writes;
use asl_code::{Base, Expr, Op};

/// Whether a `*` of the path is at an address of a class that the function may store to.
pub fn goes_through(view: &LinkContext, callee: u16, expr: &Expr) -> bool
    ensures { result ≡ goes_through view.now.classes.now ((seen view.now).stores callee)
        (base_class view.now.classes.now view.now.function expr.now.base) expr.now.path }
{
    let mut class = base_class(view.classes, view.function, expr.base);
    for op in expr.path.as_slice() {
        if is_written(view.writes, callee, *op, class) {
            return true;
        }
        class = next_class(view.classes, *op, class);
    }
    false
}

/// Whether the operation is a `*` at an address of this class.
pub fn is_hit(op: Op, class: Option<u16>, hit: Option<u16>) -> bool
    ensures { result ≡ (is_star op && is_class class hit) }
{
    is_star(op) && is_class(class, hit)
}

/// Whether the operation is a `*` at an address of a class that the function may store to.
fn is_written(writes: &Writes, function: u16, op: Op, class: Option<u16>) -> bool
    ensures { result ≡ (is_star op && is_stored_to (stores writes.now function) class) }
{
    is_star(op) && is_stored_to(writes, function, class)
}

/// Whether the function may store to the class.
fn is_stored_to(writes: &Writes, function: u16, class: Option<u16>) -> bool
    ensures { result ≡ is_stored_to (stores writes.now function) class }
{
    match class {
        Some(class) => writes.has(function, class),
        None => false,
    }
}

/// Whether the base is the register.
pub fn is_register(register: u8, base: Base) -> bool
    ensures { result ≡ is_register register base }
{
    match base {
        Base::Reg(n) => n == register,
        Base::Global(_) => false,
    }
}

fn is_class(class: Option<u16>, other: Option<u16>) -> bool
    ensures { result ≡ is_class class other }
{
    match (class, other) {
        (Some(class), Some(other)) => class == other,
        _ => false,
    }
}

pub(crate) fn is_star(op: Op) -> bool
    ensures { result ≡ is_star op }
{
    match op {
        Op::Deref => true,
        Op::Off(_) => false,
    }
}

/// Whether the path begins with `*`.
pub fn begins_with_star(ops: &[Op]) -> bool
    ensures { result ≡ begins_with_star ops.now }
{
    match ops.first() {
        Some(op) => is_star(*op),
        None => false,
    }
}

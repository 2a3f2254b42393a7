//! Locks that stay as they are over an instruction.
ghost use Rattle.std.specs.Prelude.{◌≡◌, ◌≢◌, ◌∷◌, ◌↔◌, ◌&&◌, ◌||◌, [], IsTrue};
ghost use Rattle.asl_code.specs.declared.value.Effect.{Effect as AnyEffect};
ghost use Rattle.asl_code.specs.declared.lock.Expr.{Expr as AnyExpr};
ghost use Rattle.asl_points_to.specs.Classes.{to};
ghost use Rattle.asl_lock_expr.specs.ClassOf.{base_class};
ghost use Rattle.asl_lock_expr.specs.Links.{IsSettled, is_register, begins_with_star, before, link};
ghost use Rattle.asl_lock_expr.specs.LinksView.{seen};
ghost use Rattle.asl_lock_expr.specs.Meeting.{meets};

use crate::class::{base_class, class_of, next_class};
use crate::link_context::LinkContext;
use crate::path_tests::{begins_with_star, goes_through, is_hit, is_register};
use asl_code::{Expr, Instr, Lock};

/// Whether the lock after the instruction stays as it is before it, and becomes no other: a lock on the root or a class does,
/// and so does an expression that has a class and no path that is too long, where the instruction does not touch it.
pub fn stays(view: &LinkContext, instr: &Instr, lock: &Lock) -> bool
    ensures stays { IsTrue result → link (seen view.now) instr.now lock.now ≡ lock.now ∷ [] }
    ensures untouched { (e : AnyExpr) (effect : AnyEffect) → lock.now ≡ Lock.Expr e effect → IsSettled (seen view.now) lock.now
        → before (seen view.now) instr.now e effect ≡ lock.now ∷ [] → IsTrue result }
    ensures others { ((e : AnyExpr) (effect : AnyEffect) → lock.now ≢ Lock.Expr e effect) → IsTrue result }
{
    match lock {
        Lock::Root(_) | Lock::Class(_, _) => true,
        Lock::Expr(expr, _) => is_settled(view, expr) && is_untouched(view, instr, expr),
    }
}

/// Whether the expression is not too long, and has a class.
pub fn is_settled(view: &LinkContext, expr: &Expr) -> bool
    ensures { (effect : AnyEffect) → IsTrue result ↔ IsSettled (seen view.now) (Lock.Expr expr.now effect) }
{
    expr.path.len() <= view.k_limit && class_of(view.classes, view.function, expr).is_some()
}

/// Whether the instruction leaves the expression as it is: it sets another register, and it stores to no cell that the
/// expression reads.
fn is_untouched(view: &LinkContext, instr: &Instr, expr: &Expr) -> bool
    ensures { (effect : AnyEffect) → IsTrue result ↔ (before (seen view.now) instr.now expr.now effect ≡ Lock.Expr expr.now effect ∷ []) }
{
    match *instr {
        Instr::Move { to, from } => to == from || !is_register(to, expr.base),
        Instr::GlobalAddress { to, .. }
        | Instr::FieldAddress { to, .. }
        | Instr::Load { to, .. }
        | Instr::SetInt { to, .. }
        | Instr::SetNull { to }
        | Instr::Add { to, .. }
        | Instr::Subtract { to, .. }
        | Instr::LessThan { to, .. }
        | Instr::Equals { to, .. }
        | Instr::New { to, .. } => !is_register(to, expr.base),
        Instr::Store { address, .. } => !is_stored_over(view, address, expr),
        Instr::Call { to, function, .. } => {
            !is_register(to, expr.base) && !goes_through(view, function, expr)
        }
        Instr::Jump { .. }
        | Instr::JumpIfZero { .. }
        | Instr::Return { .. }
        | Instr::Output { .. }
        | Instr::Acquire { .. }
        | Instr::Release => true,
    }
}

/// Whether a store at the address may write a cell that the expression reads.
pub fn is_stored_over(view: &LinkContext, address: u8, expr: &Expr) -> bool
    ensures { result ≡ ((is_register address expr.now.base && begins_with_star expr.now.path)
        || meets view.now.classes.now (to view.now.classes.now view.now.function address)
        (base_class view.now.classes.now view.now.function expr.now.base) expr.now.path) }
{
    (is_register(address, expr.base) && begins_with_star(expr.path.as_slice()))
        || meets(view, address, expr)
}

/// Whether a `*` of the path is at an address of the class that the register points to.
fn meets(view: &LinkContext, address: u8, expr: &Expr) -> bool
    ensures { result ≡ meets view.now.classes.now (to view.now.classes.now view.now.function address)
        (base_class view.now.classes.now view.now.function expr.now.base) expr.now.path }
{
    let hit = view.classes.to(view.function, address);
    let mut class = base_class(view.classes, view.function, expr.base);
    for op in expr.path.as_slice() {
        if is_hit(*op, class, hit) {
            return true;
        }
        class = next_class(view.classes, *op, class);
    }
    false
}

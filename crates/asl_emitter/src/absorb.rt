//! Which lock serves in place of another (`SufficesFor` and `Absorbs` of specs/Lists). Cases: tests/cases/asl_emitter/reducing.txt.
ghost use Rattle.std.specs.Prelude.{◌≡◌, ◌<◌, ◌↔◌, ℕ, true, IsTrue, length, slice_get};
ghost use Rattle.asl_code.specs.declared.value.Effect.{Effect as AnyEffect};
ghost use Rattle.asl_lock_expr.specs.ClassOf.{class_of};
ghost use Rattle.asl_lock_expr.specs.Order.{AreInOrder};
ghost use Rattle.asl_lock_expr.specs.Links.{IsOne};
ghost use Rattle.asl_soundness.specs.Covering.{covers_effect};
ghost use Rattle.asl_emitter.specs.Lists.{SufficesFor, IsFree};
ghost use Rattle.asl_emitter.specs.Above.{above, above_expr, classes_above, is_expr, stronger_class, stronger_expr, HasOneOf};

use asl_code::{Effect, Expr, Lock};
use asl_lock_expr::{class_of, is_one};
use asl_points_to::Classes;

/// Whether the first effect is at least as strong as the second.
pub fn covers(effect: Effect, other: Effect) -> bool
    ensures { result ≡ covers_effect effect other }
{
    match effect {
        Effect::Write => true,
        Effect::Read => other == Effect::Read,
    }
}

/// Whether both are the same expression.
fn are_same_expr(expr: &Expr, other: &Expr) -> bool
    ensures { IsTrue result ↔ (expr.now ≡ other.now) }
{
    expr == other
}

/// Whether the first lock does in place of the second. Callers above ask this; a list is reduced by `is_free`.
pub fn suffices_for(classes: &Classes, function: u16, lock: &Lock, other: &Lock) -> bool
    ensures { IsTrue result ↔ SufficesFor classes.now function lock.now other.now }
{
    match (lock, other) {
        (Lock::Class(class, effect), Lock::Class(same, weaker)) => {
            class == same && covers(*effect, *weaker)
        }
        (Lock::Class(class, effect), Lock::Expr(expr, weaker)) => {
            covers(*effect, *weaker) && class_of(classes, function, expr) == Some(*class)
        }
        (Lock::Expr(expr, effect), Lock::Expr(same, weaker)) => {
            are_same_expr(expr, same) && covers(*effect, *weaker)
        }
        _ => false,
    }
}

/// Whether no lock of a list in order absorbs this one, which stands at a place of it. Only a lock on its class, and one on the
/// same expression or class with a stronger effect, can.
pub fn is_free(classes: &Classes, function: u16, given: &[Lock], at: usize, lock: &Lock) -> bool
    requires order { AreInOrder given.now }
    requires at { slice_get given.now at ≡ Some lock.now }
    ensures { IsTrue result ↔ IsFree classes.now function (IsOne given.now) lock.now }
{
    !has_absorber(classes, function, given, at, lock)
}

/// Whether a list in order has one of the locks that absorb this one, which stands at a place of it.
fn has_absorber(classes: &Classes, function: u16, given: &[Lock], at: usize, lock: &Lock) -> bool
    requires order { AreInOrder given.now }
    requires at { slice_get given.now at ≡ Some lock.now }
    ensures { IsTrue result ↔ HasOneOf given.now (above classes.now function lock.now) }
{
    match lock {
        Lock::Root(_) => false,
        Lock::Class(class, effect) => has_stronger(given, *class, *effect),
        Lock::Expr(expr, effect) => has_expr_absorber(classes, function, given, at, expr, *effect),
    }
}

/// Whether a list in order has one of the locks that absorb the one on the expression with this effect, which stands at a place
/// of it.
fn has_expr_absorber(
    classes: &Classes,
    function: u16,
    given: &[Lock],
    at: usize,
    expr: &Expr,
    effect: Effect,
) -> bool
    requires order { AreInOrder given.now }
    requires at { slice_get given.now at ≡ Some (Lock.Expr expr.now effect) }
    ensures { IsTrue result ↔ HasOneOf given.now (above_expr classes.now function expr.now effect) }
{
    if has_class_above(classes, function, given, expr, effect) {
        return true;
    }
    is_before_stronger(given, at, expr, effect)
}

/// Whether a list in order has a lock on the class with a stronger effect.
fn has_stronger(given: &[Lock], class: u16, effect: Effect) -> bool
    requires { AreInOrder given.now }
    ensures { IsTrue result ↔ HasOneOf given.now (stronger_class class effect) }
{
    match effect {
        Effect::Read => is_one(given, &Lock::Class(class, Effect::Write)),
        Effect::Write => false,
    }
}

/// Whether a list in order has a lock on the class of the expression that absorbs one on it with this effect. Locks on classes
/// come before those on expressions.
fn has_class_above(
    classes: &Classes,
    function: u16,
    given: &[Lock],
    expr: &Expr,
    effect: Effect,
) -> bool
    requires { AreInOrder given.now }
    ensures { IsTrue result ↔ HasOneOf given.now (classes_above (class_of classes.now function expr.now) effect) }
{
    if begins_with_expr(given) {
        return false;
    }
    match class_of(classes, function, expr) {
        Some(class) => has_class(given, class, effect),
        None => false,
    }
}

/// Whether a list in order begins with a lock on an expression; then it has none on a class.
fn begins_with_expr(given: &[Lock]) -> bool
    requires { AreInOrder given.now }
    ensures { result ≡ true → (class : ℕ) (effect : AnyEffect) → ¬ IsOne given.now (Lock.Class class effect) }
{
    match given.first() {
        Some(first) => is_expr(first),
        None => false,
    }
}

/// Whether the lock is on a single cell.
fn is_expr(lock: &Lock) -> bool
    ensures { result ≡ is_expr lock.now }
{
    match lock {
        Lock::Expr(_, _) => true,
        _ => false,
    }
}

/// Whether a list in order has a lock on the class with at least this effect.
fn has_class(given: &[Lock], class: u16, effect: Effect) -> bool
    requires { AreInOrder given.now }
    ensures { IsTrue result ↔ HasOneOf given.now (classes_above (Some class) effect) }
{
    if is_one(given, &Lock::Class(class, Effect::Write)) {
        return true;
    }
    match effect {
        Effect::Read => is_one(given, &Lock::Class(class, Effect::Read)),
        Effect::Write => false,
    }
}

/// Whether a list in order has a stronger lock on the same expression than the one at a place, which has this effect. It would be
/// the next. So of a cell that is read and written only the write lock stays.
fn is_before_stronger(given: &[Lock], at: usize, expr: &Expr, effect: Effect) -> bool
    requires order { AreInOrder given.now }
    requires there { at < length given.now }
    requires at { slice_get given.now at ≡ Some (Lock.Expr expr.now effect) }
    ensures { IsTrue result ↔ HasOneOf given.now (stronger_expr expr.now effect) }
{
    match effect {
        Effect::Read => match given.get(at + 1) {
            Some(next) => may_write_on(next, expr),
            None => false,
        },
        Effect::Write => false,
    }
}

/// Whether the lock is on the expression and may write.
fn may_write_on(lock: &Lock, expr: &Expr) -> bool
    ensures { IsTrue result ↔ (lock.now ≡ Lock.Expr expr.now Effect.Write) }
{
    match lock {
        Lock::Expr(same, effect) => is_write_on(same, *effect, expr),
        _ => false,
    }
}

/// Whether a lock on the first expression with this effect is one on the second that may write.
fn is_write_on(same: &Expr, effect: Effect, expr: &Expr) -> bool
    ensures { IsTrue result ↔ (Lock.Expr same.now effect ≡ Lock.Expr expr.now Effect.Write) }
{
    match effect {
        Effect::Write => are_same_expr(same, expr),
        Effect::Read => false,
    }
}

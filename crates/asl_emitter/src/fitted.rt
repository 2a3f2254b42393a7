//! Lists of at most 256 locks.
ghost use Rattle.std.specs.Prelude.{◌≡◌, ◌<◌, ◌≤◌, ◌⊎◌, length, IfOk};
ghost use Rattle.std.specs.List.{flat_map};
ghost use Rattle.asl_code.specs.Versions.{newest_locks};
ghost use Rattle.asl_lock_expr.specs.Links.{IsOne};
ghost use Rattle.asl_lock_expr.specs.Order.{AreInOrder};
ghost use Rattle.asl_emitter.specs.Lists.{IsFitted, IsCoarse, as_class, strongest};

use crate::reduced::{reduce, reduce_in_order};
use asl_code::{Effect, Lock, NEWEST_LIMITS};
use asl_lock_expr::class_of;
use asl_points_to::Classes;
use std::alloc::{AllocError, Global};

/// The most locks that a list of an inferred program may have.
pub const MAX_LOCKS: usize = NEWEST_LIMITS.locks;

/// The locks of a function fitted to a list of at most 256, as many as the newest version has: reduced; where more are left,
/// their classes, reduced; where more are left still, one lock on the root with the strongest effect (`docs/ANALYSIS.md`, "Lists").
///
/// # Errors
///
/// An allocation failed.
pub fn fit(
    alloc: Global,
    classes: &Classes,
    function: u16,
    given: &[Lock],
) -> Result<Vec<Lock>, AllocError>
    ensures { IfOk result (λ v. IsFitted classes.now function newest_locks (IsOne given.now) v.items) }
{
    let fine = reduce(alloc, classes, function, given)?;
    at_most(alloc, classes, function, fine)
}

/// The same of locks that are in order.
pub fn fit_in_order(
    alloc: Global,
    classes: &Classes,
    function: u16,
    given: Vec<Lock>,
) -> Result<Vec<Lock>, AllocError>
    requires { AreInOrder given.items }
    ensures { IfOk result (λ v. IsFitted classes.now function newest_locks (IsOne given.items) v.items) }
{
    let fine = reduce_in_order(alloc, classes, function, given)?;
    at_most(alloc, classes, function, fine)
}

/// The locks as they are, where they are at most 256; else their classes or the root.
fn at_most(
    alloc: Global,
    classes: &Classes,
    function: u16,
    fine: Vec<Lock>,
) -> Result<Vec<Lock>, AllocError>
    ensures { IfOk result (λ v. ((length fine.items ≤ newest_locks) × (v.items ≡ fine.items)) ⊎ ((newest_locks < length fine.items) × IsCoarse classes.now function newest_locks fine.items v.items)) }
{
    if fine.len() <= MAX_LOCKS {
        return Ok(fine);
    }
    coarsen(alloc, classes, function, &fine)
}

/// The classes of the locks, reduced; where more than 256 are left, one lock on the root with the strongest effect.
fn coarsen(
    alloc: Global,
    classes: &Classes,
    function: u16,
    fine: &[Lock],
) -> Result<Vec<Lock>, AllocError>
    ensures { IfOk result (λ v. IsCoarse classes.now function newest_locks fine.now v.items) }
{
    let coarse = as_classes(alloc, classes, function, fine)?;
    let coarse = reduce(alloc, classes, function, &coarse)?;
    if coarse.len() <= MAX_LOCKS {
        return Ok(coarse);
    }
    let mut root = Vec::new(alloc);
    root.push(Lock::Root(strongest(&coarse)))?;
    Ok(root)
}

/// The classes of the expressions that have one, and the other locks as they are.
fn as_classes(
    alloc: Global,
    classes: &Classes,
    function: u16,
    fine: &[Lock],
) -> Result<Vec<Lock>, AllocError>
    ensures { IfOk result (λ v. v.items ≡ flat_map (as_class classes.now function) fine.now) }
{
    let mut coarse = Vec::new(alloc);
    for lock in fine {
        match lock {
            Lock::Root(effect) => coarse.push(Lock::Root(*effect))?,
            Lock::Class(class, effect) => coarse.push(Lock::Class(*class, *effect))?,
            Lock::Expr(expr, effect) => {
                if let Some(class) = class_of(classes, function, expr) {
                    coarse.push(Lock::Class(class, *effect))?;
                }
            }
        }
    }
    Ok(coarse)
}

/// The strongest effect of the locks.
fn strongest(locks: &[Lock]) -> Effect
    ensures { result ≡ strongest locks.now }
{
    for lock in locks {
        if lock.effect() == Effect::Write {
            return Effect::Write;
        }
    }
    Effect::Read
}

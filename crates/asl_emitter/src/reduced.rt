//! What is left of a set of locks once each that another absorbs is taken out.
ghost use Rattle.std.specs.Prelude.{◌≡◌, ◌↔◌, true, IfOk};
ghost use Rattle.asl_code.specs.declared.lock.Lock.{Lock as AnyLock};
ghost use Rattle.asl_lock_expr.specs.Order.{AreInOrder};
ghost use Rattle.asl_lock_expr.specs.Links.{IsOne};
ghost use Rattle.asl_emitter.specs.Lists.{IsFree, IsReduced};

use crate::absorb::is_free;
use asl_code::Lock;
use asl_lock_expr::add_in_order;
use asl_points_to::Classes;
use std::alloc::{AllocError, Global};

/// The locks of a function that no other of them absorbs, each once, in order (`docs/ANALYSIS.md`, "Lists").
///
/// # Errors
///
/// An allocation failed.
pub fn reduce(
    alloc: Global,
    classes: &Classes,
    function: u16,
    given: &[Lock],
) -> Result<Vec<Lock>, AllocError>
    ensures { IfOk result (λ v. IsReduced classes.now function (IsOne given.now) v.items) }
{
    let all = in_order(alloc, given)?;
    reduce_in_order(alloc, classes, function, all)
}

/// The same of locks that are in order: the very list, where none of them absorbs another.
pub fn reduce_in_order(
    alloc: Global,
    classes: &Classes,
    function: u16,
    given: Vec<Lock>,
) -> Result<Vec<Lock>, AllocError>
    requires { AreInOrder given.items }
    ensures { IfOk result (λ v. IsReduced classes.now function (IsOne given.items) v.items) }
{
    if are_free(classes, function, &given) {
        return Ok(given);
    }
    keep_free(alloc, classes, function, &given)
}

/// Whether no lock of a list in order absorbs another.
fn are_free(classes: &Classes, function: u16, given: &[Lock]) -> bool
    requires { AreInOrder given.now }
    ensures { result ≡ true → (a : AnyLock) → IsOne given.now a → IsFree classes.now function (IsOne given.now) a }
{
    for at in 0..given.len() {
        if !is_free(classes, function, given, at, &given[at]) {
            return false;
        }
    }
    true
}

/// The locks of a list in order that no other of them absorbs.
fn keep_free(
    alloc: Global,
    classes: &Classes,
    function: u16,
    given: &[Lock],
) -> Result<Vec<Lock>, AllocError>
    requires { AreInOrder given.now }
    ensures { IfOk result (λ v. IsReduced classes.now function (IsOne given.now) v.items) }
{
    let mut reduced = Vec::new(alloc);
    for at in 0..given.len() {
        let lock = &given[at];
        if is_free(classes, function, given, at, lock) {
            reduced.push(copied(lock)?)?;
        }
    }
    Ok(reduced)
}

/// The locks, each once, in order.
fn in_order(alloc: Global, given: &[Lock]) -> Result<Vec<Lock>, AllocError>
    ensures order { IfOk result (λ v. AreInOrder v.items) }
    ensures locks { IfOk result (λ v. (a : AnyLock) → IsOne v.items a ↔ IsOne given.now a) }
{
    let mut all = Vec::new(alloc);
    for lock in given {
        add_in_order(&mut all, copied(lock)?)?;
    }
    Ok(all)
}

/// The same lock.
fn copied(lock: &Lock) -> Result<Lock, AllocError>
    ensures { IfOk result (λ copy. copy ≡ lock.now) }
{
    lock.clone()
}

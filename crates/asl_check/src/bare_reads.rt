//! The first lock that the expressions of a list read and that the list lacks. Prefixes are made one at a time, so no memory is wanted.
ghost use Rattle.std.specs.Prelude.{◌≡◌, ◌↔◌, [], IsTrue, MatchOption};
ghost use Rattle.asl_code.specs.declared.path.Op.TheVariants.{Deref};
ghost use Rattle.asl_lock_expr.specs.Links.{IsOne, prefixes, dereferenced};
ghost use Rattle.asl_check.specs.Checked.{AreUnder, IsFirstBare, reads_of};

use crate::covers::{LIKELY, is_under_one};
use crate::locks::read_on;
use asl_code::{Expr, Lock, Op};
use asl_points_to::Classes;

/// Whether the operation reads a cell.
fn is_star(op: Op) -> bool
    ensures { IsTrue result ↔ (op ≡ Deref) }
{
    match op {
        Op::Deref => true,
        Op::Off(_) => false,
    }
}

/// The first lock that the evaluation of an expression reads and that no lock of the list covers. `likely` is as in `is_under_one`.
fn first_of_expr(
    classes: &Classes,
    function: u16,
    list: &[Lock],
    expr: &Expr,
    likely: &mut [usize; LIKELY],
) -> Option<Lock>
    ensures { MatchOption result (AreUnder classes.now function list.now (IsOne (prefixes expr.now.base [] expr.now.path)))
        (IsFirstBare classes.now function list.now (prefixes expr.now.base [] expr.now.path)) }
{
    let ops = expr.path.as_slice();
    for (at, op) in ops.iter().enumerate() {
        if !is_star(*op) {
            continue;
        }
        let read = read_on(expr.base, &ops[..at]);
        if !is_under_one(classes, function, list, &read, likely) {
            return Some(read);
        }
    }
    None
}

/// The same of any lock.
fn first_of_lock(
    classes: &Classes,
    function: u16,
    list: &[Lock],
    lock: &Lock,
    likely: &mut [usize; LIKELY],
) -> Option<Lock>
    ensures { MatchOption result (AreUnder classes.now function list.now (IsOne (dereferenced lock.now)))
        (IsFirstBare classes.now function list.now (dereferenced lock.now)) }
{
    match lock {
        Lock::Root(_) | Lock::Class(_, _) => None,
        Lock::Expr(expr, _) => first_of_expr(classes, function, list, expr, likely),
    }
}

/// The first lock that the evaluation of a list reads and that no lock of the list covers.
pub fn first_bare_read(classes: &Classes, function: u16, list: &[Lock]) -> Option<Lock>
    ensures { MatchOption result (AreUnder classes.now function list.now (IsOne (reads_of list.now)))
        (IsFirstBare classes.now function list.now (reads_of list.now)) }
{
    let mut likely = [0; LIKELY];
    for lock in list {
        if let Some(read) = first_of_lock(classes, function, list, lock, &mut likely) {
            return Some(read);
        }
    }
    None
}

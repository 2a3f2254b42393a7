//! The order of locks, and lists in that order.
ghost use Rattle.std.specs.Prelude.{IsTrue, ◌≡◌, ◌<◌, ◌≤◌, ◌↔◌, ◌⊎◌, OnOk, OnErr, IfNone, IfSome, length, insert};
ghost use Rattle.asl_lock_expr.specs.Links.{IsOne};
ghost use Rattle.asl_lock_expr.specs.Order.{lock_cmp, AreInOrder};
ghost use Rattle.asl_lock_expr.specs.Placing.{placed};

use asl_code::Lock;
use std::alloc::AllocError;
use std::cmp::Ordering;

/// Puts the lock at its place in a list in order, unless it is there (`docs/ANALYSIS.md`, "The order of locks").
///
/// # Errors
///
/// An allocation failed; the list is as it was.
pub fn add_in_order(locks: &mut Vec<Lock>, new: Lock) -> Result<(), AllocError>
    requires { AreInOrder locks.old.items }
    ensures order { AreInOrder locks.new.items }
    ensures locks { OnOk result ((n : _) → IsOne locks.new.items n ↔ (IsOne locks.old.items n ⊎ (new ≡ n))) }
    ensures err { OnErr result (locks.new.items ≡ locks.old.items) }
{
    if let Some(place) = place(locks, &new) {
        locks.insert(place, new)?;
    }
    Ok(())
}

/// Whether the lock is one of a list in order.
pub fn is_one(locks: &[Lock], lock: &Lock) -> bool
    requires { AreInOrder locks.now }
    ensures { IsTrue result ↔ IsOne locks.now lock.now }
{
    place(locks, lock).is_none()
}

/// Where the lock goes in a list in order, unless it is there.
fn place(locks: &[Lock], new: &Lock) -> Option<usize>
    requires { AreInOrder locks.now }
    ensures bound { IfSome result (λ i. i ≤ length locks.now) }
    ensures place { IfSome result (λ i. placed locks.now new.now ≡ insert locks.now i new.now) }
    ensures there { IfNone result (placed locks.now new.now ≡ locks.now) }
{
    let mut low = 0;
    let mut high = locks.len();
    while low < high {
        let middle = probed(low, high, locks.len());
        match compare(&locks[middle], new) {
            Ordering::Less => low = middle + 1,
            Ordering::Equal => return None,
            Ordering::Greater => high = middle,
        }
    }
    Some(low)
}

/// The place at which a list is looked at, where a lock goes between two places of it: the last of the list, since locks mostly
/// come in their order, then the first, since those on classes come before all others, and then the middle.
fn probed(low: usize, high: usize, len: usize) -> usize
    requires order { low < high }
    requires within { high ≤ len }
    ensures above { low ≤ result }
    ensures below { result < high }
{
    if high == len {
        return high - 1;
    }
    if low == 0 && high == len - 1 {
        return 0;
    }
    low + (high - low) / 2
}

/// Which lock comes first.
#[tactic(auto, using(crate::proofs::Derived::derived_is))]
fn compare(a: &Lock, b: &Lock) -> Ordering
    ensures { result ≡ lock_cmp a.now b.now }
{
    a.cmp(b)
}

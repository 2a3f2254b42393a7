//! Which lock covers another.
ghost use Rattle.std.specs.Prelude.{◌≡◌, ◌↔◌, ◌<◌, IsTrue, MatchOption};
ghost use Rattle.asl_soundness.specs.Covering.{CoversLock};
ghost use Rattle.asl_check.specs.Checked.{IsUnderOne};
ghost use Rattle.asl_check.specs.KnownLists.{own_class};

use asl_code::Lock;
use asl_emitter::{covers, suffices_for};
use asl_lock_expr::class_of;
use asl_points_to::Classes;

/// How many likely places there are: one for each of the 1,024 classes that an image may have, and the last for locks of no class.
pub const LIKELY: usize = 1025;

/// Whether a lock of the list covers this one. `likely` has for each class where the lock stands that covered the last lock of this
/// class: most locks of a class lie under the same. It is tried first, and others only after it.
pub fn is_under_one(
    classes: &Classes,
    function: u16,
    list: &[Lock],
    lock: &Lock,
    likely: &mut [usize; LIKELY],
) -> bool
    ensures { IsTrue result ↔ IsUnderOne classes.now function list.now lock.now }
{
    let class = own_class(classes, function, lock);
    let slot = slot(class);
    if is_under(classes, function, list, likely[slot], lock, class) {
        return true;
    }
    match cover_place(classes, function, list, lock, class) {
        Some(place) => {
            likely[slot] = place;
            true
        }
        None => false,
    }
}

/// The class of a lock: the one that it is on, or that of the cell that its expression denotes.
fn own_class(classes: &Classes, function: u16, lock: &Lock) -> Option<u16>
    ensures { result ≡ own_class classes.now function lock.now }
{
    match lock {
        Lock::Root(_) => None,
        Lock::Class(class, _) => Some(*class),
        Lock::Expr(expr, _) => class_of(classes, function, expr),
    }
}

/// Where the likely place of a class stands.
fn slot(class: Option<u16>) -> usize
    ensures { result < 1025 }
{
    match class {
        Some(class) => usize::from(class) % (LIKELY - 1),
        None => LIKELY - 1,
    }
}

/// Whether the first lock covers the second, which is of this class.
fn covers_lock(
    classes: &Classes,
    function: u16,
    over: &Lock,
    lock: &Lock,
    class: Option<u16>,
) -> bool
    requires { class ≡ own_class classes.now function lock.now }
    ensures { IsTrue result ↔ CoversLock classes.now function over.now lock.now }
{
    match over {
        Lock::Root(effect) => covers(*effect, lock.effect()),
        Lock::Class(own, effect) => class == Some(*own) && covers(*effect, lock.effect()),
        Lock::Expr(_, _) => suffices_for(classes, function, over, lock),
    }
}

/// Whether the lock at a place of the list covers this one, which is of this class.
fn is_under(
    classes: &Classes,
    function: u16,
    list: &[Lock],
    place: usize,
    lock: &Lock,
    class: Option<u16>,
) -> bool
    requires { class ≡ own_class classes.now function lock.now }
    ensures { IsTrue result → IsUnderOne classes.now function list.now lock.now }
{
    match list.get(place) {
        Some(over) => covers_lock(classes, function, over, lock, class),
        None => false,
    }
}

/// Where a lock of the list stands that covers this one, which is of this class.
fn cover_place(
    classes: &Classes,
    function: u16,
    list: &[Lock],
    lock: &Lock,
    class: Option<u16>,
) -> Option<usize>
    requires { class ≡ own_class classes.now function lock.now }
    ensures { MatchOption result (¬ IsUnderOne classes.now function list.now lock.now) (λ _. IsUnderOne classes.now function list.now lock.now) }
{
    let mut place = 0;
    for over in list {
        if covers_lock(classes, function, over, lock, class) {
            return Some(place);
        }
        place += 1;
    }
    None
}

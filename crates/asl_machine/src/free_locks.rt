//! Whether another thread is in the way of a list of locks, without the list's request.
ghost use Rattle.std.specs.Prelude.{◌≡◌, true, false, All};
ghost use Rattle.asl_lock_forest.specs.Holding.{can_grant};
ghost use Rattle.asl_machine.specs.Access.{AreOfClasses};
ghost use Rattle.asl_machine.specs.Request.{LockOfClass, asks_of, request_of};
ghost use Rattle.asl_machine.specs.Asking.{AreFree, IsHeldUp};

use crate::heap::Heap;
use crate::packed_value::PackedValue;
use crate::request::{is_free, node_of};
use asl_code::Lock;
use asl_lock_forest::Forest;

/// Whether no other thread is in the way of any of the locks.
pub(crate) fn are_free(
    locks: &[Lock],
    regs: &[PackedValue],
    heap: &Heap,
    forest: &Forest,
    t: u32,
) -> bool
    requires locks { All (LockOfClass forest.now.classes) locks.now }
    requires classes { AreOfClasses forest.now.classes heap.now }
    ensures { result ≡ can_grant forest.now.holding t (request_of heap.now regs.now locks.now) }
{
    for lock in locks {
        if !is_lock_free(lock, regs, heap, forest, t) {
            return false;
        }
    }
    true
}

/// Whether no other thread is in the way of what the lock asks.
fn is_lock_free(lock: &Lock, regs: &[PackedValue], heap: &Heap, forest: &Forest, t: u32) -> bool
    requires of_class { LockOfClass forest.now.classes lock.now }
    requires classes { AreOfClasses forest.now.classes heap.now }
    ensures free { result ≡ true → AreFree forest.now.holding t (asks_of heap.now regs.now lock.now) }
    ensures kept { result ≡ false → IsHeldUp forest.now.holding t (asks_of heap.now regs.now lock.now) }
{
    match node_of(lock, regs, heap) {
        Some(node) => is_free(forest, t, node, lock.effect()),
        None => true,
    }
}

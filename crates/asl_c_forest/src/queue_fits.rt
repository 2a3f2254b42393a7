//! Whether what C asks of a queue can be done: each condition of the queue's contracts, tested without an allocation.
ghost use Rattle.std.specs.Prelude.{◌≡◌, ◌≢◌, ◌<◌, ◌≤◌, [], IsTrue, map, length, vec_capacity};
ghost use Rattle.asl_lock_forest.specs.Holding.{HoldsNothing};
ghost use Rattle.asl_lock_queue.specs.Waiting.{IsAbsent};
ghost use Rattle.asl_lock_queue.specs.QueueState.{IsAskable};
ghost use Rattle.asl_lock_queue.specs.Asks.{ask_of};
ghost use Rattle.asl_c_forest.specs.Status.{holds_nothing};
ghost use Rattle.asl_c_forest.specs.QueueStatus.{queue_fault, leave_fault};

use crate::c_request::read_plain;
use crate::request_fits::{has_classes, has_kinds, has_modes, has_parents, is_rising, is_thread};
use asl_lock_forest::Node;
use asl_lock_queue::{Ask, Queue};
use asl_mode_lanes::Mode;

/// Whether the thread can ask this, which is read into a vector with room for it in the same passes. Where not, what stands there then
/// is of no use.
#[tactic(auto, unfolding(crate::specs::QueueStatus::queue_fault))]
pub fn reads_well(queue: &Queue, thread: u32, asks: &[Ask], request: &mut Vec<(Node, Mode)>) -> bool
    requires empty { request.old.items ≡ [] }
    requires fits { length asks.now ≤ vec_capacity request.old }
    ensures right { IsTrue result → queue_fault queue.now thread asks.now ≡ 0 }
    ensures there { IsTrue result → thread < queue.now.threads }
    ensures askable { IsTrue result → IsAskable queue.now.classes (map ask_of asks.now) }
    ensures nothing { IsTrue result → HoldsNothing queue.now.holding thread }
    ensures absent { IsTrue result → IsAbsent thread queue.now.waiting }
    ensures read { IsTrue result → request.new.items ≡ map ask_of asks.now }
    ensures room { vec_capacity request.old ≤ vec_capacity request.new }
{
    if !is_thread(queue.threads(), thread) || !read_plain(request, queue.classes(), asks) {
        return false;
    }
    let read = request.as_slice();
    if !asl_lock_queue::is_rising(read) || !asl_lock_queue::has_parents(read) {
        return false;
    }
    holds_nothing(queue, thread) && queue.is_absent(thread)
}

/// Why the thread cannot ask this: 0, or the status of the first thing that is wrong.
#[tactic(auto, unfolding(crate::specs::QueueStatus::queue_fault))]
pub fn queue_fault(queue: &Queue, thread: u32, asks: &[Ask]) -> u32
    ensures told { result ≡ queue_fault queue.now thread asks.now }
    ensures there { result ≡ 0 → thread < queue.now.threads }
    ensures askable { result ≡ 0 → IsAskable queue.now.classes (map ask_of asks.now) }
    ensures nothing { result ≡ 0 → HoldsNothing queue.now.holding thread }
    ensures absent { result ≡ 0 → IsAbsent thread queue.now.waiting }
    ensures other { result ≢ 0 → 3 < result }
{
    if !is_thread(queue.threads(), thread) {
        4
    } else if !has_kinds(asks) {
        5
    } else if !has_classes(queue.classes(), asks) {
        6
    } else if !has_modes(asks) {
        7
    } else if !is_rising(asks) {
        20
    } else if !has_parents(asks) {
        9
    } else if !holds_nothing(queue, thread) {
        10
    } else if !queue.is_absent(thread) {
        21
    } else {
        0
    }
}

/// Whether the thread holds nothing: who holds anything holds the root.
fn holds_nothing(queue: &Queue, thread: u32) -> bool
    requires { thread < queue.now.threads }
    ensures value { result ≡ holds_nothing queue.now.holding thread }
    ensures told { IsTrue result → HoldsNothing queue.now.holding thread }
{
    matches!(queue.mode(thread, Node::Root), Mode::NL)
}

/// Why the thread cannot give back what it holds: 0, or the status of the first thing that is wrong.
#[tactic(auto, unfolding(crate::specs::QueueStatus::leave_fault))]
pub fn leave_fault(threads: u32, thread: u32, room: usize) -> u32
    ensures told { result ≡ leave_fault threads thread room }
    ensures there { result ≡ 0 → thread < threads }
    ensures room { result ≡ 0 → threads ≤ room }
{
    if !is_thread(threads, thread) {
        4
    } else if room < threads as usize {
        11
    } else {
        0
    }
}

//! Whether what C asks can be done: each condition of the forest's contracts, tested without an allocation.
ghost use Rattle.std.specs.Prelude.{◌≡◌, ◌≢◌, ◌<◌, ◌≤◌, IsTrue, false, map};
ghost use Rattle.asl_code.specs.Versions.{newest_threads};
ghost use Rattle.asl_lock_forest.specs.Node.{IsThere};
ghost use Rattle.asl_lock_forest.specs.Holding.{CanGrant};
ghost use Rattle.asl_lock_forest.specs.Request.{IsRefusedRequest};
ghost use Rattle.asl_lock_queue.specs.Asks.{node_of, ask_of};
ghost use Rattle.asl_c_forest.specs.Fits.{Fits};
ghost use Rattle.asl_c_forest.specs.Status.{new_fault, acquire_fault, mode_fault, covers_fault, release_fault};

use crate::request_fits::{
    has_classes, has_kinds, has_modes, has_parents, holds_nothing, is_class, is_distinct, is_kind,
    is_there, is_thread,
};
use asl_code::NEWEST_LIMITS;
use asl_lock_forest::Forest;
use asl_lock_queue::{Ask, mode, node};

/// Why no forest can be made for so many threads: 0, or the status of what is wrong.
#[tactic(auto, unfolding(crate::specs::Status::new_fault))]
pub fn new_fault(threads: u32) -> u32
    ensures told { result ≡ new_fault threads }
    ensures some { result ≡ 0 → 1 ≤ threads }
    ensures few { result ≡ 0 → threads ≤ newest_threads }
    ensures other { result ≢ 0 → 3 < result }
{
    if threads == 0 || threads > NEWEST_LIMITS.threads {
        11
    } else {
        0
    }
}

/// Why the thread cannot ask this: 0, or the status of the first thing that is wrong.
#[tactic(auto, unfolding(crate::specs::Status::acquire_fault))]
pub fn acquire_fault(forest: &Forest, classes: u32, threads: u32, thread: u32, asks: &[Ask]) -> u32
    requires classes { classes ≡ forest.now.classes }
    requires threads { threads ≡ forest.now.threads }
    ensures told { result ≡ acquire_fault forest.now thread asks.now }
    ensures fits { result ≡ 0 → Fits forest.now thread (map ask_of asks.now) }
    ensures other { result ≢ 0 → 3 < result }
{
    if !is_thread(threads, thread) {
        4
    } else if !has_kinds(asks) {
        5
    } else if !has_classes(classes, asks) {
        6
    } else if !has_modes(asks) {
        7
    } else if !is_distinct(asks) {
        8
    } else if !has_parents(asks) {
        9
    } else if !holds_nothing(forest, thread) {
        10
    } else {
        0
    }
}

/// Whether no other thread is in the way of what is asked.
pub fn is_free(forest: &Forest, thread: u32, asks: &[Ask]) -> bool
    requires { Fits forest.now thread (map ask_of asks.now) }
    ensures free { IsTrue result → CanGrant forest.now.holding thread (map ask_of asks.now) }
    ensures refused { result ≡ false → IsRefusedRequest forest.now.holding thread (map ask_of asks.now) }
{
    for ask in asks {
        if !forest.is_free(thread, node(*ask), mode(ask.mode)) {
            return false;
        }
    }
    true
}

/// Why the thread cannot give back what it holds: 0, or the status of the first thing that is wrong.
#[tactic(auto, unfolding(crate::specs::Status::release_fault))]
pub fn release_fault(threads: u32, thread: u32) -> u32
    ensures told { result ≡ release_fault threads thread }
    ensures there { result ≡ 0 → thread < threads }
{
    if is_thread(threads, thread) { 0 } else { 4 }
}

/// Why it cannot be determined in which mode the thread holds the node: 0, or the status of the first thing that is wrong.
#[tactic(auto, unfolding(crate::specs::Status::mode_fault))]
pub fn mode_fault(classes: u32, threads: u32, thread: u32, at: Ask) -> u32
    ensures told { result ≡ mode_fault classes threads thread at }
    ensures thread_there { result ≡ 0 → thread < threads }
    ensures class_there { result ≡ 0 → IsThere classes (node_of at) }
{
    if !is_thread(threads, thread) {
        4
    } else if !is_kind(at.kind) {
        5
    } else if !is_there(classes, node(at)) {
        6
    } else {
        0
    }
}

/// Why it cannot be determined whether the thread covers the cell: 0, or the status of the first thing that is wrong.
#[tactic(auto, unfolding(crate::specs::Status::covers_fault))]
pub fn covers_fault(classes: u32, threads: u32, thread: u32, at: Ask) -> u32
    ensures told { result ≡ covers_fault classes threads thread at }
    ensures thread_there { result ≡ 0 → thread < threads }
    ensures class_there { result ≡ 0 → at.class < classes }
{
    if !is_thread(threads, thread) {
        4
    } else if !is_class(classes, at.class) {
        6
    } else {
        0
    }
}

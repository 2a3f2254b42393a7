//! What C calls of a queue.
ghost use Rattle.std.specs.Prelude.{◌≡◌, ◌≢◌, ◌<◌, ◌≤◌, ◌↔◌, ◌++◌, [], ◌∷◌, map, length, take, drop, true, false, nat_lt, IfOk, if◌then◌else◌};
ghost use Rattle.asl_code.specs.Versions.{newest_threads};
ghost use Rattle.asl_lock_forest.specs.Holding.{grant, no_holding};
ghost use Rattle.asl_lock_queue.specs.Waiting.{MayGo, IsKept};
ghost use Rattle.asl_lock_queue.specs.Served.{IsServed};
ghost use Rattle.asl_lock_queue.specs.Asks.{ask_of};
ghost use Rattle.asl_c_forest.specs.Status.{new_fault};
ghost use Rattle.asl_c_forest.specs.QueueStatus.{queue_fault, leave_fault};

use crate::desk::Desk;
use crate::fits::new_fault;
use crate::queue_fits::leave_fault;
use crate::queue_handle::QueueHandle;
use asl_lock_queue::Ask;
use std::alloc::{AllocError, Global};

/// A queue on the heap.
fn make(alloc: Global, classes: u32, threads: u32) -> Result<Box<Desk>, AllocError>
    ensures classes { IfOk result (λ b. b.value.classes ≡ classes) }
    ensures threads { IfOk result (λ b. b.value.threads ≡ threads) }
    ensures room { IfOk result (λ b. b.value.room ≡ 0) }
    ensures holding { IfOk result (λ b. b.value.holding ≡ no_holding) }
    ensures waiting { IfOk result (λ b. b.value.waiting ≡ []) }
{
    let desk = Desk::new(alloc, classes, threads)?;
    Ok(Box::new(alloc, desk)?)
}

/// Makes a queue in the handle, which has none.
///
/// Status 0: made. 2: no memory. 3: the handle has a queue. 11: no threads, or more than 128. Of 3 and 11 the first that applies.
#[unsafe(no_mangle)]
pub extern "C" fn asl_queue_new(
    alloc: Global,
    classes: u32,
    threads: u32,
    handle: &mut QueueHandle,
) -> u32
    ensures there { handle.old.live ≡ true → result ≡ 3 }
    ensures fault { handle.old.live ≡ false → new_fault threads ≢ 0 → result ≡ new_fault threads }
    ensures done { handle.old.live ≡ false → new_fault threads ≡ 0 → result ≢ 0 → result ≡ 2 }
    ensures live { result ≡ 0 → handle.new.live ≡ true }
    ensures classes { result ≡ 0 → handle.new.slot.queue.classes ≡ classes }
    ensures threads { result ≡ 0 → handle.new.slot.queue.threads ≡ threads }
    ensures room { result ≡ 0 → handle.new.slot.queue.room ≡ 0 }
    ensures holding { result ≡ 0 → handle.new.slot.queue.holding ≡ no_holding }
    ensures waiting { result ≡ 0 → handle.new.slot.queue.waiting ≡ [] }
    ensures kept { result ≢ 0 → handle.new ≡ handle.old }
{
    if handle.live {
        return 3;
    }
    let fault = new_fault(threads);
    if fault != 0 {
        return fault;
    }
    match make(alloc, classes, threads) {
        Ok(desk) => {
            *handle = QueueHandle::of(desk);
            0
        }
        Err(_) => 2,
    }
}

/// Frees the queue.
///
/// Status 0: freed. 3: the handle has no queue.
#[unsafe(no_mangle)]
pub extern "C" fn asl_queue_free(alloc: Global, handle: &mut QueueHandle) -> u32
    ensures dead { handle.new.live ≡ false }
    ensures told { result ≡ (if handle.old.live then 0 else 3) }
{
    match handle.take(alloc) {
        Some(desk) => 0,
        None => 3,
    }
}

/// Makes room: from then on a request of at most so many nodes needs no memory.
///
/// Status 0: done. 2: no memory, and there was less room. 3: the handle has no queue.
#[unsafe(no_mangle)]
pub extern "C" fn asl_queue_reserve(alloc: Global, handle: &mut QueueHandle, nodes: usize) -> u32
    ensures live { handle.new.live ≡ handle.old.live }
    ensures no_queue { result ≡ 3 ↔ handle.old.live ≡ false }
    ensures done { result ≤ 3 }
    ensures some { result ≢ 1 }
    ensures room { result ≡ 0 → handle.new.slot.queue.room ≡ (if nat_lt handle.old.slot.queue.room nodes then nodes else handle.old.slot.queue.room) }
    ensures less { result ≡ 2 → handle.old.slot.queue.room < nodes }
    ensures unchanged { result ≡ 2 → handle.new.slot.queue ≡ handle.old.slot.queue }
    ensures classes { result ≡ 0 → handle.new.slot.queue.classes ≡ handle.old.slot.queue.classes }
    ensures threads { result ≡ 0 → handle.new.slot.queue.threads ≡ handle.old.slot.queue.threads }
    ensures holding { result ≡ 0 → handle.new.slot.queue.holding ≡ handle.old.slot.queue.holding }
    ensures waiting { result ≡ 0 → handle.new.slot.queue.waiting ≡ handle.old.slot.queue.waiting }
{
    match handle.take(alloc) {
        Some(desk) => {
            let mut desk = desk;
            let status = if desk.reserve(nodes).is_ok() { 0 } else { 2 };
            *handle = QueueHandle::of(desk);
            status
        }
        None => 3,
    }
}

/// Grants all that is asked where nobody is in the way; else the thread waits behind all others.
///
/// Status 0: granted. 1: the thread waits. 2: no memory; only where more is asked than there is room for. 3: the handle has
/// no queue. 4: no such thread. 5: no such kind. 6: no such class. 7: no such mode, or NL. 20: the nodes do not rise. 9: a
/// parent is not asked. 10: the thread holds something. 21: the thread waits already. Of 3 to 21 the first in this order that
/// applies; 0, 1 and 2 only where none does.
#[unsafe(no_mangle)]
pub extern "C" fn asl_queue_acquire(
    alloc: Global,
    handle: &mut QueueHandle,
    thread: u32,
    asks: &[Ask],
) -> u32
    ensures live { handle.new.live ≡ handle.old.live }
    ensures no_queue { result ≡ 3 ↔ handle.old.live ≡ false }
    ensures fault { handle.old.live ≡ true → queue_fault handle.old.slot.queue thread asks.now ≢ 0 → result ≡ queue_fault handle.old.slot.queue thread asks.now }
    ensures done { handle.old.live ≡ true → queue_fault handle.old.slot.queue thread asks.now ≡ 0 → result ≤ 2 }
    ensures memory { result ≡ 2 → handle.old.slot.queue.room < length asks.now }
    ensures may { result ≡ 0 → MayGo handle.old.slot.queue.holding handle.old.slot.queue.waiting thread (map ask_of asks.now) }
    ensures granted { result ≡ 0 → handle.new.slot.queue.holding ≡ grant handle.old.slot.queue.holding thread (map ask_of asks.now) }
    ensures stay { result ≡ 0 → handle.new.slot.queue.waiting ≡ handle.old.slot.queue.waiting }
    ensures waits { result ≡ 1 → IsKept handle.old.slot.queue.holding handle.old.slot.queue.waiting thread (map ask_of asks.now) }
    ensures last { result ≡ 1 → handle.new.slot.queue.waiting ≡ handle.old.slot.queue.waiting ++ (thread, map ask_of asks.now) ∷ [] }
    ensures held { result ≡ 1 → handle.new.slot.queue.holding ≡ handle.old.slot.queue.holding }
    ensures unchanged { 1 < result → handle.old.live ≡ true → handle.new.slot.queue ≡ handle.old.slot.queue }
    ensures classes { handle.old.live ≡ true → handle.new.slot.queue.classes ≡ handle.old.slot.queue.classes }
    ensures threads { handle.old.live ≡ true → handle.new.slot.queue.threads ≡ handle.old.slot.queue.threads }
    ensures room { handle.old.live ≡ true → handle.new.slot.queue.room ≡ handle.old.slot.queue.room }
{
    match handle.take(alloc) {
        Some(desk) => {
            let mut desk = desk;
            let status = desk.acquire(thread, asks);
            *handle = QueueHandle::of(desk);
            status
        }
        None => 3,
    }
}

/// Takes away all that the thread holds and its place in the queue; then everybody goes on in whose way nobody is, first come
/// first. Writes the numbers of those who go on, and how many they are.
///
/// Status 0: done. 3: the handle has no queue. 4: no such thread. 11: there is less room for numbers than there are threads.
/// The first that applies.
#[unsafe(no_mangle)]
pub extern "C" fn asl_queue_release(
    alloc: Global,
    handle: &mut QueueHandle,
    thread: u32,
    named: &mut [u32],
    count: &mut usize,
) -> u32
    ensures live { handle.new.live ≡ handle.old.live }
    ensures told { result ≡ (if handle.old.live then leave_fault handle.old.slot.queue.threads thread (length named.old) else 3) }
    ensures served { result ≡ 0 → IsServed handle.old.slot.queue thread (take count.new named.new) handle.new.slot.queue }
    ensures rest { result ≡ 0 → drop count.new named.new ≡ drop count.new named.old }
    ensures unwritten { result ≢ 0 → count.new ≡ count.old }
    ensures unnamed { result ≢ 0 → named.new ≡ named.old }
    ensures kept { result ≢ 0 → handle.old.live ≡ true → handle.new.slot.queue ≡ handle.old.slot.queue }
    ensures classes { handle.old.live ≡ true → handle.new.slot.queue.classes ≡ handle.old.slot.queue.classes }
    ensures threads { handle.old.live ≡ true → handle.new.slot.queue.threads ≡ handle.old.slot.queue.threads }
    ensures room { handle.old.live ≡ true → handle.new.slot.queue.room ≡ handle.old.slot.queue.room }
{
    match handle.take(alloc) {
        Some(desk) => {
            let mut desk = desk;
            let status = leave_fault(desk.queue().threads(), thread, named.len());
            if status == 0 {
                *count = desk.release(thread, named);
            }
            *handle = QueueHandle::of(desk);
            status
        }
        None => 3,
    }
}

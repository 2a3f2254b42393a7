//! What C calls.
ghost use Rattle.std.specs.Prelude.{◌≡◌, ◌≢◌, ◌<◌, ◌≤◌, ◌↔◌, map, length, true, false, IfOk, OnOk, OnErr, if◌then◌else◌};
ghost use Rattle.asl_code.specs.Versions.{newest_threads};
ghost use Rattle.asl_lock_forest.specs.Holding.{grant, release, no_holding, CanGrant};
ghost use Rattle.asl_lock_forest.specs.Request.{IsRefusedRequest};
ghost use Rattle.asl_lock_queue.specs.Asks.{ask_of};
ghost use Rattle.asl_c_forest.specs.Fits.{Fits};
ghost use Rattle.asl_c_forest.specs.Status.{new_fault, acquire_fault, release_fault};

use crate::c_request::read;
use crate::fits;
use crate::forest_handle::Handle;
use asl_lock_forest::Forest;
use asl_lock_queue::Ask;
use std::alloc::{AllocError, Global};

/// A forest on the heap.
fn make(alloc: Global, classes: u32, threads: u32) -> Result<Box<Forest>, AllocError>
    requires some { 1 ≤ threads }
    requires few { threads ≤ newest_threads }
    ensures classes { IfOk result (λ b. b.value.classes ≡ classes) }
    ensures threads { IfOk result (λ b. b.value.threads ≡ threads) }
    ensures holding { IfOk result (λ b. b.value.holding ≡ no_holding) }
{
    let forest = Forest::new(alloc, classes, threads)?;
    Ok(Box::new(alloc, forest)?)
}

/// Makes a forest in the handle, which has none.
///
/// Status 0: made. 2: no memory. 3: the handle has a forest. 11: no threads, or more than 128. Of 3 and 11 the first that applies.
#[unsafe(no_mangle)]
pub extern "C" fn asl_forest_new(
    alloc: Global,
    classes: u32,
    threads: u32,
    handle: &mut Handle,
) -> u32
    ensures there { handle.old.live ≡ true → result ≡ 3 }
    ensures fault { handle.old.live ≡ false → new_fault threads ≢ 0 → result ≡ new_fault threads }
    ensures done { handle.old.live ≡ false → new_fault threads ≡ 0 → result ≢ 0 → result ≡ 2 }
    ensures live { result ≡ 0 → handle.new.live ≡ true }
    ensures classes { result ≡ 0 → handle.new.slot.forest.classes ≡ classes }
    ensures threads { result ≡ 0 → handle.new.slot.forest.threads ≡ threads }
    ensures holding { result ≡ 0 → handle.new.slot.forest.holding ≡ no_holding }
    ensures kept { result ≢ 0 → handle.new ≡ handle.old }
{
    if handle.live {
        return 3;
    }
    let fault = fits::new_fault(threads);
    if fault != 0 {
        return fault;
    }
    match make(alloc, classes, threads) {
        Ok(forest) => {
            *handle = Handle::of(forest, classes, threads);
            0
        }
        Err(_) => 2,
    }
}

/// Frees the forest.
///
/// Status 0: freed. 3: the handle has no forest.
#[unsafe(no_mangle)]
pub extern "C" fn asl_forest_free(alloc: Global, handle: &mut Handle) -> u32
    ensures dead { handle.new.live ≡ false }
    ensures told { result ≡ (if handle.old.live then 0 else 3) }
{
    match handle.take(alloc) {
        Some(forest) => 0,
        None => 3,
    }
}

/// Grants all that is asked, where no other thread is in the way.
///
/// # Errors
///
/// An allocation failed, and something is asked. Then nothing is granted.
fn take(alloc: Global, forest: &mut Forest, thread: u32, asks: &[Ask]) -> Result<(), AllocError>
    requires fits { Fits forest.old thread (map ask_of asks.now) }
    requires free { CanGrant forest.old.holding thread (map ask_of asks.now) }
    ensures granted { OnOk result (forest.new.holding ≡ grant forest.old.holding thread (map ask_of asks.now)) }
    ensures asks { OnErr result (0 < length asks.now) }
    ensures err { OnErr result (forest.new ≡ forest.old) }
    ensures classes { forest.new.classes ≡ forest.old.classes }
    ensures threads { forest.new.threads ≡ forest.old.threads }
{
    let request = read(alloc, asks)?;
    forest.grant(thread, request.as_slice())
}

/// Grants all that is asked, or nothing.
fn acquire(
    alloc: Global,
    forest: &mut Forest,
    classes: u32,
    threads: u32,
    thread: u32,
    asks: &[Ask],
) -> u32
    requires classes { classes ≡ forest.old.classes }
    requires threads { threads ≡ forest.old.threads }
    ensures fault { acquire_fault forest.old thread asks.now ≢ 0 → result ≡ acquire_fault forest.old thread asks.now }
    ensures done { acquire_fault forest.old thread asks.now ≡ 0 → result ≤ 2 }
    ensures other { result ≢ 3 }
    ensures granted { result ≡ 0 → forest.new.holding ≡ grant forest.old.holding thread (map ask_of asks.now) }
    ensures free { result ≡ 0 → CanGrant forest.old.holding thread (map ask_of asks.now) }
    ensures refused { result ≡ 1 → IsRefusedRequest forest.old.holding thread (map ask_of asks.now) }
    ensures memory { result ≡ 2 → CanGrant forest.old.holding thread (map ask_of asks.now) }
    ensures asks { result ≡ 2 → 0 < length asks.now }
    ensures kept { result ≢ 0 → forest.new ≡ forest.old }
    ensures classes { forest.new.classes ≡ forest.old.classes }
    ensures threads { forest.new.threads ≡ forest.old.threads }
{
    let fault = fits::acquire_fault(forest, classes, threads, thread, asks);
    if fault != 0 {
        return fault;
    }
    if !fits::is_free(forest, thread, asks) {
        return 1;
    }
    match take(alloc, forest, thread, asks) {
        Ok(()) => 0,
        Err(_) => 2,
    }
}

/// Grants all that is asked, or nothing.
///
/// Status 0: granted. 1: another thread is in the way. 2: no memory. 3: the handle has no forest. 4: no such thread.
/// 5: no such kind. 6: no such class. 7: no such mode, or NL. 8: a node twice. 9: a parent is not asked. 10: the thread
/// holds something. Of 3 to 10 the first that applies; 1 and 2 only where none does, 2 only where nobody is in the way.
#[unsafe(no_mangle)]
pub extern "C" fn asl_forest_try_acquire(
    alloc: Global,
    handle: &mut Handle,
    thread: u32,
    asks: &[Ask],
) -> u32
    ensures live { handle.new.live ≡ handle.old.live }
    ensures no_forest { result ≡ 3 ↔ handle.old.live ≡ false }
    ensures fault { handle.old.live ≡ true → acquire_fault handle.old.slot.forest thread asks.now ≢ 0 → result ≡ acquire_fault handle.old.slot.forest thread asks.now }
    ensures done { handle.old.live ≡ true → acquire_fault handle.old.slot.forest thread asks.now ≡ 0 → result ≤ 2 }
    ensures granted { result ≡ 0 → handle.new.slot.forest.holding ≡ grant handle.old.slot.forest.holding thread (map ask_of asks.now) }
    ensures free { result ≡ 0 → CanGrant handle.old.slot.forest.holding thread (map ask_of asks.now) }
    ensures refused { result ≡ 1 → IsRefusedRequest handle.old.slot.forest.holding thread (map ask_of asks.now) }
    ensures memory { result ≡ 2 → CanGrant handle.old.slot.forest.holding thread (map ask_of asks.now) }
    ensures asks { result ≡ 2 → 0 < length asks.now }
    ensures kept { result ≢ 0 → handle.old.live ≡ true → handle.new.slot.forest ≡ handle.old.slot.forest }
    ensures classes { handle.old.live ≡ true → handle.new.slot.forest.classes ≡ handle.old.slot.forest.classes }
    ensures threads { handle.old.live ≡ true → handle.new.slot.forest.threads ≡ handle.old.slot.forest.threads }
{
    let classes = handle.classes;
    let threads = handle.threads;
    match handle.take(alloc) {
        Some(forest) => {
            let mut forest = forest;
            let status = acquire(alloc, &mut forest, classes, threads, thread, asks);
            *handle = Handle::of(forest, classes, threads);
            status
        }
        None => 3,
    }
}

/// Takes away all that the thread holds.
fn let_go(forest: &mut Forest, threads: u32, thread: u32) -> u32
    requires threads { threads ≡ forest.old.threads }
    ensures told { result ≡ release_fault forest.old.threads thread }
    ensures done { result ≡ 0 → forest.new.holding ≡ release forest.old.holding thread }
    ensures kept { result ≢ 0 → forest.new ≡ forest.old }
    ensures classes { forest.new.classes ≡ forest.old.classes }
    ensures threads { forest.new.threads ≡ forest.old.threads }
{
    let fault = fits::release_fault(threads, thread);
    if fault == 0 {
        forest.release(thread);
    }
    fault
}

/// Takes away all that the thread holds.
///
/// Status 0: done. 3: the handle has no forest. 4: no such thread. The first that applies.
#[unsafe(no_mangle)]
pub extern "C" fn asl_forest_release(alloc: Global, handle: &mut Handle, thread: u32) -> u32
    ensures live { handle.new.live ≡ handle.old.live }
    ensures told { result ≡ (if handle.old.live then release_fault handle.old.slot.forest.threads thread else 3) }
    ensures done { result ≡ 0 → handle.new.slot.forest.holding ≡ release handle.old.slot.forest.holding thread }
    ensures kept { result ≢ 0 → handle.old.live ≡ true → handle.new.slot.forest ≡ handle.old.slot.forest }
    ensures classes { handle.old.live ≡ true → handle.new.slot.forest.classes ≡ handle.old.slot.forest.classes }
    ensures threads { handle.old.live ≡ true → handle.new.slot.forest.threads ≡ handle.old.slot.forest.threads }
{
    let classes = handle.classes;
    let threads = handle.threads;
    match handle.take(alloc) {
        Some(forest) => {
            let mut forest = forest;
            let status = let_go(&mut forest, threads, thread);
            *handle = Handle::of(forest, classes, threads);
            status
        }
        None => 3,
    }
}

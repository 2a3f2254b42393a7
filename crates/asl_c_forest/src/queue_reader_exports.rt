//! Functions for C that tell what a thread of a queue holds and covers.
ghost use Rattle.std.specs.Prelude.{◌≡◌, ◌≢◌, ◌↔◌, true, IsTrue, if◌then◌else◌};
ghost use Rattle.asl_mode_lanes.specs.Mode.{code_of};
ghost use Rattle.asl_lock_forest.specs.Holding.{held, Covers};
ghost use Rattle.asl_lock_queue.specs.Asks.{node_of, effect_of};
ghost use Rattle.asl_c_forest.specs.Status.{mode_fault, covers_fault};

use crate::fits;
use crate::queue_handle::QueueHandle;
use crate::reader_exports::effect;
use asl_code::Cell;
use asl_lock_queue::{Ask, Queue, node};
use std::alloc::Global;

/// The code of the mode in which the thread holds the node.
fn look(queue: &Queue, thread: u32, at: Ask, mode: &mut u8) -> u32
    ensures fault { result ≡ mode_fault queue.now.classes queue.now.threads thread at }
    ensures told { result ≡ 0 → mode.new ≡ code_of (held queue.now.holding thread (node_of at)) }
    ensures kept { result ≢ 0 → mode.new ≡ mode.old }
{
    let fault = fits::mode_fault(queue.classes(), queue.threads(), thread, at);
    if fault == 0 {
        *mode = queue.mode(thread, node(at)).code();
    }
    fault
}

/// Writes the code of the mode in which the thread holds the node of `at`, whose mode is not read.
///
/// Status 0: written. 3: the handle has no queue. 4: no such thread. 5: no such kind. 6: no such class. The first that applies.
#[unsafe(no_mangle)]
pub extern "C" fn asl_queue_mode(
    alloc: Global,
    handle: &mut QueueHandle,
    thread: u32,
    at: &Ask,
    mode: &mut u8,
) -> u32
    ensures live { handle.new.live ≡ handle.old.live }
    ensures fault { result ≡ (if handle.old.live then mode_fault handle.old.slot.queue.classes handle.old.slot.queue.threads thread at.now else 3) }
    ensures told { result ≡ 0 → mode.new ≡ code_of (held handle.old.slot.queue.holding thread (node_of at.now)) }
    ensures unwritten { result ≢ 0 → mode.new ≡ mode.old }
    ensures kept { handle.old.live ≡ true → handle.new.slot.queue ≡ handle.old.slot.queue }
{
    match handle.take(alloc) {
        Some(desk) => {
            let status = look(desk.queue(), thread, *at, mode);
            *handle = QueueHandle::of(desk);
            status
        }
        None => 3,
    }
}

/// Whether the thread covers the cell.
fn sees(queue: &Queue, thread: u32, at: Ask, writes: bool, covers: &mut bool) -> u32
    ensures fault { result ≡ covers_fault queue.now.classes queue.now.threads thread at }
    ensures told { result ≡ 0 → IsTrue covers.new ↔ Covers queue.now.holding thread (record { object = at.object; offset = at.offset }) at.class (effect_of writes) }
    ensures kept { result ≢ 0 → covers.new ≡ covers.old }
{
    let fault = fits::covers_fault(queue.classes(), queue.threads(), thread, at);
    if fault != 0 {
        return fault;
    }
    let cell = Cell {
        object: at.object,
        offset: at.offset,
    };
    *covers = queue.covers(thread, cell, at.class, effect(writes));
    0
}

/// Writes whether the thread covers the cell of `at`, whose kind and mode are not read.
///
/// Status 0: written. 3: the handle has no queue. 4: no such thread. 6: no such class. The first that applies.
#[unsafe(no_mangle)]
pub extern "C" fn asl_queue_covers(
    alloc: Global,
    handle: &mut QueueHandle,
    thread: u32,
    at: &Ask,
    writes: bool,
    covers: &mut bool,
) -> u32
    ensures live { handle.new.live ≡ handle.old.live }
    ensures fault { result ≡ (if handle.old.live then covers_fault handle.old.slot.queue.classes handle.old.slot.queue.threads thread at.now else 3) }
    ensures told { result ≡ 0 → IsTrue covers.new ↔ Covers handle.old.slot.queue.holding thread (record { object = at.now.object; offset = at.now.offset }) at.now.class (effect_of writes) }
    ensures unwritten { result ≢ 0 → covers.new ≡ covers.old }
    ensures kept { handle.old.live ≡ true → handle.new.slot.queue ≡ handle.old.slot.queue }
{
    match handle.take(alloc) {
        Some(desk) => {
            let status = sees(desk.queue(), thread, *at, writes, covers);
            *handle = QueueHandle::of(desk);
            status
        }
        None => 3,
    }
}

//! Functions for C that tell what a thread holds and covers.
ghost use Rattle.std.specs.Prelude.{◌≡◌, ◌≢◌, ◌↔◌, true, IsTrue, if◌then◌else◌};
ghost use Rattle.asl_mode_lanes.specs.Mode.{code_of};
ghost use Rattle.asl_lock_forest.specs.Holding.{held, Covers};
ghost use Rattle.asl_lock_queue.specs.Asks.{node_of, effect_of};
ghost use Rattle.asl_c_forest.specs.Status.{mode_fault, covers_fault};

use crate::fits;
use crate::forest_handle::Handle;
use asl_code::{Cell, Effect};
use asl_lock_forest::Forest;
use asl_lock_queue::{Ask, node};
use std::alloc::Global;

/// The code of the mode in which the thread holds the node.
fn look(forest: &Forest, classes: u32, threads: u32, thread: u32, at: Ask, mode: &mut u8) -> u32
    requires classes { classes ≡ forest.now.classes }
    requires threads { threads ≡ forest.now.threads }
    ensures fault { result ≡ mode_fault forest.now.classes forest.now.threads thread at }
    ensures told { result ≡ 0 → mode.new ≡ code_of (held forest.now.holding thread (node_of at)) }
    ensures kept { result ≢ 0 → mode.new ≡ mode.old }
{
    let fault = fits::mode_fault(classes, threads, thread, at);
    if fault == 0 {
        *mode = forest.mode(thread, node(at)).code();
    }
    fault
}

/// Writes the code of the mode in which the thread holds the node of `at`, whose mode is not read.
///
/// Status 0: written. 3: the handle has no forest. 4: no such thread. 5: no such kind. 6: no such class. The first that applies.
#[unsafe(no_mangle)]
pub extern "C" fn asl_forest_mode(
    alloc: Global,
    handle: &mut Handle,
    thread: u32,
    at: &Ask,
    mode: &mut u8,
) -> u32
    ensures live { handle.new.live ≡ handle.old.live }
    ensures fault { result ≡ (if handle.old.live then mode_fault handle.old.slot.forest.classes handle.old.slot.forest.threads thread at.now else 3) }
    ensures told { result ≡ 0 → mode.new ≡ code_of (held handle.old.slot.forest.holding thread (node_of at.now)) }
    ensures unwritten { result ≢ 0 → mode.new ≡ mode.old }
    ensures kept { handle.old.live ≡ true → handle.new.slot.forest ≡ handle.old.slot.forest }
{
    let classes = handle.classes;
    let threads = handle.threads;
    match handle.take(alloc) {
        Some(forest) => {
            let status = look(&forest, classes, threads, thread, *at, mode);
            *handle = Handle::of(forest, classes, threads);
            status
        }
        None => 3,
    }
}

/// What an access does.
pub(crate) fn effect(writes: bool) -> Effect
    ensures { result ≡ effect_of writes }
{
    if writes { Effect::Write } else { Effect::Read }
}

/// Whether the thread covers the cell.
fn sees(
    forest: &Forest,
    classes: u32,
    threads: u32,
    thread: u32,
    at: Ask,
    writes: bool,
    covers: &mut bool,
) -> u32
    requires classes { classes ≡ forest.now.classes }
    requires threads { threads ≡ forest.now.threads }
    ensures fault { result ≡ covers_fault forest.now.classes forest.now.threads thread at }
    ensures told { result ≡ 0 → IsTrue covers.new ↔ Covers forest.now.holding thread (record { object = at.object; offset = at.offset }) at.class (effect_of writes) }
    ensures kept { result ≢ 0 → covers.new ≡ covers.old }
{
    let fault = fits::covers_fault(classes, threads, thread, at);
    if fault != 0 {
        return fault;
    }
    let cell = Cell {
        object: at.object,
        offset: at.offset,
    };
    *covers = forest.covers(thread, cell, at.class, effect(writes));
    0
}

/// Writes whether the thread covers the cell of `at`, whose kind and mode are not read.
///
/// Status 0: written. 3: the handle has no forest. 4: no such thread. 6: no such class. The first that applies.
#[unsafe(no_mangle)]
pub extern "C" fn asl_forest_covers(
    alloc: Global,
    handle: &mut Handle,
    thread: u32,
    at: &Ask,
    writes: bool,
    covers: &mut bool,
) -> u32
    ensures live { handle.new.live ≡ handle.old.live }
    ensures fault { result ≡ (if handle.old.live then covers_fault handle.old.slot.forest.classes handle.old.slot.forest.threads thread at.now else 3) }
    ensures told { result ≡ 0 → IsTrue covers.new ↔ Covers handle.old.slot.forest.holding thread (record { object = at.now.object; offset = at.now.offset }) at.now.class (effect_of writes) }
    ensures unwritten { result ≢ 0 → covers.new ≡ covers.old }
    ensures kept { handle.old.live ≡ true → handle.new.slot.forest ≡ handle.old.slot.forest }
{
    let classes = handle.classes;
    let threads = handle.threads;
    match handle.take(alloc) {
        Some(forest) => {
            let status = sees(&forest, classes, threads, thread, *at, writes, covers);
            *handle = Handle::of(forest, classes, threads);
            status
        }
        None => 3,
    }
}

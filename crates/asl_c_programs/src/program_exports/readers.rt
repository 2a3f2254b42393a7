//! What reads the tables of a program by number.
ghost use Rattle.std.specs.Prelude.{◌≡◌, ◌≢◌, ◌↔◌, true, false, Some, slice_get};
ghost use Rattle.asl_c_programs.specs.Locks.{lock_at};
ghost use Rattle.asl_c_programs.specs.Status.{IsPut, IsSectionPut};
ghost use Rattle.asl_c_programs.specs.Tables.{class_named, counts_of, function_at, list_at};

use crate::entries::{Counts, FunctionEntry, ListEntry, LockEntry, SectionEntry};
use crate::program_handle::Handle;
use crate::put::put;
use crate::status::BAD_HANDLE;
use crate::{list_entries, tables};
use std::alloc::Global;

/// Writes how many there are of each part.
///
/// Status 0: written. 3: the handle has no program.
#[unsafe(no_mangle)]
pub extern "C" fn asl_program_counts_nonnull(
    alloc: Global,
    handle: &mut Handle,
    counts: &mut Counts,
) -> u32
    ensures live { handle.new.live ≡ handle.old.live }
    ensures same { handle.old.live ≡ true → handle.new.slot.program ≡ handle.old.slot.program }
    ensures no_program { result ≡ 3 ↔ handle.old.live ≡ false }
    ensures put { handle.old.live ≡ true → IsPut (Some (counts_of handle.old.slot.program)) counts.old counts.new result }
    ensures unwritten { result ≢ 0 → counts.new ≡ counts.old }
{
    match handle.take(alloc) {
        Some(opened) => {
            let status = put(Some(tables::counts(&opened)), counts);
            *handle = Handle::of(opened);
            status
        }
        None => BAD_HANDLE,
    }
}

/// Writes whether some list has a lock on the class.
///
/// Status 0: written. 3: the handle has no program. 24: there is no such class.
#[unsafe(no_mangle)]
pub extern "C" fn asl_program_class_nonnull(
    alloc: Global,
    handle: &mut Handle,
    class: u32,
    named: &mut bool,
) -> u32
    ensures live { handle.new.live ≡ handle.old.live }
    ensures same { handle.old.live ≡ true → handle.new.slot.program ≡ handle.old.slot.program }
    ensures no_program { result ≡ 3 ↔ handle.old.live ≡ false }
    ensures put { handle.old.live ≡ true → IsPut (class_named handle.old.slot.program.program class) named.old named.new result }
    ensures unwritten { result ≢ 0 → named.new ≡ named.old }
{
    match handle.take(alloc) {
        Some(opened) => {
            let status = put(tables::class(&opened.program, class), named);
            *handle = Handle::of(opened);
            status
        }
        None => BAD_HANDLE,
    }
}

/// Writes the class of a global.
///
/// Status 0: written. 3: the handle has no program. 24: there is no such global.
#[unsafe(no_mangle)]
pub extern "C" fn asl_program_global_nonnull(
    alloc: Global,
    handle: &mut Handle,
    global: u32,
    class: &mut u16,
) -> u32
    ensures live { handle.new.live ≡ handle.old.live }
    ensures same { handle.old.live ≡ true → handle.new.slot.program ≡ handle.old.slot.program }
    ensures no_program { result ≡ 3 ↔ handle.old.live ≡ false }
    ensures put { handle.old.live ≡ true → IsPut (slice_get handle.old.slot.program.program.globals global) class.old class.new result }
    ensures unwritten { result ≢ 0 → class.new ≡ class.old }
{
    match handle.take(alloc) {
        Some(opened) => {
            let status = put(tables::global(&opened.program, global), class);
            *handle = Handle::of(opened);
            status
        }
        None => BAD_HANDLE,
    }
}

/// Writes a function.
///
/// Status 0: written. 3: the handle has no program. 24: there is no such function.
#[unsafe(no_mangle)]
pub extern "C" fn asl_program_function_nonnull(
    alloc: Global,
    handle: &mut Handle,
    function: u32,
    entry: &mut FunctionEntry,
) -> u32
    ensures live { handle.new.live ≡ handle.old.live }
    ensures same { handle.old.live ≡ true → handle.new.slot.program ≡ handle.old.slot.program }
    ensures no_program { result ≡ 3 ↔ handle.old.live ≡ false }
    ensures put { handle.old.live ≡ true → IsPut (function_at handle.old.slot.program.program function) entry.old entry.new result }
    ensures unwritten { result ≢ 0 → entry.new ≡ entry.old }
{
    match handle.take(alloc) {
        Some(opened) => {
            let status = put(tables::function(&opened.program, function), entry);
            *handle = Handle::of(opened);
            status
        }
        None => BAD_HANDLE,
    }
}

/// Writes a section, by its number in the order of the code.
///
/// Status 0: written. 3: the handle has no program. 24: there is no such section.
#[unsafe(no_mangle)]
pub extern "C" fn asl_program_section_nonnull(
    alloc: Global,
    handle: &mut Handle,
    section: u32,
    entry: &mut SectionEntry,
) -> u32
    ensures live { handle.new.live ≡ handle.old.live }
    ensures same { handle.old.live ≡ true → handle.new.slot.program ≡ handle.old.slot.program }
    ensures no_program { result ≡ 3 ↔ handle.old.live ≡ false }
    ensures put { handle.old.live ≡ true → IsSectionPut handle.old.slot.program.program section entry.old entry.new result }
    ensures unwritten { result ≢ 0 → entry.new ≡ entry.old }
{
    match handle.take(alloc) {
        Some(opened) => {
            let status = tables::put_section(&opened.program, section, entry);
            *handle = Handle::of(opened);
            status
        }
        None => BAD_HANDLE,
    }
}

/// Writes how many locks a list has, and what they do.
///
/// Status 0: written. 3: the handle has no program. 24: there is no such list.
#[unsafe(no_mangle)]
pub extern "C" fn asl_program_list_nonnull(
    alloc: Global,
    handle: &mut Handle,
    list: u32,
    entry: &mut ListEntry,
) -> u32
    ensures live { handle.new.live ≡ handle.old.live }
    ensures same { handle.old.live ≡ true → handle.new.slot.program ≡ handle.old.slot.program }
    ensures no_program { result ≡ 3 ↔ handle.old.live ≡ false }
    ensures put { handle.old.live ≡ true → IsPut (list_at handle.old.slot.program.program list) entry.old entry.new result }
    ensures unwritten { result ≢ 0 → entry.new ≡ entry.old }
{
    match handle.take(alloc) {
        Some(opened) => {
            let status = put(list_entries::list(&opened.program, list), entry);
            *handle = Handle::of(opened);
            status
        }
        None => BAD_HANDLE,
    }
}

/// Writes a lock of a list.
///
/// Status 0: written. 3: the handle has no program. 24: there is no such list or lock.
#[unsafe(no_mangle)]
pub extern "C" fn asl_program_lock_nonnull(
    alloc: Global,
    handle: &mut Handle,
    list: u32,
    lock: u32,
    entry: &mut LockEntry,
) -> u32
    ensures live { handle.new.live ≡ handle.old.live }
    ensures same { handle.old.live ≡ true → handle.new.slot.program ≡ handle.old.slot.program }
    ensures no_program { result ≡ 3 ↔ handle.old.live ≡ false }
    ensures put { handle.old.live ≡ true → IsPut (lock_at handle.old.slot.program list lock) entry.old entry.new result }
    ensures unwritten { result ≢ 0 → entry.new ≡ entry.old }
{
    match handle.take(alloc) {
        Some(opened) => {
            let status = put(list_entries::lock(&opened, list, lock), entry);
            *handle = Handle::of(opened);
            status
        }
        None => BAD_HANDLE,
    }
}

//! What evaluates a list of a program.
ghost use Rattle.std.specs.Prelude.{◌≡◌, ◌≢◌, ◌↔◌, true, false, slice_get};
ghost use Rattle.asl_c_programs.specs.Requests.{IsRequestPut};

use crate::entries::RequestEntry;
use crate::list_requests;
use crate::program_handle::Handle;
use crate::status::BAD_HANDLE;
use asl_c_requests::{ShownCell, ShownObject, ShownValue};
use asl_lock_queue::Ask;
use std::alloc::Global;

/// Writes the request of a list, over the registers, objects and cells that are shown, into the first words of `asks`, and how many they
/// are; or the cell that must be told to know it. It wants no memory.
///
/// Status 0: the request was written. 3: the handle has no program. 24: there is no such list. 27: there is room for less than three words
/// for each lock of the list. 26: the cell was written, and any word of `asks` may have changed.
#[unsafe(no_mangle)]
pub extern "C" fn asl_list_request_nonnull(
    alloc: Global,
    handle: &mut Handle,
    list: u32,
    registers: &[ShownValue],
    objects: &[ShownObject],
    cells: &[ShownCell],
    asks: &mut [Ask],
    entry: &mut RequestEntry,
) -> u32
    ensures live { handle.new.live ≡ handle.old.live }
    ensures same { handle.old.live ≡ true → handle.new.slot.program ≡ handle.old.slot.program }
    ensures no_program { result ≡ 3 ↔ handle.old.live ≡ false }
    ensures put { handle.old.live ≡ true → IsRequestPut (slice_get handle.old.slot.program.program.lists list) registers.now objects.now cells.now asks.old asks.new entry.new result }
    ensures unwritten { result ≢ 0 → result ≢ 26 → (asks.new ≡ asks.old) × (entry.new ≡ entry.old) }
{
    match handle.take(alloc) {
        Some(opened) => {
            let status = list_requests::put_request(
                &opened.program,
                list,
                registers,
                objects,
                cells,
                asks,
                entry,
            );
            *handle = Handle::of(opened);
            status
        }
        None => BAD_HANDLE,
    }
}

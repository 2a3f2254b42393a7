//! The request of a list of a program.
ghost use Rattle.std.specs.Prelude.{◌≡◌, ◌≢◌, slice_get};
ghost use Rattle.asl_c_programs.specs.Requests.{IsRequestPut};

use crate::entries::RequestEntry;
use crate::status::{DONE, NEEDS_CELL, NO_ROOM, NO_SUCH_NUMBER};
use asl_c_requests::{ShownCell, ShownObject, ShownValue, request};
use asl_code::Program;
use asl_lock_queue::Ask;

/// Writes the request of the list of this number; or the cell that must be told to know it.
pub fn put_request(
    program: &Program,
    list: u32,
    registers: &[ShownValue],
    objects: &[ShownObject],
    cells: &[ShownCell],
    asks: &mut [Ask],
    entry: &mut RequestEntry,
) -> u32
    ensures put { IsRequestPut (slice_get program.now.lists list) registers.now objects.now cells.now asks.old asks.new entry.new result }
    ensures unwritten { result ≢ 0 → result ≢ 26 → (asks.new ≡ asks.old) × (entry.new ≡ entry.old) }
    ensures other { result ≢ 3 }
{
    let Some(list) = program.lists().get(list as usize) else {
        return NO_SUCH_NUMBER;
    };
    let locks = list.as_slice();
    if asks.len() / 3 < locks.len() {
        return NO_ROOM;
    }
    match request(locks, registers, objects, cells, asks) {
        Ok(count) => {
            *entry = RequestEntry {
                count,
                object: 0,
                offset: 0,
            };
            DONE
        }
        Err(cell) => {
            *entry = RequestEntry {
                count: 0,
                object: cell.object,
                offset: cell.offset,
            };
            NEEDS_CELL
        }
    }
}

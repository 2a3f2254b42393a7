//! What opens and closes a program.
ghost use Rattle.std.specs.Prelude.{◌≡◌, ◌≢◌, true, false, if◌then◌else◌};
ghost use Rattle.asl_c_programs.specs.Opening.{IsCompiled, IsOpened, WhyNotCompiled, WhyNotOpened};

use crate::opening;
use crate::program_handle::Handle;
use crate::status::{BAD_HANDLE, DONE};
use std::alloc::Global;

/// Opens the program of the bytes in the handle, which has none. An image begins with `ASLM`; all else is read as assembly text.
///
/// Status 0: opened. 2: no memory. 3: the handle has a program. 12: no program.
#[unsafe(no_mangle)]
pub extern "C" fn asl_program_open_nonnull(alloc: Global, bytes: &[u8], handle: &mut Handle) -> u32
    ensures there { handle.old.live ≡ true → result ≡ 3 }
    ensures live { result ≡ 0 → handle.new.live ≡ true }
    ensures opened { result ≡ 0 → IsOpened bytes.now handle.new.slot.program }
    ensures refused { handle.old.live ≡ false → result ≢ 0 → WhyNotOpened bytes.now result }
    ensures same { result ≢ 0 → handle.new ≡ handle.old }
{
    if handle.live {
        return BAD_HANDLE;
    }
    match opening::open(alloc, bytes) {
        Ok(kept) => {
            *handle = Handle::of(kept);
            DONE
        }
        Err(status) => status,
    }
}

/// Opens the program of the source in the handle, which has none, with paths of at most `k` operations.
///
/// Status 0: opened. 2: no memory. 3: the handle has a program. 22: the source is refused. 23: k is above 8.
#[unsafe(no_mangle)]
pub extern "C" fn asl_program_compile_nonnull(
    alloc: Global,
    source: &[u8],
    k: u32,
    handle: &mut Handle,
) -> u32
    ensures there { handle.old.live ≡ true → result ≡ 3 }
    ensures live { result ≡ 0 → handle.new.live ≡ true }
    ensures opened { result ≡ 0 → IsCompiled source.now k handle.new.slot.program }
    ensures refused { handle.old.live ≡ false → result ≢ 0 → WhyNotCompiled source.now k result }
    ensures same { result ≢ 0 → handle.new ≡ handle.old }
{
    if handle.live {
        return BAD_HANDLE;
    }
    match opening::open_source(alloc, source, k) {
        Ok(kept) => {
            *handle = Handle::of(kept);
            DONE
        }
        Err(status) => status,
    }
}

/// Closes the program.
///
/// Status 0: closed. 3: the handle has no program.
#[unsafe(no_mangle)]
pub extern "C" fn asl_program_close_nonnull(alloc: Global, handle: &mut Handle) -> u32
    ensures dead { handle.new.live ≡ false }
    ensures told { result ≡ (if handle.old.live then 0 else 3) }
{
    match handle.take(alloc) {
        Some(_program) => DONE,
        None => BAD_HANDLE,
    }
}

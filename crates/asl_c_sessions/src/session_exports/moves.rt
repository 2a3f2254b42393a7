//! What opens, closes and moves a session.
ghost use Rattle.std.specs.Prelude.{◌≡◌, ◌≢◌, ◌↔◌, true, false, if◌then◌else◌};
ghost use Rattle.asl_c_sessions.specs.Opening.{IsOpened, WhyNot};
ghost use Rattle.asl_c_sessions.specs.Status.{IsCut, IsGone, IsStepped};

use crate::session_handle::Handle;
use crate::status::{BAD_HANDLE, DONE};
use crate::{kept, opening};
use std::alloc::Global;

/// Opens a session in the handle, which has none: so many threads of the program of the bytes, at their start. An image begins
/// with `ASLM`; all else is read as assembly text.
///
/// Status 0: opened. 2: no memory. 3: the handle has a session. 11: no thread, or more than the program may start. 12: no program.
#[unsafe(no_mangle)]
pub extern "C" fn asl_session_open_nonnull(
    alloc: Global,
    bytes: &[u8],
    threads: u32,
    handle: &mut Handle,
) -> u32
    ensures there { handle.old.live ≡ true → result ≡ 3 }
    ensures live { result ≡ 0 → handle.new.live ≡ true }
    ensures opened { result ≡ 0 → IsOpened bytes.now threads handle.new.slot.session }
    ensures refused { handle.old.live ≡ false → result ≢ 0 → WhyNot bytes.now threads result }
    ensures same { result ≢ 0 → handle.new ≡ handle.old }
{
    if handle.live {
        return BAD_HANDLE;
    }
    match opening::open(alloc, bytes, threads) {
        Ok(kept) => {
            *handle = Handle::of(kept);
            DONE
        }
        Err(status) => status,
    }
}

/// Closes the session.
///
/// Status 0: closed. 3: the handle has no session.
#[unsafe(no_mangle)]
pub extern "C" fn asl_session_close_nonnull(alloc: Global, handle: &mut Handle) -> u32
    ensures dead { handle.new.live ≡ false }
    ensures told { result ≡ (if handle.old.live then 0 else 3) }
{
    match handle.take(alloc) {
        Some(_session) => DONE,
        None => BAD_HANDLE,
    }
}

/// Steps the thread at the end of the journal, and writes the step down.
///
/// Status 0: stepped. 2: no memory. 3: the handle has no session. 4: no such thread. 14: events follow the position. 15: the
/// journal is full. Of 3, 14, 15 and 4 the first that applies.
#[unsafe(no_mangle)]
pub extern "C" fn asl_session_step_nonnull(alloc: Global, handle: &mut Handle, thread: u32) -> u32
    ensures live { handle.new.live ≡ handle.old.live }
    ensures no_session { result ≡ 3 ↔ handle.old.live ≡ false }
    ensures stepped { handle.old.live ≡ true → IsStepped handle.old.slot.session thread result handle.new.slot.session }
{
    match handle.take(alloc) {
        Some(session) => {
            let mut session = session;
            let status = kept::step(alloc, &mut session, thread);
            *handle = Handle::of(session);
            status
        }
        None => BAD_HANDLE,
    }
}

/// Goes to position k of the journal.
///
/// Status 0: there. 2: no memory. 3: the handle has no session. 13: no such position. Of 3 and 13 the first that applies.
#[unsafe(no_mangle)]
pub extern "C" fn asl_session_go_nonnull(alloc: Global, handle: &mut Handle, k: u32) -> u32
    ensures live { handle.new.live ≡ handle.old.live }
    ensures no_session { result ≡ 3 ↔ handle.old.live ≡ false }
    ensures gone { handle.old.live ≡ true → IsGone handle.old.slot.session k result handle.new.slot.session }
{
    match handle.take(alloc) {
        Some(session) => {
            let mut session = session;
            let status = kept::go(alloc, &mut session, k);
            *handle = Handle::of(session);
            status
        }
        None => BAD_HANDLE,
    }
}

/// Goes to position k of the journal, and forgets the events after it.
///
/// Status 0: done. 2: no memory. 3: the handle has no session. 13: no such position. Of 3 and 13 the first that applies.
#[unsafe(no_mangle)]
pub extern "C" fn asl_session_cut_nonnull(alloc: Global, handle: &mut Handle, k: u32) -> u32
    ensures live { handle.new.live ≡ handle.old.live }
    ensures no_session { result ≡ 3 ↔ handle.old.live ≡ false }
    ensures cut { handle.old.live ≡ true → IsCut handle.old.slot.session k result handle.new.slot.session }
{
    match handle.take(alloc) {
        Some(session) => {
            let mut session = session;
            let status = kept::cut(alloc, &mut session, k);
            *handle = Handle::of(session);
            status
        }
        None => BAD_HANDLE,
    }
}

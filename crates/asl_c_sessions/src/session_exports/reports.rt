//! Exports that report on a session and do not change it. C holds the session's box in parts, so each takes it out of the handle, which
//! is empty meanwhile, and puts it back.
ghost use Rattle.std.specs.Prelude.{◌≡◌, ◌≢◌, ◌↔◌, true, false, length, if◌then◌else◌};
ghost use Rattle.asl_c_sessions.specs.Pages.{log_text};
ghost use Rattle.asl_c_sessions.specs.Status.{IsPageTold, IsRunFileTold, IsTold};

use crate::kept;
use crate::pages::Page;
use crate::session_answers::{Place, put_bytes, put_text};
use crate::session_handle::Handle;
use crate::status::{BAD_HANDLE, DONE};
use std::alloc::Global;

/// Tells where the session is.
///
/// Status 0: told. 3: the handle has no session.
#[unsafe(no_mangle)]
pub extern "C" fn asl_session_place_nonnull(
    alloc: Global,
    handle: &mut Handle,
    place: &mut Place,
) -> u32
    ensures live { handle.new.live ≡ handle.old.live }
    ensures told { result ≡ (if handle.old.live then 0 else 3) }
    ensures same { handle.old.live ≡ true → handle.new.slot.session ≡ handle.old.slot.session }
    ensures position { handle.old.live ≡ true → place.new.position ≡ handle.old.slot.session.position }
    ensures events { handle.old.live ≡ true → place.new.events ≡ length handle.old.slot.session.log.events }
    ensures unwritten { handle.old.live ≡ false → place.new ≡ place.old }
{
    match handle.take(alloc) {
        Some(session) => {
            *place = kept::place(&session);
            *handle = Handle::of(session);
            DONE
        }
        None => BAD_HANDLE,
    }
}

/// What `asl debug view` prints of the machine that is shown.
///
/// Status 0: told. 2: no memory. 3: the handle has no session. The first of 3 and 2 that applies.
#[unsafe(no_mangle)]
pub extern "C" fn asl_session_view_nonnull(
    alloc: Global,
    handle: &mut Handle,
    text: &mut [u8],
    whole: &mut usize,
) -> u32
    ensures live { handle.new.live ≡ handle.old.live }
    ensures same { handle.old.live ≡ true → handle.new.slot.session ≡ handle.old.slot.session }
    ensures no_session { result ≡ 3 ↔ handle.old.live ≡ false }
    ensures told { handle.old.live ≡ true → IsPageTold Page.View handle.old.slot.session text.old text.new whole.new result }
    ensures unwritten { result ≢ 0 → (text.new ≡ text.old) × (whole.new ≡ whole.old) }
{
    match handle.take(alloc) {
        Some(session) => {
            let mut session = session;
            let told = kept::tell(alloc, &mut session, Page::View);
            *handle = Handle::of(session);
            put_text(told, text, whole)
        }
        None => BAD_HANDLE,
    }
}

/// What `asl debug asks` prints of the machine that is shown.
///
/// Status 0: told. 2: no memory. 3: the handle has no session. The first of 3 and 2 that applies.
#[unsafe(no_mangle)]
pub extern "C" fn asl_session_asks_nonnull(
    alloc: Global,
    handle: &mut Handle,
    text: &mut [u8],
    whole: &mut usize,
) -> u32
    ensures live { handle.new.live ≡ handle.old.live }
    ensures same { handle.old.live ≡ true → handle.new.slot.session ≡ handle.old.slot.session }
    ensures no_session { result ≡ 3 ↔ handle.old.live ≡ false }
    ensures told { handle.old.live ≡ true → IsPageTold Page.Asks handle.old.slot.session text.old text.new whole.new result }
    ensures unwritten { result ≢ 0 → (text.new ≡ text.old) × (whole.new ≡ whole.old) }
{
    match handle.take(alloc) {
        Some(session) => {
            let mut session = session;
            let told = kept::tell(alloc, &mut session, Page::Asks);
            *handle = Handle::of(session);
            put_text(told, text, whole)
        }
        None => BAD_HANDLE,
    }
}

/// What `asl debug stack` prints of the machine that is shown.
///
/// Status 0: told. 2: no memory. 3: the handle has no session. The first of 3 and 2 that applies.
#[unsafe(no_mangle)]
pub extern "C" fn asl_session_stack_nonnull(
    alloc: Global,
    handle: &mut Handle,
    text: &mut [u8],
    whole: &mut usize,
) -> u32
    ensures live { handle.new.live ≡ handle.old.live }
    ensures same { handle.old.live ≡ true → handle.new.slot.session ≡ handle.old.slot.session }
    ensures no_session { result ≡ 3 ↔ handle.old.live ≡ false }
    ensures told { handle.old.live ≡ true → IsPageTold Page.Stack handle.old.slot.session text.old text.new whole.new result }
    ensures unwritten { result ≢ 0 → (text.new ≡ text.old) × (whole.new ≡ whole.old) }
{
    match handle.take(alloc) {
        Some(session) => {
            let mut session = session;
            let told = kept::tell(alloc, &mut session, Page::Stack);
            *handle = Handle::of(session);
            put_text(told, text, whole)
        }
        None => BAD_HANDLE,
    }
}

/// What `asl debug objects` prints of the machine that is shown.
///
/// Status 0: told. 2: no memory. 3: the handle has no session. The first of 3 and 2 that applies.
#[unsafe(no_mangle)]
pub extern "C" fn asl_session_objects_nonnull(
    alloc: Global,
    handle: &mut Handle,
    text: &mut [u8],
    whole: &mut usize,
) -> u32
    ensures live { handle.new.live ≡ handle.old.live }
    ensures same { handle.old.live ≡ true → handle.new.slot.session ≡ handle.old.slot.session }
    ensures no_session { result ≡ 3 ↔ handle.old.live ≡ false }
    ensures told { handle.old.live ≡ true → IsPageTold Page.Objects handle.old.slot.session text.old text.new whole.new result }
    ensures unwritten { result ≢ 0 → (text.new ≡ text.old) × (whole.new ≡ whole.old) }
{
    match handle.take(alloc) {
        Some(session) => {
            let mut session = session;
            let told = kept::tell(alloc, &mut session, Page::Objects);
            *handle = Handle::of(session);
            put_text(told, text, whole)
        }
        None => BAD_HANDLE,
    }
}

/// The lines that `asl log` prints of the events from the first one given on.
///
/// Status 0: told. 2: no memory. 3: the handle has no session. The first of 3 and 2 that applies.
#[unsafe(no_mangle)]
pub extern "C" fn asl_session_log_nonnull(
    alloc: Global,
    handle: &mut Handle,
    first: u32,
    text: &mut [u8],
    whole: &mut usize,
) -> u32
    ensures live { handle.new.live ≡ handle.old.live }
    ensures same { handle.old.live ≡ true → handle.new.slot.session ≡ handle.old.slot.session }
    ensures no_session { result ≡ 3 ↔ handle.old.live ≡ false }
    ensures told { handle.old.live ≡ true → IsTold (log_text first handle.old.slot.session.log.events) text.old text.new whole.new result }
    ensures unwritten { result ≢ 0 → (text.new ≡ text.old) × (whole.new ≡ whole.old) }
{
    match handle.take(alloc) {
        Some(session) => {
            let told = session.log(alloc, first);
            *handle = Handle::of(session);
            put_text(told, text, whole)
        }
        None => BAD_HANDLE,
    }
}

/// The run file of the program and of the whole journal, wherever the session is: what `asl step --record` writes of its steps.
///
/// Status 0: told. 2: no memory. 3: the handle has no session. The first of 3 and 2 that applies.
#[unsafe(no_mangle)]
pub extern "C" fn asl_session_run_file_nonnull(
    alloc: Global,
    handle: &mut Handle,
    bytes: &mut [u8],
    whole: &mut usize,
) -> u32
    ensures live { handle.new.live ≡ handle.old.live }
    ensures same { handle.old.live ≡ true → handle.new.slot.session ≡ handle.old.slot.session }
    ensures no_session { result ≡ 3 ↔ handle.old.live ≡ false }
    ensures told { handle.old.live ≡ true → IsRunFileTold handle.old.slot.session bytes.old bytes.new whole.new result }
    ensures unwritten { result ≢ 0 → (bytes.new ≡ bytes.old) × (whole.new ≡ whole.old) }
{
    match handle.take(alloc) {
        Some(session) => {
            let file = session.run_file(alloc);
            *handle = Handle::of(session);
            put_bytes(file, bytes, whole)
        }
        None => BAD_HANDLE,
    }
}

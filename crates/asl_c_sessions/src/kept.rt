//! Methods that take a session by value, called on one that is borrowed: it is moved out of its place and put back.
ghost use Rattle.std.specs.Prelude.{◌≡◌, ◌≢◌, length, IfOk, string_bytes};
ghost use Rattle.asl_c_sessions.specs.Pages.{IsPage};
ghost use Rattle.asl_c_sessions.specs.Status.{IsCut, IsGone, IsStepped};

use crate::pages::Page;
use crate::session::Session;
use crate::session_answers::Place;
use crate::status::{move_status, step_status};
use asl_journal::Memory;
use core::mem::replace_with;
use std::alloc::{AllocError, Global};

/// Steps the thread at the end of the journal.
pub fn step<M: Memory>(memory: M, session: &mut Session, t: u32) -> u32
    ensures stepped { IsStepped session.old t result session.new }
    ensures growth { result ≡ 2 → M.refused memory }
    ensures other { result ≢ 3 }
{
    let answer = replace_with(session, (memory, t), Session::step);
    step_status(answer)
}

/// Goes to the position.
pub fn go<M: Memory>(memory: M, session: &mut Session, k: u32) -> u32
    ensures gone { IsGone session.old k result session.new }
    ensures growth { result ≡ 2 → M.refused memory }
    ensures other { result ≢ 3 }
{
    let answer = replace_with(session, (memory, k), Session::go);
    move_status(answer)
}

/// Goes to the position, and forgets the events after it.
pub fn cut<M: Memory>(memory: M, session: &mut Session, k: u32) -> u32
    ensures cut { IsCut session.old k result session.new }
    ensures growth { result ≡ 2 → M.refused memory }
    ensures other { result ≢ 3 }
{
    let answer = replace_with(session, (memory, k), Session::cut);
    move_status(answer)
}

/// The page of the machine that is shown.
pub fn tell(alloc: Global, session: &mut Session, page: Page) -> Result<String, AllocError>
    ensures same { session.new ≡ session.old }
    ensures text { IfOk result (λ text. IsPage page session.old (string_bytes text)) }
{
    replace_with(session, (alloc, page), Session::tell)
}

/// Where the session is.
pub fn place(session: &Session) -> Place
    ensures position { result.position ≡ session.now.position }
    ensures events { result.events ≡ length session.now.log.events }
{
    Place {
        position: session.position(),
        events: session.journal().events().len() as u32,
    }
}

//! A pointer that may own a session.
ghost use Rattle.std.specs.Prelude.{◌≡◌, Bool, true, false};
ghost use Rattle.std.specs.Coded.{coded_bool};
ghost use Rattle.asl_c_sessions.specs.Owned.{Kept, coded_kept};

use crate::session::Session;
use asl_c_memory::OpenBox;
use std::alloc::Global;
use std::marker::Model;

/// What C sees of a session: nothing.
#[repr(C)]
#[derive(Drop)]
pub struct Opaque {
    unused: u8,
}

/// A pointer that owns a session, or nothing.
#[repr(C)]
#[derive(Drop)]
pub struct Slot {
    at: *mut Opaque,
    alloc: Global,
    pub ghost owned: { Bool } by { coded_bool },
    pub ghost session: { Kept } by { coded_kept },
}

impl Model for Slot {
    ghost use Rattle.asl_c_sessions.specs.Owned.{slot_owns};

    ghost also_owns = { λ s. slot_owns s.owned s.alloc s.at s.session };
}

impl Slot {
    /// Nothing.
    pub fn none(alloc: Global) -> Slot
        ensures { result.owned ≡ false }
    {
        Slot {
            at: std::ptr::null_mut(),
            alloc,
        }
    }

    /// The session of the box.
    pub fn of_parts(parts: OpenBox<Session, Global>) -> Slot
        ensures owned { result.owned ≡ true }
        ensures session { result.session ≡ parts.value }
    {
        let OpenBox { ptr, alloc } = parts;
        Slot {
            at: ptr as *mut Opaque,
            alloc,
        }
    }

    /// The box of the session.
    pub fn into_parts(self) -> OpenBox<Session, Global>
        requires { self.owned ≡ true }
        ensures { result.value ≡ self.session }
    {
        let Slot { at, alloc } = self;
        OpenBox {
            ptr: at as *mut Session,
            alloc,
        }
    }
}

unsafe impl Send for Slot {}

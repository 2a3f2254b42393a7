//! A pointer that may own a program.
ghost use Rattle.std.specs.Prelude.{◌≡◌, Bool, true, false};
ghost use Rattle.std.specs.Coded.{coded_bool};
ghost use Rattle.asl_c_programs.specs.Owned.{Kept, coded_kept};

use crate::opened::Opened;
use asl_c_memory::OpenBox;
use std::alloc::Global;
use std::marker::Model;

/// What C sees of a program: nothing.
#[repr(C)]
#[derive(Drop)]
pub struct Opaque {
    unused: u8,
}

/// A pointer that owns a program, or nothing.
#[repr(C)]
#[derive(Drop)]
pub struct Slot {
    at: *mut Opaque,
    alloc: Global,
    pub ghost owned: { Bool } by { coded_bool },
    pub ghost program: { Kept } by { coded_kept },
}

impl Model for Slot {
    ghost use Rattle.asl_c_programs.specs.Owned.{slot_owns};

    ghost also_owns = { λ s. slot_owns s.owned s.alloc s.at s.program };
}

impl Slot {
    /// Nothing.
    pub fn none(alloc: Global) -> Slot
        ensures { result.owned ≡ false }
    {
        Slot {
            at: std::ptr::null_mut(),
            alloc,
        }
    }

    /// The program of the box.
    pub fn of_parts(parts: OpenBox<Opened, Global>) -> Slot
        ensures owned { result.owned ≡ true }
        ensures program { result.program ≡ parts.value }
    {
        let OpenBox { ptr, alloc } = parts;
        Slot {
            at: ptr as *mut Opaque,
            alloc,
        }
    }

    /// The box of the program.
    pub fn into_parts(self) -> OpenBox<Opened, Global>
        requires { self.owned ≡ true }
        ensures { result.value ≡ self.program }
    {
        let Slot { at, alloc } = self;
        OpenBox {
            ptr: at as *mut Opened,
            alloc,
        }
    }
}

unsafe impl Send for Slot {}

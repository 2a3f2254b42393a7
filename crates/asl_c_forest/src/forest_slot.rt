//! A pointer that may own a forest.
ghost use Rattle.std.specs.Prelude.{◌≡◌, Bool, true, false};
ghost use Rattle.asl_lock_forest.specs.Held.{Held, coded_held};
ghost use Rattle.std.specs.Coded.{coded_bool};

use asl_c_memory::OpenBox;
use asl_lock_forest::Forest;
use std::alloc::Global;
use std::marker::Model;

/// What C sees of a forest: nothing.
#[repr(C)]
#[derive(Drop)]
pub struct Opaque {
    unused: u8,
}

/// A pointer that owns a forest, or nothing.
#[repr(C)]
#[derive(Drop)]
pub struct Slot {
    at: *mut Opaque,
    alloc: Global,
    pub ghost owned: { Bool } by { coded_bool },
    pub ghost forest: { Held } by { coded_held },
}

impl Model for Slot {
    ghost use Rattle.asl_c_forest.specs.Owned.{slot_owns};

    ghost also_owns = { λ s. slot_owns s.owned s.alloc s.at s.forest };
}

impl Slot {
    /// Nothing.
    pub fn none(alloc: Global) -> Slot
        ensures { result.owned ≡ false }
    {
        Slot {
            at: std::ptr::null_mut(),
            alloc,
        }
    }

    /// The forest of the box.
    pub fn of_parts(parts: OpenBox<Forest, Global>) -> Slot
        ensures owned { result.owned ≡ true }
        ensures forest { result.forest ≡ parts.value }
    {
        let OpenBox { ptr, alloc } = parts;
        Slot {
            at: ptr as *mut Opaque,
            alloc,
        }
    }

    /// The box of the forest.
    pub fn into_parts(self) -> OpenBox<Forest, Global>
        requires { self.owned ≡ true }
        ensures { result.value ≡ self.forest }
    {
        let Slot { at, alloc } = self;
        OpenBox {
            ptr: at as *mut Forest,
            alloc,
        }
    }
}

unsafe impl Send for Slot {}

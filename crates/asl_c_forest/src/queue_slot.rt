//! A pointer that may own a queue.
ghost use Rattle.std.specs.Prelude.{◌≡◌, Bool, true, false};
ghost use Rattle.asl_lock_queue.specs.QueueState.{QueueState, coded_queue};
ghost use Rattle.std.specs.Coded.{coded_bool};

use crate::desk::Desk;
use asl_c_memory::OpenBox;
use std::alloc::Global;
use std::marker::Model;

/// What C sees of a queue: nothing.
#[repr(C)]
#[derive(Drop)]
pub struct OpaqueQueue {
    unused: u8,
}

/// A pointer that owns a queue, or nothing.
#[repr(C)]
#[derive(Drop)]
pub struct QueueSlot {
    at: *mut OpaqueQueue,
    alloc: Global,
    pub ghost owned: { Bool } by { coded_bool },
    pub ghost queue: { QueueState } by { coded_queue },
}

impl Model for QueueSlot {
    ghost use Rattle.asl_c_forest.specs.Owned.{queue_slot_owns};

    ghost also_owns = { λ s. queue_slot_owns s.owned s.alloc s.at s.queue };
}

impl QueueSlot {
    /// Nothing.
    pub fn none(alloc: Global) -> QueueSlot
        ensures { result.owned ≡ false }
    {
        QueueSlot {
            at: std::ptr::null_mut(),
            alloc,
        }
    }

    /// The queue of the box.
    pub fn of_parts(parts: OpenBox<Desk, Global>) -> QueueSlot
        ensures owned { result.owned ≡ true }
        ensures queue { result.queue ≡ parts.value }
    {
        let OpenBox { ptr, alloc } = parts;
        QueueSlot {
            at: ptr as *mut OpaqueQueue,
            alloc,
        }
    }

    /// The box of the queue.
    pub fn into_parts(self) -> OpenBox<Desk, Global>
        requires { self.owned ≡ true }
        ensures { result.value ≡ self.queue }
    {
        let QueueSlot { at, alloc } = self;
        OpenBox {
            ptr: at as *mut Desk,
            alloc,
        }
    }
}

unsafe impl Send for QueueSlot {}

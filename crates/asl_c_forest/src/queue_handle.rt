//! A queue that C keeps.
ghost use Rattle.std.specs.Prelude.{◌≡◌, true, false, IfSome, IfNone};

use crate::desk::Desk;
use crate::queue_slot::QueueSlot;
use asl_c_memory::OpenBox;
use std::alloc::Global;

/// A queue that C keeps, or none.
#[repr(C)]
#[derive(Drop)]
pub struct QueueHandle {
    pub live: bool,
    pub slot: QueueSlot,
    pub ghost agrees: { live ≡ slot.owned },
}

impl QueueHandle {
    /// No queue.
    pub fn none(alloc: Global) -> QueueHandle
        ensures { result.live ≡ false }
    {
        QueueHandle {
            live: false,
            slot: QueueSlot::none(alloc),
        }
    }

    /// The queue in the box.
    pub fn of(desk: Box<Desk>) -> QueueHandle
        ensures live { result.live ≡ true }
        ensures queue { result.slot.queue ≡ desk.value }
    {
        QueueHandle {
            live: true,
            slot: QueueSlot::of_parts(OpenBox::of(desk)),
        }
    }

    /// The box of the queue, if there is one.
    pub fn into_box(self) -> Option<Box<Desk>>
        ensures some { IfSome result (λ b. b.value ≡ self.slot.queue) }
        ensures live { IfSome result (λ b. self.live ≡ true) }
        ensures none { IfNone result (self.live ≡ false) }
    {
        if self.live {
            Some(self.slot.into_parts().into_box())
        } else {
            None
        }
    }

    /// Takes the box out, if there is one, and leaves none.
    pub fn take(&mut self, alloc: Global) -> Option<Box<Desk>>
        ensures some { IfSome result (λ b. b.value ≡ self.old.slot.queue) }
        ensures live { IfSome result (λ b. self.old.live ≡ true) }
        ensures none { IfNone result (self.old.live ≡ false) }
        ensures left { self.new.live ≡ false }
    {
        std::mem::replace(self, QueueHandle::none(alloc)).into_box()
    }
}

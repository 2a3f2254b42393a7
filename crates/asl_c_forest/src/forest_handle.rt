//! A forest that C keeps.
ghost use Rattle.std.specs.Prelude.{◌≡◌, ℕ, true, false, IfSome, IfNone};

use crate::forest_slot::Slot;
use asl_c_memory::OpenBox;
use asl_lock_forest::Forest;
use std::alloc::Global;

/// A forest that C keeps, or none.
#[repr(C)]
#[derive(Drop)]
pub struct Handle {
    pub live: bool,
    pub classes: u32,
    pub threads: u32,
    pub slot: Slot,
    pub ghost agrees: { live ≡ slot.owned },
    pub ghost classes_are: { live ≡ true → classes ≡ slot.forest.classes },
    pub ghost threads_are: { live ≡ true → threads ≡ slot.forest.threads },
}

impl Handle {
    /// No forest.
    pub fn none(alloc: Global) -> Handle
        ensures { result.live ≡ false }
    {
        Handle {
            live: false,
            classes: 0,
            threads: 0,
            slot: Slot::none(alloc),
        }
    }

    /// The forest in the box, of so many classes and threads.
    pub fn of(forest: Box<Forest>, classes: u32, threads: u32) -> Handle
        requires classes { classes ≡ forest.value.classes }
        requires threads { threads ≡ forest.value.threads }
        ensures live { result.live ≡ true }
        ensures forest { result.slot.forest ≡ forest.value }
    {
        Handle {
            live: true,
            classes,
            threads,
            slot: Slot::of_parts(OpenBox::of(forest)),
        }
    }

    /// The box of the forest, if there is one.
    pub fn into_box(self) -> Option<Box<Forest>>
        ensures some { IfSome result (λ b. b.value ≡ self.slot.forest) }
        ensures live { IfSome result (λ b. self.live ≡ true) }
        ensures none { IfNone result (self.live ≡ false) }
    {
        if self.live {
            Some(self.slot.into_parts().into_box())
        } else {
            None
        }
    }

    /// Takes the box out, if there is one, and leaves none.
    pub fn take(&mut self, alloc: Global) -> Option<Box<Forest>>
        ensures some { IfSome result (λ b. b.value ≡ self.old.slot.forest) }
        ensures live { IfSome result (λ b. self.old.live ≡ true) }
        ensures none { IfNone result (self.old.live ≡ false) }
        ensures left { self.new.live ≡ false }
    {
        std::mem::replace(self, Handle::none(alloc)).into_box()
    }
}

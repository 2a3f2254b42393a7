//! A program that C keeps.
ghost use Rattle.std.specs.Prelude.{◌≡◌, true, false, IfSome, IfNone};

use crate::opened::Opened;
use crate::program_slot::Slot;
use asl_c_memory::OpenBox;
use std::alloc::Global;

/// A program that C keeps, or none.
#[repr(C)]
#[derive(Drop)]
pub struct Handle {
    pub live: bool,
    pub slot: Slot,
    pub ghost agrees: { live ≡ slot.owned },
}

impl Handle {
    /// No program.
    pub fn none(alloc: Global) -> Handle
        ensures { result.live ≡ false }
    {
        Handle {
            live: false,
            slot: Slot::none(alloc),
        }
    }

    /// The program in the box.
    pub fn of(program: Box<Opened>) -> Handle
        ensures live { result.live ≡ true }
        ensures program { result.slot.program ≡ program.value }
    {
        Handle {
            live: true,
            slot: Slot::of_parts(OpenBox::of(program)),
        }
    }

    /// The box of the program, if there is one.
    pub fn into_box(self) -> Option<Box<Opened>>
        ensures some { IfSome result (λ b. b.value ≡ self.slot.program) }
        ensures live { IfSome result (λ b. self.live ≡ true) }
        ensures none { IfNone result (self.live ≡ false) }
    {
        if self.live {
            Some(self.slot.into_parts().into_box())
        } else {
            None
        }
    }

    /// Takes the box out, if there is one, and leaves none.
    pub fn take(&mut self, alloc: Global) -> Option<Box<Opened>>
        ensures some { IfSome result (λ b. b.value ≡ self.old.slot.program) }
        ensures live { IfSome result (λ b. self.old.live ≡ true) }
        ensures none { IfNone result (self.old.live ≡ false) }
        ensures left { self.new.live ≡ false }
    {
        std::mem::replace(self, Handle::none(alloc)).into_box()
    }
}

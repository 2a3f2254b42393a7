//! Where a text gets its memory.
ghost use Rattle.std.specs.Prelude.{◌≡◌, ◌++◌, OnErr, OnOk};

use std::alloc::{AllocError, Global};

/// Where a text gets its memory: the one call by which it grows. Where that is refused, `refused` holds. Nothing else is known of a
/// `Growth` that a call is given, so a call that says "want of memory only where `refused`" has asked, and was refused.
pub trait Growth: Copy {
    /// A growth was refused.
    ghost refused: { Self → Type 0 };

    /// Adds the bytes to the end of the text.
    ///
    /// # Errors
    ///
    /// An allocation failed.
    fn append(self, text: &mut Vec<u8>, bytes: &[u8]) -> Result<(), AllocError>
        ensures appended { OnOk result (text.new.items ≡ text.old.items ++ bytes.now) }
        ensures growth { OnErr result (refused self) };
}

/// The program's own: nothing is kept of what was refused.
impl Growth for Global {
    ghost refused = { λ _. Unit {0} };

    fn append(self, text: &mut Vec<u8>, bytes: &[u8]) -> Result<(), AllocError> {
        text.extend_from_slice(bytes)
    }
}

//! What calls hand over to C.
ghost use Rattle.std.specs.Prelude.{◌≡◌, ◌≢◌};
ghost use Rattle.asl_c_programs.specs.Status.{IsPut};

use crate::status::{DONE, NO_SUCH_NUMBER};

/// Writes the entry, if there is one.
pub fn put<T: Copy>(entry: Option<T>, to: &mut T) -> u32
    ensures put { IsPut entry to.old to.new result }
    ensures unwritten { result ≢ 0 → to.new ≡ to.old }
    ensures other { result ≢ 3 }
{
    match entry {
        Some(entry) => {
            *to = entry;
            DONE
        }
        None => NO_SUCH_NUMBER,
    }
}

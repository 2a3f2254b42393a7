//! What calls hand back to C: places, texts and bytes.
ghost use Rattle.std.specs.Prelude.{◌≡◌, ◌≢◌, length, IfOk, OnErr, is_ok, if◌then◌else◌, string_bytes};
ghost use Rattle.asl_c_memory.specs.Buffer.{Holds};

use crate::status::{DONE, NO_MEMORY};
use asl_c_memory::put_front;
use std::alloc::AllocError;

/// Where a session is: how many events lead to the machine that is shown, and how many the journal has.
#[derive(Clone, Copy, Drop)]
#[repr(C)]
pub struct Place {
    pub position: u32,
    pub events: u32,
}

/// Puts the text into the buffer as far as there is room, and its whole length beside it.
pub fn put_text(text: Result<String, AllocError>, buffer: &mut [u8], whole: &mut usize) -> u32
    ensures told { result ≡ (if is_ok text then 0 else 2) }
    ensures other { result ≢ 3 }
    ensures text { IfOk text (λ text. Holds (string_bytes text) buffer.old buffer.new × (whole.new ≡ length (string_bytes text))) }
    ensures unwritten { OnErr text ((buffer.new ≡ buffer.old) × (whole.new ≡ whole.old)) }
{
    match text {
        Ok(text) => hand_over(text.as_bytes(), buffer, whole),
        Err(_) => NO_MEMORY,
    }
}

/// The same of bytes.
pub fn put_bytes(bytes: Result<Vec<u8>, AllocError>, buffer: &mut [u8], whole: &mut usize) -> u32
    ensures told { result ≡ (if is_ok bytes then 0 else 2) }
    ensures other { result ≢ 3 }
    ensures bytes { IfOk bytes (λ bytes. Holds bytes.items buffer.old buffer.new × (whole.new ≡ length bytes.items)) }
    ensures unwritten { OnErr bytes ((buffer.new ≡ buffer.old) × (whole.new ≡ whole.old)) }
{
    match bytes {
        Ok(bytes) => hand_over(bytes.as_slice(), buffer, whole),
        Err(_) => NO_MEMORY,
    }
}

/// Puts what there is to tell into the buffer as far as there is room, and its whole length beside it.
fn hand_over(all: &[u8], buffer: &mut [u8], whole: &mut usize) -> u32
    ensures done { result ≡ 0 }
    ensures front { Holds all.now buffer.old buffer.new }
    ensures length { whole.new ≡ length all.now }
{
    put_front(all, buffer);
    *whole = all.len();
    DONE
}

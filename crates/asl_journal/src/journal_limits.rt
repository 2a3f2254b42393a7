//! How many threads and events a journal has at the most.

use asl_code::NEWEST_LIMITS;

/// How many threads a journal has at most (`docs/FORMATS.md`).
pub const MAX_THREADS: u32 = NEWEST_LIMITS.threads;

/// How many events a journal has at most (`docs/FORMATS.md`).
pub const MAX_EVENTS: usize = 16_777_216;

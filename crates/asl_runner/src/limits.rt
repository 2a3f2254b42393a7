//! The limit of a run's workers. That of its threads is the version's: `NEWEST_LIMITS` of asl_code.

/// How many workers there are at most.
pub const MAX_WORKERS: u32 = 8;

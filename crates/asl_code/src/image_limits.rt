//! What a version of the format sets, and how many there are at the most of each other part of an image.

ghost use Rattle.std.specs.Prelude.{◌≡◌, ◌↔◌, IsTrue, IfSome, IfNone};
ghost use Rattle.asl_code.specs.Versions.{IsVersion, limits_of, is_version, most_threads, most_locks, has_fresh, version_for};

/// What a version of the format sets.
#[derive(Clone, Copy)]
pub struct Limits {
    /// The most threads of a machine over an image of this version.
    pub threads: u32,
    /// The most locks of a list.
    pub locks: usize,
    /// Whether what a section has made is fresh for it.
    pub fresh: bool,
}

/// What version 1 sets.
const FIRST_LIMITS: Limits = Limits {
    threads: 64,
    locks: 64,
    fresh: false,
};

/// The newest version.
pub const NEWEST: u32 = 2;

/// What the newest version sets.
pub const NEWEST_LIMITS: Limits = Limits {
    threads: 128,
    locks: 256,
    fresh: true,
};

/// What this version of the format sets, if there is such a version. Nothing else depends on the version.
pub fn limits_of(version: u32) -> Option<Limits>
    ensures limits { result ≡ limits_of version }
    ensures known { IfSome result (λ limits. IsVersion version) }
    ensures threads { IfSome result (λ limits. limits.threads ≡ most_threads version) }
    ensures locks { IfSome result (λ limits. limits.locks ≡ most_locks version) }
    ensures fresh { IfSome result (λ limits. limits.fresh ≡ has_fresh version) }
    ensures unknown { IfNone result (¬ IsVersion version) }
{
    match version {
        1 => Some(FIRST_LIMITS),
        2 => Some(NEWEST_LIMITS),
        _ => None,
    }
}

/// Whether what a section has made is fresh for it, by images of this version.
pub fn has_fresh(version: u32) -> bool
    ensures { result ≡ has_fresh version }
{
    match limits_of(version) {
        Some(limits) => limits.fresh,
        None => false,
    }
}

/// Whether there is such a version.
pub fn is_version(version: u32) -> bool
    ensures value { result ≡ is_version version }
    ensures told { IsTrue result ↔ IsVersion version }
{
    limits_of(version).is_some()
}

/// The first version that has so many threads, where one has.
pub fn version_for(threads: u32) -> u32
    ensures { result ≡ version_for threads }
{
    if threads <= FIRST_LIMITS.threads {
        1
    } else {
        NEWEST
    }
}

/// The most classes.
pub const CLASSES: u32 = 1024;
/// The most globals.
pub const GLOBALS: usize = 1024;
/// The most functions.
pub const FUNCTIONS: usize = 256;
/// The most parameters of a function.
pub const PARAMS: u8 = 4;
/// The most registers of a function.
pub const REGS: u8 = 64;
/// The most instructions.
pub const CODE: usize = 65_535;
/// The most lock lists.
pub const LISTS: usize = 1024;

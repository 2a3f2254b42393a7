//! How long the paths of inferred locks may be.
ghost use Rattle.std.specs.Prelude.{◌≡◌, ◌≤◌, ◌<◌, IfSome, IfNone};

use std::marker::Model;

/// How many operations a path of an inferred lock has at most: 0 to 8.
#[derive(Drop)]
pub struct PathLimit {
    operations: u32,
}

impl Model for PathLimit {
    ghost use Rattle.std.specs.Prelude.{◌≤◌, ℕ};

    ghost Value = { ℕ };

    ghost view = { λ k_limit. k_limit.operations };

    ghost invariant = { λ k_limit. k_limit.operations ≤ 8 };
}

impl PathLimit {
    /// What is taken where nothing else is asked for.
    pub const fn usual() -> PathLimit
        ensures { result ≡ 3 }
    {
        PathLimit { operations: 3 }
    }

    /// So many operations, if a path may have so many.
    pub fn of(operations: u32) -> Option<PathLimit>
        ensures some { IfSome result (λ k_limit. k_limit ≡ operations) }
        ensures none { IfNone result (8 < operations) }
    {
        if operations <= 8 {
            Some(PathLimit { operations })
        } else {
            None
        }
    }

    /// How many operations.
    pub fn operations(&self) -> u32
        ensures value { result ≡ self.now }
        ensures few { result ≤ 8 }
    {
        self.operations
    }
}

//! The hash by which the row of a leaf is found.
ghost use Rattle.std.specs.Prelude.{◌≡◌};

use std::default::Default;
use std::hash::Hasher;

/// A hasher for keys of few bytes: one multiplication a byte, and none at the end.
///
/// Its start is fixed, so whoever picks the cells can make them collide.
#[derive(Clone, Copy)]
pub struct LeafHasher {
    state: u64,
}

impl Default for LeafHasher {
    ghost use Rattle.std.specs.Prelude.{◌≡◌};

    ghost is_default = { λ s. s ≡ record { state = 0xcbf29ce484222325 } };

    fn default() -> LeafHasher {
        LeafHasher {
            state: 0xcbf2_9ce4_8422_2325,
        }
    }
}

impl Hasher for LeafHasher {
    ghost use Rattle.asl_lock_forest.specs.LeafHash.{written};

    ghost write = { written };

    ghost finish = { λ h. h.state };

    #[inline(always)]
    fn finish(&self) -> u64 {
        self.state
    }

    #[inline(always)]
    fn write(&mut self, bytes: &[u8]) {
        let mut state = self.state;
        for byte in bytes {
            state = (state ^ u64::from(*byte)).wrapping_mul(0x100_0000_01b3);
        }
        self.state = state;
    }
}

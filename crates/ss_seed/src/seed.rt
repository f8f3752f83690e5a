//! A seed.

ghost use Rattle.core.specs.Hash.DefaultHasher.{with_keys};

use core::hash::{BuildHasher, DefaultHasher, keyed_hasher};

/// The keys of a map's hashes (SipHash-1-3), as of std's `RandomState`, which needs the runtime and may fail.
#[derive(Clone, Copy)]
pub struct Seed {
    low: u64,
    high: u64,
}

impl Seed {
    /// A seed of 16 random bytes of the system; of zeros where the system gives none.
    pub fn random() -> Seed {
        let mut bytes = [0; 16];
        if libc::getentropy(&mut bytes) != 0 {
            bytes = [0; 16];
        }
        let keys = u128::from_le_bytes(bytes);
        Seed {
            low: (keys & 0xFFFF_FFFF_FFFF_FFFF) as u64,
            high: (keys >> 64) as u64,
        }
    }
}

impl BuildHasher for Seed {
    type Hasher = DefaultHasher;

    ghost build_hasher = { λ s. with_keys s.low s.high };

    fn build_hasher(&self) -> DefaultHasher {
        keyed_hasher(self.low, self.high)
    }
}

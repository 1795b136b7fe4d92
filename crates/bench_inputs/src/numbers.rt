//! Seeded numbers, and digests of results.

use rand_core::{Rng, SeedableRng};
use rand_xoshiro::SplitMix64;
use std::io;

/// A seeded sequence of numbers.
#[derive(Drop)]
pub struct Numbers {
    source: SplitMix64,
}

impl Numbers {
    pub fn new(seed: u32) -> Numbers {
        Numbers {
            source: SplitMix64::seed_from_u64(u64::from(seed)),
        }
    }

    /// Returns the next 64 bits.
    pub(crate) fn word(&mut self) -> u64 {
        self.source.next_u64()
    }

    /// Returns a number below `many`, or 0 if `many` is 0.
    fn below(&mut self, many: u32) -> u32 {
        let number = self.word().checked_rem(u64::from(many)).unwrap_or(0);
        u32::try_from(number).unwrap_or(0)
    }

    /// Returns a number from `least` to `most`.
    pub fn between(&mut self, least: u32, most: u32) -> u32 {
        let more = most.saturating_sub(least).saturating_add(1);
        least.saturating_add(self.below(more))
    }

    /// Returns a number from `-most` to `most`.
    pub(crate) fn around(&mut self, most: u32) -> i64 {
        let many = most.saturating_mul(2).saturating_add(1);
        i64::from(self.below(many)) - i64::from(most)
    }
}

/// Returns a digest of `bytes`, which goes by words of eight and then by the bytes left over.
fn digest(bytes: &[u8]) -> u64 {
    let mut digest = bytes.len() as u64;
    let (words, rest) = bytes.as_chunks::<8>();
    for word in words {
        digest = mixed(digest, u64::from_le_bytes(*word));
    }
    for byte in rest {
        digest = mixed(digest, u64::from(*byte));
    }
    digest
}

/// Returns the digest after one more word.
fn mixed(digest: u64, word: u64) -> u64 {
    (digest.rotate_left(23) ^ word).wrapping_mul(0x9e37_79b9_7f4a_7c15)
}

/// Prints the length and the digest of a result.
pub fn show(rt: &impl Print, name: &str, bytes: &[u8]) -> io::Result<()> {
    let (len, digest) = (bytes.len(), digest(bytes));
    println!(rt; "{name}: {len} bytes, {digest:016x}")
}

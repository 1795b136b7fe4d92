//! Levels by SIMD: each lane of a vector has the samples of one output.

ghost use Rattle.std.specs.Prelude.{◌≡◌, ◌/◌, ◌*◌, ◌<◌, ◌^◌, length};

use std::simd::prelude::*;

/// The number of samples in a vector: one for each lane.
pub(crate) const LANES: usize = 8;

/// The bytes of a vector of samples.
const BLOCK: usize = 2 * LANES;

/// The levels of the samples in one lane.
#[derive(Clone, Copy)]
pub(crate) struct Lane {
    pub(crate) least: i16,
    pub(crate) greatest: i16,
    /// The number of samples at full scale, -32768 or 32767.
    pub(crate) full: i16,
}

/// The levels of whole blocks of samples, lane by lane.
#[derive(Clone, Copy)]
pub(crate) struct Lanes {
    pub(crate) blocks: usize,
    least: [i16; LANES],
    greatest: [i16; LANES],
    full: [i16; LANES],
}

impl Lanes {
    /// Counts the whole blocks of `bytes`. The limit on their length keeps each lane's count of full-scale samples
    /// within 16 bits.
    pub(crate) fn of(bytes: &[u8]) -> Lanes
        requires { length bytes.now < 524288 }
        ensures { result.blocks ≡ length bytes.now / 16 }
    {
        let blocks = bytes.len() / BLOCK;
        let mut least = i16x8::splat(0);
        let mut greatest = i16x8::splat(0);
        let mut full = i16x8::splat(0);
        for block in 0..blocks {
            let samples = i16x8::from_le_bytes(u8x16::from_slice(&bytes[BLOCK * block..]));
            least = least.simd_min(samples);
            greatest = greatest.simd_max(samples);
            let is_least = samples.simd_eq(i16x8::splat(i16::MIN));
            let is_greatest = samples.simd_eq(i16x8::splat(i16::MAX));
            full = full - (is_least | is_greatest).to_simd();
        }
        Lanes {
            blocks,
            least: least.to_array(),
            greatest: greatest.to_array(),
            full: full.to_array(),
        }
    }

    /// Returns the number of bytes in the blocks.
    pub(crate) fn bytes(&self) -> usize
        requires { self.now.blocks * 16 < 2 ^ 64 }
        ensures { result ≡ self.now.blocks * 16 }
    {
        self.blocks * BLOCK
    }

    /// Returns the levels of `lane`.
    pub(crate) fn lane(&self, lane: usize) -> Lane
        requires { lane < 8 }
    {
        Lane {
            least: self.least[lane],
            greatest: self.greatest[lane],
            full: self.full[lane],
        }
    }
}

//! Filters and rates from a seed, to compare with what is computed in the plainest way.

use sdf_filters::{Band, FilterSpec};

/// Numbers from a seed.
#[derive(Drop)]
pub(crate) struct Numbers {
    state: u64,
}

/// The values of `up` and `shift` of the filters: the more phases, the fewer steps lead to a total.
const KINDS: [(u32, u32); 10] = [
    (1, 15),
    (1, 12),
    (1, 11),
    (1, 0),
    (2, 12),
    (3, 10),
    (5, 9),
    (8, 7),
    (16, 6),
    (64, 3),
];

impl Numbers {
    pub(crate) fn new(seed: u64) -> Numbers {
        Numbers { state: seed }
    }

    /// Returns the next number below `limit`.
    pub(crate) fn below(&mut self, limit: u32) -> u32 {
        self.state = self
            .state
            .wrapping_mul(6_364_136_223_846_793_005)
            .wrapping_add(1_442_695_040_888_963_407);
        let number = (self.state >> 33) % u64::from(limit.max(1));
        u32::try_from(number).unwrap_or(0)
    }

    /// Returns the next number above `number`, by at most `width`.
    fn above(&mut self, number: u32, width: u32) -> u32 {
        number.saturating_add(1).saturating_add(self.below(width))
    }

    /// Returns the next attenuation. A third of these ask for few taps in any band.
    fn attenuation(&mut self) -> u32 {
        match self.below(3) {
            0 => self.above(5, 5),
            1 => self.below(30),
            _ => self.below(201),
        }
    }

    /// Returns the next band for `rate`, and a high-pass only if `up` is 1.
    fn band(&mut self, rate: u32, up: u32) -> Band {
        let width = rate / 8 / self.above(0, 60).max(1);
        let first = self.below(width);
        let second = self.above(first, width);
        let third = self.above(second, width);
        let fourth = self.above(third, width);
        match self.below(4) {
            0 => Band::Middle {
                low_stop: first,
                low_pass: second,
                pass: third,
                stop: fourth,
            },
            1 if up == 1 => Band::High {
                stop: third,
                pass: fourth,
            },
            2 => Band::Low {
                pass: 0,
                stop: second,
            },
            _ => Band::Low {
                pass: third,
                stop: fourth,
            },
        }
    }

    /// Returns the next filter.
    pub(crate) fn wanted(&mut self) -> FilterSpec {
        let kind = self.below(10) as usize;
        let (up, shift) = KINDS.get(kind).copied().unwrap_or((1, 15));
        let rate = self.above(8000, 1_000_000);
        FilterSpec {
            rate,
            band: self.band(rate, up),
            attenuation: self.attenuation(),
            up,
            shift,
        }
    }
}

//! Ratios of rates, and the stages that can be their first ones.

ghost use Rattle.std.specs.Prelude.{◌≡◌, ◌<◌, ◌+◌, ◌/◌, IfSome};
ghost use Rattle.std.specs.Int.{IsGcd};
ghost use Rattle.sdf_filters.specs.Stages.{IsLowest, IsPart};

use crate::stage::Stage;
use sdf_limits::MAX_FACTOR;

/// The number of places for stages: each `up` with each `down`.
const PLACES: u32 = MAX_FACTOR * MAX_FACTOR;

/// A ratio: `up` samples for `down`.
#[derive(Clone, Copy)]
pub(crate) struct Ratio {
    pub(crate) up: u32,
    pub(crate) down: u32,
}

/// Returns the greatest common divisor.
fn gcd(a: u32, b: u32) -> u32
    requires { 0 < a }
    ensures some { 0 < result }
    ensures is { IsGcd a b result }
{
    let mut x = a;
    let mut y = b;
    while y != 0 {
        let rest = x % y;
        x = y;
        y = rest;
    }
    x
}

/// Returns the ratio of two rates, in lowest terms.
pub(crate) fn lowest(from: u32, to: u32) -> Ratio
    requires from { 0 < from }
    requires to { 0 < to }
    ensures { IsLowest from to result.up result.down }
{
    let common = gcd(from, to);
    Ratio {
        up: to / common,
        down: from / common,
    }
}

impl Ratio {
    /// Returns the sum of its terms, which is 2 if the ratio is 1.
    pub(crate) fn sum(self) -> u64
        ensures { result ≡ self.up + self.down }
    {
        u64::from(self.up) + u64::from(self.down)
    }

    /// Returns the ratio that is left after a stage.
    pub(crate) fn after(self, stage: Stage) -> Ratio
        ensures up { result.up ≡ self.up / stage.up }
        ensures down { result.down ≡ self.down / stage.down }
    {
        Ratio {
            up: self.up / stage.up,
            down: self.down / stage.down,
        }
    }

    /// Returns the stage at `place` if it is a part of the ratio. Place 0 is for the stage that does nothing.
    pub(crate) fn part(self, place: u32) -> Option<Stage>
        ensures { IfSome result (IsPart self.up self.down) }
    {
        if place == 0 || place >= PLACES {
            return None;
        }
        let stage = Stage {
            up: place / MAX_FACTOR + 1,
            down: place % MAX_FACTOR + 1,
        };
        if self.up % stage.up == 0 && self.down % stage.down == 0 {
            Some(stage)
        } else {
            None
        }
    }
}

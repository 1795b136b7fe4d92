//! Splits, compared with splits that are found in the plainest way: by the cost of each stage with each split of the
//! rest.

use crate::made::Numbers;
use sdf_filters::{Stage, stages};
use std::alloc::Global;
use std::f64::consts::TAU;
use std::test::Fail;
use test_texts::says;

/// A ratio in lowest terms, or what is left of it.
#[derive(Clone, Copy)]
struct Ratio {
    up: u32,
    down: u32,
}

/// The values that the cost of stages depends on.
#[derive(Clone, Copy)]
struct Weights {
    lower: f64,
    taps: f64,
}

/// The cost of the cheapest split, and the place of its first stage.
#[derive(Clone, Copy)]
struct Best {
    cost: f64,
    place: u32,
}

/// Returns the greatest common divisor.
fn gcd(a: u32, b: u32) -> u32 {
    let (mut x, mut y) = (a, b);
    for _ in 0..64 {
        if y == 0 {
            break;
        }
        (x, y) = (y, x % y);
    }
    x
}

impl Ratio {
    /// Returns the stage at `place` if it is a part of the ratio.
    fn part(self, place: u32) -> Option<Stage> {
        let stage = Stage {
            up: place / 64 % 64 + 1,
            down: place % 64 + 1,
        };
        if place > 0 && self.up % stage.up == 0 && self.down % stage.down == 0 {
            Some(stage)
        } else {
            None
        }
    }

    /// Returns the ratio that is left after a stage.
    fn after(self, stage: Stage) -> Ratio {
        Ratio {
            up: self.up / stage.up.max(1),
            down: self.down / stage.down.max(1),
        }
    }
}

/// Returns the rate after a stage.
fn put(rate: f64, stage: Stage) -> f64 {
    rate * f64::from(stage.up) / f64::from(stage.down)
}

impl Weights {
    /// Returns the cost of a stage at the `rate` of its input.
    fn stage(self, rate: f64, stage: Stage) -> f64 {
        let up = f64::from(stage.up);
        let put = put(rate, stage);
        let width = rate.min(put) - self.lower * (10.0 / 11.0);
        let taps = self.taps * rate * up / width;
        let most = 1024.0 - up - 1.0;
        if put < self.lower || taps > most {
            f64::INFINITY
        } else {
            taps / up * put
        }
    }

    /// Returns the ratio `left` as one stage, with its cost.
    fn whole(self, rate: f64, left: Ratio) -> Best {
        if left.up > 64 || left.down > 64 {
            return Best {
                cost: f64::INFINITY,
                place: 0,
            };
        }
        let place = left.up.saturating_sub(1) * 64 + left.down.saturating_sub(1);
        let cost = match left.part(place) {
            Some(stage) => self.stage(rate, stage),
            None => 0.0,
        };
        Best { cost, place }
    }

    /// Returns the cheapest split into at most two stages.
    fn two(self, rate: f64, left: Ratio) -> Best {
        let mut best = self.whole(rate, left);
        for place in 1..4096 {
            if let Some(stage) = left.part(place) {
                let rest = self.whole(put(rate, stage), left.after(stage));
                let cost = self.stage(rate, stage) + rest.cost;
                if cost < best.cost {
                    best = Best { cost, place };
                }
            }
        }
        best
    }

    /// Returns the cheapest split into at most three stages.
    fn three(self, rate: f64, left: Ratio) -> Best {
        let mut best = self.whole(rate, left);
        for place in 1..4096 {
            if let Some(stage) = left.part(place) {
                let rest = self.two(put(rate, stage), left.after(stage));
                let cost = self.stage(rate, stage) + rest.cost;
                if cost < best.cost {
                    best = Best { cost, place };
                }
            }
        }
        best
    }

    /// Returns the first stage of the cheapest split, or the stage of the least factor if no split fits.
    fn next(self, rate: f64, left: Ratio) -> Option<Stage> {
        let best = self.three(rate, left);
        if best.cost < f64::INFINITY {
            return left.part(best.place);
        }
        let up = (2..65u32).find(|factor| left.up % *factor == 0);
        let down = (2..65u32).find(|factor| left.down % *factor == 0);
        match (up, down) {
            (Some(up), _) => left.part(up.saturating_sub(1).saturating_mul(64)),
            (None, Some(down)) => left.part(down.saturating_sub(1)),
            (None, None) => None,
        }
    }
}

/// Returns the stages between two rates as a text, or `none` if a factor is too large.
fn plain_text(alloc: Global, from: u32, to: u32, attenuation: u32) -> Result<String, Fail> {
    let common = gcd(from, to).max(1);
    let mut left = Ratio {
        up: to / common,
        down: from / common,
    };
    let weights = Weights {
        lower: f64::from(from.min(to)),
        taps: (f64::from(attenuation) - 7.95).max(1.0) / (2.285 * TAU),
    };
    let mut rate = f64::from(from);
    let mut text = String::new(alloc);
    for _ in 0..64 {
        if left.up.saturating_add(left.down) <= 2 {
            break;
        }
        let Some(stage) = weights.next(rate, left) else {
            return Ok(String::from_str(alloc, "none")?);
        };
        write!(text, "{}/{} ", stage.up, stage.down)?;
        left = left.after(stage);
        rate = put(rate, stage);
    }
    Ok(text)
}

/// Returns the stages between two rates as a text, or `none` if there is a fault.
fn stages_text(alloc: Global, from: u32, to: u32, attenuation: u32) -> Result<String, Fail> {
    let Ok(stages) = stages(alloc, from, to, attenuation) else {
        return Ok(String::from_str(alloc, "none")?);
    };
    let mut text = String::new(alloc);
    for stage in &stages {
        write!(text, "{}/{} ", stage.up, stage.down)?;
    }
    Ok(text)
}

/// Returns a rate of a few factors, each at most `most`.
fn rate(numbers: &mut Numbers, most: u32) -> u32 {
    let mut rate = 1u32;
    for _ in 0..numbers.below(8) {
        rate = rate.saturating_mul(numbers.below(most).saturating_add(1));
    }
    rate
}

/// Returns the pairs of rates whose stages differ from the plain ones.
fn others(alloc: Global, seed: u64, pairs: u32) -> Result<String, Fail> {
    let mut text = String::new(alloc);
    let mut numbers = Numbers::new(seed);
    for _ in 0..pairs {
        let from = rate(&mut numbers, 16);
        let to = rate(&mut numbers, 16);
        let attenuation = numbers.below(201);
        let plain = plain_text(alloc, from, to, attenuation)?;
        let split = stages_text(alloc, from, to, attenuation)?;
        if plain.as_str() != split.as_str() {
            writeln!(text, "{from} to {to}: {split}in place of {plain}")?;
        }
    }
    Ok(text)
}

/// Tests that no stage is left out, and that the earlier one is taken of two equally cheap splits.
#[test]
fn splits_as_plainly(rt: HostRuntime) -> Result<(), Fail> {
    says(others(rt.alloc(), 3, 200), "")
}

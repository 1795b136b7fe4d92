//! The cost of a split into stages, in floats. No clause says anything of it.
//!
//! A stage takes r samples a second and puts s, and `rule` gives its cost. The cost of a split is the sum over its
//! stages. A stage cannot be taken if it has more taps than a filter may have, or if s is below the lower rate.
//!
//! By the rule of 16-bit taps, Kaiser's formula gives the number of taps, at the rate r * up. Frequencies pass up to p,
//! which is ten elevenths of half the lower rate of the conversion. They are stopped from the lesser of r and s, minus
//! p, on. The products a second of the stage are the number of its taps, divided by `up`, times s.
//! By the rule of wide taps, `wide_cost` has the cost.

ghost use Rattle.std.specs.Prelude.{IfSome};
ghost use Rattle.sdf_filters.specs.Stages.{IsPart};

use crate::ratio::Ratio;
use crate::stage::Stage;
use crate::wide_cost::{Place, WideRule};
use sdf_limits::{MAX_FACTOR, MAX_TAPS};
use std::f64::consts::TAU;
use std::num::nearest_usize_to_f64;

/// The greatest number of stages of the splits that are compared.
const MAX_STAGES: u32 = 3;

/// The part of half the lower rate that passes.
const PASSED: f64 = 10.0 / 11.0;

/// The values that the cost of a conversion's stages depends on.
#[derive(Clone, Copy)]
pub(crate) struct Weights {
    /// The lower rate.
    lower: f64,
    rule: Rule,
}

/// The rule of the cost of a stage.
#[derive(Clone, Copy)]
enum Rule {
    /// Taps of 16 bits: their number, times the Hz between passed and stopped frequencies, for each sample a second of
    /// the filter.
    Narrow { taps: f64 },
    Wide(WideRule),
}

/// The cost of the cheapest split, infinite if there is none, and the place of its first stage.
#[derive(Clone, Copy)]
pub(crate) struct Best {
    cost: f64,
    place: u32,
}

impl Weights {
    /// Returns the weights of a conversion between two rates by taps of 16 bits, with this `attenuation` in dB.
    pub(crate) fn narrow(from: f64, to: f64, attenuation: f64) -> Weights {
        let taps = (attenuation - 7.95).max(1.0) / (2.285 * TAU);
        Weights {
            lower: from.min(to),
            rule: Rule::Narrow { taps },
        }
    }

    /// Returns the weights of a conversion between two rates by wide taps.
    pub(crate) fn wide(from: f64, to: f64, rule: WideRule) -> Weights {
        Weights {
            lower: from.min(to),
            rule: Rule::Wide(rule),
        }
    }

    /// Returns the products a second of a stage that takes `rate` samples a second, infinite if it has too many taps.
    fn products(self, rate: f64, up: f64, put: f64, at: Place) -> f64 {
        match self.rule {
            Rule::Narrow { taps } => {
                let taps = taps * rate * up / (rate.min(put) - self.lower * PASSED);
                // The number of taps is rounded up to a whole number, and then to whole phases.
                if taps > nearest_usize_to_f64(MAX_TAPS) - up - 1.0 {
                    f64::INFINITY
                } else {
                    taps / up * put
                }
            }
            Rule::Wide(rule) => rule.products(rate, up, put, at),
        }
    }

    /// Returns the cost of a stage that takes `rate` samples a second, infinite if it cannot be taken.
    fn stage(self, rate: f64, up: u32, down: u32, at: Place) -> f64 {
        let up = f64::from(up);
        let put = rate * up / f64::from(down);
        if put < self.lower {
            f64::INFINITY
        } else {
            self.products(rate, up, put, at)
        }
    }

    /// Returns the ratio `left` as one stage, with its cost.
    fn whole(self, rate: f64, left: Ratio, is_first: bool) -> Best {
        if left.up > MAX_FACTOR || left.down > MAX_FACTOR {
            return Best {
                cost: f64::INFINITY,
                place: 0,
            };
        }
        let place = left.up.saturating_sub(1) * MAX_FACTOR + left.down.saturating_sub(1);
        let cost = if place == 0 {
            0.0
        } else {
            let at = Place {
                is_first,
                is_last: true,
            };
            self.stage(rate, left.up, left.down, at)
        };
        Best { cost, place }
    }

    /// Returns the stage of the ratio `left` at `place` with its cost, if that is below `most`.
    fn cheaper(
        self,
        rate: f64,
        left: Ratio,
        place: u32,
        is_first: bool,
        most: f64,
    ) -> Option<(Stage, f64)> {
        let stage = left.part(place)?;
        let at = Place {
            is_first,
            is_last: false,
        };
        let cost = self.stage(rate, stage.up, stage.down, at);
        if cost < most {
            Some((stage, cost))
        } else {
            None
        }
    }

    /// Returns the cheapest split of the ratio `left` into at most `stages` stages. It does not split the rest after a
    /// stage that alone costs too much.
    fn best(self, rate: f64, left: Ratio, is_first: bool, stages: u32) -> Best {
        let mut best = self.whole(rate, left, is_first);
        if stages < 2 {
            return best;
        }
        for row in 0..MAX_FACTOR {
            if left.up % (row + 1) != 0 {
                continue;
            }
            let start = row * MAX_FACTOR;
            for place in start..start + MAX_FACTOR {
                if let Some((stage, own)) = self.cheaper(rate, left, place, is_first, best.cost) {
                    let put = rate * f64::from(stage.up) / f64::from(stage.down);
                    let rest = self.best(put, left.after(stage), false, stages - 1);
                    let cost = own + rest.cost;
                    if cost < best.cost {
                        best = Best { cost, place };
                    }
                }
            }
        }
        best
    }

    /// Returns the greatest number of stages after `before` others. By the rule of 16-bit taps it is always the same.
    fn most_stages(self, before: usize) -> u32 {
        match self.rule {
            Rule::Narrow { .. } => MAX_STAGES,
            Rule::Wide(_) => MAX_STAGES.saturating_sub(before.min(2) as u32),
        }
    }

    /// Returns the next stage of the cheapest split of the ratio `left`, before which there are `before` stages.
    pub(crate) fn next(self, rate: f64, left: Ratio, before: usize) -> Option<Stage>
        ensures { IfSome result (IsPart left.up left.down) }
    {
        let best = self.best(rate, left, before == 0, self.most_stages(before));
        if best.cost < f64::INFINITY {
            left.part(best.place)
        } else {
            None
        }
    }
}

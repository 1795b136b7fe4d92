//! The cost of a stage of wide taps, in floats. No clause says anything of it.
//!
//! One stage is sharp: the first one going up, and the last one going down. It stops all from half the lower rate on.
//! Each other stage stops only what would be heard. Behind the sharp stage these are the images of what passes it,
//! which begin at the rate of its input minus half the lower rate. Before the sharp stage it is what would be folded
//! onto half the lower rate, which begins at the rate of its output minus that. If this is over the rate of its input,
//! it begins there.

use crate::fitted::Edges;
use sdf_limits::MAX_TAPS;
use std::f64::consts::PI;
use std::num::nearest_usize_to_f64;

/// The samples that a filter's kernel takes at a time.
const SIDE: f64 = 16.0;

/// The part of Kaiser's number of taps that a placed filter has.
const SHARP: f64 = 0.94;

const OTHER: f64 = 1.02;

/// The distance, in samples from the middle, at which the sinc of a low-pass falls under the size of a tap that the
/// second list has whole. Kaiser's window makes it shorter.
const LARGE: f64 = 60.7;

/// The place of a stage in a conversion.
#[derive(Clone, Copy)]
pub(crate) struct Place {
    pub(crate) is_first: bool,
    pub(crate) is_last: bool,
}

/// The values that the filters of a conversion by wide taps depend on.
#[derive(Clone, Copy)]
pub(crate) struct WideRule {
    /// Half the lower rate, and the highest frequency that passes.
    pub(crate) half: f64,
    pub(crate) pass: f64,
    /// The attenuation of the sharp stage, in dB.
    pub(crate) attenuation: u32,
    /// The dB that may be lost by the sharp stage, and by each other one.
    pub(crate) sharp_loss: f64,
    pub(crate) other_loss: f64,
    pub(crate) rises: bool,
    /// The number of taps that stages leave free, for zeros and for what the formula does not see.
    pub(crate) room: f64,
}

impl WideRule {
    /// Returns whether a stage is the sharp one.
    fn is_sharp(self, at: Place) -> bool {
        if self.rises { at.is_first } else { at.is_last }
    }

    /// Returns the frequency from which a stage that is not sharp stops.
    fn other_stop(self, rate: f64, put: f64) -> f64 {
        if self.rises {
            rate - self.half
        } else {
            (put - self.half).min(rate)
        }
    }

    /// Returns the filter of a stage that takes `rate` samples a second and puts `put`.
    pub(crate) fn edges(self, rate: f64, up: f64, put: f64, at: Place) -> Edges {
        let sharp = self.is_sharp(at);
        let stop = if sharp {
            self.half
        } else {
            self.other_stop(rate, put)
        };
        Edges {
            rate: rate * up,
            pass: self.pass,
            stop: stop.min(rate * up / 2.0),
            attenuation: if sharp {
                self.attenuation
            } else {
                self.attenuation.saturating_sub(6)
            },
            loss: if sharp {
                self.sharp_loss
            } else {
                self.other_loss
            },
        }
    }

    /// Returns the products a second of a stage, infinite if it has too many taps.
    pub(crate) fn products(self, rate: f64, up: f64, put: f64, at: Place) -> f64 {
        let edges = self.edges(rate, up, put, at);
        let kaiser = edges.taps();
        let taps = if self.is_sharp(at) {
            kaiser * SHARP
        } else {
            kaiser * OTHER
        };
        if edges.stop <= edges.pass || taps > nearest_usize_to_f64(MAX_TAPS) - self.room {
            return f64::INFINITY;
        }
        let width = (taps / up).ceil();
        let high = high_width(width, edges.attenuation);
        let passes = if at.is_first { 1.0 } else { 2.0 };
        (padded(width) + padded(high) * passes) * put
    }
}

/// Returns `width` rounded up to whole sides.
fn padded(width: f64) -> f64 {
    (width / SIDE).ceil() * SIDE
}

/// Returns the width of the stretch of large taps of a filter with this `width` of taps in each phase.
fn high_width(width: f64, attenuation: u32) -> f64 {
    let beta = 0.1102 * (f64::from(attenuation) - 8.7).max(0.0);
    let mut low = 0.0f64;
    let mut high = 1.0f64;
    for _ in 0..12 {
        let part: f64 = (low + high) / 2.0;
        let window = (beta * ((1.0 - part * part).sqrt() - 1.0)).exp();
        if window * LARGE > part * width / 2.0 {
            low = part;
        } else {
            high = part;
        }
    }
    (low * width).max(1.0)
}

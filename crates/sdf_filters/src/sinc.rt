//! The real values of a low-pass, in floats: a sinc under Kaiser's window. No clause says what they are.

ghost use Rattle.std.specs.Prelude.{◌≡◌, ◌<◌, ◌≤◌, length, IfOk};

use std::alloc::{AllocError, Global};
use std::f64::consts::{PI, TAU};
use std::num::{nearest_usize_to_f64, saturating_f64_to_i32, saturating_f64_to_usize};

/// A sinc under Kaiser's window, about the middle of its places, times `up` and `2^shift`.
#[derive(Clone, Copy)]
pub(crate) struct Sinc {
    /// The frequency at which the filter has half its height, as a part of the rate.
    edge: f64,
    /// The window's parameter.
    beta: f64,
    /// The window's height at its middle, before it is scaled to 1.
    peak: f64,
    up: f64,
    unit: f64,
    middle: f64,
}

impl Sinc {
    /// Makes a sinc of `count` places, for a filter that has half its height at `edge` times the rate.
    pub(crate) fn new(edge: f64, attenuation: u32, up: f64, unit: f64, count: usize) -> Sinc {
        let last = count.saturating_sub(1);
        let beta = kaiser_beta(f64::from(attenuation));
        Sinc {
            edge,
            beta,
            peak: bessel(beta),
            up,
            unit,
            middle: nearest_usize_to_f64(last) / 2.0,
        }
    }

    /// Returns its value at `place`.
    fn at(&self, place: usize) -> f64 {
        let from_middle = nearest_usize_to_f64(place) - self.middle;
        let part = if self.middle == 0.0 {
            0.0
        } else {
            from_middle / self.middle
        };
        let inside = (1.0 - part * part).max(0.0).sqrt();
        let window = bessel(self.beta * inside) / self.peak;
        self.up * sine_over(self.edge, from_middle) * window * self.unit
    }
}

/// Returns the sinc of a low-pass of unit height, `from_middle` places from its middle.
fn sine_over(edge: f64, from_middle: f64) -> f64 {
    if from_middle == 0.0 {
        2.0 * edge
    } else {
        (TAU * edge * from_middle).sin() / (PI * from_middle)
    }
}

/// Returns the window's parameter for an attenuation in dB, by Kaiser's formula.
fn kaiser_beta(attenuation: f64) -> f64 {
    if attenuation > 50.0 {
        0.1102 * (attenuation - 8.7)
    } else if attenuation > 21.0 {
        0.5842 * (attenuation - 21.0).powf(0.4) + 0.07886 * (attenuation - 21.0)
    } else {
        0.0
    }
}

/// Returns the modified Bessel function of order 0, by its series. For arguments up to 22, the terms after 60 are
/// small.
fn bessel(x: f64) -> f64 {
    let mut total = 1.0;
    let mut term = 1.0;
    for k in 1u32..500 {
        if term <= total * 1e-17 {
            break;
        }
        let ratio = x / f64::from(2 * k);
        term *= ratio * ratio;
        total += term;
    }
    total
}

/// Returns the number of taps, by Kaiser's formula, for an attenuation in dB. `band` is the width in Hz between passed
/// and stopped frequencies.
pub(crate) fn kaiser_length(attenuation: u32, band: f64, rate: f64) -> usize {
    let width = TAU * band / rate;
    let order = (f64::from(attenuation) - 7.95) / (2.285 * width);
    saturating_f64_to_usize(order.ceil()).saturating_add(1)
}

/// Returns the values at all places. The second half mirrors the first one.
pub(crate) fn real_taps(alloc: Global, sinc: Sinc, count: usize) -> Result<Vec<f64>, AllocError>
    ensures { IfOk result (λ reals. length reals.items ≡ count) }
{
    let mut reals = Vec::new(alloc);
    for place in 0..count {
        let other = count - 1 - place;
        let real = if other < place {
            reals[other]
        } else {
            sinc.at(place)
        };
        reals.push(real)?;
    }
    Ok(reals)
}

/// Returns the nearest whole numbers, and the even one of two that are equally near.
pub(crate) fn rounded_taps(alloc: Global, reals: &[f64]) -> Result<Vec<i32>, AllocError>
    ensures { IfOk result (λ taps. length taps.items ≡ length reals.now) }
{
    let mut taps = Vec::new(alloc);
    for real in reals {
        taps.push(saturating_f64_to_i32(real.round_ties_even()))?;
    }
    Ok(taps)
}

/// Returns how far `tap` is beyond its real value in the direction of a step, up if `rise`.
pub(crate) fn overshoot(tap: f64, real: f64, rise: bool) -> f64 {
    let over = tap - real;
    if rise { over } else { -over }
}

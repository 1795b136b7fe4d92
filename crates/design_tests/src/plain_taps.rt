//! Taps that are computed in the plainest way: each step looks at every place for the tap to move.

use sdf_filters::{Band, FilterSpec};
use std::alloc::Global;
use std::f64::consts::{PI, TAU};
use std::num::{nearest_usize_to_f64, saturating_f64_to_i32, saturating_f64_to_usize};
use std::test::Fail;

/// The greatest absolute value of a tap that can still be moved.
const FARTHEST: u32 = 65_536;

/// The taps of a filter, or the size of a tap of over 16 bits. The size is 0 if the filter needs too many taps.
pub(crate) type Taps = Result<Vec<i32>, u32>;

/// A low-pass with a number of taps.
#[derive(Clone, Copy)]
struct Plain {
    edge: f64,
    attenuation: f64,
    up: usize,
    unit: i32,
    count: usize,
}

/// Returns the window's parameter, by Kaiser's formula.
fn shape(attenuation: f64) -> f64 {
    if attenuation > 50.0 {
        0.1102 * (attenuation - 8.7)
    } else if attenuation > 21.0 {
        0.5842 * (attenuation - 21.0).powf(0.4) + 0.07886 * (attenuation - 21.0)
    } else {
        0.0
    }
}

/// Returns the modified Bessel function of order 0.
fn bessel(x: f64) -> f64 {
    let mut total = 1.0;
    let mut term = 1.0;
    for k in 1u32..500 {
        if term <= total * 1e-17 {
            break;
        }
        let ratio = x / f64::from(2 * k);
        term *= ratio * ratio;
        total += term;
    }
    total
}

/// Returns the sinc of a low-pass of unit height.
fn sine_over(edge: f64, from_middle: f64) -> f64 {
    if from_middle == 0.0 {
        2.0 * edge
    } else {
        (TAU * edge * from_middle).sin() / (PI * from_middle)
    }
}

/// Returns the number of taps that a filter of one phase needs.
fn kaiser_length(wanted: FilterSpec, pass: u32, stop: u32) -> usize {
    let width = TAU * f64::from(stop.saturating_sub(pass)) / f64::from(wanted.rate);
    let order = (f64::from(wanted.attenuation) - 7.95) / (2.285 * width);
    saturating_f64_to_usize(order.ceil()).saturating_add(1)
}

/// Rounds a number of taps up to whole phases.
fn whole(count: usize, up: usize) -> usize {
    count.max(1).div_ceil(up.max(1)).saturating_mul(up)
}

/// The phase and the direction of a step, and the bias of the middle tap.
#[derive(Clone, Copy)]
struct Step {
    phase: usize,
    rise: bool,
    bias: f64,
}

/// Returns how much later the middle tap is moved than by its value.
fn middle_bias(done: u64, times: u64, many: u64) -> f64 {
    let last = times % many.max(1);
    let left = times.saturating_sub(done);
    if last % 2 == 1 && left == last {
        -1.0
    } else if last % 2 == 0 && left <= last {
        1.0
    } else {
        0.0
    }
}

impl Plain {
    /// Makes the low-pass of a filter between two frequencies.
    fn new(wanted: FilterSpec, pass: u32, stop: u32, count: usize) -> Plain {
        Plain {
            edge: (f64::from(pass) + f64::from(stop)) / f64::from(wanted.rate) / 2.0,
            attenuation: f64::from(wanted.attenuation),
            up: wanted.up as usize,
            unit: 1i32.wrapping_shl(wanted.shift),
            count,
        }
    }

    /// Returns the value at `place`.
    fn at(self, place: usize) -> f64 {
        let beta = shape(self.attenuation);
        let middle = nearest_usize_to_f64(self.count.saturating_sub(1)) / 2.0;
        let from_middle = nearest_usize_to_f64(place) - middle;
        let part = if middle == 0.0 {
            0.0
        } else {
            from_middle / middle
        };
        let inside = (1.0 - part * part).max(0.0).sqrt();
        let window = bessel(beta * inside) / bessel(beta);
        let up = nearest_usize_to_f64(self.up);
        up * sine_over(self.edge, from_middle) * window * f64::from(self.unit)
    }

    /// Returns the values at all places.
    fn reals(self, alloc: Global) -> Result<Vec<f64>, Fail> {
        let mut reals = Vec::new(alloc);
        for place in 0..self.count {
            let other = self.count.saturating_sub(1).saturating_sub(place);
            reals.push(self.at(place.min(other)))?;
        }
        Ok(reals)
    }

    /// Returns how late the tap at `place` is moved.
    fn lateness(self, taps: &[i32], reals: &[f64], step: Step, place: usize) -> f64 {
        let tap = taps.get(place).copied().unwrap_or(0);
        let real = reals.get(place).copied().unwrap_or(0.0);
        let over = f64::from(tap) - real;
        let over = if step.rise { over } else { -over };
        if place.saturating_mul(2).saturating_add(1) == self.count {
            over + step.bias
        } else {
            over
        }
    }

    /// Returns whether the tap at `place` is moved before the tap at `other`.
    fn is_sooner(
        self,
        taps: &[i32],
        reals: &[f64],
        step: Step,
        place: usize,
        other: usize,
    ) -> bool {
        let here = self.lateness(taps, reals, step, place);
        let there = self.lateness(taps, reals, step, other);
        let last = self.count.saturating_sub(1);
        let near = last.abs_diff(place.saturating_mul(2));
        here < there || here == there && near < last.abs_diff(other.saturating_mul(2))
    }

    /// Returns the place of the tap that a step moves.
    fn next_place(self, taps: &[i32], reals: &[f64], step: Step) -> usize {
        let mut best = step.phase;
        for place in 0..self.count {
            if place % self.up.max(1) == step.phase
                && self.is_sooner(taps, reals, step, place, best)
            {
                best = place;
            }
        }
        best
    }

    /// Returns the sum of the taps of `phase`.
    fn sum(self, taps: &[i32], phase: usize) -> i64 {
        let mut sum = 0i64;
        for (place, tap) in taps.iter().enumerate() {
            if place % self.up.max(1) == phase {
                sum = sum.wrapping_add(i64::from(*tap));
            }
        }
        sum
    }

    /// Moves taps of `phase` until they sum to the unit, or until one is too large to be moved.
    fn settle_phase(self, taps: &mut [i32], reals: &[f64], phase: usize) -> Result<(), u32> {
        let sum = self.sum(taps, phase);
        let rise = sum < i64::from(self.unit);
        let times = i64::from(self.unit).abs_diff(sum);
        let many = (self.count / self.up.max(1)) as u64;
        for done in 0..times {
            let bias = middle_bias(done, times, many);
            let place = self.next_place(taps, reals, Step { phase, rise, bias });
            if let Some(tap) = taps.get_mut(place) {
                if tap.unsigned_abs() > FARTHEST {
                    return Err(tap.unsigned_abs());
                }
                *tap = tap.wrapping_add(if rise { 1 } else { -1 });
            }
        }
        Ok(())
    }

    /// Moves taps until each phase sums to the unit. Each tap must have 16 bits, before and after.
    fn settle(self, taps: &mut [i32], reals: &[f64]) -> Result<(), u32> {
        test_16_bits(taps)?;
        for phase in 0..self.up {
            self.settle_phase(taps, reals, phase)?;
        }
        test_16_bits(taps)
    }

    /// Returns the taps if each has 16 bits.
    fn taps(self, alloc: Global) -> Result<Taps, Fail> {
        let reals = self.reals(alloc)?;
        let mut taps = Vec::new(alloc);
        for real in &reals {
            taps.push(saturating_f64_to_i32(real.round_ties_even()))?;
        }
        Ok(match self.settle(&mut taps, &reals) {
            Ok(()) => Ok(taps),
            Err(size) => Err(size),
        })
    }
}

/// Returns the size of the first tap of over 16 bits, if there is one.
fn test_16_bits(taps: &[i32]) -> Result<(), u32> {
    for tap in taps {
        if i16::try_from(*tap).is_err() {
            return Err(tap.unsigned_abs());
        }
    }
    Ok(())
}

/// Returns the taps of a low-pass, with one more in each phase if one has over 16 bits.
fn low(alloc: Global, wanted: FilterSpec, pass: u32, stop: u32) -> Result<Taps, Fail> {
    let up = wanted.up as usize;
    let count = whole(kaiser_length(wanted, pass, stop), up);
    if count > 1024 {
        return Ok(Err(0));
    }
    if let Ok(taps) = Plain::new(wanted, pass, stop, count).taps(alloc)? {
        return Ok(Ok(taps));
    }
    let more = whole(count.saturating_add(1), up);
    if more > 1024 {
        return Ok(Err(0));
    }
    Plain::new(wanted, pass, stop, more).taps(alloc)
}

/// Returns the taps `from` minus `taps`, if each has 16 bits.
fn less(alloc: Global, from: &[i32], taps: &[i32]) -> Result<Taps, Fail> {
    let mut left = Vec::new(alloc);
    for (from, tap) in from.iter().zip(taps) {
        let tap = from.wrapping_sub(*tap);
        if i16::try_from(tap).is_err() {
            return Ok(Err(tap.unsigned_abs()));
        }
        left.push(tap)?;
    }
    Ok(Ok(left))
}

/// Returns the taps of a high-pass.
fn high(alloc: Global, wanted: FilterSpec, stop: u32, pass: u32) -> Result<Taps, Fail> {
    let count = whole(kaiser_length(wanted, stop, pass), 1) | 1;
    if count > 1024 {
        return Ok(Err(0));
    }
    let filter = Plain::new(wanted, stop, pass, count);
    match filter.taps(alloc)? {
        Ok(low) => {
            let mut impulse = vec![in alloc; 0; count]?;
            if let Some(middle) = impulse.get_mut(count / 2) {
                *middle = filter.unit;
            }
            less(alloc, &impulse, &low)
        }
        Err(size) => Ok(Err(size)),
    }
}

/// Returns the taps of one low-pass minus the taps of another. The fault of the first one comes first.
fn middle(alloc: Global, wide: Plain, narrow: Plain) -> Result<Taps, Fail> {
    match (wide.taps(alloc)?, narrow.taps(alloc)?) {
        (Ok(wide), Ok(narrow)) => less(alloc, &wide, &narrow),
        (Err(size), _) | (Ok(_), Err(size)) => Ok(Err(size)),
    }
}

/// Returns the taps of a filter, or why there are none.
pub(crate) fn plain_taps(alloc: Global, wanted: FilterSpec) -> Result<Taps, Fail> {
    match wanted.band {
        Band::Low { pass, stop } => low(alloc, wanted, pass, stop),
        Band::High { stop, pass } => high(alloc, wanted, stop, pass),
        Band::Middle {
            low_stop,
            low_pass,
            pass,
            stop,
        } => {
            let up = wanted.up as usize;
            let many = whole(kaiser_length(wanted, pass, stop), up);
            let count = many.max(whole(kaiser_length(wanted, low_stop, low_pass), up));
            if count > 1024 {
                return Ok(Err(0));
            }
            let wide = Plain::new(wanted, pass, stop, count);
            let narrow = Plain::new(wanted, low_stop, low_pass, count);
            middle(alloc, wide, narrow)
        }
    }
}

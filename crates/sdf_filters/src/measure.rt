//! Measures of taps, in floats. No clause says anything of them.

use std::f64::consts::TAU;
use std::num::saturating_f64_to_u64;
use std::simd::prelude::*;

/// The number of steps across a band. It is measured at one frequency more.
const STEPS: u32 = 2048;

/// The number of frequencies in one pass over the taps. With fewer, a pass waits for the sums of the tap before. With
/// more, registers run out.
const SIDE: usize = 16;

/// A number for each frequency of one pass.
type Lanes = Simd<f64, SIDE>;

/// The least magnitude, -240 dB. Smaller ones are raised to it.
const LEAST_MAGNITUDE: f64 = 1e-12;

/// The measures of a filter in the bands that it passes and stops.
#[derive(Debug, Clone, Copy, PartialEq, Eq)]
pub struct Measured {
    /// The greatest deviation of a passed magnitude from the unit, in ten-thousandths of a dB.
    pub ripple: u64,
    /// The least distance of a stopped magnitude below the unit, in tenths of a dB.
    pub attenuation: u64,
}

/// The frequencies from one to another, in Hz.
#[derive(Clone, Copy)]
pub(crate) struct Range {
    pub(crate) from: f64,
    pub(crate) to: f64,
}

/// The least and the greatest magnitude of a filter in a range, as parts of the unit.
#[derive(Clone, Copy)]
struct Magnitudes {
    least: f64,
    greatest: f64,
}

/// A filter at work: its taps, its rate, and the `unit`, to which taps sum if a constant passes.
#[derive(Clone, Copy)]
pub(crate) struct Response<'a> {
    taps: &'a [i32],
    /// Whether the taps are the same from both ends.
    is_mirrored: bool,
    rate: f64,
    unit: f64,
}

/// The last two sums of Goertzel's recurrence at each angle.
struct Sums {
    last: Lanes,
    before: Lanes,
}

/// Returns the cosines of `angles`, doubled.
fn doubled_cosines(angles: [f64; SIDE]) -> Lanes {
    Lanes::from_array(angles.map(|angle| 2.0 * angle.cos()))
}

/// Runs Goertzel's recurrence over `taps`, at angles whose doubled cosines are `turns`.
fn last_sums(taps: &[i32], turns: Lanes) -> Sums {
    let mut last = Lanes::splat(0.0);
    let mut before = Lanes::splat(0.0);
    for &tap in taps {
        let next = turns * last - before + Lanes::splat(f64::from(tap));
        before = last;
        last = next;
    }
    Sums { last, before }
}

/// Returns the magnitudes of `taps` at `angles`, in radians a sample.
fn magnitudes_at(taps: &[i32], angles: [f64; SIDE]) -> [f64; SIDE] {
    let turns = doubled_cosines(angles);
    let Sums { last, before } = last_sums(taps, turns);
    let squares = last * last + before * before - turns * last * before;
    squares.to_array().map(|square| square.max(0.0).sqrt())
}

/// Returns the magnitudes of taps that are the same from both ends. Their sum of cosines about the middle (Clenshaw,
/// 1955) needs half of them.
fn mirrored_magnitudes_at(taps: &[i32], angles: [f64; SIDE]) -> [f64; SIDE] {
    let middle = taps.len() / 2;
    let turns = doubled_cosines(angles);
    let Sums { last, before } = last_sums(&taps[..middle], turns);
    let heights = if taps.len() % 2 == 0 {
        doubled_cosines(angles.map(|angle| angle / 2.0)) * (last - before)
    } else {
        turns * last - before - before + Lanes::splat(f64::from(taps[middle]))
    };
    heights.to_array().map(|height| height.abs())
}

/// Returns whether taps are the same from both ends.
fn are_mirrored(taps: &[i32]) -> bool {
    taps.iter()
        .zip(taps.iter().rev())
        .all(|(tap, other)| *tap == *other)
}

/// Returns a magnitude in dB.
fn decibels(magnitude: f64) -> f64 {
    20.0 * magnitude.max(LEAST_MAGNITUDE).log10()
}

impl<'a> Response<'a> {
    /// Returns `taps` at work at `rate` samples a second. Taps that let a constant pass sum to `unit`.
    pub(crate) fn new(taps: &'a [i32], rate: f64, unit: f64) -> Response<'a> {
        Response {
            taps,
            is_mirrored: are_mirrored(taps),
            rate,
            unit,
        }
    }

    /// Returns the angle, in radians a sample, of frequency `step` of `range`.
    fn angle(self, range: Range, step: u32) -> f64 {
        let part = f64::from(step) / f64::from(STEPS);
        let frequency = range.from + (range.to - range.from) * part;
        TAU * frequency / self.rate
    }

    /// Returns the magnitudes from frequency `step` of `range` on. The last one of the range is repeated past its end.
    fn magnitudes_from(self, range: Range, step: u32) -> [f64; SIDE] {
        let mut angles = [0.0; SIDE];
        for lane in 0..SIDE {
            let step = step.saturating_add(lane as u32).min(STEPS);
            angles[lane] = self.angle(range, step);
        }
        if self.is_mirrored {
            mirrored_magnitudes_at(self.taps, angles)
        } else {
            magnitudes_at(self.taps, angles)
        }
    }

    /// Returns the least and the greatest magnitude of `range`.
    fn magnitudes(self, range: Range) -> Magnitudes {
        let mut magnitudes = Magnitudes {
            least: f64::INFINITY,
            greatest: 0.0,
        };
        for step in (0..=STEPS).step_by(SIDE) {
            for height in self.magnitudes_from(range, step) {
                let magnitude = height / self.unit;
                magnitudes = Magnitudes {
                    least: magnitudes.least.min(magnitude),
                    greatest: magnitudes.greatest.max(magnitude),
                };
            }
        }
        magnitudes
    }

    /// Returns the greatest magnitude in all of `ranges`.
    fn max_magnitude(self, ranges: &[Range]) -> f64 {
        let mut max_magnitude = 0.0f64;
        for range in ranges {
            max_magnitude = max_magnitude.max(self.magnitudes(*range).greatest);
        }
        max_magnitude
    }

    /// Measures the range that passes and the ranges that are stopped.
    pub(crate) fn measures(self, passed: Range, stopped: &[Range]) -> Measured {
        let passed = self.magnitudes(passed);
        let ripple = decibels(passed.greatest)
            .abs()
            .max(decibels(passed.least).abs());
        let attenuation = -decibels(self.max_magnitude(stopped));
        Measured {
            ripple: saturating_f64_to_u64((ripple * 1e4).round()),
            attenuation: saturating_f64_to_u64((attenuation * 10.0).round()),
        }
    }
}

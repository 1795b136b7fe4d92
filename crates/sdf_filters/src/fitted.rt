//! Low-passes that are placed by measuring, in floats: their stop band begins exactly where it is asked for, and they
//! have few taps. No clause speaks of their values.

ghost use Rattle.std.specs.Prelude.{◌≡◌, ◌≤◌, ◌%◌, ◌⊎◌, length, IfOk, MatchResult};
ghost use Rattle.sdf_limits.specs.declared.TheConstants.{MAX_FACTOR, MAX_TAPS};
ghost use Rattle.sdf_filters.specs.Lowpass.{IsCountFault, IsTapFault};

use crate::fault::FilterFault;
use crate::lowpass::check_count;
use crate::sinc::{Sinc, real_taps};
use sdf_limits::MAX_TAPS;
use std::alloc::{AllocError, Global};
use std::f64::consts::TAU;
use std::num::{nearest_usize_to_f64, saturating_f64_to_usize};

/// The number of frequencies at which a band is measured.
const POINTS: u32 = 40;

/// The number of times that the range of a cut is halved.
const HALVINGS: u32 = 16;

/// A low-pass at `rate`: it passes up to `pass` Hz, and attenuates from `stop` Hz on. It may lose `loss` dB of what
/// passes.
#[derive(Clone, Copy)]
pub(crate) struct Edges {
    pub(crate) rate: f64,
    pub(crate) pass: f64,
    pub(crate) stop: f64,
    pub(crate) attenuation: u32,
    pub(crate) loss: f64,
}

/// Returns the height of symmetric taps, of an odd number, at a frequency. The angle is in radians a place.
fn height(reals: &[f64], angle: f64) -> f64 {
    let turn = 2.0 * angle.cos();
    let middle = reals.len() / 2;
    let mut last = 0.0;
    let mut before = 0.0;
    for place in 0..middle {
        let next = turn * last - before + reals[place];
        before = last;
        last = next;
    }
    let top = if middle < reals.len() {
        reals[middle]
    } else {
        0.0
    };
    turn * last - before - before + top
}

/// Returns a magnitude in dB.
fn decibels(magnitude: f64) -> f64 {
    20.0 * magnitude.abs().max(1e-12).log10()
}

/// Scales `reals` so that they sum to `sum`.
fn scale(reals: &mut [f64], sum: f64)
    ensures { length reals.new ≡ length reals.old }
{
    let mut total = 0.0;
    for real in &*reals {
        total += *real;
    }
    for place in 0..reals.len() {
        reals[place] = reals[place] * sum / total;
    }
}

impl Edges {
    /// Returns the sinc of `count` taps under Kaiser's window that has half its height at `cut` Hz. It sums to `sum`.
    pub(crate) fn reals(
        self,
        alloc: Global,
        cut: f64,
        count: usize,
        sum: f64,
    ) -> Result<Vec<f64>, AllocError>
        ensures { IfOk result (λ reals. length reals.items ≡ count) }
    {
        let sinc = Sinc::new(cut / self.rate, self.attenuation, 1.0, 1.0, count);
        let mut reals = real_taps(alloc, sinc, count)?;
        scale(&mut reals, sum);
        Ok(reals)
    }

    /// Returns the width that Kaiser's formula has for the band between passed and stopped frequencies, in Hz.
    fn width(self, count: usize) -> f64 {
        let steps = nearest_usize_to_f64(count.saturating_sub(1).max(1));
        (f64::from(self.attenuation) - 7.95) / (14.36 * steps) * self.rate
    }

    /// Returns the greatest magnitude at the beginning of the stop band.
    fn left(self, reals: &[f64], width: f64) -> f64 {
        let end = (self.stop + width).min(self.rate / 2.0);
        let mut greatest = 0.0f64;
        for point in 0..POINTS {
            let part = f64::from(point) / f64::from(POINTS - 1);
            let frequency = self.stop + (end - self.stop) * part;
            greatest = greatest.max(height(reals, TAU * frequency / self.rate).abs());
        }
        greatest
    }

    /// Returns the greatest loss of what passes, in dB.
    fn lost(self, reals: &[f64]) -> f64 {
        let mut greatest = 0.0f64;
        for point in 0..POINTS {
            let frequency = self.pass * f64::from(point) / f64::from(POINTS - 1);
            let height = height(reals, TAU * frequency / self.rate);
            greatest = greatest.max(decibels(height).abs());
        }
        greatest
    }

    /// Returns the greatest cut, in Hz, at which `count` taps still attenuate the stop band from its beginning.
    pub(crate) fn cut(self, alloc: Global, count: usize) -> Result<f64, AllocError> {
        let width = self.width(count);
        let level = 10.0f64.powf(-f64::from(self.attenuation) / 20.0);
        let mut low = (self.stop - width).max(self.stop / 4.0);
        let mut high = self.stop;
        for _ in 0..HALVINGS {
            let middle = (low + high) / 2.0;
            let reals = self.reals(alloc, middle, count, 1.0)?;
            if self.left(&reals, width) > level {
                high = middle;
            } else {
                low = middle;
            }
        }
        Ok(low)
    }

    /// Returns whether `count` taps lose little enough of what passes.
    fn passes(self, alloc: Global, count: usize) -> Result<bool, AllocError> {
        let cut = self.cut(alloc, count)?;
        let reals = self.reals(alloc, cut, count, 1.0)?;
        Ok(self.lost(&reals) <= self.loss)
    }

    /// Returns the number of taps that Kaiser's formula asks for.
    pub(crate) fn taps(self) -> f64 {
        (f64::from(self.attenuation) - 7.95) / 14.36 * self.rate / (self.stop - self.pass)
    }

    /// Returns an odd number of taps that lose little enough: whole phases, or one less. It halves a range of numbers,
    /// so fewer taps may do if the loss does not fall evenly.
    pub(crate) fn count(self, alloc: Global, up: usize) -> Result<usize, FilterFault>
        requires some { 1 ≤ up }
        requires few { up ≤ MAX_FACTOR }
        ensures odd { IfOk result (λ count. count % 2 ≡ 1) }
        ensures few { MatchResult result (λ count. count ≤ MAX_TAPS) (λ fault. IsCountFault fault ⊎ IsTapFault fault) }
    {
        let guess = self.taps() / nearest_usize_to_f64(up);
        let mut least = saturating_f64_to_usize(0.7 * guess).max(1).min(4096);
        let mut most = saturating_f64_to_usize(1.2 * guess)
            .saturating_add(16)
            .min(4096);
        for _ in 0..16 {
            if least < most {
                let middle = least / 2 + most / 2;
                let count = odd_count(middle, up);
                let is_enough = count > MAX_TAPS || self.passes(alloc, count)?;
                if is_enough {
                    most = middle;
                } else {
                    least = middle + 1;
                }
            }
        }
        let count = odd_count(most, up);
        check_count(count)?;
        Ok(count)
    }
}

/// Returns the number of taps in `width` whole phases, at least two, or one less if that is even.
fn odd_count(width: usize, up: usize) -> usize
    requires some { 1 ≤ up }
    requires few { up ≤ MAX_FACTOR }
    ensures { result % 2 ≡ 1 }
{
    let whole = width.saturating_mul(up).max(2 * up);
    if whole % 2 == 1 { whole } else { whole - 1 }
}

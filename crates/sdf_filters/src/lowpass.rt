//! Low-pass filters.

ghost use Rattle.std.specs.Prelude.{◌≡◌, ◌<◌, ◌≤◌, ◌%◌, ◌^◌, pos, MatchResult};
ghost use Rattle.sdf_limits.specs.declared.TheConstants.{MAX_FACTOR};
ghost use Rattle.sdf_filters.specs.Lowpass.{is_factor, lowpass_of, AreLowpassTaps, IsCount, IsTapFault, IsCountFault};
ghost use Rattle.sdf_filters.specs.LowpassValue.{lowpass_value};
ghost use Rattle.sdf_filters.specs.Differences.{AreHighpassTaps, AreBandpassTaps};

use crate::differences::{differences, impulse};
use crate::fault::{FilterFault, test};
use crate::phases::check_16_bits;
use crate::settling::settle;
use crate::sinc::{Sinc, kaiser_length, real_taps, rounded_taps};
use sdf_limits::{MAX_FACTOR, MAX_SHIFT, MAX_TAPS};
use std::alloc::Global;
use std::marker::Model;

/// The greatest attenuation of stopped frequencies, in dB. Taps of 16 bits reach about half of it.
pub const MAX_ATTENUATION: u32 = 200;

/// A low-pass whose values are within their limits.
///
/// It is a sinc under Kaiser's window (Kaiser 1974; Oppenheim and Schafer), for an actor of kind `fir` with this `up`
/// and `shift`. It works at `rate`, the rate of the actor's input times `up`.
#[derive(Drop)]
pub struct Lowpass {
    rate: u32,
    pass: u32,
    stop: u32,
    attenuation: u32,
    up: u32,
    shift: u32,
}

impl Model for Lowpass {
    ghost use Rattle.sdf_filters.specs.LowpassValue.{LowpassValue, lowpass_value, IsLowpassValue};

    ghost Value = { LowpassValue };

    ghost view = { λ f. lowpass_value f.rate f.pass f.stop f.attenuation f.up f.shift };

    ghost invariant = { λ f. IsLowpassValue (lowpass_value f.rate f.pass f.stop f.attenuation f.up f.shift) };
}

impl Lowpass {
    /// Makes a low-pass that is to pass frequencies up to `pass` Hz, and to attenuate those from `stop` Hz on by
    /// `attenuation` dB. Taps of 16 bits may attenuate less.
    ///
    /// Errs with the first of `Up`, `Shift`, `Attenuation`, `PassNotBelowStop` and `StopOverHalf`.
    pub fn new(
        rate: u32,
        pass: u32,
        stop: u32,
        attenuation: u32,
        up: u32,
        shift: u32,
    ) -> Result<Lowpass, FilterFault>
        ensures { result ≡ lowpass_of (lowpass_value rate pass stop attenuation up shift) }
    {
        test(is_factor(up), FilterFault::Up { up })?;
        test(shift <= MAX_SHIFT, FilterFault::Shift { shift })?;
        test(
            attenuation <= MAX_ATTENUATION,
            FilterFault::Attenuation { attenuation },
        )?;
        test(pass < stop, FilterFault::PassNotBelowStop { pass, stop })?;
        test(
            2 * u64::from(stop) <= u64::from(rate),
            FilterFault::StopOverHalf { stop, rate },
        )?;
        Ok(Lowpass {
            rate,
            pass,
            stop,
            attenuation,
            up,
            shift,
        })
    }

    /// Returns the number of phases of its taps.
    pub(crate) fn up(&self) -> u32
        ensures value { result ≡ self.now.up }
        ensures some { 1 ≤ result }
        ensures few { result ≤ MAX_FACTOR }
    {
        self.up
    }

    /// Returns the number of taps that Kaiser's formula asks for, rounded up to whole phases. Errs with `TooManyTaps`
    /// if that is over 1,024.
    ///
    /// No clause says that the number is the formula's.
    pub fn count(&self) -> Result<usize, FilterFault>
        ensures { MatchResult result (IsCount self.now.up) IsCountFault }
    {
        let band = self.stop - self.pass;
        let count = kaiser_length(self.attenuation, f64::from(band), f64::from(self.rate));
        whole_phases(count, self.up as usize)
    }

    /// Returns `count` taps, whole numbers of 16 bits. The taps of each phase sum to `2^shift`, so a constant is left
    /// unchanged.
    ///
    /// They are the rounded values of the sinc. If the sum of a phase is not exact, the taps that rounding moved most
    /// the other way are moved, in pairs that keep them symmetric. No clause says that they are close to the sinc. Errs
    /// with `TapTooLarge` if a tap has over 16 bits.
    pub fn taps(&self, alloc: Global, count: usize) -> Result<Vec<i32>, FilterFault>
        requires some { 0 < count }
        requires few { count ≤ MAX_TAPS }
        requires whole { count % self.now.up ≡ 0 }
        ensures { MatchResult result (λ taps. AreLowpassTaps self.now count taps.items) IsTapFault }
    {
        let reals = real_taps(alloc, self.sinc(count), count)?;
        let mut taps = rounded_taps(alloc, &reals)?;
        check_16_bits(&taps)?;
        settle(
            &mut taps,
            &reals,
            self.up as usize,
            i64::from(height(self.shift)),
        )?;
        check_16_bits(&taps)?;
        Ok(taps)
    }

    /// Returns the taps of the high-pass that passes what this one stops, and stops what it passes. They are `2^shift`
    /// at the middle minus this one's taps, and sum to 0, so nothing is left of a constant. Errs with `TapTooLarge` if
    /// a tap has over 16 bits.
    pub fn highpass(&self, alloc: Global, count: usize) -> Result<Vec<i32>, FilterFault>
        requires few { count ≤ MAX_TAPS }
        requires odd { count % 2 ≡ 1 }
        requires up { self.now.up ≡ 1 }
        ensures { MatchResult result (λ taps. AreHighpassTaps self.now count taps.items) IsTapFault }
    {
        let low = self.taps(alloc, count)?;
        let impulse = impulse(alloc, count, height(self.shift))?;
        differences(alloc, &impulse, &low)
    }

    /// Returns the taps of the band-pass that passes what this one passes and `narrow` does not: this one's taps minus
    /// the taps of `narrow`. The taps of each phase sum to 0, so nothing is left of a constant. Errs with `TapTooLarge`
    /// if a tap has over 16 bits.
    pub fn bandpass(
        &self,
        alloc: Global,
        narrow: &Lowpass,
        count: usize,
    ) -> Result<Vec<i32>, FilterFault>
        requires some { 0 < count }
        requires few { count ≤ MAX_TAPS }
        requires whole { count % self.now.up ≡ 0 }
        requires up { narrow.now.up ≡ self.now.up }
        requires shift { narrow.now.shift ≡ self.now.shift }
        ensures { MatchResult result (λ taps. AreBandpassTaps self.now narrow.now count taps.items) IsTapFault }
    {
        let wide = self.taps(alloc, count)?;
        let narrow = narrow.taps(alloc, count)?;
        differences(alloc, &wide, &narrow)
    }

    /// Returns the sinc whose values are the taps before they are rounded.
    fn sinc(&self, count: usize) -> Sinc {
        let edge = f64::from(self.pass) + f64::from(self.stop);
        Sinc::new(
            edge / f64::from(self.rate) / 2.0,
            self.attenuation,
            f64::from(self.up),
            f64::from(1u32 << self.shift),
            count,
        )
    }
}

/// Checks whether `up` is one of 1 to 64.
fn is_factor(up: u32) -> bool
    ensures { result ≡ is_factor up }
{
    1 <= up && up <= MAX_FACTOR
}

/// Returns the sum of the taps of a phase.
fn height(shift: u32) -> i32
    requires { shift ≤ MAX_SHIFT }
    ensures { result ≡ pos (2 ^ shift) }
{
    1i32 << shift
}

/// Rounds a number of taps, at least one, up to whole phases.
pub(crate) fn whole_phases(count: usize, up: usize) -> Result<usize, FilterFault>
    requires some { 1 ≤ up }
    requires few { up ≤ MAX_FACTOR }
    ensures { MatchResult result (IsCount up) IsCountFault }
{
    let least = count.max(1);
    check_count(least)?;
    let whole = least.next_multiple_of(up);
    check_count(whole)?;
    Ok(whole)
}

/// Tests whether a filter may have `taps` taps.
pub(crate) fn check_count(taps: usize) -> Result<(), FilterFault>
    ensures { MatchResult result (λ _. taps ≤ MAX_TAPS) IsCountFault }
{
    if taps > MAX_TAPS {
        return Err(FilterFault::TooManyTaps { taps });
    }
    Ok(())
}

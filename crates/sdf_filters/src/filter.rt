//! The taps of a filter that is specified in plain numbers.

ghost use Rattle.std.specs.Prelude.{◌≡◌, ◌%◌, ◌≤◌, ◌⊎◌, IfOk, MatchResult};
ghost use Rattle.sdf_limits.specs.declared.TheConstants.{MAX_TAPS};
ghost use Rattle.sdf_filters.specs.Lowpass.{lowpass_of, IsCountFault, IsTapFault};
ghost use Rattle.sdf_filters.specs.FilterSpecs.{low, high_tests, middle_tests, AreLowTaps, AreHighTaps, AreMiddleTaps};
ghost use Rattle.sdf_filters.specs.FilterSpecs.{AreTaps, IsFault};

use crate::fault::{FilterFault, test};
use crate::filter_spec::{Band, FilterSpec};
use crate::lowpass::{Lowpass, check_count, whole_phases};
use std::alloc::Global;

/// Tests what a high-pass needs in addition to its low-pass.
fn check_high(wanted: FilterSpec, stop: u32, pass: u32) -> Result<(), FilterFault>
    ensures { result ≡ high_tests wanted stop pass }
{
    let FilterSpec { rate, up, .. } = wanted;
    test(stop < pass, FilterFault::StopNotBelowPass { stop, pass })?;
    test(
        2 * u64::from(pass) <= u64::from(rate),
        FilterFault::PassOverHalf { pass, rate },
    )?;
    test(up == 1, FilterFault::UpOfHighpass { up })
}

/// Tests what a band-pass needs in addition to its low-passes.
fn check_middle(low_stop: u32, low_pass: u32, pass: u32) -> Result<(), FilterFault>
    ensures { result ≡ middle_tests low_stop low_pass pass }
{
    test(
        low_stop < low_pass,
        FilterFault::LowStopNotBelowLowPass { low_stop, low_pass },
    )?;
    test(
        low_pass < pass,
        FilterFault::NothingPasses { low_pass, pass },
    )
}

/// Returns the low-pass between `pass` and `stop`.
fn low(wanted: FilterSpec, pass: u32, stop: u32) -> Result<Lowpass, FilterFault>
    ensures { result ≡ lowpass_of (low wanted pass stop) }
{
    Lowpass::new(
        wanted.rate,
        pass,
        stop,
        wanted.attenuation,
        wanted.up,
        wanted.shift,
    )
}

/// Returns the taps of a low-pass, with one more in each phase than `count` taps have.
fn more_taps(alloc: Global, filter: &Lowpass, count: usize) -> Result<Vec<i32>, FilterFault>
    requires { count ≤ MAX_TAPS }
    ensures { MatchResult result (λ taps. AreLowTaps filter.now taps.items)
        (λ fault. IsCountFault fault ⊎ IsTapFault fault) }
{
    let more = whole_phases(count + 1, filter.up() as usize)?;
    filter.taps(alloc, more)
}

/// Returns the taps of a low-pass. If one of them has over 16 bits, it tries one more tap in each phase.
///
/// If a filter has half its height at half the rate of its input, its middle tap makes up the sum of its phase. That
/// sum is too large if `shift` is 15. With an even number of taps, no tap is in the middle.
fn low_taps(alloc: Global, filter: &Lowpass) -> Result<Vec<i32>, FilterFault>
    ensures { MatchResult result (λ taps. AreLowTaps filter.now taps.items)
        (λ fault. IsCountFault fault ⊎ IsTapFault fault) }
{
    let count = filter.count()?;
    match filter.taps(alloc, count) {
        Ok(taps) => Ok(taps),
        Err(FilterFault::TapTooLarge { .. }) => more_taps(alloc, filter, count),
        Err(fault) => Err(fault),
    }
}

/// Returns `count`, or one more if it is even.
fn next_odd(count: usize) -> Result<usize, FilterFault>
    requires { count ≤ MAX_TAPS }
    ensures next_odd { IfOk result (λ n. n % 2 ≡ 1) }
    ensures few { MatchResult result (λ n. n ≤ MAX_TAPS) IsCountFault }
{
    let next_odd = if count % 2 == 1 { count } else { count + 1 };
    check_count(next_odd)?;
    Ok(next_odd)
}

/// Returns the taps of the high-pass that passes what `filter` stops. Their number is the low-pass's, or one more if
/// that is even.
fn high_taps(alloc: Global, filter: &Lowpass) -> Result<Vec<i32>, FilterFault>
    requires { filter.now.up ≡ 1 }
    ensures { MatchResult result (λ taps. AreHighTaps filter.now taps.items)
        (λ fault. IsCountFault fault ⊎ IsTapFault fault) }
{
    let count = next_odd(filter.count()?)?;
    filter.highpass(alloc, count)
}

/// Returns the taps of the band-pass that passes what `wide` passes and `narrow` does not. The steeper low-pass
/// determines their number.
fn middle_taps(alloc: Global, wide: &Lowpass, narrow: &Lowpass) -> Result<Vec<i32>, FilterFault>
    requires up { narrow.now.up ≡ wide.now.up }
    requires shift { narrow.now.shift ≡ wide.now.shift }
    ensures { MatchResult result (λ taps. AreMiddleTaps wide.now narrow.now taps.items)
        (λ fault. IsCountFault fault ⊎ IsTapFault fault) }
{
    let count = wide.count()?.max(narrow.count()?);
    wide.bandpass(alloc, narrow, count)
}

/// Returns the taps of a filter: whole numbers of 16 bits. The taps of each phase sum to `2^shift` if a constant
/// passes, otherwise to 0.
///
/// They are symmetric, so all frequencies are delayed by the same time, unless `up` is odd, their number even and
/// `shift` 0. No clause says how close the filter is to its specification.
pub fn taps_of(alloc: Global, wanted: FilterSpec) -> Result<Vec<i32>, FilterFault>
    ensures { MatchResult result (λ taps. AreTaps wanted taps.items) (IsFault wanted) }
{
    match wanted.band {
        Band::Low { pass, stop } => {
            let filter = low(wanted, pass, stop)?;
            low_taps(alloc, &filter)
        }
        Band::High { stop, pass } => {
            check_high(wanted, stop, pass)?;
            let filter = low(wanted, stop, pass)?;
            high_taps(alloc, &filter)
        }
        Band::Middle {
            low_stop,
            low_pass,
            pass,
            stop,
        } => {
            check_middle(low_stop, low_pass, pass)?;
            let wide = low(wanted, pass, stop)?;
            let narrow = low(wanted, low_stop, low_pass)?;
            middle_taps(alloc, &wide, &narrow)
        }
    }
}

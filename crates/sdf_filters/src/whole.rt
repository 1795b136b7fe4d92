//! Whole taps of up to 32 bits, with an exact sum in each phase.
//!
//! Rounded taps are moved by one step each, first those that rounding moved most the other way. What is then left of a
//! sum is made up by the tap nearest to the middle.

ghost use Rattle.std.specs.Prelude.{◌≡◌, ◌<◌, ◌≤◌, ◌%◌, ◌^◌, ◌+ℤ◌, ℕ, length, slice_set, unsigned_abs};
ghost use Rattle.std.specs.Prelude.{OnOk, IfErr, MatchResult};
ghost use Rattle.sdf_filters.specs.Phases.{tap, phase_sum};
ghost use Rattle.sdf_filters.specs.Lowpass.{IsTapFault};
ghost use Rattle.sdf_filters.specs.Wide.{AreWholeTaps};

use crate::fault::FilterFault;
use crate::phases::phase_sum;
use crate::sinc::{overshoot, rounded_taps};
use sdf_limits::MAX_TAPS;
use std::alloc::Global;

/// The greatest number of single steps for one phase.
const MOST_STEPS: u32 = 64;

/// Returns the place of the tap of `phase` that is nearest to the middle of `count` taps. The first `zeros` taps do not
/// count there. Of two that are equally near, it is the earlier one.
fn central(count: usize, zeros: usize, up: usize, phase: usize) -> usize
    requires zeros { zeros < count }
    requires up { up ≤ count }
    requires few { count ≤ MAX_TAPS }
    requires phase { phase < up }
    ensures within { result < count }
    ensures of { result % up ≡ phase }
{
    let last = zeros + count - 1;
    let mut best = phase;
    for place in phase..count {
        if place % up == phase && last.abs_diff(2 * place) < last.abs_diff(2 * best) {
            best = place;
        }
    }
    best
}

/// Adds `more` to the tap at `place`.
fn add_at(taps: &mut [i32], place: usize, more: i64) -> Result<(), FilterFault>
    requires place { place < length taps.old }
    requires more { unsigned_abs more ≤ 2 ^ 48 }
    ensures moves { OnOk result (taps.new ≡ slice_set taps.old place (tap taps.old place +ℤ more)) }
    ensures fault { IfErr result IsTapFault }
{
    match i32::try_from(i64::from(taps[place]) + more) {
        Ok(tap) => {
            taps[place] = tap;
            Ok(())
        }
        Err(_) => Err(FilterFault::TapTooLarge { size: u32::MAX }),
    }
}

/// Returns the place of the tap of `phase` that rounding moved most down, or most up unless `rise`. Of two it is the
/// one nearer to the middle, and the earlier one of two that are equally near. The first `zeros` taps are left out.
fn farthest(taps: &[i32], reals: &[f64], zeros: usize, up: usize, phase: usize, rise: bool) -> usize
    requires same { length reals.now ≡ length taps.now }
    requires few { length taps.now ≤ MAX_TAPS }
    requires zeros { zeros < length taps.now }
    requires up { up ≤ length taps.now }
    requires phase { phase < up }
    ensures within { result < length taps.now }
    ensures of { result % up ≡ phase }
{
    let last = zeros + taps.len() - 1;
    let mut best = central(taps.len(), zeros, up, phase);
    for place in zeros..taps.len() {
        if place % up == phase {
            let behind = -overshoot(f64::from(taps[place]), reals[place], rise);
            let most = -overshoot(f64::from(taps[best]), reals[best], rise);
            let is_nearer = last.abs_diff(2 * place) < last.abs_diff(2 * best);
            if behind > most || behind == most && is_nearer {
                best = place;
            }
        }
    }
    best
}

/// Returns one step up if `rise`, and otherwise one down.
fn step_of(rise: bool) -> i64
    ensures { unsigned_abs result ≤ 1 }
{
    if rise { 1 } else { -1 }
}

/// Moves the tap at `place` by `step`, and its mirror image too if that is another one of `phase`.
fn step_pair(
    taps: &mut [i32],
    zeros: usize,
    up: usize,
    phase: usize,
    place: usize,
    step: i64,
) -> Result<(), FilterFault>
    requires up { 0 < up }
    requires few { length taps.old ≤ MAX_TAPS }
    requires zeros { zeros < length taps.old }
    requires place { place < length taps.old }
    requires of { place % up ≡ phase }
    requires step { unsigned_abs step ≤ 1 }
    ensures all { OnOk result (length taps.new ≡ length taps.old) }
    ensures others { OnOk result ((q : ℕ) → (q ≡ phase → ⊥) → phase_sum taps.new up q ≡ phase_sum taps.old up q) }
    ensures fault { IfErr result IsTapFault }
{
    let other = (zeros + taps.len() - 1).saturating_sub(place);
    add_at(taps, place, step)?;
    if other == place || other >= taps.len() || other % up != phase {
        return Ok(());
    }
    add_at(taps, other, step)?;
    Ok(())
}

/// Moves taps of `phase` by single steps towards its sum `total`, at most `MOST_STEPS` of them.
fn spread(
    taps: &mut [i32],
    reals: &[f64],
    zeros: usize,
    up: usize,
    phase: usize,
    total: i64,
) -> Result<(), FilterFault>
    requires same { length reals.now ≡ length taps.old }
    requires few { length taps.old ≤ MAX_TAPS }
    requires zeros { zeros < length taps.old }
    requires up { up ≤ length taps.old }
    requires phase { phase < up }
    requires total { unsigned_abs total ≤ 2 ^ 40 }
    ensures all { OnOk result (length taps.new ≡ length taps.old) }
    ensures others { OnOk result ((q : ℕ) → (q ≡ phase → ⊥) → phase_sum taps.new up q ≡ phase_sum taps.old up q) }
    ensures fault { IfErr result IsTapFault }
{
    for _ in 0..MOST_STEPS {
        let lacks = total - phase_sum(taps, up, phase);
        let both = (zeros + taps.len() - 1).saturating_sub(phase) % up == phase;
        if lacks == 0 || both && lacks.unsigned_abs() == 1 {
            return Ok(());
        }
        let place = farthest(taps, reals, zeros, up, phase, lacks > 0);
        step_pair(taps, zeros, up, phase, place, step_of(lacks > 0))?;
    }
    Ok(())
}

/// Changes taps of `phase` so that it sums to `total`.
fn settle_sum(
    taps: &mut [i32],
    reals: &[f64],
    zeros: usize,
    up: usize,
    phase: usize,
    total: i64,
) -> Result<(), FilterFault>
    requires same { length reals.now ≡ length taps.old }
    requires zeros { zeros < length taps.old }
    requires up { up ≤ length taps.old }
    requires few { length taps.old ≤ MAX_TAPS }
    requires phase { phase < up }
    requires total { unsigned_abs total ≤ 2 ^ 40 }
    ensures all { OnOk result (length taps.new ≡ length taps.old) }
    ensures exact { OnOk result (phase_sum taps.new up phase ≡ total) }
    ensures others { OnOk result ((q : ℕ) → (q ≡ phase → ⊥) → phase_sum taps.new up q ≡ phase_sum taps.old up q) }
    ensures fault { IfErr result IsTapFault }
{
    spread(taps, reals, zeros, up, phase, total)?;
    let place = central(taps.len(), zeros, up, phase);
    let lacks = total - phase_sum(taps, up, phase);
    add_at(taps, place, lacks)?;
    Ok(())
}

/// Changes taps so that each phase sums to `total`.
fn settle_sums(
    taps: &mut [i32],
    reals: &[f64],
    zeros: usize,
    up: usize,
    total: i64,
) -> Result<(), FilterFault>
    requires same { length reals.now ≡ length taps.old }
    requires zeros { zeros < length taps.old }
    requires up { up ≤ length taps.old }
    requires few { length taps.old ≤ MAX_TAPS }
    requires total { unsigned_abs total ≤ 2 ^ 40 }
    ensures all { OnOk result (length taps.new ≡ length taps.old) }
    ensures exact { OnOk result ((phase : ℕ) → phase < up → phase_sum taps.new up phase ≡ total) }
    ensures fault { IfErr result IsTapFault }
{
    for phase in 0..up {
        settle_sum(taps, reals, zeros, up, phase, total)?;
    }
    Ok(())
}

/// Returns whole taps near to `reals`: they are rounded, and then each phase is made to sum to `total`.
///
/// Behind the first `zeros` places they are symmetric, if the reals are and `total` is even. No clause says so, and
/// none that they are near.
pub(crate) fn whole_taps(
    alloc: Global,
    reals: &[f64],
    zeros: usize,
    up: usize,
    total: i64,
) -> Result<Vec<i32>, FilterFault>
    requires zeros { zeros < length reals.now }
    requires up { up ≤ length reals.now }
    requires few { length reals.now ≤ MAX_TAPS }
    requires total { unsigned_abs total ≤ 2 ^ 40 }
    ensures { MatchResult result (λ taps. AreWholeTaps up total (length reals.now) taps.items) IsTapFault }
{
    let mut taps = rounded_taps(alloc, reals)?;
    settle_sums(&mut taps, reals, zeros, up, total)?;
    Ok(taps)
}

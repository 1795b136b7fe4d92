//! Settling: the taps of each phase are moved until they have an exact sum, whatever rounding gave. They stay
//! symmetric.

ghost use Rattle.std.specs.Prelude.{◌≡◌, ◌<◌, ◌≤◌, ◌+◌, ◌-◌, ◌*◌, ◌/◌, ◌%◌, ◌⊎◌, ℕ, length, OnOk, IfErr};
ghost use Rattle.sdf_filters.specs.Phases.{phase_sum, AreMoved, IsSumMoved, IsSymmetric, IsEven};
ghost use Rattle.sdf_filters.specs.Lowpass.{IsTapFault};

use crate::fault::FilterFault;
use crate::order::{TapMove, first_turn, place_of};
use crate::phases::{move_rounds, phase_sum, step_tap};
use sdf_limits::MAX_TAPS;

/// Moves taps of `phase` until they sum to `total`. Their mirror images, which are in another phase, move with them.
fn settle_phase(
    taps: &mut [i32],
    reals: &[f64],
    up: usize,
    phase: usize,
    total: i64,
) -> Result<(), FilterFault>
    requires same { length reals.now ≡ length taps.old }
    requires few { length taps.old ≤ MAX_TAPS }
    requires phase { 2 * phase + 1 < up }
    requires whole { length taps.old % up ≡ 0 }
    requires some { 0 < length taps.old / up }
    ensures exact { OnOk result (phase_sum taps.new up phase ≡ total) }
    ensures others { OnOk result ((q : ℕ) → (q ≡ phase → ⊥) → (q + phase + 1 ≡ up → ⊥) →
        phase_sum taps.new up q ≡ phase_sum taps.old up q) }
    ensures symmetric { OnOk result (IsSymmetric taps.old → IsSymmetric taps.new) }
    ensures fault { IfErr result IsTapFault }
{
    let sum = phase_sum(taps, up, phase);
    let rise = sum < total;
    let times = total.abs_diff(sum);
    let turns = taps.len() / up;
    let way = TapMove {
        up,
        phase,
        turns,
        rise,
    };
    move_rounds(taps, reals, way, times)?;
    Ok(())
}

/// Moves the middle tap by `times` steps.
fn move_middle(taps: &mut [i32], up: usize, rise: bool, times: u64) -> Result<(), FilterFault>
    requires odd { up % 2 ≡ 1 }
    requires whole { length taps.old % up ≡ 0 }
    requires middle { length taps.old % 2 ≡ 1 }
    ensures moves { OnOk result (AreMoved up (up / 2) rise times taps.old taps.new) }
    ensures fault { IfErr result IsTapFault }
{
    for _ in 0..times {
        let place = taps.len() / 2;
        step_tap(taps, place, rise)?;
    }
    Ok(())
}

/// Returns how many of `times` steps the middle one of `many` taps makes, if `many` is odd. It moves once in each
/// round, and once more if an odd number of steps is left.
fn middle_times(times: u64, many: u64) -> u64
    requires { many % 2 ≡ 1 }
    ensures few { result ≤ times }
    ensures even { (times - result) % 2 ≡ 0 }
    ensures alone { many ≡ 1 → result ≡ times }
{
    times / many + times % many % 2
}

/// Moves the sum of the phase around the middle by `times` steps, if its number of taps is odd. They stay symmetric.
fn move_odd(taps: &mut [i32], reals: &[f64], way: TapMove, times: u64) -> Result<(), FilterFault>
    requires same { length reals.now ≡ length taps.old }
    requires few { length taps.old ≤ MAX_TAPS }
    requires up { way.up % 2 ≡ 1 }
    requires phase { way.phase ≡ way.up / 2 }
    requires whole { length taps.old % way.up ≡ 0 }
    requires turns { way.turns ≡ length taps.old / way.up / 2 }
    requires odd { length taps.old / way.up % 2 ≡ 1 }
    ensures moves { OnOk result (AreMoved way.up way.phase way.rise times taps.old taps.new) }
    ensures fault { IfErr result IsTapFault }
{
    let many = (taps.len() / way.up) as u64;
    let first = middle_times(times, many);
    move_middle(taps, way.up, way.rise, first)?;
    if many > 1 {
        move_rounds(taps, reals, way, (times - first) / 2)?;
    }
    Ok(())
}

/// Moves the sum of the phase around the middle by `times` steps, if its number of taps is even. If `times` is odd, the
/// last step moves one tap alone.
fn move_even(taps: &mut [i32], reals: &[f64], way: TapMove, times: u64) -> Result<(), FilterFault>
    requires same { length reals.now ≡ length taps.old }
    requires few { length taps.old ≤ MAX_TAPS }
    requires up { way.up % 2 ≡ 1 }
    requires phase { way.phase ≡ way.up / 2 }
    requires whole { length taps.old % way.up ≡ 0 }
    requires turns { way.turns ≡ length taps.old / way.up / 2 }
    requires some { 0 < way.turns }
    ensures moves { OnOk result (IsSumMoved way.up way.phase way.rise times taps.old taps.new) }
    ensures symmetric { OnOk result (times % 2 ≡ 0 → IsSymmetric taps.old → IsSymmetric taps.new) }
    ensures fault { IfErr result IsTapFault }
{
    move_rounds(taps, reals, way, times / 2)?;
    if times % 2 == 1 {
        let turn = first_turn(taps, reals, way);
        let place = place_of(taps.len(), way, turn);
        step_tap(taps, place, way.rise)?;
    }
    Ok(())
}

/// Moves taps of the phase around the middle until they sum to `total`.
fn settle_middle(taps: &mut [i32], reals: &[f64], up: usize, total: i64) -> Result<(), FilterFault>
    requires same { length reals.now ≡ length taps.old }
    requires few { length taps.old ≤ MAX_TAPS }
    requires up { up % 2 ≡ 1 }
    requires whole { length taps.old % up ≡ 0 }
    requires some { 0 < length taps.old / up }
    ensures exact { OnOk result (phase_sum taps.new up (up / 2) ≡ total) }
    ensures others { OnOk result ((q : ℕ) → (q ≡ up / 2 → ⊥) → phase_sum taps.new up q ≡ phase_sum taps.old up q) }
    ensures symmetric { OnOk result (IsSymmetric taps.old → (length taps.old % 2 ≡ 1) ⊎ IsEven total →
        IsSymmetric taps.new) }
    ensures fault { IfErr result IsTapFault }
{
    let phase = up / 2;
    let sum = phase_sum(taps, up, phase);
    let rise = sum < total;
    let times = total.abs_diff(sum);
    let many = taps.len() / up;
    let turns = many / 2;
    let way = TapMove {
        up,
        phase,
        turns,
        rise,
    };
    if many % 2 == 1 {
        move_odd(taps, reals, way, times)
    } else {
        move_even(taps, reals, way, times)
    }
}

/// Sets each tap after the middle to the tap at the same distance before the middle.
fn mirror(taps: &mut [i32])
    ensures { IsSymmetric taps.new }
{
    for place in 0..taps.len() / 2 {
        let other = taps.len() - 1 - place;
        taps[other] = taps[place];
    }
}

/// Moves taps until each phase whose mirror image is another phase sums to `total`.
fn settle_outer(taps: &mut [i32], reals: &[f64], up: usize, total: i64) -> Result<(), FilterFault>
    requires same { length reals.now ≡ length taps.old }
    requires few { length taps.old ≤ MAX_TAPS }
    requires up { 0 < up }
    requires whole { length taps.old % up ≡ 0 }
    requires some { 0 < length taps.old / up }
    requires symmetric { IsSymmetric taps.old }
    ensures exact { OnOk result ((q : ℕ) → q < up → (2 * q + 1 ≡ up → ⊥) → phase_sum taps.new up q ≡ total) }
    ensures symmetric { OnOk result (IsSymmetric taps.new) }
    ensures fault { IfErr result IsTapFault }
{
    for phase in 0..up / 2 {
        settle_phase(taps, reals, up, phase, total)?;
    }
    Ok(())
}

/// Moves taps until each phase sums to `total`. They are made symmetric first. They stay so unless the phase around the
/// middle has an even number of taps and `total` is odd. Errs with `TapTooLarge` if a tap to be moved is over 65,536 in
/// size.
pub fn settle(taps: &mut [i32], reals: &[f64], up: usize, total: i64) -> Result<(), FilterFault>
    requires same { length reals.now ≡ length taps.old }
    requires up { 0 < up }
    requires whole { length taps.old % up ≡ 0 }
    requires some { 0 < length taps.old }
    requires few { length taps.old ≤ MAX_TAPS }
    ensures exact { OnOk result ((phase : ℕ) → phase < up → phase_sum taps.new up phase ≡ total) }
    ensures symmetric { OnOk result ((up % 2 ≡ 0) ⊎ ((length taps.old % 2 ≡ 1) ⊎ IsEven total) →
        IsSymmetric taps.new) }
    ensures fault { IfErr result IsTapFault }
{
    mirror(taps);
    settle_outer(taps, reals, up, total)?;
    if up % 2 == 1 {
        settle_middle(taps, reals, up, total)?;
    }
    Ok(())
}

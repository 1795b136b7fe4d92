//! The taps of phases, their sums, and steps that move a tap and its mirror image.

ghost use Rattle.std.specs.Prelude.{◌≡◌, ◌<◌, ◌≤◌, ◌+◌, ◌-◌, ◌*◌, ◌/◌, ◌%◌, ◌^◌, ◌⊎◌, ◌+ℤ◌, ℕ, length, slice_set};
ghost use Rattle.std.specs.Prelude.{unsigned_abs, OnOk, IfErr, MatchResult};
ghost use Rattle.sdf_filters.specs.Phases.{tap, in_phase, phase_sum, steps, has_16_bits, Have16Bits, AreMoved};
ghost use Rattle.sdf_filters.specs.Phases.{AreTurns, AreMovedBy, weight};
ghost use Rattle.sdf_filters.specs.Lowpass.{IsTapFault};

use crate::fault::FilterFault;
use crate::order::{TapMove, first_turn, is_round, place_of, tree_of, update_tree};
use sdf_limits::MAX_TAPS;

/// The greatest absolute value of a tap that can still be moved.
const FARTHEST: u32 = 65_536;

/// Up to this number of steps, or up to `FEW_TAPS` taps, each step looks at all taps.
const FEW_STEPS: u64 = 8;

const FEW_TAPS: usize = 64;

/// Returns `tap` if its place is one of the phase, otherwise 0.
fn in_phase(up: usize, phase: usize, place: usize, tap: i32) -> i32
    requires { 0 < up }
    ensures { result ≡ in_phase up phase place tap }
{
    if place % up == phase { tap } else { 0 }
}

/// Returns the sum of the taps of `phase`.
pub(crate) fn phase_sum(taps: &[i32], up: usize, phase: usize) -> i64
    requires up { 0 < up }
    requires few { length taps.now ≤ MAX_TAPS }
    ensures sum { result ≡ phase_sum taps.now up phase }
    ensures small { unsigned_abs result ≤ 2 ^ 41 }
{
    let mut sum = 0;
    for (place, tap) in taps.iter().enumerate() {
        sum += i64::from(in_phase(up, phase, place, *tap));
    }
    sum
}

/// Checks whether `tap` is one of -32768 to 32767.
fn has_16_bits(tap: i32) -> bool
    ensures { result ≡ has_16_bits tap }
{
    i16::try_from(tap).is_ok()
}

/// Returns the fault of the first tap of over 16 bits, if there is one.
pub(crate) fn check_16_bits(taps: &[i32]) -> Result<(), FilterFault>
    ensures { MatchResult result (λ _. Have16Bits taps.now) IsTapFault }
{
    for &tap in taps {
        if !has_16_bits(tap) {
            return Err(tap_fault(tap));
        }
    }
    Ok(())
}

/// Returns the fault of a tap of over 16 bits.
fn tap_fault(tap: i32) -> FilterFault
    requires { 32768 ≤ unsigned_abs tap }
    ensures { IsTapFault result }
{
    FilterFault::TapTooLarge {
        size: tap.unsigned_abs(),
    }
}

/// Returns `tap` moved by one step, up if `rise`.
fn stepped(tap: i32, rise: bool) -> i32
    requires { unsigned_abs tap ≤ 65536 }
    ensures { result ≡ tap +ℤ steps rise 1 }
{
    if rise { tap + 1 } else { tap - 1 }
}

/// Moves the tap at `place` by one step.
pub(crate) fn step_tap(taps: &mut [i32], place: usize, rise: bool) -> Result<(), FilterFault>
    requires { place < length taps.old }
    ensures moves { OnOk result (taps.new ≡ slice_set taps.old place (tap taps.old place +ℤ steps rise 1)) }
    ensures fault { IfErr result IsTapFault }
{
    let tap = taps[place];
    if tap.unsigned_abs() > FARTHEST {
        return Err(tap_fault(tap));
    }
    taps[place] = stepped(tap, rise);
    Ok(())
}

/// Moves the tap with this `turn`, and its mirror image, by one step.
fn step_turn(taps: &mut [i32], way: TapMove, turn: usize) -> Result<(), FilterFault>
    requires turns { AreTurns way (length taps.old) }
    requires turn { turn < way.turns }
    ensures moves { OnOk result (AreMoved way.up way.phase way.rise (weight way.up way.phase) taps.old taps.new) }
    ensures fault { IfErr result IsTapFault }
{
    let place = place_of(taps.len(), way, turn);
    step_tap(taps, place, way.rise)?;
    step_tap(taps, taps.len() - 1 - place, way.rise)?;
    Ok(())
}

/// Moves the tap of each turn of `way`, and its mirror image, by one step.
fn move_each(taps: &mut [i32], way: TapMove) -> Result<(), FilterFault>
    requires turns { AreTurns way (length taps.old) }
    ensures moves { OnOk result (AreMovedBy way way.turns taps.old taps.new) }
    ensures fault { IfErr result IsTapFault }
{
    for turn in 0..way.turns {
        step_turn(taps, way, turn)?;
    }
    Ok(())
}

/// Moves taps by `times` steps, each with its mirror image. Each step looks at the taps of all turns of `way`.
fn move_few(taps: &mut [i32], reals: &[f64], way: TapMove, times: u64) -> Result<(), FilterFault>
    requires same { length reals.now ≡ length taps.old }
    requires few { length taps.old ≤ MAX_TAPS }
    requires turns { AreTurns way (length taps.old) }
    requires some { 0 < way.turns }
    ensures moves { OnOk result (AreMovedBy way times taps.old taps.new) }
    ensures fault { IfErr result IsTapFault }
{
    for _ in 0..times {
        let turn = first_turn(taps, reals, way);
        step_turn(taps, way, turn)?;
    }
    Ok(())
}

/// Moves taps by `times` steps, each with its mirror image. A tree of the taps says which one is next.
fn move_many(taps: &mut [i32], reals: &[f64], way: TapMove, times: u64) -> Result<(), FilterFault>
    requires same { length reals.now ≡ length taps.old }
    requires few { length taps.old ≤ MAX_TAPS }
    requires turns { AreTurns way (length taps.old) }
    requires some { 0 < way.turns }
    ensures moves { OnOk result (AreMovedBy way times taps.old taps.new) }
    ensures fault { IfErr result IsTapFault }
{
    let mut tree = tree_of(taps, reals, way);
    for _ in 0..times {
        let turn = tree[1];
        step_turn(taps, way, turn)?;
        update_tree(&mut tree, taps, reals, way, turn);
    }
    Ok(())
}

/// Moves taps by `times` steps, one after another, each with its mirror image.
fn move_soonest(
    taps: &mut [i32],
    reals: &[f64],
    way: TapMove,
    times: u64,
) -> Result<(), FilterFault>
    requires same { length reals.now ≡ length taps.old }
    requires few { length taps.old ≤ MAX_TAPS }
    requires turns { AreTurns way (length taps.old) }
    requires some { 0 < way.turns }
    ensures moves { OnOk result (AreMovedBy way times taps.old taps.new) }
    ensures fault { IfErr result IsTapFault }
{
    if times > FEW_STEPS && way.turns > FEW_TAPS {
        move_many(taps, reals, way, times)
    } else {
        move_few(taps, reals, way, times)
    }
}

/// Moves taps by one round: one step for each turn. Each tap moves once, if none is moved twice before all others were.
fn move_round(taps: &mut [i32], reals: &[f64], way: TapMove) -> Result<(), FilterFault>
    requires same { length reals.now ≡ length taps.old }
    requires few { length taps.old ≤ MAX_TAPS }
    requires turns { AreTurns way (length taps.old) }
    requires some { 0 < way.turns }
    ensures moves { OnOk result (AreMovedBy way way.turns taps.old taps.new) }
    ensures fault { IfErr result IsTapFault }
{
    if is_round(taps, reals, way) {
        move_each(taps, way)
    } else {
        move_soonest(taps, reals, way, way.turns as u64)
    }
}

/// Moves taps by `times` steps: whole rounds, and then single steps.
pub(crate) fn move_rounds(
    taps: &mut [i32],
    reals: &[f64],
    way: TapMove,
    times: u64,
) -> Result<(), FilterFault>
    requires same { length reals.now ≡ length taps.old }
    requires few { length taps.old ≤ MAX_TAPS }
    requires turns { AreTurns way (length taps.old) }
    requires some { 0 < way.turns }
    ensures moves { OnOk result (AreMovedBy way times taps.old taps.new) }
    ensures fault { IfErr result IsTapFault }
{
    let many = way.turns as u64;
    for _ in 0..times / many {
        move_round(taps, reals, way)?;
    }
    move_soonest(taps, reals, way, times % many)?;
    Ok(())
}

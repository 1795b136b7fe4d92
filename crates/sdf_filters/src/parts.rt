//! The two lists of 16-bit taps that taps of more bits are split into.
//!
//! The second list has the taps that are not large whole. The first list has the large ones: one stretch around the
//! middle, each divided by a power of two. Of these the second list has what is left.

ghost use Rattle.std.specs.Prelude.{◌≡◌, ◌<◌, ◌≤◌, ◌-◌, ◌*◌, ◌^◌, ◌*ℤ◌, ℕ, length, pos, FitsSigned};
ghost use Rattle.std.specs.Prelude.{IfOk, IfErr, MatchResult};
ghost use Rattle.std.specs.Int.{w16};
ghost use Rattle.sdf_limits.specs.declared.TheConstants.{MAX_FACTOR, MAX_TAPS};
ghost use Rattle.sdf_filters.specs.declared.parts.TheConstants.{MAX_MORE_BITS};
ghost use Rattle.sdf_filters.specs.Phases.{tap, Have16Bits};
ghost use Rattle.sdf_filters.specs.Lowpass.{IsTapFault};
ghost use Rattle.sdf_filters.specs.Wide.{AreParts, late_tap};

use crate::differences::differences;
use crate::fault::FilterFault;
use crate::phases::check_16_bits;
use std::alloc::{AllocError, Global};

/// The greatest number of bits that a tap may have beyond 16.
pub const MAX_MORE_BITS: u32 = 8;

/// The greatest size of a tap that the second list has whole. Up to it, the sums of a filter stay in one pass of its
/// kernel.
const MOST_WHOLE: u32 = 11_000;

/// The two lists of taps, and the number of samples by which the input of the first one is delayed.
#[derive(Drop)]
pub(crate) struct Parts {
    pub(crate) high: Vec<i32>,
    pub(crate) low: Vec<i32>,
    pub(crate) wait: usize,
}

/// A stretch of taps: the first place, and the place after the last.
#[derive(Clone, Copy)]
struct Stretch {
    start: usize,
    end: usize,
}

/// Returns the stretch around the middle of `taps` that has all taps of over `MOST_WHOLE` in size.
fn large_stretch(taps: &[i32]) -> Stretch
    requires { 0 < length taps.now }
    ensures some { result.start < result.end }
    ensures within { result.end ≤ length taps.now }
{
    let mut start = taps.len() / 2;
    let mut end = taps.len() / 2 + 1;
    for place in 0..taps.len() {
        if taps[place].unsigned_abs() > MOST_WHOLE {
            start = start.min(place);
            end = end.max(place + 1);
        }
    }
    Stretch { start, end }
}

/// Returns `tap` divided by `2^bits`, rounded.
fn divided(tap: i32, bits: u32) -> i32
    requires { bits ≤ MAX_MORE_BITS }
{
    let half = (1i64 << bits) / 2;
    i32::try_from((i64::from(tap) + half) >> bits).unwrap_or(i32::MAX)
}

/// Returns the first list, from the place `first` on: 0 before the stretch, and then its taps divided by `2^bits`.
fn high_taps(
    alloc: Global,
    taps: &[i32],
    bits: u32,
    first: usize,
    stretch: Stretch,
) -> Result<Vec<i32>, AllocError>
    requires bits { bits ≤ MAX_MORE_BITS }
    requires first { first ≤ stretch.end }
    requires within { stretch.end ≤ length taps.now }
    ensures { IfOk result (λ high. length high.items ≡ stretch.end - first) }
{
    let mut high = Vec::new(alloc);
    for place in first..stretch.end {
        let tap = if place < stretch.start {
            0
        } else {
            divided(taps[place], bits)
        };
        high.push(tap)?;
    }
    Ok(high)
}

/// Returns the tap at `place` of the filter whose input is `late` places late.
fn late_tap(high: &[i32], late: usize, place: usize) -> i32
    ensures { result ≡ late_tap late high.now place }
{
    if place < late {
        0
    } else if place - late < high.len() {
        high[place - late]
    } else {
        0
    }
}

/// Returns `2^bits`.
fn unit_of(bits: u32) -> i32
    requires { bits ≤ MAX_MORE_BITS }
    ensures { result ≡ pos (2 ^ bits) }
{
    1i32 << bits
}

/// Multiplies `tap` by a 16-bit `factor`.
fn product(factor: i32, tap: i32) -> i64
    requires { FitsSigned w16 factor }
    ensures { result ≡ factor *ℤ tap }
{
    i64::from(factor) * i64::from(tap)
}

/// Returns `tap` if it fits in 32 bits.
fn fitting(tap: i64) -> Result<i32, FilterFault>
    ensures { MatchResult result (λ given. given ≡ tap) IsTapFault }
{
    match i32::try_from(tap) {
        Ok(given) => Ok(given),
        Err(_) => Err(FilterFault::TapTooLarge { size: u32::MAX }),
    }
}

/// Returns `2^bits` times a tap of the first list.
#[tactic(auto, using(crate::proofs::PartTaps::unit_fits))]
fn scaled_tap(high: &[i32], bits: u32, late: usize, place: usize) -> Result<i32, FilterFault>
    requires { bits ≤ MAX_MORE_BITS }
    ensures { MatchResult result (λ tap. tap ≡ pos (2 ^ bits) *ℤ late_tap late high.now place) IsTapFault }
{
    fitting(product(unit_of(bits), late_tap(high, late, place)))
}

/// Returns `count` taps: `2^bits` times those of the first list, `late` places late.
fn scaled_taps(
    alloc: Global,
    high: &[i32],
    bits: u32,
    late: usize,
    count: usize,
) -> Result<Vec<i32>, FilterFault>
    requires { bits ≤ MAX_MORE_BITS }
    ensures all { IfOk result (λ taps. length taps.items ≡ count) }
    ensures each { IfOk result (λ taps. (n : ℕ) → n < count →
        tap taps.items n ≡ pos (2 ^ bits) *ℤ late_tap late high.now n) }
    ensures fault { IfErr result IsTapFault }
{
    let mut taps = Vec::new(alloc);
    for place in 0..count {
        let tap = scaled_tap(high, bits, late, place)?;
        taps.push(tap)?;
    }
    Ok(taps)
}

/// Splits taps into two lists of 16-bit taps. Each tap is the one of the first list times `2^bits`, plus the one of the
/// second. The input of the first list is delayed by whole samples, in place of zeros in front.
///
/// Errs with `TapTooLarge` if a tap does not fit.
#[tactic(auto, using(crate::proofs::PartTaps::are_parts, crate::proofs::PartTaps::whole_part))]
pub(crate) fn parts_of(
    alloc: Global,
    taps: &[i32],
    bits: u32,
    up: usize,
) -> Result<Parts, FilterFault>
    requires bits { bits ≤ MAX_MORE_BITS }
    requires up { 1 ≤ up }
    requires up_few { up ≤ MAX_FACTOR }
    requires some { 0 < length taps.now }
    requires few { length taps.now ≤ MAX_TAPS }
    ensures { MatchResult result
        (λ parts. AreParts up bits parts.wait taps.now parts.high.items parts.low.items) IsTapFault }
{
    let stretch = large_stretch(taps);
    let wait = stretch.start / up;
    let high = high_taps(alloc, taps, bits, wait * up, stretch)?;
    check_16_bits(&high)?;
    let scaled = scaled_taps(alloc, &high, bits, wait * up, taps.len())?;
    let low = differences(alloc, taps, &scaled)?;
    Ok(Parts { high, low, wait })
}

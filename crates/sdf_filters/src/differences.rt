//! High-passes and band-passes, as differences of taps.

ghost use Rattle.std.specs.Prelude.{◌≡◌, ◌<◌, ◌≤◌, ◌/◌, ◌^◌, ◌-ℤ◌, pos, length, replicate, slice_set, unsigned_abs};
ghost use Rattle.std.specs.Prelude.{FitsSigned, IfOk, MatchResult};
ghost use Rattle.std.specs.Int.{w16};
ghost use Rattle.sdf_filters.specs.Lowpass.{IsTapFault};
ghost use Rattle.sdf_filters.specs.Differences.{IsDifference, AreDifferences};

use crate::fault::FilterFault;
use std::alloc::{AllocError, Global};

/// Returns the taps of the filter that passes what `from` passes and `taps` does not.
pub(crate) fn differences(
    alloc: Global,
    from: &[i32],
    taps: &[i32],
) -> Result<Vec<i32>, FilterFault>
    requires { length taps.now ≡ length from.now }
    ensures { MatchResult result (λ left. AreDifferences from.now taps.now left.items) IsTapFault }
{
    let mut left = Vec::new(alloc);
    for place in 0..from.len() {
        let tap = difference(from[place], taps[place])?;
        left.push(tap)?;
    }
    Ok(left)
}

/// Returns the difference of two taps if it fits in 16 bits.
fn difference(from: i32, tap: i32) -> Result<i32, FilterFault>
    ensures { MatchResult result (IsDifference from tap) IsTapFault }
{
    let left = i64::from(from) - i64::from(tap);
    if left > 32_767 || left < -32_768 {
        return Err(too_large(left));
    }
    Ok(left as i32)
}

/// Returns the fault of a difference of over 16 bits.
fn too_large(left: i64) -> FilterFault
    requires large { 32768 ≤ unsigned_abs left }
    requires fits { unsigned_abs left < 2 ^ 32 }
    ensures { IsTapFault result }
{
    FilterFault::TapTooLarge {
        size: left.unsigned_abs() as u32,
    }
}

/// Returns `count` taps: the middle one is `height`, and the others are 0.
pub(crate) fn impulse(alloc: Global, count: usize, height: i32) -> Result<Vec<i32>, AllocError>
    requires { 0 < count }
    ensures { IfOk result (λ taps. taps.items ≡ slice_set (replicate count (pos 0)) (count / 2) height) }
{
    let mut taps = vec![in alloc; 0; count]?;
    taps[count / 2] = height;
    Ok(taps)
}

//! Sums of products of eight outputs that can exceed 32 bits, by their upper and lower halves.

ghost use Rattle.std.specs.Prelude.{ℕ, ◌≡◌, ◌<◌, ◌≤◌, ◌+◌, ◌*◌, ◌^◌, pos, ◌+ℤ◌, ◌-ℤ◌, ◌*ℤ◌, length, unsigned_abs};
ghost use Rattle.std.specs.Prelude.{FitsSigned};
ghost use Rattle.std.specs.Simd.Lanes.{Each1};
ghost use Rattle.std.specs.Int.{w16, w32, int_shr};
ghost use Rattle.sdf_kit.specs.Samples.{sample, rescaled};
ghost use Rattle.sdf_kit.specs.Dots.{AreLanes, wrap};
ghost use Rattle.sdf_kit.specs.Tiles.{AreRowStretches, AreCarried};

use crate::dots::{lower, plus, upper};
use crate::eights::tile_sums;
use sdf_limits::MAX_SHIFT;
use std::simd::prelude::*;

/// The upper halves of sums, with their sign, and the lower ones, each added up.
#[derive(Clone, Copy)]
pub(crate) struct Carried {
    pub(crate) high: i32x8,
    pub(crate) low: i32x8,
}

/// Adds the halves of `sums`.
#[tactic(auto, using(crate::proofs::LaneTotals::passed))]
fn carry(carried: Carried, sums: i32x8) -> Carried
    requires high { AreLanes w32 8 carried.high }
    requires low { AreLanes w32 8 carried.low }
    requires sums { AreLanes w32 8 sums }
    ensures high_lanes { AreLanes w32 8 result.high }
    ensures low_lanes { AreLanes w32 8 result.low }
    ensures high { (l : ℕ) → l < 8 → sample result.high l ≡ wrap (sample carried.high l +ℤ int_shr (sample sums l) 16) }
    ensures low { (l : ℕ) → l < 8 → sample result.low l ≡
        wrap (sample carried.low l +ℤ (sample sums l -ℤ (pos 65536 *ℤ int_shr (sample sums l) 16))) }
{
    Carried {
        high: plus(carried.high, upper(sums)),
        low: plus(carried.low, lower(sums)),
    }
}

/// Divides each sum by `2^shift` and rounds to the nearest. The result must fit in 32 bits.
pub(crate) fn rescale_carried(carried: Carried, shift: u32) -> i32x8
    requires high { AreLanes w32 8 carried.high }
    requires low { AreLanes w32 8 carried.low }
    requires low_small { (l : ℕ) → l < 8 → unsigned_abs (sample carried.low l) ≤ 67108864 }
    requires small { (l : ℕ) → l < 8 →
        unsigned_abs ((pos 65536 *ℤ sample carried.high l) +ℤ sample carried.low l) ≤ 2147450880 * 2 ^ shift }
    requires shift { shift ≤ MAX_SHIFT }
    ensures lanes { AreLanes w32 8 result }
    ensures value { (l : ℕ) → l < 8 → sample result l ≡
        rescaled ((pos 65536 *ℤ sample carried.high l) +ℤ sample carried.low l) shift }
{
    let half = (1i32 << shift) / 2;
    let upper = carried.high << i32x8::splat((16 - shift) as i32);
    let lower = (carried.low + i32x8::splat(half)) >> i32x8::splat(shift as i32);
    upper + lower
}

/// The sums of four windows.
#[derive(Clone, Copy)]
pub(crate) struct FourCarried {
    pub(crate) a: Carried,
    pub(crate) b: Carried,
    pub(crate) c: Carried,
    pub(crate) d: Carried,
}

/// Returns the products of the taps of eight outputs with any 16-bit samples of four places, summed lane by lane.
#[tactic(auto, using(crate::proofs::LaneTotals::passed))]
#[inline(always)]
pub(crate) fn wide_sums(
    taps: &[i16],
    stretches: &[u16],
    x: &[i16],
    y: &[i16],
    z: &[i16],
    w: &[i16],
) -> FourCarried
    requires stretches { AreRowStretches taps.now stretches.now }
    requires x { length x.now ≡ 2 * length stretches.now }
    requires y { length y.now ≡ 2 * length stretches.now }
    requires z { length z.now ≡ 2 * length stretches.now }
    requires w { length w.now ≡ 2 * length stretches.now }
    requires taps_short { Each1 (FitsSigned w16) taps.now }
    requires x_short { Each1 (FitsSigned w16) x.now }
    requires y_short { Each1 (FitsSigned w16) y.now }
    requires z_short { Each1 (FitsSigned w16) z.now }
    requires w_short { Each1 (FitsSigned w16) w.now }
    ensures a { AreCarried taps.now x.now (length stretches.now) result.a }
    ensures b { AreCarried taps.now y.now (length stretches.now) result.b }
    ensures c { AreCarried taps.now z.now (length stretches.now) result.c }
    ensures d { AreCarried taps.now w.now (length stretches.now) result.d }
{
    let none = Carried {
        high: i32x8::splat(0),
        low: i32x8::splat(0),
    };
    let mut a = none;
    let mut b = none;
    let mut c = none;
    let mut d = none;
    let mut done = 0;
    'stretches: while done < stretches.len() {
        let next = done + usize::from(stretches[done]);
        let sums = tile_sums(
            &taps[16 * done..16 * next],
            &x[2 * done..2 * next],
            &y[2 * done..2 * next],
            &z[2 * done..2 * next],
            &w[2 * done..2 * next],
        );
        a = carry(a, sums.a);
        b = carry(b, sums.b);
        c = carry(c, sums.c);
        d = carry(d, sums.d);
        done = next;
    }
    FourCarried { a, b, c, d }
}

//! Sums of products of eight outputs, each in a lane of a vector.

ghost use Rattle.std.specs.Prelude.{ℕ, ◌≡◌, ◌<◌, ◌≤◌, ◌+◌, ◌*◌, ◌/◌, ◌%◌, ◌+ℤ◌, ◌*ℤ◌, length, drop, unsigned_abs};
ghost use Rattle.std.specs.Prelude.{FitsSigned};
ghost use Rattle.std.specs.Simd.Lanes.{zip2, Each1};
ghost use Rattle.std.specs.Int.{w16, w32};
ghost use Rattle.sdf_kit.specs.Samples.{sample, rescaled};
ghost use Rattle.sdf_kit.specs.Dots.{neighbours, AreLanes, wrap};
ghost use Rattle.sdf_kit.specs.Tiles.{times, lane_sum, AreTileSums, IsApart};

use crate::dots::{FourSums, load, plus, products};
use sdf_limits::MAX_SHIFT;
use std::simd::prelude::*;

/// Returns two neighbouring samples, from place `at` on, eight times. One `vpbroadcastd`, or `movd` and `pshufd`.
fn pair(x: &[i16], at: usize) -> i16x16
    requires room { at + 2 ≤ length x.now }
    requires short { Each1 (FitsSigned w16) x.now }
    ensures lanes { AreLanes w16 16 result }
    ensures value { result ≡ times 8 (sample x.now at) (sample x.now (at + 1)) }
{
    i16x2::from_slice(&x[at..]).swizzle([0, 1, 0, 1, 0, 1, 0, 1, 0, 1, 0, 1, 0, 1, 0, 1])
}

/// Adds the products of two taps and two samples in each lane to `sums`.
#[tactic(auto, using(crate::proofs::LaneTotals::passed))]
fn add(sums: i32x8, h: i16x16, x: i16x16) -> i32x8
    requires sums { AreLanes w32 8 sums }
    requires h { AreLanes w16 16 h }
    requires x { AreLanes w16 16 x }
    ensures lanes { AreLanes w32 8 result }
    ensures value { result ≡ zip2 (λ a b. wrap (a +ℤ b)) sums (neighbours (zip2 (λ a b. a *ℤ b) h x)) }
{
    plus(sums, products(h, x))
}

/// Returns the products of the taps of eight outputs with the samples of four places, summed lane by lane.
#[tactic(auto, using(crate::proofs::LaneTotals::passed))]
#[inline(always)]
pub(crate) fn tile_sums(taps: &[i16], x: &[i16], y: &[i16], z: &[i16], w: &[i16]) -> FourSums
    requires even { length x.now % 2 ≡ 0 }
    requires taps { length taps.now ≡ 8 * length x.now }
    requires y { length y.now ≡ length x.now }
    requires z { length z.now ≡ length x.now }
    requires w { length w.now ≡ length x.now }
    requires taps_short { Each1 (FitsSigned w16) taps.now }
    requires x_short { Each1 (FitsSigned w16) x.now }
    requires y_short { Each1 (FitsSigned w16) y.now }
    requires z_short { Each1 (FitsSigned w16) z.now }
    requires w_short { Each1 (FitsSigned w16) w.now }
    ensures a { AreTileSums taps.now x.now (length x.now / 2) result.a }
    ensures b { AreTileSums taps.now y.now (length x.now / 2) result.b }
    ensures c { AreTileSums taps.now z.now (length x.now / 2) result.c }
    ensures d { AreTileSums taps.now w.now (length x.now / 2) result.d }
{
    let mut a = i32x8::splat(0);
    let mut b = i32x8::splat(0);
    let mut c = i32x8::splat(0);
    let mut d = i32x8::splat(0);
    let mut at = 0;
    'pairs: while at < x.len() {
        let h = load(taps, 8 * at);
        a = add(a, h, pair(x, at));
        b = add(b, h, pair(y, at));
        c = add(c, h, pair(z, at));
        d = add(d, h, pair(w, at));
        at += 2;
    }
    FourSums { a, b, c, d }
}

/// Divides each sum by `2^shift` and rounds to the nearest. The sums must leave room to round.
pub(crate) fn rescale_eight(sums: i32x8, shift: u32) -> i32x8
    requires sums { AreLanes w32 8 sums }
    requires small { (l : ℕ) → l < 8 → unsigned_abs (sample sums l) ≤ 2147467263 }
    requires shift { shift ≤ MAX_SHIFT }
    ensures lanes { AreLanes w32 8 result }
    ensures value { (l : ℕ) → l < 8 → sample result l ≡ rescaled (sample sums l) shift }
{
    let half = (1i32 << shift) / 2;
    (sums + i32x8::splat(half)) >> i32x8::splat(shift as i32)
}

/// Puts eight samples, the first at `at`.
pub(crate) fn put_eight(put: &mut [i32], at: usize, samples: i32x8)
    requires samples { AreLanes w32 8 samples }
    requires room { at + 8 ≤ length put.old }
    ensures len { length put.new ≡ length put.old }
    ensures done { (l : ℕ) → l < 8 → sample put.new (at + l) ≡ sample samples l }
    ensures others { (n : ℕ) → IsApart at n → sample put.new n ≡ sample put.old n }
{
    samples.copy_to_slice(&mut put[at..]);
}

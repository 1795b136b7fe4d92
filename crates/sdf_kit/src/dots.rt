//! Dot products of 16-bit samples and taps, sixteen at a time.

ghost use Rattle.std.specs.Prelude.{ℕ, ◌≡◌, ◌≤◌, ◌+◌, ◌*◌, ◌/◌, ◌%◌, pos, ◌*ℤ◌, ◌+ℤ◌, ◌-ℤ◌, [], ◌∷◌, length, ◌++◌};
ghost use Rattle.std.specs.Prelude.{map, take, drop, FitsSigned};
ghost use Rattle.std.specs.Simd.Lanes.{zip2, Each1};
ghost use Rattle.std.specs.Int.{w16, w32, int_shr};
ghost use Rattle.sdf_kit.specs.Dots.{neighbours, AreLanes, wrap, total, dot};
ghost use Rattle.sdf_kit.specs.Stretches.{weight, IsStretch, AreLanesWithin, AreSums};

use std::simd::prelude::*;

/// Multiplies lane by lane and sums each two neighbours. One `vpmaddwd`, or two `pmaddwd`.
pub(crate) fn products(x: i16x16, h: i16x16) -> i32x8
    requires x { AreLanes w16 16 x }
    requires h { AreLanes w16 16 h }
    ensures { result ≡ neighbours (zip2 (λ a b. a *ℤ b) x h) }
{
    let products = x.cast::<i32>() * h.cast::<i32>();
    products.swizzle([0, 2, 4, 6, 8, 10, 12, 14]) + products.swizzle([1, 3, 5, 7, 9, 11, 13, 15])
}

/// Returns the sums of neighbours, of `a` and then of `b`. One `phaddd`.
fn pairs(a: i32x4, b: i32x4) -> i32x4
    requires a { AreLanes w32 4 a }
    requires b { AreLanes w32 4 b }
    ensures { result ≡ neighbours (a ++ b) }
{
    a.shuffle(b, [0, 2, 4, 6]) + a.shuffle(b, [1, 3, 5, 7])
}

/// Returns the sums lane by lane. One `vpaddd`, or two `paddd`.
pub(crate) fn plus(a: i32x8, b: i32x8) -> i32x8
    requires a { AreLanes w32 8 a }
    requires b { AreLanes w32 8 b }
    ensures { result ≡ zip2 (λ x y. wrap (x +ℤ y)) a b }
{
    a + b
}

/// Adds the upper lanes to the lower ones, lane by lane.
fn folded(a: i32x8) -> i32x4
    requires { AreLanes w32 8 a }
    ensures { result ≡ zip2 (λ x y. wrap (x +ℤ y)) (take 4 a) (drop 4 a) }
{
    a.swizzle([0, 1, 2, 3]) + a.swizzle([4, 5, 6, 7])
}

/// Returns the upper sixteen bits of each lane, with their sign.
pub(crate) fn upper(a: i32x8) -> i32x8
    requires { AreLanes w32 8 a }
    ensures lanes { AreLanes w32 8 result }
    ensures value { result ≡ map (λ x. int_shr x 16) a }
{
    a >> i32x8::splat(16)
}

/// Returns the lowest sixteen bits of each lane.
pub(crate) fn lower(a: i32x8) -> i32x8
    requires { AreLanes w32 8 a }
    ensures lanes { AreLanes w32 8 result }
    ensures value { result ≡ map (λ x. x -ℤ (pos 65536 *ℤ int_shr x 16)) a }
{
    a & i32x8::splat(65_535)
}

/// Returns the totals of four vectors, wrapped to 32 bits.
#[tactic(auto, using(crate::proofs::LaneTotals::passed))]
fn totals(a: i32x8, b: i32x8, c: i32x8, d: i32x8) -> i32x4
    requires a { AreLanes w32 8 a }
    requires b { AreLanes w32 8 b }
    requires c { AreLanes w32 8 c }
    requires d { AreLanes w32 8 d }
    ensures { result ≡ wrap (total a) ∷ wrap (total b) ∷ wrap (total c) ∷ wrap (total d) ∷ [] }
{
    pairs(pairs(folded(a), folded(b)), pairs(folded(c), folded(d)))
}

/// Returns sixteen samples from place `at` on.
pub(crate) fn load(x: &[i16], at: usize) -> i16x16
    requires room { at + 16 ≤ length x.now }
    requires short { Each1 (FitsSigned w16) x.now }
    ensures value { result ≡ take 16 (drop at x.now) }
    ensures lanes { AreLanes w16 16 result }
{
    i16x16::from_slice(&x[at..])
}

/// Adds sixteen products to `sums`.
#[tactic(auto, using(crate::proofs::LaneTotals::passed))]
fn mac(sums: i32x8, h: i16x16, x: i16x16) -> i32x8
    requires sums { AreLanes w32 8 sums }
    requires h { AreLanes w16 16 h }
    requires x { AreLanes w16 16 x }
    ensures lanes { AreLanes w32 8 result }
    ensures value { wrap (total result) ≡ wrap (total sums +ℤ dot h x) }
    ensures exact { (m : ℕ) → AreLanesWithin m sums → m + weight h * 32768 ≤ 2147483647 →
        AreLanesWithin (m + weight h * 32768) result × (total result ≡ total sums +ℤ dot h x) }
{
    plus(sums, products(h, x))
}

// The loops over sixteens count places: to count sixteens would take more instructions in each turn.

/// Returns the products of taps and samples, summed lane by lane.
#[tactic(auto, using(crate::proofs::LaneTotals::passed))]
#[inline(always)]
fn sums(h: &[i16], x: &[i16]) -> i32x8
    requires whole { length h.now % 16 ≡ 0 }
    requires h_short { Each1 (FitsSigned w16) h.now }
    requires x_short { Each1 (FitsSigned w16) x.now }
    requires x { length x.now ≡ length h.now }
    ensures { AreSums h.now x.now result }
{
    let mut a = i32x8::splat(0);
    let mut at = 0;
    'chunks: while at < h.len() {
        a = mac(a, load(h, at), load(x, at));
        at += 16;
    }
    a
}

/// The products of the same taps with the samples of four places, summed lane by lane.
#[derive(Clone, Copy)]
pub(crate) struct FourSums {
    pub(crate) a: i32x8,
    pub(crate) b: i32x8,
    pub(crate) c: i32x8,
    pub(crate) d: i32x8,
}

/// Four dot products with the same taps.
#[derive(Clone, Copy)]
pub(crate) struct FourDots {
    pub(crate) a: i64,
    pub(crate) b: i64,
    pub(crate) c: i64,
    pub(crate) d: i64,
}

/// Returns the products of the taps `h` with the samples of four places, summed lane by lane.
#[tactic(auto, using(crate::proofs::LaneTotals::passed))]
#[inline(always)]
fn four_sums(h: &[i16], x: &[i16], y: &[i16], z: &[i16], w: &[i16]) -> FourSums
    requires whole { length h.now % 16 ≡ 0 }
    requires h_short { Each1 (FitsSigned w16) h.now }
    requires x_short { Each1 (FitsSigned w16) x.now }
    requires y_short { Each1 (FitsSigned w16) y.now }
    requires z_short { Each1 (FitsSigned w16) z.now }
    requires w_short { Each1 (FitsSigned w16) w.now }
    requires x { length x.now ≡ length h.now }
    requires y { length y.now ≡ length h.now }
    requires z { length z.now ≡ length h.now }
    requires w { length w.now ≡ length h.now }
    ensures a { AreSums h.now x.now result.a }
    ensures b { AreSums h.now y.now result.b }
    ensures c { AreSums h.now z.now result.c }
    ensures d { AreSums h.now w.now result.d }
{
    let mut a = i32x8::splat(0);
    let mut b = i32x8::splat(0);
    let mut c = i32x8::splat(0);
    let mut d = i32x8::splat(0);
    let mut at = 0;
    'chunks: while at < h.len() {
        let taps = load(h, at);
        a = mac(a, taps, load(x, at));
        b = mac(b, taps, load(y, at));
        c = mac(c, taps, load(z, at));
        d = mac(d, taps, load(w, at));
        at += 16;
    }
    FourSums { a, b, c, d }
}

/// Returns four dot products with the same taps, each wrapped to 32 bits.
#[tactic(auto, using(crate::proofs::LaneTotals::passed))]
pub(crate) fn dots(h: &[i16], x: &[i16], y: &[i16], z: &[i16], w: &[i16]) -> i32x4
    requires whole { length h.now % 16 ≡ 0 }
    requires h_short { Each1 (FitsSigned w16) h.now }
    requires x_short { Each1 (FitsSigned w16) x.now }
    requires y_short { Each1 (FitsSigned w16) y.now }
    requires z_short { Each1 (FitsSigned w16) z.now }
    requires w_short { Each1 (FitsSigned w16) w.now }
    requires x { length x.now ≡ length h.now }
    requires y { length y.now ≡ length h.now }
    requires z { length z.now ≡ length h.now }
    requires w { length w.now ≡ length h.now }
    ensures { result ≡ wrap (dot h.now x.now) ∷ wrap (dot h.now y.now) ∷ wrap (dot h.now z.now)
        ∷ wrap (dot h.now w.now) ∷ [] }
{
    let sums = four_sums(h, x, y, z, w);
    totals(sums.a, sums.b, sums.c, sums.d)
}

/// Returns a dot product, wrapped to 32 bits.
#[tactic(auto, using(crate::proofs::LaneTotals::passed))]
pub(crate) fn dot(h: &[i16], x: &[i16]) -> i32
    requires whole { length h.now % 16 ≡ 0 }
    requires h_short { Each1 (FitsSigned w16) h.now }
    requires x_short { Each1 (FitsSigned w16) x.now }
    requires x { length x.now ≡ length h.now }
    ensures { result ≡ wrap (dot h.now x.now) }
{
    let a = sums(h, x);
    totals(a, a, a, a).to_array()[0]
}

/// Joins the total of upper halves, `high`, and the total of lower halves, `low`.
fn join(high: i32, low: i32) -> i64
    ensures { result ≡ (pos 65536 *ℤ high) +ℤ low }
{
    65_536 * i64::from(high) + i64::from(low)
}

/// Returns the totals of four vectors, which can exceed 32 bits.
#[tactic(auto, using(crate::proofs::LaneTotals::passed))]
#[inline(always)]
fn wide_totals(a: i32x8, b: i32x8, c: i32x8, d: i32x8) -> FourDots
    requires a { AreLanes w32 8 a }
    requires b { AreLanes w32 8 b }
    requires c { AreLanes w32 8 c }
    requires d { AreLanes w32 8 d }
    ensures a { result.a ≡ total a }
    ensures b { result.b ≡ total b }
    ensures c { result.c ≡ total c }
    ensures d { result.d ≡ total d }
{
    let high = totals(upper(a), upper(b), upper(c), upper(d)).to_array();
    let low = totals(lower(a), lower(b), lower(c), lower(d)).to_array();
    FourDots {
        a: join(high[0], low[0]),
        b: join(high[1], low[1]),
        c: join(high[2], low[2]),
        d: join(high[3], low[3]),
    }
}

/// Returns four exact dot products with the taps of a stretch.
#[tactic(auto, using(crate::proofs::LaneTotals::passed))]
#[inline(always)]
pub(crate) fn stretch_dots(h: &[i16], x: &[i16], y: &[i16], z: &[i16], w: &[i16]) -> FourDots
    requires whole { length h.now % 16 ≡ 0 }
    requires stretch { IsStretch (length h.now / 16) h.now }
    requires h_short { Each1 (FitsSigned w16) h.now }
    requires x_short { Each1 (FitsSigned w16) x.now }
    requires y_short { Each1 (FitsSigned w16) y.now }
    requires z_short { Each1 (FitsSigned w16) z.now }
    requires w_short { Each1 (FitsSigned w16) w.now }
    requires x { length x.now ≡ length h.now }
    requires y { length y.now ≡ length h.now }
    requires z { length z.now ≡ length h.now }
    requires w { length w.now ≡ length h.now }
    ensures a { result.a ≡ dot h.now x.now }
    ensures b { result.b ≡ dot h.now y.now }
    ensures c { result.c ≡ dot h.now z.now }
    ensures d { result.d ≡ dot h.now w.now }
{
    let sums = four_sums(h, x, y, z, w);
    wide_totals(sums.a, sums.b, sums.c, sums.d)
}

/// Returns the exact dot product with the taps of a stretch.
#[tactic(auto, using(crate::proofs::LaneTotals::passed))]
pub(crate) fn stretch_dot(h: &[i16], x: &[i16]) -> i64
    requires whole { length h.now % 16 ≡ 0 }
    requires stretch { IsStretch (length h.now / 16) h.now }
    requires h_short { Each1 (FitsSigned w16) h.now }
    requires x_short { Each1 (FitsSigned w16) x.now }
    requires x { length x.now ≡ length h.now }
    ensures { result ≡ dot h.now x.now }
{
    let a = sums(h, x);
    wide_totals(a, a, a, a).a
}

//! Dot products with any 16-bit samples, a stretch of taps at a time.

ghost use Rattle.std.specs.Prelude.{◌≡◌, ◌≤◌, ◌%◌, ◌+ℤ◌, length};
ghost use Rattle.sdf_kit.specs.Dots.{dot};
ghost use Rattle.sdf_kit.specs.Stretches.{weight as weight_is, IsReach, AreStretches, AreVectors, AreSeen, AreSmall};

use crate::dots::{FourDots, stretch_dot, stretch_dots};

/// The greatest weight of a stretch: 65,535 times 32,768 is less than 2^31.
const MAX_WEIGHT: u32 = 65_535;

/// The taps of a branch, and the length of the stretch at each sixteen, in sixteens.
#[derive(Clone, Copy)]
pub(crate) struct Branch<'a> {
    pub(crate) taps: &'a [i16],
    pub(crate) stretches: &'a [u8],
}

/// Returns the length of the stretch from the first tap on, in sixteens. It is the longest, though no clause says so.
pub(crate) fn reach(taps: &[i16]) -> u8
    requires whole { length taps.now % 16 ≡ 0 }
    requires few { length taps.now ≤ 1024 }
    ensures { IsReach result taps.now }
{
    let mut reached = 0u8;
    let mut total = 0;
    'sixteens: while 16 * usize::from(reached) < taps.len() {
        let at = 16 * usize::from(reached);
        total += weight(&taps[at..at + 16]);
        if total > MAX_WEIGHT {
            return reached;
        }
        reached += 1;
    }
    reached
}

/// Returns the greatest sum of the absolute values of two neighbours.
pub(crate) fn weight(taps: &[i16]) -> u32
    requires { length taps.now ≡ 16 }
    ensures is { result ≡ weight_is taps.now }
    ensures small { result ≤ 65536 }
{
    let mut most = 0;
    for pair in 0..8 {
        let first = u32::from(taps[2 * pair].unsigned_abs());
        let second = u32::from(taps[2 * pair + 1].unsigned_abs());
        most = most.max(first + second);
    }
    most
}

/// Returns four dot products with the taps of `branch`.
pub(crate) fn wide_dots(branch: Branch, x: &[i16], y: &[i16], z: &[i16], w: &[i16]) -> FourDots
    requires taps { AreVectors branch.taps.now }
    requires stretches { AreStretches branch.taps.now branch.stretches.now }
    requires x { AreSeen branch.taps.now x.now }
    requires y { AreSeen branch.taps.now y.now }
    requires z { AreSeen branch.taps.now z.now }
    requires w { AreSeen branch.taps.now w.now }
    ensures a { result.a ≡ dot branch.entry.taps.now x.now }
    ensures b { result.b ≡ dot branch.entry.taps.now y.now }
    ensures c { result.c ≡ dot branch.entry.taps.now z.now }
    ensures d { result.d ≡ dot branch.entry.taps.now w.now }
{
    let taps = branch.taps;
    let mut sums = FourDots {
        a: 0,
        b: 0,
        c: 0,
        d: 0,
    };
    let mut done = 0;
    'stretches: while done < taps.len() {
        let next = done + 16 * usize::from(branch.stretches[done / 16]);
        let h = &taps[done..next];
        let more = stretch_dots(
            h,
            &x[done..next],
            &y[done..next],
            &z[done..next],
            &w[done..next],
        );
        sums = plus(sums, more);
        done = next;
    }
    sums
}

/// Returns the dot product with the taps of `branch`.
pub(crate) fn wide_dot(branch: Branch, x: &[i16]) -> i64
    requires taps { AreVectors branch.taps.now }
    requires stretches { AreStretches branch.taps.now branch.stretches.now }
    requires x { AreSeen branch.taps.now x.now }
    ensures { result ≡ dot branch.entry.taps.now x.now }
{
    let taps = branch.taps;
    let mut sum = 0i64;
    let mut done = 0;
    'stretches: while done < taps.len() {
        let next = done + 16 * usize::from(branch.stretches[done / 16]);
        sum += stretch_dot(&taps[done..next], &x[done..next]);
        done = next;
    }
    sum
}

/// Adds `more` to `sums`, dot product by dot product.
fn plus(sums: FourDots, more: FourDots) -> FourDots
    requires sums { AreSmall sums }
    requires more { AreSmall more }
    ensures a { result.a ≡ sums.a +ℤ more.a }
    ensures b { result.b ≡ sums.b +ℤ more.b }
    ensures c { result.c ≡ sums.c +ℤ more.c }
    ensures d { result.d ≡ sums.d +ℤ more.d }
{
    FourDots {
        a: sums.a + more.a,
        b: sums.b + more.b,
        c: sums.c + more.c,
        d: sums.d + more.d,
    }
}

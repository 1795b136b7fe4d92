//! The samples that a block of firings reads, as 16-bit numbers.

ghost use Rattle.std.specs.Prelude.{ℕ, ◌≡◌, ◌+◌, ◌*◌, ◌%◌, ◌<◌, ◌≤◌, ℤ, pos, true, [], ◌∷◌, ◌++◌, length, take, drop};
ghost use Rattle.std.specs.Prelude.{replicate, FitsSigned, ◌*ℤ◌, ◌+ℤ◌, ◌≤ℤ◌, map, unsigned_abs};
ghost use Rattle.std.specs.List.{range_with_len};
ghost use Rattle.std.specs.Int.{w16};
ghost use Rattle.std.specs.Simd.Lanes.{Each1};
ghost use Rattle.sdf_kit.specs.Samples.{sample, rescaled};
ghost use Rattle.sdf_kit.specs.Dots.{dot as dot_of, wrap, AreWithin};
ghost use Rattle.sdf_kit.specs.Branches.{AreFirings};
ghost use Rattle.sdf_kit.specs.Tiles.{AreTiles, AreWideTiles, keep_of, whole_output};
ghost use Rattle.sdf_kit.specs.Stretches.{AreStretches, AreVectors, IsBranch};
ghost use Rattle.sdf_kit.specs.Window.{part_as, seen, output_of, AreFit};

use crate::arithmetic::{max_abs, rescale, rescale_small};
use crate::branches::{LEAST_PEAK_TO_SPLIT, Limits};
use crate::dots::{FourDots, dot, dots};
use crate::polyphase::Firings;
use crate::stretches::{Branch, wide_dot, wide_dots};
use crate::tiles::{TileSamples, Tiles, put_tiles};
use sdf_limits::MAX_SHIFT;
use std::marker::Model;

/// The number of places in a window: at most 2,048 samples, and some that tiles read beyond them.
pub(crate) const ROOM: usize = 2064;

/// Samples in 16-bit numbers: whole in `high`, or split into upper bits in `high` and the lowest eight in `low`.
#[derive(Drop)]
pub(crate) struct Window {
    high: [i16; ROOM],
    low: [i16; ROOM],
    len: usize,
    limits: Limits,
    form: SampleForm,
}

/// The form in which samples are held.
#[derive(Clone, Copy)]
enum SampleForm {
    /// Whole, and none above the peak of the limits in absolute value.
    Quiet,
    /// Whole, any 16-bit numbers.
    Wide,
    /// Split into their upper bits and their lowest eight.
    Split,
}

impl Model for Window {
    ghost use Rattle.sdf_kit.specs.Window.{WindowValue, held, AreHeld};

    ghost Value = { WindowValue };

    ghost view = { λ w. record { samples = held w.form w.high w.low w.len; limits = w.limits } };

    ghost invariant = { λ w. AreHeld w.form w.high w.low w.len w.limits };
}

impl Window {
    /// Returns a window without samples.
    pub(crate) fn new() -> Window {
        Window {
            high: [0; ROOM],
            low: [0; ROOM],
            len: 0,
            limits: Limits {
                peak: 0,
                is_wide: false,
            },
            form: SampleForm::Quiet,
        }
    }

    /// Loads `pad` zeros, then `kept`, then `taken`. Returns false if a sample is too large for `limits`.
    pub(crate) fn load(&mut self, pad: usize, kept: &[i32], taken: &[i32], limits: Limits) -> bool
        requires room { pad + (length kept.now + length taken.now) ≤ 2048 }
        requires peak { limits.peak ≤ 32767 }
        ensures limits { result ≡ true → self.new.limits ≡ limits }
        ensures samples { result ≡ true → self.new.samples ≡ replicate pad (pos 0) ++ (kept.now ++ taken.now) }
    {
        let max_abs = max_abs(kept).max(max_abs(taken));
        let len = pad + kept.len() + taken.len();
        let peak = limits.peak;
        self.len = 0;
        self.form = SampleForm::Quiet;
        self.limits = limits;
        if max_abs <= peak {
            write_all(&mut self.high, Part::Whole, pad, kept, taken);
            self.len = len;
            return true;
        }
        if limits.is_wide && max_abs <= 32_768 && are_short(kept) && are_short(taken) {
            write_all(&mut self.high, Part::Whole, pad, kept, taken);
            self.form = SampleForm::Wide;
            self.len = len;
            return true;
        }
        if LEAST_PEAK_TO_SPLIT <= peak && max_abs <= 255 * peak {
            write_all(&mut self.high, Part::High, pad, kept, taken);
            write_all(&mut self.low, Part::Low, pad, kept, taken);
            self.form = SampleForm::Split;
            self.len = len;
            return true;
        }
        false
    }

    /// Returns the outputs of `branch` at four places, `step` samples apart, the first at `at`.
    pub(crate) fn four(&self, branch: Branch, at: usize, step: usize, shift: u32) -> [i32; 4]
        requires branch { IsBranch self.now.limits branch.taps.now branch.stretches.now }
        requires room { at + 3 * step + length branch.taps.now ≤ length self.now.samples }
        requires shift { shift ≤ MAX_SHIFT }
        ensures { result ≡ output_of branch.entry.taps.now self.now.samples at shift
            ∷ output_of branch.entry.taps.now self.now.samples (at + step) shift
            ∷ output_of branch.entry.taps.now self.now.samples (at + 2 * step) shift
            ∷ output_of branch.entry.taps.now self.now.samples (at + 3 * step) shift ∷ [] }
    {
        let high = front(&self.high, self.len);
        match self.form {
            SampleForm::Quiet => {
                let a = four_dots(branch.taps, high, at, step);
                [
                    rescale_small(a[0], shift),
                    rescale_small(a[1], shift),
                    rescale_small(a[2], shift),
                    rescale_small(a[3], shift),
                ]
            }
            SampleForm::Wide => {
                let sums = four_wide_dots(branch, high, at, step);
                [
                    rescale(sums.a, shift),
                    rescale(sums.b, shift),
                    rescale(sums.c, shift),
                    rescale(sums.d, shift),
                ]
            }
            SampleForm::Split => {
                let a = four_dots(branch.taps, high, at, step);
                let b = four_dots(branch.taps, front(&self.low, self.len), at, step);
                [
                    join(a[0], b[0], shift),
                    join(a[1], b[1], shift),
                    join(a[2], b[2], shift),
                    join(a[3], b[3], shift),
                ]
            }
        }
    }

    /// Returns the output of `branch` at place `at`.
    pub(crate) fn one(&self, branch: Branch, at: usize, shift: u32) -> i32
        requires branch { IsBranch self.now.limits branch.taps.now branch.stretches.now }
        requires room { at + length branch.taps.now ≤ length self.now.samples }
        requires shift { shift ≤ MAX_SHIFT }
        ensures { result ≡ output_of branch.entry.taps.now self.now.samples at shift }
    {
        let high = front(&self.high, self.len);
        match self.form {
            SampleForm::Quiet => rescale_small(one_dot(branch.taps, high, at), shift),
            SampleForm::Wide => rescale(
                wide_dot(branch, piece(high, at, branch.taps.len())),
                shift,
            ),
            SampleForm::Split => {
                let a = one_dot(branch.taps, high, at);
                let b = one_dot(branch.taps, front(&self.low, self.len), at);
                join(a, b, shift)
            }
        }
    }
}

impl Window {
    /// Puts the outputs of `firings` by tiles, on the samples from `pad` on. Returns false, and puts nothing, if
    /// samples are split, or exceed the peak and the tiles have no stretches.
    pub(crate) fn put_tiles(
        &self,
        tiles: &Tiles,
        taps: &[i32],
        pad: usize,
        firings: Firings,
        put: &mut [i32],
    ) -> bool
        requires tiles { AreTiles taps.now firings.up firings.down tiles.now }
        requires wide { tiles.now.is_wide ≡ true → AreWideTiles firings.shift tiles.now }
        requires firings { AreFirings firings }
        requires many { firings.many ≤ 1024 }
        requires whole { firings.many % (4 * tiles.now.firings) ≡ 0 }
        requires samples { pad + (keep_of taps.now firings.up + firings.many * firings.down) ≡ length self.now.samples }
        requires room { length self.now.samples ≤ 2048 }
        requires small { AreWithin self.now.limits.peak self.now.samples → (n : ℕ) → n < firings.many * firings.up →
            unsigned_abs (whole_output taps.now firings.up firings.down (drop pad self.now.samples) n) ≤ 2147467263 }
        requires put { length put.old ≡ firings.many * firings.up }
        ensures len { length put.new ≡ length put.old }
        ensures put { result ≡ true → put.new ≡ map (λ n. rescaled (whole_output taps.now firings.up firings.down
            (drop pad self.now.samples) n) firings.shift) (range_with_len 0 (firings.many * firings.up)) }
    {
        // Tiles read two places beyond the samples. These meet no taps, and hold 16-bit numbers, too.
        match self.form {
            SampleForm::Quiet => {
                let _beyond = (self.high[self.len], self.high[self.len + 1]);
                let input = TileSamples {
                    samples: &self.high[pad..self.len + 2],
                    len: self.len - pad,
                    is_wide: false,
                };
                put_tiles(tiles, taps, input, firings, put);
                true
            }
            SampleForm::Wide if tiles.is_wide => {
                let _beyond = (self.high[self.len], self.high[self.len + 1]);
                let input = TileSamples {
                    samples: &self.high[pad..self.len + 2],
                    len: self.len - pad,
                    is_wide: true,
                };
                put_tiles(tiles, taps, input, firings, put);
                true
            }
            SampleForm::Wide | SampleForm::Split => false,
        }
    }
}

/// Returns the dot products of `h` with four pieces of `x`, `step` samples apart, each wrapped to 32 bits.
fn four_dots(h: &[i16], x: &[i16], at: usize, step: usize) -> [i32; 4]
    requires lanes { length h.now % 16 ≡ 0 }
    requires short { Each1 (FitsSigned w16) h.now }
    requires samples { Each1 (FitsSigned w16) x.now }
    requires room { at + 3 * step + length h.now ≤ length x.now }
    ensures { result ≡ wrap (dot_of h.now (take (length h.now) (drop at x.now)))
        ∷ wrap (dot_of h.now (take (length h.now) (drop (at + step) x.now)))
        ∷ wrap (dot_of h.now (take (length h.now) (drop (at + 2 * step) x.now)))
        ∷ wrap (dot_of h.now (take (length h.now) (drop (at + 3 * step) x.now))) ∷ [] }
{
    let len = h.len();
    let sums = dots(
        h,
        piece(x, at, len),
        piece(x, at + step, len),
        piece(x, at + 2 * step, len),
        piece(x, at + 3 * step, len),
    );
    sums.to_array()
}

/// Returns four exact dot products of `branch` with any 16-bit samples, `step` samples apart.
fn four_wide_dots(branch: Branch, x: &[i16], at: usize, step: usize) -> FourDots
    requires taps { AreVectors branch.taps.now }
    requires stretches { AreStretches branch.taps.now branch.stretches.now }
    requires samples { Each1 (FitsSigned w16) x.now }
    requires room { at + 3 * step + length branch.taps.now ≤ length x.now }
    ensures a { result.a ≡ dot_of branch.entry.taps.now (seen branch.entry.taps.now x.now at) }
    ensures b { result.b ≡ dot_of branch.entry.taps.now (seen branch.entry.taps.now x.now (at + step)) }
    ensures c { result.c ≡ dot_of branch.entry.taps.now (seen branch.entry.taps.now x.now (at + 2 * step)) }
    ensures d { result.d ≡ dot_of branch.entry.taps.now (seen branch.entry.taps.now x.now (at + 3 * step)) }
{
    let len = branch.taps.len();
    wide_dots(
        branch,
        piece(x, at, len),
        piece(x, at + step, len),
        piece(x, at + 2 * step, len),
        piece(x, at + 3 * step, len),
    )
}

/// Returns the dot product of `h` with the samples of `x` from `at` on, wrapped to 32 bits.
fn one_dot(h: &[i16], x: &[i16], at: usize) -> i32
    requires lanes { length h.now % 16 ≡ 0 }
    requires short { Each1 (FitsSigned w16) h.now }
    requires samples { Each1 (FitsSigned w16) x.now }
    requires room { at + length h.now ≤ length x.now }
    ensures { result ≡ wrap (dot_of h.now (take (length h.now) (drop at x.now))) }
{
    dot(h, piece(x, at, h.len()))
}

/// Returns `len` numbers from place `at` on.
pub(crate) fn piece(numbers: &[i16], at: usize, len: usize) -> &[i16]
    requires { at + len ≤ length numbers.now }
    ensures { result.now ≡ take len (drop at numbers.now) }
{
    &numbers[at..at + len]
}

/// Returns the first `len` numbers.
fn front(numbers: &[i16], len: usize) -> &[i16]
    requires { len ≤ length numbers.now }
    ensures { result.now ≡ take len numbers.now }
{
    &numbers[..len]
}

/// Returns the output from `high`, the sum of upper bits, and `low`, the sum of the lowest eight.
fn join(high: i32, low: i32, shift: u32) -> i32
    requires shift { shift ≤ MAX_SHIFT }
    ensures { result ≡ rescaled ((pos 256 *ℤ high) +ℤ low) shift }
{
    rescale(256 * i64::from(high) + i64::from(low), shift)
}

/// Checks whether no sample exceeds 32,767. `load` has checked before that none is below -32,768.
fn are_short(samples: &[i32]) -> bool
    ensures { result ≡ true → (k : ℕ) → k < length samples.now → sample samples.now k ≤ℤ pos 32767 }
{
    let mut greatest = 0;
    for sample in samples {
        greatest = greatest.max(*sample);
    }
    greatest <= 32_767
}

/// The part of a sample to write: all of it, its upper bits or its lowest eight.
#[derive(Clone, Copy, Drop)]
enum Part {
    Whole,
    High,
    Low,
}

/// Returns a part of `sample`.
fn part_of(part: Part, sample: i32) -> i16
    requires { FitsSigned w16 (part_as part sample) }
    ensures { result ≡ part_as part sample }
{
    let value = match part {
        Part::Whole => sample,
        Part::High => sample >> 8,
        Part::Low => sample - 256 * (sample >> 8),
    };
    value as i16
}

/// Writes parts of the samples in `from`, beginning at place `at`.
fn write(to: &mut [i16], part: Part, at: usize, from: &[i32])
    requires room { at + length from.now ≤ length to.old }
    requires fit { AreFit part from.now }
    ensures len { length to.new ≡ length to.old }
    ensures written { (k : ℕ) → k < length from.now → sample to.new (at + k) ≡ part_as part (sample from.now k) }
    ensures before { (n : ℕ) → n < at → sample to.new n ≡ sample to.old n }
{
    for i in 0..from.len() {
        to[at + i] = part_of(part, from[i]);
    }
}

/// Writes `len` zeros.
fn clear(to: &mut [i16], len: usize)
    requires { len ≤ length to.old }
    ensures len { length to.new ≡ length to.old }
    ensures zeros { (k : ℕ) → k < len → sample to.new k ≡ pos 0 }
{
    for i in 0..len {
        to[i] = 0;
    }
}

/// Writes `pad` zeros, then parts of the samples in `kept` and in `taken`.
fn write_all(to: &mut [i16], part: Part, pad: usize, kept: &[i32], taken: &[i32])
    requires room { pad + (length kept.now + length taken.now) ≤ length to.old }
    requires kept { AreFit part kept.now }
    requires taken { AreFit part taken.now }
    ensures len { length to.new ≡ length to.old }
    ensures written { take (pad + (length kept.now + length taken.now)) to.new ≡
        map (part_as part) (replicate pad (pos 0) ++ (kept.now ++ taken.now)) }
{
    clear(to, pad);
    write(to, part, pad, kept);
    write(to, part, pad + kept.len(), taken);
}

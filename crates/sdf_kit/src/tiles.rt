//! The outputs of many firings, eight neighbours at a time.

ghost use Rattle.std.specs.Prelude.{ℕ, ℤ, List, true, false, ◌≡◌, ◌≢◌, ◌<◌, ◌≤◌, ◌+◌, ◌*◌, ◌/◌, ◌%◌, ◌^◌, pos, ◌+ℤ◌};
ghost use Rattle.std.specs.Prelude.{◌*ℤ◌, length, map, take, drop, unsigned_abs, FitsSigned, IfSome};
ghost use Rattle.std.specs.List.{range_with_len};
ghost use Rattle.std.specs.Simd.Lanes.{Each1};
ghost use Rattle.std.specs.Int.{w16, w32};
ghost use Rattle.sdf_kit.specs.Samples.{sample, rescaled};
ghost use Rattle.sdf_kit.specs.Fir.{AreTaps};
ghost use Rattle.sdf_kit.specs.Dots.{AreLanes};
ghost use Rattle.sdf_kit.specs.Branches.{AreFirings};
ghost use Rattle.sdf_kit.specs.Stretches.{weight_of};
ghost use Rattle.sdf_kit.specs.Tiles.{lane_place, lane_tap, tile_tap, reach, IsWindow, tile_sum, IsApart, row_at};
ghost use Rattle.sdf_kit.specs.Tiles.{AreTiles, AreWideTiles, AreRowStretches, IsTurn, keep_of, whole_output};

use crate::branches::tap_at;
use crate::carries::{Carried, rescale_carried, wide_sums};
use crate::eights::{put_eight, rescale_eight, tile_sums};
use crate::polyphase::Firings;
use crate::tile_stretches::stretches_of;
use crate::window::piece;
use sdf_limits::MAX_SHIFT;
use std::alloc::Global;
use std::simd::prelude::*;

/// The greatest number of pairs in a row.
const MAX_PAIRS: usize = 1024;

/// Four windows of samples, `step` places apart, the first at `first`, and the places of their outputs, `stride` apart,
/// the first at `at`.
#[derive(Clone, Copy)]
struct FourWindows {
    first: usize,
    step: usize,
    at: usize,
    stride: usize,
    shift: u32,
}

/// Puts eight sums, rounded, the first at `at`.
#[tactic(auto, using(crate::proofs::LaneTotals::passed))]
#[inline(always)]
fn put_sums(put: &mut [i32], at: usize, sums: i32x8, shift: u32)
    requires sums { AreLanes w32 8 sums }
    requires small { (l : ℕ) → l < 8 → unsigned_abs (sample sums l) ≤ 2147467263 }
    requires shift { shift ≤ MAX_SHIFT }
    requires room { at + 8 ≤ length put.old }
    ensures len { length put.new ≡ length put.old }
    ensures done { (l : ℕ) → l < 8 → sample put.new (at + l) ≡ rescaled (sample sums l) shift }
    ensures others { (n : ℕ) → IsApart at n → sample put.new n ≡ sample put.old n }
{
    put_eight(put, at, rescale_eight(sums, shift));
}

/// Puts the outputs of eight lanes on four windows whose samples are small.
#[tactic(auto, using(crate::proofs::LaneTotals::passed))]
#[inline(always)]
fn put_quiet_tile(taps: &[i16], x: &[i16], four: FourWindows, put: &mut [i32])
    requires whole { length taps.now % 16 ≡ 0 }
    requires taps_short { Each1 (FitsSigned w16) taps.now }
    requires x_short { Each1 (FitsSigned w16) x.now }
    requires room { four.first + 3 * four.step + length taps.now / 8 ≤ length x.now }
    requires places { four.at + 3 * four.stride + 8 ≤ length put.old }
    requires apart { 8 ≤ four.stride }
    requires shift { four.shift ≤ MAX_SHIFT }
    requires small { (w l : ℕ) → w < 4 → l < 8 →
        unsigned_abs (tile_sum taps.now x.now (four.first + w * four.step) l) ≤ 2147467263 }
    ensures len { length put.new ≡ length put.old }
    ensures done { (w l : ℕ) → w < 4 → l < 8 → sample put.new (four.at + w * four.stride + l) ≡
        rescaled (tile_sum taps.now x.now (four.first + w * four.step) l) four.shift }
    ensures others { (n : ℕ) → ((w : ℕ) → w < 4 → IsApart (four.at + w * four.stride) n) →
        sample put.new n ≡ sample put.old n }
{
    let len = taps.len() / 8;
    let sums = tile_sums(
        taps,
        piece(x, four.first, len),
        piece(x, four.first + four.step, len),
        piece(x, four.first + 2 * four.step, len),
        piece(x, four.first + 3 * four.step, len),
    );
    put_sums(put, four.at, sums.a, four.shift);
    put_sums(put, four.at + four.stride, sums.b, four.shift);
    put_sums(put, four.at + 2 * four.stride, sums.c, four.shift);
    put_sums(put, four.at + 3 * four.stride, sums.d, four.shift);
}

/// Puts eight sums, rounded, the first at `at`.
#[tactic(auto, using(crate::proofs::LaneTotals::passed))]
#[inline(always)]
fn put_carried(put: &mut [i32], at: usize, carried: Carried, shift: u32)
    requires high { AreLanes w32 8 carried.high }
    requires low { AreLanes w32 8 carried.low }
    requires low_small { (l : ℕ) → l < 8 → unsigned_abs (sample carried.low l) ≤ 67108864 }
    requires small { (l : ℕ) → l < 8 →
        unsigned_abs ((pos 65536 *ℤ sample carried.high l) +ℤ sample carried.low l) ≤ 2147450880 * 2 ^ shift }
    requires shift { shift ≤ MAX_SHIFT }
    requires room { at + 8 ≤ length put.old }
    ensures len { length put.new ≡ length put.old }
    ensures done { (l : ℕ) → l < 8 → sample put.new (at + l) ≡
        rescaled ((pos 65536 *ℤ sample carried.high l) +ℤ sample carried.low l) shift }
    ensures others { (n : ℕ) → IsApart at n → sample put.new n ≡ sample put.old n }
{
    put_eight(put, at, rescale_carried(carried, shift));
}

/// Puts the outputs of eight lanes on four windows of any 16-bit samples.
#[tactic(auto, using(crate::proofs::LaneTotals::passed))]
#[inline(always)]
fn put_wide_tile(taps: &[i16], stretches: &[u16], x: &[i16], four: FourWindows, put: &mut [i32])
    requires stretches { AreRowStretches taps.now stretches.now }
    requires total { weight_of (length stretches.now) taps.now ≤ 65535 * 2 ^ four.shift }
    requires taps_short { Each1 (FitsSigned w16) taps.now }
    requires x_short { Each1 (FitsSigned w16) x.now }
    requires room { four.first + 3 * four.step + length taps.now / 8 ≤ length x.now }
    requires places { four.at + 3 * four.stride + 8 ≤ length put.old }
    requires apart { 8 ≤ four.stride }
    requires shift { four.shift ≤ MAX_SHIFT }
    ensures len { length put.new ≡ length put.old }
    ensures done { (w l : ℕ) → w < 4 → l < 8 → sample put.new (four.at + w * four.stride + l) ≡
        rescaled (tile_sum taps.now x.now (four.first + w * four.step) l) four.shift }
    ensures others { (n : ℕ) → ((w : ℕ) → w < 4 → IsApart (four.at + w * four.stride) n) →
        sample put.new n ≡ sample put.old n }
{
    let len = 2 * stretches.len();
    let sums = wide_sums(
        taps,
        stretches,
        piece(x, four.first, len),
        piece(x, four.first + four.step, len),
        piece(x, four.first + 2 * four.step, len),
        piece(x, four.first + 3 * four.step, len),
    );
    put_carried(put, four.at, sums.a, four.shift);
    put_carried(put, four.at + four.stride, sums.b, four.shift);
    put_carried(put, four.at + 2 * four.stride, sums.c, four.shift);
    put_carried(put, four.at + 3 * four.stride, sums.d, four.shift);
}

/// Puts the outputs of eight lanes on four windows, whose samples are small if not `is_wide`.
#[inline(always)]
fn put_tile(
    taps: &[i16],
    stretches: &[u16],
    is_wide: bool,
    x: &[i16],
    four: FourWindows,
    put: &mut [i32],
)
    requires whole { length taps.now % 16 ≡ 0 }
    requires taps_short { Each1 (FitsSigned w16) taps.now }
    requires x_short { Each1 (FitsSigned w16) x.now }
    requires room { four.first + 3 * four.step + length taps.now / 8 ≤ length x.now }
    requires places { four.at + 3 * four.stride + 8 ≤ length put.old }
    requires apart { 8 ≤ four.stride }
    requires shift { four.shift ≤ MAX_SHIFT }
    requires stretches { is_wide ≡ true → AreRowStretches taps.now stretches.now }
    requires total { is_wide ≡ true → weight_of (length stretches.now) taps.now ≤ 65535 * 2 ^ four.shift }
    requires small { is_wide ≡ false → (w l : ℕ) → w < 4 → l < 8 →
        unsigned_abs (tile_sum taps.now x.now (four.first + w * four.step) l) ≤ 2147467263 }
    ensures len { length put.new ≡ length put.old }
    ensures done { (w l : ℕ) → w < 4 → l < 8 → sample put.new (four.at + w * four.stride + l) ≡
        rescaled (tile_sum taps.now x.now (four.first + w * four.step) l) four.shift }
    ensures others { (n : ℕ) → ((w : ℕ) → w < 4 → IsApart (four.at + w * four.stride) n) →
        sample put.new n ≡ sample put.old n }
{
    if is_wide {
        put_wide_tile(taps, stretches, x, four, put);
    } else {
        put_quiet_tile(taps, x, four, put);
    }
}

/// The taps of a set of firings, vector by vector: eight neighbouring outputs stand in the lanes of a vector.
#[derive(Drop)]
pub(crate) struct Tiles {
    /// The rows of the vectors, one after another. A row has sixteen taps for each pair of samples: two for each
    /// output.
    table: Vec<i16>,
    /// The number of pairs in the stretch at each pair of any row, if `is_wide`.
    stretches: Vec<u16>,
    /// Whether any 16-bit samples can be summed, a stretch at a time.
    pub(crate) is_wide: bool,
    /// The number of pairs of samples that a vector's outputs need.
    pairs: usize,
    /// The number of firings in a set. Their outputs fill vectors.
    firings: u32,
    /// The number of vectors in a set.
    vectors: u32,
}

impl Tiles {
    /// Lays out the taps of a filter whose branches have `width` places. Returns `None` if branches cost less, or if
    /// memory is refused.
    pub(crate) fn new(
        alloc: Global,
        taps: &[i32],
        up: u32,
        down: u32,
        width: usize,
    ) -> Option<Tiles>
        requires taps { AreTaps taps.now }
        requires up { (1 ≤ up) × (up ≤ 64) }
        requires down { (1 ≤ down) × (down ≤ 64) }
        requires width { width ≤ 1024 }
        ensures tiles { IfSome result (λ t. AreTiles taps.now up down t) }
        ensures narrow { IfSome result (λ t. t.is_wide ≡ false) }
    {
        let set = set_of(up);
        let keep = taps.len().saturating_sub(1) / up as usize;
        let pairs = (keep + (7 * down / up) as usize + 1) / 2 + 1;
        if pairs > MAX_PAIRS || !pays(pairs, width) || !are_windows(keep, up, down, set, pairs) {
            return None;
        }
        let mut table = vec![in alloc; 0; set.vectors as usize * (16 * pairs)].ok()?;
        put_rows(&mut table, taps, up, down, set.vectors, pairs);
        Some(Tiles {
            table,
            stretches: Vec::new(alloc),
            is_wide: false,
            pairs,
            firings: set.firings,
            vectors: set.vectors,
        })
    }

    /// Finds stretches for sums of any 16-bit samples, shifted by `shift`, unless memory for them is refused.
    pub(crate) fn widened(self, alloc: Global, shift: u32) -> Tiles
        requires few { self.vectors ≤ 64 }
        requires pairs { self.pairs ≤ 1024 }
        requires long { length self.table.items ≡ self.vectors * (16 * self.pairs) }
        requires shift { shift ≤ MAX_SHIFT }
        requires narrow { self.is_wide ≡ false }
        ensures same { (taps : List ℤ) (up down : ℕ) → AreTiles taps up down self → AreTiles taps up down result }
        ensures wide { result.is_wide ≡ true → AreWideTiles shift result }
    {
        match stretches_of(alloc, &self.table, self.vectors, self.pairs, shift) {
            Some(stretches) => Tiles {
                table: self.table,
                stretches,
                is_wide: true,
                pairs: self.pairs,
                firings: self.firings,
                vectors: self.vectors,
            },
            None => self,
        }
    }

    /// Returns the number of firings in a turn.
    pub(crate) fn turn(&self) -> usize
        requires few { self.now.firings ≤ 8 }
        ensures { result ≡ 4 * self.now.firings }
    {
        4 * self.firings as usize
    }

    /// Returns the row of a vector.
    fn row(&self, vector: u32) -> &[i16]
        requires few { vector ≤ 64 }
        requires pairs { self.now.pairs ≤ 1024 }
        requires room { vector * (16 * self.now.pairs) + 16 * self.now.pairs ≤ length self.now.table.items }
        ensures { result.now ≡ row_at self.now vector }
    {
        let len = 16 * self.pairs;
        &self.table[vector as usize * len..vector as usize * len + len]
    }
}

/// The samples that firings read, and two places more, which meet no taps.
#[derive(Clone, Copy)]
pub(crate) struct TileSamples<'a> {
    pub(crate) samples: &'a [i16],
    /// The number of samples that firings read.
    pub(crate) len: usize,
    /// Whether the samples may exceed the peak up to which sums fit in 32 bits.
    pub(crate) is_wide: bool,
}

/// Puts the outputs of four sets of firings, after those of `done` firings.
fn put_turn(
    tiles: &Tiles,
    taps: &[i32],
    input: TileSamples<'_>,
    firings: Firings,
    done: u32,
    put: &mut [i32],
)
    requires tiles { AreTiles taps.now firings.up firings.down tiles.now }
    requires firings { AreFirings firings }
    requires many { firings.many ≤ 1024 }
    requires turn { done + 4 * tiles.now.firings ≤ firings.many }
    requires short { Each1 (FitsSigned w16) input.samples.now }
    requires samples { firings.many * firings.down + keep_of taps.now firings.up ≤ input.len }
    requires room { input.len + 2 ≤ length input.samples.now }
    requires wide { input.is_wide ≡ true → AreWideTiles firings.shift tiles.now }
    requires small { input.is_wide ≡ false → (n : ℕ) → n < firings.many * firings.up →
        unsigned_abs (whole_output taps.now firings.up firings.down (take input.len input.samples.now) n) ≤ 2147467263 }
    requires put { length put.old ≡ firings.many * firings.up }
    ensures { IsTurn (λ n. rescaled (whole_output taps.now firings.up firings.down
        (take input.entry.len input.entry.samples.now) n) firings.shift)
        done tiles.now.firings firings.up put.old put.new (8 * tiles.now.vectors) }
{
    let step = (tiles.firings * firings.down) as usize;
    let stride = (tiles.firings * firings.up) as usize;
    let first = (done * firings.down) as usize;
    let at = (done * firings.up) as usize;
    for vector in 0..tiles.vectors {
        let four = FourWindows {
            first: first + (8 * vector * firings.down / firings.up) as usize,
            step,
            at: at + 8 * vector as usize,
            stride,
            shift: firings.shift,
        };
        put_tile(
            tiles.row(vector),
            &tiles.stretches,
            input.is_wide,
            input.samples,
            four,
            put,
        );
    }
}

/// Puts the outputs of `firings`, which are whole turns of four sets.
pub(crate) fn put_tiles(
    tiles: &Tiles,
    taps: &[i32],
    input: TileSamples<'_>,
    firings: Firings,
    put: &mut [i32],
)
    requires tiles { AreTiles taps.now firings.up firings.down tiles.now }
    requires firings { AreFirings firings }
    requires many { firings.many ≤ 1024 }
    requires whole { firings.many % (4 * tiles.now.firings) ≡ 0 }
    requires short { Each1 (FitsSigned w16) input.samples.now }
    requires samples { firings.many * firings.down + keep_of taps.now firings.up ≤ input.len }
    requires room { input.len + 2 ≤ length input.samples.now }
    requires wide { input.is_wide ≡ true → AreWideTiles firings.shift tiles.now }
    requires small { input.is_wide ≡ false → (n : ℕ) → n < firings.many * firings.up →
        unsigned_abs (whole_output taps.now firings.up firings.down (take input.len input.samples.now) n) ≤ 2147467263 }
    requires put { length put.old ≡ firings.many * firings.up }
    ensures { put.new ≡ map (λ n. rescaled (whole_output taps.now firings.up firings.down
        (take input.entry.len input.entry.samples.now) n)
        firings.shift) (range_with_len 0 (firings.many * firings.up)) }
{
    let turn = 4 * tiles.firings;
    for number in 0..firings.many / turn {
        put_turn(tiles, taps, input, firings, number * turn, put);
    }
}

/// Lays out the taps of a filter whose branches have `width` places, and finds stretches if they are `wanted`. Returns
/// `None` if branches cost less, or if memory is refused.
pub(crate) fn tiles_of(
    alloc: Global,
    taps: &[i32],
    firings: Firings,
    width: usize,
    wanted: bool,
) -> Option<Tiles>
    requires taps { AreTaps taps.now }
    requires firings { AreFirings firings }
    requires width { width ≤ 1024 }
    ensures tiles { IfSome result (λ t. AreTiles taps.now firings.up firings.down t) }
    ensures wide { IfSome result (λ t. t.is_wide ≡ true → AreWideTiles firings.shift t) }
{
    let tiles = Tiles::new(alloc, taps, firings.up, firings.down, width)?;
    if wanted {
        Some(tiles.widened(alloc, firings.shift))
    } else {
        Some(tiles)
    }
}

/// Returns whether tiles cost less than branches: they make up to an eighth more products, and spare the work around
/// the loop.
fn pays(pairs: usize, width: usize) -> bool
    requires pairs { pairs ≤ 1024 }
    requires width { width ≤ 1024 }
{
    2 * pairs <= width + width / 8 + 32
}

/// A set of firings, and the vectors that their outputs fill.
#[derive(Clone, Copy)]
struct FiringSet {
    firings: u32,
    vectors: u32,
}

/// Returns the least set of firings whose outputs fill vectors of eight.
fn set_of(up: u32) -> FiringSet
    requires some { 1 ≤ up }
    requires few { up ≤ 64 }
    ensures set { result.firings * up ≡ 8 * result.vectors }
    ensures firings { (1 ≤ result.firings) × (result.firings ≤ 8) }
    ensures vectors { (1 ≤ result.vectors) × (result.vectors ≤ 64) }
{
    let (firings, vectors) = if up % 8 == 0 {
        (1, up / 8)
    } else if up % 4 == 0 {
        (2, up / 4)
    } else if up % 2 == 0 {
        (4, up / 2)
    } else {
        (8, up)
    };
    FiringSet { firings, vectors }
}

/// Writes the taps of one lane into a row.
fn put_lane(row: &mut [i16], lane: usize, taps: &[i32], up: u32, phase: usize, end: usize)
    requires taps { AreTaps taps.now }
    requires lane { lane < 8 }
    requires up { up ≤ 64 }
    requires phase { phase < 64 }
    requires end { end ≤ 65536 }
    requires whole { length row.old % 16 ≡ 0 }
    ensures len { length row.new ≡ length row.old }
    ensures done { (i : ℕ) → i < length row.old / 8 →
        sample row.new (lane_place lane i) ≡ lane_tap taps.now up phase end i }
    ensures others { (n : ℕ) → n % 16 / 2 ≢ lane → sample row.new n ≡ sample row.old n }
{
    for i in 0..row.len() / 8 {
        let tap = if i <= end {
            tap_at(taps, phase + (end - i) * up as usize)
        } else {
            0
        };
        row[16 * (i / 2) + 2 * lane + i % 2] = tap;
    }
}

/// Writes the taps of a vector's eight outputs into its row.
fn put_row(row: &mut [i16], taps: &[i32], up: u32, down: u32, vector: u32)
    requires taps { AreTaps taps.now }
    requires up { (1 ≤ up) × (up ≤ 64) }
    requires down { (1 ≤ down) × (down ≤ 64) }
    requires vector { vector < 64 }
    requires whole { length row.old % 16 ≡ 0 }
    ensures len { length row.new ≡ length row.old }
    ensures done { (l i : ℕ) → l < 8 → i < length row.old / 8 →
        sample row.new (lane_place l i) ≡ tile_tap taps.now up down vector l i }
{
    let keep = taps.len().saturating_sub(1) / up as usize;
    let start = 8 * vector * down / up;
    for lane in 0..8 {
        let at = (8 * vector + lane) * down;
        let end = (at / up - start) as usize + keep;
        put_lane(row, lane as usize, taps, up, (at % up) as usize, end);
    }
}

/// Checks whether `pairs` of samples from the oldest one of a vector on reach the newest one, and few beyond.
fn is_window(keep: usize, up: u32, down: u32, firings: u32, pairs: usize, vector: u32) -> bool
    requires up { (1 ≤ up) × (up ≤ 64) }
    requires down { (1 ≤ down) × (down ≤ 64) }
    requires vector { vector < 64 }
    requires keep { keep ≤ 1024 }
    requires pairs { pairs ≤ 1024 }
    requires firings { firings ≤ 8 }
    ensures { result ≡ true → IsWindow keep up down firings pairs vector }
{
    let start = (8 * vector * down / up) as usize;
    let end = ((8 * vector + 7) * down / up) as usize;
    end - start + keep < 2 * pairs && start + 2 * pairs <= (firings * down) as usize + keep + 2
}

/// Checks whether `pairs` fit each vector of a set.
fn are_windows(keep: usize, up: u32, down: u32, set: FiringSet, pairs: usize) -> bool
    requires up { (1 ≤ up) × (up ≤ 64) }
    requires down { (1 ≤ down) × (down ≤ 64) }
    requires vectors { set.vectors ≤ 64 }
    requires keep { keep ≤ 1024 }
    requires pairs { pairs ≤ 1024 }
    requires firings { set.firings ≤ 8 }
    ensures { result ≡ true → (v : ℕ) → v < set.vectors → IsWindow keep up down set.firings pairs v }
{
    for vector in 0..set.vectors {
        if !is_window(keep, up, down, set.firings, pairs, vector) {
            return false;
        }
    }
    true
}

/// Writes the taps of all vectors of a set, row after row.
fn put_rows(table: &mut [i16], taps: &[i32], up: u32, down: u32, vectors: u32, pairs: usize)
    requires taps { AreTaps taps.now }
    requires up { (1 ≤ up) × (up ≤ 64) }
    requires down { (1 ≤ down) × (down ≤ 64) }
    requires vectors { vectors ≤ 64 }
    requires pairs { pairs ≤ 1024 }
    requires room { length table.old ≡ vectors * (16 * pairs) }
    ensures len { length table.new ≡ length table.old }
    ensures short { Each1 (FitsSigned w16) table.new }
    ensures done { (v l i : ℕ) → v < vectors → l < 8 → i < 2 * pairs →
        sample table.new (v * (16 * pairs) + lane_place l i) ≡ tile_tap taps.now up down v l i }
{
    let len = 16 * pairs;
    for vector in 0..vectors {
        let start = vector as usize * len;
        put_row(&mut table[start..start + len], taps, up, down, vector);
    }
}

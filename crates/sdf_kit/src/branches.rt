//! The branches of a polyphase filter: the taps of each phase, contiguous in memory.

ghost use Rattle.std.specs.Prelude.{ℕ, ◌≡◌, ◌+◌, ◌-◌, ◌*◌, ◌/◌, ◌%◌, ◌<◌, ◌≤◌, length, map, take, drop, true};
ghost use Rattle.std.specs.Prelude.{slice_index_or, nat_lt};
ghost use Rattle.std.specs.List.{list_all, range_with_len};
ghost use Rattle.sdf_kit.specs.Samples.{sample};
ghost use Rattle.sdf_kit.specs.Fir.{AreTaps};
ghost use Rattle.sdf_kit.specs.Dots.{total_abs};
ghost use Rattle.sdf_kit.specs.Branches.{AreBranches, branch_at, stretches_at};
ghost use Rattle.sdf_kit.specs.Stretches.{IsReach, is_wide, stretch_count};

use crate::arithmetic::MAX_SUM;
use crate::stretches::{Branch, reach};

/// The number of places in a table: at most 1,024 taps, and at most sixteen zeros for each of 64 branches.
pub(crate) const PLACES: usize = 2048;

/// The number of sixteens in a table: groups of sixteen taps, each of which fills a vector.
const SIXTEENS: usize = PLACES / 16;

/// The cost of a stretch that is not the first of its branch, counted in sixteens of a second pass.
///
/// Sketches of both loops measured 3 on x86-64-v2 and 6 with AVX2.
const STRETCH_COST: usize = 6;

/// The taps of each phase, the last one first, after zeros that pad them to a multiple of sixteen.
#[derive(Drop)]
pub(crate) struct Branches {
    pub(crate) table: [i16; PLACES],
    /// The length of the stretch at each sixteen, in sixteens. It ends within its branch.
    pub(crate) stretches: [u8; SIXTEENS],
    /// The number of taps in a branch, padding included.
    pub(crate) width: usize,
    pub(crate) limits: Limits,
}

/// The greatest value of the lowest eight bits of a sample. Samples can be split only if the peak is no lower.
pub(crate) const LEAST_PEAK_TO_SPLIT: u32 = 255;

/// The limits of samples for which a filter can use vectors.
#[derive(Clone, Copy)]
pub(crate) struct Limits {
    /// The absolute value that no sample may exceed, so that each sum of products fits in 32 bits.
    pub(crate) peak: u32,
    /// Whether any 16-bit samples can be summed, a stretch at a time.
    pub(crate) is_wide: bool,
}

impl Branches {
    /// Lays out the taps of a filter as `up` branches.
    pub(crate) fn new(taps: &[i32], up: u32) -> Branches
        requires taps { AreTaps taps.now }
        requires some { 1 ≤ length taps.now }
        requires up { 1 ≤ up }
        requires few { up ≤ 64 }
        ensures { AreBranches taps.now up result }
    {
        let width = ((taps.len() - 1) / up as usize + 16) / 16 * 16;
        let table = table_of(taps, up, width);
        let stretches = stretches_of(&table, up, width);
        let peak = peak_of(gain(&table, up, width));
        let limits = Limits {
            peak,
            is_wide: is_wide(&stretches[..up as usize * (width / 16)], up, peak),
        };
        Branches {
            table,
            stretches,
            width,
            limits,
        }
    }

    /// Returns the branch of `phase`.
    pub(crate) fn get(&self, phase: usize) -> Branch
        requires few { phase ≤ 64 }
        requires width { self.now.width ≤ 1024 }
        requires room { phase * self.now.width + self.now.width ≤ length self.now.table }
        requires stretches_room { phase * (self.now.width / 16) + self.now.width / 16 ≤ length self.now.stretches }
        ensures taps { result.taps.now ≡ branch_at self.now phase }
        ensures stretches { result.stretches.now ≡ stretches_at self.now phase }
    {
        let sixteens = self.width / 16;
        Branch {
            taps: &self.table[phase * self.width..phase * self.width + self.width],
            stretches: &self.stretches[phase * sixteens..phase * sixteens + sixteens],
        }
    }
}

/// Returns the taps of each phase, branch after branch.
fn table_of(taps: &[i32], up: u32, width: usize) -> [i16; PLACES]
    requires taps { AreTaps taps.now }
    requires up { up ≤ 64 }
    requires some { 1 ≤ width }
    requires few { width ≤ 1024 }
    ensures { result ≡ map (λ place. sample taps.now (place / width + (width - 1 - place % width) * up))
        (range_with_len 0 2048) }
{
    let mut table = [0; PLACES];
    for place in 0..PLACES {
        let back = (width - 1 - place % width) as u32;
        let at = place / width + back as usize * up as usize;
        table[place] = tap_at(taps, at);
    }
    table
}

/// Returns the tap at place `at`, or zero if there is none.
pub(crate) fn tap_at(taps: &[i32], at: usize) -> i16
    requires { AreTaps taps.now }
    ensures { result ≡ sample taps.now at }
{
    if at < taps.len() { taps[at] as i16 } else { 0 }
}

/// Returns the length of the stretch at each sixteen of all branches, in sixteens, or at most 1 if none begins there.
fn stretches_of(table: &[i16], up: u32, width: usize) -> [u8; SIXTEENS]
    requires up { up ≤ 64 }
    requires whole { width % 16 ≡ 0 }
    requires few { width ≤ 1024 }
    requires some { 1 ≤ width }
    requires room { up * width ≤ length table.now }
    requires places { up * width ≤ 2048 }
    ensures len { length result ≡ 128 }
    ensures each { (k : ℕ) → k < up * (width / 16) → IsReach (slice_index_or result k 0)
        (drop (16 * (k % (width / 16))) (take width (drop (k / (width / 16) * width) table.now))) }
{
    let mut stretches = [0; SIXTEENS];
    let sixteens = width / 16;
    let mut next = 0;
    for k in 0..up as usize * sixteens {
        let start = k / sixteens * width;
        let branch = &table[start..start + width];
        let reached = reach_from(&branch[16 * (k % sixteens)..], k == next);
        next = next.max(k + usize::from(reached.max(1)));
        stretches[k] = reached;
    }
    stretches
}

/// Returns the length of the stretch from the first tap on, in sixteens. It looks past the first sixteen only if a
/// stretch of the branch `begins` there. So each sixteen is looked at a bounded number of times.
fn reach_from(taps: &[i16], begins: bool) -> u8
    requires whole { length taps.now % 16 ≡ 0 }
    requires few { length taps.now ≤ 1024 }
    requires some { 16 ≤ length taps.now }
    ensures { IsReach result taps.now }
{
    if begins {
        reach(taps)
    } else {
        reach(&taps[..16])
    }
}

/// Returns whether 16-bit samples above the peak are summed by stretches.
///
/// A stretch must begin at each sixteen. If `peak` also lets samples be split, the stretches must cost no more than a
/// second pass.
fn is_wide(stretches: &[u8], up: u32, peak: u32) -> bool
    requires up { up ≤ 64 }
    requires few { length stretches.now ≤ 128 }
    ensures { result ≡ is_wide stretches.now up peak }
{
    let spared = stretches.len() + STRETCH_COST * up as usize;
    are_some(stretches)
        && (peak < LEAST_PEAK_TO_SPLIT || STRETCH_COST * stretch_count(stretches) <= spared)
}

/// Returns whether no stretch has length 0.
fn are_some(stretches: &[u8]) -> bool
    ensures { result ≡ list_all (λ n. nat_lt 0 n) stretches.now }
{
    stretches.iter().all(|sixteens| 0 < *sixteens)
}

/// Counts the stretches that sums are made of: each begins where the last one ends.
fn stretch_count(stretches: &[u8]) -> usize
    ensures counted { result ≡ stretch_count 0 stretches.now }
    ensures few { result ≤ length stretches.now }
{
    let mut stretch_count = 0;
    let mut left = 0;
    for sixteens in stretches {
        if left == 0 {
            stretch_count += 1;
            left = sixteens.saturating_sub(1);
        } else {
            left -= 1;
        }
    }
    stretch_count
}

/// Returns the greatest gain of a branch: the sum of the absolute values of its taps.
fn gain(table: &[i16], up: u32, width: usize) -> u32
    requires up { up ≤ 64 }
    requires few { width ≤ 1024 }
    requires room { up * width ≤ length table.now }
    ensures greatest { (p : ℕ) → p < up → total_abs (take width (drop (p * width) table.now)) ≤ result }
{
    let mut gain = 0;
    for phase in 0..up {
        let start = phase as usize * width;
        gain = gain.max(total(&table[start..start + width]));
    }
    gain
}

/// Returns the sum of the absolute values.
fn total(taps: &[i16]) -> u32
    requires few { length taps.now ≤ 1024 }
    ensures is { result ≡ total_abs taps.now }
{
    let mut total = 0;
    for tap in taps {
        total += u32::from(tap.unsigned_abs());
    }
    total
}

/// Returns the greatest peak, up to 32,767, at which sums of a filter with this `gain` fit in 32 bits, rounding
/// included.
fn peak_of(gain: u32) -> u32
    ensures quiet { gain * result ≤ 2147467263 }
    ensures small { result ≤ 32767 }
    ensures greatest { result < 32767 → 2147467263 < gain * (result + 1) }
{
    (MAX_SUM / gain.max(1)).min(32_767)
}

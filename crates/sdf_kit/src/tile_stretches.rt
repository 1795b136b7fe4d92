//! Stretches of the pairs in rows of taps: the sums of a stretch fit in 32 bits in each lane, with any 16-bit samples.

ghost use Rattle.std.specs.Prelude.{ℕ, true, ◌≡◌, ◌<◌, ◌≤◌, ◌+◌, ◌-◌, ◌*◌, ◌^◌, length, take, drop, sum};
ghost use Rattle.std.specs.Prelude.{slice_index_or, IfSome};
ghost use Rattle.sdf_kit.specs.Stretches.{weight as weight_is, weight_of};
ghost use Rattle.sdf_kit.specs.Tiles.{row_of, AreRowStretches, AreSpans};

use crate::stretches::weight;
use sdf_limits::MAX_SHIFT;
use std::alloc::Global;

/// The greatest weight of a stretch: 65,535 times 32,768 is less than 2^31.
const MAX_WEIGHT: u64 = 65_535;

/// Returns the number of pairs in the stretch at each pair, for all rows of a table together. Returns `None` if a pair
/// has no stretch, if sums can exceed 32 bits after they are shifted, or if memory is refused.
pub(crate) fn stretches_of(
    alloc: Global,
    table: &[i16],
    vectors: u32,
    pairs: usize,
    shift: u32,
) -> Option<Vec<u16>>
    requires vectors { vectors ≤ 64 }
    requires pairs { pairs ≤ 1024 }
    requires shift { shift ≤ MAX_SHIFT }
    requires room { length table.now ≡ vectors * (16 * pairs) }
    ensures rows { IfSome result (λ s. (v : ℕ) → v < vectors → AreRowStretches (row_of table.now pairs v) s.items) }
    ensures total { IfSome result (λ s. (v : ℕ) → v < vectors →
        weight_of (length s.items) (row_of table.now pairs v) ≤ 65535 * 2 ^ shift) }
{
    let mut weights = vec![in alloc; 0; pairs].ok()?;
    weigh(table, vectors, pairs, &mut weights);
    if total(&weights) > MAX_WEIGHT << shift {
        return None;
    }
    let mut stretches = vec![in alloc; 0; pairs].ok()?;
    if put_stretches(&weights, &mut stretches) {
        Some(stretches)
    } else {
        None
    }
}

/// Writes the weight of each pair: that of the heaviest row there.
fn weigh(table: &[i16], vectors: u32, pairs: usize, weights: &mut [u32])
    requires vectors { vectors ≤ 64 }
    requires pairs { pairs ≤ 1024 }
    requires room { length table.now ≡ vectors * (16 * pairs) }
    requires weights { length weights.old ≡ pairs }
    ensures len { length weights.new ≡ pairs }
    ensures heavy { (v k : ℕ) → v < vectors → k < pairs →
        weight_is (take 16 (drop (v * (16 * pairs) + 16 * k) table.now)) ≤ slice_index_or weights.new k 0 }
{
    for pair in 0..pairs {
        weights[pair] = heaviest(table, vectors, pairs, pair);
    }
}

/// Returns the weight of a pair in the row where it is heaviest.
fn heaviest(table: &[i16], vectors: u32, pairs: usize, pair: usize) -> u32
    requires vectors { vectors ≤ 64 }
    requires pairs { pairs ≤ 1024 }
    requires room { length table.now ≡ vectors * (16 * pairs) }
    requires pair { pair < pairs }
    ensures { (v : ℕ) → v < vectors → weight_is (take 16 (drop (v * (16 * pairs) + 16 * pair) table.now)) ≤ result }
{
    let mut most = 0;
    for vector in 0..vectors {
        let at = vector as usize * (16 * pairs) + 16 * pair;
        most = most.max(weight(&table[at..at + 16]));
    }
    most
}

/// Returns the sum of the weights.
fn total(weights: &[u32]) -> u64
    requires few { length weights.now ≤ 1024 }
    ensures { result ≡ sum weights.now }
{
    let mut total = 0;
    for weight in weights {
        total += u64::from(*weight);
    }
    total
}

/// Returns the number of weights that sum up to no more than a stretch may have, from the first one on.
fn stretch_at(weights: &[u32]) -> u16
    requires few { length weights.now ≤ 1024 }
    ensures within { result ≤ length weights.now }
    ensures light { sum (take result weights.now) ≤ 65535 }
{
    let mut reached = 0;
    let mut total = 0;
    'weights: while reached < weights.len() {
        total += u64::from(weights[reached]);
        if total > MAX_WEIGHT {
            return reached as u16;
        }
        reached += 1;
    }
    reached as u16
}

/// Writes the length of the stretch at each weight. It looks past a weight only if sums by stretches come there.
/// Returns false if a weight is too great for a stretch.
fn put_stretches(weights: &[u32], stretches: &mut [u16]) -> bool
    requires few { length weights.now ≤ 1024 }
    requires room { length stretches.old ≡ length weights.now }
    ensures len { length stretches.new ≡ length weights.now }
    ensures spans { result ≡ true → AreSpans weights.now stretches.new (length weights.now) }
{
    let mut next = 0;
    for at in 0..weights.len() {
        let end = if at == next { weights.len() } else { at + 1 };
        let reached = stretch_at(&weights[at..end]);
        if reached == 0 {
            return false;
        }
        stretches[at] = reached;
        next = next.max(at + usize::from(reached));
    }
    true
}

//! Zeros in front of the taps of stages, so that a conversion is late by whole frames of its output.

ghost use Rattle.std.specs.Prelude.{◌≡◌, ◌+◌, ◌*◌, ◌/◌, ◌≤◌, MatchResult};
ghost use Rattle.sdf_limits.specs.declared.TheConstants.{MAX_TAPS};
ghost use Rattle.sdf_filters.specs.declared.fault.FilterFault.TheVariants.{TooLate};
ghost use Rattle.sdf_filters.specs.Lowpass.{IsCountFault};

use crate::fault::FilterFault;
use crate::stage::Stage;
use sdf_limits::MAX_TAPS;
use std::num::nearest_usize_to_f64;

/// The longest delay that is reckoned with, in frames.
const MOST_LATE: u64 = 1 << 40;

/// The tries of the first stage's zeros.
const TRIES: usize = 64;

/// The delay of a stage's output in whole frames, and the zeros in front of its taps that make it whole.
#[derive(Clone, Copy)]
pub(crate) struct Late {
    pub(crate) frames: u64,
    pub(crate) zeros: u64,
}

/// Returns `more` for the first stage, and 0 for the others.
pub(crate) fn more_at(place: usize, more: usize) -> usize
    requires { more ≤ 64 }
    ensures { result ≤ 64 }
{
    if place == 0 { more } else { 0 }
}

/// Returns the delay of the output of a stage with `count` taps, an odd number. Its input is `late` frames late. It is
/// the least delay of whole frames, and `more` frames beyond.
#[tactic(auto, using(crate::proofs::WideStages::ceiling_more, crate::proofs::WideStages::ceiling_most))]
pub(crate) fn late_after(
    late: u64,
    stage: Stage,
    count: usize,
    more: usize,
) -> Result<Late, FilterFault>
    requires count { count ≤ MAX_TAPS }
    requires more { more ≤ 64 }
    ensures { MatchResult result (λ l. l.frames * stage.down ≡ late * stage.up + count / 2 + l.zeros)
        (λ fault. fault ≡ TooLate) }
{
    if late > MOST_LATE {
        return Err(FilterFault::TooLate);
    }
    let steps = late * u64::from(stage.up) + (count / 2) as u64;
    let down = u64::from(stage.down);
    let frames = (steps + (down - 1)) / down + more as u64;
    Ok(Late {
        frames,
        zeros: frames * down - steps,
    })
}

/// Returns the number of taps in each phase, rounded up to what a kernel takes at a time.
fn padded(taps: u64, up: u32) -> u64 {
    let width = (taps / u64::from(up.max(1))).saturating_add(1);
    (width / 16).saturating_add(1).saturating_mul(16)
}

/// Returns what the zeros in front cost, if the first stage is late by `more` frames beyond the fewest. It is infinite
/// if a filter has too many taps.
fn cost(stages: &[Stage], counts: &[usize], more: usize) -> f64
    requires more { more ≤ 64 }
{
    let mut late = 0;
    let mut rate = 1.0;
    let mut sum = 0.0;
    for place in 0..stages.len().min(counts.len()) {
        let stage = stages[place];
        let count = counts[place].min(MAX_TAPS);
        let after = match late_after(late, stage, count, more_at(place, more)) {
            Ok(after) => after,
            Err(_) => return f64::INFINITY,
        };
        if after.zeros > (MAX_TAPS - count) as u64 {
            return f64::INFINITY;
        }
        late = after.frames;
        rate = rate * f64::from(stage.up) / f64::from(stage.down);
        let taps = count as u64 + after.zeros;
        let wider = padded(taps, stage.up).saturating_sub(padded(count as u64, stage.up));
        let products = nearest_usize_to_f64(wider as usize) * 1000.0;
        sum += (products + nearest_usize_to_f64(taps as usize)) * rate;
    }
    sum
}

/// Returns by how many frames the first stage is late beyond the fewest, so that all zeros cost least. Errs with
/// `TooManyTaps` if there is never room for all zeros.
pub(crate) fn best_more(stages: &[Stage], counts: &[usize]) -> Result<usize, FilterFault>
    ensures { MatchResult result (λ more. more ≤ 64) IsCountFault }
{
    let mut best = 0;
    let mut least = f64::INFINITY;
    for more in 0..TRIES {
        let cost = cost(stages, counts, more);
        if cost < least {
            best = more;
            least = cost;
        }
    }
    if least < f64::INFINITY {
        Ok(best)
    } else {
        Err(FilterFault::TooManyTaps { taps: MAX_TAPS + 1 })
    }
}

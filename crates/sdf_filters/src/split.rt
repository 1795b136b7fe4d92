//! The stages of a conversion between two rates.

ghost use Rattle.std.specs.Prelude.{◌≡◌, ◌<◌, ◌≤◌, ◌+◌, ◌%◌, MatchOption, MatchResult};
ghost use Rattle.sdf_filters.specs.Stages.{IsPart, IsSplitOf, IsSplit, IsPartFault, IsSplitFault, HasNoFactor};
ghost use Rattle.sdf_filters.specs.Stages.{IsLeastFactor};

use crate::cost::Weights;
use crate::fault::FilterFault;
use crate::ratio::{Ratio, lowest};
use crate::stage::Stage;
use crate::wide_cost::WideRule;
use sdf_limits::MAX_FACTOR;
use std::alloc::Global;

/// Returns the stages of a conversion between two rates, in order. Their product is exactly the ratio of the rates.
///
/// They are the cheapest split into at most three stages, in products a second for this `attenuation` in dB (see
/// `cost`). If there is none, the first stage is the least factor, and the rest is split in the same way. No clause
/// says that the split is cheap. Errs with `NoRate` if a rate is 0. Errs with `FactorTooLarge` if the ratio has a
/// factor over 64 that no number from 2 to 64 divides.
pub fn stages(
    alloc: Global,
    from: u32,
    to: u32,
    attenuation: u32,
) -> Result<Vec<Stage>, FilterFault>
    ensures { MatchResult result (λ stages. IsSplit from to stages.items) (IsSplitFault from to) }
{
    let weights = Weights::narrow(f64::from(from), f64::from(to), f64::from(attenuation));
    stages_by(alloc, from, to, weights)
}

/// Returns the stages of a conversion between two rates by wide taps, in order. They are the cheapest split by `rule`,
/// or are made from the least factors, as those of `stages` are, with its errors.
pub(crate) fn wide_stages(
    alloc: Global,
    from: u32,
    to: u32,
    rule: WideRule,
) -> Result<Vec<Stage>, FilterFault>
    ensures { MatchResult result (λ stages. IsSplit from to stages.items) (IsSplitFault from to) }
{
    stages_by(
        alloc,
        from,
        to,
        Weights::wide(f64::from(from), f64::from(to), rule),
    )
}

/// Returns the stages of a conversion between two rates, the cheapest split by `weights`.
fn stages_by(alloc: Global, from: u32, to: u32, weights: Weights) -> Result<Vec<Stage>, FilterFault>
    ensures { MatchResult result (λ stages. IsSplit from to stages.items) (IsSplitFault from to) }
{
    if from == 0 || to == 0 {
        return Err(FilterFault::NoRate);
    }
    split(alloc, lowest(from, to), weights, f64::from(from))
}

/// Returns the stages of `ratio`, from the rate `from` on.
fn split(
    alloc: Global,
    ratio: Ratio,
    weights: Weights,
    from: f64,
) -> Result<Vec<Stage>, FilterFault>
    requires up { 0 < ratio.up }
    requires down { 0 < ratio.down }
    ensures { MatchResult result
        (λ stages. IsSplitOf ratio.up ratio.down 1 1 stages.items)
        (IsPartFault ratio.up ratio.down) }
{
    let mut stages = Vec::new(alloc);
    let mut left = ratio;
    let mut rate = from;
    'parts: while left.sum() > 2 {
        let stage = next_stage(left, weights, rate, stages.len())?;
        stages.push(stage)?;
        left = left.after(stage);
        rate = rate * f64::from(stage.up) / f64::from(stage.down);
    }
    Ok(stages)
}

/// Returns the next stage of the ratio `left`.
fn next_stage(left: Ratio, weights: Weights, rate: f64, before: usize) -> Result<Stage, FilterFault>
    requires up { 0 < left.up }
    requires down { 0 < left.down }
    requires some { 2 < left.up + left.down }
    ensures { MatchResult result (IsPart left.up left.down) (IsPartFault left.up left.down) }
{
    match weights.next(rate, left, before) {
        Some(stage) => Ok(stage),
        None => least_part(left),
    }
}

/// Returns the stage of the least factor.
fn least_part(left: Ratio) -> Result<Stage, FilterFault>
    requires up { 0 < left.up }
    requires down { 0 < left.down }
    requires some { 2 < left.up + left.down }
    ensures { MatchResult result (IsPart left.up left.down) (IsPartFault left.up left.down) }
{
    if let Some(up) = least_factor(left.up) {
        return Ok(Stage { up, down: 1 });
    }
    if let Some(down) = least_factor(left.down) {
        return Ok(Stage { up: 1, down });
    }
    if left.up > 1 {
        return Err(FilterFault::FactorTooLarge { factor: left.up });
    }
    Err(FilterFault::FactorTooLarge { factor: left.down })
}

/// Returns the least factor of `number` from 2 to 64.
fn least_factor(number: u32) -> Option<u32>
    ensures { MatchOption result (HasNoFactor number) (IsLeastFactor number) }
{
    for factor in 2..MAX_FACTOR + 1 {
        if number % factor == 0 {
            return Some(factor);
        }
    }
    None
}

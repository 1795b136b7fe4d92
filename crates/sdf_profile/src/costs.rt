//! Costs of firings, in multiples of the cheapest firing.

ghost use Rattle.std.specs.Prelude.{◌≡◌, ◌<◌, map, IfOk};
ghost use Rattle.sdf_limits.specs.declared.TheConstants.{MAX_COST};
ghost use Rattle.sdf_profile.specs.Costs.{cost_of, IsLeastTime, AreCostsOf};
ghost use Rattle.sdf_profile.specs.Times.{quotient, time_of};

use crate::stopwatch::Spent;
use sdf_limits::MAX_COST;
use std::alloc::{AllocError, Global};

/// Divides `many` by `by`; 0 if there is nothing to divide by.
pub(crate) fn quotient(many: u128, by: u64) -> u128
    ensures { result ≡ quotient many by }
{
    if by == 0 { 0 } else { many / u128::from(by) }
}

/// Returns the mean time of a firing in picoseconds; 0 if there was none.
pub(crate) fn time_of(spent: Spent) -> u64
    ensures { result ≡ time_of spent }
{
    let time = quotient(u128::from(spent.nanoseconds) * 1000, spent.firings);
    time.min(u128::from(u64::MAX)) as u64
}

/// Returns the mean time of a firing of each actor in picoseconds.
#[tactic(auto, using(std::proofs::lemmas::List::map_more))]
pub(crate) fn times_of(alloc: Global, spent: &[Spent]) -> Result<Vec<u64>, AllocError>
    ensures { IfOk result (λ times. times.items ≡ map time_of spent.now) }
{
    let mut times = Vec::new(alloc);
    for one in spent {
        times.push(time_of(*one))?;
    }
    Ok(times)
}

/// Returns the least of the `times` above 0, or 1 if there is none.
fn least(times: &[u64]) -> u64
    ensures { IsLeastTime times.now result }
{
    let mut least = 0u64;
    for time in times {
        if least == 0 || (0 < *time && *time < least) {
            least = *time;
        }
    }
    least.max(1)
}

/// Returns `time` in multiples of `least`, rounded to the nearest, within the limits of the key `cost`.
fn cost_of(least: u64, time: u64) -> u32
    requires { 0 < least }
    ensures { result ≡ cost_of MAX_COST least time }
{
    let least = u128::from(least);
    let times = (2 * u128::from(time) + least) / (2 * least);
    times.max(1).min(u128::from(MAX_COST)) as u32
}

/// Returns the costs of firings that take these `times`. The least time above 0 costs 1.
#[tactic(auto, using(std::proofs::lemmas::List::map_more))]
pub(crate) fn costs_of(alloc: Global, times: &[u64]) -> Result<Vec<u32>, AllocError>
    ensures { IfOk result (λ costs. AreCostsOf times.now costs.items) }
{
    let least = least(times);
    let mut costs = Vec::new(alloc);
    for time in times {
        costs.push(cost_of(least, *time))?;
    }
    Ok(costs)
}

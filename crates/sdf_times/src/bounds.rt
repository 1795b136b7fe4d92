//! Lower bounds on the makespan of a block's tables.

ghost use Rattle.std.specs.Prelude.{◌≡◌, ℕ, ◌≤◌, ◌<◌, length, slice_index, MatchResult};
ghost use Rattle.sdf_graph.specs.Rates.{rates};
ghost use Rattle.sdf_sched.specs.Period.{IsPeriodOf};
ghost use Rattle.sdf_prec.specs.Blocks.{block, IsShort, IsLengthFault};
ghost use Rattle.sdf_prec.specs.Costs.{AreCosts};
ghost use Rattle.sdf_prec.specs.Numbers.{number};
ghost use Rattle.sdf_times.specs.Times.{IsGreatest, work_of, IsSpan, IsBound};

use sdf_graph::Graph;
use sdf_limits::MAX_ACTORS;
use sdf_prec::levels::block_levels;
use sdf_prec::{Costs, Firing, Levels, PrecFault};
use sdf_sched::Period;
use std::alloc::Global;

/// Returns the cost of all firings of a block of `blocking` periods in which the actors fire `reps` times each.
pub fn work(reps: &[u32], blocking: u32, costs: &Costs) -> u64
    requires few { length reps.now ≤ MAX_ACTORS }
    requires short { IsShort blocking reps.now }
    requires costs { AreCosts (length reps.now) costs.now }
    ensures { result ≡ work_of (length reps.now) (slice_index (block blocking reps.now)) (slice_index costs.now) }
{
    let mut work = 0;
    for actor in 0..reps.len() {
        let firings = u64::from(blocking) * u64::from(reps[actor]);
        work += firings * u64::from(costs.of(actor));
    }
    work
}

/// Returns the greatest level of the actors' first firings.
fn first_levels(of: &Levels, reps: &[u32], blocking: u32) -> u64
    requires { of.now.firings ≡ block blocking reps.now }
    ensures { IsGreatest (λ u. (a : ℕ) × (0 < slice_index of.now.firings a)
        × (number of.now (record { actor = a; number = 0 }) ≡ u)) result }
{
    let mut most = 0u64;
    for actor in 0..reps.len() {
        let count = u64::from(blocking) * u64::from(reps[actor]);
        if count > 0 {
            most = most.max(of.of(Firing { actor, number: 0 }));
        }
    }
    most
}

/// Returns the greatest level of the firings of a block of `blocking` periods: the cost of its costliest chain. It is 0
/// if `blocking` is 0, and `blocking` may be over 64. It errs with `BlockTooLong`, or if memory is refused.
pub fn span(
    alloc: Global,
    graph: &Graph,
    period: &Period,
    blocking: u32,
    costs: &Costs,
) -> Result<u64, PrecFault>
    requires period { IsPeriodOf (rates graph.now) period.now }
    requires costs { AreCosts graph.now.actors costs.now }
    ensures { MatchResult result
        (λ t. IsShort blocking period.now.repetitions
        × IsSpan (rates graph.now) (slice_index (block blocking period.now.repetitions)) (slice_index costs.now) t)
        (IsLengthFault blocking period.now.repetitions) }
{
    let of = block_levels(alloc, graph, period, blocking, costs)?;
    Ok(first_levels(&of, period.repetitions(), blocking))
}

/// Returns the least time in which the costliest chain ends and `workers` workers can do the work. No table of the
/// block with `workers` columns ends sooner (`laws::bounds_hold`).
#[tactic(auto, using(crate::proofs::Spans::bound_is))]
pub fn bound(span: u64, work: u64, workers: usize) -> u64
    requires { 0 < workers }
    ensures { IsBound span work workers result }
{
    span.max(work.div_ceil(workers as u64))
}

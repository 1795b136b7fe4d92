//! Tables of long blocks, with homes from weights.

ghost use Rattle.std.specs.Prelude.{◌≡◌, ℕ, ◌≤◌, ◌<◌, ◌^◌, length, slice_index, sum, MatchOption, MatchResult};
ghost use Rattle.sdf_limits.specs.declared.TheConstants.{MAX_BLOCK};
ghost use Rattle.sdf_graph.specs.Rates.{rates};
ghost use Rattle.sdf_graph.specs.Periods.{IsPeriodVector};
ghost use Rattle.sdf_sched.specs.Period.{IsPeriodOf};
ghost use Rattle.sdf_prec.specs.Blocks.{IsWorkers, IsShort};
ghost use Rattle.sdf_prec.specs.Spread.{AreLoads};
ghost use Rattle.sdf_prec.specs.Long.{moved, IsLongest, IsLongSize, IsSpreadTable, IsSpreadFault};

use crate::block::{is_short, total};
use crate::by_homes::in_runs;
use crate::fault::PrecFault;
use crate::spread::spread;
use crate::table::Table;
use sdf_graph::{Graph, moved_by};
use sdf_limits::{MAX_BLOCK, MAX_WORKERS};
use sdf_sched::Period;
use std::alloc::Global;

/// The most samples that a long block moves on a channel, unless a single period moves more.
pub const MAX_MOVED: u64 = 1024;

/// Returns the samples that `channel` moves in a period.
#[tactic(auto, using(crate::proofs::Longest::channel_moves))]
fn moved(graph: &Graph, repetitions: &[u32], channel: usize) -> u64
    requires period { IsPeriodVector (rates graph.now) repetitions.now }
    requires known { channel < length graph.now.channels }
    ensures is { result ≡ moved (rates graph.now) repetitions.now channel }
    ensures some { 0 < result }
{
    let channel = &graph.channels()[channel];
    moved_by(&channel.put, u64::from(repetitions[channel.from]))
}

/// Returns the number of periods in a long block: the most that keep it within `MAX_MOVED` samples on each channel and
/// within the firings of a block, and at least 1.
pub fn long_blocking(graph: &Graph, repetitions: &[u32]) -> u32
    requires { IsPeriodVector (rates graph.now) repetitions.now }
    ensures longest { IsLongest (rates graph.now) repetitions.now result }
    ensures short { sum repetitions.now ≤ MAX_BLOCK → IsShort result repetitions.now }
{
    let channels = graph.channels().len();
    let mut periods = MAX_BLOCK / total(repetitions);
    for channel in 0..channels {
        periods = periods.min(MAX_MOVED / moved(graph, repetitions, channel));
    }
    periods.max(1) as u32
}

/// Returns the reason why `blocking` periods are not a block for `m` workers.
fn long_fault(blocking: u32, m: usize, reps: &[u32]) -> Option<PrecFault>
    requires few { length reps.now < 2 ^ 20 }
    ensures { MatchOption result (IsLongSize blocking m reps.now) (IsSpreadFault blocking m reps.now) }
{
    if blocking < 1 {
        return Some(PrecFault::BlockingFactor);
    }
    if m < 1 || m > MAX_WORKERS {
        return Some(PrecFault::WorkerCount);
    }
    if !is_short(blocking, reps) {
        return Some(PrecFault::BlockTooLong);
    }
    None
}

impl Table {
    /// Makes the table of the firings of `blocking` periods in runs, like `by_homes_in_runs`, with the homes of
    /// `spread`. `blocking` may be over 64. `weights` has the cost of all firings of each actor in a period.
    ///
    /// It errs with the first of `BlockingFactor` (if `blocking` is 0), `WorkerCount` and `BlockTooLong`.
    pub fn spread(
        alloc: Global,
        graph: &Graph,
        period: &Period,
        blocking: u32,
        m: usize,
        weights: &[u64],
    ) -> Result<Table, PrecFault>
        requires period { IsPeriodOf (rates graph.now) period.now }
        requires weights { AreLoads graph.now.actors weights.now }
        ensures { MatchResult result
            (IsSpreadTable (rates graph.now) period.now.repetitions blocking m weights.now)
            (IsSpreadFault blocking m period.now.repetitions) }
    {
        graph.channels();
        if let Some(fault) = long_fault(blocking, m, period.repetitions()) {
            return Err(fault);
        }
        let homes = spread(alloc, graph, m, weights)?;
        let table = in_runs(alloc, graph, period, blocking, m, &homes)?;
        Ok(table)
    }
}

//! The time at which all firings that a firing waits for have ended.

ghost use Rattle.std.specs.Prelude.{◌≡◌, ℕ, ◌+◌, ◌-◌, ◌≤◌, ◌<◌, ◌^◌, [], length, slice_index, slice_index_or};
ghost use Rattle.sdf_graph.specs.Rates.{rates};
ghost use Rattle.sdf_prec.specs.Costs.{AreCosts};
ghost use Rattle.sdf_times.specs.Times.{IsGreatest, end_of, start_in};
ghost use Rattle.sdf_times.specs.Walks.{IsNeedEnd, IsPrepared};

use crate::starts::Starts;
use sdf_graph::Graph;
use sdf_prec::{Costs, Firing, needed};

/// Returns when the last of the first `count` firings of `actor` ends, or 0 if `count` is 0.
fn end_time(starts: &[Starts], costs: &Costs, actor: usize, count: u64) -> u64
    requires known { actor < length starts.now }
    requires costs { AreCosts (length starts.now) costs.now }
    requires started { count ≤ length (slice_index_or starts.now actor []) }
    requires small { 0 < count → slice_index (slice_index_or starts.now actor []) (count - 1)
        + slice_index costs.now actor < 2 ^ 40 }
    ensures none { count ≡ 0 → result ≡ 0 }
    ensures last { 0 < count → result ≡ slice_index (slice_index_or starts.now actor []) (count - 1)
        + slice_index costs.now actor }
{
    if count == 0 {
        return 0;
    }
    starts[actor].of((count - 1) as usize) + u64::from(costs.of(actor))
}

/// Returns the actor that `channel` comes from.
fn source_of(graph: &Graph, channel: usize) -> usize
    requires { channel < length graph.now.channels }
    ensures { result ≡ (rates graph.now).source channel }
{
    let channel = &graph.channels()[channel];
    channel.from
}

/// Returns when all firings that `firing` waits for have ended: its actor's firing before it, and on each channel into
/// its actor the last one needed from the source.
pub(crate) fn ready_time(graph: &Graph, starts: &[Starts], costs: &Costs, firing: Firing) -> u64
    requires costs { AreCosts graph.now.actors costs.now }
    requires prepared { IsPrepared (rates graph.now) (slice_index costs.now) starts.now firing }
    ensures { IsGreatest (IsNeedEnd (rates graph.now) (slice_index costs.now) (start_in starts.now) firing) result }
{
    let mut time = end_time(starts, costs, firing.actor, u64::from(firing.number));
    for number in graph.incoming(firing.actor) {
        let source = source_of(graph, *number);
        let count = needed(graph, *number, firing.number);
        time = time.max(end_time(starts, costs, source, count));
    }
    time
}

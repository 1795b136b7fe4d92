//! How many periods a block of a run has.

ghost use Rattle.std.specs.Prelude.{◌≡◌, ◌≤◌, ◌<◌, ℕ, List, length, slice_index};
ghost use Rattle.sdf_graph.specs.Periods.{IsLeastPeriod};
ghost use Rattle.sdf_graph.specs.Rates.{rates};
ghost use Rattle.sdf_actor.specs.Graphs.{graph_of};
ghost use Rattle.sdf_actor.specs.declared.sides.Lists.TheVariants.{Inputs};
ghost use Rattle.sdf_actor.specs.Sides.{period_samples};
ghost use Rattle.sdf_one.specs.Lengths.{AreBlock, IsMostPut};
ghost use Rattle.sdf_one.specs.declared.lengths.TheConstants.{MAX_READ};

use sdf_actor::{Actor, Net};
use sdf_queues::rooms::put_in;

/// The most samples of an input that a block of more than one period reads.
const MAX_READ: usize = 4096;

/// The most samples that a block of more than one period puts on a channel.
const MAX_PUT: usize = 65_536;

/// Returns the most samples that a period puts on a channel.
fn most_put<A: Actor>(net: &Net<A>, repetitions: &[u32]) -> usize
    requires all { length repetitions.now ≡ length net.now.nodes }
    requires short { (a : ℕ) → a < length repetitions.now → slice_index repetitions.now a ≤ 65536 }
    ensures { IsMostPut (rates (graph_of A.steps net.now)) repetitions.now (length net.now.wires) result }
{
    let graph = net.graph();
    let mut most = 0;
    for channel in graph.channels() {
        most = put_in(channel, repetitions[channel.from], 1).max(most);
    }
    most
}

/// Returns how many periods make a block of a run of `periods`, if each reads `read` samples of an input and puts at
/// most `put` on a channel.
fn block_of(read: usize, put: usize, periods: u32) -> u32
    requires { 0 < read }
    ensures few { result ≤ MAX_READ }
    ensures block { AreBlock read put periods result }
{
    let most = (MAX_READ / read).min(MAX_PUT / put.max(1));
    (most as u32).min(periods).max(1)
}

/// Returns how many periods make a block of a run of `periods`. A run of few periods then has small queues.
pub(crate) fn block_periods<A: Actor>(net: &Net<A>, repetitions: &[u32], periods: u32) -> u32
    requires all { length repetitions.now ≡ length net.now.nodes }
    requires short { (a : ℕ) → a < length repetitions.now → slice_index repetitions.now a ≤ 65536 }
    ensures some { 0 < result }
    ensures few { result ≤ MAX_READ }
    ensures block { let r = rates (graph_of A.steps net.now) in (q : List ℕ) → IsLeastPeriod r q →
        (put : ℕ) × IsMostPut r repetitions.now (length net.now.wires) put
        × AreBlock (period_samples net.now.nodes Inputs q) put periods result }
{
    block_of(net.samples_in(), most_put(net, repetitions), periods)
}

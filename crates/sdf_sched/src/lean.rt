//! The lean policy.

ghost use Rattle.std.specs.Prelude.{◌≡◌, ℕ, ◌+◌, ◌*◌, ◌≤◌, ◌<◌, ◌↔◌, length, slice_index, IsTrue};
ghost use Rattle.sdf_graph.specs.Rates.{rates};
ghost use Rattle.sdf_sched.specs.Lean.{moved_by, IsLeaner};
ghost use Rattle.sdf_sched.specs.Flow.{IsFlow, AreSmall};

use crate::pick::Pick;
use sdf_graph::{Counts, End, Graph};
use sdf_limits::{MAX_LINKS, MAX_RATE};

/// The lean policy: it fires the runnable actor whose firing adds least to what the channels hold. Of several it fires
/// the first in file order.
#[derive(Drop)]
pub struct Lean;

impl Pick for Lean {
    ghost use Rattle.sdf_sched.specs.Lean.{IsLeanChoice};

    ghost chooses = { IsLeanChoice };

    fn choose(&mut self, graph: &Graph, counts: &Counts, runnable: &[usize]) -> usize {
        leanest(graph, counts, runnable)
    }
}

/// The samples that an actor's next firing puts on channels and takes from channels.
#[derive(Clone, Copy)]
struct Flow {
    put: u64,
    taken: u64,
}

/// Returns the place in `runnable` of the leanest actor, the first if there are several.
fn leanest(graph: &Graph, counts: &Counts, runnable: &[usize]) -> usize
    requires same { counts.now.graph ≡ graph.now }
    requires some { 0 < length runnable.now }
    requires known { (i : ℕ) → i < length runnable.now → slice_index runnable.now i < graph.now.actors }
    ensures below { result < length runnable.now }
    ensures least { (i : ℕ) → i < length runnable.now →
        IsLeaner (rates graph.now) (slice_index counts.now.fired) (slice_index runnable.now i)
        (slice_index runnable.now result) → ⊥ }
    ensures first { (i : ℕ) → i < result → IsLeaner (rates graph.now) (slice_index counts.now.fired)
        (slice_index runnable.now result) (slice_index runnable.now i) }
{
    let mut best = 0;
    let mut least = flow_of(graph, counts, runnable[0]);
    for i in 1..runnable.len() {
        let flow = flow_of(graph, counts, runnable[i]);
        if is_leaner(flow, least) {
            best = i;
            least = flow;
        }
    }
    best
}

/// Checks whether a firing with flow `one` adds less to what the channels hold than one with flow `other`.
fn is_leaner(one: Flow, other: Flow) -> bool
    requires one { AreSmall one }
    requires other { AreSmall other }
    ensures { IsTrue result ↔ (one.put + other.taken < other.put + one.taken) }
{
    one.put + other.taken < other.put + one.taken
}

/// Returns the flow of `actor`'s next firing.
fn flow_of(graph: &Graph, counts: &Counts, actor: usize) -> Flow
    requires same { counts.now.graph ≡ graph.now }
    requires known { actor < graph.now.actors }
    ensures flow { IsFlow (rates graph.now) (slice_index counts.now.fired) actor result }
    ensures small { AreSmall result }
{
    let i = counts.fired(actor);
    Flow {
        put: moved_by(graph, actor, End::Source, i),
        taken: moved_by(graph, actor, End::Target, i),
    }
}

/// Returns the samples that firing `i` of `actor` moves at its channels with the actor at `end`: what it puts on
/// outgoing channels, or takes from incoming ones.
fn moved_by(graph: &Graph, actor: usize, end: End, i: u32) -> u64
    requires { actor < graph.now.actors }
    ensures sum { (k : ℕ → ℕ) → k actor ≡ i → result ≡ moved_by end (rates graph.now) k actor }
    ensures small { result ≤ MAX_RATE * MAX_LINKS }
{
    let channels = graph.channels();
    let mut moved = 0;
    for channel in graph.channels_at(actor, end) {
        let rates = &channels[*channel];
        moved += u64::from(rates.moves(end, i));
    }
    moved
}

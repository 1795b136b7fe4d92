//! The number of warm-up periods that a net needs until it has forgotten where it began.

ghost use Rattle.std.specs.Prelude.{◌≡◌, ◌+◌, ◌*◌, ◌≤◌, ◌<◌, ℕ, List, length, slice_index};
ghost use Rattle.std.specs.Prelude.{◌⊎◌, IfOk, IfSome, IfNone, MatchOption};
ghost use Rattle.sdf_graph.specs.Periods.{IsLeastPeriod};
ghost use Rattle.sdf_graph.specs.Rates.{rates, rate_at, sum_to, IsCycle};
ghost use Rattle.sdf_actor.specs.Graphs.{graph_of};
ghost use Rattle.sdf_warm_up.specs.Warm.{NodeForgets, IsLeast, StaysCold, HasLoop};
ghost use Rattle.sdf_warm_up.specs.WarmUps.{WarmsIn, AreFirings, AreMemories, IsChannel, cold, AreLate, AreEarly};
ghost use Rattle.sdf_warm_up.specs.WarmUps.{AreFar, NoneIsLate, IsMove, IsPass, IsEnd, AreWithin, IsLasting};

use crate::memory::Forgetful;
use sdf_actor::{Net, Node};
use sdf_graph::{Channel, Graph, moved_by};
use std::alloc::{AllocError, Global};

/// The greatest memory of an actor, and the latest first firing without a cold sample, that are considered. A longer
/// warm-up would take more time than it saves.
pub const MAX_FIRINGS: u32 = 1_048_576;

/// The change of a target's firing in a list `since`.
#[derive(Clone, Copy)]
enum Move {
    Stays,
    MovesOn,
    /// More than `MAX_FIRINGS` firings are needed.
    TooFar,
}

/// Returns the number of last firings that `node` remembers, or `None` if it keeps samples for ever.
fn node_memory<A: Forgetful>(node: &Node<A>) -> Option<u32>
    ensures { MatchOption result ((m : ℕ) → NodeForgets A.steps node.now m → ⊥)
        (IsLeast (NodeForgets A.steps node.now)) }
{
    match node {
        Node::Inner(actor) => actor.memory(),
        _ => Some(0),
    }
}

/// Returns the memory of each node in firings, or `None` if one exceeds `MAX_FIRINGS`.
fn memories_of<A: Forgetful>(alloc: Global, net: &Net<A>) -> Result<Option<Vec<u32>>, AllocError>
    ensures { IfOk result (λ r. MatchOption r (StaysCold A.steps net.now MAX_FIRINGS)
        (λ v. AreFirings (length net.now.nodes) v.items × AreMemories A.steps net.now v.items)) }
{
    let mut memories = Vec::new(alloc);
    for a in 0..net.len() {
        match node_memory(net.node(a)) {
            Some(firings) if firings <= MAX_FIRINGS => memories.push(firings)?,
            _ => return Ok(None),
        }
    }
    Ok(Some(memories))
}

/// Returns the number of cold samples of `channel`: its initial samples, and what its source puts before it has
/// forgotten what it took before its firing in `since`.
fn cold_samples(channel: &Channel, memory: &[u32], since: &[u32]) -> u64
    requires channel { IsChannel (length since.now) channel.now }
    requires memory { AreFirings (length since.now) memory.now }
    requires since { AreFirings (length since.now) since.now }
    ensures { result ≡ cold channel.now (slice_index memory.now) (slice_index since.now) }
{
    channel.initial as u64
        + moved_by(
            &channel.put,
            u64::from(since[channel.from] + memory[channel.from]),
        )
}

/// Finds by bisection the first firing before which at least `amount` samples are moved, if it is at most
/// `MAX_FIRINGS`.
#[tactic(auto, using(sdf_graph::proofs::Theorems::sums_rise))]
fn first_past(rates: &[u32], amount: u64) -> Option<u32>
    requires { (n : ℕ) × IsCycle n rates.now }
    ensures few { IfSome result (λ firings. firings ≤ MAX_FIRINGS) }
    ensures first { MatchOption result (AreFar rates.now amount)
        (IsLeast (λ firings. amount ≤ sum_to (rate_at rates.now) firings)) }
{
    let mut low = 0;
    let mut high = MAX_FIRINGS;
    while low < high {
        let middle = (low + high) / 2;
        if moved_by(rates, u64::from(middle)) < amount {
            low = middle + 1;
        } else {
            high = middle;
        }
    }
    if moved_by(rates, u64::from(low)) < amount {
        None
    } else {
        Some(low)
    }
}

/// Moves the firing of the channel's target in `since` on, if necessary, to the first from which on the target takes no
/// cold sample. With it the channel is late.
#[tactic(auto, using(sdf_graph::proofs::Theorems::sums_rise))]
fn move_target(channel: &Channel, memory: &[u32], since: &mut [u32]) -> Move
    requires channel { IsChannel (length since.old) channel.now }
    requires memory { AreFirings (length since.old) memory.now }
    requires since { AreFirings (length since.old) since.old }
    ensures since { AreFirings (length since.old) since.new }
    ensures is { IsMove channel.now (slice_index memory.now) since.old since.new result }
{
    match first_past(&channel.take, cold_samples(channel, memory, since)) {
        Some(firing) if since[channel.to] < firing => {
            since[channel.to] = firing;
            Move::MovesOn
        }
        Some(_) => Move::Stays,
        None => Move::TooFar,
    }
}

/// Moves the firing of each channel's target in `since` on to where the channel is late, one channel after another.
fn move_targets(graph: &Graph, memory: &[u32], since: &mut [u32]) -> Move
    requires all { length since.old ≡ graph.now.actors }
    requires memory { AreFirings (length since.old) memory.now }
    requires since { AreFirings (length since.old) since.old }
    requires early { AreEarly graph.now (slice_index memory.now) since.old }
    ensures since { AreFirings (length since.old) since.new }
    ensures early { AreEarly graph.now (slice_index memory.now) since.new }
    ensures pass { IsPass graph.now (slice_index memory.now) since.old since.new result }
{
    let mut moves = Move::Stays;
    for channel in graph.channels() {
        match move_target(channel, memory, since) {
            Move::Stays => {}
            Move::MovesOn => moves = Move::MovesOn,
            Move::TooFar => return Move::TooFar,
        }
    }
    moves
}

/// Moves the firings in `since` on until all channels are late. Each pass that moves a firing shows a walk that is one
/// channel longer. So after more passes than actors there is a loop.
fn settle(graph: &Graph, memory: &[u32], since: &mut [u32]) -> Move
    requires all { length since.old ≡ graph.now.actors }
    requires memory { AreFirings (length since.old) memory.now }
    requires since { AreFirings (length since.old) since.old }
    requires early { AreEarly graph.now (slice_index memory.now) since.old }
    ensures since { AreFirings (length since.old) since.new }
    ensures early { AreEarly graph.now (slice_index memory.now) since.new }
    ensures end { IsEnd graph.now (slice_index memory.now) since.new result }
{
    if graph.channels().is_empty() {
        return Move::Stays;
    }
    for _ in 0..graph.actors() + 1 {
        match move_targets(graph, memory, since) {
            Move::MovesOn => {}
            end => return end,
        }
    }
    Move::MovesOn
}

/// Returns, for each actor, the first firing from which on it takes no cold sample. Returns `None` only if the graph
/// has a loop, or if one of these firings would exceed `MAX_FIRINGS`.
fn since_of(alloc: Global, graph: &Graph, memory: &[u32]) -> Result<Option<Vec<u32>>, AllocError>
    requires memory { AreFirings graph.now.actors memory.now }
    ensures { IfOk result (λ r. MatchOption r
        (HasLoop (rates graph.now) ⊎ NoneIsLate graph.now (slice_index memory.now) MAX_FIRINGS)
        (λ v. AreFirings graph.now.actors v.items × AreLate graph.now (slice_index memory.now) (slice_index v.items)
        × AreEarly graph.now (slice_index memory.now) v.items)) }
{
    let mut since = vec![in alloc; 0; graph.actors()]?;
    match settle(graph, memory, &mut since) {
        Move::Stays => Ok(Some(since)),
        Move::MovesOn | Move::TooFar => Ok(None),
    }
}

/// Returns `periods`, or more if `firings` firings need more, with `in_period` firings in each.
fn periods_with(periods: u32, firings: u32, in_period: u32) -> u32
    requires { 0 < in_period }
    ensures enough { firings ≤ result * in_period }
    ensures rises { periods ≤ result }
    ensures least { (p : ℕ) → periods ≤ p → firings ≤ p * in_period → result ≤ p }
    ensures few { periods ≤ 2 * MAX_FIRINGS → firings ≤ 2 * MAX_FIRINGS → result ≤ 2 * MAX_FIRINGS }
{
    let wanted = firings.div_ceil(in_period);
    if wanted > periods { wanted } else { periods }
}

/// Returns the least number of periods in which each actor fires at least `since` times and then `memory` times.
fn periods_for(repetitions: &[u32], memory: &[u32], since: &[u32]) -> u32
    requires some { (a : ℕ) → a < length repetitions.now → 0 < slice_index repetitions.now a }
    requires memory { AreFirings (length repetitions.now) memory.now }
    requires since { AreFirings (length repetitions.now) since.now }
    ensures least { IsLeast (λ p. AreWithin repetitions.now p memory.now since.now) result }
    ensures few { result ≤ 2 * MAX_FIRINGS }
{
    let mut periods = 0;
    for a in 0..repetitions.len() {
        periods = periods_with(periods, since[a] + memory[a], repetitions[a]);
    }
    periods
}

/// Returns the number of warm-up periods that `net` needs. A run that starts this number of periods earlier, without
/// any samples from before, leaves what the run from the start leaves.
///
/// Returns `None` only if the graph has a loop, an actor keeps samples for ever, or a number of firings exceeds
/// `MAX_FIRINGS`.
pub fn warm_up<A: Forgetful>(alloc: Global, net: &Net<A>) -> Result<Option<u32>, AllocError>
    // These periods are enough.
    ensures warms { IfOk result (λ r. IfSome r (λ periods. (q : List ℕ) →
        IsLeastPeriod (rates (graph_of A.steps net.now)) q → WarmsIn A.steps net.now q periods)) }

    // Fewer periods are not enough.
    ensures least { IfOk result (λ r. IfSome r (λ periods. (q : List ℕ) (fewer : ℕ) →
        IsLeastPeriod (rates (graph_of A.steps net.now)) q → WarmsIn A.steps net.now q fewer → periods ≤ fewer)) }

    // The periods are few.
    ensures few { IfOk result (λ r. IfSome r (λ periods. periods ≤ 2 * MAX_FIRINGS)) }

    // A net without a warm-up keeps samples for ever, or for too long.
    ensures lasts { IfOk result (λ r. IfNone r (IsLasting A.steps net.now)) }
{
    let graph = net.graph();
    let Some(memory) = memories_of(alloc, net)? else {
        return Ok(None);
    };
    let Some(since) = since_of(alloc, graph, &memory)? else {
        return Ok(None);
    };
    Ok(Some(periods_for(net.repetitions().as_slice(), &memory, &since)))
}

//! Graphs, and the tests that refuse them.

ghost use Rattle.std.specs.Prelude.{◌≡◌, ℕ, ◌^◌, ◌<◌, length, map, slice_index, slice_index_or, MatchResult, IfOk};
ghost use Rattle.sdf_graph.specs.Rates.{GraphValue, IsShape, IsCycle, rates, channel, cycle, cycle_length, no_channel};
ghost use Rattle.sdf_graph.specs.RelativeRates.{totals, AreWithin};
ghost use Rattle.sdf_graph.specs.Adjacency.{AreOutgoing, AreIncoming, ListsExactly, actor_at};
ghost use Rattle.sdf_graph.specs.Faults.{IsFaultless, IsFirstFault, numbers_fault};

use crate::adjacency::channels_by_actor;
use crate::channel::{Channel, End, Totals, channels_fault, cycle_length};
use crate::fault::GraphFault;
use crate::reach::lowest_unreached;
use sdf_limits::{MAX_ACTORS, MAX_LINKS};
use std::alloc::{AllocError, Global};
use std::marker::Model;

/// A synchronous dataflow graph (Lee and Messerschmitt 1987). Its actors are numbers from 0. Its channels, walked both
/// ways, join each actor to actor 0.
pub struct Graph {
    pub(crate) actors: usize,
    pub(crate) channels: Vec<Channel>,
    // the samples that each channel moves in a cycle of the actor at each end
    pub(crate) totals: Vec<Totals>,
    // the firings in each actor's cycle
    pub(crate) cycles: Vec<u32>,
    // for each actor, the channels that come from it and the channels that go to it
    outgoing: Vec<Vec<usize>>,
    incoming: Vec<Vec<usize>>,
}

impl Model for Graph {
    ghost use Rattle.std.specs.Prelude.{map};
    ghost use Rattle.sdf_graph.specs.Rates.{GraphValue};
    ghost use Rattle.sdf_graph.specs.Adjacency.{IsGraph};

    ghost Value = { GraphValue };

    ghost view = { λ g. record { actors = g.actors; channels = g.channels.items } };

    ghost invariant = { λ g. IsGraph (record { actors = g.actors; channels = g.channels.items }) g.totals.items
        g.cycles.items (map (λ list. list.items) g.outgoing.items) (map (λ list. list.items) g.incoming.items) };
}

/// Not derived: a derived drop is expanded, with all lists, wherever a graph may be dropped.
impl Drop for Graph {
    fn drop(self) {
        let Graph {
            actors: _,
            channels: _,
            totals: _,
            cycles: _,
            outgoing: _,
            incoming: _,
        } = self;
    }
}

impl Graph {
    /// Makes a graph of 1 to 64 actors and at most 256 channels.
    ///
    /// It errs with the first fault in this order:
    /// 1. the number of actors, then the number of channels;
    /// 2. for each channel in order: its ends, its rates (at most 1,024, and not all 0), the lengths of its lists (1 to
    ///    64, and the length of the first list of its actor) and its initial samples (at most 65,536);
    /// 3. the lowest actor that is not joined to actor 0.
    pub fn new(alloc: Global, actors: usize, channels: Vec<Channel>) -> Result<Graph, GraphFault>
        ensures { let shape : GraphValue = record { actors = actors; channels = channels.items } in
            MatchResult result (λ graph. (graph ≡ shape) × IsFaultless shape) (IsFirstFault shape) }
    {
        if let Some(fault) = numbers_fault(actors, &channels) {
            return Err(fault);
        }
        if let Some(actor) = lowest_unreached(actors, &channels) {
            return Err(GraphFault::NotConnected { actor });
        }
        let totals = totals_of(alloc, &channels)?;
        let cycles = cycles_of(alloc, actors, &channels)?;
        let outgoing = channels_by_actor(alloc, actors, &channels, End::Source)?;
        let incoming = channels_by_actor(alloc, actors, &channels, End::Target)?;
        Ok(Graph {
            actors,
            channels,
            totals,
            cycles,
            outgoing,
            incoming,
        })
    }

    /// Returns how many actors there are.
    pub fn actors(&self) -> usize
        ensures count { result ≡ self.now.actors }
        ensures shape { IsShape self.now }
    {
        self.actors
    }

    /// Returns the channels, by number.
    pub fn channels(&self) -> &[Channel]
        ensures list { result.now ≡ self.now.channels }
        ensures shape { IsShape self.now }
    {
        &self.channels
    }

    /// Returns the firings in the cycle of `actor`, after which its rates repeat. An actor without channels has a cycle
    /// of 1.
    pub fn cycle(&self, actor: usize) -> u32
        requires { actor < self.now.actors }
        ensures { result ≡ cycle self.now actor }
    {
        self.cycles[actor]
    }

    /// Returns the samples that channel `number` moves in a cycle of the actor at each end.
    pub(crate) fn totals_at(&self, number: usize) -> Totals
        requires { number < length self.now.channels }
        ensures value { result ≡ totals (channel self.now number) }
        ensures within { AreWithin self.now result }
        ensures shape { IsShape self.now }
    {
        self.totals[number]
    }

    /// Returns the numbers of the channels that come from `actor`, in rising order. They include channels to itself.
    pub fn outgoing(&self, actor: usize) -> &[usize]
        requires { actor < self.now.actors }
        ensures { AreOutgoing (rates self.now) actor result.now }
    {
        &self.outgoing[actor]
    }

    /// Returns the numbers of the channels that go to `actor`, in rising order. They include channels from itself.
    pub fn incoming(&self, actor: usize) -> &[usize]
        requires { actor < self.now.actors }
        ensures channels { AreIncoming (rates self.now) actor result.now }
        ensures shape { IsShape self.now }
    {
        &self.incoming[actor]
    }

    /// Returns the numbers of the channels that have `actor` at `end`, in rising order: `outgoing` or `incoming`.
    pub fn channels_at(&self, actor: usize, end: End) -> &[usize]
        requires { actor < self.now.actors }
        ensures { ListsExactly (λ c. actor_at end (channel self.now c) ≡ actor) (length self.now.channels) result.now }
    {
        match end {
            End::Source => self.outgoing(actor),
            End::Target => self.incoming(actor),
        }
    }
}

/// Returns the first fault of a graph's numbers: how many actors, how many channels, then each channel's numbers.
pub(crate) fn numbers_fault(actors: usize, channels: &[Channel]) -> Option<GraphFault>
    ensures { result ≡ numbers_fault (record { actors = actors; channels = channels.now }) }
{
    if actors < 1 || actors > MAX_ACTORS {
        return Some(GraphFault::ActorCount);
    }
    if channels.len() > MAX_LINKS {
        return Some(GraphFault::ChannelCount);
    }
    channels_fault(actors, channels)
}

/// Returns the samples that each channel moves in a cycle of the actor at each end.
fn totals_of(alloc: Global, channels: &[Channel]) -> Result<Vec<Totals>, AllocError>
    requires put { (c : ℕ) → c < length channels.now →
        IsCycle (cycle_length channels.now (slice_index_or channels.now c no_channel).from)
        (slice_index_or channels.now c no_channel).put }
    requires take { (c : ℕ) → c < length channels.now →
        IsCycle (cycle_length channels.now (slice_index_or channels.now c no_channel).to)
        (slice_index_or channels.now c no_channel).take }
    ensures { IfOk result (λ v. v.items ≡ map totals channels.now) }
{
    let mut all = Vec::new(alloc);
    for channel in channels {
        all.push(channel.totals())?;
    }
    Ok(all)
}

/// Returns the firings in each actor's cycle.
fn cycles_of(alloc: Global, actors: usize, channels: &[Channel]) -> Result<Vec<u32>, AllocError>
    requires { (a : ℕ) → cycle_length channels.now a < 2 ^ 32 }
    ensures { IfOk result (λ v. (length v.items ≡ actors)
        × ((a : ℕ) → a < actors → slice_index v.items a ≡ cycle_length channels.now a)) }
{
    let mut cycles = Vec::new(alloc);
    for actor in 0..actors {
        cycles.push(cycle_length(channels, actor) as u32)?;
    }
    Ok(cycles)
}

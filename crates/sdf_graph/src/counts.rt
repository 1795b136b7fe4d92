//! Token counts: how many samples each channel holds after some firings.

ghost use Rattle.std.specs.Prelude.{◌≡◌, ℕ, ◌+◌, ◌-◌, ◌^◌, ◌≤◌, ◌<◌, ◌↔◌, length, replicate, slice_index};
ghost use Rattle.std.specs.Prelude.{slice_index_or, slice_set, IfOk, MatchOption, IsTrue};
ghost use Rattle.sdf_graph.specs.Rates.{rates, channel, no_channel, rate_at, IsCycle};
ghost use Rattle.sdf_graph.specs.Sequences.{tokens, IsEnabled, IsShortChannel};
ghost use Rattle.sdf_graph.specs.CountsValue.{counts};
ghost use Rattle.std.specs.List.Sorted.{IsStrictlyIncreasing};
ghost use Rattle.sdf_graph.specs.Moved.{moved, moved_at, CanMove, AreMoved, HoldEnough, IsFirstShort};

use crate::channel::{Channel, End};
use crate::graph::Graph;
use std::alloc::{AllocError, Global};
use std::marker::Model;

/// The firings of each actor so far, and the samples (tokens) that the channels hold after them.
///
/// Only `new` allocates memory. `enabled`, `short_channel` and `fire` look only at the channels of their actor.
#[derive(Drop)]
pub struct Counts<'a> {
    graph: &'a Graph,
    fired: Vec<u32>,
    held: Vec<u64>,
}

impl<'a> Model for Counts<'a> {
    ghost use Rattle.sdf_graph.specs.CountsValue.{CountsValue, IsKept};

    ghost Value = { CountsValue };

    ghost view = { λ s. record { graph = s.graph.now; fired = s.fired.items } };

    ghost invariant = { λ s. IsKept (record { graph = s.graph.now; fired = s.fired.items }) s.held.items };
}

impl<'a> Counts<'a> {
    /// Returns the counts before the first firing: each channel holds its initial samples.
    pub fn new(alloc: Global, graph: &'a Graph) -> Result<Counts<'a>, AllocError>
        ensures { IfOk result (λ s. s ≡ record { graph = graph.now; fired = replicate graph.now.actors 0 }) }
    {
        let fired = vec![in alloc; 0; graph.actors]?;
        let mut held = Vec::new(alloc);
        for channel in &graph.channels {
            held.push(channel.initial as u64)?;
        }
        Ok(Counts { graph, fired, held })
    }

    /// Returns how many samples `channel` holds.
    pub fn tokens(&self, channel: usize) -> u64
        requires { channel < length self.now.graph.channels }
        ensures { result ≡ tokens (rates self.now.graph) (counts self.now) channel }
    {
        self.held[channel]
    }

    /// Returns how often `actor` has fired.
    pub fn fired(&self, actor: usize) -> u32
        requires { actor < self.now.graph.actors }
        ensures { result ≡ counts self.now actor }
    {
        self.fired[actor]
    }

    /// Checks whether each channel into `actor` holds what the actor's next firing takes.
    pub fn enabled(&self, actor: usize) -> bool
        requires { actor < self.now.graph.actors }
        ensures { IsTrue result ↔ IsEnabled (rates self.now.graph) (counts self.now) actor }
    {
        self.short_channel(actor).is_none()
    }

    /// Returns the lowest channel into `actor` that holds less than the actor's next firing takes.
    pub fn short_channel(&self, actor: usize) -> Option<usize>
        requires { actor < self.now.graph.actors }
        ensures { MatchOption result (IsEnabled (rates self.now.graph) (counts self.now) actor)
            (IsShortChannel (rates self.now.graph) (counts self.now) actor) }
    {
        let graph = self.graph;
        first_short(
            graph.channels(),
            self.fired[actor],
            graph.incoming(actor),
            &self.held,
        )
    }

    /// Fires `actor`, which must be enabled: it takes from each channel into it, and puts on each channel out of it.
    pub fn fire(&mut self, actor: usize)
        requires known { actor < self.old.graph.actors }
        requires enabled { IsEnabled (rates self.old.graph) (counts self.old) actor }
        requires room { counts self.old actor + 1 < 2 ^ 32 }
        ensures { self.new ≡ record self.old { fired = slice_set self.old.fired actor (counts self.old actor + 1) } }
    {
        let graph = self.graph;
        move_all(graph, actor, self.fired[actor], &mut self.held);
        self.fired[actor] += 1;
    }
}

/// Returns the first channel of `numbers` that holds less than firing `i` of its target takes.
fn first_short(channels: &[Channel], i: u32, numbers: &[usize], held: &[u64]) -> Option<usize>
    requires all { length held.now ≡ length channels.now }
    requires known { (j : ℕ) → j < length numbers.now → slice_index numbers.now j < length channels.now }
    requires cycles { (c : ℕ) → c < length channels.now → 0 < length (slice_index_or channels.now c no_channel).take }
    ensures { MatchOption result (HoldEnough channels.now i held.now numbers.now (length numbers.now))
        (IsFirstShort channels.now i held.now numbers.now) }
{
    for &number in numbers {
        let channel = &channels[number];
        if held[number] < u64::from(channel.takes(i)) {
            return Some(number);
        }
    }
    None
}

/// Updates what all channels hold by firing `i` of `actor`, which first takes and then puts.
fn move_all(graph: &Graph, actor: usize, i: u32, held: &mut [u64])
    requires known { actor < graph.now.actors }
    requires all { length held.old ≡ length graph.now.channels }
    requires room { (c : ℕ) → c < length graph.now.channels →
        slice_index held.old c + rate_at (channel graph.now c).put i < 2 ^ 64 }
    requires enough { (c : ℕ) → c < length graph.now.channels → (channel graph.now c).to ≡ actor →
        rate_at (channel graph.now c).take i ≤ slice_index held.old c }
    ensures { (c : ℕ) → c < length graph.now.channels →
        slice_index held.new c ≡ moved (channel graph.now c) actor i (slice_index held.old c) }
{
    let channels = graph.channels();
    move_tokens(channels, graph.incoming(actor), End::Target, i, held);
    move_tokens(channels, graph.outgoing(actor), End::Source, i, held);
}

/// Updates what the channels of `numbers` hold by firing `i` of their actor at `end`.
fn move_tokens(channels: &[Channel], numbers: &[usize], end: End, i: u32, held: &mut [u64])
    requires all { length held.old ≡ length channels.now }
    requires rising { IsStrictlyIncreasing numbers.now }
    requires known { (j : ℕ) → j < length numbers.now → slice_index numbers.now j < length channels.now }
    requires puts { (c : ℕ) → c < length channels.now → 0 < length (slice_index_or channels.now c no_channel).put }
    requires takes { (c : ℕ) → c < length channels.now → 0 < length (slice_index_or channels.now c no_channel).take }
    requires can { (j : ℕ) → j < length numbers.now →
        CanMove end (slice_index_or channels.now (slice_index numbers.now j) no_channel) i
        (slice_index held.old (slice_index numbers.now j)) }
    ensures { AreMoved channels.now end i numbers.now (length numbers.now) held.old held.new }
{
    for &number in numbers {
        held[number] = after_firing(&channels[number], end, i, held[number]);
    }
}

/// Returns what `channel` holds after firing `i` of the actor at `end`, if it held `held` before.
fn after_firing(channel: &Channel, end: End, i: u32, held: u64) -> u64
    requires puts { 0 < length channel.now.put }
    requires takes { 0 < length channel.now.take }
    requires can { CanMove end channel.now i held }
    ensures { result ≡ moved_at end channel.now i held }
{
    match end {
        End::Source => held + u64::from(channel.puts(i)),
        End::Target => held - u64::from(channel.takes(i)),
    }
}

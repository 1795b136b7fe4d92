//! Channels, and the limits of their numbers.

ghost use Rattle.std.specs.Prelude.{◌≡◌, ℕ, ◌*◌, ◌^◌, ◌≤◌, ◌<◌, length, slice_index, sum, nat_lt, IfOk, map};
ghost use Rattle.sdf_graph.specs.Faults.{channel_fault, channels_fault, are_small, are_rates, is_cycle};
ghost use Rattle.sdf_graph.specs.Rates.{IsCycle, cycle_length, rate_at, sum_to};
ghost use Rattle.sdf_graph.specs.RelativeRates.{totals};
ghost use Rattle.sdf_graph.specs.Adjacency.{actor_at};
ghost use Rattle.sdf_graph.specs.Moved.{moves};

use crate::fault::GraphFault;
use sdf_limits::{MAX_CYCLE, MAX_INITIAL, MAX_RATE};
use std::marker::Model;

/// A channel from one actor to another or to itself. Its rates are cyclic: firing `i` of `from` puts `put[i % n]`
/// samples, with `n` the length of `put`. Firing `i` of `to` takes `take[i % n]`, with `n` the length of `take`.
/// The channel begins with `initial` samples (the delays of Lee and Messerschmitt 1987).
#[derive(Drop)]
pub struct Channel {
    pub from: usize,
    pub put: Vec<u32>,
    pub to: usize,
    pub take: Vec<u32>,
    pub initial: usize,
}

impl Model for Channel {
    ghost use Rattle.sdf_graph.specs.Rates.{ChannelValue};

    ghost Value = { ChannelValue };

    ghost view = { λ c. record {
      from = c.from;
      put = c.put.items;
      to = c.to;
      take = c.take.items;
      initial = c.initial;
    } };
}

/// The samples that a channel moves in a cycle of the actor at each end.
#[derive(Clone, Copy)]
pub(crate) struct Totals {
    pub(crate) from: usize,
    pub(crate) put: u32,
    pub(crate) to: usize,
    pub(crate) take: u32,
}

/// One end of a channel.
#[derive(Clone, Copy)]
pub enum End {
    /// The end at the actor that puts samples on the channel.
    Source,
    /// The end at the actor that takes samples from the channel.
    Target,
}

impl Channel {
    /// Returns the actor at `end`.
    pub(crate) fn actor_at(&self, end: End) -> usize
        ensures { result ≡ actor_at end self.now }
    {
        match end {
            End::Source => self.from,
            End::Target => self.to,
        }
    }

    /// Returns how many samples firing `i` of the channel's source puts.
    pub fn puts(&self, i: u32) -> u32
        requires { 0 < length self.now.put }
        ensures { result ≡ rate_at self.now.put i }
    {
        rate_at(&self.put, i)
    }

    /// Returns how many samples firing `i` of the channel's target takes.
    pub fn takes(&self, i: u32) -> u32
        requires { 0 < length self.now.take }
        ensures { result ≡ rate_at self.now.take i }
    {
        rate_at(&self.take, i)
    }

    /// Returns how many samples firing `i` of the actor at `end` moves: `puts` or `takes`.
    pub fn moves(&self, end: End, i: u32) -> u32
        requires put { 0 < length self.now.put }
        requires take { 0 < length self.now.take }
        ensures { result ≡ moves end self.now i }
    {
        match end {
            End::Source => self.puts(i),
            End::Target => self.takes(i),
        }
    }

    /// Returns the samples that a cycle of the actor at each end moves.
    pub(crate) fn totals(&self) -> Totals
        requires put { (n : ℕ) × IsCycle n self.now.put }
        requires take { (n : ℕ) × IsCycle n self.now.take }
        ensures { result ≡ totals self.now }
    {
        Totals {
            from: self.from,
            put: total(&self.put),
            to: self.to,
            take: total(&self.take),
        }
    }

    /// Returns the first fault of this channel, which is number `number` of `channels`, in a graph of `actors` actors.
    fn fault(&self, actors: usize, channels: &[Channel], number: usize) -> Option<GraphFault>
        ensures { result ≡ channel_fault actors channels.now number self.now }
    {
        if self.from >= actors || self.to >= actors {
            Some(GraphFault::BadEnd { channel: number })
        } else if !are_rates(&self.put) || !are_rates(&self.take) {
            Some(GraphFault::BadRate { channel: number })
        } else if !is_cycle(cycle_length(channels, self.from), &self.put)
            || !is_cycle(cycle_length(channels, self.to), &self.take)
        {
            Some(GraphFault::CycleLength { channel: number })
        } else if self.initial > MAX_INITIAL {
            Some(GraphFault::InitialCount { channel: number })
        } else {
            None
        }
    }
}

/// Returns the rate of firing `i`, given the rates of a cycle.
fn rate_at(rates: &[u32], i: u32) -> u32
    requires { 0 < length rates.now }
    ensures { result ≡ rate_at rates.now i }
{
    // A constant rate needs no division.
    if rates.len() == 1 {
        return rates[0];
    }
    rates[i as usize % rates.len()]
}

/// Returns how many samples the first `firings` firings of one cycle move.
fn moved_in_cycle(rates: &[u32], firings: usize) -> u64
    requires small { (i : ℕ) → slice_index rates.now i ≤ MAX_RATE }
    requires within { firings ≤ length rates.now }
    requires few { firings < 2 ^ 33 }
    ensures value { result ≡ sum_to (rate_at rates.now) firings }
    ensures small { result ≤ MAX_RATE * firings }
{
    let mut moved = 0;
    for i in 0..firings {
        moved += u64::from(rates[i]);
    }
    moved
}

/// Returns how many samples the first `firings` firings of an actor move, given the rates of its cycle.
pub fn moved_by(rates: &[u32], firings: u64) -> u64
    requires some { 0 < length rates.now }
    requires small { (i : ℕ) → slice_index rates.now i ≤ MAX_RATE }
    requires few { firings < 2 ^ 33 }
    ensures value { result ≡ sum_to (rate_at rates.now) firings }
    ensures small { result ≤ MAX_RATE * firings }
{
    // A constant rate needs no division.
    if rates.len() == 1 {
        return firings * u64::from(rates[0]);
    }
    let length = rates.len() as u64;
    if firings < length {
        return moved_in_cycle(rates, firings as usize);
    }
    let whole = moved_in_cycle(rates, rates.len());
    firings / length * whole + moved_in_cycle(rates, (firings % length) as usize)
}

/// Returns the sum of the rates of a cycle.
fn total(rates: &[u32]) -> u32
    requires short { length rates.now ≤ MAX_CYCLE }
    requires small { (i : ℕ) → slice_index rates.now i ≤ MAX_RATE }
    ensures { result ≡ sum rates.now }
{
    let mut total = 0;
    for rate in rates {
        total += *rate;
    }
    total
}

/// Checks whether no rate is over `MAX_RATE`.
fn are_small(rates: &[u32]) -> bool
    ensures { result ≡ are_small rates.now }
{
    for rate in rates {
        if *rate > MAX_RATE {
            return false;
        }
    }
    true
}

/// Checks whether some rate is above 0.
fn has_nonzero(rates: &[u32]) -> bool
    ensures { result ≡ nat_lt 0 (sum rates.now) }
{
    for rate in rates {
        if *rate > 0 {
            return true;
        }
    }
    false
}

/// Checks whether no rate is over `MAX_RATE`, and not all rates are 0. An empty list passes: its fault is its length.
fn are_rates(rates: &[u32]) -> bool
    ensures { result ≡ are_rates rates.now }
{
    are_small(rates) && (rates.is_empty() || has_nonzero(rates))
}

/// Checks whether `rates` has one rate for each firing of a cycle of `firings`, within the limits of a cycle.
fn is_cycle(firings: usize, rates: &[u32]) -> bool
    ensures { result ≡ is_cycle firings rates.now }
{
    1 <= rates.len() && rates.len() <= MAX_CYCLE as usize && rates.len() == firings
}

/// Returns the firings in the cycle of `actor`: the length of its rate list at its first channel. At a channel from the
/// actor to itself, that list is `put`. An actor without channels has a cycle of 1.
pub(crate) fn cycle_length(channels: &[Channel], actor: usize) -> usize
    ensures { result ≡ cycle_length channels.now actor }
{
    for channel in channels {
        if channel.from == actor {
            return channel.put.len();
        }
        if channel.to == actor {
            return channel.take.len();
        }
    }
    1
}

/// Returns the first fault of the channels' numbers.
pub(crate) fn channels_fault(actors: usize, channels: &[Channel]) -> Option<GraphFault>
    ensures { result ≡ channels_fault actors channels.now 0 channels.now }
{
    for (number, channel) in channels.iter().enumerate() {
        if let Some(fault) = channel.fault(actors, channels, number) {
            return Some(fault);
        }
    }
    None
}

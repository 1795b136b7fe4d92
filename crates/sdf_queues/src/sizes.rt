//! How many samples firings move.

ghost use Rattle.std.specs.Prelude.{◌≡◌, ◌<◌, ◌≤◌, ◌*◌, ℕ, length, map, slice_index, slice_index_or, vec_len, IfOk};
ghost use Rattle.sdf_limits.specs.declared.TheConstants.{MAX_RATE, MAX_BLOCK};
ghost use Rattle.sdf_graph.specs.Rates.{rate_at, no_channel};
ghost use Rattle.sdf_actor.specs.Nets.{node, cycle_of};
ghost use Rattle.sdf_actor.specs.Sides.{channels_at};
ghost use Rattle.sdf_actor.specs.Wires.{lists};
ghost use Rattle.sdf_queues.specs.Sizes.{AreSizes, AreRows, at_phase, rates_on, rows_on};

use sdf_actor::{Actor, Net, Side};
use sdf_graph::Channel;
use std::alloc::{AllocError, Global};
use std::marker::Model;

/// Returns how many samples move in `blocks` blocks of `blocking` periods, if each period moves `each`.
pub fn samples_of_blocks(blocks: u32, blocking: u32, each: usize) -> usize
    requires { blocking * each ≤ MAX_RATE * MAX_BLOCK }
    ensures { result ≡ blocks * blocking * each }
{
    blocks as usize * (blocking as usize * each)
}

/// The samples that a firing at each phase takes from each channel and puts on it: by phase, then by channel.
#[derive(Drop)]
pub struct Sizes {
    takes: Vec<Vec<usize>>,
    puts: Vec<Vec<usize>>,
}

impl Model for Sizes {
    ghost use Rattle.sdf_actor.specs.Wires.{lists};
    ghost use Rattle.sdf_queues.specs.Sizes.{SizesValue};

    ghost Value = { SizesValue };

    ghost view = { λ z. record { takes = lists z.takes.items; puts = lists z.puts.items } };
}

impl Sizes {
    /// Makes the sizes of a net's firings, up to the longest cycle of a node.
    pub fn new<A: Actor>(alloc: Global, net: &Net<A>) -> Result<Sizes, AllocError>
        ensures { IfOk result (AreSizes A.steps net.now) }
    {
        let channels = net.graph().channels();
        let phases = longest_cycle(net);
        let takes = by_phase(alloc, channels, Side::Input, phases)?;
        let puts = by_phase(alloc, channels, Side::Output, phases)?;
        Ok(Sizes { takes, puts })
    }

    /// Returns how many samples a firing at `phase` takes from each channel (`Input`) or puts on it (`Output`).
    pub fn on(&self, side: Side, phase: u32) -> &[usize]
        requires { phase < length (rows_on side self.now) }
        ensures { result.now ≡ at_phase (rows_on side self.now) phase }
    {
        match side {
            Side::Input => &self.takes[phase as usize],
            Side::Output => &self.puts[phase as usize],
        }
    }

    /// Returns how many samples the firings of node `a` move on `side`: by phase, then by port.
    pub fn rows<A: Actor>(
        &self,
        alloc: Global,
        net: &Net<A>,
        a: usize,
        side: Side,
    ) -> Result<Vec<Vec<usize>>, AllocError>
        requires known { a < length net.now.nodes }
        requires sizes { AreSizes A.steps net.now self.now }
        ensures { IfOk result (λ v. AreRows A.steps side (node net.now a) (lists v.items)) }
    {
        let channels = channels_of(net, a, side);
        let mut rows = Vec::new(alloc);
        for phase in 0..net.node(a).cycle() {
            rows.push(at_channels(alloc, channels, self.on(side, phase))?)?;
        }
        Ok(rows)
    }
}

/// Returns the channels at the ports of node `a` on `side`.
fn channels_of<A: Actor>(net: &Net<A>, a: usize, side: Side) -> &[usize]
    requires { a < length net.now.nodes }
    ensures { result.now ≡ channels_at A.steps net.now side a }
{
    match side {
        Side::Input => net.channels_in(a),
        Side::Output => net.channels_out(a),
    }
}

/// Returns the sizes at `channels`, in their order.
fn at_channels(alloc: Global, channels: &[usize], sizes: &[usize]) -> Result<Vec<usize>, AllocError>
    requires { (p : ℕ) → p < length channels.now → slice_index channels.now p < length sizes.now }
    ensures { IfOk result (λ v. v.items ≡ map (slice_index sizes.now) channels.now) }
{
    let mut row = Vec::new(alloc);
    for channel in channels {
        row.push(sizes[*channel])?;
    }
    Ok(row)
}

/// Returns the length of the longest cycle of a node.
fn longest_cycle<A: Actor>(net: &Net<A>) -> u32
    ensures { (a : ℕ) → a < length net.now.nodes → cycle_of A.steps (node net.now a) ≤ result }
{
    let mut longest = 0;
    for a in 0..net.len() {
        longest = longest.max(net.node(a).cycle());
    }
    longest
}

/// Returns how many samples firings at each phase move on each channel, at its end on `side`.
fn by_phase(
    alloc: Global,
    channels: &[Channel],
    side: Side,
    phases: u32,
) -> Result<Vec<Vec<usize>>, AllocError>
    requires { (c : ℕ) → c < length channels.now →
        0 < length (rates_on side (slice_index_or channels.now c no_channel)) }
    ensures { IfOk result (λ v. (vec_len v ≡ phases) × ((blocking : ℕ) → blocking < phases →
        at_phase (lists v.items) blocking ≡ map (λ e. rate_at (rates_on side e) blocking) channels.now)) }
{
    let mut rows = Vec::new(alloc);
    for phase in 0..phases {
        rows.push(row(alloc, channels, side, phase)?)?;
    }
    Ok(rows)
}

/// Returns how many samples a firing at `phase` moves on each channel, at its end on `side`.
fn row(
    alloc: Global,
    channels: &[Channel],
    side: Side,
    phase: u32,
) -> Result<Vec<usize>, AllocError>
    requires { (c : ℕ) → c < length channels.now →
        0 < length (rates_on side (slice_index_or channels.now c no_channel)) }
    ensures { IfOk result (λ v. v.items ≡ map (λ e. rate_at (rates_on side e) phase) channels.now) }
{
    let mut row = Vec::new(alloc);
    for channel in channels {
        row.push(size(channel, side, phase))?;
    }
    Ok(row)
}

/// Returns how many samples a firing at `phase` moves on `channel`, at its end on `side`.
fn size(channel: &Channel, side: Side, phase: u32) -> usize
    requires { 0 < length (rates_on side channel.now) }
    ensures { result ≡ rate_at (rates_on side channel.now) phase }
{
    match side {
        Side::Input => channel.takes(phase) as usize,
        Side::Output => channel.puts(phase) as usize,
    }
}

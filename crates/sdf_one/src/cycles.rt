//! The numbers of samples that whole cycles of nodes move.

ghost use Rattle.std.specs.Prelude.{◌≡◌, ◌≤◌, ◌<◌, ℕ, length, slice_index, IfOk, IsTrue};
ghost use Rattle.sdf_graph.specs.Moved.{moves};
ghost use Rattle.sdf_graph.specs.Rates.{sum_to};
ghost use Rattle.sdf_queues.specs.Sizes.{rows_on};
ghost use Rattle.sdf_one.specs.Cycles.{AreCycles, AreRowsAt, IsInTurn};

use sdf_actor::{Actor, Net, Side};
use sdf_graph::{Channel, End};
use sdf_queues::Sizes;
use std::alloc::{AllocError, Global};

/// For each channel, how many samples a cycle of its target takes from it, and a cycle of its source puts on it.
#[derive(Drop)]
pub(crate) struct Cycles {
    pub(crate) takes: Vec<usize>,
    pub(crate) puts: Vec<usize>,
}

/// Returns how many samples the first `firings` firings of the actor at `end` of `channel` move.
fn samples_moved(channel: &Channel, end: End, firings: u32) -> usize
    requires put { 0 < length channel.now.put }
    requires take { 0 < length channel.now.take }
    ensures { result ≡ sum_to (moves end channel.now) firings }
{
    let mut total = 0;
    for i in 0..firings {
        total += channel.moves(end, i) as usize;
    }
    total
}

/// Returns how many samples the cycles of a net's nodes move on each channel.
pub(crate) fn make_cycles<A: Actor>(alloc: Global, net: &Net<A>) -> Result<Cycles, AllocError>
    ensures { IfOk result (AreCycles A.steps net.now) }
{
    let channels = net.graph().channels();
    let mut takes = Vec::new(alloc);
    let mut puts = Vec::new(alloc);
    for channel in channels {
        takes.push(samples_moved(channel, End::Target, net.node(channel.to).cycle()))?;
        puts.push(samples_moved(channel, End::Source, net.node(channel.from).cycle()))?;
    }
    Ok(Cycles { takes, puts })
}

/// Returns the last port at which samples move, or `first` if that is later.
fn last_port(ports: &[usize], sizes: &[usize], first: usize) -> usize
    requires { (p : ℕ) → p < length ports.now → slice_index ports.now p < length sizes.now }
    ensures from { first ≤ result }
    ensures still { (p : ℕ) → result < p → p < length ports.now →
        slice_index sizes.now (slice_index ports.now p) ≡ 0 }
{
    let mut last = first;
    for port in 0..ports.len() {
        if last < port && sizes[ports[port]] != 0 {
            last = port;
        }
    }
    last
}

/// Checks whether no samples move at the ports before `end`.
fn is_still(ports: &[usize], sizes: &[usize], end: usize) -> bool
    requires { (p : ℕ) → p < length ports.now → slice_index ports.now p < length sizes.now }
    ensures { IsTrue result → (p : ℕ) → p < end → p < length ports.now →
        slice_index sizes.now (slice_index ports.now p) ≡ 0 }
{
    for port in 0..ports.len() {
        if port < end && sizes[ports[port]] != 0 {
            return false;
        }
    }
    true
}

/// Checks whether the firings of a cycle serve the ports on `side` in turn.
pub(crate) fn is_in_turn(ports: &[usize], sizes: &Sizes, side: Side, cycle: u32) -> bool
    requires { AreRowsAt ports.now (rows_on side sizes.now) cycle }
    ensures { IsTrue result → IsInTurn ports.now (rows_on side sizes.now) cycle }
{
    let mut last = 0;
    for phase in 0..cycle {
        let row = sizes.on(side, phase);
        if !is_still(ports, row, last) {
            return false;
        }
        last = last_port(ports, row, last);
    }
    true
}

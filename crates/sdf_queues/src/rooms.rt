//! How many samples may be on a channel, and queues with room for them.

ghost use Rattle.std.specs.Prelude.{◌≡◌, ◌+◌, ◌*◌, ◌≤◌, ◌<◌, ℕ, length, slice_index, slice_index_or, vec_len, IfOk};
ghost use Rattle.sdf_graph.specs.Rates.{rates, rate_at, sum_to};
ghost use Rattle.sdf_actor.specs.Graphs.{graph_of};
ghost use Rattle.sdf_actor.specs.Nets.{wire};
ghost use Rattle.sdf_queues.specs.Blocks.{nothing};

use crate::queue::Queue;
use sdf_actor::{Actor, Net};
use sdf_graph::{Channel, moved_by};
use std::alloc::{AllocError, Global};

/// Returns how many samples the source of `channel` puts on it in `periods` periods of `firings` firings each.
pub fn put_in(channel: &Channel, firings: u32, periods: u32) -> usize
    requires some { 0 < length channel.now.put }
    requires small { (i : ℕ) → slice_index channel.now.put i ≤ 1024 }
    requires short { firings ≤ 65536 }
    requires periods { periods ≤ 65536 }
    ensures value { result ≡ periods * sum_to (rate_at channel.now.put) firings }
    ensures few { result ≤ 4398046511104 }
{
    periods as usize * moved_by(&channel.put, u64::from(firings)) as usize
}

/// Makes the queue of `channel`, in the buffer of `spares[channel]` if there is one. That spare is left with no room.
fn renew_queue<T: Copy>(
    alloc: Global,
    spares: &mut [Queue<T>],
    channel: usize,
    initial: &[T],
    room: usize,
    filler: T,
) -> Result<Queue<T>, AllocError>
    requires initial { length initial.now ≤ room }
    requires room { room ≤ 4_611_686_018_427_387_904 }
    ensures { IfOk result (λ q. q ≡ record { samples = initial.now; room = room }) }
{
    if channel < spares.len() {
        return spares[channel].take_out().reset(initial, room, filler);
    }
    Queue::new(alloc, initial, room, filler)
}

/// Makes the queue of each channel: its initial samples, and room for these and for what `periods` periods put there.
pub fn make_queues<A: Actor>(
    alloc: Global,
    net: &Net<A>,
    repetitions: &[u32],
    periods: u32,
    filler: A::Token,
) -> Result<Vec<Queue<A::Token>>, AllocError>
    requires all { length repetitions.now ≡ length net.now.nodes }
    requires short { (a : ℕ) → a < length repetitions.now → slice_index repetitions.now a ≤ 65536 }
    requires few { periods ≤ 65536 }
    ensures { let r = rates (graph_of A.steps net.now) in
        IfOk result (λ v. (vec_len v ≡ length net.now.wires) × ((c : ℕ) → c < length net.now.wires →
        slice_index_or v.items c nothing ≡ record {
          samples = (wire net.now c).initial;
          room = length (wire net.now c).initial + periods * r.produced c (slice_index repetitions.now (r.source c));
        })) }
{
    let mut spares = Vec::new(alloc);
    renew_queues(alloc, net, repetitions, periods, filler, &mut spares)
}

/// Makes the queues that `make_queues` makes, in the buffers of `spares`: queues of an earlier run, by channel. The
/// spares lose their buffers.
pub fn renew_queues<A: Actor>(
    alloc: Global,
    net: &Net<A>,
    repetitions: &[u32],
    periods: u32,
    filler: A::Token,
    spares: &mut [Queue<A::Token>],
) -> Result<Vec<Queue<A::Token>>, AllocError>
    requires all { length repetitions.now ≡ length net.now.nodes }
    requires short { (a : ℕ) → a < length repetitions.now → slice_index repetitions.now a ≤ 65536 }
    requires few { periods ≤ 65536 }
    ensures { let r = rates (graph_of A.steps net.now) in
        IfOk result (λ v. (vec_len v ≡ length net.now.wires) × ((c : ℕ) → c < length net.now.wires →
        slice_index_or v.items c nothing ≡ record {
          samples = (wire net.now c).initial;
          room = length (wire net.now c).initial + periods * r.produced c (slice_index repetitions.now (r.source c));
        })) }
{
    let graph = net.graph();
    let mut queues = Vec::with_capacity(alloc, net.channels())?;
    for (c, channel) in graph.channels().iter().enumerate() {
        let room = channel.initial + put_in(channel, repetitions[channel.from], periods);
        let initial = &net.link(c).initial;
        queues.push(renew_queue(alloc, spares, c, initial, room, filler)?)?;
    }
    Ok(queues)
}

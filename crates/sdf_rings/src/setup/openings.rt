//! Rings before the first firing: each holds the initial samples of its channel.

ghost use Rattle.std.specs.Prelude.{◌≡◌, ◌<◌, ◌≤◌, ℕ, length, slice_index, IfOk};
ghost use Rattle.rtrb.specs.Ring.{producer_capacity};
ghost use Rattle.sdf_actor.specs.Nets.{wire, wiring};
ghost use Rattle.sdf_rings.specs.Asks.{IsRoomOf};
ghost use Rattle.sdf_rings.specs.Openings.{IsOpened, IsGreatestOf, HaveRings};

use crate::rings::meet::sync_ring;
use rtrb::{Consumer, Producer, RingBuffer};
use sdf_actor::{Actor, Net};
use sdf_graph::Channel;
use sdf_prec::Table;
use std::alloc::{AllocError, Global};

/// The ends of rings, by channel. An end is `None` once a node has taken it.
#[derive(Drop)]
pub(crate) struct OpenEnds<T> {
    pub(crate) producers: Vec<Option<Producer<T, Global>>>,
    pub(crate) consumers: Vec<Option<Consumer<T, Global>>>,
}

/// Returns the ends of a ring that has room for `places` samples and holds `samples`.
fn open_ring<T: Copy>(
    alloc: Global,
    places: usize,
    samples: &[T],
) -> Result<(Producer<T, Global>, Consumer<T, Global>), AllocError>
    requires { length samples.now ≤ places }
    ensures opened { IfOk result (λ ends. IsOpened ends.0 ends.1 samples.now) }
    ensures capacity { IfOk result (λ ends. producer_capacity ends.0 ≡ places) }
{
    let (mut producer, mut consumer) = RingBuffer::new(alloc, places)?;
    let _ = producer.push_entire_slice(samples);
    sync_ring(&mut consumer, &mut producer);
    Ok((producer, consumer))
}

/// Returns the greatest of `numbers`.
fn greatest(numbers: &[u32]) -> u32
    requires { 0 < length numbers.now }
    ensures { IsGreatestOf numbers.now result }
{
    let mut greatest = numbers[0];
    for number in numbers {
        if *number > greatest {
            greatest = *number;
        }
    }
    greatest
}

/// Returns the greatest number of samples that a firing puts on `channel`.
fn greatest_put(channel: &Channel) -> u32
    requires { 0 < length channel.now.put }
    ensures { IsGreatestOf channel.now.put result }
{
    greatest(&channel.put)
}

/// Returns the room in the ring of channel `c` in samples: the capacity in `table`, and another block from an actor to
/// itself. Fails with `AllocError` if this does not fit into a `usize`.
fn room_of<A: Actor>(net: &Net<A>, table: &Table, c: usize) -> Result<usize, AllocError>
    requires known { c < length net.now.wires }
    requires caps { length table.now.caps ≡ length net.now.wires }
    ensures { IfOk result (IsRoomOf (wiring A.steps net.now).rates (slice_index table.now.caps) c) }
{
    let link = net.link(c);
    let held = table.cap(c) as usize;
    if link.from.0 != link.to.0 {
        return Ok(held);
    }
    let block = greatest_put(&net.graph().channels()[c]);
    match held.checked_add(block as usize) {
        Some(room) => Ok(room),
        None => Err(AllocError),
    }
}

/// Returns the rings of all channels of `net`, by channel.
pub(crate) fn open_rings<A: Actor>(
    alloc: Global,
    net: &Net<A>,
    table: &Table,
) -> Result<OpenEnds<A::Token>, AllocError>
    requires caps { length table.now.caps ≡ length net.now.wires }
    requires held { (c : ℕ) → c < length net.now.wires →
        length (wire net.now c).initial ≤ slice_index table.now.caps c }
    ensures { IfOk result (λ ends. HaveRings A.steps net.now (slice_index table.now.caps) ends.producers.items
        ends.consumers.items) }
{
    let mut producers = Vec::with_capacity(alloc, net.channels())?;
    let mut consumers = Vec::with_capacity(alloc, net.channels())?;
    for c in 0..net.channels() {
        let room = room_of(net, table, c)?;
        let ring = open_ring(alloc, room, &net.link(c).initial)?;
        producers.push(Some(ring.0))?;
        consumers.push(Some(ring.1))?;
    }
    Ok(OpenEnds {
        producers,
        consumers,
    })
}

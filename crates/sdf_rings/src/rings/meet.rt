//! Synchronizing rings when one owner has both ends.

ghost use Rattle.std.specs.Prelude.{◌≡◌, ◌<◌, length};
ghost use Rattle.rtrb.specs.Ring.{known_items, IsPair, ConsumerLooked, ProducerLooked};
ghost use Rattle.sdf_rings.specs.Ends.{IsMet};
ghost use Rattle.sdf_rings.specs.Changes.{AllBecame};
ghost use Rattle.sdf_rings.specs.Places.{HasRingNode, HoldsOfRingNode, HoldsOfProducer, OnlyIns, OnlyProducer, PutsAt};
ghost use Rattle.sdf_rings.specs.Places.{ProducerLookedAt, IsRing, HasSynced};
ghost use Rattle.sdf_actor.specs.Wires.{lists};
ghost use Rattle.sdf_rings.specs.Seats.{HasIdled};
ghost use Rattle.sdf_rings.specs.Rests.{ring_end_of, AreRings, HaveMet};

use crate::seat::Seat;
use rtrb::{Consumer, Producer};
use sdf_actor::{Actor, Net};
use std::alloc::Global;
use std::mem;

/// The place of a ring end: a port of a node on a seat.
#[derive(Clone, Copy)]
pub struct RingEnd {
    pub seat: usize,
    pub ring_node: usize,
    pub port: usize,
}

/// Synchronizes both ends of a ring, and returns how many items it holds.
pub(crate) fn sync_ring<T>(
    consumer: &mut Consumer<T, Global>,
    producer: &mut Producer<T, Global>,
) -> usize
    requires { IsPair producer.old consumer.old }
    ensures held { result ≡ length (known_items consumer.new) }
    ensures consumer { ConsumerLooked consumer.old consumer.new }
    ensures producer { ProducerLooked producer.old producer.new }
    ensures met { IsMet producer.new consumer.new }
{
    producer.slots_beside(consumer);
    consumer.slots_beside(producer)
}

/// Swaps the consumers of a ring node with `ins`.
pub(crate) fn swap_ins<A: Actor>(
    seats: &mut [Seat<A>],
    seat: usize,
    ring_node: usize,
    ins: &mut Vec<Consumer<A::Token, Global>>,
)
    requires seat { seat < length seats.old }
    requires ring_node { HasRingNode seats.old seat ring_node }
    ensures ins { HoldsOfRingNode (λ x. ins.new ≡ x.ins) seats.old seat ring_node }
    ensures seats { OnlyIns seats.old seats.new seat ring_node ins.old }
{
    mem::swap(&mut seats[seat].ring_nodes[ring_node].ins, ins);
}

/// Synchronizes `consumer` with the producer at `at`.
fn sync_producer<A: Actor>(
    seats: &mut [Seat<A>],
    at: RingEnd,
    consumer: &mut Consumer<A::Token, Global>,
)
    requires there { PutsAt seats.old at }
    requires pair { HoldsOfProducer (λ y. IsPair y consumer.old) seats.old at }
    ensures consumer { ConsumerLooked consumer.old consumer.new }
    ensures producer { ProducerLookedAt seats.old seats.new at }
    ensures met { HoldsOfProducer (λ y. IsMet y consumer.new) seats.new at }
    ensures seats { OnlyProducer seats.old seats.new at }
{
    sync_ring(
        consumer,
        &mut seats[at.seat].ring_nodes[at.ring_node].outs[at.port],
    );
}

/// Synchronizes the ring from the producer at `from` to the consumer at `to`.
fn sync_at<A: Actor>(alloc: Global, seats: &mut [Seat<A>], from: RingEnd, to: RingEnd)
    requires ring { IsRing seats.old from to }
    ensures { HasSynced seats.old seats.new from to }
{
    let mut ins = Vec::new(alloc);
    swap_ins(seats, to.seat, to.ring_node, &mut ins);
    sync_producer(seats, from, &mut ins[to.port]);
    swap_ins(seats, to.seat, to.ring_node, &mut ins);
}

/// Returns the place of the ring end at `end`, a node and its port. `places` has the seat and index of each node.
pub(crate) fn end_at(places: &[(usize, usize)], end: (usize, usize)) -> RingEnd
    requires { end.0 < length places.now }
    ensures { result ≡ ring_end_of places.now end }
{
    let place = places[end.0];
    RingEnd {
        seat: place.0,
        ring_node: place.1,
        port: end.1,
    }
}

/// Synchronizes both ends of every ring. It takes no memory.
pub(crate) fn sync_all<A: Actor>(
    alloc: Global,
    net: &Net<A>,
    inputs: &[Vec<A::Token>],
    seats: &mut [Seat<A>],
    places: &[(usize, usize)],
)
    requires rings { AreRings A.steps (record {
      net = net.now;
      inputs = lists inputs.now;
      seats = seats.old;
      places = places.now;
    }) }
    ensures rings { AreRings A.steps (record {
      net = net.now;
      inputs = lists inputs.now;
      seats = seats.new;
      places = places.now;
    }) }
    ensures met { HaveMet net.now seats.new places.now }
    ensures idle { AllBecame (HasIdled A.steps net.now) seats.old seats.new }
{
    for c in 0..net.channels() {
        let link = net.link(c);
        let from = end_at(places, link.from);
        let to = end_at(places, link.to);
        sync_at(alloc, seats, from, to);
    }
}

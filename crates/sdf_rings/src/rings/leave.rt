//! What the seats hold when all firings are done: the states of the actors, and the samples in the rings.

ghost use Rattle.std.specs.Prelude.{◌≡◌, List, length, IfOk, OnOk};
ghost use Rattle.rtrb.specs.Ring.{known_items};
ghost use Rattle.sdf_actor.specs.Wires.{lists};
ghost use Rattle.sdf_rings.specs.Places.{TakesAt, HoldsOfConsumer, SameButEnds, IsDrained};
ghost use Rattle.sdf_rings.specs.Rests.{IsPlaced, AreRings, HoldStates, HoldItems, HoldNetState};

use crate::rings::meet::{RingEnd, end_at, swap_ins};
use crate::seat::Seat;
use rtrb::Consumer;
use sdf_actor::{Actor, Net, NetState};
use sdf_node::kept;
use std::alloc::{AllocError, Global};

/// Returns copies of the states of all actors.
fn states_of<A: Actor>(
    alloc: Global,
    net: &Net<A>,
    seats: &[Seat<A>],
    places: &[(usize, usize)],
) -> Result<Vec<Option<A::State>>, AllocError>
    requires placed { IsPlaced net.now seats.now places.now }
    requires all { length places.now ≡ length net.now.nodes }
    ensures all { IfOk result (λ v. length v.items ≡ length net.now.nodes) }
    ensures each { IfOk result (λ v. HoldStates net.now seats.now places.now v.items) }
{
    let mut states = Vec::with_capacity(alloc, net.len())?;
    for a in 0..net.len() {
        let place = places[a];
        let ring_node = &seats[place.0].ring_nodes[place.1];
        states.push(kept(alloc, net.node(a), &ring_node.state)?)?;
    }
    Ok(states)
}

/// Takes all items that `end` is known to hold.
fn drain<T: Copy>(alloc: Global, end: &mut Consumer<T, Global>) -> Result<Vec<T>, AllocError>
    ensures { IfOk result (λ v. v.items ≡ known_items end.old) }
{
    let mut items = Vec::with_capacity(alloc, end.cached_slots())?;
    while end.cached_slots() > 0 {
        items.push(end.pop_known())?;
    }
    Ok(items)
}

/// Takes all items that the consumer at `at` is known to hold.
fn drain_at<A: Actor>(
    alloc: Global,
    seats: &mut [Seat<A>],
    at: RingEnd,
) -> Result<Vec<A::Token>, AllocError>
    requires there { TakesAt seats.old at }
    ensures items { IfOk result (λ v. HoldsOfConsumer (λ x. v.items ≡ known_items x) seats.old at) }
    ensures kept { OnOk result (IsDrained seats.old seats.new at) }
{
    let mut ins = Vec::new(alloc);
    swap_ins(seats, at.seat, at.ring_node, &mut ins);
    let items = drain(alloc, &mut ins[at.port])?;
    swap_ins(seats, at.seat, at.ring_node, &mut ins);
    Ok(items)
}

/// Takes the samples that each channel is known to hold.
fn drain_all<A: Actor>(
    alloc: Global,
    net: &Net<A>,
    seats: &mut [Seat<A>],
    places: &[(usize, usize)],
) -> Result<Vec<Vec<A::Token>>, AllocError>
    requires rings { (inputs : List (List A.Token))
        × AreRings A.steps (record { net = net.now; inputs = inputs; seats = seats.old; places = places.now }) }
    ensures all { IfOk result (λ v. length v.items ≡ length net.now.wires) }
    ensures each { IfOk result (λ v. HoldItems net.now seats.old places.now (lists v.items)) }
    ensures kept { OnOk result (SameButEnds seats.old seats.new) }
{
    let mut held = Vec::with_capacity(alloc, net.channels())?;
    for c in 0..net.channels() {
        let at = end_at(places, net.link(c).to);
        held.push(drain_at(alloc, seats, at)?)?;
    }
    Ok(held)
}

/// Returns the net state: copies of the states of all actors, and the samples on all channels. The samples are taken
/// out of the rings.
pub(crate) fn leave<A: Actor>(
    alloc: Global,
    net: &Net<A>,
    seats: &mut [Seat<A>],
    places: &[(usize, usize)],
) -> Result<NetState<A::Token, A::State>, AllocError>
    requires rings { (inputs : List (List A.Token))
        × AreRings A.steps (record { net = net.now; inputs = inputs; seats = seats.old; places = places.now }) }
    ensures rest { IfOk result (λ rest. HoldNetState net.now seats.old places.now rest) }
    ensures kept { OnOk result (SameButEnds seats.old seats.new) }
{
    Ok(NetState {
        states: states_of(alloc, net, seats, places)?,
        held: drain_all(alloc, net, seats, places)?,
    })
}

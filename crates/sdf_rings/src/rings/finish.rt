//! Moving out the lists of the sinks when all firings are done.

ghost use Rattle.std.specs.Prelude.{◌≡◌, ◌<◌, ℕ, length};
ghost use Rattle.sdf_actor.specs.declared.node.Node.TheVariants as kind;
ghost use Rattle.sdf_actor.specs.declared.sides.Lists.TheVariants.{Outputs};
ghost use Rattle.sdf_actor.specs.Sides.{list_count};
ghost use Rattle.sdf_node.specs.Collected.{IsCollected};
ghost use Rattle.sdf_rings.specs.Places.{HasRingNode, HoldsOfRingNode, OnlyRingNode};
ghost use Rattle.sdf_rings.specs.Rests.{IsPlaced, AreGiven};

use crate::seat::Seat;
use sdf_actor::{Actor, Net, Node};
use sdf_node::collect_at;

/// Moves the list of `node` from its ring node to its number in `outputs`, if the node is a sink.
fn collect_from<A: Actor>(
    node: &Node<A>,
    seats: &mut [Seat<A>],
    seat: usize,
    ring_node: usize,
    outputs: &mut [Vec<A::Token>],
)
    requires seat { seat < length seats.old }
    requires ring_node { HasRingNode seats.old seat ring_node }
    requires list { (ext block : ℕ) → node.now ≡ kind.Sink ext block → ext < length outputs.old }
    ensures list { HoldsOfRingNode (λ x. IsCollected node.now x.state outputs.old outputs.new) seats.old
        seat ring_node }
    ensures seats { OnlyRingNode seats.old seats.new seat ring_node }
{
    collect_at(node, &mut seats[seat].ring_nodes[ring_node].state, outputs);
}

/// Moves the list of each sink to its number in `outputs`. It takes no memory.
pub(crate) fn collect<A: Actor>(
    net: &Net<A>,
    seats: &mut [Seat<A>],
    places: &[(usize, usize)],
    outputs: &mut [Vec<A::Token>],
)
    requires placed { IsPlaced net.now seats.old places.now }
    requires all { length places.now ≡ length net.now.nodes }
    requires outputs { length outputs.old ≡ list_count Outputs net.now.nodes }
    ensures count { length outputs.new ≡ length outputs.old }
    ensures each { AreGiven net.now seats.old places.now (length net.now.nodes) outputs.new }
{
    for a in 0..net.len() {
        let place = places[a];
        collect_from(net.node(a), seats, place.0, place.1, outputs);
    }
}

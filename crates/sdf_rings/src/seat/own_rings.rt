//! Channels from a node to itself. Each of them is a ring too, and the ring node has both its ends. A firing must
//! know the room for what it puts before it takes. The ring is therefore larger than the channel's capacity, by the
//! greatest block that is put there.

ghost use Rattle.std.specs.Prelude.{◌≡◌, ◌<◌, [], length};
ghost use Rattle.sdf_actor.specs.Nets.{IsNet, node, inputs_of, outputs_of};
ghost use Rattle.sdf_rings.specs.Ends.{DrewEach, GaveEach};
ghost use Rattle.sdf_rings.specs.RingNodes.{OwnArePairs, OwnBegin};

use crate::rings::meet::sync_ring;
use rtrb::{Consumer, Producer};
use sdf_actor::{Actor, Net};
use sdf_node::ActorId;
use std::alloc::Global;

/// Synchronizes both ends of each ring from node `actor` to itself. `ins` and `outs` are by port.
pub(crate) fn sync_own<A: Actor>(
    net: &Net<A>,
    actor: ActorId,
    ins: &mut [Consumer<A::Token, Global>],
    outs: &mut [Producer<A::Token, Global>],
)
    requires net { IsNet A.steps net.now }
    requires known { actor < length net.now.nodes }
    requires ins { length ins.old ≡ inputs_of A.steps (node net.now actor) }
    requires outs { length outs.old ≡ outputs_of A.steps (node net.now actor) }
    requires pairs { OwnArePairs net.now actor ins.old outs.old }
    ensures ins { DrewEach ins.old ins.new (λ _. []) }
    ensures outs { GaveEach outs.old outs.new (λ _. []) }
    ensures begin { OwnBegin net.now actor ins.new outs.new }
{
    let channels = net.channels_in(actor);
    for i in 0..channels.len() {
        let link = net.link(channels[i]);
        if link.from.0 == actor {
            sync_ring(&mut ins[i], &mut outs[link.from.1]);
        }
    }
}

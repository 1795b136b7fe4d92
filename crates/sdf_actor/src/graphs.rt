//! The channels of a net's graph.

ghost use Rattle.std.specs.Prelude.{◌≡◌, ◌<◌, ℕ, length, map, slice_index_or, IfOk};
ghost use Rattle.sdf_actor.specs.Nets.{no_wire};
ghost use Rattle.sdf_actor.specs.Graphs.{channel_of};
ghost use Rattle.sdf_actor.specs.Wires.{wire_of, wires};
ghost use Rattle.sdf_actor.specs.NetFaults.{HasEnds};

use crate::actor::Actor;
use crate::link::Link;
use crate::node::Node;
use crate::sides::Side;
use sdf_graph::Channel;
use std::alloc::{AllocError, Global};

/// Returns the graph's channel for each link, in the order of `links`.
pub(crate) fn channels<A: Actor>(
    alloc: Global,
    nodes: &[Node<A>],
    links: &[Link<A::Token>],
) -> Result<Vec<Channel>, AllocError>
    requires { (c : ℕ) → c < length links.now → HasEnds A.steps nodes.now (slice_index_or (wires links.now) c no_wire) }
    ensures { IfOk result (λ v. v.items ≡ map (channel_of A.steps nodes.now) (wires links.now)) }
{
    let mut channels = Vec::new(alloc);
    for link in links {
        channels.push(channel(alloc, nodes, link)?)?;
    }
    Ok(channels)
}

/// Returns the graph's channel for `link`, with the rates of the ports at its ends.
fn channel<A: Actor>(
    alloc: Global,
    nodes: &[Node<A>],
    link: &Link<A::Token>,
) -> Result<Channel, AllocError>
    requires { HasEnds A.steps nodes.now (wire_of link.now) }
    ensures { IfOk result (λ c. c ≡ channel_of A.steps nodes.now (wire_of link.now)) }
{
    let put = nodes[link.from.0].rates(alloc, Side::Output, link.from.1)?;
    let take = nodes[link.to.0].rates(alloc, Side::Input, link.to.1)?;
    Ok(Channel {
        from: link.from.0,
        put,
        to: link.to.0,
        take,
        initial: link.initial.len(),
    })
}

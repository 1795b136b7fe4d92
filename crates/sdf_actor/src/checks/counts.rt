//! 2 ActorCount, 3 ChannelCount: the numbers of nodes and links.

ghost use Rattle.std.specs.Prelude.{MatchResult};
ghost use Rattle.sdf_actor.specs.Wires.{netlist};
ghost use Rattle.sdf_actor.specs.NetFaults.{HasCounts, CountFault};

use crate::actor::Actor;
use crate::fault::NetFault;
use crate::link::Link;
use crate::node::Node;
use sdf_graph::GraphFault;
use sdf_limits::{MAX_ACTORS, MAX_LINKS};

/// Tests the numbers of nodes and links.
pub(crate) fn check_counts<A: Actor>(
    nodes: &[Node<A>],
    links: &[Link<A::Token>],
) -> Result<(), NetFault>
    ensures { let n = netlist nodes.now links.now in MatchResult result (λ _. HasCounts n) (CountFault n) }
{
    if nodes.is_empty() || nodes.len() > MAX_ACTORS {
        return Err(NetFault::Graph(GraphFault::ActorCount));
    }
    if links.len() > MAX_LINKS {
        return Err(NetFault::Graph(GraphFault::ChannelCount));
    }
    Ok(())
}

//! 22 PortOpen: the channels at the ports of nodes.

ghost use Rattle.std.specs.Prelude.{◌≡◌, ◌==◌, ◌&&◌, ◌<◌, ℕ, [], length, map, MatchOption, MatchResult};
ghost use Rattle.std.specs.List.{range_with_len, position_or_len};
ghost use Rattle.sdf_actor.specs.declared.sides.Side.TheVariants.{Input, Output};
ghost use Rattle.sdf_actor.specs.Sides.{channel_at, end_of};
ghost use Rattle.sdf_actor.specs.Wires.{wire_of, netlist, lists};
ghost use Rattle.sdf_actor.specs.Tables.{IsPortTable};
ghost use Rattle.sdf_actor.specs.NetFaults.{HasChannels, HasPorts, OpenFault, PortFault};

use crate::actor::Actor;
use crate::fault::NetFault;
use crate::link::Link;
use crate::node::Node;
use crate::sides::Side;
use std::alloc::Global;

/// The channels into and out of each node, by port.
#[derive(Drop)]
pub(crate) struct PortTables {
    pub(crate) into: Vec<Vec<usize>>,
    pub(crate) out_of: Vec<Vec<usize>>,
}

/// Returns the channels at all ports. Errs at the first port without a channel.
pub(crate) fn port_tables<A: Actor>(
    alloc: Global,
    nodes: &[Node<A>],
    links: &[Link<A::Token>],
) -> Result<PortTables, NetFault>
    ensures { let n = netlist nodes.now links.now in
        MatchResult result
        (λ t. HasPorts A.steps n (length nodes.now)
        × IsPortTable A.steps n Input (length nodes.now) (lists t.into.items)
        × IsPortTable A.steps n Output (length nodes.now) (lists t.out_of.items))
        (PortFault A.steps n) }
{
    let mut into = Vec::new(alloc);
    let mut out_of = Vec::new(alloc);
    for (a, node) in nodes.iter().enumerate() {
        let ins = channels_at(alloc, links, a, Side::Input, node.ports(Side::Input))?;
        let outs = channels_at(alloc, links, a, Side::Output, node.ports(Side::Output))?;
        into.push(ins)?;
        out_of.push(outs)?;
    }
    Ok(PortTables { into, out_of })
}

/// Returns the channels at the first `ports` ports of `node` on `side`. Errs at the first of them without a channel.
fn channels_at<T>(
    alloc: Global,
    links: &[Link<T>],
    node: usize,
    side: Side,
    ports: usize,
) -> Result<Vec<usize>, NetFault>
    ensures { let n = netlist {A = ℕ} [] links.now in
        MatchResult result
        (λ v. (v.items ≡ map (channel_at n side node) (range_with_len 0 ports)) × HasChannels n node side ports)
        (OpenFault n node side ports) }
{
    let mut channels = Vec::new(alloc);
    for port in 0..ports {
        let Some(channel) = first_at(links, side, node, port) else {
            return Err(NetFault::PortOpen {
                actor: node,
                side,
                port,
            });
        };
        channels.push(channel)?;
    }
    Ok(channels)
}

/// Returns the first link at `port` of `node` on `side`.
fn first_at<T>(links: &[Link<T>], side: Side, node: usize, port: usize) -> Option<usize>
    ensures { let first = channel_at (netlist {A = ℕ} [] links.now) side node port in
        MatchOption result (first ≡ length links.now) (λ c. (c ≡ first) × (c < length links.now)) }
{
    for (c, link) in links.iter().enumerate() {
        if is_at(link, side, node, port) {
            return Some(c);
        }
    }
    None
}

/// Checks whether `link` ends at `port` of `node` on `side`.
fn is_at<T>(link: &Link<T>, side: Side, node: usize, port: usize) -> bool
    ensures { result ≡ ((end_of side (wire_of link.now)).0 == node && (end_of side (wire_of link.now)).1 == port) }
{
    let end = link.end(side);
    end.0 == node && end.1 == port
}

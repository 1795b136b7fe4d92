//! 20 NoPort, 21 PortTwice: the ends of links.

ghost use Rattle.std.specs.Prelude.{◌<◌, ◌↔◌, length, IsTrue, MatchBool, MatchResult};
ghost use Rattle.sdf_actor.specs.Wires.{wires, netlist};
ghost use Rattle.sdf_actor.specs.NetFaults.{HasLinks, LinkFault, IsPort, IsApart, SharesEnd};

use crate::actor::Actor;
use crate::fault::NetFault;
use crate::link::Link;
use crate::node::Node;
use crate::sides::Side;

/// Checks the ends of each link. Errs at the first link that fails.
pub(crate) fn check_links<A: Actor>(
    nodes: &[Node<A>],
    links: &[Link<A::Token>],
) -> Result<(), NetFault>
    ensures { let n = netlist nodes.now links.now in
        MatchResult result (λ _. HasLinks A.steps n (length links.now)) (LinkFault A.steps n) }
{
    for (c, link) in links.iter().enumerate() {
        if !has_port(nodes, Side::Output, link.from) || !has_port(nodes, Side::Input, link.to) {
            return Err(NetFault::NoPort { link: c });
        }
        if shares_end(links, c) {
            return Err(NetFault::PortTwice { link: c });
        }
    }
    Ok(())
}

/// Checks whether `end` is a port of one of `nodes` on `side`.
fn has_port<A: Actor>(nodes: &[Node<A>], side: Side, end: (usize, usize)) -> bool
    ensures { IsTrue result ↔ IsPort A.steps nodes.now side end }
{
    end.0 < nodes.len() && end.1 < nodes[end.0].ports(side)
}

/// Checks whether an earlier link has an end in common with link `c`.
fn shares_end<T>(links: &[Link<T>], c: usize) -> bool
    requires { c < length links.now }
    ensures { MatchBool result (SharesEnd (wires links.now) c) (IsApart (wires links.now) c) }
{
    let link = &links[c];
    for d in 0..c {
        let other = &links[d];
        if other.from == link.from || other.to == link.to {
            return true;
        }
    }
    false
}

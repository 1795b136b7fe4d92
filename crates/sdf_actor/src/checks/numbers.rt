//! 5 BadRate, 63 CycleLength, 6 InitialCount: the rates, cycles and initial samples of channels. No list of rates is
//! allocated here, so a cycle may be of any length.

ghost use Rattle.std.specs.Prelude.{◌≡◌, ◌<◌, ◌&&◌, length, nat_le, Some, None, MatchResult, if◌then◌else◌};
ghost use Rattle.sdf_graph.specs.Faults.{are_rates, is_within, numbers_fault, IsFirstFault};
ghost use Rattle.sdf_graph.specs.declared.fault.GraphFault.TheVariants.{BadRate, CycleLength, InitialCount};
ghost use Rattle.sdf_actor.specs.declared.sides.Side.TheVariants.{Input, Output};
ghost use Rattle.sdf_actor.specs.Nets.{inputs_of, outputs_of, cycle_of};
ghost use Rattle.sdf_actor.specs.Graphs.{rates_at, graph_of};
ghost use Rattle.sdf_actor.specs.Wires.{netlist};
ghost use Rattle.sdf_actor.specs.NetFaults.{HasCounts, HasLinks};

use crate::actor::Actor;
use crate::link::Link;
use crate::node::Node;
use crate::sides::Side;
use sdf_graph::GraphFault;
use sdf_limits::{MAX_CYCLE, MAX_INITIAL};

/// Checks the rates, cycles and initial samples of each channel, and returns the first fault.
pub(crate) fn check_numbers<A: Actor>(
    nodes: &[Node<A>],
    links: &[Link<A::Token>],
) -> Result<(), GraphFault>
    requires counts { HasCounts (netlist nodes.now links.now) }
    requires links { HasLinks A.steps (netlist nodes.now links.now) (length links.now) }
    ensures { let g = graph_of A.steps (netlist nodes.now links.now) in
        MatchResult result (λ _. numbers_fault g ≡ None) (IsFirstFault g) }
{
    for (c, link) in links.iter().enumerate() {
        if let Some(fault) = channel_fault(&nodes[link.from.0], &nodes[link.to.0], link, c) {
            return Err(fault);
        }
    }
    Ok(())
}

/// Returns the first fault of the rates, cycles and initial samples of channel `c`: `link`, between the nodes `from`
/// and `to`.
fn channel_fault<A: Actor>(
    from: &Node<A>,
    to: &Node<A>,
    link: &Link<A::Token>,
    c: usize,
) -> Option<GraphFault>
    requires from { link.now.from.1 < outputs_of A.steps from.now }
    requires to { link.now.to.1 < inputs_of A.steps to.now }
    ensures { let put = rates_at A.steps Output from.now link.now.from.1 in
        let take = rates_at A.steps Input to.now link.now.to.1 in
        result ≡ if are_rates put && are_rates take then (
        if is_within 1 MAX_CYCLE (cycle_of A.steps from.now) && is_within 1 MAX_CYCLE (cycle_of A.steps to.now) then (
        if nat_le (length link.now.initial.items) MAX_INITIAL then None else Some (InitialCount c)
        ) else Some (CycleLength c)
        ) else Some (BadRate c) }
{
    if !from.has_rates(Side::Output, link.from.1) || !to.has_rates(Side::Input, link.to.1) {
        Some(GraphFault::BadRate { channel: c })
    } else if !from.has_cycle() || !to.has_cycle() {
        Some(GraphFault::CycleLength { channel: c })
    } else if link.initial.len() > MAX_INITIAL {
        Some(GraphFault::InitialCount { channel: c })
    } else {
        None
    }
}

//! The lists that the sinks of a run by rows make.

ghost use Rattle.std.specs.Prelude.{◌≡◌, length};
ghost use Rattle.sdf_actor.specs.declared.sides.Lists.TheVariants.{Outputs};
ghost use Rattle.sdf_actor.specs.Sides.{list_count};
ghost use Rattle.sdf_rows.specs.Collect.{AreCollected};

use sdf_actor::{Actor, Net};
use sdf_node::{NodeState, collect_at};

/// Moves the lists out of the states of all sinks, each to its number in `outputs`.
pub(crate) fn collect<A: Actor>(
    net: &Net<A>,
    states: &mut [NodeState<A::Token, A::State>],
    outputs: &mut [Vec<A::Token>],
)
    requires states { length states.old ≡ length net.now.nodes }
    requires outputs { length outputs.old ≡ list_count Outputs net.now.nodes }
    ensures all { length outputs.new ≡ length outputs.old }
    ensures lists { AreCollected net.now (length net.now.nodes) states.old outputs.new }
{
    for a in 0..net.len() {
        collect_at(net.node(a), &mut states[a], outputs);
    }
}

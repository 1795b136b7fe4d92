//! The lists that sinks make.

ghost use Rattle.std.specs.Prelude.{◌≡◌, ◌<◌, ℕ, length};
ghost use Rattle.std.specs.declared.vec.Vec.{Vec};
ghost use Rattle.std.specs.Global.{Global};
ghost use Rattle.sdf_actor.specs.declared.node.Node.TheVariants as kind;
ghost use Rattle.sdf_node.specs.declared.node.NodeState.TheVariants.{Sink};
ghost use Rattle.sdf_node.specs.Collected.{IsCollected, KeepsOthers};

use crate::node::NodeState;
use sdf_actor::{Actor, Node};
use std::mem;

/// Swaps the list of a sink with `list`.
fn swap_list<T, S>(state: &mut NodeState<T, S>, list: &mut Vec<T>)
    ensures { (made : Vec T Global) → state.old ≡ Sink made → list.new ≡ made }
{
    if let NodeState::Sink(made) = state {
        mem::swap(made, list);
    }
}

/// Moves the list of a sink to its number in `outputs`, and does nothing for other nodes. Allocates no memory.
pub fn collect_at<A: Actor>(
    node: &Node<A>,
    state: &mut NodeState<A::Token, A::State>,
    outputs: &mut [Vec<A::Token>],
)
    requires { (ext block : ℕ) → node.now ≡ kind.Sink ext block → ext < length outputs.old }
    ensures collected { IsCollected node.now state.old outputs.old outputs.new }
    ensures others { KeepsOthers node.now state.old state.new }
{
    match node {
        Node::Sink { ext, .. } => swap_list(state, &mut outputs[usize::from(*ext)]),
        Node::Source { .. } => {}
        Node::Inner(_) => {}
    }
}

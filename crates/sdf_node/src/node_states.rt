//! The states that node runtimes keep for the next run.

ghost use Rattle.std.specs.Prelude.{◌≡◌, IfOk};
ghost use Rattle.sdf_node.specs.Kept.{kept_state};

use crate::node::NodeState;
use sdf_actor::{Actor, Node};
use std::alloc::{AllocError, Global};

/// Returns a copy of the state of an actor, or `None` for a source or a sink.
pub fn kept<A: Actor>(
    alloc: Global,
    node: &Node<A>,
    state: &NodeState<A::Token, A::State>,
) -> Result<Option<A::State>, AllocError>
    ensures { IfOk result (λ copy. copy ≡ kept_state node.now state.now) }
{
    match node {
        Node::Inner(actor) => match state {
            NodeState::Inner(_, inner) => Ok(Some(actor.again(alloc, inner)?)),
            _ => Ok(None),
        },
        _ => Ok(None),
    }
}

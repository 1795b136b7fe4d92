//! Laws of node runtimes. Each law is the contract of a function with an empty body.

ghost use Rattle.sdf_node.specs.Collected.{SinksHoldLists};
ghost use Rattle.sdf_node.specs.Laws.{NodesCanStep, NodesKeepPhase, NodesCanStepMany, BlocksJoin};
ghost use Rattle.sdf_node.specs.Kept.{NodesKeepStates};

use sdf_actor::Actor;
pub use sdf_actor::laws::{locals_are_history, locals_grow};

/// States that a node with firings left can do the next one, and is at the phase of that firing.
pub fn nodes_can_step<A: Actor>()
    ensures steps { NodesCanStep A.steps }
    ensures phases { NodesKeepPhase A.steps }
{}

/// States that a node of one phase can do any number of its remaining firings in one batch.
pub fn nodes_can_step_many<A: Actor>()
    ensures { NodesCanStepMany A.steps }
{}

/// States that consecutive blocks of one size, joined, are the list that they were cut from.
pub fn blocks_join<T>()
    ensures { BlocksJoin T }
{}

/// States that a sink's list is all that the sink took.
pub fn sinks_hold_lists<A: Actor>()
    ensures { SinksHoldLists A.steps }
{}

/// States that the state of a node follows from all that it took.
pub fn nodes_keep_states<A: Actor>()
    ensures { NodesKeepStates A.steps }
{}

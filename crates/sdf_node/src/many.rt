//! Batched firings of a node.

ghost use Rattle.std.specs.Prelude.{◌≡◌, ◌<◌, ◌++◌, ℕ, List, length};
ghost use Rattle.sdf_actor.specs.Nets.{answer_of};
ghost use Rattle.sdf_actor.specs.Wires.{lists};
ghost use Rattle.sdf_node.specs.Nodes.{takes_of, puts_of, IsAt};
ghost use Rattle.sdf_node.specs.Many.{nth_block, listed, AreFullBlocks, CanStepMany};

use crate::node::{NodeState, append, read_input};
use sdf_actor::{Actor, Node};

/// Fires a node of one phase `many` times. `taken` and `put` hold the blocks of the firings, one after another.
/// Allocates no memory.
pub fn step_many<A: Actor>(
    node: &Node<A>,
    inputs: &[Vec<A::Token>],
    state: &mut NodeState<A::Token, A::State>,
    many: usize,
    taken: &[A::Token],
    put: &mut [A::Token],
)
    requires { CanStepMany A.steps (lists inputs.now) node.now state.old many (length taken.now) (length put.old) }
    ensures len { length put.new ≡ length put.old }
    ensures state { (all : ℕ) (past : List (List A.Token)) →
        IsAt A.steps (lists inputs.now) all node.now past state.old →
        IsAt A.steps (lists inputs.now) all node.now
        (past ++ listed (nth_block (takes_of A.steps node.now 0) taken.now) many) state.new }
    ensures put { (all : ℕ) (past : List (List A.Token)) → IsAt A.steps (lists inputs.now) all node.now past state.old →
        AreFullBlocks A.steps node.now past →
        (i : ℕ) → i < many → nth_block (puts_of A.steps node.now 0) put.new i ≡
        answer_of A.steps (lists inputs.now) node.now
        (past ++ listed (nth_block (takes_of A.steps node.now 0) taken.now) i)
        (nth_block (takes_of A.steps node.now 0) taken.now i) }
{
    match node {
        Node::Source { ext, .. } => match state {
            NodeState::Source(next) => {
                *next = read_input(inputs, usize::from(*ext), *next, put);
            }
            _ => unreachable!(),
        },
        Node::Sink { .. } => match state {
            NodeState::Sink(list) => append(list, taken),
            _ => unreachable!(),
        },
        Node::Inner(actor) => match state {
            NodeState::Inner(phase, inner) => actor.fire_many(*phase, many, inner, taken, put),
            _ => unreachable!(),
        },
    }
}

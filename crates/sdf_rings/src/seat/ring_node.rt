//! A node at work, with its ends of rings.

ghost use Rattle.std.specs.Prelude.{◌≡◌, ◌+◌, ◌<◌, ◌≤◌, ◌++◌, ◌∷◌, [], ℕ, List, length, take, slice_index, IsTrue};
ghost use Rattle.std.specs.Prelude.{IsFalse};
ghost use Rattle.sdf_actor.specs.Nets.{answer_of, node, inputs_of, outputs_of, IsNet};
ghost use Rattle.sdf_actor.specs.Wires.{lists};
ghost use Rattle.sdf_node.specs.Nodes.{CanStep, IsAt};
ghost use Rattle.sdf_rings.specs.Blocks.{start_at, block_of};
ghost use Rattle.sdf_rings.specs.Ends.{DrewEach, GaveEach, HoldsEach, HasRoomEach};
ghost use Rattle.sdf_queues.specs.Sizes.{at_phase};
ghost use Rattle.sdf_rings.specs.RingNodes.{OwnArePairs, OwnBegin, IsRingNode, CanFire, HasMoved};

use crate::seat::ends::{each_has_room, each_holds, put_each, take_each};
use crate::seat::own_rings::sync_own;
use rtrb::{Consumer, Producer};
use sdf_actor::{Actor, Net, Node};
use sdf_node::{ActorId, NodeState, puts, step, takes};
use std::alloc::Global;

/// A node with its state, its ring ends by port, and its working blocks. It holds no reference.
#[derive(Drop)]
pub struct RingNode<A: Actor> {
    pub actor: ActorId,
    pub state: NodeState<A::Token, A::State>,
    pub ins: Vec<Consumer<A::Token, Global>>,
    pub outs: Vec<Producer<A::Token, Global>>,
    /// Samples that a firing takes, by phase and then by port.
    pub takes: Vec<Vec<usize>>,
    /// Samples that a firing puts, by phase and then by port.
    pub puts: Vec<Vec<usize>>,
    /// A working block, with the input of a firing or a batch at its front.
    pub taken: Vec<A::Token>,
    /// A working block, with the output of a firing or a batch at its front.
    pub put: Vec<A::Token>,
    /// Firings done.
    pub done: u64,
    /// Firings asked of the node in the whole run.
    pub asked: u64,
}

/// Returns the row of `phase`.
pub(crate) fn row(rows: &Vec<Vec<usize>>, phase: u32) -> &[usize]
    requires { phase < length (lists rows.now.items) }
    ensures { result.now ≡ at_phase (lists rows.now.items) phase }
{
    rows[phase as usize].as_slice()
}

/// Takes a block at each port into the front of `taken`, `many` samples in all.
fn take_front<T: Copy>(
    sizes: &[usize],
    ends: &mut [Consumer<T, Global>],
    taken: &mut [T],
    many: usize,
)
    requires ports { length ends.old ≡ length sizes.now }
    requires many { many ≡ start_at (slice_index sizes.now) (length ends.old) }
    requires long { many ≤ length taken.old }
    requires known { HoldsEach (slice_index sizes.now) ends.old }
    ensures { DrewEach ends.old ends.new (λ i. block_of (slice_index sizes.now) i (take many taken.new)) }
{
    let (front, _) = taken.split_at_mut(many);
    take_each(sizes, ends, front);
}

/// Fires `node` on the block `taken`, and writes what it puts to the front of `put`, `many` samples.
fn step_front<A: Actor>(
    node: &Node<A>,
    inputs: &[Vec<A::Token>],
    state: &mut NodeState<A::Token, A::State>,
    taken: &[A::Token],
    put: &mut [A::Token],
    many: usize,
)
    requires can { CanStep A.steps (lists inputs.now) node.now state.old (length taken.now) many }
    requires long { many ≤ length put.old }
    ensures state { (all : ℕ) (past : List (List A.Token)) →
        IsAt A.steps (lists inputs.now) all node.now past state.old →
        IsAt A.steps (lists inputs.now) all node.now (past ++ taken.now ∷ []) state.new }
    ensures put { (all : ℕ) (past : List (List A.Token)) → IsAt A.steps (lists inputs.now) all node.now past state.old →
        take many put.new ≡ answer_of A.steps (lists inputs.now) node.now past taken.now }
{
    let (front, _) = put.split_at_mut(many);
    step(node, inputs, state, taken, front);
}

/// Puts a block at each port, after the rings from the node to itself are synchronized.
fn sync_and_put<A: Actor>(
    net: &Net<A>,
    actor: ActorId,
    sizes: &[usize],
    ins: &mut [Consumer<A::Token, Global>],
    outs: &mut [Producer<A::Token, Global>],
    put: &[A::Token],
)
    requires net { IsNet A.steps net.now }
    requires known { actor < length net.now.nodes }
    requires ins { length ins.old ≡ inputs_of A.steps (node net.now actor) }
    requires outs { length outs.old ≡ outputs_of A.steps (node net.now actor) }
    requires pairs { OwnArePairs net.now actor ins.old outs.old }
    requires ports { length outs.old ≡ length sizes.now }
    requires length { length put.now ≡ start_at (slice_index sizes.now) (length outs.old) }
    requires room { HasRoomEach (slice_index sizes.now) outs.old }
    ensures looked { DrewEach ins.old ins.new (λ _. []) }
    ensures gave { GaveEach outs.old outs.new (λ i. block_of (slice_index sizes.now) i put.now) }
    ensures begin { OwnBegin net.now actor ins.new outs.old }
{
    sync_own(net, actor, ins, outs);
    put_each(sizes, outs, put);
}

/// Takes all blocks, fires, and puts all blocks. The caller has to count the firing.
fn fire_blocks<A: Actor>(net: &Net<A>, inputs: &[Vec<A::Token>], ring_node: &mut RingNode<A>)
    requires net { IsNet A.steps net.now }
    requires ring_node { IsRingNode A.steps net.now (lists inputs.now) ring_node.old }
    requires can { CanFire A.steps net.now ring_node.old }
    requires left { ring_node.old.done < ring_node.old.asked }
    ensures fired { IsRingNode A.steps net.now (lists inputs.now)
        (record ring_node.new { done = ring_node.old.done + 1 })
        × HasMoved A.steps net.now ring_node.old (record ring_node.new { done = ring_node.old.done + 1 }) }
    ensures done { ring_node.new.done ≡ ring_node.old.done }
{
    let node = net.node(ring_node.actor);
    let phase = ring_node.state.phase();
    let many = takes(node, phase);
    let more = puts(node, phase);
    take_front(
        row(&ring_node.takes, phase),
        ring_node.ins.as_mut_slice(),
        ring_node.taken.as_mut_slice(),
        many,
    );
    step_front(
        node,
        inputs,
        &mut ring_node.state,
        &ring_node.taken[..many],
        ring_node.put.as_mut_slice(),
        more,
    );
    sync_and_put(
        net,
        ring_node.actor,
        row(&ring_node.puts, phase),
        ring_node.ins.as_mut_slice(),
        ring_node.outs.as_mut_slice(),
        &ring_node.put[..more],
    );
}

/// Does one firing of `ring_node` and counts it.
pub(crate) fn fire_one<A: Actor>(
    net: &Net<A>,
    inputs: &[Vec<A::Token>],
    ring_node: &mut RingNode<A>,
)
    requires net { IsNet A.steps net.now }
    requires ring_node { IsRingNode A.steps net.now (lists inputs.now) ring_node.old }
    requires can { CanFire A.steps net.now ring_node.old }
    requires left { ring_node.old.done < ring_node.old.asked }
    ensures ring_node { IsRingNode A.steps net.now (lists inputs.now) ring_node.new }
    ensures moved { HasMoved A.steps net.now ring_node.old ring_node.new }
    ensures done { ring_node.new.done ≡ ring_node.old.done + 1 }
{
    fire_blocks(net, inputs, ring_node);
    ring_node.done += 1;
}

/// Checks whether the next firing of `ring_node` is known to be possible.
pub(crate) fn is_ready<A: Actor>(
    net: &Net<A>,
    inputs: &[Vec<A::Token>],
    ring_node: &mut RingNode<A>,
) -> bool
    requires { IsRingNode A.steps net.now (lists inputs.now) ring_node.old }
    ensures ring_node { IsRingNode A.steps net.now (lists inputs.now) ring_node.new }
    ensures moved { HasMoved A.steps net.now ring_node.old ring_node.new }
    ensures done { ring_node.new.done ≡ ring_node.old.done }
    ensures yes { IsTrue result → CanFire A.steps net.now ring_node.new }
    ensures no { IsFalse result → CanFire A.steps net.now ring_node.new → ⊥ }
{
    let phase = ring_node.state.phase();
    if !each_holds(row(&ring_node.takes, phase), ring_node.ins.as_mut_slice()) {
        return false;
    }
    each_has_room(row(&ring_node.puts, phase), ring_node.outs.as_mut_slice())
}

//! Batched firings of one node: all that its ring ends and working blocks allow go in one batch.

ghost use Rattle.std.specs.Prelude.{◌≡◌, ◌+◌, ◌*◌, ◌<◌, ◌≤◌, ◌^◌, ◌++◌, ℕ, List, length, take, slice_index, IsTrue};
ghost use Rattle.sdf_actor.specs.Nets.{answer_of, wire, IsNet};
ghost use Rattle.sdf_actor.specs.Wires.{lists};
ghost use Rattle.sdf_node.specs.Nodes.{takes_of, puts_of, IsAt};
ghost use Rattle.sdf_node.specs.Many.{nth_block, listed, AreFullBlocks, CanStepMany};
ghost use Rattle.sdf_rings.specs.RingNodes.{IsRingNode, HasMoved};
ghost use Rattle.sdf_rings.specs.Batches.{CanBatch, CanRun};

use crate::seat::ring_node::{RingNode, row};
use crate::seat::run_ends::{BatchBlocks, blocks_free, blocks_held};
use sdf_actor::{Actor, Net, Node};
use sdf_node::{ActorId, Gate, NodeState, puts, step_many, takes};
use sdf_queues::many_blocks::whole_blocks;

/// Checks whether node `actor` has no channel to itself.
fn has_no_self_loop<A: Actor>(net: &Net<A>, actor: ActorId) -> bool
    requires net { IsNet A.steps net.now }
    requires known { actor < length net.now.nodes }
    ensures { IsTrue result → (c : ℕ) → c < length net.now.wires → (wire net.now c).from.0 ≡ actor →
        (wire net.now c).to.0 ≡ actor → ⊥ }
{
    let channels = net.channels_in(actor);
    for i in 0..channels.len() {
        if net.link(channels[i]).from.0 == actor {
            return false;
        }
    }
    true
}

/// Checks whether the firings of `actor` can be batched: it has one phase and no channel to itself.
fn can_batch<A: Actor>(net: &Net<A>, actor: ActorId) -> bool
    requires net { IsNet A.steps net.now }
    requires known { actor < length net.now.nodes }
    ensures { IsTrue result → CanBatch A.steps net.now actor }
{
    net.node(actor).cycle() == 1 && has_no_self_loop(net, actor)
}

/// Passes `gate` before each of `many` firings, in order. The first has number `done`.
fn pass_gate<G: Gate>(gate: &G, processor: usize, actor: ActorId, done: u64, many: usize)
    requires { done + many < 2 ^ 64 }
{
    for i in 0..many {
        gate.before(processor, actor, done + i as u64);
    }
}

/// Fires `node` `outs.many` times on the blocks in `taken`, and writes what it puts to the front of `put`.
fn step_front_many<A: Actor>(
    node: &Node<A>,
    inputs: &[Vec<A::Token>],
    state: &mut NodeState<A::Token, A::State>,
    taken: &[A::Token],
    outs: &BatchBlocks<'_>,
    put: &mut [A::Token],
)
    requires can { CanStepMany A.steps (lists inputs.now) node.now state.old outs.now.many (length taken.now)
        (outs.now.size * outs.now.many) }
    requires long { outs.now.size * outs.now.many ≤ length put.old }
    ensures state { (asked : ℕ) (past : List (List A.Token)) →
        IsAt A.steps (lists inputs.now) asked node.now past state.old →
        IsAt A.steps (lists inputs.now) asked node.now
        (past ++ listed (nth_block (takes_of A.steps node.now 0) taken.now) outs.now.many) state.new }
    ensures put { (asked : ℕ) (past : List (List A.Token)) →
        IsAt A.steps (lists inputs.now) asked node.now past state.old → AreFullBlocks A.steps node.now past →
        (i : ℕ) → i < outs.now.many →
        nth_block (puts_of A.steps node.now 0) (take (outs.now.size * outs.now.many) put.new) i ≡
        answer_of A.steps (lists inputs.now) node.now
        (past ++ listed (nth_block (takes_of A.steps node.now 0) taken.now) i)
        (nth_block (takes_of A.steps node.now 0) taken.now i) }
{
    let (front, _) = put.split_at_mut(outs.size * outs.many);
    step_many(node, inputs, state, outs.many, taken, front);
}

/// Takes the blocks of `many` firings, fires, and puts their blocks. The caller has to count the firings.
fn fire_batch_blocks<A: Actor>(
    net: &Net<A>,
    inputs: &[Vec<A::Token>],
    ring_node: &mut RingNode<A>,
    many: usize,
)
    requires net { IsNet A.steps net.now }
    requires ring_node { IsRingNode A.steps net.now (lists inputs.now) ring_node.old }
    requires can { CanRun A.steps net.now ring_node.old many }
    ensures fired { IsRingNode A.steps net.now (lists inputs.now)
        (record ring_node.new { done = ring_node.old.done + many })
        × HasMoved A.steps net.now ring_node.old (record ring_node.new { done = ring_node.old.done + many }) }
    ensures done { ring_node.new.done ≡ ring_node.old.done }
    ensures asked { ring_node.new.asked ≡ ring_node.old.asked }
{
    let node = net.node(ring_node.actor);
    let ins = BatchBlocks {
        sizes: row(&ring_node.takes, 0),
        size: takes(node, 0),
        many,
    };
    let outs = BatchBlocks {
        sizes: row(&ring_node.puts, 0),
        size: puts(node, 0),
        many,
    };
    ins.take_front(
        ring_node.ins.as_mut_slice(),
        ring_node.taken.as_mut_slice(),
        ring_node.put.as_mut_slice(),
    );
    step_front_many(
        node,
        inputs,
        &mut ring_node.state,
        &ring_node.taken[..ins.size * many],
        &outs,
        ring_node.put.as_mut_slice(),
    );
    outs.put(
        ring_node.outs.as_mut_slice(),
        &ring_node.put[..outs.size * many],
        ring_node.taken.as_mut_slice(),
    );
}

/// Returns how many firings of `ring_node` in a row are known to be possible, at most `most`. Its node must have one
/// phase and no channel to itself.
fn ready_firings<A: Actor>(
    net: &Net<A>,
    inputs: &[Vec<A::Token>],
    ring_node: &RingNode<A>,
    most: usize,
) -> usize
    requires net { IsNet A.steps net.now }
    requires ring_node { IsRingNode A.steps net.now (lists inputs.now) ring_node.now }
    requires goes { CanBatch A.steps net.now ring_node.now.actor }
    requires left { ring_node.now.done + most ≤ ring_node.now.asked }
    ensures within { result ≤ most }
    ensures can { CanRun A.steps net.now ring_node.now result }
{
    let node = net.node(ring_node.actor);
    let mut many = whole_blocks(ring_node.taken.len(), takes(node, 0), most);
    many = whole_blocks(ring_node.put.len(), puts(node, 0), many);
    many = blocks_held(row(&ring_node.takes, 0), ring_node.ins.as_slice(), many);
    blocks_free(row(&ring_node.puts, 0), ring_node.outs.as_slice(), many)
}

/// Fires `ring_node` `many` times in one batch. Before that it passes `gate` once for each firing.
pub(crate) fn fire_batch<A: Actor, G: Gate>(
    net: &Net<A>,
    inputs: &[Vec<A::Token>],
    ring_node: &mut RingNode<A>,
    processor: usize,
    many: usize,
    gate: &G,
)
    requires net { IsNet A.steps net.now }
    requires ring_node { IsRingNode A.steps net.now (lists inputs.now) ring_node.old }
    requires can { CanRun A.steps net.now ring_node.old many }
    ensures ring_node { IsRingNode A.steps net.now (lists inputs.now) ring_node.new }
    ensures moved { HasMoved A.steps net.now ring_node.old ring_node.new }
    ensures done { ring_node.new.done ≡ ring_node.old.done + many }
{
    pass_gate(gate, processor, ring_node.actor, ring_node.done, many);
    fire_batch_blocks(net, inputs, ring_node, many);
    ring_node.done += many as u64;
}

/// Returns how many firings of `ring_node` go in one batch, at most `most`: 0 if the node's firings cannot be batched.
pub(crate) fn batch_size<A: Actor>(
    net: &Net<A>,
    inputs: &[Vec<A::Token>],
    ring_node: &RingNode<A>,
    most: usize,
) -> usize
    requires net { IsNet A.steps net.now }
    requires ring_node { IsRingNode A.steps net.now (lists inputs.now) ring_node.now }
    requires left { ring_node.now.done + most ≤ ring_node.now.asked }
    ensures within { result ≤ most }
    ensures can { 0 < result → CanRun A.steps net.now ring_node.now result }
{
    if can_batch(net, ring_node.actor) {
        ready_firings(net, inputs, ring_node, most)
    } else {
        0
    }
}

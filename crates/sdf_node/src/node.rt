//! Node runtimes, whatever holds the nodes' channels: queues, rings, or the blocks of a row.

ghost use Rattle.std.specs.Prelude.{◌≡◌, ◌+◌, ◌≤◌, ◌<◌, ◌++◌, ◌∷◌, [], ℕ, List, length, slice_range, slice_index_or};
ghost use Rattle.std.specs.Prelude.{vec_len, vec_capacity, IfOk};
ghost use Rattle.sdf_actor.specs.Nets.{answer_of, cycle_of};
ghost use Rattle.sdf_actor.specs.Wires.{lists};
ghost use Rattle.sdf_node.specs.Nodes.{phase_at, takes_of, puts_of, CanStep, CanBegin, IsAt, IsMaxSamples};

use sdf_actor::actor::next_phase;
use sdf_actor::{Actor, Node};
use std::alloc::{AllocError, Global};
use std::mem;

/// The runtime state of a node: what it keeps from one firing to the next. It holds no reference.
#[derive(Drop)]
pub enum NodeState<T, S> {
    /// The place in the input list of the next sample to read.
    Source(usize),
    /// The output list, with room for all samples that are still to come.
    Sink(Vec<T>),
    /// The phase of an actor's next firing, and its state.
    Inner(u32, S),
}

impl<T, S> NodeState<T, S> {
    /// Returns the phase of the next firing.
    pub fn phase(&self) -> u32
        ensures { result ≡ phase_at self.now }
    {
        match self {
            NodeState::Inner(phase, _) => *phase,
            _ => 0,
        }
    }
}

/// Returns how many samples a firing at `phase` takes at all ports.
pub fn takes<A: Actor>(node: &Node<A>, phase: u32) -> usize
    requires { phase < cycle_of A.steps node.now }
    ensures { result ≡ takes_of A.steps node.now phase }
{
    match node {
        Node::Source { .. } => 0,
        Node::Sink { block, .. } => *block as usize,
        Node::Inner(actor) => actor.samples_in(phase),
    }
}

/// Returns how many samples a firing at `phase` puts on all ports.
pub fn puts<A: Actor>(node: &Node<A>, phase: u32) -> usize
    requires { phase < cycle_of A.steps node.now }
    ensures { result ≡ puts_of A.steps node.now phase }
{
    match node {
        Node::Source { block, .. } => *block as usize,
        Node::Sink { .. } => 0,
        Node::Inner(actor) => actor.samples_out(phase),
    }
}

/// Returns a number of samples that no firing exceeds, neither by what it takes at all ports nor by what it puts.
pub fn max_samples<A: Actor>(node: &Node<A>) -> usize
    ensures { IsMaxSamples A.steps node.now result }
{
    let mut max_samples = 0;
    for phase in 0..node.cycle() {
        max_samples = max_samples.max(takes(node, phase)).max(puts(node, phase));
    }
    max_samples
}

/// Returns the state of a node before its first firing. The list of a sink gets room for `room` samples.
pub fn begin<A: Actor>(
    alloc: Global,
    node: &Node<A>,
    room: usize,
) -> Result<NodeState<A::Token, A::State>, AllocError>
    ensures { IfOk result (λ w. (inputs : List (List A.Token)) (many : ℕ) → CanBegin inputs many room node.now →
        IsAt A.steps inputs many node.now [] w) }
{
    match node {
        Node::Source { .. } => Ok(NodeState::Source(0)),
        Node::Sink { .. } => Ok(NodeState::Sink(Vec::with_capacity(alloc, room)?)),
        Node::Inner(actor) => Ok(NodeState::Inner(0, actor.start(alloc)?)),
    }
}

/// Appends `block` to `list`, which has room for it.
pub fn append<T: Copy>(list: &mut Vec<T>, block: &[T])
    requires { vec_len list.old + length block.now ≤ vec_capacity list.old }
    ensures items { list.new.items ≡ list.old.items ++ block.now }
    ensures len { vec_len list.new ≡ vec_len list.old + length block.now }
    ensures capacity { vec_capacity list.new ≡ vec_capacity list.old }
{
    // A local list keeps its length in a register, so the compiler can copy several samples at a time.
    let mut longer = mem::replace(list, Vec::new(*list.allocator()));
    for sample in block {
        longer.push_reserved(*sample);
    }
    *list = longer;
}

fn read_block<T: Copy>(list: &[T], next: usize, put: &mut [T]) -> usize
    requires { next + length put.old ≤ length list.now }
    ensures next { result ≡ next + length put.old }
    ensures put { put.new ≡ slice_range list.now next (next + length put.old) }
{
    let end = next + put.len();
    put.copy_from_slice(&list[next..end]);
    end
}

/// Reads the samples of input list `ext` from `next` on into `put`, and returns the place behind them.
pub(crate) fn read_input<T: Copy>(
    inputs: &[Vec<T>],
    ext: usize,
    next: usize,
    put: &mut [T],
) -> usize
    requires list { ext < length inputs.now }
    requires samples { next + length put.old ≤ length (slice_index_or (lists inputs.now) ext []) }
    ensures next { result ≡ next + length put.old }
    ensures put { put.new ≡ slice_range (slice_index_or (lists inputs.now) ext []) next (next + length put.old) }
{
    read_block(inputs[ext].as_slice(), next, put)
}

/// Fires a node once, from the block `taken` to the block `put`. Allocates no memory.
pub fn step<A: Actor>(
    node: &Node<A>,
    inputs: &[Vec<A::Token>],
    state: &mut NodeState<A::Token, A::State>,
    taken: &[A::Token],
    put: &mut [A::Token],
)
    requires { CanStep A.steps (lists inputs.now) node.now state.old (length taken.now) (length put.old) }
    ensures len { length put.new ≡ length put.old }
    ensures state { (many : ℕ) (past : List (List A.Token)) →
        IsAt A.steps (lists inputs.now) many node.now past state.old →
        IsAt A.steps (lists inputs.now) many node.now (past ++ taken.now ∷ []) state.new }
    ensures put { (many : ℕ) (past : List (List A.Token)) →
        IsAt A.steps (lists inputs.now) many node.now past state.old →
        put.new ≡ answer_of A.steps (lists inputs.now) node.now past taken.now }
{
    match node {
        Node::Source { ext, .. } => match state {
            NodeState::Source(next) => {
                *next = read_input(inputs, usize::from(*ext), *next, put);
            }
            _ => unreachable!(),
        },
        Node::Sink { .. } => match state {
            NodeState::Sink(list) => append(list, taken),
            _ => unreachable!(),
        },
        Node::Inner(actor) => match state {
            NodeState::Inner(phase, inner) => {
                actor.fire(*phase, inner, taken, put);
                *phase = next_phase(*phase, actor.cycle());
            }
            _ => unreachable!(),
        },
    }
}

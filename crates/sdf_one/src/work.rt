//! Node runtimes.

ghost use Rattle.std.specs.Prelude.{◌≡◌, ◌+◌, ◌*◌, ◌%◌, ◌^◌, ◌<◌, ◌≤◌, ◌++◌, ℕ, length, slice_index, take, drop};
ghost use Rattle.std.specs.Prelude.{IsTrue, false};
ghost use Rattle.sdf_actor.specs.Histories.{spread};
ghost use Rattle.sdf_actor.specs.Steps.{sum_in, sum_out, state_at, puts_to};
ghost use Rattle.sdf_actor.specs.Wires.{lists};
ghost use Rattle.sdf_one.specs.AtOnce.{fronts};
ghost use Rattle.sdf_queues.specs.Blocks.{samples, room, at_ports, ArePorts, KeepRoom};

use crate::block::{block_size, put_fronts, take_fronts};
use crate::cycles::is_in_turn;
use sdf_actor::{Actor, Side};
use sdf_node::append;
use sdf_queues::blocks::Ports;
use sdf_queues::many_blocks::whole_blocks;
use sdf_queues::queue::{Batch, lengthen};
use sdf_queues::{Queue, Sizes};

/// The runtime of a node: what it does in a firing.
#[derive(Drop)]
pub(crate) enum Work<'a, A: Actor> {
    /// A source: it reads the next block of an input list.
    Source {
        ext: usize,
        next: usize,
        block: usize,
    },
    /// A sink: it adds the block that it takes to an output list.
    Sink {
        ext: usize,
    },
    /// An actor: it fires from the block `taken` to the block `put`.
    Inner {
        actor: &'a A,
        phase: u32,
        state: A::State,
        taken: Vec<A::Token>,
        put: Vec<A::Token>,
    },
}

/// The ports of a node on both sides.
#[derive(Clone, Copy)]
pub(crate) struct NodePorts<'a> {
    pub(crate) ins: Ports<'a>,
    pub(crate) outs: Ports<'a>,
}

/// Fires an actor in one batch on the first `all` samples of `taken`. Its `many` samples of output go to the front of
/// `put`.
fn fire_many_into<A: Actor>(
    batch: Batch<'_, A>,
    state: &mut A::State,
    taken: &Vec<A::Token>,
    all: usize,
    put: &mut Vec<A::Token>,
    many: usize,
)
    requires phase { batch.phase < A.steps.cycle batch.actor.now }
    requires taken { all ≤ length taken.now.items }
    requires all { all ≡ sum_in A.steps batch.actor.now batch.phase batch.times }
    requires put { many ≤ length put.old.items }
    requires many { many ≡ sum_out A.steps batch.actor.now batch.phase batch.times }
    ensures state { state.new ≡ state_at A.steps batch.entry.actor.now batch.entry.phase state.old
        (take all taken.now.items) batch.entry.times }
    ensures put { take many put.new.items ≡ puts_to A.steps batch.entry.actor.now batch.entry.phase state.old
        (take all taken.now.items) batch.entry.times }
    ensures len { length put.new.items ≡ length put.old.items }
{
    let Batch {
        actor,
        phase,
        times,
    } = batch;
    let (front, _) = put.as_mut_slice().split_at_mut(many);
    actor.fire_many(phase, times, state, &taken[..all], front);
}

/// Checks whether `ins` and `outs` have no channel in common.
fn are_apart(ins: &[usize], outs: &[usize]) -> bool
    ensures { IsTrue result → (i j : ℕ) → i < length ins.now → j < length outs.now →
        slice_index ins.now i ≡ slice_index outs.now j → ⊥ }
{
    for from in ins {
        if has(outs, *from) {
            return false;
        }
    }
    true
}

/// Checks whether `channel` is in `channels`.
fn has(channels: &[usize], channel: usize) -> bool
    ensures { result ≡ false → (j : ℕ) → j < length channels.now → channel ≡ slice_index channels.now j → ⊥ }
{
    for c in channels {
        if *c == channel {
            return true;
        }
    }
    false
}

/// Fires an actor in one batch, directly from one queue's memory to another's.
fn fire_through<A: Actor>(
    batch: Batch<'_, A>,
    state: &mut A::State,
    ports: &NodePorts,
    queues: &mut [Queue<A::Token>],
)
    requires phase { batch.phase < A.steps.cycle batch.actor.now }
    requires ins { ArePorts ports.now.ins.channels.now ports.now.ins.sizes.now (length queues.old) }
    requires outs { ArePorts ports.now.outs.channels.now ports.now.outs.sizes.now (length queues.old) }
    requires one_in { length ports.now.ins.channels.now ≡ 1 }
    requires one_out { length ports.now.outs.channels.now ≡ 1 }
    requires apart { slice_index ports.now.ins.channels.now 0 ≡ slice_index ports.now.outs.channels.now 0 → ⊥ }
    requires taken { batch.times * slice_index ports.now.ins.sizes.now (slice_index ports.now.ins.channels.now 0) ≡
        sum_in A.steps batch.actor.now batch.phase batch.times }
    requires put { batch.times * slice_index ports.now.outs.sizes.now (slice_index ports.now.outs.channels.now 0) ≡
        sum_out A.steps batch.actor.now batch.phase batch.times }
    requires held { batch.times * slice_index ports.now.ins.sizes.now (slice_index ports.now.ins.channels.now 0) ≤
        length (samples queues.old (slice_index ports.now.ins.channels.now 0)) }
    requires room { length (samples queues.old (slice_index ports.now.outs.channels.now 0))
        + batch.times * slice_index ports.now.outs.sizes.now (slice_index ports.now.outs.channels.now 0) ≤
        room queues.old (slice_index ports.now.outs.channels.now 0) }
    ensures state { state.new ≡ state_at A.steps batch.entry.actor.now batch.entry.phase state.old
        (fronts batch.entry.times ports.now.ins.sizes.now ports.now.ins.channels.now queues.old)
        batch.entry.times }
    ensures queues { (c : ℕ) → c < length queues.old → samples queues.new c ≡
        drop (at_ports ports.now.ins.channels.now (batch.entry.times * slice_index ports.now.ins.sizes.now c) c)
        (samples queues.old c) ++
        spread (λ d. batch.entry.times * slice_index ports.now.outs.sizes.now d) ports.now.outs.channels.now
        (puts_to A.steps batch.entry.actor.now batch.entry.phase state.old
        (fronts batch.entry.times ports.now.ins.sizes.now ports.now.ins.channels.now queues.old)
        batch.entry.times) c }
    ensures rooms { KeepRoom queues.old queues.new }
{
    let from = ports.ins.channels[0];
    let to = ports.outs.channels[0];
    let size = ports.outs.sizes[to];
    let mut target = queues[to].take_out();
    let taken = queues[from].oldest_blocks(batch.times, ports.ins.sizes[from]);
    let many = taken.len();
    target.put_fired(batch, state, taken, batch.times, size);
    queues[from].release(many);
    queues[to] = target;
}

impl<'a, A: Actor> Work<'a, A> {
    ghost use Rattle.sdf_one.specs.Firings.{phase_at, IsActor};
    ghost use Rattle.sdf_one.specs.AtOnce.{CanBatch, CanFireBatch, AreFired};
    ghost use Rattle.std.specs.List.{sum_by};
    ghost use Rattle.sdf_one.specs.Many.{HasRows, CanBatchCycles, FitsCycles, CanFireInParts, AreFiredInParts};

    /// Returns the phase of the next firing.
    pub(crate) fn phase(&self) -> u32
        ensures { result ≡ phase_at self.now }
    {
        match self {
            Work::Inner { phase, .. } => *phase,
            _ => 0,
        }
    }

    /// Checks whether firings of the node can be batched from queue to queue, if its channels are `ins` and `outs`.
    pub(crate) fn can_batch(&self, ins: &[usize], outs: &[usize]) -> bool
        ensures goes { IsTrue result → CanBatch A.steps self.now ins.now outs.now }
        ensures others { result ≡ false → IsActor self.now }
    {
        match self {
            Work::Inner { actor, .. } => {
                actor.cycle() == 1 && ins.len() == 1 && outs.len() == 1 && ins[0] != outs[0]
            }
            _ => true,
        }
    }

    /// Fires a node `times` times in one batch: takes all input from the channel into it, and puts all output on the
    /// channel out of it.
    pub(crate) fn fire_batch(
        &mut self,
        times: usize,
        ports: &NodePorts,
        inputs: &[Vec<A::Token>],
        queues: &mut [Queue<A::Token>],
        outputs: &mut [Vec<A::Token>],
    )
        requires { CanFireBatch A.steps (lists inputs.now) times ports.now.ins.channels.now ports.now.outs.channels.now
            ports.now.ins.sizes.now ports.now.outs.sizes.now self.old queues.old outputs.old }
        ensures { AreFired A.steps (lists inputs.now) times ports.now.ins.channels.now ports.now.outs.channels.now
            ports.now.ins.sizes.now
            ports.now.outs.sizes.now self.old self.new queues.old queues.new outputs.old outputs.new }
    {
        match self {
            Work::Source { ext, next, block } => {
                let last = *next + *block * times;
                queues[ports.outs.channels[0]].put(&inputs[*ext][*next..last]);
                *next = last;
            }
            Work::Sink { ext } => {
                let from = ports.ins.channels[0];
                let blocks = queues[from].oldest_blocks(times, ports.ins.sizes[from]);
                let length = blocks.len();
                append(&mut outputs[*ext], blocks);
                queues[from].release(length);
            }
            Work::Inner {
                actor,
                phase,
                state,
                ..
            } => {
                let batch = Batch {
                    actor: *actor,
                    phase: *phase,
                    times,
                };
                fire_through(batch, state, ports, queues);
            }
        }
    }

    /// Checks whether cycles of an actor can be batched through its blocks, if its channels are `ins` and `outs`. It
    /// must be at the beginning of a cycle, have no channel on both sides, and serve its ports in turn.
    pub(crate) fn can_batch_cycles(&self, ins: &[usize], outs: &[usize], sizes: &Sizes) -> bool
        requires { HasRows A.steps sizes.now self.now ins.now outs.now }
        ensures { IsTrue result → CanBatchCycles A.steps sizes.now self.now ins.now outs.now }
    {
        match self {
            Work::Inner { actor, phase, .. } => {
                let cycle = actor.cycle();
                *phase == 0
                    && are_apart(ins, outs)
                    && is_in_turn(ins, sizes, Side::Input, cycle)
                    && is_in_turn(outs, sizes, Side::Output, cycle)
            }
            _ => false,
        }
    }

    /// Returns the number of cycles for which the node's blocks have room, at most `most`.
    pub(crate) fn fits(&self, ports: &NodePorts, most: usize) -> usize
        requires ins { ArePorts ports.now.ins.channels.now ports.now.ins.sizes.now (length ports.now.ins.sizes.now) }
        requires outs { ArePorts ports.now.outs.channels.now ports.now.outs.sizes.now
            (length ports.now.outs.sizes.now) }
        requires blocks { FitsCycles self.now (sum_by (slice_index ports.now.ins.sizes.now) ports.now.ins.channels.now)
            (sum_by (slice_index ports.now.outs.sizes.now) ports.now.outs.channels.now) 1 }
        ensures within { result ≤ most }
        ensures fit { FitsCycles self.now (sum_by (slice_index ports.now.ins.sizes.now) ports.now.ins.channels.now)
            (sum_by (slice_index ports.now.outs.sizes.now) ports.now.outs.channels.now) result }
    {
        match self {
            Work::Inner { taken, put, .. } => {
                let many = whole_blocks(taken.capacity(), block_size(&ports.ins), most);
                whole_blocks(put.len(), block_size(&ports.outs), many)
            }
            _ => most,
        }
    }

    /// Fires an actor `firings` times in one batch through its blocks. They are `times` equal parts, each a firing or a
    /// cycle: takes their blocks from the channels into it, and puts their blocks on the channels out of it.
    pub(crate) fn fire_in_parts(
        &mut self,
        times: usize,
        firings: usize,
        filler: A::Token,
        ports: &NodePorts,
        queues: &mut [Queue<A::Token>],
    )
        requires { CanFireInParts A.steps times firings ports.now.ins.channels.now ports.now.outs.channels.now
            ports.now.ins.sizes.now
            ports.now.outs.sizes.now self.old queues.old }
        ensures { AreFiredInParts A.steps times firings ports.now.ins.channels.now ports.now.outs.channels.now
            ports.now.ins.sizes.now
            ports.now.outs.sizes.now self.old self.new queues.old queues.new }
    {
        if let Work::Inner {
            actor,
            phase,
            state,
            taken,
            put,
        } = self
        {
            let size = block_size(&ports.ins);
            let all = times * size;
            lengthen(taken, all, filler);
            take_fronts(&ports.ins, times, size, taken, queues);
            let more = block_size(&ports.outs);
            let batch = Batch {
                actor: *actor,
                phase: *phase,
                times: firings,
            };
            fire_many_into(batch, state, taken, all, put, times * more);
            put_fronts(&ports.outs, times, more, put, queues);
            *phase = phase_after(*phase, firings, actor.cycle());
        }
    }
}

/// Returns the phase `firings` firings after `phase`, in a cycle of `cycle` phases.
fn phase_after(phase: u32, firings: usize, cycle: u32) -> u32
    requires below { phase < cycle }
    requires few { firings < 2 ^ 63 }
    ensures { result ≡ (phase + firings) % cycle }
{
    ((phase as usize + firings) % cycle as usize) as u32
}

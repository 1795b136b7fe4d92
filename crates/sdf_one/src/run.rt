//! A run on one thread.

ghost use Rattle.std.specs.Prelude.{◌≡◌, ◌+◌, ◌*◌, ◌≤◌, ◌<◌, ◌↔◌, ℕ, true, false, length, slice_index};
ghost use Rattle.std.specs.Prelude.{IsTrue};
ghost use Rattle.sdf_actor.specs.Nets.{wiring};
ghost use Rattle.sdf_queues.specs.Sizes.{at_phase};
ghost use Rattle.sdf_one.specs.AtOnce.{CanFireBatchAt, AreFiredAt};
ghost use Rattle.sdf_one.specs.Many.{CanFireInPartsAt, AreFiredInPartsAt, CanBatchCyclesAt, firings_in};
ghost use Rattle.sdf_one.specs.Many.{takes_next, puts_next, takes_cycle, puts_cycle};
ghost use Rattle.sdf_one.specs.Runs.{HoldsOfWork};
ghost use Rattle.sdf_one.specs.Sweeps.{IsSwept, MayFire, HasRoom, Keeps, IsMoved, IsLeft, AreHeld};

use crate::block::{blocks_held, hold_blocks};
use crate::cycles::Cycles;
use crate::work::{NodePorts, Work};
use sdf_actor::laws::history_grows_by_firing;
use sdf_actor::{Actor, Net, Side};
use sdf_queues::blocks::Ports;
use sdf_queues::{Queue, Sizes};

/// The state of a run. Its net, inputs, sizes, cycles, repetitions and number of periods do not change.
#[derive(Drop)]
pub(crate) struct Run<'a, A: Actor> {
    pub(crate) net: &'a Net<A>,
    pub(crate) inputs: &'a [Vec<A::Token>],
    pub(crate) sizes: Sizes,
    pub(crate) cycles: Cycles,
    /// The repetition vector: how often each node fires in a period.
    pub(crate) repetitions: &'a [u32],
    /// The number of periods in all.
    pub(crate) periods: u32,
    /// The number of periods up to the end of the block.
    pub(crate) high: u32,
    /// The number of firings of each node up to now.
    pub(crate) done: Vec<usize>,
    /// The runtime of each node.
    pub(crate) works: Vec<Work<'a, A>>,
    /// The samples on each channel.
    pub(crate) queues: Vec<Queue<A::Token>>,
    pub(crate) outputs: Vec<Vec<A::Token>>,
    /// A sample to fill buffers with.
    pub(crate) filler: A::Token,
}

/// Returns the ports of node `a`, and how many samples its firings at `phase` move there.
fn ports_at<'b, A: Actor>(net: &'b Net<A>, sizes: &'b Sizes, a: usize, phase: u32) -> NodePorts<'b>
    requires known { a < length net.now.nodes }
    requires takes { phase < length sizes.now.takes }
    requires puts { phase < length sizes.now.puts }
    ensures ins { result.ins.channels.now ≡ (wiring A.steps net.entry.now).ins a }
    ensures takes { result.ins.sizes.now ≡ at_phase sizes.entry.now.takes phase }
    ensures outs { result.outs.channels.now ≡ (wiring A.steps net.entry.now).outs a }
    ensures puts { result.outs.sizes.now ≡ at_phase sizes.entry.now.puts phase }
{
    NodePorts {
        ins: Ports {
            channels: net.channels_in(a),
            sizes: sizes.on(Side::Input, phase),
        },
        outs: Ports {
            channels: net.channels_out(a),
            sizes: sizes.on(Side::Output, phase),
        },
    }
}

/// Returns the ports of node `a`, and how many samples its cycles move there.
fn ports_of<'b, A: Actor>(net: &'b Net<A>, cycles: &'b Cycles, a: usize) -> NodePorts<'b>
    requires { a < length net.now.nodes }
    ensures ins { result.ins.channels.now ≡ (wiring A.steps net.entry.now).ins a }
    ensures takes { result.ins.sizes.now ≡ cycles.entry.now.takes.items }
    ensures outs { result.outs.channels.now ≡ (wiring A.steps net.entry.now).outs a }
    ensures puts { result.outs.sizes.now ≡ cycles.entry.now.puts.items }
{
    NodePorts {
        ins: Ports {
            channels: net.channels_in(a),
            sizes: &cycles.takes,
        },
        outs: Ports {
            channels: net.channels_out(a),
            sizes: &cycles.puts,
        },
    }
}

impl<'a, A: Actor> Run<'a, A> {
    /// Fires node `a` `times` times in one batch, from queue to queue.
    fn fire_batch(&mut self, a: usize, times: usize)
        requires { CanFireBatchAt A.steps self.old a times }
        ensures { AreFiredAt A.steps self.old self.new a times }
    {
        let phase = self.works[a].phase();
        let ports = ports_at(self.net, &self.sizes, a, phase);
        self.works[a].fire_batch(
            times,
            &ports,
            self.inputs,
            &mut self.queues,
            &mut self.outputs,
        );
        self.done[a] += times;
    }

    /// Fires actor `a` once, through its blocks.
    fn fire(&mut self, a: usize)
        requires { CanFireInPartsAt A.steps self.old a 1 1 (takes_next self.old) (puts_next self.old) }
        ensures { AreFiredInPartsAt A.steps self.old self.new a 1 1 (takes_next self.old) (puts_next self.old) }
    {
        let phase = self.works[a].phase();
        let ports = ports_at(self.net, &self.sizes, a, phase);
        self.works[a].fire_in_parts(1, 1, self.filler, &ports, &mut self.queues);
        self.done[a] += 1;
    }

    /// Fires actor `a` for `times` cycles in one batch, through its blocks.
    fn fire_cycles(&mut self, a: usize, times: usize)
        requires { CanFireInPartsAt A.steps self.old a times (firings_in A.steps self.old a times)
            (takes_cycle self.old) (puts_cycle self.old) }
        ensures { AreFiredInPartsAt A.steps self.old self.new a times (firings_in A.steps self.old a times)
            (takes_cycle self.old) (puts_cycle self.old) }
    {
        let ports = ports_of(self.net, &self.cycles, a);
        let firings = times * self.net.node(a).cycle() as usize;
        self.works[a].fire_in_parts(times, firings, self.filler, &ports, &mut self.queues);
        self.done[a] += firings;
    }

    /// Returns how many firings node `a` has left within the block.
    fn left(&self, a: usize) -> usize
        requires known { a < length self.now.net.now.nodes }
        requires swept { IsSwept A.steps self.now }
        ensures { IsLeft self.now a result }
    {
        self.high as usize * self.repetitions[a] as usize - self.done[a]
    }

    /// Checks whether node `a` may fire within the block. It must have firings left there, and the channels into it
    /// must hold the input of the next one.
    fn may_fire(&self, a: usize) -> bool
        requires known { a < length self.now.net.now.nodes }
        requires swept { IsSwept A.steps self.now }
        ensures { IsTrue result ↔ MayFire A.steps self.now a }
    {
        if self.left(a) == 0 {
            return false;
        }
        let sizes = self.sizes.on(Side::Input, self.works[a].phase());
        hold_blocks(self.net.channels_in(a), sizes, &self.queues)
    }

    /// Returns how many firings of node `a` can be batched within the block.
    fn times(&self, a: usize) -> usize
        requires may { MayFire A.steps self.now a }
        requires swept { IsSwept A.steps self.now }
        ensures some { 0 < result }
        ensures left { slice_index self.now.done.items a + result ≤
            self.now.high * slice_index self.now.repetitions.now a }
        ensures held { AreHeld A.steps self.now a result }
    {
        let left = self.left(a);
        let sizes = self.sizes.on(Side::Input, self.works[a].phase());
        blocks_held(self.net.channels_in(a), sizes, &self.queues, left)
    }

    /// Returns how many cycles of node `a` can be batched through its blocks within the block of periods: 0 if its
    /// firings go one by one.
    fn cycles_in_blocks(&self, a: usize) -> usize
        requires known { a < length self.now.net.now.nodes }
        requires swept { IsSwept A.steps self.now }
        ensures left { slice_index self.now.done.items a + firings_in A.steps self.now a result ≤
            self.now.high * slice_index self.now.repetitions.now a }
        ensures go { 0 < result → CanBatchCyclesAt A.steps self.now a result }
    {
        let ports = ports_of(self.net, &self.cycles, a);
        if !self.works[a].can_batch_cycles(ports.ins.channels, ports.outs.channels, &self.sizes) {
            return 0;
        }
        let left = self.left(a) / self.net.node(a).cycle() as usize;
        let most = blocks_held(ports.ins.channels, ports.ins.sizes, &self.queues, left);
        self.works[a].fits(&ports, most)
    }

    /// Fires node `a`, which may fire: once, or in one batch up to the limits of its samples, its buffers and the
    /// block.
    fn fire_some(&mut self, a: usize)
        requires may { MayFire A.steps self.old a }
        requires swept { IsSwept A.steps self.old }
        ensures swept { IsSwept A.steps self.new }
        ensures moved { IsMoved self.old self.new true }
        ensures further { slice_index self.old.done.items a < slice_index self.new.done.items a }
    {
        history_grows_by_firing::<A>();
        let ins = self.net.channels_in(a);
        let outs = self.net.channels_out(a);
        if self.works[a].can_batch(ins, outs) {
            let times = self.times(a);
            self.fire_batch(a, times);
        } else {
            let cycles = self.cycles_in_blocks(a);
            if cycles == 0 {
                self.fire(a);
            } else {
                self.fire_cycles(a, cycles);
            }
        }
    }

    /// Fires node `a` until its samples or the block stop it, and returns whether it fired.
    fn fire_node(&mut self, a: usize) -> bool
        requires known { a < length self.old.net.now.nodes }
        requires swept { IsSwept A.steps self.old }
        ensures swept { IsSwept A.steps self.new }
        ensures moved { IsMoved self.old self.new result }
        ensures stops { result ≡ false → MayFire A.steps self.old a → ⊥ }
    {
        let mut fired = false;
        while self.may_fire(a) {
            self.fire_some(a);
            fired = true;
        }
        fired
    }

    /// Fires each node in turn, and returns whether any fired.
    fn sweep(&mut self) -> bool
        requires swept { IsSwept A.steps self.old }
        ensures swept { IsSwept A.steps self.new }
        ensures moved { IsMoved self.old self.new result }
        ensures stops { result ≡ false → (a : ℕ) → MayFire A.steps self.new a → ⊥ }
    {
        let mut moved = false;
        for a in 0..self.net.len() {
            if self.fire_node(a) {
                moved = true;
            }
        }
        moved
    }

    /// Sweeps until each node has fired all periods of the block.
    fn fire_block(&mut self)
        requires swept { IsSwept A.steps self.old }
        ensures swept { IsSwept A.steps self.new }
        ensures keeps { Keeps self.old self.new }
        ensures high { self.new.high ≡ self.old.high }
        ensures done { (a : ℕ) → a < length self.old.net.now.nodes →
            slice_index self.new.done.items a ≡ self.old.high * slice_index self.old.repetitions.now a }
    {
        let mut goes = true;
        while goes {
            goes = self.sweep();
        }
    }

    /// Fires all periods, in blocks of `size` periods and a last block of the rest.
    pub(crate) fn fire_all(&mut self, size: u32)
        requires size { 0 < size }
        requires start { self.old.high ≡ 0 }
        requires swept { IsSwept A.steps self.old }
        requires room { HasRoom A.steps size self.old }
        ensures keeps { Keeps self.old self.new }
        ensures swept { IsSwept A.steps self.new }
        ensures done { (a : ℕ) → a < length self.old.net.now.nodes →
            slice_index self.new.done.items a ≡ self.old.periods * slice_index self.old.repetitions.now a }
    {
        while self.high < self.periods {
            self.high = next_block(self.high, size, self.periods);
            self.fire_block();
        }
    }
}

/// Returns the number of periods up to the end of the next block.
fn next_block(high: u32, size: u32, periods: u32) -> u32
    requires left { high < periods }
    requires some { 0 < size }
    ensures more { high < result }
    ensures within { result ≤ periods }
    ensures step { result ≤ high + size }
{
    if periods - high < size {
        periods
    } else {
        high + size
    }
}

//! Actors.

ghost use Rattle.std.specs.Prelude.{◌≡◌, ◌+◌, ◌%◌, ◌<◌, ◌≤◌, ℕ, cond, length, IfOk};
ghost use Rattle.sdf_actor.specs.Steps.{Steps, total_in, total_out, sum_in, sum_out, state_at, puts_to, PutsFit};

use sdf_limits::MAX_PORTS;
use std::alloc::{AllocError, Global};

/// An actor with a cycle of phases. The phase of a firing sets how many samples it takes at each input port and puts on
/// each output port (Bilsen and others 1996; with one phase, Lee and Messerschmitt 1987).
pub trait Actor: Sync + Drop {
    /// A sample.
    type Token: Copy + Send + Sync;

    /// The state that it keeps from one firing to the next.
    type State: Send + Sync + Drop;

    /// Its ports, rates and step.
    ghost steps: { Steps Self Self.State Self.Token };

    /// Returns how many input ports it has. They are numbered from 0.
    fn inputs(&self) -> usize
        ensures value { result ≡ steps.inputs self.now }
        ensures few { result ≤ MAX_PORTS };

    /// Returns how many output ports it has. They are numbered from 0.
    fn outputs(&self) -> usize
        ensures value { result ≡ steps.outputs self.now }
        ensures few { result ≤ MAX_PORTS };

    /// Returns how many phases its cycle has: 1 to 64 in a net. Firing `i` is at phase `i` modulo this number.
    fn cycle(&self) -> u32
        ensures { result ≡ steps.cycle self.now };

    /// Returns how many samples a firing at `phase` takes at input port `port`.
    fn take(&self, port: usize, phase: u32) -> u32
        requires port { port < steps.inputs self.now }
        requires phase { phase < steps.cycle self.now }
        ensures { result ≡ steps.take self.now port phase };

    /// Returns how many samples a firing at `phase` puts on output port `port`.
    fn put(&self, port: usize, phase: u32) -> u32
        requires port { port < steps.outputs self.now }
        requires phase { phase < steps.cycle self.now }
        ensures { result ≡ steps.put self.now port phase };

    /// Returns its state before the first firing.
    fn start(&self, alloc: Global) -> Result<Self::State, AllocError>
        ensures { IfOk result (λ s. s ≡ steps.start self.now) };

    /// Returns a copy of `state`.
    fn again(&self, alloc: Global, state: &Self::State) -> Result<Self::State, AllocError>
        ensures { IfOk result (λ s. s ≡ state.now) };

    /// Fires once, at `phase`. `taken` and `put` hold the blocks of all ports, one after another in port order.
    /// Allocates no memory.
    fn fire(
        &self,
        phase: u32,
        state: &mut Self::State,
        taken: &[Self::Token],
        put: &mut [Self::Token],
    )
        requires phase { phase < steps.cycle self.now }
        requires taken { length taken.now ≡ total_in steps self.now phase }
        requires put { length put.old ≡ total_out steps self.now phase }
        ensures state { state.new ≡ steps.next self.now phase state.old taken.now }
        ensures put { put.new ≡ steps.puts self.now phase state.old taken.now };

    /// Returns how many samples a firing at `phase` takes at all ports.
    fn samples_in(&self, phase: u32) -> usize
        requires { phase < steps.cycle self.now }
        ensures { result ≡ total_in steps self.now phase }
    {
        let mut total = 0;
        for port in 0..self.inputs() {
            total += self.take(port, phase) as usize;
        }
        total
    }

    /// Returns how many samples a firing at `phase` puts on all ports.
    fn samples_out(&self, phase: u32) -> usize
        requires { phase < steps.cycle self.now }
        ensures { result ≡ total_out steps self.now phase }
    {
        let mut total = 0;
        for port in 0..self.outputs() {
            total += self.put(port, phase) as usize;
        }
        total
    }

    /// Fires `many` times in one batch, if the actor has code for that, and returns whether it did. If not, nothing has
    /// changed. `fire_many` tries this first. Allocates no memory.
    fn fire_at_once(
        &self,
        phase: u32,
        many: usize,
        state: &mut Self::State,
        taken: &[Self::Token],
        put: &mut [Self::Token],
    ) -> bool
        requires phase { phase < steps.cycle self.now }
        requires taken { length taken.now ≡ sum_in steps self.now phase many }
        requires put { length put.old ≡ sum_out steps self.now phase many }
        ensures state { state.new ≡ cond result (state_at steps self.now phase state.old taken.now many) state.old }
        ensures put { put.new ≡ cond result (puts_to steps self.now phase state.old taken.now many) put.old }
    {
        false
    }

    /// Fires `many` times, the first time at `phase`. `taken` and `put` hold the blocks of the firings, one after
    /// another. Allocates no memory.
    fn fire_many(
        &self,
        phase: u32,
        many: usize,
        state: &mut Self::State,
        taken: &[Self::Token],
        put: &mut [Self::Token],
    )
        requires phase { phase < steps.cycle self.now }
        requires taken { length taken.now ≡ sum_in steps self.now phase many }
        requires put { length put.old ≡ sum_out steps self.now phase many }
        ensures state { state.new ≡ state_at steps self.now phase state.old taken.now many }
        ensures put { put.new ≡ puts_to steps self.now phase state.old taken.now many }
    {
        if self.fire_at_once(phase, many, state, taken, put) {
            return;
        }
        let mut now = phase;
        let mut read = 0;
        let mut written = 0;
        for _ in 0..many {
            let reads = end_of(read, self.samples_in(now), taken.len());
            let writes = end_of(written, self.samples_out(now), put.len());
            self.fire(now, state, &taken[read..reads], &mut put[written..writes]);
            now = next_phase(now, self.cycle());
            read = reads;
            written = writes;
        }
    }

    /// A firing puts the number of samples that its phase sets.
    ghost puts_fit: { (x : Self) → PutsFit steps x };
}

/// Returns the phase after `phase` in a cycle of `cycle` phases: 0 after the last.
pub fn next_phase(phase: u32, cycle: u32) -> u32
    requires { phase < cycle }
    ensures { result ≡ (phase + 1) % cycle }
{
    if phase + 1 == cycle { 0 } else { phase + 1 }
}

/// Returns where a block of `block` samples at `place` ends, in a list of `len` samples.
fn end_of(place: usize, block: usize, len: usize) -> usize
    requires { place + block ≤ len }
    ensures value { result ≡ place + block }
    ensures start { place ≤ result }
    ensures within { result ≤ len }
{
    place + block
}

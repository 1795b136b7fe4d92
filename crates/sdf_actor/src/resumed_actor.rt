//! Resumed actors: they begin in a given state.

ghost use Rattle.sdf_actor.specs.Steps.{Steps, PutsFit};
ghost use Rattle.sdf_actor.specs.Resumed.{steps_from, BeginsIn};

use crate::actor::Actor;
use std::alloc::{AllocError, Global};

/// An actor that begins in `state` instead of its own first state, and is the same otherwise.
#[derive(Drop)]
pub struct ResumedActor<'a, A: Actor> {
    actor: &'a A,
    state: A::State,
    // a firing puts the number of samples that its phase sets
    ghost fits: { PutsFit (steps_from A.steps state) actor.now },
}

impl<'a, A: Actor> ResumedActor<'a, A> {
    /// Makes an actor that begins in `state`.
    pub(crate) fn new(actor: &'a A, state: A::State) -> ResumedActor<'a, A>
        requires { PutsFit (steps_from A.steps state) actor.now }
        ensures { BeginsIn A.steps ⟦<ResumedActor<'a, A> as Actor>⟧.steps actor.now state result }
    {
        ResumedActor { actor, state }
    }
}

impl<'a, A: Actor> Actor for ResumedActor<'a, A> {
    type Token = A::Token;

    type State = A::State;

    ghost steps = { record {
      inputs = λ b. A.steps.inputs b.actor.now;
      outputs = λ b. A.steps.outputs b.actor.now;
      cycle = λ b. A.steps.cycle b.actor.now;
      take = λ b. A.steps.take b.actor.now;
      put = λ b. A.steps.put b.actor.now;
      start = λ b. b.state;
      next = λ b. A.steps.next b.actor.now;
      puts = λ b. A.steps.puts b.actor.now;
    } };

    fn inputs(&self) -> usize {
        self.actor.inputs()
    }

    fn outputs(&self) -> usize {
        self.actor.outputs()
    }

    fn cycle(&self) -> u32 {
        self.actor.cycle()
    }

    fn take(&self, port: usize, phase: u32) -> u32 {
        self.actor.take(port, phase)
    }

    fn put(&self, port: usize, phase: u32) -> u32 {
        self.actor.put(port, phase)
    }

    fn start(&self, alloc: Global) -> Result<A::State, AllocError> {
        self.actor.again(alloc, &self.state)
    }

    fn again(&self, alloc: Global, state: &A::State) -> Result<A::State, AllocError> {
        self.actor.again(alloc, state)
    }

    fn fire(&self, phase: u32, state: &mut A::State, taken: &[A::Token], put: &mut [A::Token]) {
        self.actor.fire(phase, state, taken, put)
    }

    fn fire_at_once(
        &self,
        phase: u32,
        many: usize,
        state: &mut A::State,
        taken: &[A::Token],
        put: &mut [A::Token],
    ) -> bool {
        self.actor.fire_at_once(phase, many, state, taken, put)
    }

    ghost puts_fit = { λ b. b.fits };
}

//! An actor that reports to a gate when it fires.

ghost use Rattle.std.specs.Prelude.{◌≡◌, if◌then◌else◌};
ghost use Rattle.sdf_actor.specs.Steps.{total_in, total_out};

use crate::gates::Watch;
use sdf_actor::Actor;
use sdf_node::ActorId;
use std::alloc::{AllocError, Global};

/// An actor that passes on a sample at each port, at each phase of its cycle. It has one port on each side, or two.
#[derive(Drop)]
pub struct Watched<'a> {
    pub cycle: u32,
    pub two: bool,
    /// Its number in its net.
    pub number: ActorId,
    pub watch: &'a Watch<'a>,
}

impl<'a> Actor for Watched<'a> {
    type Token = i64;

    type State = u8;

    ghost steps = { record {
      inputs = λ x. if x.two then 2 else 1;
      outputs = λ x. if x.two then 2 else 1;
      cycle = λ x. x.cycle;
      take = λ _ _ _. 1;
      put = λ _ _ _. 1;
      start = λ _. 0;
      next = λ _ _ s _. s;
      puts = λ _ _ _ t. t;
    } };

    fn inputs(&self) -> usize {
        if self.two { 2 } else { 1 }
    }

    fn outputs(&self) -> usize {
        if self.two { 2 } else { 1 }
    }

    fn cycle(&self) -> u32 {
        self.cycle
    }

    fn take(&self, _port: usize, _phase: u32) -> u32 {
        1
    }

    fn put(&self, _port: usize, _phase: u32) -> u32 {
        1
    }

    fn start(&self, _alloc: Global) -> Result<u8, AllocError> {
        Ok(0)
    }

    fn again(&self, _alloc: Global, state: &u8) -> Result<u8, AllocError> {
        Ok(*state)
    }

    fn fire(&self, _phase: u32, _state: &mut u8, taken: &[i64], put: &mut [i64]) {
        self.watch.fires(self.number);
        put.copy_from_slice(taken);
    }

    ghost puts_fit = { λ _ _ _ _ e. e };
}

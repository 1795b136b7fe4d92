//! Test actors, each as small as its tests allow.

ghost use Rattle.std.specs.Prelude.{[], ◌∷◌, ◌≡◌, ◌+◌, ◌==◌, ◌+ℤ◌, ◌%◌, length, pos, refl, slice_index, slice_index_or};
ghost use Rattle.std.specs.Prelude.{if◌then◌else◌};
ghost use Rattle.std.specs.Int.{int_wrap, w64};
ghost use Rattle.sdf_actor.specs.Steps.{total_in, total_out};

use sdf_actor::Actor;
use std::alloc::{AllocError, Global};

/// An actor that puts the total of all that it has taken. The total wraps.
#[derive(Drop)]
pub struct Sum;

impl Actor for Sum {
    type Token = i64;

    type State = i64;

    ghost steps = { record {
      inputs = λ _. 1;
      outputs = λ _. 1;
      cycle = λ _. 1;
      take = λ _ _ _. 1;
      put = λ _ _ _. 1;
      start = λ _. pos 0;
      next = λ _ _ s t. int_wrap w64 (s +ℤ slice_index_or t 0 (pos 0));
      puts = λ _ _ s t. int_wrap w64 (s +ℤ slice_index_or t 0 (pos 0)) ∷ [];
    } };

    fn inputs(&self) -> usize {
        1
    }

    fn outputs(&self) -> usize {
        1
    }

    fn cycle(&self) -> u32 {
        1
    }

    fn take(&self, _port: usize, _phase: u32) -> u32 {
        1
    }

    fn put(&self, _port: usize, _phase: u32) -> u32 {
        1
    }

    fn start(&self, _alloc: Global) -> Result<i64, AllocError> {
        Ok(0)
    }

    fn again(&self, _alloc: Global, state: &i64) -> Result<i64, AllocError> {
        Ok(*state)
    }

    #[tactic(auto, using(std::proofs::lemmas::Int::wraps))]
    fn fire(&self, _phase: u32, state: &mut i64, taken: &[i64], put: &mut [i64]) {
        *state = state.wrapping_add(taken[0]);
        put.copy_from_slice(&[*state]);
    }

    ghost puts_fit = { λ _ _ _ _ _. refl };
}

/// An actor that swaps the two bytes of each pair.
#[derive(Drop)]
pub struct Swap;

impl Actor for Swap {
    type Token = [u8; 2];

    type State = u8;

    ghost steps = { record {
      inputs = λ _. 1;
      outputs = λ _. 1;
      cycle = λ _. 1;
      take = λ _ _ _. 1;
      put = λ _ _ _. 1;
      start = λ _. 0;
      next = λ _ _ s _. s;
      puts = λ _ _ _ t. (slice_index (slice_index_or t 0 []) 1 ∷ slice_index (slice_index_or t 0 []) 0 ∷ []) ∷ [];
    } };

    fn inputs(&self) -> usize {
        1
    }

    fn outputs(&self) -> usize {
        1
    }

    fn cycle(&self) -> u32 {
        1
    }

    fn take(&self, _port: usize, _phase: u32) -> u32 {
        1
    }

    fn put(&self, _port: usize, _phase: u32) -> u32 {
        1
    }

    fn start(&self, _alloc: Global) -> Result<u8, AllocError> {
        Ok(0)
    }

    fn again(&self, _alloc: Global, state: &u8) -> Result<u8, AllocError> {
        Ok(*state)
    }

    fn fire(&self, _phase: u32, _state: &mut u8, taken: &[[u8; 2]], put: &mut [[u8; 2]]) {
        let pair = taken[0];
        put.copy_from_slice(&[[pair[1], pair[0]]]);
    }

    ghost puts_fit = { λ _ _ _ _ _. refl };
}

/// An actor that keeps a sample at its first phase and puts it twice at its second.
#[derive(Drop)]
pub struct Twice;

impl Actor for Twice {
    ghost use Rattle.test_actors.specs.Twice.{twice_take, twice_put, twice_next, twice_puts, twice_fits};

    type Token = i64;

    type State = i64;

    ghost steps = { record {
      inputs = λ _. 1;
      outputs = λ _. 1;
      cycle = λ _. 2;
      take = λ _ _ j. twice_take j;
      put = λ _ _ j. twice_put j;
      start = λ _. pos 0;
      next = λ _ j s t. twice_next j s t;
      puts = λ _ j s _. twice_puts j s;
    } };

    fn inputs(&self) -> usize {
        1
    }

    fn outputs(&self) -> usize {
        1
    }

    fn cycle(&self) -> u32 {
        2
    }

    fn take(&self, _port: usize, phase: u32) -> u32 {
        if phase == 0 { 1 } else { 0 }
    }

    fn put(&self, _port: usize, phase: u32) -> u32 {
        if phase == 0 { 0 } else { 2 }
    }

    fn start(&self, _alloc: Global) -> Result<i64, AllocError> {
        Ok(0)
    }

    fn again(&self, _alloc: Global, state: &i64) -> Result<i64, AllocError> {
        Ok(*state)
    }

    fn fire(&self, phase: u32, state: &mut i64, taken: &[i64], put: &mut [i64]) {
        if phase == 0 {
            *state = taken[0];
        } else {
            put.copy_from_slice(&[*state, *state]);
        }
    }

    ghost puts_fit = { λ x past now blocks e. twice_fits (length past % 2) _ };
}

/// An actor that regroups samples. At phase 0 of its cycle it takes `first + middle` and `last` samples, and puts them
/// as `first` and `middle + last`. At its other phases it moves none.
#[derive(Drop)]
pub struct Regroup {
    pub cycle: u32,
    pub first: u16,
    pub middle: u16,
    pub last: u16,
}

impl Actor for Regroup {
    type Token = i32;

    type State = u8;

    ghost steps = { record {
      inputs = λ _. 2;
      outputs = λ _. 2;
      cycle = λ x. x.cycle;
      take = λ x p j. if j == 0 then (if p == 0 then x.first + x.middle else x.last) else 0;
      put = λ x p j. if j == 0 then (if p == 0 then x.first else (x.middle + x.last)) else 0;
      start = λ _. 0;
      next = λ _ _ s _. s;
      puts = λ _ _ _ t. t;
    } };

    fn inputs(&self) -> usize {
        2
    }

    fn outputs(&self) -> usize {
        2
    }

    fn cycle(&self) -> u32 {
        self.cycle
    }

    fn take(&self, port: usize, phase: u32) -> u32 {
        if phase > 0 {
            0
        } else if port == 0 {
            u32::from(self.first) + u32::from(self.middle)
        } else {
            u32::from(self.last)
        }
    }

    fn put(&self, port: usize, phase: u32) -> u32 {
        if phase > 0 {
            0
        } else if port == 0 {
            u32::from(self.first)
        } else {
            u32::from(self.middle) + u32::from(self.last)
        }
    }

    fn start(&self, _alloc: Global) -> Result<u8, AllocError> {
        Ok(0)
    }

    fn again(&self, _alloc: Global, state: &u8) -> Result<u8, AllocError> {
        Ok(*state)
    }

    fn fire(&self, phase: u32, _state: &mut u8, taken: &[i32], put: &mut [i32]) {
        if phase == 0 {
            put.copy_from_slice(taken);
        }
    }

    ghost use Rattle.std.proofs.Common.{rules, ◌∙◌};

    ghost puts_fit = { λ x past now blocks e. e ∙ Prim.search rules };
}

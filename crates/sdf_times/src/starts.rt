//! The start times of an actor's firings.

ghost use Rattle.std.specs.Prelude.{◌≡◌, ℕ, ◌^◌, ◌<◌, ◌++◌, ◌∷◌, ◌↔◌, [], length, slice_index, slice_index_or, IfOk};
ghost use Rattle.std.specs.Prelude.{IsTrue};
ghost use Rattle.sdf_times.specs.Checks.{repeating, AreInTurn};

use std::alloc::{AllocError, Global};
use std::marker::Model;

/// The start times of an actor's first firings.
#[derive(Drop)]
pub(crate) struct Starts {
    times: Vec<u64>,
}

impl Model for Starts {
    ghost use Rattle.std.specs.Prelude.{List, ℕ};

    ghost Value = { List ℕ };

    ghost view = { λ s. s.times.items };
}

impl Starts {
    /// Returns an empty list of start times.
    pub(crate) fn new(alloc: Global) -> Starts
        ensures { result ≡ [] }
    {
        Starts {
            times: Vec::new(alloc),
        }
    }

    /// Returns when firing `number` starts.
    pub(crate) fn of(&self, number: usize) -> u64
        requires { number < length self.now }
        ensures { result ≡ slice_index self.now number }
    {
        self.times[number]
    }

    /// Returns how many firings have a start.
    pub(crate) fn len(&self) -> usize
        ensures { result ≡ length self.now }
    {
        self.times.len()
    }

    /// Returns when firing `number` starts, if these are the starts of the first block and each block starts `period`
    /// later than the one before.
    pub(crate) fn repeating(&self, number: u32, period: u64) -> u128
        requires { 0 < length self.now }
        ensures is { result ≡ repeating period self.now number }
        ensures small { result < 2 ^ 97 }
    {
        let whole = self.times.len() as u64;
        let number = u64::from(number);
        u128::from(self.times[(number % whole) as usize])
            + u128::from(period) * u128::from(number / whole)
    }

    /// Checks whether each firing ends, `pause` after its start, before the next one starts. The next block's firings
    /// start `period` later.
    pub(crate) fn are_in_turn(&self, pause: u128, period: u64) -> bool
        requires { pause < 2 ^ 96 }
        ensures { IsTrue result ↔ AreInTurn self.now pause period }
    {
        let many = self.times.len();
        for next in 1..many {
            if u128::from(self.times[next - 1]) + pause > u128::from(self.times[next]) {
                return false;
            }
        }
        many == 0
            || u128::from(self.times[many - 1]) + pause
                <= u128::from(self.times[0]) + u128::from(period)
    }

    /// Appends the start time of the actor's next firing.
    pub(crate) fn push(&mut self, start: u64) -> Result<(), AllocError>
        ensures { IfOk result (λ _. self.new ≡ self.old ++ start ∷ []) }
    {
        self.times.push(start)?;
        Ok(())
    }
}

/// Returns an empty list of start times for each of `actors` actors.
pub(crate) fn no_starts(alloc: Global, actors: usize) -> Result<Vec<Starts>, AllocError>
    ensures all { IfOk result (λ v. length v.items ≡ actors) }
    ensures none { IfOk result (λ v. (a : ℕ) → slice_index_or v.items a [] ≡ []) }
{
    let mut starts = Vec::new(alloc);
    for _ in 0..actors {
        starts.push(Starts::new(alloc))?;
    }
    Ok(starts)
}

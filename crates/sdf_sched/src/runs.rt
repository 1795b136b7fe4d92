//! The policy of runs.

ghost use Rattle.std.specs.Prelude.{◌≡◌, ℕ};
ghost use Rattle.sdf_sched.specs.Runs.{IsRunsChoice};

use crate::pick::Pick;
use crate::round::next_in_pass;
use sdf_graph::{Counts, Graph};
use std::marker::Model;

/// A policy that stays with an actor while it is runnable. Then it goes to the next runnable one in file order, from
/// the last back to the first.
#[derive(Drop)]
pub struct Runs {
    actor: usize,
}

impl Model for Runs {
    ghost Value = { ℕ };

    ghost view = { λ r. r.actor };
}

impl Runs {
    /// Returns the policy before the first run, which the first runnable actor begins.
    pub fn new() -> Runs
        ensures { result ≡ 0 }
    {
        Runs { actor: 0 }
    }
}

impl Pick for Runs {
    ghost chooses = { IsRunsChoice };

    fn choose(&mut self, graph: &Graph, counts: &Counts, runnable: &[usize]) -> usize {
        let at = next_in_pass(self.actor, runnable);
        self.actor = runnable[at];
        at
    }
}

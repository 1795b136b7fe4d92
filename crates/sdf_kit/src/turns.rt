//! Ways that are served in turn.

ghost use Rattle.std.specs.Prelude.{◌≡◌, ◌≤◌};
ghost use Rattle.sdf_kit.specs.Turns.{turns_of};

use crate::fault::{KitFault, check, check_ways, is_between};
use sdf_kinds::{Key, Kind};
use sdf_limits::{MAX_RUN, MAX_WAYS};
use std::marker::Model;

/// The number of ways, and the number of samples in each turn.
#[derive(Drop)]
pub struct Turns {
    ways: usize,
    run: u32,
}

impl Model for Turns {
    ghost use Rattle.sdf_kit.specs.Turns as specs;

    ghost Value = { specs.Turns };

    ghost view = { λ t. record { ways = t.ways; run = t.run } };

    ghost invariant = { λ t. specs.AreTurns (record { ways = t.ways; run = t.run }) };
}

impl Turns {
    /// Makes turns of `run` samples, 1 to 64, for 2 to 16 ways. A fault names `kind`, the actor that takes the turns.
    pub fn new(kind: Kind, ways: usize, run: u32) -> Result<Turns, KitFault>
        ensures { result ≡ turns_of kind ways run }
    {
        check_ways(ways, kind)?;
        check(
            is_between(1, MAX_RUN as usize, run as usize),
            kind,
            Key::Run,
        )?;
        Ok(Turns { ways, run })
    }

    /// Returns the number of firings that serve each way once.
    pub fn cycle(&self) -> u32
        ensures is { result ≡ self.now.ways }
        ensures some { 1 ≤ result }
        ensures few { result ≤ MAX_WAYS }
    {
        self.ways as u32
    }

    /// Returns the number of samples in a turn.
    pub fn run(&self) -> u32
        ensures is { result ≡ self.now.run }
        ensures some { 1 ≤ result }
    {
        self.run
    }
}

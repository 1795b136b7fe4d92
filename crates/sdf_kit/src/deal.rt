//! One way dealt out to several.

ghost use Rattle.std.specs.Prelude.{◌≡◌, length};
ghost use Rattle.sdf_kit.specs.Ports.{ArePorts};
ghost use Rattle.sdf_kit.specs.Turns.{turns_of};
ghost use Rattle.sdf_kit.specs.Deal.{deal};
ghost use Rattle.sdf_kinds.specs.declared.row.Kind.TheVariants as kinds;

use crate::fault::KitFault;
use crate::ports::Ports;
use crate::turns::Turns;
use sdf_kinds::{Kind, ports as rows};
use std::marker::Model;

/// An actor that deals its input out to its output ports, `run` samples to each in turn:
/// `y_j[n] = x[(n / run * ways + j) * run + n % run]` at port `j`.
#[derive(Drop)]
pub struct Deal {
    turns: Turns,
}

impl Model for Deal {
    ghost use Rattle.sdf_kit.specs.Turns.{Turns};

    ghost Value = { Turns };

    ghost view = { λ d. d.turns };
}

impl Deal {
    /// Makes a dealer of 2 to 16 ways and runs of 1 to 64 samples.
    pub fn new(ways: usize, run: u32) -> Result<Deal, KitFault>
        ensures { result ≡ turns_of kinds.Deal ways run }
    {
        let turns = Turns::new(Kind::Deal, ways, run)?;
        Ok(Deal { turns })
    }

    /// Returns its input port, and its output ports, one for each way.
    pub fn ports(&self) -> Ports
        ensures is { result ≡ (deal self.now).ports }
        ensures limits { ArePorts result }
    {
        Ports::of_row(rows::deal(self.turns.cycle(), self.turns.run(), 1))
    }

    /// Fires once or many times, at any phase. Each firing writes to the one port whose block is not empty.
    pub fn run(&self, taken: &[i32], put: &mut [i32])
        requires { length put.old ≡ length taken.now }
        ensures { put.new ≡ taken.now }
    {
        put.copy_from_slice(taken);
    }
}

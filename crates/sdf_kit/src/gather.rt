//! Several ways gathered into one.

ghost use Rattle.std.specs.Prelude.{◌≡◌, length};
ghost use Rattle.sdf_kit.specs.Ports.{ArePorts};
ghost use Rattle.sdf_kit.specs.Turns.{turns_of};
ghost use Rattle.sdf_kit.specs.Gather.{gather};
ghost use Rattle.sdf_kinds.specs.declared.row.Kind.TheVariants as kinds;

use crate::fault::KitFault;
use crate::ports::Ports;
use crate::turns::Turns;
use sdf_kinds::{Kind, ports as rows};
use std::marker::Model;

/// An actor that gathers its input ports into one output, `run` samples from each in turn:
/// `y[n] = x_j[n / (ways * run) * run + n % run]`. Here `x_j` is what it takes at port `j = n / run % ways`.
#[derive(Drop)]
pub struct Gather {
    turns: Turns,
}

impl Model for Gather {
    ghost use Rattle.sdf_kit.specs.Turns.{Turns};

    ghost Value = { Turns };

    ghost view = { λ g. g.turns };
}

impl Gather {
    /// Makes a gatherer of 2 to 16 ways and runs of 1 to 64 samples.
    pub fn new(ways: usize, run: u32) -> Result<Gather, KitFault>
        ensures { result ≡ turns_of kinds.Gather ways run }
    {
        let turns = Turns::new(Kind::Gather, ways, run)?;
        Ok(Gather { turns })
    }

    /// Returns its input ports, one for each way, and its output port.
    pub fn ports(&self) -> Ports
        ensures is { result ≡ (gather self.now).ports }
        ensures limits { ArePorts result }
    {
        Ports::of_row(rows::gather(self.turns.cycle(), self.turns.run(), 1))
    }

    /// Fires once or many times, at any phase. Each firing reads the one port whose block is not empty.
    pub fn run(&self, taken: &[i32], put: &mut [i32])
        requires { length put.old ≡ length taken.now }
        ensures { put.new ≡ taken.now }
    {
        put.copy_from_slice(taken);
    }
}

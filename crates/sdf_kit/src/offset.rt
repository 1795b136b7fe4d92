//! Samples plus a value.

ghost use Rattle.std.specs.Prelude.{◌≡◌, length, map};
ghost use Rattle.sdf_kit.specs.Ports.{ArePorts};
ghost use Rattle.sdf_kit.specs.Offset.{offset, value_of, raised};

use crate::fault::{KitFault, check, has_16_bits};
use crate::ports::Ports;
use sdf_kinds::{Key, Kind, ports as rows};
use std::marker::Model;

/// An offset: it adds `value` to each sample and clamps the sum.
#[derive(Drop)]
pub struct Offset {
    value: i32,
}

impl Model for Offset {
    ghost use Rattle.std.specs.Prelude.{ℤ};
    ghost use Rattle.sdf_kit.specs.Offset.{IsOffset};

    ghost Value = { ℤ };

    ghost view = { λ o. o.value };

    ghost invariant = { λ o. IsOffset o.value };
}

impl Offset {
    /// Makes an offset of 16 bits, though samples have 32.
    pub fn new(value: i32) -> Result<Offset, KitFault>
        ensures { result ≡ value_of value }
    {
        check(has_16_bits(value), Kind::Offset, Key::Value)?;
        Ok(Offset { value })
    }

    /// Returns the actor's ports and rates.
    pub fn ports(&self) -> Ports
        ensures is { result ≡ (offset self.now).ports }
        ensures limits { ArePorts result }
    {
        Ports::of_row(rows::pointwise(1))
    }

    /// Fires once or many times, one firing after another.
    pub fn run(&self, taken: &[i32], put: &mut [i32])
        requires { length put.old ≡ length taken.now }
        ensures { put.new ≡ map (raised self.now) taken.now }
    {
        for (i, output) in put.iter_mut().enumerate() {
            *output = raise(self.value, taken[i]);
        }
    }
}

/// Adds `value` to `sample` and clamps the sum.
fn raise(value: i32, sample: i32) -> i32
    ensures { result ≡ raised value sample }
{
    if value >= 0 {
        sample.min(i32::MAX - value) + value
    } else {
        sample.max(i32::MIN - value) + value
    }
}

//! Samples between two limits.

ghost use Rattle.std.specs.Prelude.{◌≡◌, ◌≤ℤ◌, length, map};
ghost use Rattle.sdf_kit.specs.Ports.{ArePorts};
ghost use Rattle.sdf_kit.specs.Clip.{clip, limits_of, clipped};

use crate::fault::{KitFault, check, has_16_bits};
use crate::ports::Ports;
use sdf_kinds::{Key, Kind, ports as rows};
use std::marker::Model;

/// A clipper: it puts each sample, or `least` if the sample is below that, or `greatest` if it is above that.
#[derive(Drop)]
pub struct Clip {
    least: i32,
    greatest: i32,
}

impl Model for Clip {
    ghost use Rattle.sdf_kit.specs.Clip.{Limits, AreLimits};

    ghost Value = { Limits };

    ghost view = { λ c. record { least = c.least; greatest = c.greatest } };

    ghost invariant = { λ c. AreLimits (record { least = c.least; greatest = c.greatest }) };
}

impl Clip {
    /// Makes a clipper. Both limits have 16 bits, though samples have 32, and they may be equal.
    pub fn new(least: i32, greatest: i32) -> Result<Clip, KitFault>
        ensures { result ≡ limits_of least greatest }
    {
        check(has_16_bits(least), Kind::Clip, Key::Least)?;
        check(
            has_16_bits(greatest) && least <= greatest,
            Kind::Clip,
            Key::Greatest,
        )?;
        Ok(Clip { least, greatest })
    }

    /// Returns the actor's ports and rates.
    pub fn ports(&self) -> Ports
        ensures is { result ≡ (clip self.now).ports }
        ensures limits { ArePorts result }
    {
        Ports::of_row(rows::pointwise(1))
    }

    /// Fires once or many times, one firing after another.
    pub fn run(&self, taken: &[i32], put: &mut [i32])
        requires { length put.old ≡ length taken.now }
        ensures { put.new ≡ map (clipped self.now) taken.now }
    {
        for (i, output) in put.iter_mut().enumerate() {
            *output = clip_sample(self.least, self.greatest, taken[i]);
        }
    }
}

/// Clamps `sample` to the limits.
fn clip_sample(least: i32, greatest: i32, sample: i32) -> i32
    requires { least ≤ℤ greatest }
    ensures { result ≡ clipped (record { least = least; greatest = greatest }) sample }
{
    sample.max(least).min(greatest)
}

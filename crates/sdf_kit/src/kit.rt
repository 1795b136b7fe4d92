//! The kinds of actor as one type, which only dispatches.
//!
//! `docs/FORMATS.md` ("How to add a kind") lists what a new kind needs. Here it is a module whose contracts name
//! the `Behaviour` of its file in `specs/`. It is also a variant, a constructor and an arm of each `match` below.

ghost use Rattle.std.specs.Prelude.{◌≡◌, ◌≤◌};
ghost use Rattle.sdf_actor.specs.Steps.{Steps, total_in, total_out, PutsFit};
ghost use Rattle.sdf_kit.specs.Ports.{ArePorts};
ghost use Rattle.sdf_kit.specs.Factors.{factor_of, ways_of};
ghost use Rattle.sdf_kit.specs.Turns.{turns_of};
ghost use Rattle.sdf_kit.specs.Fir.{filter_of};
ghost use Rattle.sdf_kit.specs.Gain.{scale_of};
ghost use Rattle.sdf_kit.specs.Delay.{length_of};
ghost use Rattle.sdf_kit.specs.Table.{lookup_of};
ghost use Rattle.sdf_kit.specs.Clip.{limits_of};
ghost use Rattle.sdf_kit.specs.Offset.{value_of};
ghost use Rattle.sdf_kit.specs.Kit.{behaviour, kit_steps, kit_of};
ghost use Rattle.sdf_kit.specs.PutsFit.{kit_puts_fit};
ghost use Rattle.sdf_kinds.specs.declared.row.Kind.TheVariants as kinds;
ghost use Rattle.sdf_kit.specs.declared.kit.Kit.TheVariants as kits;

use crate::add::Add;
use crate::clip::Clip;
use crate::deal::Deal;
use crate::decimate::Decimate;
use crate::delay::Delay;
use crate::fault::KitFault;
use crate::fir::Fir;
use crate::fork::Fork;
use crate::gain::Gain;
use crate::gather::Gather;
use crate::interpolate::Interpolate;
use crate::kept::Kept;
use crate::offset::Offset;
use crate::ports::Ports;
use crate::table::Lookup;
use sdf_actor::Actor;
use sdf_limits::MAX_DELAY;
use std::alloc::{AllocError, Global};

/// An actor of one of the kinds, on 32-bit samples.
///
/// Each constructor errs with the first key whose value is outside its limits, in the order of the kind's keys.
#[derive(Drop)]
pub enum Kit {
    Fir(Fir),
    Decimate(Decimate),
    Interpolate(Interpolate),
    Add(Add),
    Fork(Fork),
    Gain(Gain),
    Delay(Delay),
    Table(Lookup),
    Deal(Deal),
    Gather(Gather),
    Clip(Clip),
    Offset(Offset),
}

impl Kit {
    /// Makes a filter: `up` and `down` 1 to 64, `shift` at most 15, and 1 to 1,024 `taps` of 16 bits.
    pub fn fir(up: u32, down: u32, taps: Vec<i32>, shift: u32) -> Result<Kit, KitFault>
        ensures { result ≡ kit_of kits.Fir (filter_of up down taps.items shift) }
    {
        Ok(Kit::Fir(Fir::new(up, down, taps, shift)?))
    }

    /// Makes a downsampler, which keeps one sample in `factor`, 1 to 64.
    pub fn decimate(factor: u32) -> Result<Kit, KitFault>
        ensures { result ≡ kit_of kits.Decimate (factor_of kinds.Decimate factor) }
    {
        Ok(Kit::Decimate(Decimate::new(factor)?))
    }

    /// Makes an upsampler, which puts `factor - 1` zeros after each sample; `factor` is 1 to 64.
    pub fn interpolate(factor: u32) -> Result<Kit, KitFault>
        ensures { result ≡ kit_of kits.Interpolate (factor_of kinds.Interpolate factor) }
    {
        Ok(Kit::Interpolate(Interpolate::new(factor)?))
    }

    /// Makes a sum of 2 to 16 `ways`.
    pub fn add(ways: usize) -> Result<Kit, KitFault>
        ensures { result ≡ kit_of kits.Add (ways_of kinds.Add ways) }
    {
        Ok(Kit::Add(Add::new(ways)?))
    }

    /// Makes a fork, which puts each sample on each of 2 to 16 `ways`.
    pub fn fork(ways: usize) -> Result<Kit, KitFault>
        ensures { result ≡ kit_of kits.Fork (ways_of kinds.Fork ways) }
    {
        Ok(Kit::Fork(Fork::new(ways)?))
    }

    /// Makes a gain, which multiplies by `gain`, of 16 bits, and divides by `2^shift`, `shift` at most 15.
    pub fn gain(gain: i32, shift: u32) -> Result<Kit, KitFault>
        ensures { result ≡ kit_of kits.Gain (scale_of gain shift) }
    {
        Ok(Kit::Gain(Gain::new(gain, shift)?))
    }

    /// Makes a delay, which puts each sample `length` firings later, at most 65,536.
    pub fn delay(length: usize) -> Result<Kit, KitFault>
        ensures { result ≡ kit_of kits.Delay (length_of length) }
    {
        Ok(Kit::Delay(Delay::new(length)?))
    }

    /// Makes a table of 1 to 65,536 `values`, which puts `values[x + offset]` for each sample `x`.
    pub fn table(offset: i32, values: Vec<i32>) -> Result<Kit, KitFault>
        ensures { result ≡ kit_of kits.Table (lookup_of offset values.items) }
    {
        Ok(Kit::Table(Lookup::new(offset, values)?))
    }

    /// Makes an actor that deals one way out to 2 to 16 `ways`, `run` samples, 1 to 64, to each in turn.
    pub fn deal(ways: usize, run: u32) -> Result<Kit, KitFault>
        ensures { result ≡ kit_of kits.Deal (turns_of kinds.Deal ways run) }
    {
        Ok(Kit::Deal(Deal::new(ways, run)?))
    }

    /// Makes an actor that gathers 2 to 16 `ways` into one, `run` samples, 1 to 64, from each in turn.
    pub fn gather(ways: usize, run: u32) -> Result<Kit, KitFault>
        ensures { result ≡ kit_of kits.Gather (turns_of kinds.Gather ways run) }
    {
        Ok(Kit::Gather(Gather::new(ways, run)?))
    }

    /// Makes a clipper, which clamps to `least` and `greatest`, both of 16 bits, `least` at most `greatest`.
    pub fn clip(least: i32, greatest: i32) -> Result<Kit, KitFault>
        ensures { result ≡ kit_of kits.Clip (limits_of least greatest) }
    {
        Ok(Kit::Clip(Clip::new(least, greatest)?))
    }

    /// Makes an offset, which adds `value`, of 16 bits.
    pub fn offset(value: i32) -> Result<Kit, KitFault>
        ensures { result ≡ kit_of kits.Offset (value_of value) }
    {
        Ok(Kit::Offset(Offset::new(value)?))
    }

    /// Returns the actor's ports and rates.
    pub fn ports(&self) -> Ports
        ensures is { result ≡ (behaviour self.now).ports }
        ensures limits { ArePorts result }
    {
        match self {
            Kit::Fir(f) => f.ports(),
            Kit::Decimate(d) => d.ports(),
            Kit::Interpolate(i) => i.ports(),
            Kit::Add(a) => a.ports(),
            Kit::Fork(f) => f.ports(),
            Kit::Gain(g) => g.ports(),
            Kit::Delay(d) => d.ports(),
            Kit::Table(t) => t.ports(),
            Kit::Deal(d) => d.ports(),
            Kit::Gather(g) => g.ports(),
            Kit::Clip(c) => c.ports(),
            Kit::Offset(o) => o.ports(),
        }
    }

    /// Returns the number of samples that it keeps from one firing to the next.
    fn kept_len(&self) -> usize
        ensures is { result ≡ (behaviour self.now).kept }
        ensures few { result ≤ MAX_DELAY }
    {
        match self {
            Kit::Fir(f) => f.kept_len(),
            Kit::Delay(d) => d.length(),
            _ => 0,
        }
    }
}

impl Actor for Kit {
    type Token = i32;

    type State = Kept;

    ghost steps = { kit_steps };

    fn inputs(&self) -> usize {
        self.ports().inputs.count()
    }

    fn outputs(&self) -> usize {
        self.ports().outputs.count()
    }

    fn cycle(&self) -> u32 {
        self.ports().cycle
    }

    fn take(&self, port: usize, phase: u32) -> u32 {
        self.ports().inputs.moved(port, phase)
    }

    fn put(&self, port: usize, phase: u32) -> u32 {
        self.ports().outputs.moved(port, phase)
    }

    fn start(&self, alloc: Global) -> Result<Kept, AllocError> {
        Kept::zeros(alloc, self.kept_len())
    }

    fn again(&self, alloc: Global, state: &Kept) -> Result<Kept, AllocError> {
        state.again(alloc)
    }

    fn fire(&self, _phase: u32, state: &mut Kept, taken: &[i32], put: &mut [i32]) {
        match self {
            Kit::Fir(f) => f.fire(state, taken, put),
            Kit::Decimate(d) => d.run(taken, put),
            Kit::Interpolate(i) => i.run(taken, put),
            Kit::Add(a) => a.run(taken, put),
            Kit::Fork(f) => f.run(taken, put),
            Kit::Gain(g) => g.run(taken, put),
            Kit::Delay(d) => d.run(state, taken, put),
            Kit::Table(t) => t.run(taken, put),
            Kit::Deal(d) => d.run(taken, put),
            Kit::Gather(g) => g.run(taken, put),
            Kit::Clip(c) => c.run(taken, put),
            Kit::Offset(o) => o.run(taken, put),
        }
    }

    fn fire_at_once(
        &self,
        _phase: u32,
        many: usize,
        state: &mut Kept,
        taken: &[i32],
        put: &mut [i32],
    ) -> bool {
        // The contract of `ports` says that each rate is at least 1.
        self.ports();
        if state.items().len() != self.kept_len() {
            return false;
        }
        match self {
            Kit::Fir(f) => f.run(many, state, taken, put),
            Kit::Decimate(d) => d.run(taken, put),
            Kit::Interpolate(i) => i.run(taken, put),
            Kit::Gain(g) => g.run(taken, put),
            Kit::Delay(d) => d.run(state, taken, put),
            Kit::Table(t) => t.run(taken, put),
            Kit::Clip(c) => c.run(taken, put),
            Kit::Offset(o) => o.run(taken, put),
            Kit::Add(a) => a.run(taken, put),
            Kit::Fork(f) => f.run(taken, put),
            Kit::Deal(d) => d.run(taken, put),
            Kit::Gather(g) => g.run(taken, put),
        }
        true
    }

    ghost puts_fit = { kit_puts_fit };
}

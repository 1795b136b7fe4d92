//! One part of a run that is split in time.

ghost use Rattle.std.specs.Prelude.{◌≡◌, ◌-◌, ◌≤◌, ◌<◌, ℕ, List, MatchResult};
ghost use Rattle.sdf_actor.specs.Wires.{lists};
ghost use Rattle.sdf_actor.specs.NetStates.{IsNetState};
ghost use Rattle.sdf_queues.specs.RunResults.{periods_of};
ghost use Rattle.sdf_queues.specs.Feeds.{GoesOnBy};
ghost use Rattle.sdf_queues.specs.declared.fault.RunFault.TheVariants.{OutOfMemory};
ghost use Rattle.sdf_warm_up.specs.Laws.{WasLeft};
ghost use Rattle.sdf_parallel.specs.Parts.{AreStretches, IsSplit, IsWarmedUp, IsStretch, IsPart, read_by};

use crate::part_io::PartIo;
use sdf_actor::{Actor, Net, NetState};
use sdf_one::{RunInputs, SpareMemory, resume_one_in};
use sdf_queues::RunFault;
use sdf_sched::Period;
use std::alloc::Global;
use std::mem;

/// A run of `periods` periods of a net, in parts on up to `workers` workers. A part has at least `least` periods,
/// unless it is the last one. Each part except the first is run after `warm` periods of warm-up. A part is run in
/// stretches of up to `stretch` periods, which limits the length of its lists.
#[derive_where(Clone, Copy)]
pub struct Split<'a, A: Actor> {
    pub net: &'a Net<A>,
    pub period: &'a Period,
    pub periods: u32,
    pub warm: u32,
    pub least: u32,
    pub stretch: u32,
    pub workers: u32,
}

/// The periods from number `from` up to number `to`, which is not included.
#[derive(Clone, Copy)]
pub(crate) struct Stretch {
    pub(crate) from: u32,
    pub(crate) to: u32,
}

/// What the outputs of a part's stretches became, and the state in which the part leaves the net.
#[derive(Drop)]
pub(crate) struct PartResult<M, T, S> {
    pub(crate) made: Vec<M>,
    pub(crate) rest: NetState<T, S>,
}

/// The memory of runs of one length.
#[derive(Drop)]
struct RunMemory<T> {
    inputs: Vec<Vec<T>>,
    spares: SpareMemory<T>,
}

impl<T: Copy> RunMemory<T> {
    /// Begins with no memory, and takes none.
    fn none(alloc: Global) -> RunMemory<T> {
        RunMemory {
            inputs: Vec::new(alloc),
            spares: SpareMemory::none(alloc),
        }
    }
}

/// The memory of a part, which later parts reuse. A warm-up and a stretch can differ in length, so each of the two has
/// memory of its own.
#[derive(Drop)]
pub(crate) struct Memory<M, T> {
    warming: RunMemory<T>,
    own: RunMemory<T>,
    /// What the outputs of earlier stretches became, given back for reuse.
    pub(crate) spares: Vec<M>,
}

impl<M: Drop, T: Copy> Memory<M, T> {
    /// Begins with no memory, and takes none.
    pub(crate) fn none(alloc: Global) -> Memory<M, T> {
        Memory {
            warming: RunMemory::none(alloc),
            own: RunMemory::none(alloc),
            spares: Vec::new(alloc),
        }
    }
}

/// Runs the periods of `stretch` from the state `begin`. Returns their output lists and the state after them.
fn run_stretch<A: Actor, E: PartIo<A::Token>>(
    alloc: Global,
    io: &E,
    split: Split<'_, A>,
    begin: &NetState<A::Token, A::State>,
    stretch: Stretch,
    memory: &mut RunMemory<A::Token>,
) -> Result<(Vec<Vec<A::Token>>, NetState<A::Token, A::State>), RunFault>
    requires split { IsSplit A.steps (E.inputs io.now) split }
    requires begin { (first : List (List A.Token)) × (few : ℕ)
        × IsNetState A.steps split.net.now first (periods_of split.period.now.repetitions few) begin.now }
    requires order { stretch.from ≤ stretch.to }
    requires within { stretch.to ≤ split.periods }
    ensures { let n = split.entry.net.now in let q = split.entry.period.now.repetitions in MatchResult result
        (λ r. GoesOnBy A.steps n q begin.now (stretch.to - stretch.from)
        (read_by n q (E.inputs io.now) stretch.from stretch.to) (lists r.0.items) r.1)
        (λ fault. fault ≡ OutOfMemory) }
{
    let samples = split.net.samples_in();
    let spares = mem::replace(&mut memory.inputs, Vec::new(alloc));
    let inputs = io.read(
        alloc,
        stretch.from as usize * samples,
        stretch.to as usize * samples,
        spares,
    )?;
    let run_inputs = RunInputs {
        net: split.net,
        period: split.period,
        periods: stretch.to - stretch.from,
        inputs: &inputs,
    };
    let (ran, rest) = resume_one_in(alloc, run_inputs, begin, &mut memory.spares)?;
    memory.inputs = inputs;
    Ok((ran.outputs, rest))
}

/// Runs the warm-up before the period `from`, and returns the state in which it leaves the net.
fn run_warm_up<A: Actor, E: PartIo<A::Token>>(
    alloc: Global,
    io: &E,
    split: Split<'_, A>,
    from: u32,
    memory: &mut RunMemory<A::Token>,
) -> Result<NetState<A::Token, A::State>, RunFault>
    requires split { IsSplit A.steps (E.inputs io.now) split }
    requires warm { split.warm ≤ from }
    requires within { from ≤ split.periods }
    ensures { MatchResult result
        (IsWarmedUp A.steps split.entry.net.now split.entry.period.now.repetitions (E.inputs io.now)
        split.entry.warm from)
        (λ fault. fault ≡ OutOfMemory) }
{
    let first = split.net.initial_state(alloc)?;
    let stretch = Stretch {
        from: from - split.warm,
        to: from,
    };
    let (outputs, rest) = run_stretch(alloc, io, split, &first, stretch, memory)?;
    memory.spares.give_back(outputs);
    Ok(rest)
}

/// Runs a stretch of a part from the state `begin`, and returns what its outputs became and the state after it.
fn finish_stretch<A: Actor, E: PartIo<A::Token>>(
    alloc: Global,
    io: &E,
    split: Split<'_, A>,
    begin: &NetState<A::Token, A::State>,
    stretch: Stretch,
    memory: &mut Memory<E::StretchResult, A::Token>,
) -> Result<(E::StretchResult, NetState<A::Token, A::State>), RunFault>
    requires split { IsSplit A.steps (E.inputs io.now) split }
    requires begin { WasLeft A.steps split.net.now split.period.now.repetitions begin.now }
    requires order { stretch.from ≤ stretch.to }
    requires within { stretch.to ≤ split.periods }
    ensures { let n = split.entry.net.now in let q = split.entry.period.now.repetitions in MatchResult result
        (λ r. IsStretch A.steps n q (E.inputs io.now) (E.makes io.now) begin.now stretch.from stretch.to r.0 r.1
        × WasLeft A.steps n q r.1)
        (λ fault. fault ≡ OutOfMemory) }
{
    let (outputs, rest) = run_stretch(alloc, io, split, begin, stretch, &mut memory.own)?;
    let periods = stretch.to - stretch.from;
    let made = io.finish(alloc, periods, &outputs, memory.spares.pop())?;
    memory.own.spares.give_back(outputs);
    Ok((made, rest))
}

/// Runs the periods of `part` from the state `begin`, in stretches of one length and a last one that may be shorter.
fn stretches<A: Actor, E: PartIo<A::Token>>(
    alloc: Global,
    io: &E,
    split: Split<'_, A>,
    begin: &NetState<A::Token, A::State>,
    part: Stretch,
    memory: &mut Memory<E::StretchResult, A::Token>,
) -> Result<PartResult<E::StretchResult, A::Token, A::State>, RunFault>
    requires split { IsSplit A.steps (E.inputs io.now) split }
    requires begin { WasLeft A.steps split.net.now split.period.now.repetitions begin.now }
    requires order { part.from ≤ part.to }
    requires within { part.to ≤ split.periods }
    ensures { let n = split.entry.net.now in let q = split.entry.period.now.repetitions in MatchResult result
        (λ m. AreStretches A.steps n q (E.inputs io.now) (E.makes io.now) begin.now part.from part.to m.made.items
        m.rest)
        (λ fault. fault ≡ OutOfMemory) }
{
    let Stretch { from, to } = part;
    let many = (to - from).div_ceil(split.stretch).max(1);
    let size = (to - from).div_ceil(many);
    let mut at = from + size.min(to - from);
    let first = Stretch { from, to: at };
    let (made, mut rest) = finish_stretch(alloc, io, split, begin, first, memory)?;
    let mut all = Vec::with_capacity(alloc, many as usize)?;
    all.push_reserved(made);
    while at < to {
        let next = Stretch {
            from: at,
            to: at + size.min(to - at),
        };
        let (made, last) = finish_stretch(alloc, io, split, &rest, next, memory)?;
        all.reserve(1)?;
        all.push_reserved(made);
        rest = last;
        at = next.to;
    }
    Ok(PartResult { made: all, rest })
}

/// Runs the periods of `part`, after its warm-up unless it is the first part.
pub(crate) fn run_part<A: Actor, E: PartIo<A::Token>>(
    alloc: Global,
    io: &E,
    split: Split<'_, A>,
    rest: &NetState<A::Token, A::State>,
    part: Stretch,
    memory: &mut Memory<E::StretchResult, A::Token>,
) -> Result<PartResult<E::StretchResult, A::Token, A::State>, RunFault>
    requires split { IsSplit A.steps (E.inputs io.now) split }
    requires rest { WasLeft A.steps split.net.now split.period.now.repetitions rest.now }
    requires order { part.from ≤ part.to }
    requires within { part.to ≤ split.periods }
    requires warm { 0 < part.from → split.warm ≤ part.from }
    ensures { let n = split.entry.net.now in let q = split.entry.period.now.repetitions in MatchResult result
        (λ m. IsPart A.steps n q (E.inputs io.now) (E.makes io.now) rest.now split.entry.warm part.from part.to
        m.made.items m.rest)
        (λ fault. fault ≡ OutOfMemory) }
{
    if part.from == 0 {
        return stretches(alloc, io, split, rest, part, memory);
    }
    let begin = run_warm_up(alloc, io, split, part.from, &mut memory.warming)?;
    stretches(alloc, io, split, &begin, part, memory)
}

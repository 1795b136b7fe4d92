//! A net that plays a sound some periods at a time, on one thread or in parallel parts. It holds the state that the
//! periods before left, and their memory, which it uses again.

ghost use Rattle.std.specs.Prelude.{◌≡◌, ◌*◌, ◌≤◌, ◌<◌, [], IfErr, IfOk, IfSome, IfNone, MatchResult, Some, is_some};
ghost use Rattle.std.specs.Prelude.{true};
ghost use Rattle.sdf_actor.specs.Wires.{lists as items_of};
ghost use Rattle.sdf_queues.specs.declared.fault.RunFault.TheVariants as run;
ghost use Rattle.sdf_warm_up.specs.WarmUps.{IsLasting};
ghost use Rattle.sdf_graph.specs.Rates.{rates};
ghost use Rattle.sdf_actor.specs.Graphs.{graph_of};
ghost use Rattle.sdf_actor.specs.NetFaults.{WasAccepted};
ghost use Rattle.sdf_kit.specs.Kit.{kit_steps};
ghost use Rattle.sdf_sched.specs.Period.{IsPeriodOf};
ghost use Rattle.sdf_faults.specs.declared.fault.Fault.TheVariants.{OutOfMemory};
ghost use Rattle.sdf_wav.specs.Sound.{Sound};
ghost use Rattle.sdf_process.specs.declared.part_sizes.Partition.{Partition};
ghost use Rattle.sdf_process.specs.Output.{io_rates_of, AreIoRates};
ghost use Rattle.sdf_process.specs.Streams.{CanPlay, CanPlayNext, Plays, PlaysNext, StandsAt, StaysPlayer};
ghost use Rattle.sdf_process.specs.PlannedNets.{IsPartition, IsPlayer, IsPlayerPlan, partition_by};

use crate::io_rates::IoRates;
use crate::part_sizes::{Partition, STRETCH, periods_in, piece_periods};
use crate::portion::Portion;
use crate::samples::make_frames;
use sdf_actor::{Net, NetState};
use sdf_faults::Fault;
use sdf_kit::{Kept, Kit};
use sdf_parallel::{PartWorkers, Split, resume_split};
use sdf_queues::RunFault;
use sdf_run::{RunInputs, SpareMemory, resume_one_in};
use sdf_sched::Period;
use sdf_warm_up::warm_up::warm_up;
use std::alloc::{AllocError, Global};
use std::mem;
use std::thread::Threads;

/// A net, a schedule of its period, and the most parts of a sound that are run in parallel.
#[derive(Clone, Copy)]
pub(crate) struct PlayerPlan<'a> {
    pub(crate) net: &'a Net<Kit>,
    pub(crate) period: &'a Period,
    pub(crate) parts: u32,
}

/// Memory that one thread keeps from a piece for the next one.
#[derive(Drop)]
pub(crate) struct Memory {
    /// The input lists.
    inputs: Vec<Vec<i32>>,
    /// The memory of the run.
    spares: SpareMemory<i32>,
    /// The memory of its frames.
    frames: Vec<Vec<i16>>,
}

impl Memory {
    /// Makes a memory that keeps nothing yet.
    fn none(alloc: Global) -> Memory {
        Memory {
            inputs: Vec::new(alloc),
            spares: SpareMemory::none(alloc),
            frames: Vec::new(alloc),
        }
    }

    /// Plays `portion` from `rest`, the state that the periods before left, and returns the frames that it makes.
    fn play(
        &mut self,
        alloc: Global,
        net: &Net<Kit>,
        period: &Period,
        rest: &mut NetState<i32, Kept>,
        portion: Portion<'_>,
    ) -> Result<Vec<Vec<i16>>, RunFault>
        requires period { IsPeriodOf (rates (graph_of kit_steps net.now)) period.now }
        requires can { CanPlay net.now period.now rest.old portion }
        ensures plays { IfOk result (λ v. Plays net.now period.now rest.old rest.new portion.entry
            (items_of v.items)) }
        ensures refused { IfErr result (λ f. f ≡ run.OutOfMemory) }
    {
        let mut made = mem::replace(&mut self.frames, Vec::new(alloc));
        let spare = made.pop().unwrap_or(Vec::new(alloc));
        made.clear();
        let lists = portion.lists(alloc, &mut self.inputs)?;
        let run_inputs = RunInputs {
            net,
            period,
            periods: portion.periods,
            inputs: &lists,
        };
        let (ran, last) = resume_one_in(alloc, run_inputs, rest, &mut self.spares)?;
        self.inputs = lists;
        *rest = last;
        let frames = make_frames(&ran.outputs, portion.frames, spare)?;
        self.spares.give_back(ran.outputs);
        made.reserve(1)?;
        made.push_reserved(frames);
        Ok(made)
    }
}

/// The way in which pieces are played.
#[derive(Drop)]
pub(crate) enum Manner {
    /// On one thread.
    Whole(Memory),
    /// In the parallel parts of this partition, by these workers.
    Parts(Partition, PartWorkers<Vec<i16>, i32, Kept>),
}

/// A net that plays a sound.
#[derive(Drop)]
pub(crate) struct Player<'a> {
    pub(crate) net: &'a Net<Kit>,
    pub(crate) period: &'a Period,
    /// The net state that the periods before left.
    pub(crate) rest: NetState<i32, Kept>,
    pub(crate) manner: Manner,
}

/// Returns the partition of a sound, if several parts are requested and the net is known to forget its input.
fn partition_for(
    alloc: Global,
    player_plan: PlayerPlan<'_>,
) -> Result<Option<Partition>, AllocError>
    requires { IsPlayerPlan player_plan }
    ensures warm { IfOk result (IsPartition player_plan.entry.net.now player_plan.entry.period.now.repetitions) }
    ensures parts { IfOk result (λ cut. IfSome cut (λ (c : Partition). c.parts ≡ player_plan.entry.parts)) }
    ensures whole { IfOk result (λ cut. IfNone cut (2 ≤ player_plan.entry.parts →
        IsLasting kit_steps player_plan.entry.net.now)) }
{
    if player_plan.parts < 2 {
        return Ok(None);
    }
    let Some(warm) = warm_up(alloc, player_plan.net)? else {
        return Ok(None);
    };
    let parts = player_plan.parts;
    Ok(Some(Partition { parts, warm }))
}

impl<'a> Player<'a> {
    /// Makes a player before its first period.
    pub(crate) fn open(alloc: Global, player_plan: PlayerPlan<'a>) -> Result<Player<'a>, Fault>
        requires player_plan { IsPlayerPlan player_plan }
        requires taken { 0 < (io_rates_of player_plan.net.now player_plan.period.now.repetitions).taken }
        requires accepted { WasAccepted kit_steps player_plan.net.now }
        ensures player { MatchResult result
            (λ v. IsPlayer v × (v.net ≡ player_plan.entry.net) × (v.period ≡ player_plan.entry.period))
            (λ e. e ≡ OutOfMemory) }
        ensures stands { IfOk result (λ v. (s : Sound) →
            StandsAt player_plan.entry.net.now player_plan.entry.period.now 1 s 0 0 []
            (Some v.rest)) }
        ensures parts { IfOk result (λ v. IfSome (partition_by v.manner)
            (λ (c : Partition). c.parts ≡ player_plan.entry.parts)) }
        ensures whole { IfOk result (λ v. IfNone (partition_by v.manner) (2 ≤ player_plan.entry.parts →
            IsLasting kit_steps player_plan.entry.net.now)) }
    {
        let manner = match partition_for(alloc, player_plan)? {
            Some(cut) => Manner::Parts(cut, PartWorkers::none(alloc)),
            None => Manner::Whole(Memory::none(alloc)),
        };
        let rest = player_plan.net.initial_state(alloc)?;
        Ok(Player {
            net: player_plan.net,
            period: player_plan.period,
            rest,
            manner,
        })
    }

    /// Returns the partition by which pieces are cut in time, unless one thread plays them.
    fn cut(&self) -> Option<Partition>
        ensures { result ≡ partition_by self.now.manner }
    {
        match &self.manner {
            Manner::Whole(_) => None,
            Manner::Parts(cut, _) => Some(*cut),
        }
    }

    /// Returns whether it runs parts of a sound in parallel.
    pub(crate) fn is_in_parts(&self) -> bool
        ensures { result ≡ is_some (partition_by self.now.manner) }
    {
        self.cut().is_some()
    }

    /// Returns the number of frames to feed at a time, if each worker has up to `share` of them.
    pub(crate) fn piece(&self, io: IoRates, share: usize) -> usize
        requires limits { AreIoRates io }
        requires few { share < 4294967296 }
        ensures { 0 < result }
    {
        piece_periods(io, self.cut(), share) as usize * io.taken
    }

    /// Runs `portion` in parallel parts, each of which makes its own frames, and `meanwhile` beside them.
    pub(crate) fn run_parts<T: Threads + Sync, G: FnMut() -> B, B>(
        &mut self,
        rt: &T,
        portion: Portion<'_>,
        meanwhile: &mut G,
    ) -> (Result<Vec<Vec<i16>>, RunFault>, B)
        requires player { IsPlayer self.old }
        requires cut { is_some (partition_by self.old.manner) ≡ true }
        requires can { CanPlayNext self.old portion }
        requires all { portion.frames ≡ portion.periods * portion.io.made }
        requires meanwhile { G.pre meanwhile.old }
        ensures plays { IfOk result.0 (λ v. PlaysNext self.old self.new portion.entry (items_of v.items)) }
        ensures refused { IfErr result.0 (λ f. f ≡ run.OutOfMemory) }
        ensures stays { StaysPlayer self.old self.new }
        ensures meanwhile { G.step meanwhile.old result.1 meanwhile.new }
    {
        let Manner::Parts(cut, workers) = &mut self.manner else {
            unreachable!()
        };
        let split = Split {
            net: self.net,
            period: self.period,
            periods: portion.periods,
            warm: cut.warm,
            least: cut.least_part(portion.io, portion.periods),
            stretch: periods_in(STRETCH, portion.io),
            workers: cut.parts,
        };
        let (ran, done) = resume_split(rt, &portion, split, &self.rest, workers, meanwhile);
        match ran {
            Ok((parts, last)) => {
                self.rest = last;
                (Ok(parts), done)
            }
            Err(fault) => (Err(fault), done),
        }
    }

    /// Runs `portion`, and returns the frames that it makes.
    pub(crate) fn run<T: Threads + Sync>(
        &mut self,
        rt: &T,
        alloc: Global,
        portion: Portion<'_>,
    ) -> Result<Vec<Vec<i16>>, RunFault>
        requires player { IsPlayer self.old }
        requires can { CanPlayNext self.old portion }
        requires all { portion.frames ≡ portion.periods * portion.io.made }
        ensures plays { IfOk result (λ v. PlaysNext self.old self.new portion.entry (items_of v.items)) }
        ensures refused { IfErr result (λ f. f ≡ run.OutOfMemory) }
        ensures stays { StaysPlayer self.old self.new }
    {
        if let Manner::Whole(memory) = &mut self.manner {
            return memory.play(alloc, self.net, self.period, &mut self.rest, portion);
        }
        let (ran, _) = self.run_parts(rt, portion, &mut || {});
        ran
    }

    /// Takes back the memory of frames that were written.
    pub(crate) fn give_back(&mut self, frames: Vec<Vec<i16>>)
        ensures { StaysPlayer self.old self.new × (self.new.rest ≡ self.old.rest) }
    {
        match &mut self.manner {
            Manner::Whole(memory) => memory.frames = frames,
            Manner::Parts(_, workers) => workers.give_back(frames),
        }
    }
}

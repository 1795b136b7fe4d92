//! A run that takes its input and writes its output as it goes. It holds what a piece of the input and a block need.

ghost use Rattle.std.specs.Prelude.{◌≡◌, ◌*◌, ◌≤◌, [], length, drop, true, is_some, IfErr, IfOk};
ghost use Rattle.sdf_actor.specs.Wires.{lists as items_of};
ghost use Rattle.sdf_queues.specs.declared.fault.RunFault.TheVariants as run;
ghost use Rattle.sdf_wav.specs.Device.{ReaderState, WriterState};
ghost use Rattle.sdf_process.specs.Flows.{CanStep, CanTurn, KeepsGoing, GoesOn, Start, StepsOn, StreamsFrom, TakesMost};
ghost use Rattle.sdf_process.specs.Flows.{TurnsAll, start_of};
ghost use Rattle.sdf_process.specs.Streams.{CanPlayNext, IsOpened, PlaysNext, StaysPlayer, Streams};
ghost use Rattle.sdf_process.specs.Streams.{is_in_parts};
ghost use Rattle.sdf_process.specs.PlannedNets.{IsOpenedOutput, IsPlayer, partition_by};

use crate::flow::Flow;
use crate::io_rates::IoRates;
use crate::opened_output::OpenedOutput;
use crate::player::Player;
use crate::portion::Portion;
use crate::runner::{PieceRunner, play_result};
use crate::writing::put_in_turn;
use sdf_actor::Net;
use sdf_faults::Fault;
use sdf_kit::Kit;
use sdf_queues::RunFault;
use sdf_run::Gate;
use sdf_run::laws::runs_go_on;
use sdf_sched::Period;
use sdf_wav::{Reader, Writer};
use std::alloc::{AllocError, Global};
use std::mem;
use std::thread::Threads;

/// Returns a copy of the samples from index `from` on.
fn copy_tail(alloc: Global, samples: &[i16], from: usize) -> Result<Vec<i16>, AllocError>
    requires { from ≤ length samples.now }
    ensures { IfOk result (λ rest. rest.items ≡ drop from samples.now) }
{
    let mut rest = Vec::new(alloc);
    rest.extend_from_slice(&samples[from..])?;
    Ok(rest)
}

/// A run before its first frame.
#[derive(Drop)]
pub(crate) struct Opened<'a> {
    pub(crate) net: &'a Net<Kit>,
    pub(crate) period: &'a Period,
    pub(crate) runner: PieceRunner<'a>,
    /// Periods in a block.
    pub(crate) blocking: u32,
    /// Frames that are taken at first.
    pub(crate) first: usize,
    /// Frames that are taken at a time after the first.
    pub(crate) frames: usize,
}

/// A run that goes on block by block.
pub(crate) struct Stream<'a> {
    runner: PieceRunner<'a>,
    flow: Flow,
    io: IoRates,
    /// Periods in a block.
    blocking: u32,
    /// Frames a second of the sound.
    rate: u32,
    /// Samples in a frame of the sound.
    channels: u16,
}

/// Not derived: a derived drop is expanded, with all lists of the runner and the flow, wherever a run may stop.
impl Drop for Stream<'_> {
    fn drop(self) {
        let Stream {
            runner: _,
            flow: _,
            io: _,
            blocking: _,
            rate: _,
            channels: _,
        } = self;
    }
}

impl<'a> Stream<'a> {
    /// Makes the stream of a run before its first frame.
    fn open(alloc: Global, opened: Opened<'a>, opened_output: OpenedOutput) -> Stream<'a>
        requires opened { IsOpened opened }
        requires opened_output { IsOpenedOutput opened.net.now opened.period.now.repetitions opened_output }
        ensures { (r : ReaderState) (w : WriterState) →
            GoesOn (start_of opened.entry opened_output r w) result r w }
    {
        let OpenedOutput {
            source,
            frames: left,
            output,
        } = opened_output;
        runs_go_on::<Kit>();
        let io = IoRates::of_net(opened.net);
        let (rate, channels) = (source.rate(), source.channels());
        let flow = Flow {
            source,
            left,
            most: opened.first,
            kept: Vec::new(alloc),
            made: Vec::new(alloc),
            spare: Vec::new(alloc),
            output,
        };
        Stream {
            runner: opened.runner,
            flow,
            io,
            blocking: opened.blocking,
            rate,
            channels,
        }
    }

    /// Runs `portion`, then writes the frames that it makes and takes the next ones.
    fn run_in_turn<T: Threads + AllocGlobal + Sync, R: Reader, W: Writer, G: Gate>(
        &mut self,
        rt: &T,
        reader: &mut R,
        writer: &mut W,
        gate: &G,
        portion: Portion<'_>,
    ) -> Result<(), Fault>
        requires step { CanStep self.old portion (R.state reader.old) (W.state writer.old) }
        requires waits { items_of self.old.flow.made.items ≡ [] }
        ensures goes { StepsOn self.old self.new portion.entry (R.state reader.old) (R.state reader.new)
            (W.state writer.old) (W.state writer.new) result }
        ensures left { TakesMost self.old.flow self.new.flow result }
    {
        self.flow.made = self.runner.run(rt, gate, portion)?;
        self.flow.write_and_take(rt.alloc(), reader, writer)
    }

    /// Runs `portion` in parallel parts. Meanwhile the frames made before are written and the next ones are taken.
    fn run_overlapped<T: Threads + AllocGlobal + Sync, R: Reader, W: Writer>(
        &mut self,
        rt: &T,
        reader: &mut R,
        writer: &mut W,
        portion: Portion<'_>,
    ) -> Result<(), Fault>
        requires step { CanStep self.old portion (R.state reader.old) (W.state writer.old) }
        requires parts { is_in_parts self.old.runner ≡ true }
        ensures goes { StepsOn self.old self.new portion.entry (R.state reader.old) (R.state reader.new)
            (W.state writer.old) (W.state writer.new) result }
        ensures left { TakesMost self.old.flow self.new.flow result }
    {
        let PieceRunner::Player(player) = &mut self.runner else {
            unreachable!()
        };
        let (ran, turned) = play_overlapped(rt, player, &mut self.flow, reader, writer, portion);
        turned?;
        self.flow.made = play_result(ran)?;
        Ok(())
    }

    /// Runs `portion`, writes frames and takes the next ones.
    fn run<T: Threads + AllocGlobal + Sync, R: Reader, W: Writer, G: Gate>(
        &mut self,
        rt: &T,
        reader: &mut R,
        writer: &mut W,
        gate: &G,
        portion: Portion<'_>,
    ) -> Result<(), Fault>
        requires step { CanStep self.old portion (R.state reader.old) (W.state writer.old) }
        ensures goes { StepsOn self.old self.new portion.entry (R.state reader.old) (R.state reader.new)
            (W.state writer.old) (W.state writer.new) result }
        ensures left { TakesMost self.old.flow self.new.flow result }
    {
        if self.runner.is_in_parts() {
            self.run_overlapped(rt, reader, writer, portion)
        } else {
            self.run_in_turn(rt, reader, writer, gate, portion)
        }
    }

    /// Runs the whole blocks of the kept samples, writes frames that were made, and takes the next ones.
    fn run_blocks<T: Threads + AllocGlobal + Sync, R: Reader, W: Writer, G: Gate>(
        &mut self,
        rt: &T,
        reader: &mut R,
        writer: &mut W,
        gate: &G,
    ) -> Result<(), Fault>
        requires on { (b : Start) × GoesOn b self.old (R.state reader.old) (W.state writer.old) }
        ensures goes { KeepsGoing self.old self.new (R.state reader.old) (R.state reader.new) (W.state writer.old)
            (W.state writer.new) result }
        ensures left { TakesMost self.old.flow self.new.flow result }
    {
        let block = self.blocking as usize * self.io.taken * usize::from(self.channels);
        let blocks = self.flow.kept.len() / block;
        if blocks == 0 {
            return self.flow.write_and_take(rt.alloc(), reader, writer);
        }
        let input = self.flow.take_kept(rt.alloc(), self.rate, self.channels);
        self.flow.kept = copy_tail(rt.alloc(), input.samples(), blocks * block)?;
        let periods = blocks * self.blocking as usize;
        let portion = Portion {
            io: self.io,
            input: &input,
            periods: periods as u32,
            frames: periods * self.io.made,
        };
        let spare = mem::replace(&mut self.flow.spare, Vec::new(rt.alloc()));
        self.runner.give_back(spare);
        self.run(rt, reader, writer, gate, portion)
    }

    /// Writes what was made, runs the kept samples, filled up with zeros to whole blocks, and writes the missing
    /// frames.
    fn finish<T: Threads + AllocGlobal + Sync, W: Writer, G: Gate>(
        &mut self,
        rt: &T,
        writer: &mut W,
        gate: &G,
    ) -> Result<(), Fault>
        requires on { (b : Start) × (r : ReaderState) × GoesOn b self.old r (W.state writer.old) }
        requires all { self.old.flow.left ≡ 0 }
        ensures { (b : Start) (r : ReaderState) → GoesOn b self.old r (W.state writer.old) →
            StreamsFrom b r (W.state writer.new) result }
    {
        let alloc = rt.alloc();
        self.flow.write(alloc, writer)?;
        let frames = self.flow.output.missing() as usize;
        if frames == 0 {
            return Ok(());
        }
        let blocks = frames.div_ceil(self.blocking as usize * self.io.made);
        let input = self.flow.take_kept(alloc, self.rate, self.channels);
        let portion = Portion {
            io: self.io,
            input: &input,
            periods: (blocks * self.blocking as usize) as u32,
            frames,
        };
        let made = self.runner.run(rt, gate, portion)?;
        put_in_turn(writer, &mut self.flow.output, &made)
    }
}

/// Plays `portion` in parallel parts. Meanwhile `flow` writes the frames made before and takes the next ones.
fn play_overlapped<T: Threads + AllocGlobal + Sync, R: Reader, W: Writer>(
    rt: &T,
    player: &mut Player<'_>,
    flow: &mut Flow,
    reader: &mut R,
    writer: &mut W,
    portion: Portion<'_>,
) -> (Result<Vec<Vec<i16>>, RunFault>, Result<(), Fault>)
    requires player { IsPlayer player.old }
    requires cut { is_some (partition_by player.old.manner) ≡ true }
    requires can { CanPlayNext player.old portion }
    requires all { portion.frames ≡ portion.periods * portion.io.made }
    requires ahead { CanTurn flow.old (R.state reader.old) (W.state writer.old) }
    ensures plays { IfOk result.0 (λ v. PlaysNext player.old player.new portion.entry (items_of v.items)) }
    ensures refused { IfErr result.0 (λ f. f ≡ run.OutOfMemory) }
    ensures stays { StaysPlayer player.old player.new }
    ensures turns { TurnsAll flow.old flow.new (R.state reader.old) (R.state reader.new) (W.state writer.old)
        (W.state writer.new) result.1 }
{
    let alloc = rt.alloc();
    player.run_parts(
        rt,
        portion,
        &mut || -> Result<(), Fault>
            requires { CanTurn flow.now (R.state reader.now) (W.state writer.now) }
            ensures { TurnsAll flow.entry.now flow.exit.now (R.state reader.entry.now) (R.state reader.exit.now)
                (W.state writer.entry.now) (W.state writer.exit.now) result }
        { flow.write_and_take(alloc, reader, writer) },
    )
}

/// Runs a net on the frames of a source: takes some frames, runs all whole blocks that there are, writes what they
/// make, and so on. The last block is filled up with zeros. A run in parallel parts writes and takes frames meanwhile.
/// It takes `opened.first` frames at first, and then `opened.frames` at a time.
pub(crate) fn run_stream<T: Threads + AllocGlobal + Sync, R: Reader, W: Writer, G: Gate>(
    rt: &T,
    reader: &mut R,
    writer: &mut W,
    gate: &G,
    opened: Opened<'_>,
    opened_output: OpenedOutput,
) -> Result<(), Fault>
    requires opened { IsOpened opened }
    requires opened_output { IsOpenedOutput opened.net.now opened.period.now.repetitions opened_output }
    ensures { Streams opened.entry.net.now opened.entry.period.now.repetitions opened_output.source
        (R.state reader.old) (R.state reader.new) (W.state writer.old) (W.state writer.new) result }
{
    let most = opened.frames;
    let mut stream = Stream::open(rt.alloc(), opened, opened_output);
    stream.run_blocks(rt, reader, writer, gate)?;
    stream.flow.most = most;
    while stream.flow.left > 0 {
        stream.run_blocks(rt, reader, writer, gate)?;
    }
    stream.run_blocks(rt, reader, writer, gate)?;
    stream.finish(rt, writer, gate)
}

//! The rest of a run whose output is opened, by its plan.

ghost use Rattle.std.specs.Prelude.{◌≡◌, ◌≤◌, [], IfOk, MatchResult};
ghost use Rattle.sdf_actor.specs.Sides.{list_count};
ghost use Rattle.sdf_actor.specs.declared.sides.Lists.TheVariants.{Inputs, Outputs};
ghost use Rattle.sdf_faults.specs.declared.fault.Fault.TheVariants.{OutOfMemory};
ghost use Rattle.sdf_wav.specs.Sound.{Sound};
ghost use Rattle.sdf_wav.specs.declared.wav.TheConstants.{MAX_CHANNELS};
ghost use Rattle.sdf_process.specs.Streams.{StandsAt, Streams};
ghost use Rattle.sdf_process.specs.PlannedNets.{IsOpenedOutput, IsPlayerPlan, AreSessionTerms, IsPlannedNet};

use crate::io_rates::IoRates;
use crate::part_sizes::{FIRST_SHARE, SHARE};
use crate::planned_net::PlannedNet;
use crate::player::{Player, PlayerPlan};
use crate::runner::PieceRunner;
use crate::source::Source;
use crate::streaming::{Opened, run_stream};
use sdf_faults::Fault;
use sdf_kit::Kit;
use sdf_plan::Execution;
use sdf_run::{Gate, Mode, Session, SessionTerms};
use sdf_wav::{ContentOut, Reader, Writer};
use std::alloc::Global;
use std::thread::Threads;

/// Frames that a session is fed at a time.
const FRAMES: usize = 4096;

/// A source of `frames` frames, before the first one is taken, and an output with only its header written.
#[derive(Drop)]
pub(crate) struct OpenedOutput {
    pub(crate) source: Source,
    pub(crate) frames: usize,
    pub(crate) output: ContentOut,
}

/// Opens a session, before it is fed.
fn open_session<'a>(alloc: Global, terms: SessionTerms<'a, Kit>) -> Result<Session<'a, Kit>, Fault>
    requires { AreSessionTerms terms }
    ensures stands { let t = terms.entry.table.now in MatchResult result
        (λ v. (s : Sound) → StandsAt terms.entry.net.now t.period t.blocking s 0 0 [] v.rest)
        (λ e. e ≡ OutOfMemory) }
    ensures is { IfOk result (λ v. (v.net ≡ terms.entry.net.now) × (v.period ≡ terms.entry.table.now.period)
        × (v.blocking ≡ terms.entry.table.now.blocking)) }
    ensures mode { IfOk result (λ v. v.mode ≡ terms.entry.mode) }
{
    let session = Session::open(alloc, terms.net, terms.table, terms.mode)?;
    Ok(session)
}

/// Runs a net on the frames of a source, by workers that follow a table of blocks.
fn run_session<T: Threads + AllocGlobal + Sync, R: Reader, W: Writer, G: Gate>(
    rt: &T,
    reader: &mut R,
    writer: &mut W,
    gate: &G,
    terms: SessionTerms<'_, Kit>,
    opened_output: OpenedOutput,
) -> Result<(), Fault>
    requires terms { AreSessionTerms terms }
    requires opened_output { IsOpenedOutput terms.net.now terms.table.now.period.repetitions opened_output }
    ensures { Streams terms.entry.net.now terms.entry.table.now.period.repetitions opened_output.source
        (R.state reader.old) (R.state reader.new) (W.state writer.old) (W.state writer.new) result }
{
    let session = open_session(rt.alloc(), terms)?;
    let opened = Opened {
        net: terms.net,
        period: &terms.table.period,
        runner: PieceRunner::Session(session),
        blocking: terms.table.blocking,
        first: FRAMES,
        frames: FRAMES,
    };
    run_stream(rt, reader, writer, gate, opened, opened_output)
}

/// Plays the frames of a source on one thread, or in parallel parts.
fn play<T: Threads + AllocGlobal + Sync, R: Reader, W: Writer, G: Gate>(
    rt: &T,
    reader: &mut R,
    writer: &mut W,
    gate: &G,
    player_plan: PlayerPlan<'_>,
    opened_output: OpenedOutput,
) -> Result<(), Fault>
    requires player_plan { IsPlayerPlan player_plan }
    requires inputs { list_count Inputs player_plan.net.now.nodes ≤ MAX_CHANNELS }
    requires outputs { list_count Outputs player_plan.net.now.nodes ≤ MAX_CHANNELS }
    requires opened_output { IsOpenedOutput player_plan.net.now player_plan.period.now.repetitions opened_output }
    ensures { Streams player_plan.entry.net.now player_plan.entry.period.now.repetitions opened_output.source
        (R.state reader.old) (R.state reader.new) (W.state writer.old) (W.state writer.new) result }
{
    let io = IoRates::of_net(player_plan.net);
    let player = Player::open(rt.alloc(), player_plan)?;
    let first = player.piece(io, FIRST_SHARE);
    let frames = player.piece(io, SHARE);
    let opened = Opened {
        net: player_plan.net,
        period: player_plan.period,
        runner: PieceRunner::Player(player),
        blocking: 1,
        first,
        frames,
    };
    run_stream(rt, reader, writer, gate, opened, opened_output)
}

/// Takes all frames of a source, and then plays them.
fn read_then_play<T: Threads + AllocGlobal + Sync, R: Reader, W: Writer, G: Gate>(
    rt: &T,
    reader: &mut R,
    writer: &mut W,
    gate: &G,
    player_plan: PlayerPlan<'_>,
    opened_output: OpenedOutput,
) -> Result<(), Fault>
    requires player_plan { IsPlayerPlan player_plan }
    requires inputs { list_count Inputs player_plan.net.now.nodes ≤ MAX_CHANNELS }
    requires outputs { list_count Outputs player_plan.net.now.nodes ≤ MAX_CHANNELS }
    requires opened_output { IsOpenedOutput player_plan.net.now player_plan.period.now.repetitions opened_output }
    ensures { Streams player_plan.entry.net.now player_plan.entry.period.now.repetitions opened_output.source
        (R.state reader.old) (R.state reader.new) (W.state writer.old) (W.state writer.new) result }
{
    let OpenedOutput {
        source,
        frames,
        output,
    } = opened_output;
    let sound = source.take_all(rt.alloc(), reader)?;
    let decoded = OpenedOutput {
        source: Source::Decoded { sound, taken: 0 },
        frames,
        output,
    };
    play(rt, reader, writer, gate, player_plan, decoded)
}

/// Runs a net by its plan on the frames of a source, and writes the frames of its output. A run on one thread takes all
/// frames before it plays them.
pub(crate) fn run_by_plan<T: Threads + AllocGlobal + Sync, R: Reader, W: Writer, G: Gate>(
    rt: &T,
    reader: &mut R,
    writer: &mut W,
    planned: PlannedNet<'_>,
    gate: &G,
    opened_output: OpenedOutput,
) -> Result<(), Fault>
    requires planned { IsPlannedNet planned }
    requires opened_output { IsOpenedOutput planned.net.now planned.plan.now.period.repetitions opened_output }
    ensures { Streams planned.entry.net.now planned.entry.plan.now.period.repetitions opened_output.source
        (R.state reader.old) (R.state reader.new) (W.state writer.old) (W.state writer.new) result }
{
    match planned.plan.way() {
        Execution::One { period, .. } => {
            let player_plan = PlayerPlan {
                net: planned.net,
                period,
                parts: 1,
            };
            read_then_play(rt, reader, writer, gate, player_plan, opened_output)
        }
        Execution::Parts { period, parts, .. } => {
            let player_plan = PlayerPlan {
                net: planned.net,
                period,
                parts: *parts,
            };
            play(rt, reader, writer, gate, player_plan, opened_output)
        }
        Execution::Rows(table) => {
            let terms = SessionTerms {
                net: planned.net,
                table,
                mode: Mode::Rows,
            };
            run_session(rt, reader, writer, gate, terms, opened_output)
        }
        Execution::Rings(table) => {
            let terms = SessionTerms {
                net: planned.net,
                table,
                mode: Mode::Rings {
                    patience: planned.plan.patience(),
                },
            };
            run_session(rt, reader, writer, gate, terms, opened_output)
        }
    }
}

//! The session or player of a run. It makes frames of portions of a sound, and does not write them.

ghost use Rattle.std.specs.Prelude.{◌≡◌, ℕ, ℤ, Ok, IfOk, IfErr};
ghost use Rattle.sdf_actor.specs.Nets.{Netlist};
ghost use Rattle.sdf_actor.specs.Wires.{lists as items_of};
ghost use Rattle.sdf_queues.specs.declared.fault.RunFault.TheVariants as run;
ghost use Rattle.sdf_kit.specs.declared.kit.Kit.{Kit as KitValue};
ghost use Rattle.sdf_faults.specs.declared.fault.Fault.TheVariants.{OutOfMemory};
ghost use Rattle.sdf_sched.specs.Period.{Schedule};
ghost use Rattle.sdf_process.specs.Streams.{CanRun, CanRunNext, FeedsBy, FeedsNext, IsFollowed, RunsNext, StaysRunner};
ghost use Rattle.sdf_process.specs.Streams.{is_in_parts};

use crate::player::Player;
use crate::portion::Portion;
use crate::samples::make_frames;
use sdf_faults::Fault;
use sdf_kit::Kit;
use sdf_queues::RunFault;
use sdf_run::{Gate, Session};
use std::thread::Threads;

/// The session or player that makes the frames of a run.
#[derive(Drop)]
pub(crate) enum PieceRunner<'a> {
    /// Workers that follow a table of blocks, by rows or over rings.
    Session(Session<'a, Kit>),
    /// One thread, or parallel parts of a sound.
    Player(Player<'a>),
}

impl<'a> PieceRunner<'a> {
    /// Returns whether it runs parts of a sound in parallel.
    pub(crate) fn is_in_parts(&self) -> bool
        ensures { result ≡ is_in_parts self.now }
    {
        match self {
            PieceRunner::Session(_) => false,
            PieceRunner::Player(player) => player.is_in_parts(),
        }
    }

    /// Runs the periods of `portion`, and returns the first `portion.frames` frames of what they make: whole frames, in
    /// one list or several.
    pub(crate) fn run<T: Threads + AllocGlobal + Sync, G: Gate>(
        &mut self,
        rt: &T,
        gate: &G,
        portion: Portion<'_>,
    ) -> Result<Vec<Vec<i16>>, Fault>
        requires next { CanRunNext self.old portion }
        ensures runs { IfOk result (λ v. RunsNext self.old self.new portion.entry (items_of v.items)) }
        ensures refused { IfErr result (λ f. f ≡ OutOfMemory) }
    {
        match self {
            PieceRunner::Session(session) => feed_session(rt, gate, session, portion),
            PieceRunner::Player(player) => play_result(player.run(rt, rt.alloc(), portion)),
        }
    }

    /// Takes back the memory of frames that were written.
    pub(crate) fn give_back(&mut self, frames: Vec<Vec<i16>>)
        ensures { StaysRunner self.old self.new }
    {
        match self {
            PieceRunner::Session(_) => {}
            PieceRunner::Player(player) => player.give_back(frames),
        }
    }
}

/// Feeds `portion`, which has whole blocks, to `session`, and returns the first `portion.frames` frames that it makes.
fn feed_session<T: Threads + AllocGlobal + Sync, G: Gate>(
    rt: &T,
    gate: &G,
    session: &mut Session<'_, Kit>,
    portion: Portion<'_>,
) -> Result<Vec<Vec<i16>>, Fault>
    requires can { (n : Netlist KitValue ℤ) × (p : Schedule) × (j : ℕ)
        × FeedsBy n p j session.old × CanRun n p j portion × IsFollowed n p j session.old.rest portion }
    ensures runs { IfOk result (λ v. FeedsNext session.old session.new portion.entry (items_of v.items)) }
    ensures refused { IfErr result (λ f. f ≡ OutOfMemory) }
{
    let alloc = rt.alloc();
    let inputs = portion.lists(alloc, &mut [])?;
    let ran = session.feed(rt, &inputs, gate)?;
    let frames = make_frames(&ran.outputs, portion.frames, Vec::new(alloc))?;
    let mut made = Vec::new(alloc);
    made.push(frames)?;
    Ok(made)
}

/// Returns the frames that were played, or the fault of a run.
pub(crate) fn play_result(ran: Result<Vec<Vec<i16>>, RunFault>) -> Result<Vec<Vec<i16>>, Fault>
    requires { IfErr ran (λ f. f ≡ run.OutOfMemory) }
    ensures play_result { IfOk result (λ v. ran ≡ Ok v) }
    ensures refused { IfErr result (λ f. f ≡ OutOfMemory) }
{
    Ok(ran?)
}

//! Runs that are fed in pieces, in memory that does not grow with what was fed.

ghost use Rattle.std.specs.Prelude.{◌≡◌, ◌*◌, ◌≤◌, ◌<◌, ℕ, List, length, MatchResult, IfSome, IfNone, IfOk, None};
ghost use Rattle.sdf_graph.specs.Rates.{rates};
ghost use Rattle.sdf_actor.specs.Graphs.{graph_of};
ghost use Rattle.sdf_actor.specs.NetStates.{IsNetState};
ghost use Rattle.sdf_actor.specs.Sides.{list_count};
ghost use Rattle.sdf_actor.specs.Wires.{lists};
ghost use Rattle.sdf_actor.specs.declared.sides.Lists.TheVariants.{Inputs, Outputs};
ghost use Rattle.sdf_queues.specs.RunResults.{periods_of, IsRunFault};
ghost use Rattle.sdf_queues.specs.Feeds.{GoesOnBy};
ghost use Rattle.sdf_prec.specs.BlockTables.{IsBlockTableOf};
ghost use Rattle.sdf_queues.specs.declared.fault.RunFault.TheVariants.{SessionFailed};
ghost use Rattle.sdf_run.specs.Sessions.{AreBlocks, AreNone, SessionValue, MayRun, IsModeFault, HasRounds, IsLive};
ghost use Rattle.sdf_run.specs.Sessions.{StandsAfter, HasFed, IsFeedFault, after_fault, FeedsAreOneRun};

use crate::mode::Mode;
use sdf_actor::{Actor, Net, NetState};
use sdf_limits::MAX_PATIENCE;
use sdf_node::Gate;
use sdf_prec::{BlockTable, Table};
use sdf_queues::inputs::are_inputs;
use sdf_queues::{Ran, RunFault};
use sdf_rings::{Workers, resume_rings};
use sdf_rows::{TableBlocks, resume_rows};
use std::alloc::Global;
use std::marker::Model;
use std::thread::Threads;

/// A run of a net that is fed in pieces of whole blocks. The outputs of its feeds, joined, are the outputs of one run
/// on all that was fed. It holds the states of the actors and the samples on the channels, and nothing that was fed
/// before.
#[derive(Drop)]
pub struct Session<'a, A: Actor> {
    net: &'a Net<A>,
    table: &'a BlockTable,
    mode: Mode,
    /// The net state, or `None` once memory was refused.
    rest: Option<NetState<A::Token, A::State>>,
    blocks: u64,
    rounds: u64,
}

impl<'a, A: Actor> Model for Session<'a, A> {
    ghost use Rattle.sdf_run.specs.Sessions.{SessionValue, IsSession};

    ghost Value = { SessionValue A A.State A.Token };

    ghost view = { λ s. record {
      net = s.net.now;
      period = s.table.now.period;
      blocking = s.table.now.blocking;
      table = s.table.now.table;
      mode = s.mode;
      rest = s.rest;
      blocks = s.blocks;
      rounds = s.rounds;
    } };

    ghost invariant = { λ s. IsSession A.steps (record {
      net = s.net.now;
      period = s.table.now.period;
      blocking = s.table.now.blocking;
      table = s.table.now.table;
      mode = s.mode;
      rest = s.rest;
      blocks = s.blocks;
      rounds = s.rounds;
    }) };
}

/// The counts over all successful feeds of a session. A count that would pass its greatest number stays there.
#[derive(Debug, Clone, Copy, PartialEq, Eq)]
pub struct Closed {
    pub blocks: u64,
    pub rounds: u64,
}

/// Checks whether `table` can be run in `mode`.
fn check_mode(table: &Table, mode: Mode) -> Result<(), RunFault>
    ensures { MatchResult result (λ _. MayRun table.now mode) (IsModeFault table.now mode) }
{
    match mode {
        Mode::Rows => Ok(()),
        Mode::Rings { patience } => {
            if !table.homed() {
                return Err(RunFault::NotHomed);
            }
            if patience > MAX_PATIENCE {
                return Err(RunFault::Patience);
            }
            Ok(())
        }
    }
}

/// Returns how many blocks the lists have, if there are `many` lists and a block has `samples` samples of each. Returns
/// `None` if they are not whole blocks, or more blocks than a `u32` holds.
fn blocks_in<T>(inputs: &[Vec<T>], many: usize, samples: usize) -> Option<u32>
    requires many { 0 < many }
    requires samples { 0 < samples }
    ensures some { IfSome result (λ blocks. AreBlocks many samples blocks (lists inputs.now)) }
    ensures none { IfNone result ((blocks : ℕ) → AreBlocks many samples blocks (lists inputs.now) → ⊥) }
{
    if !are_inputs(inputs, many, 0) {
        return None;
    }
    let len = inputs[0].len();
    if len % samples != 0 {
        return None;
    }
    let blocks = len / samples;
    if blocks > u32::MAX as usize {
        return None;
    }
    Some(blocks as u32)
}

/// The terms of a session: a net, the table of blocks that its workers follow, and the mode in which they run them.
#[derive_where(Clone, Copy)]
pub struct SessionTerms<'a, A: Actor> {
    pub net: &'a Net<A>,
    pub table: &'a BlockTable,
    pub mode: Mode,
}

/// Resumes a run from `rest` for `blocks` further blocks.
fn resume<R: Threads + AllocGlobal + Sync, A: Actor, G: Gate>(
    rt: &R,
    terms: SessionTerms<'_, A>,
    rest: &NetState<A::Token, A::State>,
    blocks: u32,
    inputs: &[Vec<A::Token>],
    gate: &G,
) -> Result<(Ran<A::Token>, NetState<A::Token, A::State>), RunFault>
    requires fits { IsBlockTableOf (rates (graph_of A.steps terms.net.now)) terms.table.now }
    requires may { MayRun terms.table.now.table terms.mode }
    requires rest { (first : List (List A.Token)) × (few : ℕ)
        × IsNetState A.steps terms.net.now first (periods_of terms.table.now.period.repetitions few) rest.now }
    ensures { let n = terms.entry.net.now in let t = terms.entry.table.now in let q = t.period.repetitions in
        MatchResult result
        (λ fed. GoesOnBy A.steps n q rest.now (blocks * t.blocking) (lists inputs.now) (lists fed.0.outputs.items) fed.1
        × HasRounds t.table q t.blocking terms.entry.mode blocks fed.0.rounds)
        (IsRunFault n q (blocks * t.blocking) (lists inputs.now)) }
{
    let SessionTerms { net, table, mode } = terms;
    match mode {
        Mode::Rows => {
            let plan = TableBlocks { table, blocks };
            resume_rows(rt, net, &plan, rest, inputs, gate)
        }
        Mode::Rings { patience } => {
            let workers = Workers { rt, gate, patience };
            resume_rings(workers, net, table, rest, blocks, inputs)
        }
    }
}

impl<'a, A: Actor> Session<'a, A> {
    /// Opens a session, before its first feed. Over rings it fails with 30 NotHomed, tested first, or 31 Patience.
    pub fn open(
        alloc: Global,
        net: &'a Net<A>,
        table: &'a BlockTable,
        mode: Mode,
    ) -> Result<Session<'a, A>, RunFault>
        requires fits { IsBlockTableOf (rates (graph_of A.steps net.now)) table.now }
        ensures tests { MatchResult result (λ _. MayRun table.now.table mode) (IsModeFault table.now.table mode) }
        ensures value { IfOk result (λ v. IsLive v × (v ≡
            record {
              net = net.now;
              period = table.now.period;
              blocking = table.now.blocking;
              table = table.now.table;
              mode = mode;
              rest = v.rest;
              blocks = 0;
              rounds = 0;
            })) }
        ensures stands { IfOk result (λ v. (fed made : List (List A.Token)) →
            AreNone (list_count Inputs net.now.nodes) fed → AreNone (list_count Outputs net.now.nodes) made →
            StandsAfter A.steps v 0 fed made) }
    {
        check_mode(&table.table, mode)?;
        Ok(Session {
            net,
            table,
            mode,
            rest: Some(net.initial_state(alloc)?),
            blocks: 0,
            rounds: 0,
        })
    }

    /// Runs the blocks in `inputs`, and returns the outputs beyond what was made before. Each list must have the
    /// samples of the same number of blocks. Lists without samples are 0 blocks, and make empty lists.
    ///
    /// Returns 29 InputLength unless `inputs` has one list for each input, all of the same number of whole blocks, at
    /// most 4,294,967,295. The session is then unchanged. After 1 OutOfMemory it is spent, and returns 33
    /// SessionFailed.
    pub fn feed<R: Threads + AllocGlobal + Sync, G: Gate>(
        &mut self,
        rt: &R,
        inputs: &[Vec<A::Token>],
        gate: &G,
    ) -> Result<Ran<A::Token>, RunFault>
        ensures { MatchResult result
            (λ ran. (blocks : ℕ) × HasFed A.steps self.old self.new blocks (lists inputs.now)
            (lists ran.outputs.items) ran.rounds)
            (λ fault. IsFeedFault self.old (lists inputs.now) fault × (self.new ≡ after_fault self.old fault)) }
    {
        let Some(rest) = &self.rest else {
            return Err(RunFault::SessionFailed);
        };
        let samples = self.table.blocking as usize * self.net.samples_in();
        let Some(blocks) = blocks_in(inputs, self.net.inputs(), samples) else {
            return Err(RunFault::InputLength);
        };
        let terms = SessionTerms {
            net: self.net,
            table: self.table,
            mode: self.mode,
        };
        let fed = resume(rt, terms, rest, blocks, inputs, gate);
        match fed {
            Ok((ran, last)) => {
                self.rest = Some(last);
                self.blocks = self.blocks.saturating_add(u64::from(blocks));
                self.rounds = self.rounds.saturating_add(ran.rounds);
                Ok(ran)
            }
            Err(fault) => {
                self.rest = None;
                Err(fault)
            }
        }
    }

    /// Ends a session, and returns how many blocks and rounds its successful feeds had. A spent session returns 33
    /// SessionFailed.
    pub fn close(self) -> Result<Closed, RunFault>
        ensures { MatchResult result
            (λ closed. IsLive self.entry × (closed.blocks ≡ self.entry.blocks) × (closed.rounds ≡ self.entry.rounds))
            (λ fault. (fault ≡ SessionFailed) × (self.entry.rest ≡ None)) }
    {
        match self.rest {
            Some(_) => Ok(Closed {
                blocks: self.blocks,
                rounds: self.rounds,
            }),
            None => Err(RunFault::SessionFailed),
        }
    }
}

/// States that the outputs of a session's feeds, joined, are the outputs of one run on all that they were given.
pub fn feeds_are_one_run<A: Actor>()
    ensures { FeedsAreOneRun A.steps }
{}

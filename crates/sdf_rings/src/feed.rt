//! Runs over rings that another run can resume.

ghost use Rattle.std.specs.Prelude.{◌*◌, ℕ, List, MatchResult};
ghost use Rattle.sdf_graph.specs.Rates.{rates};
ghost use Rattle.sdf_actor.specs.Graphs.{graph_of};
ghost use Rattle.sdf_actor.specs.NetStates.{IsNetState};
ghost use Rattle.sdf_actor.specs.Wires.{lists};
ghost use Rattle.sdf_queues.specs.RunResults.{periods_of};
ghost use Rattle.sdf_queues.specs.Feeds as feeds;
ghost use Rattle.sdf_prec.specs.BlockTables.{IsBlockTableOf};
ghost use Rattle.sdf_rings.specs.Outcome.{HasRunInRounds, HasResumed, IsRingsFault};

use crate::runner::run_all_rounds;
use crate::workers::Workers;
use sdf_actor::{Actor, Net, NetState};
use sdf_node::Gate;
use sdf_prec::BlockTable;
use sdf_queues::laws::nets_have_periods;
use sdf_queues::{Ran, RunFault};
use std::alloc::AllocGlobal;
use std::thread::Threads;

/// Runs `net` as `run_rings` does, and also returns the net state that the run leaves. `Net::begun` makes the resumed
/// net.
pub fn feed_rings<R: Threads + AllocGlobal + Sync, A: Actor, G: Gate>(
    workers: Workers<'_, R, G>,
    net: &Net<A>,
    table: &BlockTable,
    blocks: u32,
    inputs: &[Vec<A::Token>],
) -> Result<(Ran<A::Token>, NetState<A::Token, A::State>), RunFault>
    requires fits { IsBlockTableOf (rates (graph_of A.steps net.now)) table.now }
    ensures { let t = table.now in let q = t.period.repetitions in let j = t.blocking in MatchResult result
        (λ fed. HasRunInRounds A.steps net.now q j t.table blocks (lists inputs.now) workers.entry.patience
        (lists fed.0.outputs.items) fed.0.rounds ×
        feeds.HasRun A.steps net.now (lists inputs.now) (periods_of q (blocks * j)) (lists fed.0.outputs.items) fed.1)
        (IsRingsFault net.now q (blocks * j) (lists inputs.now) t.table workers.entry.patience) }
{
    let (rings, rounds) = run_all_rounds(workers, net, table, blocks, inputs)?;
    let (outputs, rest) = rings.leave()?;
    Ok((Ran { outputs, rounds }, rest))
}

/// Resumes `net` from `rest`, the net state that earlier runs left, and runs `blocks` further blocks on `inputs`. If
/// the earlier runs read all their samples, the outputs of all runs, joined, are the outputs of one run on all inputs.
pub fn resume_rings<R: Threads + AllocGlobal + Sync, A: Actor, G: Gate>(
    workers: Workers<'_, R, G>,
    net: &Net<A>,
    table: &BlockTable,
    rest: &NetState<A::Token, A::State>,
    blocks: u32,
    inputs: &[Vec<A::Token>],
) -> Result<(Ran<A::Token>, NetState<A::Token, A::State>), RunFault>
    requires fits { IsBlockTableOf (rates (graph_of A.steps net.now)) table.now }
    requires rest { (first : List (List A.Token)) × (few : ℕ)
        × IsNetState A.steps net.now first (periods_of table.now.period.repetitions few) rest.now }
    ensures { let t = table.now in let q = t.period.repetitions in let j = t.blocking in MatchResult result
        (λ fed. HasResumed A.steps net.now q j t.table rest.now blocks (lists inputs.now) workers.entry.patience
        (lists fed.0.outputs.items) fed.0.rounds fed.1)
        (IsRingsFault net.now q (blocks * j) (lists inputs.now) t.table workers.entry.patience) }
{
    nets_have_periods(net);
    let begun = net.begun(workers.rt.alloc(), rest)?;
    feed_rings(workers, &begun, table, blocks, inputs)
}

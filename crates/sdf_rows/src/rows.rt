//! The barrier-synchronous runner: the firings of a row of a table run in parallel.

ghost use Rattle.std.specs.Prelude.{◌≡◌, ◌*◌, length, MatchResult};
ghost use Rattle.sdf_graph.specs.Rates.{rates};
ghost use Rattle.sdf_actor.specs.Graphs.{graph_of};
ghost use Rattle.sdf_actor.specs.Wires.{lists};
ghost use Rattle.sdf_queues.specs.RunResults.{HasInputs, AreOutputs, periods_of, IsRunFault};
ghost use Rattle.sdf_prec.specs.BlockTables.{IsBlockTableOf};

use crate::feed::feed_rows;
use crate::table_blocks::TableBlocks;
use sdf_actor::{Actor, Net};
use sdf_node::Gate;
use sdf_prec::BlockTable;
use sdf_queues::{Ran, RunFault};
use std::thread::Threads;

/// Runs `net` for `blocks` blocks, as `table` says. The firings of a row run in parallel, each in a worker of its own,
/// and are joined before the next row begins. The gate gets the column of a firing as its processor.
///
/// Room for all samples is allocated before the first firing. A channel has room for its initial samples and for what
/// one block puts on it. If the system starts no thread, the firings of a row run one after another.
///
/// Returns 29 InputLength unless `inputs` has one list for each input, all equally long and long enough for the run.
pub fn run_rows<R: Threads + AllocGlobal + Sync, A: Actor, G: Gate>(
    rt: &R,
    net: &Net<A>,
    table: &BlockTable,
    blocks: u32,
    inputs: &[Vec<A::Token>],
    gate: &G,
) -> Result<Ran<A::Token>, RunFault>
    requires fits { IsBlockTableOf (rates (graph_of A.steps net.now)) table.now }
    ensures { let q = table.now.period.repetitions in let j = table.now.blocking in MatchResult result
        (λ ran. HasInputs net.now q (blocks * j) (lists inputs.now)
        × AreOutputs A.steps net.now (lists inputs.now) (periods_of q (blocks * j)) (lists ran.outputs.items)
        × (ran.rounds ≡ blocks * length table.now.table.rows))
        (IsRunFault net.now q (blocks * j) (lists inputs.now)) }
{
    let plan = TableBlocks { table, blocks };
    let (ran, _) = feed_rows(rt, net, &plan, inputs, gate)?;
    Ok(ran)
}

//! The self-timed runner, over rings.

ghost use Rattle.std.specs.Prelude.{◌*◌, MatchResult};
ghost use Rattle.sdf_graph.specs.Rates.{rates};
ghost use Rattle.sdf_actor.specs.Graphs.{graph_of};
ghost use Rattle.sdf_actor.specs.Wires.{lists};
ghost use Rattle.sdf_prec.specs.BlockTables.{IsBlockTableOf};
ghost use Rattle.sdf_rings.specs.Outcome.{HasRunInRounds, HasEnded, IsRingsFault};

use crate::rings::Rings;
use crate::workers::Workers;
use sdf_actor::{Actor, Net};
use sdf_limits::MAX_PATIENCE;
use sdf_node::Gate;
use sdf_prec::BlockTable;
use sdf_queues::{Ran, RunFault};
use std::alloc::AllocGlobal;
use std::thread::Threads;

/// Runs all rounds, and returns the seats and the number of rounds. The arguments are tested first, in the order of the
/// faults of `run_rings`.
pub(crate) fn run_all_rounds<'a, R: Threads + AllocGlobal + Sync, A: Actor, G: Gate>(
    workers: Workers<'_, R, G>,
    net: &'a Net<A>,
    table: &BlockTable,
    blocks: u32,
    inputs: &'a [Vec<A::Token>],
) -> Result<(Rings<'a, A>, u64), RunFault>
    requires fits { IsBlockTableOf (rates (graph_of A.steps net.now)) table.now }
    ensures { let t = table.now in let q = t.period.repetitions in let j = t.blocking in MatchResult result
        (λ ran. HasEnded A.steps net.now q j t.table blocks (lists inputs.now)
        workers.entry.patience ran.0 ran.1)
        (IsRingsFault net.now q (blocks * j) (lists inputs.now) t.table workers.entry.patience) }
{
    if !table.table.homed() {
        return Err(RunFault::NotHomed);
    }
    if workers.patience > MAX_PATIENCE {
        return Err(RunFault::Patience);
    }
    let mut rings = Rings::prepare(workers.rt.alloc(), net, table, blocks, inputs)?;
    let rounds = rings.run(workers);
    Ok((rings, rounds))
}

/// Runs `net` for `blocks` blocks of `table`. Each processor of the table has a worker, which fires the actors at home
/// there in the table's order, as samples and room arrive. Each channel has a ring of the table's capacity, plus one
/// block if it leads from an actor to itself. In each round the workers run at once. A worker stops when its list is
/// empty, or when a check fails and its spin limit (`workers.patience`) is used up.
///
/// All memory is taken before the first firing. Faults are tested in this order: 30 NotHomed, 31 Patience, 29
/// InputLength (`inputs` does not have one list for each input, or the lists differ in length or are too short).
pub fn run_rings<R: Threads + AllocGlobal + Sync, A: Actor, G: Gate>(
    workers: Workers<'_, R, G>,
    net: &Net<A>,
    table: &BlockTable,
    blocks: u32,
    inputs: &[Vec<A::Token>],
) -> Result<Ran<A::Token>, RunFault>
    requires fits { IsBlockTableOf (rates (graph_of A.steps net.now)) table.now }
    ensures { let t = table.now in let q = t.period.repetitions in let j = t.blocking in MatchResult result
        (λ ran. HasRunInRounds A.steps net.now q j t.table blocks (lists inputs.now) workers.entry.patience
        (lists ran.outputs.items) ran.rounds)
        (IsRingsFault net.now q (blocks * j) (lists inputs.now) t.table workers.entry.patience) }
{
    let (rings, rounds) = run_all_rounds(workers, net, table, blocks, inputs)?;
    let outputs = rings.finish();
    Ok(Ran { outputs, rounds })
}

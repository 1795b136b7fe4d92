//! The runner on one thread.

ghost use Rattle.std.specs.Prelude.{◌≡◌, MatchResult};
ghost use Rattle.sdf_graph.specs.Rates.{rates};
ghost use Rattle.sdf_sched.specs.Period.{IsPeriodOf};
ghost use Rattle.sdf_actor.specs.Graphs.{graph_of};
ghost use Rattle.sdf_actor.specs.Wires.{lists};
ghost use Rattle.sdf_queues.specs.RunResults.{HasInputs, AreOutputs, periods_of, IsRunFault};

use crate::feed::feed_one;
use sdf_actor::{Actor, Net};
use sdf_queues::{Ran, RunFault};
use sdf_sched::Period;
use std::alloc::Global;

/// Runs `net` for `periods` periods. Each node in turn fires until its samples or the block of periods stop it.
///
/// Room for all samples is allocated before the first firing. A channel's queue has room for its initial samples and
/// for what one block puts on it, so it does not grow with the length of the run. The time of a run is linear in its
/// length.
///
/// Returns 29 InputLength unless `inputs` has one list for each input, all equally long and long enough for the run.
pub fn run_one<A: Actor>(
    alloc: Global,
    net: &Net<A>,
    period: &Period,
    periods: u32,
    inputs: &[Vec<A::Token>],
) -> Result<Ran<A::Token>, RunFault>
    requires period { IsPeriodOf (rates (graph_of A.steps net.now)) period.now }
    ensures { let q = period.now.repetitions in MatchResult result
        (λ ran. HasInputs net.now q periods (lists inputs.now)
        × AreOutputs A.steps net.now (lists inputs.now) (periods_of q periods) (lists ran.outputs.items)
        × (ran.rounds ≡ 0))
        (IsRunFault net.now q periods (lists inputs.now)) }
{
    let (ran, _) = feed_one(alloc, net, period, periods, inputs)?;
    Ok(ran)
}

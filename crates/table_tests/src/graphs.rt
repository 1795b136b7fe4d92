//! The graphs of the tests as channels, their schedules, and the costs of their firings.

ghost use Rattle.std.specs.Prelude.{IfOk};
ghost use Rattle.sdf_graph.specs.Rates.{rates};
ghost use Rattle.sdf_sched.specs.Period.{IsPeriodOf};
ghost use Rattle.sdf_prec.specs.Costs.{AreCosts};

use sdf_graph::Graph;
use sdf_prec::{Costs, PrecFault};
use sdf_sched::class_s::class_s;
use sdf_sched::{Period, Round};
use std::alloc::Global;
use std::test::Fail;
use test_actors::graphs::Row;

/// A source of 2 samples to a sink of 3.
pub(crate) const BLOCKS: &[Row] = &[(0, &[2], &[3], 1, 0)];

/// Six actors, with two ways from actor 1 to actor 4.
pub(crate) const FORK: &[Row] = &[
    (0, &[1], &[1], 1, 0),
    (1, &[1], &[1], 2, 0),
    (1, &[1], &[1], 3, 0),
    (2, &[1], &[1], 4, 0),
    (3, &[1], &[1], 4, 0),
    (4, &[1], &[1], 5, 0),
];

/// Seven actors, with two ways from actor 1 to actor 5. The second way has one actor more than the first.
pub(crate) const LONGER_FORK: &[Row] = &[
    (0, &[1], &[1], 1, 0),
    (1, &[1], &[1], 2, 0),
    (1, &[1], &[1], 3, 0),
    (2, &[1], &[1], 5, 0),
    (3, &[1], &[1], 4, 0),
    (4, &[1], &[1], 5, 0),
    (5, &[1], &[1], 6, 0),
];

/// Returns the schedule of `graph` by the policy `Round`.
pub(crate) fn period_of(alloc: Global, graph: &Graph) -> Result<Period, Fail>
    ensures { IfOk result (IsPeriodOf (rates graph.now)) }
{
    let reps = graph.repetitions(alloc)?;
    Ok(class_s(alloc, graph, &reps, &mut Round::new())?)
}

/// Returns `costs` as the costs of the actors of `graph`.
pub(crate) fn costs_of(alloc: Global, graph: &Graph, costs: &[u32]) -> Result<Costs, Fail>
    ensures { IfOk result (AreCosts graph.now.actors) }
{
    Ok(Costs::new(graph, Vec::from_slice(alloc, costs)?)?)
}

/// Returns the text of the fault, or nothing if there is none.
pub(crate) fn fault_of<T: Drop>(alloc: Global, made: Result<T, PrecFault>) -> Result<String, Fail> {
    match made {
        Ok(_) => Ok(String::new(alloc)),
        Err(fault) => Ok(fault.to_string(alloc)?),
    }
}

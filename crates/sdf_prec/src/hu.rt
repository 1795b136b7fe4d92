//! Hu's rule with costs: of the ready firings, the ones of highest level go first.
//!
//! `simulation` makes the rows one after another. `queue` has the ready firings, and `marked` marks the actors that may
//! have become ready. `filling` makes a row without homes, `homing` one with homes. `floor` starts and ends firings.

pub(crate) mod filling;
pub(crate) mod floor;
pub(crate) mod homing;
pub(crate) mod marked;
pub(crate) mod queue;
pub(crate) mod simulation;

ghost use Rattle.std.specs.Prelude.{◌≡◌, ℕ, ◌*◌, ◌<◌, List, length, slice_index, IfOk, MatchResult};
ghost use Rattle.sdf_graph.specs.Rates.{rates};
ghost use Rattle.sdf_graph.specs.Sequences.{IsPass};
ghost use Rattle.sdf_sched.specs.Period.{IsPeriodOf};
ghost use Rattle.sdf_prec.specs.Blocks.{block, IsSizeFault};
ghost use Rattle.sdf_prec.specs.Accepting.{IsSize};
ghost use Rattle.sdf_prec.specs.Costs.{AreCosts};
ghost use Rattle.sdf_prec.specs.Simulations.{AreInputsFor};
ghost use Rattle.sdf_prec.specs.Levels.{AreLevels};
ghost use Rattle.sdf_prec.specs.HuTables.{IsHuTable};

use crate::block::{block_firings, size_fault};
use crate::columns::Columns;
use crate::costs::Costs;
use crate::fault::PrecFault;
use crate::hu::simulation::{HuInputs, timed_rows};
use crate::levels::levels;
use crate::table::Table;
use sdf_graph::Graph;
use sdf_sched::Period;
use std::alloc::{AllocError, Global};

/// Returns the cost of all firings of each actor in a block.
fn weights_of(alloc: Global, firings: &[u32], costs: &Costs) -> Result<Vec<u64>, AllocError>
    requires costs { AreCosts (length firings.now) costs.now }
    ensures all { IfOk result (λ w. length w.items ≡ length firings.now) }
    ensures each { IfOk result (λ w. (a : ℕ) → slice_index w.items a ≡
        slice_index firings.now a * slice_index costs.now a) }
{
    let mut weights = Vec::new(alloc);
    for actor in 0..firings.len() {
        weights.push(u64::from(firings[actor]) * u64::from(costs.of(actor)))?;
    }
    Ok(weights)
}

/// Returns the table of the rule's rows, by the levels of the block's firings.
fn table_for(
    alloc: Global,
    graph: &Graph,
    inputs: &HuInputs,
    width: usize,
) -> Result<Table, AllocError>
    requires inputs { AreInputsFor graph.now inputs.now }
    requires levels { AreLevels (rates graph.now) inputs.now.firings.now (slice_index inputs.now.costs.now)
        inputs.now.levels.now }
    requires width { 0 < width }
    requires pass { (w : List ℕ) × IsPass (rates graph.now) (slice_index inputs.now.firings.now) w }
    ensures { IfOk result (λ t. IsHuTable (rates graph.now) (slice_index inputs.now.firings.now)
        (slice_index inputs.now.costs.now) width inputs.now.homed t) }
{
    let rows = timed_rows(alloc, graph, inputs, width)?;
    let table = Table::of_rows(alloc, graph, rows)?;
    Ok(table)
}

/// Makes the table of Hu's rule with costs for a block of `blocking` periods and the columns `team`, free or with a
/// home for each actor.
///
/// It errs with the first of `BlockingFactor`, `WorkerCount` and `BlockTooLong`. The time is linear in the firings; for
/// each it is linear in the actors and links of the graph. (Hu 1961; costs, columns, homes and the order of ties are
/// added here.)
#[tactic(auto, using(crate::proofs::Finals::fault_size))]
pub fn hu(
    alloc: Global,
    graph: &Graph,
    period: &Period,
    blocking: u32,
    team: Columns,
    costs: &Costs,
) -> Result<Table, PrecFault>
    requires period { IsPeriodOf (rates graph.now) period.now }
    requires costs { AreCosts graph.now.actors costs.now }
    ensures { MatchResult result
        (λ t. IsSize blocking team.workers period.now.repetitions × IsHuTable (rates graph.now)
        (slice_index (block blocking period.now.repetitions)) (slice_index costs.now) team.workers team.homed t)
        (IsSizeFault blocking team.workers period.now.repetitions) }
{
    graph.channels();
    if let Some(fault) = size_fault(blocking, team.workers, period.repetitions()) {
        return Err(fault);
    }
    let by_level = levels(alloc, graph, period, blocking, costs)?;
    let firings = block_firings(alloc, blocking, period.repetitions())?;
    let weights = weights_of(alloc, &firings, costs)?;
    let inputs = HuInputs {
        firings: &firings,
        levels: &by_level,
        costs,
        weights: &weights,
        homed: team.homed,
    };
    let table = table_for(alloc, graph, &inputs, team.workers)?;
    Ok(table)
}

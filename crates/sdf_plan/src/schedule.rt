//! The schedule of a design for some workers.

ghost use Rattle.std.specs.Prelude.{MatchResult, IfOk};
ghost use Rattle.sdf_actor.specs.Graphs.{graph_of};
ghost use Rattle.sdf_kit.specs.Kit.{kit_steps};
ghost use Rattle.sdf_prec.specs.Tables.{IsTable};
ghost use Rattle.sdf_plan.specs.Placements.{rates_of, firings_of};
ghost use Rattle.sdf_prec.specs.Long.{IsLongSize};
ghost use Rattle.sdf_plan.specs.Plans.{AreSizes, IsScheduleBy};
ghost use Rattle.sdf_plan.specs.Schedules.{IsDesignSchedule, IsDesignScheduleFault};

use crate::placement::{blocking_by, table_by};
use crate::planning::{period_by, size_fault};
use sdf_faults::Fault;
use sdf_file::Design;
use sdf_options::Options;
use sdf_prec::Table;
use sdf_sched::Period;
use std::alloc::Global;

/// The table of a block of periods.
#[derive(Drop)]
pub struct Block {
    /// Periods in the block.
    pub blocking: u32,
    pub table: Table,
}

/// The firings of one period of a design, in their order, and the table of a block for its workers.
#[derive(Drop)]
pub struct DesignSchedule {
    pub period: Period,
    pub block: Block,
}

/// Returns one period by the policy of `options`, and the table of a block by their placement.
///
/// The tests in order: the blocking factor and the workers are within their limits; the design has a schedule; a block
/// is not too long; with the placement `file`, each actor has a home among the workers.
pub fn design_schedule(
    alloc: Global,
    design: &Design,
    options: &Options,
) -> Result<DesignSchedule, Fault>
    ensures answers { MatchResult result
        (λ s. IsDesignSchedule design.now options.now s.block.blocking s.period s.block.table)
        (IsDesignScheduleFault design.now options.now) }

    // The table is a table of the block.
    ensures table { IfOk result (λ s. IsTable (rates_of design.now) (firings_of s.block.blocking s.period)
        options.now.workers s.block.table) }
    ensures size { IfOk result (λ s. IsLongSize s.block.blocking options.now.workers s.period.repetitions) }
{
    if let Some(fault) = size_fault(options) {
        return Err(fault);
    }
    let period = period_by(alloc, design, options.policy)?;
    let block = tabled(alloc, design, options, &period)?;
    Ok(DesignSchedule { period, block })
}

/// Returns the table of a block that `options` give to `period`, an order by their policy. The tests in order: a block
/// is not too long; with the placement `file`, each actor has a home among the workers.
pub fn tabled(
    alloc: Global,
    design: &Design,
    options: &Options,
    period: &Period,
) -> Result<Block, Fault>
    requires sizes { AreSizes options.now }
    requires by_policy { IsScheduleBy options.now.policy (graph_of kit_steps design.now.net) period.now }
    ensures answers { MatchResult result (λ b. IsDesignSchedule design.now options.now b.blocking period.now b.table)
        (IsDesignScheduleFault design.now options.now) }

    // The table is a table of the block.
    ensures table { IfOk result (λ b. IsTable (rates_of design.now) (firings_of b.blocking period.now)
        options.now.workers b.table) }
    ensures size { IfOk result (λ b. IsLongSize b.blocking options.now.workers period.now.repetitions) }
{
    let blocking = blocking_by(design, options, period);
    let table = table_by(alloc, design, period, options, blocking)?;
    Ok(Block { blocking, table })
}

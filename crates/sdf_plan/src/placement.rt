//! The table of a design by the placement of the options.

ghost use Rattle.std.specs.Prelude.{MatchResult};
ghost use Rattle.sdf_sched.specs.Period.{IsPeriodOf};
ghost use Rattle.sdf_plan.specs.Placements.{rates_of, ArePeriodsOf, IsTableBy, IsPlaceFault};

use crate::costs::firing_costs;
use crate::weights::weights;
use sdf_file::Design;
use sdf_options::{Options, Placement, Policy};
use sdf_prec::hu::hu;
use sdf_prec::long::long_blocking;
use sdf_prec::{Columns, PrecFault, Table};
use sdf_sched::Period;
use std::alloc::Global;

/// Returns the number of periods in a block: `options.blocking`, except for the placement `spread`, which has long
/// blocks.
pub(crate) fn blocking_by(design: &Design, options: &Options, period: &Period) -> u32
    requires { IsPeriodOf (rates_of design.now) period.now }
    ensures { ArePeriodsOf design.now options.now period.now result }
{
    match options.placement {
        Placement::Spread => long_blocking(design.net().graph(), period.repetitions()),
        Placement::Hu | Placement::Homed | Placement::File => options.blocking,
    }
}

/// Makes the table of a block of `blocking` periods by the placement of `options`.
pub(crate) fn table_by(
    alloc: Global,
    design: &Design,
    period: &Period,
    options: &Options,
    blocking: u32,
) -> Result<Table, PrecFault>
    requires { IsPeriodOf (rates_of design.now) period.now }
    ensures { MatchResult result (IsTableBy design.now options.now period.now blocking)
        (IsPlaceFault options.now.placement design.now blocking options.now.workers period.now) }
{
    let graph = design.net().graph();
    let workers = options.workers;
    match options.placement {
        Placement::Hu | Placement::Homed => {
            let homed = options.placement == Placement::Homed;
            let team = Columns { workers, homed };
            hu(
                alloc,
                graph,
                period,
                blocking,
                team,
                &firing_costs(alloc, design)?,
            )
        }
        Placement::File => match options.policy {
            Policy::Runs => Table::by_homes_in_runs(
                alloc,
                graph,
                period,
                blocking,
                workers,
                design.homes(),
            ),
            Policy::Round | Policy::Lean => Table::by_homes(
                alloc,
                graph,
                period,
                blocking,
                workers,
                design.homes(),
            ),
        },
        Placement::Spread => {
            let weights = weights(alloc, design, period)?;
            Table::spread(alloc, graph, period, blocking, workers, &weights)
        }
    }
}

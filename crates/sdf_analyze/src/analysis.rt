//! The figures of a design's schedule, as a text.

ghost use Rattle.std.specs.Prelude.{MatchResult, string_bytes};
ghost use Rattle.sdf_sched.specs.Period.{IsPeriodOf};
ghost use Rattle.sdf_prec.specs.Long.{IsLongSize};
ghost use Rattle.sdf_prec.specs.Tables.{IsTable};
ghost use Rattle.sdf_plan.specs.Placements.{rates_of, firings_of};
ghost use Rattle.sdf_plan.specs.Schedules.{IsDesignScheduleFault};
ghost use Rattle.sdf_analyze.specs.Figures.{AreFiguresOf};
ghost use Rattle.sdf_analyze.specs.Analyses.{IsAnalysisOf, IsAnalysis};

use crate::figures::Figures;
use crate::lines::analysis_text;
use sdf_faults::Fault;
use sdf_file::Design;
use sdf_options::Options;
use sdf_plan::schedule::{Block, DesignSchedule, design_schedule};
use sdf_sched::Period;
use std::alloc::Global;

/// The table of a block that options give a design, and the table's figures.
#[derive(Drop)]
pub struct Analysis {
    pub block: Block,
    pub figures: Figures,
}

/// Returns the figures of the table of `block`, which `options` give `design`.
#[tactic(auto, using(crate::proofs::Refusals::memory_shows))]
fn figures_of(
    alloc: Global,
    design: &Design,
    options: &Options,
    period: &Period,
    block: &Block,
) -> Result<Figures, Fault>
    requires period { IsPeriodOf (rates_of design.now) period.now }
    requires size { IsLongSize block.now.blocking options.now.workers period.now.repetitions }
    requires table { IsTable (rates_of design.now) (firings_of block.now.blocking period.now) options.now.workers
        block.now.table }
    ensures { MatchResult result
        (AreFiguresOf design.now block.now.blocking options.now.workers period.now block.now.table)
        (IsDesignScheduleFault design.now options.now) }
{
    let placed = options.with_blocking(block.blocking);
    Ok(Figures::of(alloc, design, &placed, period, &block.table)?)
}

/// Returns the table of a block that `options` give `design`, and the table's figures. The tests are listed at
/// `sdf_plan::schedule::design_schedule`.
pub fn analysis_of(alloc: Global, design: &Design, options: &Options) -> Result<Analysis, Fault>
    ensures { MatchResult result (λ a. IsAnalysisOf design.now options.now a.block.blocking a.block.table a.figures)
        (IsDesignScheduleFault design.now options.now) }
{
    let DesignSchedule { period, block } = design_schedule(alloc, design, options)?;
    let figures = figures_of(alloc, design, options, &period, &block)?;
    Ok(Analysis { block, figures })
}

/// Returns the text that the command `analyze` prints about the schedule that `schedule` prints. First is the makespan,
/// the end of the last firing when each firing starts as soon as it may and takes its cost. Then come the work, the
/// span and the bound of the block, and the speedup, which is the work over the makespan. For each worker it gives the
/// part of the makespan in which the worker fires. Last are the links' capacities, the most samples that they hold:
/// their sum, then each of them. Hundredths are rounded down. The tests are listed at
/// `sdf_plan::schedule::design_schedule`.
pub fn analyze(alloc: Global, design: &Design, options: &Options) -> Result<String, Fault>
    ensures { MatchResult result (λ s. IsAnalysis design.now options.now (string_bytes s))
        (IsDesignScheduleFault design.now options.now) }
{
    let Analysis { block, figures } = analysis_of(alloc, design, options)?;
    Ok(analysis_text(alloc, design, &block.table, &figures, options.workers)?)
}

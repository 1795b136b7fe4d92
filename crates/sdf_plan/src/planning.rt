//! Planning a run: the tests of the options, one period by a policy, and the table of a block.

ghost use Rattle.std.specs.Prelude.{◌≡◌, ◌<◌, length, map, MatchOption, MatchResult, IfOk};
ghost use Rattle.std.specs.List.{range_with_len};
ghost use Rattle.sdf_graph.specs.Rates.{rates};
ghost use Rattle.sdf_graph.specs.Periods.{IsLeastPeriod};
ghost use Rattle.sdf_actor.specs.Graphs.{graph_of};
ghost use Rattle.sdf_kit.specs.Kit.{kit_steps};
ghost use Rattle.sdf_sched.specs.Period.{IsPeriodOf};
ghost use Rattle.sdf_plan.specs.Placements.{rates_of, IsPlaceFault, IsTableBy};
ghost use Rattle.sdf_plan.specs.Plans.{AreSizes, IsSizeFault, ArePassed, IsOptionFault, IsPlanOf, IsPlanFault};
ghost use Rattle.sdf_plan.specs.Plans.{IsRunBy, IsTableFault, Suits, Decides, IsScheduleBy, IsStuckFault};
ghost use Rattle.sdf_plan.specs.Plans.{IsScheduleFault, progress_of, progress_view, short_of};
ghost use Rattle.sdf_plan.specs.Executions.{plan_by};

use crate::placement::{blocking_by, table_by};
use crate::plan::{Execution, Plan};
use sdf_faults::{Fault, Progress, Stalled};
use sdf_file::Design;
use sdf_graph::{Graph, Repetitions};
use sdf_limits::{MAX_BLOCKING, MAX_PATIENCE, MAX_WORKERS};
use sdf_options::{Options, Policy, Runner};
use sdf_prec::{BlockTable, PrecFault};
use sdf_sched::class_s::class_s;
use sdf_sched::{Lean, Period, Round, Runs, SchedFault, Stuck};
use std::alloc::{AllocError, Global};

/// Returns the channel that `short` lists for `actor`, if it lists one.
fn short_channel(short: &[(usize, usize)], actor: usize) -> Option<usize>
    ensures { result ≡ short_of short.now actor }
{
    short
        .iter()
        .find(|entry| entry.0 == actor)
        .map(|entry| entry.1)
}

/// Returns the progress of `actor` at the point where its schedule got stuck.
fn progress_at(
    alloc: Global,
    design: &Design,
    repetitions: &Repetitions,
    stuck: &Stuck,
    actor: usize,
) -> Result<Progress, AllocError>
    requires known { actor < length design.now.net.nodes }
    requires all { length repetitions.now ≡ length design.now.net.nodes }
    requires done { length stuck.now.done.items ≡ length design.now.net.nodes }
    ensures { IfOk result (λ p. progress_view p ≡ progress_of design.now repetitions.now stuck.now actor) }
{
    Ok(Progress {
        name: String::from_str(alloc, design.name(actor))?,
        done: stuck.done[actor],
        of: repetitions.of(actor),
        short: short_channel(&stuck.short, actor),
    })
}

/// Returns the progress of each actor, in file order.
fn progress(
    alloc: Global,
    design: &Design,
    repetitions: &Repetitions,
    stuck: &Stuck,
) -> Result<Vec<Progress>, AllocError>
    requires all { length repetitions.now ≡ length design.now.net.nodes }
    requires done { length stuck.now.done.items ≡ length design.now.net.nodes }
    ensures { IfOk result (λ all. map progress_view all.items ≡
        map (progress_of design.now repetitions.now stuck.now) (range_with_len 0 (length design.now.net.nodes))) }
{
    let mut all = Vec::new(alloc);
    for actor in 0..design.net().len() {
        all.push(progress_at(alloc, design, repetitions, stuck, actor)?)?;
    }
    Ok(all)
}

/// Makes one period of a graph by `policy`.
fn class_s_by(
    alloc: Global,
    graph: &Graph,
    repetitions: &Repetitions,
    policy: Policy,
) -> Result<Period, SchedFault>
    requires { IsLeastPeriod (rates graph.now) repetitions.now }
    ensures { MatchResult result (IsScheduleBy policy graph.now) (IsStuckFault graph.now repetitions.now) }
{
    match policy {
        Policy::Round => class_s(alloc, graph, repetitions, &mut Round::new()),
        Policy::Lean => class_s(alloc, graph, repetitions, &mut Lean),
        Policy::Runs => class_s(alloc, graph, repetitions, &mut Runs::new()),
    }
}

/// Makes one period of a design by `policy`. A deadlock does not depend on the policy: then no sequence of enabled
/// firings completes a period.
pub fn period_by(alloc: Global, design: &Design, policy: Policy) -> Result<Period, Fault>
    ensures { MatchResult result (IsScheduleBy policy (graph_of kit_steps design.now.net))
        (IsScheduleFault design.now) }
{
    let net = design.net();
    let graph = net.graph();
    let repetitions = net.repetitions();
    match class_s_by(alloc, graph, repetitions, policy) {
        Ok(period) => Ok(period),
        Err(SchedFault::OutOfMemory) => Err(Fault::OutOfMemory),
        Err(SchedFault::Deadlock(stuck)) => {
            let actors = progress(alloc, design, repetitions, &stuck)?;
            Err(Fault::Deadlock(Stalled { actors }))
        }
    }
}

/// Returns the first test that `options` fail: the blocking factor, then the workers, are within their limits.
pub(crate) fn size_fault(options: &Options) -> Option<Fault>
    ensures { MatchOption result (AreSizes options.now) (IsSizeFault options.now) }
{
    if options.blocking < 1 || options.blocking > MAX_BLOCKING {
        return Some(Fault::BlockingFactor);
    }
    if options.workers < 1 || options.workers > MAX_WORKERS {
        return Some(Fault::WorkerCount);
    }
    None
}

/// Returns the first test that `options` fail by themselves, before a look at the design.
fn option_fault(options: &Options) -> Option<Fault>
    ensures { MatchOption result (ArePassed options.now) (IsOptionFault options.now) }
{
    if options.runner == Runner::Rings && options.patience > MAX_PATIENCE {
        return Some(Fault::Patience);
    }
    size_fault(options)
}

/// Makes the table of a block of `blocking` periods by the placement.
fn block_table(
    alloc: Global,
    design: &Design,
    period: Period,
    options: &Options,
    blocking: u32,
) -> Result<BlockTable, PrecFault>
    requires { IsPeriodOf (rates_of design.now) period }
    ensures { MatchResult result
        (λ t. (t.period ≡ period) × (t.blocking ≡ blocking) × IsTableBy design.now options.now period blocking t.table)
        (IsPlaceFault options.now.placement design.now blocking options.now.workers period) }
{
    let table = table_by(alloc, design, &period, options, blocking)?;
    Ok(BlockTable {
        period,
        blocking,
        table,
    })
}

/// Returns the execution of a design by the runner of the options, for blocks of `blocking` periods.
fn execution_for(
    alloc: Global,
    design: &Design,
    period: Period,
    options: &Options,
    blocking: u32,
) -> Result<Execution, Fault>
    requires { IsPeriodOf (rates_of design.now) period }
    ensures { MatchResult result
        (λ way. IsRunBy design.now options.now period blocking (plan_by way options.now.patience))
        (IsTableFault design.now options.now period blocking) }
{
    match options.runner {
        Runner::One => Ok(Execution::One { period, blocking }),
        Runner::Rows => Ok(Execution::Rows(block_table(alloc, design, period, options, blocking)?)),
        Runner::Rings => {
            let table = block_table(alloc, design, period, options, blocking)?;
            if !table.table.homed() {
                return Err(Fault::NotHomed);
            }
            Ok(Execution::Rings(table))
        }
    }
}

/// Runs the tests in their order, then makes the plan.
#[tactic(auto, using(crate::proofs::Tabling::untabled))]
fn make_plan(alloc: Global, design: &Design, options: &Options) -> Result<Plan, Fault>
    ensures { MatchResult result (IsPlanOf design.now options.now) (IsPlanFault design.now options.now) }
{
    if let Some(fault) = option_fault(options) {
        return Err(fault);
    }
    let period = period_by(alloc, design, options.policy)?;
    let blocking = blocking_by(design, options, &period);
    let way = execution_for(alloc, design, period, options, blocking)?;
    Ok(Plan::new(way, options.patience))
}

/// Plans a run of `design` by `options`, or returns the first test that fails.
///
/// The tests in order: for the runner `rings`, the patience is within its limit; the blocking factor and the workers
/// are within theirs; the design has a schedule; for a runner with workers, a block is not too long, and with the
/// placement `file` each actor has a home among the workers; for the runner `rings`, each actor has a home in the
/// table.
pub fn plan(alloc: Global, design: &Design, options: &Options) -> Result<Plan, Fault>
    // The plan, or the fault, is right for the design and the options.
    ensures answers { MatchResult result (IsPlanOf design.now options.now) (IsPlanFault design.now options.now) }

    // The plan suits the design's net.
    ensures suits { IfOk result (Suits design.now.net) }

    // The fault is `10 Deadlock` exactly if no sequence of enabled firings completes the least period, unless memory
    // was refused.
    ensures decides { ArePassed options.now → Decides design.now result }
{
    // Its contract says that the net has a least period, which the clause `decides` needs.
    let _ = design.net().repetitions();
    make_plan(alloc, design, options)
}

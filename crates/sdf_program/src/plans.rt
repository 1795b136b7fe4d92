//! The plan of a run.

ghost use Rattle.std.specs.Prelude.{◌≡◌, ◌≤◌, ℕ, IfOk, IfSome};
ghost use Rattle.sdf_limits.specs.declared.TheConstants.{MAX_WORKERS};
ghost use Rattle.sdf_plan.specs.Plans.{Suits};
ghost use Rattle.sdf_cli.specs.Limits.{IsParallelWorkers};
ghost use Rattle.sdf_cli.specs.declared.requests.ParallelWorkers.TheVariants as worker_choices;

use sdf_cli::ParallelWorkers;
use sdf_faults::Fault;
use sdf_file::Design;
use sdf_limits::MAX_WORKERS;
use sdf_options::Options;
use sdf_plan::Plan;
use sdf_plan::parallel::{Pace, ParallelPlan, parallel_plan};
use sdf_plan::planning::plan;
use sdf_why::loop_text;
use std::alloc::{AllocError, Global};
use std::io::Write;
use std::thread::{Threads, available_parallelism};

/// The workers of a parallel run if the system does not report its processors.
const WORKERS: usize = 4;

/// The plan of a run, and how a parallel run uses it.
#[derive(Drop)]
pub(crate) struct Prepared {
    pub(crate) plan: Plan,
    pub(crate) pace: Option<Pace>,
}

/// Returns the number of workers that `parallel_workers` asks for.
pub(crate) fn workers_of<T: Threads>(threads: &T, parallel_workers: ParallelWorkers) -> usize
    requires { IsParallelWorkers parallel_workers }
    ensures some { 1 ≤ result }
    ensures few { result ≤ MAX_WORKERS }
    ensures asked { (workers : ℕ) → parallel_workers ≡ worker_choices.Workers workers → result ≡ workers }
{
    match parallel_workers {
        ParallelWorkers::Workers(workers) => workers,
        ParallelWorkers::Processors => match available_parallelism(threads) {
            Ok(processors) => processors.get().min(MAX_WORKERS),
            Err(_) => WORKERS,
        },
    }
}

/// Returns why a design that does not forget runs in one thread.
fn lasting_text(alloc: Global, design: &Design) -> Result<String, AllocError> {
    let told = loop_text(alloc, design)?;
    if told.is_empty() {
        return String::from_str(alloc, "one thread: the design keeps samples for too long\n");
    }
    format!(in alloc; "one thread: the loop {told} may keep its samples for ever\n")
}

/// Returns why a parallel run uses one thread, if that is known before it begins.
fn pace_text(alloc: Global, design: &Design, pace: Pace) -> Result<String, AllocError> {
    match pace {
        Pace::Parts { .. } => Ok(String::new(alloc)),
        Pace::Lasting => lasting_text(alloc, design),
        Pace::Alone => String::from_str(alloc, "one thread: there is one worker\n"),
    }
}

/// Reports why a parallel run uses one thread, if that is known before it begins.
fn report_pace<E: Write>(
    alloc: Global,
    err: &mut E,
    design: &Design,
    pace: Pace,
) -> Result<(), AllocError> {
    let text = pace_text(alloc, design, pace)?;
    let _ = err.write_all(text.as_bytes());
    Ok(())
}

/// Returns the plan of a parallel run. If `is_verbose` is set, reports why it uses one thread.
fn parallel_plan_of<T: Threads + AllocGlobal, E: Write>(
    threads: &T,
    err: &mut E,
    design: &Design,
    parallel_workers: ParallelWorkers,
    is_verbose: bool,
) -> Result<Prepared, Fault>
    requires { IsParallelWorkers parallel_workers }
    ensures { IfOk result (λ prepared. Suits design.now.net prepared.plan) }
{
    let alloc = threads.alloc();
    let ParallelPlan { plan, pace } = parallel_plan(
        alloc,
        design,
        workers_of(threads, parallel_workers),
    )?;
    let told = if is_verbose {
        report_pace(alloc, err, design, pace)
    } else {
        Ok(())
    };
    match told {
        Ok(()) => Ok(Prepared {
            plan,
            pace: Some(pace),
        }),
        Err(refused) => {
            drop(plan);
            Err(Fault::from(refused))
        }
    }
}

/// Returns the plan of a run. If `is_verbose` is set, reports why a parallel run uses one thread.
pub(crate) fn plan_of<T: Threads + AllocGlobal, E: Write>(
    threads: &T,
    err: &mut E,
    design: &Design,
    options: &Options,
    parallel: Option<ParallelWorkers>,
    is_verbose: bool,
) -> Result<Prepared, Fault>
    requires { IfSome parallel IsParallelWorkers }
    ensures { IfOk result (λ prepared. Suits design.now.net prepared.plan) }
{
    match parallel {
        Some(parallel_workers) => parallel_plan_of(
            threads,
            err,
            design,
            parallel_workers,
            is_verbose,
        ),
        None => Ok(Prepared {
            plan: plan(threads.alloc(), design, options)?,
            pace: None,
        }),
    }
}

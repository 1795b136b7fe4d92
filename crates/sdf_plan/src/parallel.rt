//! A plan for several workers, which run parts of the sound in parallel.

ghost use Rattle.std.specs.Prelude.{◌≡◌, ◌≤◌, MatchResult, IfOk};
ghost use Rattle.sdf_actor.specs.Graphs.{graph_of};
ghost use Rattle.sdf_kit.specs.Kit.{kit_steps};
ghost use Rattle.sdf_warm_up.specs.Warm.{IsLeast};
ghost use Rattle.sdf_warm_up.specs.WarmUps.{WarmsIn};
ghost use Rattle.sdf_plan.specs.ParallelPlans.{one_thread, IsParallelPlan};
ghost use Rattle.sdf_options.specs.declared.options.Policy.TheVariants.{Round};
ghost use Rattle.sdf_plan.specs.Plans.{IsPlanFault, IsScheduleBy, IsWorkers, Suits};

use crate::plan::Plan;
use crate::planning::period_by;
use sdf_faults::Fault;
use sdf_file::Design;
use sdf_options::Policy;
use sdf_sched::Period;
use sdf_warm_up::warm_up::warm_up;
use std::alloc::Global;

/// The way in which a design is run by several workers, or the reason why one thread runs it.
#[derive(Clone, Copy, Debug, PartialEq, Eq)]
pub enum Pace {
    /// In parts of the sound, up to `workers` of them in parallel, each in one thread after a warm-up. The warm-up has
    /// `periods` periods, which are `samples` samples of each input.
    Parts {
        workers: usize,
        periods: u32,
        samples: u64,
    },
    /// In one thread: the design has a loop, which may keep samples for ever, or it keeps them for too long.
    Lasting,
    /// In one thread: there is only one worker.
    Alone,
}

/// A plan, and the way in which it runs a design.
#[derive(Drop)]
pub struct ParallelPlan {
    pub plan: Plan,
    pub pace: Pace,
}

/// Makes the plan that runs up to `workers` parts of the sound in parallel. Each part is run by the order of `period`,
/// after a warm-up of `periods` periods.
#[tactic(auto, using(crate::proofs::Alone::is_in_parts, crate::proofs::Alone::parts_suit))]
fn by_parts(design: &Design, workers: usize, periods: u32, period: Period) -> ParallelPlan
    requires by_policy { IsScheduleBy Round (graph_of kit_steps design.now.net) period }
    requires warm_up { IsLeast (WarmsIn kit_steps design.now.net period.repetitions) periods }
    requires workers { IsWorkers workers }
    requires several { 2 ≤ workers }
    ensures answers { IsParallelPlan design.now workers result.plan result.pace }
    ensures suits { Suits design.now.net result.plan }
{
    let samples = u64::from(periods) * design.net().samples_in() as u64;
    let pace = Pace::Parts {
        workers,
        periods,
        samples,
    };
    ParallelPlan {
        plan: Plan::in_parts(period, workers as u32),
        pace,
    }
}

/// Plans a run by `workers` workers, each on its own part of the sound, if the design is known to forget its input.
/// Otherwise the run is in one thread. Its faults are the faults of a plan for one thread.
#[tactic(auto, using(crate::proofs::Alone::is_alone, crate::proofs::Alone::suits, crate::proofs::Alone::no_plan))]
pub fn parallel_plan(alloc: Global, design: &Design, workers: usize) -> Result<ParallelPlan, Fault>
    requires { IsWorkers workers }

    // The plan and its pace, or the fault, are right for the design.
    ensures answers { MatchResult result (λ p. IsParallelPlan design.now workers p.plan p.pace)
        (IsPlanFault design.now one_thread) }

    // The plan suits the design's net.
    ensures suits { IfOk result (λ p. Suits design.now.net p.plan) }
{
    let period = period_by(alloc, design, Policy::Round)?;
    if workers == 1 {
        return Ok(ParallelPlan {
            plan: Plan::on_one_thread(period),
            pace: Pace::Alone,
        });
    }
    match warm_up(alloc, design.net())? {
        Some(periods) => Ok(by_parts(design, workers, periods, period)),
        None => Ok(ParallelPlan {
            plan: Plan::on_one_thread(period),
            pace: Pace::Lasting,
        }),
    }
}

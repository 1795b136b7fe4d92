//! A run whose firings are timed.

ghost use Rattle.std.specs.Prelude.{IfOk, MatchResult, string_bytes};
ghost use Rattle.sdf_plan.specs.Plans.{Suits};
ghost use Rattle.sdf_profile.specs.Profiles.{HasRunOn, IsMeasured, AreProfileOptions, IsRunFault, IsMeasuringFault};
ghost use Rattle.sdf_profile.specs.Profiles.{IsProfileFault};
ghost use Rattle.sdf_profile.specs.Times.{AreMeasured};

use crate::costs::{costs_of, times_of};
use crate::lines::profile_text;
use crate::memory::{MemoryReader, NullWriter};
use crate::stopwatch::{Spent, Stopwatch};
use sdf_faults::Fault;
use sdf_file::Design;
use sdf_limits::{MAX_BLOCK, MAX_BLOCKING, MAX_PATIENCE};
use sdf_options::{Options, Placement, Policy, Runner};
use sdf_plan::Plan;
use sdf_plan::planning::plan;
use sdf_process::process::process_with;
use sdf_run::Gate;
use std::alloc::{AllocError, Global};
use std::thread::Threads;
use std::time::Clock;

/// Returns the options of a run over rings by one worker, in the longest blocks allowed, so that firings are batched.
fn options_for(design: &Design) -> Options
    ensures { AreProfileOptions design.now result }
{
    let period = u64::from(design.net().repetitions().period());
    let blocks = MAX_BLOCK.checked_div(period).unwrap_or(1);
    Options {
        blocking: blocks.clamp(1, u64::from(MAX_BLOCKING)) as u32,
        workers: 1,
        policy: Policy::Runs,
        placement: Placement::Homed,
        runner: Runner::Rings,
        patience: MAX_PATIENCE,
    }
}

/// The result of a profile: its text, and the cost of a firing of each actor.
#[derive(Drop)]
pub struct Measured {
    pub text: String,
    pub costs: Vec<u32>,
}

/// Runs a design by `plan` on `input`, the bytes of a WAV file, and drops its output.
#[tactic(auto, using(crate::proofs::Profiled::ran))]
fn run_through<T: Threads + AllocGlobal + Sync, G: Gate>(
    rt: &T,
    input: &[u8],
    design: &Design,
    plan: &Plan,
    gate: &G,
) -> Result<(), Fault>
    requires { Suits design.now.net plan.now }
    ensures { MatchResult result (λ _. HasRunOn design.now input.now) (IsRunFault design.now input.now) }
{
    let mut reader = MemoryReader { left: input };
    process_with(rt, &mut reader, &mut NullWriter, design, plan, gate)
}

/// Makes the text and the costs from the time that firings took.
fn measured_from(alloc: Global, design: &Design, spent: &[Spent]) -> Result<Measured, AllocError>
    ensures { IfOk result (λ m. AreMeasured design.now.names spent.now (string_bytes m.text) m.costs.items) }
{
    let costs = costs_of(alloc, &times_of(alloc, spent)?)?;
    let text = profile_text(alloc, design, spent, &costs)?;
    Ok(Measured { text, costs })
}

/// Makes the text and the costs of a run that `watch` timed.
fn read_watch<C: Clock + Drop>(
    alloc: Global,
    design: &Design,
    watch: &Stopwatch<C>,
) -> Result<Measured, AllocError>
    ensures { IfOk result (IsMeasured design.now) }
{
    let spent = watch.spent(alloc, design.net().len())?;
    measured_from(alloc, design, &spent)
}

/// Times a run by `plan` with `watch`.
fn run_timed<T: Threads + AllocGlobal + Sync, C: Clock + Drop + Sync>(
    rt: &T,
    input: &[u8],
    design: &Design,
    plan: &Plan,
    watch: &Stopwatch<C>,
) -> Result<Measured, Fault>
    requires { Suits design.now.net plan.now }
    ensures { MatchResult result (λ m. HasRunOn design.now input.now × IsMeasured design.now m)
        (IsMeasuringFault design.now input.now) }
{
    run_through(rt, input, design, plan, watch)?;
    watch.pass_to(usize::MAX);
    Ok(read_watch(rt.alloc(), design, watch)?)
}

/// Times a run by `plan`, with a stopwatch of its own.
fn measure<T: Threads + AllocGlobal + Clock + Clone + Drop + Sync>(
    rt: &T,
    input: &[u8],
    design: &Design,
    plan: &Plan,
) -> Result<Measured, Fault>
    requires { Suits design.now.net plan.now }
    ensures { MatchResult result (λ m. HasRunOn design.now input.now × IsMeasured design.now m)
        (IsMeasuringFault design.now input.now) }
{
    let watch = Stopwatch::new(rt.alloc(), rt.clone()?, design.net().len())?;
    run_timed(rt, input, design, plan, &watch)
}

/// Runs `design` in one thread on `input`, the bytes of a WAV file, and drops its output.
///
/// It reports each actor's share of the time, its number of firings, the time of a firing, and the value for its key
/// `cost`. The least time costs 1. The time between two firings counts for the first of them. This includes reading the
/// clock (some 30 ns) and, at the end of a piece of sound, writing its output and preparing the next piece. It fails as
/// the command `run` does.
pub fn profile<T: Threads + AllocGlobal + Clock + Clone + Drop + Sync>(
    rt: &T,
    input: &[u8],
    design: &Design,
) -> Result<Measured, Fault>
    ensures { MatchResult result (λ m. HasRunOn design.now input.now × IsMeasured design.now m)
        (IsProfileFault design.now input.now) }
{
    let alloc = rt.alloc();
    let plan = plan(alloc, design, &options_for(design))?;
    measure(rt, input, design, &plan)
}

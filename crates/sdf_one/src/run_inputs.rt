//! The inputs of a run on one thread, and its firings.

ghost use Rattle.std.specs.Prelude.{◌≡◌, ◌^◌, ◌≤◌, ◌<◌, map, IfOk};
ghost use Rattle.sdf_actor.specs.Wires.{lists};
ghost use Rattle.sdf_one.specs.Fired.{AreRunInputs, HaveOutputRoom, HasFiredPeriods};

use crate::cycles::make_cycles;
use crate::lengths::block_periods;
use crate::run::Run;
use crate::setup::make_works;
use sdf_actor::{Actor, Net};
use sdf_queues::rooms::renew_queues;
use sdf_queues::{Queue, Sizes};
use sdf_sched::Period;
use std::alloc::{AllocError, Global};

/// Returns the firing counts of all nodes before a run, which are 0.
fn zero_counts(alloc: Global, repetitions: &[u32]) -> Result<Vec<usize>, AllocError>
    ensures { IfOk result (λ v. v.items ≡ map (λ _. 0) repetitions.now) }
{
    repetitions.iter().map(|_| 0usize).collect(alloc)
}

/// A net, the schedule of its period, and the inputs on which it is run for `periods` periods.
#[derive_where(Clone, Copy)]
pub struct RunInputs<'a, A: Actor> {
    pub net: &'a Net<A>,
    pub period: &'a Period,
    pub periods: u32,
    /// The input lists, by number.
    pub inputs: &'a [Vec<A::Token>],
}

/// Fires all periods of a run. Its queues are made in the buffers of `spares`.
pub(crate) fn fired<'a, A: Actor>(
    alloc: Global,
    run_inputs: RunInputs<'a, A>,
    filler: A::Token,
    outputs: Vec<Vec<A::Token>>,
    spares: &mut [Queue<A::Token>],
) -> Result<Run<'a, A>, AllocError>
    requires run_inputs { AreRunInputs A.steps run_inputs }
    requires short { run_inputs.periods < 2 ^ 32 }
    requires outputs { HaveOutputRoom run_inputs outputs.items }
    ensures { IfOk result (λ run. HasFiredPeriods A.steps run_inputs.entry.net.now (lists run_inputs.entry.inputs.now)
        run_inputs.entry.period.now.repetitions run_inputs.entry.periods run) }
{
    let RunInputs {
        net,
        period,
        periods,
        inputs,
    } = run_inputs;
    let sizes = Sizes::new(alloc, net)?;
    let cycles = make_cycles(alloc, net)?;
    let works = make_works(alloc, net, &sizes, filler)?;
    let repetitions = period.repetitions();
    let size = block_periods(net, repetitions, periods);
    let queues = renew_queues(alloc, net, repetitions, size, filler, spares)?;
    let done = zero_counts(alloc, repetitions)?;
    let mut run = Run {
        net,
        inputs,
        sizes,
        cycles,
        repetitions,
        periods,
        high: 0,
        done,
        works,
        queues,
        outputs,
        filler,
    };
    run.fire_all(size);
    Ok(run)
}

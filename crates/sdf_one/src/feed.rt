//! Runs on one thread that can be resumed.

ghost use Rattle.std.specs.Prelude.{◌≡◌, ◌^◌, ◌<◌, ℕ, List, map, MatchResult, IfOk};
ghost use Rattle.sdf_graph.specs.Rates.{rates};
ghost use Rattle.sdf_sched.specs.Period.{IsPeriodOf};
ghost use Rattle.sdf_actor.specs.Graphs.{graph_of};
ghost use Rattle.sdf_actor.specs.NetStates.{IsNetState};
ghost use Rattle.sdf_actor.specs.Sides.{period_samples};
ghost use Rattle.sdf_actor.specs.Wires.{lists};
ghost use Rattle.sdf_actor.specs.declared.sides.Lists.TheVariants.{Inputs};
ghost use Rattle.sdf_queues.specs.RunResults.{HasInputs, periods_of, IsRunFault};
ghost use Rattle.sdf_queues.specs.Feeds.{HasRun, GoesOnBy};
ghost use Rattle.sdf_one.specs.Fired.{AreRunInputs, HaveOutputRoom, state_in};

use crate::run_inputs::{RunInputs, fired};
use crate::spare_memory::SpareMemory;
use crate::work::Work;
use sdf_actor::{Actor, Net, NetState};
use sdf_queues::inputs::{are_inputs, first_sample};
use sdf_queues::laws::nets_have_periods;
use sdf_queues::queue::held;
use sdf_queues::{Ran, RunFault};
use sdf_sched::Period;
use std::alloc::{AllocError, Global};

/// Returns a copy of the state of an actor, or `None` for a source or a sink.
fn state_of<A: Actor>(alloc: Global, work: &Work<A>) -> Result<Option<A::State>, AllocError>
    ensures { IfOk result (λ state. state ≡ state_in work.now) }
{
    match work {
        Work::Inner { actor, state, .. } => Ok(Some(actor.again(alloc, state)?)),
        _ => Ok(None),
    }
}

/// Returns a copy of each actor's state, or `None` for a source or a sink, by node.
fn states_of<A: Actor>(
    alloc: Global,
    works: &[Work<A>],
) -> Result<Vec<Option<A::State>>, AllocError>
    ensures { IfOk result (λ v. v.items ≡ map state_in works.now) }
{
    let mut states = Vec::new(alloc);
    for work in works {
        states.push(state_of(alloc, work)?)?;
    }
    Ok(states)
}

/// Fires all periods of a run, and returns its outputs and the net state that it leaves.
fn run<A: Actor>(
    alloc: Global,
    run_inputs: RunInputs<'_, A>,
    filler: A::Token,
    outputs: Vec<Vec<A::Token>>,
    spares: &mut SpareMemory<A::Token>,
) -> Result<(Vec<Vec<A::Token>>, NetState<A::Token, A::State>), AllocError>
    requires run_inputs { AreRunInputs A.steps run_inputs }
    requires short { run_inputs.periods < 2 ^ 32 }
    requires outputs { HaveOutputRoom run_inputs outputs.items }
    ensures { IfOk result (λ made. HasRun A.steps run_inputs.entry.net.now (lists run_inputs.entry.inputs.now)
        (periods_of run_inputs.entry.period.now.repetitions run_inputs.entry.periods) (lists made.0.items) made.1) }
{
    let finished = fired(alloc, run_inputs, filler, outputs, &mut spares.queues)?;
    let rest = NetState {
        states: states_of(alloc, &finished.works)?,
        held: held(alloc, &finished.queues)?,
    };
    spares.queues = finished.queues;
    Ok((finished.outputs, rest))
}

/// Returns the outputs of a run and the net state that it leaves. Without a sample nothing fires, and the memory of
/// earlier queues is freed.
fn run_net<A: Actor>(
    alloc: Global,
    run_inputs: RunInputs<'_, A>,
    outputs: Vec<Vec<A::Token>>,
    spares: &mut SpareMemory<A::Token>,
) -> Result<(Vec<Vec<A::Token>>, NetState<A::Token, A::State>), AllocError>
    requires run_inputs { AreRunInputs A.steps run_inputs }
    requires short { run_inputs.periods < 2 ^ 32 }
    requires some { 0 < period_samples run_inputs.net.now.nodes Inputs run_inputs.period.now.repetitions }
    requires outputs { HaveOutputRoom run_inputs outputs.items }
    ensures { IfOk result (λ made. HasRun A.steps run_inputs.entry.net.now (lists run_inputs.entry.inputs.now)
        (periods_of run_inputs.entry.period.now.repetitions run_inputs.entry.periods) (lists made.0.items) made.1) }
{
    match first_sample(run_inputs.inputs) {
        Some(filler) => run(alloc, run_inputs, filler, outputs, spares),
        None => {
            spares.queues = Vec::new(alloc);
            Ok((outputs, run_inputs.net.initial_state(alloc)?))
        }
    }
}

/// Runs a net as `run_one` does, and also returns the net state that the run leaves. `Net::begun` goes on from there.
pub fn feed_one<A: Actor>(
    alloc: Global,
    net: &Net<A>,
    period: &Period,
    periods: u32,
    inputs: &[Vec<A::Token>],
) -> Result<(Ran<A::Token>, NetState<A::Token, A::State>), RunFault>
    requires period { IsPeriodOf (rates (graph_of A.steps net.now)) period.now }
    ensures { let q = period.now.repetitions in MatchResult result
        (λ fed. HasInputs net.now q periods (lists inputs.now)
        × HasRun A.steps net.now (lists inputs.now) (periods_of q periods) (lists fed.0.outputs.items) fed.1
        × (fed.0.rounds ≡ 0))
        (IsRunFault net.now q periods (lists inputs.now)) }
{
    feed_one_in(
        alloc,
        net,
        period,
        periods,
        inputs,
        &mut SpareMemory::none(alloc),
    )
}

/// Runs a net as `feed_one` does, in the memory that earlier runs left in `spares`.
fn feed_one_in<A: Actor>(
    alloc: Global,
    net: &Net<A>,
    period: &Period,
    periods: u32,
    inputs: &[Vec<A::Token>],
    spares: &mut SpareMemory<A::Token>,
) -> Result<(Ran<A::Token>, NetState<A::Token, A::State>), RunFault>
    requires period { IsPeriodOf (rates (graph_of A.steps net.now)) period.now }
    ensures { let q = period.now.repetitions in MatchResult result
        (λ fed. HasInputs net.now q periods (lists inputs.now)
        × HasRun A.steps net.now (lists inputs.now) (periods_of q periods) (lists fed.0.outputs.items) fed.1
        × (fed.0.rounds ≡ 0))
        (IsRunFault net.now q periods (lists inputs.now)) }
{
    let least = periods as usize * net.samples_in();
    if !are_inputs(inputs, net.inputs(), least) {
        return Err(RunFault::InputLength);
    }
    let room = periods as usize * net.samples_out();
    let outputs = spares.take_outputs(alloc, net.outputs(), room)?;
    let run_inputs = RunInputs {
        net,
        period,
        periods,
        inputs,
    };
    let (outputs, rest) = run_net(alloc, run_inputs, outputs, spares)?;
    Ok((Ran { outputs, rounds: 0 }, rest))
}

/// Resumes `net` from `rest`, the net state that earlier runs left, and runs `periods` further periods on `inputs`. If
/// the earlier runs read all their samples, the outputs of all runs, joined, are the outputs of one run on all inputs.
pub fn resume_one<A: Actor>(
    alloc: Global,
    net: &Net<A>,
    period: &Period,
    rest: &NetState<A::Token, A::State>,
    periods: u32,
    inputs: &[Vec<A::Token>],
) -> Result<(Ran<A::Token>, NetState<A::Token, A::State>), RunFault>
    requires period { IsPeriodOf (rates (graph_of A.steps net.now)) period.now }
    requires rest { (first : List (List A.Token)) × (few : ℕ)
        × IsNetState A.steps net.now first (periods_of period.now.repetitions few) rest.now }
    ensures { let q = period.now.repetitions in MatchResult result
        (λ fed. GoesOnBy A.steps net.now q rest.now periods (lists inputs.now) (lists fed.0.outputs.items) fed.1
        × (fed.0.rounds ≡ 0))
        (IsRunFault net.now q periods (lists inputs.now)) }
{
    let run_inputs = RunInputs {
        net,
        period,
        periods,
        inputs,
    };
    resume_one_in(alloc, run_inputs, rest, &mut SpareMemory::none(alloc))
}

/// Resumes a net as `resume_one` does, in the memory that earlier runs left in `spares`, and leaves its own there. A
/// sound that is run in many pieces then allocates most of its memory once.
pub fn resume_one_in<A: Actor>(
    alloc: Global,
    run_inputs: RunInputs<'_, A>,
    rest: &NetState<A::Token, A::State>,
    spares: &mut SpareMemory<A::Token>,
) -> Result<(Ran<A::Token>, NetState<A::Token, A::State>), RunFault>
    requires period { IsPeriodOf (rates (graph_of A.steps run_inputs.net.now)) run_inputs.period.now }
    requires rest { (first : List (List A.Token)) × (few : ℕ)
        × IsNetState A.steps run_inputs.net.now first (periods_of run_inputs.period.now.repetitions few) rest.now }
    ensures { let q = run_inputs.entry.period.now.repetitions in MatchResult result
        (λ fed. GoesOnBy A.steps run_inputs.entry.net.now q rest.now run_inputs.entry.periods
        (lists run_inputs.entry.inputs.now) (lists fed.0.outputs.items) fed.1
        × (fed.0.rounds ≡ 0))
        (IsRunFault run_inputs.entry.net.now q run_inputs.entry.periods (lists run_inputs.entry.inputs.now)) }
{
    let RunInputs {
        net,
        period,
        periods,
        inputs,
    } = run_inputs;
    nets_have_periods(net);
    let begun = net.begun(alloc, rest)?;
    feed_one_in(alloc, &begun, period, periods, inputs, spares)
}

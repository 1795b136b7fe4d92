//! Runs by rows that can be resumed.

ghost use Rattle.std.specs.Prelude.{◌≡◌, ◌*◌, ◌<◌, ℕ, List, length, MatchResult, IfOk};
ghost use Rattle.sdf_graph.specs.Rates.{rates};
ghost use Rattle.sdf_actor.specs.Graphs.{graph_of};
ghost use Rattle.sdf_actor.specs.NetStates.{IsNetState};
ghost use Rattle.sdf_actor.specs.Sides.{period_samples};
ghost use Rattle.sdf_actor.specs.Wires.{lists};
ghost use Rattle.sdf_actor.specs.declared.sides.Lists.TheVariants.{Inputs};
ghost use Rattle.sdf_queues.specs.RunResults.{HasInputs, periods_of, IsRunFault};
ghost use Rattle.sdf_queues.specs.Feeds.{HasRun, GoesOnBy};
ghost use Rattle.sdf_prec.specs.BlockTables.{IsBlockTableOf};
ghost use Rattle.sdf_rows.specs.Collect.{AreKept};

use crate::collect::collect;
use crate::table_blocks::{TableBlocks, fire, rounds_of};
use sdf_actor::{Actor, Net, NetState};
use sdf_node::{Gate, NodeState, kept};
use sdf_queues::inputs::{are_inputs, first_sample};
use sdf_queues::laws::nets_have_periods;
use sdf_queues::outputs::make_outputs;
use sdf_queues::queue::held;
use sdf_queues::sizes::samples_of_blocks;
use sdf_queues::{Ran, RunFault};
use std::alloc::{AllocError, Global};
use std::thread::Threads;

/// Returns a copy of each actor's state, or `None` for a source or a sink, by node.
fn states_of<A: Actor>(
    alloc: Global,
    net: &Net<A>,
    states: &[NodeState<A::Token, A::State>],
) -> Result<Vec<Option<A::State>>, AllocError>
    requires { length states.now ≡ length net.now.nodes }
    ensures all { IfOk result (λ v. length v.items ≡ length net.now.nodes) }
    ensures each { IfOk result (λ v. AreKept net.now states.now v.items) }
{
    let mut copies = Vec::new(alloc);
    for a in 0..net.len() {
        copies.push(kept(alloc, net.node(a), &states[a])?)?;
    }
    Ok(copies)
}

/// Returns the outputs of a run and the net state that it leaves. Without a sample there are no blocks, and nothing
/// fires.
fn run_net<R: Threads + AllocGlobal + Sync, A: Actor, G: Gate>(
    rt: &R,
    net: &Net<A>,
    plan: &TableBlocks,
    inputs: &[Vec<A::Token>],
    gate: &G,
) -> Result<(Vec<Vec<A::Token>>, NetState<A::Token, A::State>), AllocError>
    requires fits { IsBlockTableOf (rates (graph_of A.steps net.now)) plan.now.table.now }
    requires inputs { HasInputs net.now plan.now.table.now.period.repetitions
        (plan.now.blocks * plan.now.table.now.blocking) (lists inputs.now) }
    requires some { 0 < period_samples net.now.nodes Inputs plan.now.table.now.period.repetitions }
    ensures { let t = plan.now.table.now in IfOk result (λ made. HasRun A.steps net.now (lists inputs.now)
        (periods_of t.period.repetitions (plan.now.blocks * t.blocking)) (lists made.0.items) made.1) }
{
    let alloc = rt.alloc();
    let mut outputs = make_outputs(alloc, net.outputs(), 0)?;
    match first_sample(inputs) {
        Some(filler) => {
            let mut run_state = fire(rt, net, plan, inputs, filler, gate)?;
            let rest = NetState {
                states: states_of(alloc, net, &run_state.states)?,
                held: held(alloc, &run_state.queues)?,
            };
            collect(net, &mut run_state.states, &mut outputs);
            Ok((outputs, rest))
        }
        None => Ok((outputs, net.initial_state(alloc)?)),
    }
}

/// Runs a net as `run_rows` does, and also returns the net state that the run leaves. `Net::begun` goes on from there.
pub fn feed_rows<R: Threads + AllocGlobal + Sync, A: Actor, G: Gate>(
    rt: &R,
    net: &Net<A>,
    plan: &TableBlocks,
    inputs: &[Vec<A::Token>],
    gate: &G,
) -> Result<(Ran<A::Token>, NetState<A::Token, A::State>), RunFault>
    requires fits { IsBlockTableOf (rates (graph_of A.steps net.now)) plan.now.table.now }
    ensures { let t = plan.now.table.now in let q = t.period.repetitions in
        let periods = plan.now.blocks * t.blocking in MatchResult result
        (λ fed. HasInputs net.now q periods (lists inputs.now)
        × HasRun A.steps net.now (lists inputs.now) (periods_of q periods) (lists fed.0.outputs.items) fed.1
        × (fed.0.rounds ≡ plan.now.blocks * length t.table.rows))
        (IsRunFault net.now q periods (lists inputs.now)) }
{
    let least = samples_of_blocks(plan.blocks, plan.table.blocking, net.samples_in());
    if !are_inputs(inputs, net.inputs(), least) {
        return Err(RunFault::InputLength);
    }
    let (outputs, rest) = run_net(rt, net, plan, inputs, gate)?;
    let rounds = rounds_of(plan.blocks, plan.table.table.rows());
    Ok((Ran { outputs, rounds }, rest))
}

/// Resumes `net` from `rest`, the net state that earlier runs left, and runs `plan.blocks` further blocks on `inputs`.
/// If the earlier runs read all their samples, the outputs of all runs, joined, are the outputs of one run on all
/// inputs.
pub fn resume_rows<R: Threads + AllocGlobal + Sync, A: Actor, G: Gate>(
    rt: &R,
    net: &Net<A>,
    plan: &TableBlocks,
    rest: &NetState<A::Token, A::State>,
    inputs: &[Vec<A::Token>],
    gate: &G,
) -> Result<(Ran<A::Token>, NetState<A::Token, A::State>), RunFault>
    requires fits { IsBlockTableOf (rates (graph_of A.steps net.now)) plan.now.table.now }
    requires rest { (first : List (List A.Token)) × (few : ℕ)
        × IsNetState A.steps net.now first (periods_of plan.now.table.now.period.repetitions few) rest.now }
    ensures { let t = plan.now.table.now in let q = t.period.repetitions in
        let periods = plan.now.blocks * t.blocking in MatchResult result
        (λ fed. GoesOnBy A.steps net.now q rest.now periods (lists inputs.now) (lists fed.0.outputs.items) fed.1
        × (fed.0.rounds ≡ plan.now.blocks * length t.table.rows))
        (IsRunFault net.now q periods (lists inputs.now)) }
{
    nets_have_periods(net);
    let begun = net.begun(rt.alloc(), rest)?;
    feed_rows(rt, &begun, plan, inputs, gate)
}

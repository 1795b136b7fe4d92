//! The state of a run between two rows, and the run of a row: its jobs are filled and fired in parallel, and then their
//! output is put on the channels.

ghost use Rattle.std.specs.Prelude.{◌≡◌, ◌+◌, ◌^◌, ◌≤◌, ◌<◌, ℕ, length, slice_index, slice_set, Some};
ghost use Rattle.sdf_graph.specs.Sequences.{times};
ghost use Rattle.sdf_actor.specs.Wires.{lists};
ghost use Rattle.sdf_node.specs.Nodes.{phase_at};
ghost use Rattle.sdf_prec.specs.declared.firing.Firing.{Firing};
ghost use Rattle.sdf_prec.specs.Tables.{cell_of, firings};
ghost use Rattle.sdf_rows.specs.Loading.{CanLoad, HasLoaded, AreLoaded, CanSettle, HasSettled, actors_of, row_actors};
ghost use Rattle.sdf_rows.specs.RowStates.{HaveBlocks, KeepBlocks, IsFilling, IsSettling, IsBetween, IsRow, IsScene};

use crate::row_firing::{RowFiring, fire_jobs};
use crate::scene::Scene;
use sdf_actor::laws::history_grows_by_firing;
use sdf_actor::{Actor, Side};
use sdf_node::{ActorId, Gate, NodeState, puts};
use sdf_prec::Firing;
use sdf_queues::Queue;
use sdf_queues::blocks::{Ports, put_block, skip_fronts};
use std::mem;
use std::thread::Threads;

/// The state of a run between two rows: the state of each node, the samples on each channel, and the number of firings
/// of each node.
#[derive(Drop)]
pub(crate) struct RowState<A: Actor> {
    pub(crate) states: Vec<NodeState<A::Token, A::State>>,
    pub(crate) queues: Vec<Queue<A::Token>>,
    pub(crate) done: Vec<u64>,
}

/// Fills `job` with the next firing of `actor`. The actor's state is in the job until the firing is settled.
fn load<A: Actor>(
    job: &mut RowFiring<A>,
    state: &mut NodeState<A::Token, A::State>,
    processor: usize,
    actor: ActorId,
    firing: u64,
)
    ensures { job.new ≡ record job.old {
      processor = processor;
      actor = actor;
      firing = firing;
      phase = phase_at state.old;
      state = state.old;
    } }
{
    job.processor = processor;
    job.actor = actor;
    job.firing = firing;
    job.phase = state.phase();
    mem::swap(&mut job.state, state);
}

/// Fills the next job if `cell` has a firing, and returns how many jobs are filled.
fn load_cell<A: Actor>(
    cell: &Option<Firing>,
    column: usize,
    done: &[u64],
    states: &mut [NodeState<A::Token, A::State>],
    jobs: &mut [RowFiring<A>],
    many: usize,
) -> usize
    requires { CanLoad cell.now (length done.now) (length states.old) (length jobs.old) many }
    ensures { HasLoaded cell.now column done.now states.old states.new jobs.old jobs.new many result }
{
    match cell {
        Some(firing) => {
            let actor = firing.actor;
            load(
                &mut jobs[many],
                &mut states[actor],
                column,
                actor,
                done[actor],
            );
            many + 1
        }
        None => many,
    }
}

/// Fills a job for each firing of `row`, from the front of `jobs`, and returns how many there are.
pub(crate) fn load_row<A: Actor>(
    row: &[Option<Firing>],
    done: &[u64],
    states: &mut [NodeState<A::Token, A::State>],
    jobs: &mut [RowFiring<A>],
) -> usize
    requires counted { (j : ℕ) (f : Firing) → j < length row.now → cell_of row.now j ≡ Some f →
        (f.actor < length done.now) × (f.actor < length states.old) }
    requires few { length (firings row.now) ≤ length jobs.old }
    ensures many { result ≡ length (firings row.now) }
    ensures loaded { AreLoaded row.now done.now (firings row.now) states.old states.new jobs.old jobs.new }
{
    let mut many = 0;
    for column in 0..row.len() {
        many = load_cell(&row[column], column, done, states, jobs, many);
    }
    many
}

/// Drops from the channels what a firing took, puts its output on them, and gives its actor the state back.
fn settle<A: Actor, G>(
    scene: &Scene<A, G>,
    job: &mut RowFiring<A>,
    state: &mut NodeState<A::Token, A::State>,
    queues: &mut [Queue<A::Token>],
)
    requires { CanSettle A.steps scene.now.net.now scene.now.sizes job.old queues.old }
    ensures queues { HasSettled A.steps scene.now.net.now scene.now.sizes job.old queues.old queues.new }
    ensures state { state.new ≡ job.old.state }
    ensures job { job.new ≡ record job.old { state = state.old } }
{
    let ins = Ports {
        channels: scene.net.channels_in(job.actor),
        sizes: scene.sizes.on(Side::Input, job.phase),
    };
    skip_fronts(&ins, queues);
    let outs = Ports {
        channels: scene.net.channels_out(job.actor),
        sizes: scene.sizes.on(Side::Output, job.phase),
    };
    let many = puts(scene.net.node(job.actor), job.phase);
    put_block(&outs, &job.put[..many], queues);
    mem::swap(&mut job.state, state);
}

/// Settles a firing, and counts it.
fn settle_at<A: Actor, G>(scene: &Scene<A, G>, job: &mut RowFiring<A>, run_state: &mut RowState<A>)
    requires can { CanSettle A.steps scene.now.net.now scene.now.sizes job.old run_state.old.queues.items }
    requires state { job.old.actor < length run_state.old.states.items }
    requires counted { job.old.actor < length run_state.old.done.items }
    requires small { slice_index run_state.old.done.items job.old.actor < 2 ^ 63 }
    ensures queues { HasSettled A.steps scene.now.net.now scene.now.sizes job.old run_state.old.queues.items
        run_state.new.queues.items }
    ensures states { run_state.new.states.items ≡ slice_set run_state.old.states.items job.old.actor job.old.state }
    ensures done { run_state.new.done.items ≡ slice_set run_state.old.done.items job.old.actor
        (slice_index run_state.old.done.items job.old.actor + 1) }
    ensures taken { job.new.taken ≡ job.old.taken }
    ensures put { job.new.put ≡ job.old.put }
{
    let actor = job.actor;
    settle(
        scene,
        job,
        &mut run_state.states[actor],
        &mut run_state.queues,
    );
    run_state.done[actor] += 1;
}

/// Settles all firings of a row, which are in `jobs`.
pub(crate) fn settle_row<A: Actor, G>(
    scene: &Scene<A, G>,
    jobs: &mut [RowFiring<A>],
    run_state: &mut RowState<A>,
)
    requires scene { IsScene A.steps scene.now.net.now scene.now.sizes }
    requires back { (many low high : ℕ → ℕ) × IsSettling A.steps scene.now.net.now (lists scene.now.inputs.now) many low
        high (actors_of jobs.old) 0 (slice_index run_state.old.done.items) run_state.old.states.items
        run_state.old.queues.items
        jobs.old }
    requires counted { length run_state.old.done.items ≡ length scene.now.net.now.nodes }
    ensures settled { (many low high : ℕ → ℕ) → IsSettling A.steps scene.now.net.now (lists scene.now.inputs.now) many
        low high (actors_of jobs.old) 0 (slice_index run_state.old.done.items) run_state.old.states.items
        run_state.old.queues.items jobs.old →
        IsSettling A.steps scene.now.net.now (lists scene.now.inputs.now) many low high (actors_of jobs.old)
        (length jobs.old) (slice_index run_state.new.done.items) run_state.new.states.items
        run_state.new.queues.items jobs.new }
    ensures done { (a : ℕ) → slice_index run_state.new.done.items a ≡
        slice_index run_state.old.done.items a + times (actors_of jobs.old) a }
    ensures counts { length run_state.new.done.items ≡ length run_state.old.done.items }
    ensures blocks { KeepBlocks jobs.old jobs.new }
{
    history_grows_by_firing::<A>();
    for place in 0..jobs.len() {
        settle_at(scene, &mut jobs[place], run_state);
    }
}

/// Fires the row in `jobs`: all its firings in parallel. Then settles them one after another.
pub(crate) fn fire_row<R: Threads + Sync, A: Actor, G: Gate>(
    rt: &R,
    scene: &Scene<A, G>,
    jobs: &mut [RowFiring<A>],
    run_state: &mut RowState<A>,
)
    requires scene { IsScene A.steps scene.now.net.now scene.now.sizes }
    requires filled { (many low high : ℕ → ℕ) × IsFilling A.steps scene.now.net.now (lists scene.now.inputs.now) many
        low high (actors_of jobs.old) 0 (slice_index run_state.old.done.items) run_state.old.states.items
        run_state.old.queues.items jobs.old }
    requires counted { length run_state.old.done.items ≡ length scene.now.net.now.nodes }
    ensures settled { (many low high : ℕ → ℕ) → IsFilling A.steps scene.now.net.now (lists scene.now.inputs.now) many
        low high (actors_of jobs.old) 0 (slice_index run_state.old.done.items) run_state.old.states.items
        run_state.old.queues.items jobs.old →
        IsBetween A.steps scene.now.net.now (lists scene.now.inputs.now) many low high
        (slice_index run_state.new.done.items) run_state.new.states.items run_state.new.queues.items }
    ensures done { (a : ℕ) → slice_index run_state.new.done.items a ≡
        slice_index run_state.old.done.items a + times (actors_of jobs.old) a }
    ensures counts { length run_state.new.done.items ≡ length run_state.old.done.items }
    ensures blocks { KeepBlocks jobs.old jobs.new }
{
    fire_jobs(rt, scene, &run_state.queues, jobs);
    settle_row(scene, jobs, run_state);
}

/// Fires `row`, a row of a table.
pub(crate) fn run_row<R: Threads + Sync, A: Actor, G: Gate>(
    rt: &R,
    scene: &Scene<A, G>,
    row: &[Option<Firing>],
    jobs: &mut [RowFiring<A>],
    run_state: &mut RowState<A>,
)
    requires scene { IsScene A.steps scene.now.net.now scene.now.sizes }
    requires between { (many low high : ℕ → ℕ) × IsBetween A.steps scene.now.net.now (lists scene.now.inputs.now) many
        low high (slice_index run_state.old.done.items) run_state.old.states.items run_state.old.queues.items
        × IsRow A.steps scene.now.net.now (slice_index run_state.old.done.items) high (row_actors row.now) }
    requires counted { length run_state.old.done.items ≡ length scene.now.net.now.nodes }
    requires blocks { HaveBlocks A.steps scene.now.net.now jobs.old }
    requires few { length (firings row.now) ≤ length jobs.old }
    ensures between { (many low high : ℕ → ℕ) → IsBetween A.steps scene.now.net.now (lists scene.now.inputs.now) many
        low high (slice_index run_state.old.done.items) run_state.old.states.items run_state.old.queues.items →
        IsRow A.steps scene.now.net.now (slice_index run_state.old.done.items) high (row_actors row.now) →
        IsBetween A.steps scene.now.net.now (lists scene.now.inputs.now) many low high
        (slice_index run_state.new.done.items) run_state.new.states.items run_state.new.queues.items }
    ensures done { (a : ℕ) → slice_index run_state.new.done.items a ≡
        slice_index run_state.old.done.items a + times (row_actors row.now) a }
    ensures counts { length run_state.new.done.items ≡ length run_state.old.done.items }
    ensures blocks { KeepBlocks jobs.old jobs.new }
{
    let many = load_row(row, &run_state.done, &mut run_state.states, jobs);
    let (front, _) = jobs.split_at_mut(many);
    fire_row(rt, scene, front, run_state);
}

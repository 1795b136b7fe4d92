//! The firings of one row, in parallel. In the runner, a firing of a row is called a job.

ghost use Rattle.std.specs.Prelude.{◌≡◌, ◌≤◌, ◌<◌, ◌++◌, ◌∷◌, [], ℕ, All, List, length, take};
ghost use Rattle.sdf_actor.specs.Nets.{answer_of, wiring};
ghost use Rattle.sdf_actor.specs.Wires.{lists};
ghost use Rattle.sdf_node.specs.Nodes.{CanStep, IsAt};
ghost use Rattle.sdf_rows.specs.Jobs.{JobFits, HasFired, HaveFired};

use crate::scene::Scene;
use sdf_actor::{Actor, Node, Side};
use sdf_node::{ActorId, Gate, NodeState, puts, step};
use sdf_queues::Queue;
use sdf_queues::blocks::{Ports, read_fronts};
use std::thread;
use std::thread::Threads;

/// One firing of a row. Its blocks have room for any firing of any node. Its output is at the front of `put`.
#[derive(Drop)]
pub(crate) struct RowFiring<A: Actor> {
    pub(crate) processor: usize,
    pub(crate) actor: ActorId,
    /// Its number among all firings of the actor.
    pub(crate) firing: u64,
    pub(crate) phase: u32,
    pub(crate) state: NodeState<A::Token, A::State>,
    pub(crate) taken: Vec<A::Token>,
    pub(crate) put: Vec<A::Token>,
}

/// Fires `node` on the block `taken`. Its `many` samples of output go to the front of `put`.
fn step_into<A: Actor>(
    node: &Node<A>,
    inputs: &[Vec<A::Token>],
    state: &mut NodeState<A::Token, A::State>,
    taken: &Vec<A::Token>,
    put: &mut Vec<A::Token>,
    many: usize,
)
    requires can { CanStep A.steps (lists inputs.now) node.now state.old (length taken.now.items) many }
    requires long { many ≤ length put.old.items }
    ensures state { (all : ℕ) (past : List (List A.Token)) →
        IsAt A.steps (lists inputs.now) all node.now past state.old →
        IsAt A.steps (lists inputs.now) all node.now (past ++ taken.now.items ∷ []) state.new }
    ensures put { (all : ℕ) (past : List (List A.Token)) → IsAt A.steps (lists inputs.now) all node.now past state.old →
        take many put.new.items ≡ answer_of A.steps (lists inputs.now) node.now past taken.now.items }
    ensures len { length put.new.items ≡ length put.old.items }
{
    let (front, _) = put.as_mut_slice().split_at_mut(many);
    step(node, inputs, state, taken.as_slice(), front);
}

/// Fires one job on a copy of its input. The samples stay on the channels until the job is settled.
fn fire_job<A: Actor, G: Gate>(
    scene: &Scene<A, G>,
    queues: &[Queue<A::Token>],
    job: &mut RowFiring<A>,
)
    requires { JobFits A.steps scene.now.net.now (lists scene.now.inputs.now) scene.now.sizes queues.now job.old }
    ensures { HasFired A.steps scene.now.net.now (lists scene.now.inputs.now) scene.now.sizes queues.now job.old
        job.new }
{
    scene.gate.before(job.processor, job.actor, job.firing);
    job.taken.clear();
    let ins = Ports {
        channels: scene.net.channels_in(job.actor),
        sizes: scene.sizes.on(Side::Input, job.phase),
    };
    read_fronts(&ins, queues, &mut job.taken);
    let node = scene.net.node(job.actor);
    let many = puts(node, job.phase);
    step_into(
        node,
        scene.inputs,
        &mut job.state,
        &job.taken,
        &mut job.put,
        many,
    );
}

/// Fires each job in a worker of its own, or a single job on this thread. Returns when all have fired.
pub(crate) fn fire_jobs<R: Threads + Sync, A: Actor, G: Gate>(
    rt: &R,
    scene: &Scene<A, G>,
    queues: &[Queue<A::Token>],
    jobs: &mut [RowFiring<A>],
)
    requires { All (JobFits A.steps scene.now.net.now (lists scene.now.inputs.now) scene.now.sizes
        queues.now) jobs.old }
    ensures { HaveFired A.steps scene.now.net.now (lists scene.now.inputs.now) scene.now.sizes queues.now jobs.old
        jobs.new }
{
    let threads = jobs.len();
    if threads > 0 {
        thread::for_each_mut(
            rt,
            jobs,
            threads,
            &|_: usize, job: &mut RowFiring<A>|
                requires { JobFits A.steps scene.now.net.now (lists scene.now.inputs.now) scene.now.sizes queues.now
                    job.now }
                ensures { HasFired A.steps scene.entry.now.net.now (lists scene.entry.now.inputs.now)
                    scene.entry.now.sizes queues.entry.now job.entry.now job.exit.now }
            {
                fire_job(scene, queues, job);
            },
        );
    }
}

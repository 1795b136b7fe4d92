//! The state of a run by rows before its first firing.

ghost use Rattle.std.specs.Prelude.{◌≡◌, ◌<◌, ℕ, All, length, vec_len, IfOk};
ghost use Rattle.sdf_actor.specs.Nets.{node};
ghost use Rattle.sdf_node.specs.Nodes.{IsMaxSamples};
ghost use Rattle.sdf_rows.specs.Setup.{AreUnfired, HasPlaces};

use crate::row_firing::RowFiring;
use sdf_actor::{Actor, Net};
use sdf_node::{NodeState, begin};
use std::alloc::{AllocError, Global};

/// Makes the states of all nodes before the first firing. The list of a sink gets room for `room` samples.
pub(crate) fn make_states<A: Actor>(
    alloc: Global,
    net: &Net<A>,
    room: usize,
) -> Result<Vec<NodeState<A::Token, A::State>>, AllocError>
    ensures { IfOk result (λ v. (vec_len v ≡ length net.now.nodes) × AreUnfired A.steps room net.now v.items) }
{
    let mut states = Vec::with_capacity(alloc, net.len())?;
    for a in 0..net.len() {
        states.push(begin(alloc, net.node(a), room)?)?;
    }
    Ok(states)
}

/// Returns the greatest number of samples that a firing of any node takes or puts.
fn max_samples<A: Actor>(net: &Net<A>) -> usize
    ensures { (a : ℕ) → a < length net.now.nodes → IsMaxSamples A.steps (node net.now a) result }
{
    let mut max_samples = 0;
    for a in 0..net.len() {
        max_samples = max_samples.max(sdf_node::max_samples(net.node(a)));
    }
    max_samples
}

/// Makes a job with blocks of `places` samples, which is enough for any firing.
fn make_job<A: Actor>(
    alloc: Global,
    net: &Net<A>,
    places: usize,
    filler: A::Token,
) -> Result<RowFiring<A>, AllocError>
    requires { (a : ℕ) → a < length net.now.nodes → IsMaxSamples A.steps (node net.now a) places }
    ensures { IfOk result (HasPlaces A.steps net.now) }
{
    let taken = Vec::with_capacity(alloc, places)?;
    let put = vec![in alloc; filler; places]?;
    Ok(RowFiring {
        processor: 0,
        actor: 0,
        firing: 0,
        phase: 0,
        state: NodeState::Source(0),
        taken,
        put,
    })
}

/// Makes `width` jobs, one for each column of a row. Their blocks have room for any firing of any node.
pub(crate) fn make_jobs<A: Actor>(
    alloc: Global,
    net: &Net<A>,
    width: usize,
    filler: A::Token,
) -> Result<Vec<RowFiring<A>>, AllocError>
    ensures { IfOk result (λ v. (vec_len v ≡ width) × All (HasPlaces A.steps net.now) v.items) }
{
    let places = max_samples(net);
    let mut jobs = Vec::with_capacity(alloc, width)?;
    for _ in 0..width {
        jobs.push(make_job(alloc, net, places, filler)?)?;
    }
    Ok(jobs)
}

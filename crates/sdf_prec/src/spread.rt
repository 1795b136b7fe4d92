//! Homes from the weights of actors: each worker has consecutive actors in file order.

ghost use Rattle.std.specs.Prelude.{◌≡◌, ℕ, ◌≤◌, ◌<◌, ◌*◌, ◌↔◌, length, IfOk, IsTrue};
ghost use Rattle.sdf_limits.specs.declared.TheConstants.{MAX_BLOCK, MAX_COST};
ghost use Rattle.sdf_graph.specs.Rates.{rates};
ghost use Rattle.sdf_prec.specs.Blocks.{IsWorkers};
ghost use Rattle.sdf_prec.specs.ByHomes.{HasHome};
ghost use Rattle.sdf_prec.specs.Spread.{AreLoads, AreSpread, weight_to, LeadsBack, IsFedByLast, MayPart};
ghost use Rattle.sdf_prec.specs.Spread.{IsStretchStart};
ghost use Rattle.sdf_prec.specs.Spread.{IsStretchEnd, share};

use sdf_graph::Graph;
use std::alloc::{AllocError, Global};

/// Checks whether a channel leads from an actor at place `k` or behind it to one before `k`.
fn leads_back(graph: &Graph, k: usize) -> bool
    ensures { IsTrue result ↔ LeadsBack (rates graph.now) k }
{
    for channel in graph.channels() {
        if channel.to < k && channel.from >= k {
            return true;
        }
    }
    false
}

/// Checks whether `actor` has inputs, and all of them come from the actor just before it.
fn is_fed_by_last(graph: &Graph, actor: usize) -> bool
    ensures { IsTrue result ↔ IsFedByLast (rates graph.now) actor }
{
    let mut fed = false;
    for channel in graph.channels() {
        if channel.to == actor {
            if channel.from + 1 != actor {
                return false;
            }
            fed = true;
        }
    }
    fed
}

/// Checks whether the actors before place `k` in file order and the actors from `k` on may go to different workers.
fn may_part(graph: &Graph, k: usize) -> bool
    ensures { IsTrue result ↔ MayPart (rates graph.now) k }
{
    !leads_back(graph, k) && !is_fed_by_last(graph, k)
}

/// Returns the place at which the stretch of `actor` begins.
fn stretch_start(graph: &Graph, actor: usize) -> usize
    ensures { IsStretchStart (rates graph.now) actor result }
{
    for back in 0..actor {
        if may_part(graph, actor - back) {
            return actor - back;
        }
    }
    0
}

/// Returns the place at which the next stretch begins.
fn stretch_end(graph: &Graph, actor: usize) -> usize
    requires { actor < graph.now.actors }
    ensures { IsStretchEnd (rates graph.now) actor result }
{
    let actors = graph.actors();
    for k in actor + 1..actors {
        if may_part(graph, k) {
            return k;
        }
    }
    actors
}

/// Returns the sum of the weights of the first `actors` actors.
fn weight_to(weights: &[u64], actors: usize) -> u64
    requires weights { AreLoads (length weights.now) weights.now }
    requires known { actors ≤ length weights.now }
    ensures is { result ≡ weight_to weights.now actors }
    ensures small { result ≤ MAX_BLOCK * MAX_COST * actors }
{
    let mut weight = 0;
    for actor in 0..actors {
        weight += weights[actor];
    }
    weight
}

/// Returns the worker of the stretch from `first` to just before `past`. Of `m` equal shares of all weight, it has the
/// share that holds the middle of the stretch.
fn share(weights: &[u64], m: usize, first: usize, past: usize) -> usize
    requires weights { AreLoads (length weights.now) weights.now }
    requires workers { IsWorkers m }
    requires order { first < past }
    requires known { past ≤ length weights.now }
    ensures is { result ≡ share weights.now m first past }
    ensures within { result < m }
{
    let middle = weight_to(weights, first) + weight_to(weights, past);
    let all = weight_to(weights, weights.len());
    (m as u64 * middle / (2 * all)) as usize
}

/// Returns the home of each actor, a worker below `m`. `weights` has the cost of all firings of each actor in a period.
///
/// Adjacent actors in file order stay together if a channel leads back over the place between them, so that a loop has
/// one worker. They also stay together if the first of them alone feeds the second.
pub fn spread(
    alloc: Global,
    graph: &Graph,
    m: usize,
    weights: &[u64],
) -> Result<Vec<Option<usize>>, AllocError>
    requires weights { AreLoads graph.now.actors weights.now }
    requires workers { IsWorkers m }
    ensures spread { IfOk result (λ v. AreSpread (rates graph.now) weights.now m v.items) }
    ensures homed { IfOk result (λ v. (a : ℕ) → a < graph.now.actors → HasHome v.items m a) }
{
    let mut homes = Vec::new(alloc);
    for actor in 0..graph.actors() {
        let first = stretch_start(graph, actor);
        let past = stretch_end(graph, actor);
        homes.push(Some(share(weights, m, first, past)))?;
    }
    Ok(homes)
}

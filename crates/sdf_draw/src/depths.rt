//! The depth of each actor in a graph.

ghost use Rattle.std.specs.Prelude.{◌≡◌, ◌≢◌, ℕ, ◌+◌, ◌<◌, ◌≤◌, length, slice_index, IfOk};
ghost use Rattle.sdf_limits.specs.declared.TheConstants.{MAX_PERIOD};
ghost use Rattle.sdf_graph.specs.Rates.{rates};
ghost use Rattle.sdf_times.specs.Times.{IsGreatest};
ghost use Rattle.sdf_draw.specs.Depths.{AreDepths};
ghost use Rattle.sdf_draw.specs.Feeds.{IsInDepth};

use sdf_graph::Graph;
use std::alloc::{AllocError, Global};

/// Returns the greatest depth from which a channel leads to `actor`, or 0 if there is none.
fn deepest(graph: &Graph, depths: &[u32], actor: usize) -> u32
    requires known { actor < graph.now.actors }
    requires all { length depths.now ≡ graph.now.actors }
    ensures is { IsGreatest (IsInDepth (rates graph.now) depths.now actor) result }
    ensures small { (k : ℕ) → ((a : ℕ) → slice_index depths.now a ≤ k) → result ≤ k }
{
    let channels = graph.channels();
    let mut most = 0u32;
    for number in graph.incoming(actor) {
        let channel = &channels[*number];
        most = most.max(depths[channel.from]);
    }
    most
}

/// Returns the depth that `actor` has, otherwise one more than the greatest depth from which a channel leads to it.
fn depth_of(graph: &Graph, depths: &[u32], actor: usize) -> u32
    requires known { actor < graph.now.actors }
    requires all { length depths.now ≡ graph.now.actors }
    requires small { (a : ℕ) → slice_index depths.now a ≤ MAX_PERIOD }
    ensures some { 0 < result }
    ensures kept { 0 < slice_index depths.now actor → result ≡ slice_index depths.now actor }
    ensures first { slice_index depths.now actor ≡ 0 → (w : ℕ) → result ≡ w + 1 →
        IsGreatest (IsInDepth (rates graph.now) depths.now actor) w }
{
    if depths[actor] > 0 {
        return depths[actor];
    }
    deepest(graph, depths, actor) + 1
}

/// Gives `actor`, which fires, its depth if it does not have one yet.
fn fire(graph: &Graph, depths: &mut Vec<u32>, actor: usize)
    requires known { actor < graph.now.actors }
    requires all { length depths.old.items ≡ graph.now.actors }
    requires small { (a : ℕ) → slice_index depths.old.items a ≤ MAX_PERIOD }
    ensures all { length depths.new.items ≡ length depths.old.items }
    ensures others { (b : ℕ) → b ≢ actor → slice_index depths.new.items b ≡ slice_index depths.old.items b }
    ensures some { 0 < slice_index depths.new.items actor }
    ensures kept { 0 < slice_index depths.old.items actor →
        slice_index depths.new.items actor ≡ slice_index depths.old.items actor }
    ensures first { slice_index depths.old.items actor ≡ 0 → (w : ℕ) → slice_index depths.new.items actor ≡ w + 1 →
        IsGreatest (IsInDepth (rates graph.now) depths.old.items actor) w }
{
    let depth = depth_of(graph, depths.as_slice(), actor);
    depths[actor] = depth;
}

/// Returns the depth of each actor. It is one more than the greatest depth of its predecessors that fire before it in
/// `order`.
pub(crate) fn depths(alloc: Global, graph: &Graph, order: &[usize]) -> Result<Vec<u32>, AllocError>
    requires known { (i : ℕ) → i < length order.now → slice_index order.now i < graph.now.actors }
    requires short { length order.now ≤ MAX_PERIOD }
    ensures { IfOk result (λ v. AreDepths (rates graph.now) order.now v.items) }
{
    let mut depths = vec![in alloc; 0u32; graph.actors()]?;
    for actor in order {
        fire(graph, &mut depths, *actor);
    }
    Ok(depths)
}

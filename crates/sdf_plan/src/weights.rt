//! Weights: the loads of a design's actors, by which they are spread over workers.

ghost use Rattle.std.specs.Prelude.{◌≡◌, ◌≤◌, ◌<◌, ◌^◌, ◌*◌, ℕ, length, map, slice_index, IfOk};
ghost use Rattle.std.specs.List.{range_with_len};
ghost use Rattle.sdf_limits.specs.declared.TheConstants.{MAX_BLOCK, MAX_COST, MAX_PORTS};
ghost use Rattle.sdf_actor.specs.Nets.{node};
ghost use Rattle.sdf_kit.specs.Ports.{ArePortRates};
ghost use Rattle.sdf_sched.specs.Period.{IsPeriodOf};
ghost use Rattle.sdf_plan.specs.Placements.{rates_of};
ghost use Rattle.sdf_plan.specs.Weights.{samples_moved, clamp_cost, node_load, is_free_of_costs};
ghost use Rattle.sdf_plan.specs.Weights.{firing_weight, weights_by, weights_of};
ghost use Rattle.sdf_prec.specs.Spread.{AreLoads};

use sdf_actor::Node;
use sdf_file::Design;
use sdf_kit::{Kit, PortRates};
use sdf_limits::MAX_COST;
use sdf_sched::Period;
use std::alloc::{AllocError, Global};

/// The weight of a sample that a firing moves. A product weighs 1.
pub const SAMPLE_WEIGHT: u64 = 32;

/// Returns the samples that a firing moves at all ports of `side`.
fn samples_moved(side: PortRates) -> u64
    requires { ArePortRates side }
    ensures is { result ≡ samples_moved side }
    ensures few { result < 2 ^ 37 }
{
    match side {
        PortRates::Every { ports, rate } => ports as u64 * u64::from(rate),
        PortRates::InTurn { rate, .. } => u64::from(rate),
    }
}

/// Clamps `weight` to the limits of a cost.
fn clamp_cost(weight: u64) -> u64
    ensures is { result ≡ clamp_cost weight }
    ensures few { result ≤ MAX_COST }
{
    weight.min(u64::from(MAX_COST)).max(1)
}

/// Returns the weight of a firing of `node`, by its products and the samples that it moves.
fn node_load(node: &Node<Kit>) -> u64
    ensures is { result ≡ node_load node.now }
    ensures few { result ≤ MAX_COST }
{
    match node {
        Node::Source { block, .. } | Node::Sink { block, .. } => {
            clamp_cost(SAMPLE_WEIGHT * u64::from(*block))
        }
        Node::Inner(kit) => {
            let ports = kit.ports();
            let moved = samples_moved(ports.inputs) + samples_moved(ports.outputs);
            clamp_cost(kit.products() + SAMPLE_WEIGHT * moved)
        }
    }
}

/// Returns whether `design` gives no costs: each is 1.
fn is_free_of_costs(design: &Design) -> bool
    ensures { result ≡ is_free_of_costs design.now }
{
    design.costs().iter().all(|cost| *cost == 1)
}

/// Returns the weight of a firing of `actor`: by its kind if `by_kind`, otherwise its cost.
fn firing_weight(design: &Design, by_kind: bool, actor: usize) -> u64
    requires known { actor < length design.now.net.nodes }
    ensures is { result ≡ firing_weight design.now by_kind actor }
    ensures few { result ≤ MAX_COST }
{
    let net = design.net();
    if by_kind {
        node_load(net.node(actor))
    } else {
        u64::from(design.costs()[actor])
    }
}

/// Returns the weight of each actor's firings in a period: by kinds if `by_kind`, otherwise by costs.
fn weights_by(
    alloc: Global,
    design: &Design,
    period: &Period,
    by_kind: bool,
) -> Result<Vec<u64>, AllocError>
    requires { IsPeriodOf (rates_of design.now) period.now }
    ensures are { IfOk result (λ v. v.items ≡ weights_by design.now by_kind period.now.repetitions) }
    ensures loads { IfOk result (λ v. AreLoads (length design.now.net.nodes) v.items) }
{
    let repetitions = period.repetitions();
    let mut weights = Vec::new(alloc);
    for actor in 0..design.net().graph().actors() {
        weights.push(u64::from(repetitions[actor]) * firing_weight(design, by_kind, actor))?;
    }
    Ok(weights)
}

/// Returns the weight of each actor's firings in a period.
///
/// A firing weighs its cost if the design gives some cost above 1. Otherwise it weighs 1 for each product and 32 for
/// each sample that it moves, within the limits of a cost.
pub(crate) fn weights(
    alloc: Global,
    design: &Design,
    period: &Period,
) -> Result<Vec<u64>, AllocError>
    requires { IsPeriodOf (rates_of design.now) period.now }
    ensures are { IfOk result (λ v. v.items ≡ weights_of design.now period.now.repetitions) }
    ensures loads { IfOk result (λ v. AreLoads (length design.now.net.nodes) v.items) }
{
    weights_by(alloc, design, period, is_free_of_costs(design))
}

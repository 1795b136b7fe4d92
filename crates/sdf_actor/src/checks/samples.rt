//! 24 InputRates, 25 OutputRates: the samples of a period.

ghost use Rattle.std.specs.Prelude.{◌≡◌, ◌*◌, ◌<◌, ◌≤◌, ◌↔◌, ◌^◌, ℕ, length, slice_index, slice_index_or, IsTrue};
ghost use Rattle.std.specs.Prelude.{MatchOption, MatchResult};
ghost use Rattle.sdf_actor.specs.declared.node.Node.TheVariants.{Sink};
ghost use Rattle.sdf_actor.specs.declared.sides.Lists.TheVariants.{Inputs, Outputs};
ghost use Rattle.sdf_actor.specs.Sides.{list_of, block_of, first_with, period_samples};
ghost use Rattle.sdf_actor.specs.NetFaults.{Agree, Differs, RateFault};

use crate::fault::NetFault;
use crate::node::Node;
use crate::sides::Lists;
use sdf_graph::Repetitions;

/// Returns how many samples each source puts and each sink takes in a period. Errs at the first node that differs.
pub(crate) fn samples<A>(
    nodes: &[Node<A>],
    repetitions: &Repetitions,
) -> Result<(usize, usize), NetFault>
    requires { length nodes.now ≡ length repetitions.now }
    ensures { MatchResult result
        (λ k. Agree nodes.now repetitions.now Inputs (length nodes.now)
        × Agree nodes.now repetitions.now Outputs (length nodes.now)
        × (k.0 ≡ period_samples nodes.now Inputs repetitions.now)
        × (k.1 ≡ period_samples nodes.now Outputs repetitions.now))
        (RateFault nodes.now repetitions.now) }
{
    let samples_in = node_samples(nodes, repetitions, first_with(nodes, Lists::Inputs));
    if let Some(actor) = first_differing(nodes, repetitions, Lists::Inputs, samples_in) {
        return Err(NetFault::InputRates { actor });
    }
    let samples_out = node_samples(nodes, repetitions, first_with(nodes, Lists::Outputs));
    if let Some(actor) = first_differing(nodes, repetitions, Lists::Outputs, samples_out) {
        return Err(NetFault::OutputRates { actor });
    }
    Ok((samples_in, samples_out))
}

/// Returns the first node with a list among `lists`, or the number of nodes if there is none.
fn first_with<A>(nodes: &[Node<A>], lists: Lists) -> usize
    ensures { result ≡ first_with lists nodes.now }
{
    for (a, node) in nodes.iter().enumerate() {
        if node.list(lists).is_some() {
            return a;
        }
    }
    nodes.len()
}

/// Returns the first node with a list among `lists` that does not move `samples` samples in a period.
fn first_differing<A>(
    nodes: &[Node<A>],
    repetitions: &Repetitions,
    lists: Lists,
    samples: usize,
) -> Option<usize>
    requires each { length nodes.now ≡ length repetitions.now }
    requires samples { samples ≡ period_samples nodes.now lists repetitions.now }
    ensures { MatchOption result (Agree nodes.now repetitions.now lists (length nodes.now))
        (Differs nodes.now repetitions.now lists) }
{
    for (a, node) in nodes.iter().enumerate() {
        if node.list(lists).is_some() && node_samples(nodes, repetitions, a) != samples {
            return Some(a);
        }
    }
    None
}

/// Returns how many samples source or sink `a` moves in a period, or 0 if `a` is an actor or past the last node.
fn node_samples<A>(nodes: &[Node<A>], repetitions: &Repetitions, a: usize) -> usize
    requires { length nodes.now ≡ length repetitions.now }
    ensures { result ≡ block_of (slice_index_or nodes.now a (Sink 0 0)) * slice_index repetitions.now a }
{
    if a < nodes.len() {
        product(nodes[a].block(), repetitions.of(a))
    } else {
        0
    }
}

/// Multiplies `a` and `b` as `usize`, so that the product cannot overflow.
fn product(a: u32, b: u32) -> usize
    ensures { result ≡ a * b }
{
    a as usize * b as usize
}

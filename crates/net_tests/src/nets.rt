//! Nets that are made, and actors that fire through their trait.

ghost use Rattle.std.specs.Prelude.{◌≡◌, ◌<◌, length};
ghost use Rattle.sdf_actor.specs.Steps.{total_in, total_out};

use crate::parts::Part::{In, Out, Turning};
use crate::parts::{Part, THROUGH, nodes};
use sdf_actor::{Actor, Net, Node};
use std::alloc::{AllocError, Global};
use std::test::Fail;
use test_actors::nets::{links, sink, source};
use test_actors::{Regroup, Sum, Swap};
use test_texts::says;

/// Returns the sizes of `net`: its nodes and links, its inputs and outputs, the samples of a period, the actors of its
/// graph, and the length of its repetition vector.
fn sizes<A: Actor>(alloc: Global, net: &Net<A>) -> Result<String, Fail> {
    let parts = (net.len(), net.channels());
    let lists = (net.inputs(), net.outputs());
    let samples = (net.samples_in(), net.samples_out());
    let actors = (net.graph().actors(), net.repetitions().len());
    Ok(format!(in alloc; "{parts:?} {lists:?} {samples:?} {actors:?}")?)
}

/// Returns the node `a`: its firings in a period, the length of its cycle, its channels in and out, and what it is.
fn node<A: Actor>(alloc: Global, net: &Net<A>, a: usize) -> Result<String, Fail> {
    if a >= net.len() || a >= net.graph().actors() || a >= net.repetitions().len() {
        return Ok(String::new(alloc));
    }
    let (times, cycle) = (net.repetitions().of(a), net.graph().cycle(a));
    let (into, out_of) = (net.channels_in(a), net.channels_out(a));
    let (what, ext, block) = match net.node(a) {
        Node::Source { ext, block } => ("source", *ext, *block),
        Node::Sink { ext, block } => ("sink", *ext, *block),
        Node::Inner(_) => ("actor", 0, 0),
    };
    Ok(format!(in alloc; "{times} of {cycle}, {into:?} {out_of:?}, {what} {ext} of {block}")?)
}

/// Returns the ends of the link `c`, and the rates of its channel.
fn link<A: Actor>(alloc: Global, net: &Net<A>, c: usize) -> Result<String, Fail> {
    let channels = net.graph().channels();
    if c >= net.channels() || c >= channels.len() {
        return Ok(String::new(alloc));
    }
    let (from, to) = (net.link(c).from, net.link(c).to);
    let channel = &channels[c];
    Ok(format!(in alloc; "{from:?} {to:?}, {:?} {:?}", channel.put, channel.take)?)
}

/// Checks the net of two nodes.
fn is_two_to_three<A: Actor>(alloc: Global, net: &Net<A>) -> Result<(), Fail> {
    says(sizes(alloc, net), "(2, 1) (1, 1) (6, 6) (2, 2)")?;
    says(node(alloc, net, 0), "3 of 1, [] [0], source 0 of 2")?;
    says(node(alloc, net, 1), "2 of 1, [0] [], sink 0 of 3")?;
    says(link(alloc, net, 0), "(0, 0) (1, 0), [2] [3]")
}

/// Checks the net that has an actor with two phases.
fn has_two_phases<A: Actor>(alloc: Global, net: &Net<A>) -> Result<(), Fail> {
    says(sizes(alloc, net), "(5, 4) (2, 2) (2, 2) (5, 5)")?;
    says(node(alloc, net, 0), "1 of 1, [] [0], source 0 of 2")?;
    says(node(alloc, net, 2), "2 of 2, [0, 1] [2, 3], actor 0 of 0")?;
    says(link(alloc, net, 0), "(0, 0) (2, 0), [2] [2, 0]")
}

/// Makes a net of `parts`, with links between `ends`.
fn net(alloc: Global, parts: &[Part], ends: &[[usize; 4]]) -> Result<Net<Regroup>, Fail> {
    Ok(Net::new(alloc, nodes(alloc, parts)?, links(alloc, ends)?)?)
}

/// Checks that a net without a fault is made, unless memory is refused.
fn nothing_but_memory_is_wrong(alloc: Global) -> Result<(), Fail> {
    let nodes = Vec::from_array(alloc, [source(0, 1), Node::Inner(Sum), sink(0, 1)])?;
    match Net::new(alloc, nodes, links(alloc, &[[0, 0, 1, 0], [1, 0, 2, 0]])?) {
        Ok(_) => Ok(()),
        Err(fault) => says(fault.to_string(alloc).map_err(Fail::from), "1 OutOfMemory"),
    }
}

#[test]
fn nets(rt: HostRuntime) -> Result<(), Fail> {
    let alloc = rt.alloc();
    let phases = [
        In(0, 2),
        In(1, 2),
        Turning(2, [2, 0, 2]),
        Out(0, 2),
        Out(1, 2),
    ];
    nothing_but_memory_is_wrong(alloc)?;
    is_two_to_three(alloc, &net(alloc, &[In(0, 2), Out(0, 3)], &[[0, 0, 1, 0]])?)?;
    has_two_phases(alloc, &net(alloc, &phases, THROUGH)?)
}

/// Fires `actor` once at `phase`, through its trait, and returns its state.
fn fire_once<A: Actor>(
    alloc: Global,
    actor: &A,
    phase: u32,
    taken: &[A::Token],
    put: &mut [A::Token],
) -> Result<A::State, AllocError>
    requires phase { phase < A.steps.cycle actor.now }
    requires taken { length taken.now ≡ total_in A.steps actor.now phase }
    requires put { length put.old ≡ total_out A.steps actor.now phase }
{
    let mut state = actor.start(alloc)?;
    actor.fire(phase, &mut state, taken, put);
    Ok(state)
}

/// Returns what a sum puts for the sample 7, and its state after that.
fn sum_once(alloc: Global) -> Result<String, Fail> {
    let mut total = [0];
    let state = fire_once(alloc, &Sum, 0, &[7], &mut total)?;
    Ok(format!(in alloc; "{total:?} {state}")?)
}

/// Returns what `Swap` puts for a pair.
fn swap_once(alloc: Global) -> Result<String, Fail> {
    let mut turned = [[0, 0]];
    fire_once(alloc, &Swap, 0, &[[1, 2]], &mut turned)?;
    Ok(format!(in alloc; "{turned:?}")?)
}

/// Returns what an actor with two phases puts for two samples, and what it moves at two ports in the second phase.
fn regroup_twice(alloc: Global) -> Result<String, Fail> {
    let regroup = Regroup {
        cycle: 2,
        first: 1,
        middle: 0,
        last: 1,
    };
    let mut put = [0, 0];
    fire_once(alloc, &regroup, 0, &[3, 4], &mut put)?;
    let mut none: [i32; 0] = [];
    fire_once(alloc, &regroup, 1, &[], &mut none)?;
    let (taken, later) = (regroup.take(0, 1), regroup.put(1, 1));
    Ok(format!(in alloc; "{put:?} {taken} {later}")?)
}

#[test]
fn fires_through_the_trait(rt: HostRuntime) -> Result<(), Fail> {
    says(sum_once(rt.alloc()), "[7] 7")?;
    says(swap_once(rt.alloc()), "[[2, 1]]")?;
    says(regroup_twice(rt.alloc()), "[3, 4] 0 0")
}

//! Resumed nets: they begin with what a run left.

ghost use Rattle.std.specs.Prelude.{◌≡◌, ◌<◌, ℕ, List, [], Some, None, length, map, slice_index_or, IfOk};
ghost use Rattle.sdf_actor.specs.declared.node.Node.TheVariants.{Sink, Inner};
ghost use Rattle.sdf_actor.specs.Resumed.{MayBegin};
ghost use Rattle.sdf_actor.specs.ResumedSteps.{resumed_steps};
ghost use Rattle.sdf_actor.specs.Graphs.{graph_of};
ghost use Rattle.sdf_actor.specs.Nets.{no_wire};
ghost use Rattle.sdf_actor.specs.NetStates.{AreWhole, state_left, IsNetState, IsResumedNode, IsResumedNet};
ghost use Rattle.sdf_actor.specs.Wires.{lists, wire_of, wires};

use crate::actor::Actor;
use crate::link::Link;
use crate::net::Net;
use crate::net_state::NetState;
use crate::node::Node;
use crate::resumed_actor::ResumedActor;
use std::alloc::{AllocError, Global};

/// Returns a copy of `node`. If it is an actor, the copy begins in `state`.
fn resumed_node<'a, A: Actor>(
    alloc: Global,
    node: &'a Node<A>,
    state: &Option<A::State>,
) -> Result<Node<ResumedActor<'a, A>>, AllocError>
    requires { MayBegin A.steps state.now node.now }
    ensures { IfOk result (λ y. IsResumedNode A.steps (resumed_steps A.Actor) state.now node.now y) }
{
    match node {
        Node::Source { ext, block } => Ok(Node::Source {
            ext: *ext,
            block: *block,
        }),
        Node::Sink { ext, block } => Ok(Node::Sink {
            ext: *ext,
            block: *block,
        }),
        Node::Inner(actor) => match state {
            Some(state) => Ok(Node::Inner(ResumedActor::new(actor, actor.again(alloc, state)?))),
            None => unreachable!(),
        },
    }
}

/// Returns a copy of `link` that begins with the samples `held`.
fn resumed_link<T: Copy>(alloc: Global, link: &Link<T>, held: &[T]) -> Result<Link<T>, AllocError>
    ensures { IfOk result (λ l. wire_of l ≡ record { from = link.now.from; to = link.now.to; initial = held.now }) }
{
    Ok(Link {
        from: link.from,
        to: link.to,
        initial: Vec::from_slice(alloc, held)?,
    })
}

/// Returns a copy of `nodes`. Each actor begins in its state in `states`.
fn resumed_nodes<'a, A: Actor>(
    alloc: Global,
    nodes: &'a [Node<A>],
    states: &[Option<A::State>],
) -> Result<Vec<Node<ResumedActor<'a, A>>>, AllocError>
    requires all { length states.now ≡ length nodes.now }
    requires each { (a : ℕ) → a < length nodes.now →
        MayBegin A.steps (slice_index_or states.now a None) (slice_index_or nodes.now a (Sink 0 0)) }
    ensures all { IfOk result (λ v. length v.items ≡ length nodes.now) }
    ensures each { IfOk result (λ v. (a : ℕ) → a < length nodes.now →
        IsResumedNode A.steps (resumed_steps A.Actor) (slice_index_or states.now a None)
        (slice_index_or nodes.now a (Sink 0 0)) (slice_index_or v.items a (Sink 0 0))) }
{
    let mut begun = Vec::new(alloc);
    for a in 0..nodes.len() {
        begun.push(resumed_node(alloc, &nodes[a], &states[a])?)?;
    }
    Ok(begun)
}

/// Returns a copy of `links`. Each channel begins with its samples in `held`.
fn resumed_links<T: Copy>(
    alloc: Global,
    links: &[Link<T>],
    held: &[Vec<T>],
) -> Result<Vec<Link<T>>, AllocError>
    requires all { length held.now ≡ length links.now }
    ensures all { IfOk result (λ v. length v.items ≡ length links.now) }
    ensures each { IfOk result (λ v. (c : ℕ) → c < length links.now → slice_index_or (wires v.items) c no_wire ≡
        record {
          from = (slice_index_or (wires links.now) c no_wire).from;
          to = (slice_index_or (wires links.now) c no_wire).to;
          initial = slice_index_or (lists held.now) c [];
        }) }
{
    let mut begun = Vec::new(alloc);
    for c in 0..links.len() {
        begun.push(resumed_link(alloc, &links[c], &held[c])?)?;
    }
    Ok(begun)
}

/// Returns the state that `node` begins in, or `None` for a source or a sink.
fn first_state<A: Actor>(alloc: Global, node: &Node<A>) -> Result<Option<A::State>, AllocError>
    ensures { IfOk result (λ state. state ≡ state_left A.steps node.now []) }
{
    match node {
        Node::Inner(actor) => Ok(Some(actor.start(alloc)?)),
        _ => Ok(None),
    }
}

/// Returns the state that each node begins in, or `None` for a source or a sink.
fn first_states<A: Actor>(
    alloc: Global,
    nodes: &[Node<A>],
) -> Result<Vec<Option<A::State>>, AllocError>
    ensures all { IfOk result (λ v. length v.items ≡ length nodes.now) }
    ensures each { IfOk result (λ v. (a : ℕ) → a < length nodes.now →
        slice_index_or v.items a None ≡ state_left A.steps (slice_index_or nodes.now a (Sink 0 0)) []) }
{
    let mut states = Vec::new(alloc);
    for node in nodes {
        states.push(first_state(alloc, node)?)?;
    }
    Ok(states)
}

/// Returns the samples that each channel begins with.
fn initial_samples<T: Copy>(alloc: Global, links: &[Link<T>]) -> Result<Vec<Vec<T>>, AllocError>
    ensures { IfOk result (λ v. lists v.items ≡ map (λ w. w.initial) (wires links.now)) }
{
    let mut held = Vec::new(alloc);
    for link in links {
        held.push(Vec::from_slice(alloc, &link.initial)?)?;
    }
    Ok(held)
}

impl<A: Actor> Net<A> {
    /// Returns the net's state before its first firing: the first states of its actors, and the initial samples of its
    /// channels.
    pub fn initial_state(&self, alloc: Global) -> Result<NetState<A::Token, A::State>, AllocError>
        ensures { IfOk result (λ rest. (inputs : List (List A.Token)) →
            IsNetState A.steps self.now inputs (λ _. 0) rest) }
    {
        Ok(NetState {
            states: first_states(alloc, &self.nodes)?,
            held: initial_samples(alloc, &self.links)?,
        })
    }

    /// Returns the resumed net: its actors begin in the states of `rest`, its channels with the samples of `rest`.
    pub fn begun<'a>(
        &'a self,
        alloc: Global,
        rest: &NetState<A::Token, A::State>,
    ) -> Result<Net<ResumedActor<'a, A>>, AllocError>
        requires rest { (inputs : List (List A.Token)) × (k : ℕ → ℕ) × AreWhole A.steps self.now k
            × IsNetState A.steps self.now inputs k rest.now }
        ensures begins { IfOk result (λ net. IsResumedNet A.steps (resumed_steps A.Actor) self.now rest.now net) }
        ensures graph { IfOk result (λ net. graph_of (resumed_steps A.Actor) net ≡ graph_of A.steps self.now) }
    {
        let nodes = resumed_nodes(alloc, &self.nodes, &rest.states)?;
        let links = resumed_links(alloc, &self.links, &rest.held)?;
        match Net::new(alloc, nodes, links) {
            Ok(net) => Ok(net),
            Err(_) => Err(AllocError),
        }
    }
}

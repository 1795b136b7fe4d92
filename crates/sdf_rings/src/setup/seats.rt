//! Seats before their first firing.

ghost use Rattle.std.specs.Prelude.{◌≡◌, ◌<◌, ℕ, length, slice_index, vec_len, IfOk, OnOk};
ghost use Rattle.sdf_graph.specs.Sequences.{repeated};
ghost use Rattle.sdf_actor.specs.Nets.{wire};
ghost use Rattle.sdf_actor.specs.Wires.{lists};
ghost use Rattle.sdf_rings.specs.Openings.{end_at, HasEnds};
ghost use Rattle.sdf_rings.specs.Begun.{place, AreNext, IsAssignment, IsStart, AreBegun, IsBegun, HaveBegun};

use crate::seat::Seat;
use crate::seat::ring_node::RingNode;
use crate::setup::assignment::Assignment;
use crate::setup::openings::OpenEnds;
use crate::setup::ring_nodes::{Start, begin_node};
use sdf_actor::Actor;
use std::alloc::{AllocError, Global};

/// Returns the nodes of `seat`, each at its index. Their ring ends are taken out of `ends`.
fn ring_nodes<A: Actor>(
    alloc: Global,
    start: &Start<A>,
    places: &[(usize, usize)],
    ends: &mut OpenEnds<A::Token>,
    seat: usize,
) -> Result<Vec<RingNode<A>>, AllocError>
    requires start { IsStart A.steps start.now }
    requires all { length places.now ≡ length start.now.net.now.nodes }
    requires next { AreNext places.now }
    requires ends { (a : ℕ) → a < length places.now → (place places.now a).0 ≡ seat →
        HasEnds start.now.net.now a ends.old.producers.items ends.old.consumers.items }
    ensures begun { IfOk result (λ v. AreBegun A.steps start.now.net.now (lists start.now.inputs.now)
        (slice_index start.now.asked.items) ends.old.producers.items ends.old.consumers.items places.now
        seat v.items) }
    ensures producers { OnOk result ((c : ℕ) → ((place places.now (wire start.now.net.now c).from.0).0 ≡ seat → ⊥) →
        end_at ends.new.producers.items c ≡ end_at ends.old.producers.items c) }
    ensures consumers { OnOk result ((c : ℕ) → ((place places.now (wire start.now.net.now c).to.0).0 ≡ seat → ⊥) →
        end_at ends.new.consumers.items c ≡ end_at ends.old.consumers.items c) }
{
    let mut ring_nodes = Vec::new(alloc);
    for a in 0..places.len() {
        if places[a].0 == seat {
            ring_nodes.push(begin_node(alloc, start, ends, a)?)?;
        }
    }
    Ok(ring_nodes)
}

/// Returns seat number `seat` with its nodes and its firing list.
fn begin_seat<A: Actor>(
    alloc: Global,
    start: &Start<A>,
    assigned: &Assignment<'_>,
    ends: &mut OpenEnds<A::Token>,
    seat: usize,
) -> Result<Seat<A>, AllocError>
    requires start { IsStart A.steps start.now }
    requires all { length assigned.now.places.now ≡ length start.now.net.now.nodes }
    requires next { AreNext assigned.now.places.now }
    requires assigned { IsAssignment assigned.now }
    requires ends { (a : ℕ) → a < length assigned.now.places.now → (place assigned.now.places.now a).0 ≡ seat →
        HasEnds start.now.net.now a ends.old.producers.items ends.old.consumers.items }
    ensures begun { IfOk result (IsBegun A.steps start.now.net.now (lists start.now.inputs.now)
        (slice_index start.now.asked.items) ends.old.producers.items ends.old.consumers.items assigned.now.places.now
        (repeated assigned.now.blocks assigned.now.order.now) seat) }
    ensures producers { OnOk result ((c : ℕ) → ((place assigned.now.places.now
        (wire start.now.net.now c).from.0).0 ≡ seat → ⊥) →
        end_at ends.new.producers.items c ≡ end_at ends.old.producers.items c) }
    ensures consumers { OnOk result ((c : ℕ) → ((place assigned.now.places.now
        (wire start.now.net.now c).to.0).0 ≡ seat → ⊥) →
        end_at ends.new.consumers.items c ≡ end_at ends.old.consumers.items c) }
{
    let ring_nodes = ring_nodes(alloc, start, assigned.places, ends, seat)?;
    let left = assigned.list_for(alloc, seat)?;
    Ok(Seat {
        processor: seat,
        ring_nodes,
        left,
        next: 0,
    })
}

/// Returns `many` seats, each with its nodes and its firing list.
pub(crate) fn seats<A: Actor>(
    alloc: Global,
    start: &Start<A>,
    assigned: &Assignment<'_>,
    ends: &mut OpenEnds<A::Token>,
    many: usize,
) -> Result<Vec<Seat<A>>, AllocError>
    requires start { IsStart A.steps start.now }
    requires all { length assigned.now.places.now ≡ length start.now.net.now.nodes }
    requires next { AreNext assigned.now.places.now }
    requires assigned { IsAssignment assigned.now }
    requires ends { (a : ℕ) → a < length assigned.now.places.now →
        HasEnds start.now.net.now a ends.old.producers.items ends.old.consumers.items }
    ensures all { IfOk result (λ v. vec_len v ≡ many) }
    ensures each { IfOk result (λ v. HaveBegun A.steps start.now.net.now (lists start.now.inputs.now)
        (slice_index start.now.asked.items) ends.old.producers.items ends.old.consumers.items assigned.now.places.now
        (repeated assigned.now.blocks assigned.now.order.now) many v.items) }
{
    let mut seats = Vec::with_capacity(alloc, many)?;
    for seat in 0..many {
        seats.push(begin_seat(alloc, start, assigned, ends, seat)?)?;
    }
    Ok(seats)
}

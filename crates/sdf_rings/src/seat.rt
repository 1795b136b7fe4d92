//! One worker: its seat, and its round through its firing list.
//!
//! `ring_node` has a node with its ring ends, and `firing_list` the list. `ends` moves the blocks of one firing.
//! `batch` fires batches of one node, and `run_ends` moves their blocks. `own_rings` synchronizes the rings from a node
//! to itself.

pub(crate) mod batch;
pub(crate) mod ends;
pub(crate) mod firing_list;
pub(crate) mod own_rings;
pub mod ring_node;
pub(crate) mod run_ends;

ghost use Rattle.std.specs.Prelude.{◌≡◌, ◌+◌, ◌<◌, ◌≤◌, ◌^◌, ◌⊎◌, ℕ, IsTrue, IsFalse, length, slice_index};
ghost use Rattle.sdf_actor.specs.Nets.{IsNet};
ghost use Rattle.sdf_actor.specs.Wires.{lists};
ghost use Rattle.sdf_rings.specs.RingNodes.{IsRingNode, CanFire, HasMoved};
ghost use Rattle.sdf_rings.specs.Seats.{times_between, IsSeat, CanFireFirst, HasWorked};

use crate::rings::busy::Busy;
use crate::seat::batch::{batch_size, fire_batch};
use crate::seat::firing_list::FiringList;
use crate::seat::ring_node::{RingNode, fire_one, is_ready};
use sdf_actor::{Actor, Net};
use sdf_node::Gate;
use std::thread;

/// Maximum number of firings in one batch.
const MAX_BATCH: u64 = 65_536;

/// A worker's nodes and its firing list. The firings from `next` on are still to do. It holds no reference.
#[derive(Drop)]
pub struct Seat<A: Actor> {
    pub processor: usize,
    pub ring_nodes: Vec<RingNode<A>>,
    pub left: FiringList,
    pub next: usize,
}

impl<A: Actor> Busy for Seat<A> {
    ghost busy = { λ s. s.next < length s.left };

    fn is_busy(&self) -> bool {
        self.next < self.left.len()
    }
}

/// What a worker needs in a round besides its seat.
#[derive_where(Clone, Copy)]
struct RoundContext<'a, A: Actor, G> {
    net: &'a Net<A>,
    inputs: &'a [Vec<A::Token>],
    processor: usize,
    gate: &'a G,
}

/// Checks whether `ring_node` can fire, and repeats a failed check while `tries` is above 0. Each repetition uses one
/// try, and lets another thread run first.
fn spin_until_ready<A: Actor, G: Gate>(
    context: RoundContext<'_, A, G>,
    ring_node: &mut RingNode<A>,
    tries: &mut u32,
) -> bool
    requires { IsRingNode A.steps context.net.now (lists context.inputs.now) ring_node.old }
    ensures ring_node { IsRingNode A.steps context.entry.net.now (lists context.entry.inputs.now) ring_node.new }
    ensures moved { HasMoved A.steps context.entry.net.now ring_node.old ring_node.new }
    ensures done { ring_node.new.done ≡ ring_node.old.done }
    ensures yes { IsTrue result → CanFire A.steps context.entry.net.now ring_node.new }
    ensures no { IsFalse result → CanFire A.steps context.entry.net.now ring_node.new → ⊥ }
    ensures fewer { tries.new ≤ tries.old }
    ensures spent { IsFalse result → tries.new ≡ 0 }
    ensures at_once { CanFire A.steps context.entry.net.now ring_node.old → tries.new ≡ tries.old }
{
    while *tries > 0 {
        if is_ready(context.net, context.inputs, ring_node) {
            return true;
        }
        *tries -= 1;
        thread::yield_now();
    }
    is_ready(context.net, context.inputs, ring_node)
}

/// Fires the node at place `next` of `left`: a batch of its next firings in a row if possible, otherwise one firing.
/// Returns their number.
fn fire_ready<A: Actor, G: Gate>(
    context: RoundContext<'_, A, G>,
    ring_node: &mut RingNode<A>,
    left: &FiringList,
    next: usize,
) -> usize
    requires net { IsNet A.steps context.net.now }
    requires ring_node { IsRingNode A.steps context.net.now (lists context.inputs.now) ring_node.old }
    requires can { CanFire A.steps context.net.now ring_node.old }
    requires some { next < length left.now }
    requires counts { ring_node.old.done + times_between (slice_index left.now next) left.now next (length left.now) ≡
        ring_node.old.asked }
    ensures ring_node { IsRingNode A.steps context.entry.net.now (lists context.entry.inputs.now) ring_node.new }
    ensures moved { HasMoved A.steps context.entry.net.now ring_node.old ring_node.new }
    ensures done { ring_node.new.done ≡ ring_node.old.done + result }
    ensures some { 0 < result }
    ensures inside { next + result ≤ length left.now }
    ensures same { (j : ℕ) → j < result → slice_index left.now next ≡ slice_index left.now (next + j) }
{
    let most = (ring_node.asked - ring_node.done).min(MAX_BATCH) as usize;
    if left.in_a_row(next, most.min(2)) > 1 {
        let known = batch_size(context.net, context.inputs, ring_node, most);
        let many = left.in_a_row(next, known);
        if many > 1 {
            fire_batch(
                context.net,
                context.inputs,
                ring_node,
                context.processor,
                many,
                context.gate,
            );
            return many;
        }
    }
    context
        .gate
        .before(context.processor, ring_node.actor, ring_node.done);
    fire_one(context.net, context.inputs, ring_node);
    1
}

/// Does the next firings of `ring_node` if the first is or becomes possible within `tries`. Returns their number.
fn fire_next<A: Actor, G: Gate>(
    context: RoundContext<'_, A, G>,
    ring_node: &mut RingNode<A>,
    left: &FiringList,
    next: usize,
    tries: &mut u32,
) -> usize
    requires net { IsNet A.steps context.net.now }
    requires ring_node { IsRingNode A.steps context.net.now (lists context.inputs.now) ring_node.old }
    requires some { next < length left.now }
    requires counts { ring_node.old.done + times_between (slice_index left.now next) left.now next (length left.now) ≡
        ring_node.old.asked }
    ensures ring_node { IsRingNode A.steps context.entry.net.now (lists context.entry.inputs.now) ring_node.new }
    ensures moved { HasMoved A.steps context.entry.net.now ring_node.old ring_node.new }
    ensures done { ring_node.new.done ≡ ring_node.old.done + result }
    ensures inside { next + result ≤ length left.now }
    ensures same { (j : ℕ) → j < result → slice_index left.now next ≡ slice_index left.now (next + j) }
    ensures no { result ≡ 0 → CanFire A.steps context.entry.net.now ring_node.new → ⊥ }
    ensures fewer { tries.new ≤ tries.old }
    ensures spent { result ≡ 0 → tries.new ≡ 0 }
    ensures at_once { CanFire A.steps context.entry.net.now ring_node.old → tries.new ≡ tries.old }
{
    if !spin_until_ready(context, ring_node, tries) {
        return 0;
    }
    fire_ready(context, ring_node, left, next)
}

/// Does the next firings in the list of `seat` if the first is or becomes possible within `tries`. Returns their
/// number.
fn work_next<A: Actor, G: Gate>(
    net: &Net<A>,
    inputs: &[Vec<A::Token>],
    seat: &mut Seat<A>,
    tries: &mut u32,
    gate: &G,
) -> usize
    requires net { IsNet A.steps net.now }
    requires seat { IsSeat A.steps net.now (lists inputs.now) seat.old }
    requires some { seat.old.next < length seat.old.left }
    requires fits { length seat.old.left < 2 ^ 64 }
    ensures seat { IsSeat A.steps net.now (lists inputs.now) seat.new }
    ensures worked { HasWorked A.steps net.now seat.old seat.new }
    ensures count { seat.new.next ≡ seat.old.next + result }
    ensures no { result ≡ 0 → CanFireFirst A.steps net.now seat.new → ⊥ }
    ensures fewer { tries.new ≤ tries.old }
    ensures spent { result ≡ 0 → tries.new ≡ 0 }
    ensures at_once { CanFireFirst A.steps net.now seat.old → tries.new ≡ tries.old }
{
    let number = seat.left.ring_node(seat.next);
    let context = RoundContext {
        net,
        inputs,
        processor: seat.processor,
        gate,
    };
    let fired = fire_next(
        context,
        &mut seat.ring_nodes[number],
        &seat.left,
        seat.next,
        tries,
    );
    seat.next += fired;
    fired
}

/// Runs one worker's round: fires from its list until it is empty, or a check fails with no try left. Returns the
/// number of firings done. `patience` is the spin limit: how many failed checks the worker may repeat in the round.
pub fn work<A: Actor, G: Gate>(
    net: &Net<A>,
    inputs: &[Vec<A::Token>],
    seat: &mut Seat<A>,
    patience: u32,
    gate: &G,
) -> u64
    requires net { IsNet A.steps net.now }
    requires seat { IsSeat A.steps net.now (lists inputs.now) seat.old }
    ensures seat { IsSeat A.steps net.now (lists inputs.now) seat.new }
    ensures worked { HasWorked A.steps net.now seat.old seat.new }
    ensures count { seat.new.next ≡ seat.old.next + result }
    ensures stopped { (seat.new.next ≡ length seat.new.left) ⊎ (CanFireFirst A.steps net.now seat.new → ⊥) }
    ensures progress { seat.old.next < length seat.old.left → CanFireFirst A.steps net.now seat.old → 0 < result }
{
    let start = seat.next;
    let mut tries = patience;
    for _ in start..seat.left.len() {
        if seat.next == seat.left.len() {
            return (seat.next - start) as u64;
        }
        if work_next(net, inputs, seat, &mut tries, gate) == 0 {
            return (seat.next - start) as u64;
        }
    }
    (seat.next - start) as u64
}

//! Nodes before their first firing.

ghost use Rattle.std.specs.Prelude.{◌≡◌, ◌<◌, ℕ, None, length, slice_index, vec_len, IsSome, IfSome};
ghost use Rattle.std.specs.Prelude.{IfOk, OnOk};
ghost use Rattle.sdf_actor.specs.Nets.{wire, node};
ghost use Rattle.sdf_actor.specs.Wires.{lists};
ghost use Rattle.sdf_rings.specs.Openings.{end_at, AreEndsAt, HasEnds};
ghost use Rattle.sdf_rings.specs.Begun.{IsStart, HasIns, HasOuts, HasBegun};
ghost use Rattle.sdf_rings.specs.RingNodes.{OwnArePairs, IsRingNode};

use crate::seat::ring_node::RingNode;
use crate::setup::openings::OpenEnds;
use rtrb::{Consumer, Producer};
use sdf_actor::{Actor, Net, Side};
use sdf_node::{begin, max_samples};
use sdf_queues::Sizes;
use std::alloc::{AllocError, Global};
use std::mem;

/// Samples in a working block of a node, unless one firing moves more.
const MIN_WORKING_BLOCK: usize = 4_096;

/// What the nodes of a run begin with.
#[derive(Drop)]
pub(crate) struct Start<'a, A: Actor> {
    pub(crate) net: &'a Net<A>,
    pub(crate) inputs: &'a [Vec<A::Token>],
    /// How many samples each firing moves.
    pub(crate) sizes: Sizes,
    /// Firings asked of each node.
    pub(crate) asked: Vec<u64>,
    /// Samples that each sink takes in all.
    pub(crate) room: usize,
    /// Any sample to fill working blocks with, if the inputs have one.
    pub(crate) filler: Option<A::Token>,
}

/// Takes the end of channel `c` out of `ends`.
fn take_end<E>(ends: &mut Vec<Option<E>>, c: usize) -> E
    requires known { c < length ends.old.items }
    requires there { IsSome (end_at ends.old.items c) }
    ensures end { end_at ends.old.items c ≡ Some result }
    ensures others { (d : ℕ) → (c ≡ d → ⊥) → end_at ends.new.items d ≡ end_at ends.old.items d }
{
    match mem::replace(&mut ends[c], None) {
        Some(end) => end,
        None => unreachable!(),
    }
}

/// Takes the ends of `channels` out of `ends`, in order.
fn take_ends<E: Drop>(
    alloc: Global,
    ends: &mut Vec<Option<E>>,
    channels: &[usize],
) -> Result<Vec<E>, AllocError>
    requires there { (i : ℕ) → i < length channels.now → IsSome (end_at ends.old.items (slice_index channels.now i)) }
    requires once { (i k : ℕ) → i < length channels.now → k < length channels.now →
        slice_index channels.now i ≡ slice_index channels.now k → i ≡ k }
    ensures all { IfOk result (λ v. vec_len v ≡ length channels.now) }
    ensures each { IfOk result (λ v. AreEndsAt ends.old.items channels.now v.items) }
    ensures others { OnOk result ((c : ℕ) → ((i : ℕ) → i < length channels.now → slice_index channels.now i ≡ c → ⊥) →
        end_at ends.new.items c ≡ end_at ends.old.items c) }
{
    let mut taken = Vec::with_capacity(alloc, channels.len())?;
    for channel in channels {
        taken.push(take_end(ends, *channel))?;
    }
    Ok(taken)
}

/// Returns a block of `many` fillers, or an empty block if there is no filler.
fn fillers<T: Copy>(alloc: Global, filler: Option<T>, many: usize) -> Result<Vec<T>, AllocError>
    ensures { IfSome filler (λ _. IfOk result (λ v. vec_len v ≡ many)) }
{
    match filler {
        Some(filler) => vec![in alloc; filler; many],
        None => Ok(Vec::new(alloc)),
    }
}

/// Returns node `a` before its first firing, with the ring ends `ins` and `outs`.
fn make_node<A: Actor>(
    alloc: Global,
    start: &Start<A>,
    a: usize,
    ins: Vec<Consumer<A::Token, Global>>,
    outs: Vec<Producer<A::Token, Global>>,
) -> Result<RingNode<A>, AllocError>
    requires known { a < length start.now.net.now.nodes }
    requires start { IsStart A.steps start.now }
    requires ins { HasIns A.steps start.now.net.now a ins.items }
    requires outs { HasOuts A.steps start.now.net.now a outs.items }
    requires own { OwnArePairs start.now.net.now a ins.items outs.items }
    ensures ring_node { IfOk result (IsRingNode A.steps start.now.net.now (lists start.now.inputs.now)) }
    ensures begun { IfOk result (λ x. (x.actor ≡ a) × (x.done ≡ 0) × (x.asked ≡ slice_index start.now.asked.items a)) }
    ensures ends { IfOk result (λ x. (x.ins ≡ ins) × (x.outs ≡ outs)) }
{
    let node = start.net.node(a);
    let many = max_samples(node).max(MIN_WORKING_BLOCK);
    Ok(RingNode {
        actor: a,
        state: begin(alloc, node, start.room)?,
        ins,
        outs,
        takes: start.sizes.rows(alloc, start.net, a, Side::Input)?,
        puts: start.sizes.rows(alloc, start.net, a, Side::Output)?,
        taken: fillers(alloc, start.filler, many)?,
        put: fillers(alloc, start.filler, many)?,
        done: 0,
        asked: start.asked[a],
    })
}

/// Returns node `a` before its first firing. The ring ends at its ports are taken out of `ends`.
pub(crate) fn begin_node<A: Actor>(
    alloc: Global,
    start: &Start<A>,
    ends: &mut OpenEnds<A::Token>,
    a: usize,
) -> Result<RingNode<A>, AllocError>
    requires known { a < length start.now.net.now.nodes }
    requires start { IsStart A.steps start.now }
    requires ends { HasEnds start.now.net.now a ends.old.producers.items ends.old.consumers.items }
    ensures begun { IfOk result (HasBegun A.steps start.now.net.now (lists start.now.inputs.now)
        (slice_index start.now.asked.items) ends.old.producers.items ends.old.consumers.items a) }
    ensures producers { OnOk result ((c : ℕ) → ((wire start.now.net.now c).from.0 ≡ a → ⊥) →
        end_at ends.new.producers.items c ≡ end_at ends.old.producers.items c) }
    ensures consumers { OnOk result ((c : ℕ) → ((wire start.now.net.now c).to.0 ≡ a → ⊥) →
        end_at ends.new.consumers.items c ≡ end_at ends.old.consumers.items c) }
{
    let ins = take_ends(alloc, &mut ends.consumers, start.net.channels_in(a))?;
    let outs = take_ends(alloc, &mut ends.producers, start.net.channels_out(a))?;
    make_node(alloc, start, a, ins, outs)
}

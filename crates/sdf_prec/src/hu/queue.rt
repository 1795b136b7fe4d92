//! The ready firings, in the order in which they are tried.

ghost use Rattle.std.specs.Prelude.{◌≡◌, ℕ, ◌<◌, ◌≤◌, ◌⊎◌, ◌↔◌, ◌==◌, length, filter, slice_index, IsTrue, IfOk};
ghost use Rattle.std.specs.Prelude.{MatchBool};
ghost use Rattle.sdf_graph.specs.Rates.{rates};
ghost use Rattle.sdf_prec.specs.declared.firing.Firing.{Firing};
ghost use Rattle.sdf_prec.specs.Numbers.{InBlock, number};
ghost use Rattle.sdf_prec.specs.Tables.{firing, Stands};
ghost use Rattle.sdf_prec.specs.Trying.{IsTriedBefore, IsQueue};
ghost use Rattle.sdf_prec.specs.Floor.{IsNextReady};
ghost use Rattle.sdf_prec.specs.Queued.{AreInTurn, IsQueueOf, IsUnmarked, is_next};

use crate::firing::Firing;
use crate::hu::marked::Marks;
use crate::levels::level::Levels;
use sdf_graph::Counts;
use std::alloc::AllocError;

/// Checks whether the next firing of `actor` may start: the firings before it have ended, and the ended firings of all
/// actors leave it its samples.
fn is_ready(counts: &Counts, started: &[u32], firings: &[u32], actor: usize) -> bool
    requires known { actor < counts.now.graph.actors }
    requires started { length started.now ≡ counts.now.graph.actors }
    requires firings { length firings.now ≡ counts.now.graph.actors }
    ensures { IsTrue result ↔ IsNextReady (rates counts.now.graph) (slice_index firings.now)
        (slice_index counts.now.fired) (slice_index started.now)
        (record { actor = actor; number = slice_index started.now actor }) }
{
    started[actor] < firings[actor]
        && counts.fired(actor) == started[actor]
        && counts.enabled(actor)
}

/// Checks whether `queued` is tried before `ready`, a firing of another actor.
fn is_before(levels: &Levels, queued: Firing, ready: Firing) -> bool
    requires queued { InBlock levels.now.firings queued }
    requires ready { InBlock levels.now.firings ready }
    ensures { MatchBool result (IsTriedBefore (number levels.now) queued ready)
        ((IsTriedBefore (number levels.now) ready queued) ⊎ (queued.actor ≡ ready.actor)) }
{
    let (level, other) = (levels.of(queued), levels.of(ready));
    other < level || other == level && queued.actor < ready.actor
}

/// Returns how many firings of `queue` are tried before `ready`, by binary search.
fn place_of(queue: &[Firing], levels: &Levels, ready: Firing) -> usize
    requires each { (p : ℕ) → p < length queue.now → InBlock levels.now.firings (firing queue.now p) }
    requires own { InBlock levels.now.firings ready }
    requires sorted { AreInTurn (number levels.now) queue.now }
    ensures within { result ≤ length queue.now }
    ensures before { (p : ℕ) → p < result → IsTriedBefore (number levels.now) (firing queue.now p) ready }
    ensures after { result < length queue.now →
        (IsTriedBefore (number levels.now) ready (firing queue.now result))
        ⊎ ((firing queue.now result).actor ≡ ready.actor) }
{
    let (mut low, mut high) = (0, queue.len());
    while low < high {
        let middle = low + (high - low) / 2;
        if is_before(levels, queue[middle], ready) {
            low = middle + 1;
        } else {
            high = middle;
        }
    }
    low
}

/// Adds `ready` to `queue`, unless its actor has a firing there.
fn add(queue: &mut Vec<Firing>, levels: &Levels, ready: Firing) -> Result<(), AllocError>
    requires each { (p : ℕ) → p < length queue.old.items → InBlock levels.now.firings (firing queue.old.items p) }
    requires own { InBlock levels.now.firings ready }
    requires once { (p : ℕ) → p < length queue.old.items → (firing queue.old.items p).actor ≡ ready.actor →
        firing queue.old.items p ≡ ready }
    requires sorted { AreInTurn (number levels.now) queue.old.items }
    ensures sorted { IfOk result (λ _. AreInTurn (number levels.now) queue.new.items) }
    ensures stands { IfOk result (λ _. (f : Firing) → Stands queue.new.items f ↔
        (Stands queue.old.items f ⊎ (f ≡ ready))) }
{
    let place = place_of(queue, levels, ready);
    if place < queue.len() && queue[place].actor == ready.actor {
        return Ok(());
    }
    queue.insert(place, ready)?;
    Ok(())
}

/// Adds the firings of marked actors that have become ready to `queue`, and removes the marks.
pub(crate) fn add_ready(
    queue: &mut Vec<Firing>,
    counts: &Counts,
    started: &[u32],
    firings: &[u32],
    levels: &Levels,
    marks: &mut Marks,
) -> Result<(), AllocError>
    requires started { length started.now ≡ counts.now.graph.actors }
    requires firings { length firings.now ≡ counts.now.graph.actors }
    requires marks { length marks.old ≡ counts.now.graph.actors }
    requires levels { levels.now.firings ≡ firings.now }
    requires queue { IsQueueOf (number levels.now)
        (IsNextReady (rates counts.now.graph) (slice_index firings.now) (slice_index counts.now.fired)
        (slice_index started.now)) (IsUnmarked marks.old) queue.old.items }
    ensures same { length marks.new ≡ length marks.old }
    ensures queue { IfOk result (λ _. IsQueue (number levels.now)
        (IsNextReady (rates counts.now.graph) (slice_index firings.now) (slice_index counts.now.fired)
        (slice_index started.now)) queue.new.items) }
{
    while let Some(actor) = marks.take() {
        if is_ready(counts, started, firings, actor) {
            let number = started[actor];
            add(queue, levels, Firing { actor, number })?;
        }
    }
    Ok(())
}

/// Checks whether `firing` is its actor's next one, given how many firings each actor has started.
fn is_next(started: &[u32], firing: &Firing) -> bool
    ensures { result ≡ is_next started.now firing.now }
{
    started.get(firing.actor).copied().unwrap_or(0) == firing.number
}

/// Removes the firings that have started from `queue`.
pub(crate) fn remove_started(queue: &mut Vec<Firing>, started: &[u32])
    ensures { queue.new.items ≡ filter (is_next started.now) queue.old.items }
{
    queue.retain(|firing| is_next(started, firing));
}

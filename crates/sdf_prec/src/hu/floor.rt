//! The work while rows are made: counts of started firings, and when each column's firing ends.

ghost use Rattle.std.specs.Prelude.{◌≡◌, ℕ, ◌+◌, ◌<◌, ◌≤◌, ◌^◌, length, slice_index, Some, IfOk};
ghost use Rattle.sdf_graph.specs.Rates.{rates, IsSound};
ghost use Rattle.sdf_prec.specs.declared.firing.Firing.{Firing};
ghost use Rattle.sdf_prec.specs.Costs.{AreCosts};
ghost use Rattle.sdf_prec.specs.Tables.{cell_of};
ghost use Rattle.sdf_prec.specs.Floor.{AreStarted, IsNextEnd, AreAtWork, AreEnded};
ghost use Rattle.sdf_prec.specs.Queued.{IsUnmarked, IsApart, HasRested};

use crate::costs::Costs;
use crate::firing::Firing;
use crate::hu::marked::Marks;
use sdf_graph::{Counts, Graph};
use std::alloc::AllocError;

/// Starts the firings of the row `cells` at time `now`.
pub(crate) fn start(
    cells: &[Option<Firing>],
    now: u64,
    costs: &Costs,
    started: &mut [u32],
    whose: &mut [usize],
    until: &mut [u64],
)
    requires costs { AreCosts (length started.old) costs.now }
    requires wide { length cells.now ≡ length until.old }
    requires whose { length whose.old ≡ length until.old }
    requires early { now < 2 ^ 60 }
    requires known { (j : ℕ) (f : Firing) → cell_of cells.now j ≡ Some f → f.actor < length started.old }
    requires room { (j : ℕ) (f : Firing) → cell_of cells.now j ≡ Some f → f.number + 1 < 2 ^ 32 }
    requires once { (j m : ℕ) (f g : Firing) → cell_of cells.now j ≡ Some f → cell_of cells.now m ≡ Some g →
        f.actor ≡ g.actor → j ≡ m }
    ensures started { AreStarted (slice_index costs.now) now (length cells.now) cells.now (slice_index started.old)
        (slice_index whose.old) (slice_index until.old) (slice_index started.new) (slice_index whose.new)
        (slice_index until.new) }
    ensures actors { length started.new ≡ length started.old }
    ensures all { length whose.new ≡ length whose.old }
    ensures columns { length until.new ≡ length until.old }
{
    for column in 0..cells.len() {
        if let Some(firing) = cells[column] {
            started[firing.actor] = firing.number + 1;
            whose[column] = firing.actor;
            until[column] = now + u64::from(costs.of(firing.actor));
        }
    }
}

/// Returns the earliest time in `until` that is later than `now`.
pub(crate) fn next_end(until: &[u64], now: u64) -> Option<u64>
    ensures { IsNextEnd until.now now (length until.now) result }
{
    let (mut some, mut next) = (false, u64::MAX);
    for end in until {
        if *end > now {
            some = true;
            next = next.min(*end);
        }
    }
    if some { Some(next) } else { None }
}

/// Marks `actor` and the actors to which its channels go.
fn mark(graph: &Graph, actor: usize, marks: &mut Marks) -> Result<(), AllocError>
    requires known { actor < graph.now.actors }
    requires all { length marks.old ≡ graph.now.actors }
    ensures same { length marks.new ≡ length marks.old }
    ensures left { IfOk result (λ _. (a : ℕ) → IsUnmarked marks.new a → IsUnmarked marks.old a) }
    ensures apart { IfOk result (λ _. (a : ℕ) → IsUnmarked marks.new a → IsApart (rates graph.now) actor a) }
{
    marks.set(actor)?;
    let channels = graph.channels();
    for number in graph.outgoing(actor) {
        let channel = &channels[*number];
        marks.set(channel.to)?;
    }
    Ok(())
}

/// Ends the firings that end at time `now`, and marks the actors that may be ready then.
pub(crate) fn end_firings(
    now: u64,
    graph: &Graph,
    whose: &[usize],
    until: &[u64],
    counts: &mut Counts,
    marks: &mut Marks,
) -> Result<(), AllocError>
    requires graph { counts.old.graph ≡ graph.now }
    requires sound { IsSound (rates counts.old.graph) }
    requires marks { length marks.old ≡ counts.old.graph.actors }
    requires each { length counts.old.fired ≡ counts.old.graph.actors }
    requires whose { length whose.now ≡ length until.now }
    requires at_work { AreAtWork (rates counts.old.graph) now (length until.now) (slice_index counts.old.fired)
        (slice_index whose.now) (slice_index until.now) }
    requires room { (a : ℕ) → slice_index counts.old.fired a + 1 < 2 ^ 32 }
    ensures same { counts.new.graph ≡ counts.old.graph }
    ensures all { length counts.new.fired ≡ length counts.old.fired }
    ensures rises { (a : ℕ) → slice_index counts.old.fired a ≤ slice_index counts.new.fired a }
    ensures marked { length marks.new ≡ length marks.old }
    ensures ended { IfOk result (λ _. AreEnded now (length until.now) (slice_index whose.now) (slice_index until.now)
        counts.old.fired counts.new.fired) }
    ensures rested { IfOk result (λ _. (a : ℕ) → IsUnmarked marks.new a →
        HasRested (rates counts.old.graph) counts.old.fired counts.new.fired a) }
{
    for column in 0..until.len() {
        if until[column] == now {
            mark(graph, whose[column], marks)?;
            counts.fire(whose[column]);
        }
    }
    Ok(())
}

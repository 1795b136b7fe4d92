//! Comparison of two documents that may differ in their costs.

ghost use Rattle.std.specs.Prelude.{◌≡◌, ◌↔◌, IsTrue, map};
ghost use Rattle.sdf_document.specs.Actors.{actor_view, ActorValue};
ghost use Rattle.sdf_document.specs.Links.{link_view};
ghost use Rattle.sdf_document.specs.Document.{document_view};
ghost use Rattle.sdf_profile.specs.Written.{IsCosted, AreCosted, IsCostedDocument};

use sdf_document::{ActorEntry, Document, KindEntry, LinkEntry};

/// Returns whether two kinds, with their values, are equal.
#[tactic(auto, using(sdf_document::proofs::Theorems::kinds_decide))]
fn same_kind(one: &KindEntry, other: &KindEntry) -> bool
    ensures { IsTrue result ↔ one.now ≡ other.now }
{
    one == other
}

/// Returns whether `new` is the actor `old` with `cost`.
fn same_actor(old: &ActorEntry, new: &ActorEntry, cost: u32) -> bool
    ensures { IsTrue result ↔ IsCosted cost (actor_view old.now) (actor_view new.now) }
{
    old.name.as_str() == new.name.as_str()
        && same_kind(&old.kind, &new.kind)
        && old.processor == new.processor
        && new.cost == cost
}

/// Returns whether `new` are the actors `old` with `costs`, one each.
fn same_actors(old: &[ActorEntry], new: &[ActorEntry], costs: &[u32]) -> bool
    ensures { IsTrue result ↔ AreCosted costs.now (map actor_view old.now) (map actor_view new.now) }
{
    let Some((cost, costs)) = costs.split_first() else {
        return old.is_empty() && new.is_empty();
    };
    let Some((one, old)) = old.split_first() else {
        return false;
    };
    let Some((other, new)) = new.split_first() else {
        return false;
    };
    same_actor(one, other, *cost) && same_actors(old, new, costs)
}

/// Returns whether two links are equal.
#[tactic(auto, using(sdf_document::proofs::Theorems::links_decide))]
fn same_link(one: &LinkEntry, other: &LinkEntry) -> bool
    ensures { IsTrue result ↔ link_view one.now ≡ link_view other.now }
{
    one == other
}

/// Returns whether two lists of links are equal.
fn same_links(one: &[LinkEntry], other: &[LinkEntry]) -> bool
    ensures { IsTrue result ↔ map link_view one.now ≡ map link_view other.now }
{
    match (one, other) {
        ([], []) => true,
        ([first, one @ ..], [second, other @ ..]) => {
            same_link(first, second) && same_links(one, other)
        }
        _ => false,
    }
}

/// Returns whether `new` is the document `old` with `costs`, one for each actor.
pub(crate) fn is_costed(old: &Document, new: &Document, costs: &[u32]) -> bool
    ensures { IsTrue result ↔ IsCostedDocument costs.now (document_view old.now) (document_view new.now) }
{
    new.rate == old.rate
        && same_actors(&old.actors, &new.actors, costs)
        && same_links(&new.links, &old.links)
}

//! The lines about an actor, from its table.

ghost use Rattle.std.specs.Prelude.{◌≡◌, ◌++◌, IfOk, OnOk, option_map, string_bytes};
ghost use Rattle.toml.specs.View.{view};
ghost use Rattle.sdf_why.specs.Actors.{actor_is, actor_told, actor_limits, actor_key, first_told};

use crate::limits::limits_of;
use crate::tables::{entry, first_with_text, text_at, value_at};
use crate::words::{push_actor, push_key};
use sdf_limits::MAX_ACTORS;
use std::alloc::{AllocError, Global};
use toml::Value;

/// Adds the line of the actor `number`, whose table is `actor`.
pub(crate) fn push_actor_table(
    alloc: Global,
    text: &mut String,
    number: usize,
    actor: &Value,
) -> Result<(), AllocError>
    ensures { OnOk result (string_bytes text.new ≡ string_bytes text.old ++ actor_is number (view actor.now)) }
{
    push_actor(
        alloc,
        text,
        number,
        text_at(actor, "name"),
        text_at(actor, "kind"),
    )
}

/// Adds the line of the actor `number`, if there is one.
#[tactic(auto, unfolding(crate::specs::Actors::actor_told))]
pub(crate) fn push_actor_of(
    alloc: Global,
    text: &mut String,
    graph: &Value,
    number: usize,
) -> Result<(), AllocError>
    ensures { OnOk result (string_bytes text.new ≡ string_bytes text.old ++ actor_told (view graph.now) number) }
{
    match entry(graph, "actor", number) {
        Some(actor) => push_actor_table(alloc, text, number, actor),
        None => Ok(()),
    }
}

/// Returns the limits of `key` for the kind of `actor`.
#[tactic(auto, unfolding(crate::specs::Actors::actor_limits))]
pub(crate) fn actor_limits(
    alloc: Global,
    key: &str,
    actor: &Value,
) -> Result<Option<String>, AllocError>
    ensures { IfOk result (λ o. option_map string_bytes o ≡ actor_limits key.now (view actor.now)) }
{
    match text_at(actor, "kind") {
        Some(word) => limits_of(alloc, word, key),
        None => Ok(None),
    }
}

/// Adds the line of the actor `number`, and the line of its `key`, with `limits` if there are any.
#[tactic(auto, unfolding(crate::specs::Actors::actor_key))]
pub(crate) fn push_actor_key(
    alloc: Global,
    text: &mut String,
    graph: &Value,
    number: usize,
    key: &str,
    limits: Option<&str>,
) -> Result<(), AllocError>
    ensures { OnOk result (string_bytes text.new ≡ string_bytes text.old
        ++ actor_key number key.now (option_map (λ s. s.now) limits.entry) (view graph.now)) }
{
    let Some(actor) = entry(graph, "actor", number) else {
        return Ok(());
    };
    push_actor_table(alloc, text, number, actor)?;
    push_key(alloc, text, key, value_at(actor, key), limits)
}

/// Adds the first actor that has the text `said` at `key`.
#[tactic(auto, unfolding(crate::specs::Actors::first_told))]
pub(crate) fn push_first(
    alloc: Global,
    text: &mut String,
    graph: &Value,
    key: &str,
    said: &str,
) -> Result<(), AllocError>
    ensures { OnOk result (string_bytes text.new ≡ string_bytes text.old
        ++ first_told key.now said.now (view graph.now)) }
{
    match first_with_text(graph, key, said, MAX_ACTORS) {
        Some(actor) => push_actor_of(alloc, text, graph, actor),
        None => Ok(()),
    }
}

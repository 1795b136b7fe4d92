//! The lines about a key at a place.

ghost use Rattle.std.specs.Prelude.{◌≡◌, ◌++◌, IfOk, OnOk, option_map, string_bytes};
ghost use Rattle.toml.specs.View.{view};
ghost use Rattle.sdf_document.specs.Fault.{place_view, actor as at_actor};
ghost use Rattle.sdf_document.specs.Lists.{files_view};
ghost use Rattle.sdf_why.specs.Places.{top_limits, limits_at, place_key};

use crate::actors::{actor_limits, push_actor_key, push_first};
use crate::coefficients::push_file_key;
use crate::links::push_link_key;
use crate::tables::{Source, entry, value_at};
use crate::words::push_key;
use sdf_document::{MAX_HZ, Place};
use std::alloc::{AllocError, Global};
use toml::Value;

/// Returns the limits of `key` at the top of a graph file. Only `rate` has some.
fn top_limits(alloc: Global, key: &str) -> Result<Option<String>, AllocError>
    ensures { IfOk result (λ o. option_map string_bytes o ≡ top_limits key.now) }
{
    if key == "rate" {
        let limits = format!(in alloc; "1..{MAX_HZ}")?;
        Ok(Some(limits))
    } else {
        Ok(None)
    }
}

/// Returns the limits of `key` of `actor`, by its kind.
fn limits_in(
    alloc: Global,
    graph: &Value,
    actor: usize,
    key: &str,
) -> Result<Option<String>, AllocError>
    ensures { IfOk result (λ o. option_map string_bytes o ≡ limits_at (at_actor actor) key.now (view graph.now)) }
{
    match entry(graph, "actor", actor) {
        Some(actor) => actor_limits(alloc, key, actor),
        None => Ok(None),
    }
}

/// Returns the limits of `key` at `place`: of `rate` at the top, and of the keys of an actor.
pub(crate) fn limits_at(
    alloc: Global,
    graph: &Value,
    place: &Place,
    key: &str,
) -> Result<Option<String>, AllocError>
    ensures { IfOk result (λ o. option_map string_bytes o ≡
        limits_at (place_view place.now) key.now (view graph.now)) }
{
    match place {
        Place::Top => top_limits(alloc, key),
        Place::Actor(number) => limits_in(alloc, graph, *number, key),
        _ => Ok(None),
    }
}

/// Adds what `place` is, and the line of its `key`, with `limits` if there are any.
pub(crate) fn push_place_key(
    alloc: Global,
    text: &mut String,
    source: Source<'_>,
    place: &Place,
    key: &str,
    limits: Option<&str>,
) -> Result<(), AllocError>
    ensures { OnOk result (string_bytes text.new ≡ string_bytes text.old ++ place_key
        (place_view place.now) key.now (option_map (λ s. s.now) limits.entry) (view source.entry.graph.now)
        (files_view source.entry.files.now)) }
{
    let graph = source.graph;
    match place {
        Place::Top => push_key(alloc, text, key, value_at(graph, key), limits),
        Place::Actor(number) => push_actor_key(alloc, text, graph, *number, key, limits),
        Place::Link(number) => push_link_key(alloc, text, graph, *number, key, limits),
        Place::File(name) => {
            push_first(alloc, text, graph, "file", name.as_str())?;
            push_file_key(alloc, text, source.files, name.as_str(), key, limits)
        }
    }
}

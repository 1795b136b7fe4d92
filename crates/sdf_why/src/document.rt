//! The diagnostic for a graph file that is not read.

ghost use Rattle.std.specs.Prelude.{◌≡◌, ◌++◌, IfOk, OnOk, option_map, string_bytes};
ghost use Rattle.toml.specs.View.{view};
ghost use Rattle.sdf_document.specs.Fault.{place_view, fault_view, kit_value, unknown_key, bad_name, unknown_kind};
ghost use Rattle.sdf_document.specs.Fault.{bad_port};
ghost use Rattle.sdf_document.specs.Lists.{files_view};
ghost use Rattle.sdf_why.specs.Documents.{place_within, place_format, beside_is, listed_at, row_is};
ghost use Rattle.sdf_why.specs.Documents.{keys_are, known_keys, same_name, name_twice_lines, counted, name_rule, told};
ghost use Rattle.sdf_why.specs.Documents.{document_text};

use crate::actors::{push_actor_of, push_first};
use crate::coefficients::push_values;
use crate::kind::push_kind;
use crate::limits::keys_of;
use crate::links::push_link_key;
use crate::near::{push_near_end, push_near_key};
use crate::places::{limits_at, push_place_key};
use crate::tables::{Source, actor_text, entry, first_with_text, root, text_at, value_at};
use crate::types::push_type;
use crate::words::push_key;
use sdf_document::{CoefficientFile, DocumentFault, Place};
use sdf_kinds::keys_text;
use sdf_limits::{MAX_ACTORS, MAX_LINKS};
use std::alloc::{AllocError, Global};
use toml::Value;

/// Adds what `place` is, and the line of its `key` with the limits.
fn push_place(
    alloc: Global,
    text: &mut String,
    source: Source<'_>,
    place: &Place,
    key: &str,
) -> Result<(), AllocError>
    ensures { OnOk result (string_bytes text.new ≡ string_bytes text.old ++ place_within
        (place_view place.now) key.now (view source.entry.graph.now) (files_view source.entry.files.now)) }
{
    let limits = limits_at(alloc, source.graph, place, key)?;
    push_place_key(alloc, text, source, place, key, limits.as_deref())
}

/// Adds the line of the key `format` at `place`, with its limits.
fn push_format(
    alloc: Global,
    text: &mut String,
    source: Source<'_>,
    place: &Place,
) -> Result<(), AllocError>
    ensures { OnOk result (string_bytes text.new ≡ string_bytes text.old ++ place_format
        (place_view place.now) (view source.entry.graph.now) (files_view source.entry.files.now)) }
{
    match place {
        Place::File(_) => push_place_key(alloc, text, source, place, "format", Some("1")),
        _ => {
            let format = value_at(source.graph, "format");
            push_key(alloc, text, "format", format, Some("1 or 2"))
        }
    }
}

/// Adds that the key `file` stands beside the list `key`, if `actor` has the list.
fn push_listed(text: &mut String, key: &str, actor: &Value) -> Result<(), AllocError>
    ensures { OnOk result (string_bytes text.new ≡ string_bytes text.old ++ listed_at key.now (view actor.now)) }
{
    if value_at(actor, key).is_none() {
        return Ok(());
    }
    writeln!(text, "  file stands beside {key}")
}

#[tactic(auto, unfolding(crate::specs::Documents::beside_is))]
fn push_beside(text: &mut String, key: &str, actor: &Value) -> Result<(), AllocError>
    ensures { OnOk result (string_bytes text.new ≡ string_bytes text.old ++ beside_is key.now (view actor.now)) }
{
    if key != "file" {
        return Ok(());
    }
    push_listed(text, "taps", actor)?;
    push_listed(text, "values", actor)
}

/// Adds the row of the kind `word` in the table of kinds.
#[tactic(auto, unfolding(crate::specs::Documents::row_is))]
fn push_row(alloc: Global, text: &mut String, word: &str) -> Result<(), AllocError>
    ensures { OnOk result (string_bytes text.new ≡ string_bytes text.old ++ row_is word.now) }
{
    let Some(keys) = keys_of(word) else {
        return Ok(());
    };
    let listed = keys_text(alloc, keys)?;
    let row = listed.as_str();
    writeln!(text, "  {word}: {row}")
}

#[tactic(auto, unfolding(crate::specs::Documents::keys_are))]
fn push_keys(alloc: Global, text: &mut String, key: &str, actor: &Value) -> Result<(), AllocError>
    ensures { OnOk result (string_bytes text.new ≡ string_bytes text.old ++ keys_are key.now (view actor.now)) }
{
    push_beside(text, key, actor)?;
    match text_at(actor, "kind") {
        Some(word) => push_row(alloc, text, word),
        None => Ok(()),
    }
}

/// Adds the keys that an actor may have, if `place` is an actor.
#[tactic(auto, unfolding(crate::specs::Documents::known_keys))]
fn push_known(
    alloc: Global,
    text: &mut String,
    graph: &Value,
    place: &Place,
    key: &str,
) -> Result<(), AllocError>
    ensures { OnOk result (string_bytes text.new ≡ string_bytes text.old
        ++ known_keys (place_view place.now) key.now (view graph.now)) }
{
    let Place::Actor(number) = place else {
        return Ok(());
    };
    match entry(graph, "actor", *number) {
        Some(actor) => push_keys(alloc, text, key, actor),
        None => Ok(()),
    }
}

/// Adds the first actor before the actor `number` that has this `name`.
fn push_same_name(
    alloc: Global,
    text: &mut String,
    graph: &Value,
    number: usize,
    name: &str,
) -> Result<(), AllocError>
    ensures { OnOk result (string_bytes text.new ≡ string_bytes text.old
        ++ same_name number (view graph.now) name.now) }
{
    match first_with_text(graph, "name", name, number) {
        Some(earlier) => push_actor_of(alloc, text, graph, earlier),
        None => Ok(()),
    }
}

/// Adds the actor `number`, and the earlier actor with its name.
#[tactic(auto, unfolding(crate::specs::Documents::name_twice_lines))]
fn push_name_twice(
    alloc: Global,
    text: &mut String,
    graph: &Value,
    number: usize,
) -> Result<(), AllocError>
    ensures { OnOk result (string_bytes text.new ≡ string_bytes text.old ++ name_twice_lines number (view graph.now)) }
{
    push_actor_of(alloc, text, graph, number)?;
    match actor_text(graph, "name", number) {
        Some(name) => push_same_name(alloc, text, graph, number, name),
        None => Ok(()),
    }
}

/// Adds the line of `key`, with limits from `least` to `most`. An array of tables is shown by its length.
pub(crate) fn push_counted(
    alloc: Global,
    text: &mut String,
    graph: &Value,
    key: &str,
    least: usize,
    most: usize,
) -> Result<(), AllocError>
    ensures { OnOk result (string_bytes text.new ≡ string_bytes text.old
        ++ counted key.now least most (view graph.now)) }
{
    let limits = format!(in alloc; "{least}..{most}")?;
    push_key(
        alloc,
        text,
        key,
        value_at(graph, key),
        Some(limits.as_str()),
    )
}

/// Adds the rule for a name at `key`.
#[tactic(auto, unfolding(crate::specs::Documents::name_rule))]
fn push_name_rule(text: &mut String, key: &str) -> Result<(), AllocError>
    ensures { OnOk result (string_bytes text.new ≡ string_bytes text.old ++ name_rule key.now) }
{
    if key == "file" {
        text.push_str("  a file's name has 1 to 64 of A-Z a-z 0-9 _ - ., the first no dot\n")
    } else {
        text.push_str("  a name has 1 to 32 of A-Z a-z 0-9 _ -, the first a letter\n")
    }
}

/// Adds the lines of `28 KitValue`.
fn push_bad_value(
    alloc: Global,
    text: &mut String,
    source: Source<'_>,
    place: &Place,
    key: &str,
) -> Result<(), AllocError>
    ensures { OnOk result (string_bytes text.new ≡ string_bytes text.old
        ++ told (kit_value (place_view place.now) key.now) (view source.entry.graph.now)
        (files_view source.entry.files.now)) }
{
    push_place(alloc, text, source, place, key)?;
    push_values(alloc, text, source, place, key)
}

/// Adds the lines of `51 UnknownKey`.
fn push_unknown_key(
    alloc: Global,
    text: &mut String,
    source: Source<'_>,
    place: &Place,
    key: &str,
) -> Result<(), AllocError>
    ensures { OnOk result (string_bytes text.new ≡ string_bytes text.old
        ++ told (unknown_key (place_view place.now) key.now) (view source.entry.graph.now)
        (files_view source.entry.files.now)) }
{
    push_place(alloc, text, source, place, key)?;
    push_near_key(alloc, text, source.graph, place, key)?;
    push_known(alloc, text, source.graph, place, key)
}

/// Adds the lines of `54 BadName`.
fn push_bad_name(
    alloc: Global,
    text: &mut String,
    source: Source<'_>,
    place: &Place,
    key: &str,
) -> Result<(), AllocError>
    ensures { OnOk result (string_bytes text.new ≡ string_bytes text.old
        ++ told (bad_name (place_view place.now) key.now) (view source.entry.graph.now)
        (files_view source.entry.files.now)) }
{
    push_place_key(alloc, text, source, place, key, None)?;
    push_name_rule(text, key)
}

/// Adds the lines of `56 UnknownKind` at the actor `number`.
fn push_unknown_kind(
    alloc: Global,
    text: &mut String,
    source: Source<'_>,
    number: usize,
) -> Result<(), AllocError>
    ensures { OnOk result (string_bytes text.new ≡ string_bytes text.old
        ++ told (unknown_kind number) (view source.entry.graph.now) (files_view source.entry.files.now)) }
{
    push_actor_of(alloc, text, source.graph, number)?;
    push_kind(alloc, text, source.graph, number)
}

/// Adds the lines of `57 BadPort` at the end `key` of the link `number`.
fn push_bad_port(
    alloc: Global,
    text: &mut String,
    source: Source<'_>,
    number: usize,
    key: &str,
) -> Result<(), AllocError>
    ensures { OnOk result (string_bytes text.new ≡ string_bytes text.old
        ++ told (bad_port number key.now) (view source.entry.graph.now) (files_view source.entry.files.now)) }
{
    let wanted = Some("NAME or NAME:PORT, a port of 0..15");
    push_link_key(alloc, text, source.graph, number, key, wanted)?;
    push_near_end(alloc, text, source.graph, number, key)
}

/// Adds the lines of a fault.
fn push_fault(
    alloc: Global,
    text: &mut String,
    source: Source<'_>,
    fault: &DocumentFault,
) -> Result<(), AllocError>
    ensures { OnOk result (string_bytes text.new ≡ string_bytes text.old
        ++ told (fault_view fault.now) (view source.entry.graph.now)
        (files_view source.entry.files.now)) }
{
    let graph = source.graph;
    match fault {
        DocumentFault::ActorCount => push_counted(alloc, text, graph, "actor", 1, MAX_ACTORS),
        DocumentFault::ChannelCount => push_counted(alloc, text, graph, "link", 0, MAX_LINKS),
        DocumentFault::KitValue(place, key) => push_bad_value(alloc, text, source, place, key),
        DocumentFault::MissingKey(place, key) => push_place(alloc, text, source, place, key),
        DocumentFault::WrongType(place, key) => push_type(alloc, text, source, place, key),
        DocumentFault::BadName(place, key) => push_bad_name(alloc, text, source, place, key),
        DocumentFault::NotToml(_) => Ok(()),
        DocumentFault::Format(place) => push_format(alloc, text, source, place),
        DocumentFault::UnknownKey(place, key) => {
            push_unknown_key(alloc, text, source, place, key.as_str())
        }
        DocumentFault::NameTwice(number) => push_name_twice(alloc, text, graph, *number),
        DocumentFault::UnknownKind(number) => push_unknown_kind(alloc, text, source, *number),
        DocumentFault::BadPort(number, key) => push_bad_port(alloc, text, source, *number, key),
        DocumentFault::NoFile(name) => push_first(alloc, text, graph, "file", name.as_str()),
    }
}

/// Returns the diagnostic for a `fault` of a graph file or one of its coefficient files. It is empty if the graph file
/// is not TOML.
#[tactic(auto, unfolding(crate::specs::Documents::document_text))]
pub fn document_text(
    alloc: Global,
    fault: &DocumentFault,
    graph: &[u8],
    files: &[CoefficientFile],
) -> Result<String, AllocError>
    ensures { IfOk result (λ text. string_bytes text ≡
        document_text (fault_view fault.now) graph.now (files_view files.now)) }
{
    let mut text = String::new(alloc);
    if let Some(graph) = root(alloc, graph)? {
        let source = Source {
            graph: &graph,
            files,
        };
        push_fault(alloc, &mut text, source, fault)?;
    }
    Ok(text)
}
